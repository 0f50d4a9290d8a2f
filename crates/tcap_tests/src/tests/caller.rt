//! The worked callers, run.

use std::alloc::Global;
use std::test::Fail;
use tcap_callers::{clock_after, first_operation, hear_again, hear_at, operate};
use tcap_engine::{Address, DropWhy, Engine, Fault, Indication, Limits, Outbox, Output, OutputRef};

#[test]
fn operations_of_messages(rt: HostRuntime) -> Result<(), Fail> {
    let rows = [
        // A Begin with an Invoke of operation 2, one with a result and then an Invoke, an Abort, no message.
        ("62154804000000016C0DA10B02010102010230030401AA", Some(2)),
        ("62154804000000016C0DA203020101A106020102020107", Some(7)),
        ("67094904000000014A0102", None),
        ("6206", None),
    ];
    for (hex, operation) in rows {
        let bytes = hex::decode(rt.alloc(), hex)?;
        assert!(rt; first_operation(bytes.as_slice()) == operation, "at {hex}");
    }
    Ok(())
}

/// Whether the clock goes on to the first of three moments, stays there at an earlier one, and the last is too late.
fn has_clocks(engine: &mut Engine) -> bool {
    let first = clock_after(engine, 5);
    let second = clock_after(engine, 4);
    let last = clock_after(engine, u64::MAX);
    first == Ok(5) && second == Ok(5) && last == Err(Fault::MomentTooLate)
}

/// Whether no bytes are dropped, and nothing lapses at the moment after them.
fn hears_nothing(engine: &mut Engine, from: &Address) -> Option<bool> {
    let (heard, lapsed) = hear_at(engine, from, &[], 7);
    let heard = heard.ok()?;
    let is_dropped = matches!(heard.as_slice(), [Output::Dropped(DropWhy::BadMessage)]);
    Some(is_dropped && lapsed.ok()?.is_empty())
}

/// Whether no bytes are dropped, twice, and only the second is told of then.
fn hears_nothing_again(alloc: Global, engine: &mut Engine, from: &Address) -> Option<bool> {
    let mut outbox = Outbox::new(alloc);
    hear_again(engine, from, &[], &mut outbox).ok()?;
    hear_again(engine, from, &[], &mut outbox).ok()?;
    let is_dropped = matches!(
        outbox.get(0),
        Some(OutputRef::Indication(Indication::Dropped(DropWhy::BadMessage)))
    );
    Some(is_dropped && outbox.len() == 1)
}

#[test]
fn clocks_and_histories_of_an_engine(rt: HostRuntime) -> Result<(), Fail> {
    let limits = Limits {
        max_dialogues: 1,
        reject_ms: 0,
        idle_ms: 0,
    };
    let mut engine = Engine::new(rt.alloc(), limits);
    assert!(rt; has_clocks(&mut engine));
    let from = Address::new(&[0x01]).ok_or("one octet")?;
    assert!(rt; hears_nothing(&mut engine, &from) == Some(true));
    assert!(rt; hears_nothing_again(rt.alloc(), &mut engine, &from) == Some(true));
    assert!(rt; engine.now() == 7);
    Ok(())
}

#[test]
fn an_operation_between_two_engines(rt: HostRuntime) -> Result<(), Fail> {
    assert!(rt; operate(rt.alloc()) == Some((1, 1)));
    Ok(())
}

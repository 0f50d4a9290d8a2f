//! The calls of a dialogue that take no memory, at the values of a worked example.

use refusing::Refusing;
use std::alloc::Allocator;
use std::test::Fail;
use tcap_component::Code;
use tcap_dialogue::{Address, BeginVerdict, Dialogue, Fault, judge_begin};
use tcap_invocation::Class;

/// What a dialogue refuses of an Invoke of this identifier, which waits this long for its answer.
fn refusal<A: Allocator + Copy>(dialogue: &Dialogue<A>, id: i8, timeout_ms: u64) -> Option<Fault> {
    dialogue.check_invoke(id, Code::Local(10), None, timeout_ms)
}

/// A dialogue that has sent the Invoke of this identifier, with the number 7, in its Begin; nothing where that
/// is refused.
fn begun<A: Allocator + Copy>(heap: A, to: &Address, id: i8) -> Option<Dialogue<A>> {
    let mut dialogue = Dialogue::fresh(heap, 1, 500, 300);
    let code = Code::Local(10);
    let invoked = dialogue.invoke(7, id, Class::One, code, None, None, 1_000);
    let is_begun = dialogue.begin(to, None, &[], 0).is_ok();
    (invoked.is_ok() && is_begun).then_some(dialogue)
}

#[test]
fn calls_that_take_no_memory(rt: HostRuntime) -> Result<(), Fail> {
    let heap = Refusing::new(rt.alloc());
    let to = Address::new(&[0x0a]).ok_or("no address")?;
    let mut dialogue = begun(&heap, &to, 1).ok_or("refused")?;
    heap.refuse(1);
    assert!(rt; refusal(&dialogue, 1, 1_000) == Some(Fault::InvokeIdInUse));
    assert!(rt; refusal(&dialogue, 2, 0) == Some(Fault::BadTimeout));
    assert!(rt; refusal(&dialogue, 2, 1_000).is_none());
    assert!(rt; judge_begin(None) == BeginVerdict::Plain);
    assert!(rt; dialogue.idle_at() == Some(300) && dialogue.open_count() == 1);
    assert!(rt; dialogue.close_one() == Some((7, 1)) && dialogue.close_one().is_none());
    assert!(rt; dialogue.open_count() == 0 && heap.is_armed());
    Ok(())
}

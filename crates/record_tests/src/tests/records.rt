//! The record of an event of each kind, as the table of docs/FORMATS.md has it; the octets were written by hand.

use std::alloc::Global;
use std::test::Fail;
use tcap_component::{Body, Code, Kind, Problem};
use tcap_engine::{
    AbortRequest, AbortWhy, Address, BeginRequest, CancelRequest, ContinueRequest, EndRequest,
    Ending, ErrorRequest, Event, InvokeRequest, RejectRequest, ResultRequest, UniRequest,
};
use tcap_invocation::Class;
use tcap_record::{read, record_len, write};

/// The octets that a text spells in hexadecimal, with spaces between the fields.
pub(super) fn octets_of(alloc: Global, text: &str) -> Option<Vec<u8>> {
    let mut octets = Vec::new(alloc);
    for field in text.split(' ') {
        let more = hex::decode(alloc, field).ok()?;
        octets.extend_from_slice(more.as_slice()).ok()?;
    }
    Some(octets)
}

/// The record of an event.
fn record_of(alloc: Global, event: &Event<'_>) -> Option<Vec<u8>> {
    let mut octets = Vec::new(alloc);
    write(event, &mut octets).ok()?;
    Some(octets)
}

/// The record of the event that is read of a record.
fn record_again(alloc: Global, octets: &[u8]) -> Option<Vec<u8>> {
    let recorded = read(octets).ok()?;
    record_of(alloc, &recorded.event())
}

/// Whether the event has this record, which is as long as it says, and is that of the event that is read of it.
fn has_record(alloc: Global, event: &Event<'_>, text: &str) -> Option<bool> {
    let wanted = octets_of(alloc, text)?;
    let octets = record_of(alloc, event)?;
    let again = record_again(alloc, wanted.as_slice())?;
    Some(
        octets.as_slice() == wanted.as_slice()
            && again.as_slice() == wanted.as_slice()
            && record_len(event) == Some(wanted.len()),
    )
}

/// Whether each event has the record beside it.
fn have_records(alloc: Global, rows: &[(Event<'_>, &str)]) -> bool {
    let mut good = true;
    for (event, text) in rows {
        good &= has_record(alloc, event, text) == Some(true);
    }
    good
}

#[test]
fn invoke_requests(rt: HostRuntime) -> Result<(), Fail> {
    let rows = [
        (
            Event::Invoke(
                7,
                InvokeRequest {
                    id: -1,
                    class: Class::One,
                    code: Code::Local(56),
                    parameter: Some(&[0x04, 0x01, 0xaa]),
                    linked: None,
                    timeout_ms: 5000,
                },
            ),
            "01 02 00000007 ff 01 00 00000038 01 00000003 0401aa 00 0000000000001388",
        ),
        (
            Event::Invoke(
                4_294_967_295,
                InvokeRequest {
                    id: 127,
                    class: Class::Four,
                    code: Code::Global(&[0x2a, 0x03]),
                    parameter: None,
                    linked: Some(-128),
                    timeout_ms: 18_446_744_073_709_551_615,
                },
            ),
            "01 02 ffffffff 7f 04 01 00000002 2a03 00 01 80 ffffffffffffffff",
        ),
    ];
    assert!(rt; have_records(rt.alloc(), &rows));
    Ok(())
}

#[test]
fn answer_requests(rt: HostRuntime) -> Result<(), Fail> {
    let rows = [
        (
            Event::ResultLast(
                1,
                ResultRequest {
                    id: 5,
                    body: Some(Body {
                        code: Code::Local(-2),
                        parameter: None,
                    }),
                },
            ),
            "01 03 00000001 05 01 00 fffffffe 00",
        ),
        (
            Event::ResultMore(256, ResultRequest { id: 0, body: None }),
            "01 04 00000100 00 00",
        ),
        (
            Event::ErrorBack(
                2,
                ErrorRequest {
                    id: -128,
                    code: Code::Local(2_147_483_647),
                    parameter: Some(&[]),
                },
            ),
            "01 05 00000002 80 00 7fffffff 01 00000000",
        ),
    ];
    assert!(rt; have_records(rt.alloc(), &rows));
    Ok(())
}

#[test]
fn reject_and_cancel_requests(rt: HostRuntime) -> Result<(), Fail> {
    let problem = Problem::new(Kind::Invoke, 127).ok_or("a problem")?;
    let rows = [
        (
            Event::Reject(3, RejectRequest { id: None, problem }),
            "01 06 00000003 00 01 7f",
        ),
        (
            Event::Reject(
                3,
                RejectRequest {
                    id: Some(9),
                    problem,
                },
            ),
            "01 06 00000003 01 09 01 7f",
        ),
        (
            Event::Cancel(4, CancelRequest { id: 1 }),
            "01 07 00000004 01",
        ),
    ];
    assert!(rt; have_records(rt.alloc(), &rows));
    Ok(())
}

/// TC-UNI request on a dialogue.
fn uni<'a>(dialogue: u32, to: &'a Address, context: &'a [u8], info: &'a [u8]) -> Event<'a> {
    let context = Some(context);
    Event::Uni(dialogue, UniRequest { to, context, info })
}

/// TC-BEGIN request on a dialogue.
fn begin<'a>(dialogue: u32, to: &'a Address, context: &'a [u8], info: &'a [u8]) -> Event<'a> {
    let context = Some(context);
    Event::Begin(dialogue, BeginRequest { to, context, info })
}

/// TC-CONTINUE request on a dialogue, without a context.
fn go_on<'a>(dialogue: u32, info: &'a [u8]) -> Event<'a> {
    let context = None;
    Event::Continue(dialogue, ContinueRequest { context, info })
}

/// TC-END request on a dialogue, without context and user information.
fn end<'a>(dialogue: u32, ending: Ending) -> Event<'a> {
    let request = EndRequest {
        ending,
        context: None,
        info: &[],
    };
    Event::End(dialogue, request)
}

/// TC-U-ABORT request on a dialogue, without user information.
fn abort<'a>(dialogue: u32, why: AbortWhy) -> Event<'a> {
    Event::Abort(dialogue, AbortRequest { why, info: &[] })
}

/// Bytes that were received.
fn bytes<'a>(from: &'a Address, bytes: &'a [u8]) -> Event<'a> {
    Event::Bytes(from, bytes)
}

#[test]
fn addressed_events(rt: HostRuntime) -> Result<(), Fail> {
    let alloc = rt.alloc();
    let none = Address::empty();
    let to = Address::new(&[0x42]).ok_or("an address")?;
    let from = Address::new(&[0x01, 0x02]).ok_or("an address")?;
    let context = [0x04, 0x00, 0x00, 0x01, 0x00, 0x19, 0x02];
    let uni = has_record(
        alloc,
        &uni(5, &none, &[], &[0x28, 0x00]),
        "01 08 00000005 00 01 00000000 00000002 2800",
    );
    assert_eq!(rt; uni, Some(true));
    let begin = has_record(
        alloc,
        &begin(1, &to, &context, &[]),
        "01 09 00000001 01 42 01 00000007 04000001001902 00000000",
    );
    assert_eq!(rt; begin, Some(true));
    let bytes = has_record(alloc, &bytes(&from, &[0x64]), "01 0d 02 0102 00000001 64");
    assert_eq!(rt; bytes, Some(true));
    Ok(())
}

#[test]
fn other_events(rt: HostRuntime) -> Result<(), Fail> {
    let rows = [
        (Event::NewDialogue, "01 01"),
        (go_on(6, &[0x28]), "01 0a 00000006 00 00000001 28"),
        (end(9, Ending::Basic), "01 0b 00000009 00 00 00000000"),
        (end(0, Ending::Prearranged), "01 0b 00000000 01 00 00000000"),
        (abort(7, AbortWhy::User), "01 0c 00000007 00 00000000"),
        (
            abort(8, AbortWhy::NotSupported),
            "01 0c 00000008 01 00000000",
        ),
        (
            Event::Moment(4_611_686_018_427_387_904),
            "01 0e 4000000000000000",
        ),
    ];
    assert!(rt; have_records(rt.alloc(), &rows));
    Ok(())
}

//! Records written: appended to a vector, for which room is found first.

ghost use Rattle.std.specs.Prelude.{◌≡◌, ◌++◌, ◌<◌, ◌≤◌, ◌^◌, Some, None, IfErr, IsTrue, OnErr, OnOk, if◌then◌else◌, length, vec_capacity, vec_len};
ghost use Rattle.tcap_engine.specs.EventViews.{event_view};
ghost use Rattle.tcap_model.specs.Words.Event as model;
ghost use Rattle.tcap_model.specs.Words.InRange.{InRange};
ghost use Rattle.tcap_primitives.specs.RequestViews.{request_view};
ghost use Rattle.tcap_record.specs.Records.{HasRecord, fields_of, is_counted_event, record_of};
ghost use Rattle.tcap_record.specs.Writing.{Refuses};

mod counting;
mod kinds;
mod parts;

use self::counting::{
    body_len, coded_len, identifier_if_any_len, is_counted, is_counted_body, is_counted_coded,
    is_counted_portion, portion_len, string_len,
};
use self::kinds::put_record;
use crate::fault::WriteFault;
use std::alloc::Allocator;
use tcap_engine::{Event, Request};
use tcap_primitives::ranges;

/// The numbers of a request on a dialogue are those that its types hold.
fn asked_in_range(dialogue: u32, request: &Request<'_>)
    ensures { InRange (model.Event.on_dialogue dialogue (request_view request.now)) }
{
    ranges::short(dialogue);
    ranges::request(request);
}

/// The numbers of an event are those that its types hold.
fn in_range(event: &Event<'_>)
    ensures { InRange (event_view event.now) }
{
    match *event {
        Event::NewDialogue => {}
        Event::Invoke(dialogue, invoke) => asked_in_range(dialogue, &Request::Invoke(invoke)),
        Event::ResultLast(dialogue, last) => asked_in_range(dialogue, &Request::ResultLast(last)),
        Event::ResultMore(dialogue, more) => asked_in_range(dialogue, &Request::ResultMore(more)),
        Event::ErrorBack(dialogue, error) => asked_in_range(dialogue, &Request::ErrorBack(error)),
        Event::Reject(dialogue, reject) => asked_in_range(dialogue, &Request::Reject(reject)),
        Event::Cancel(dialogue, cancel) => asked_in_range(dialogue, &Request::Cancel(cancel)),
        Event::Uni(dialogue, uni) => asked_in_range(dialogue, &Request::Uni(uni)),
        Event::Begin(dialogue, begin) => asked_in_range(dialogue, &Request::Begin(begin)),
        Event::Continue(dialogue, go_on) => asked_in_range(dialogue, &Request::Continue(go_on)),
        Event::End(dialogue, end) => asked_in_range(dialogue, &Request::End(end)),
        Event::Abort(dialogue, abort) => asked_in_range(dialogue, &Request::Abort(abort)),
        Event::Bytes(from, bytes) => {
            ranges::address(from);
            ranges::octets(bytes);
        }
        Event::Moment(now) => ranges::long(now),
    }
}

/// Whether no part of an event has more octets than their number can tell.
fn is_counted_event(event: &Event<'_>) -> bool
    ensures { result ≡ is_counted_event (event_view event.now) }
{
    match event {
        Event::NewDialogue | Event::Reject(..) | Event::Cancel(..) | Event::Moment(_) => true,
        Event::Invoke(_, invoke) => is_counted_coded(&invoke.code, invoke.parameter),
        Event::ResultLast(_, result) | Event::ResultMore(_, result) => is_counted_body(result.body),
        Event::ErrorBack(_, error) => is_counted_coded(&error.code, error.parameter),
        Event::Uni(_, uni) => is_counted_portion(uni.context, uni.info),
        Event::Begin(_, begin) => is_counted_portion(begin.context, begin.info),
        Event::Continue(_, go_on) => is_counted_portion(go_on.context, go_on.info),
        Event::End(_, end) => is_counted_portion(end.context, end.info),
        Event::Abort(_, abort) => is_counted(abort.info),
        Event::Bytes(_, bytes) => is_counted(bytes),
    }
}

/// How many octets the fields of an event take.
fn fields_len(event: &Event<'_>) -> usize
    requires { IsTrue (is_counted_event (event_view event.now)) }
    ensures value { result ≡ length (fields_of (event_view event.now)) }
    ensures within { result < 2 ^ 62 }
{
    match event {
        Event::NewDialogue => 0,
        Event::Invoke(_, invoke) => {
            14 + coded_len(&invoke.code, invoke.parameter) + identifier_if_any_len(invoke.linked)
        }
        Event::ResultLast(_, result) | Event::ResultMore(_, result) => 5 + body_len(result.body),
        Event::ErrorBack(_, error) => 5 + coded_len(&error.code, error.parameter),
        Event::Reject(_, reject) => 6 + identifier_if_any_len(reject.id),
        Event::Cancel(..) => 5,
        Event::Uni(_, uni) => 5 + uni.to.octets().len() + portion_len(uni.context, uni.info),
        Event::Begin(_, begin) => {
            5 + begin.to.octets().len() + portion_len(begin.context, begin.info)
        }
        Event::Continue(_, go_on) => 4 + portion_len(go_on.context, go_on.info),
        Event::End(_, end) => 5 + portion_len(end.context, end.info),
        Event::Abort(_, abort) => 5 + string_len(abort.info),
        Event::Bytes(from, bytes) => 1 + from.octets().len() + string_len(bytes),
        Event::Moment(_) => 8,
    }
}

/// How many octets the record of an event has; `None` where a part of the event has more than 4,294,967,295
/// octets, and there is no record. It takes no memory.
pub fn record_len(event: &Event<'_>) -> Option<usize>
    ensures { result ≡ (if is_counted_event (event_view event.now)
        then Some (length (record_of (event_view event.now))) else None) }
{
    if is_counted_event(event) {
        Some(2 + fields_len(event))
    } else {
        None
    }
}

/// Appends the record of an event, for which room is found first. Where there is room already, it takes no
/// memory. An event without a record is refused before that.
pub fn write<A: Allocator + Copy>(event: &Event<'_>, out: &mut Vec<u8, A>) -> Result<(), WriteFault>
    // What is written is the record of the event, which is one that is read again.
    ensures written { OnOk result (out.new.items ≡ out.old.items ++ record_of (event_view event.now)) }
    ensures has_record { OnOk result (HasRecord (event_view event.now)) }
    // Which refusal: a part is too long, or there was no room and memory was refused.
    ensures refused { IfErr result (λ fault. Refuses fault (event_view event.now) (vec_len out.old)
        (vec_capacity out.old)) }
    ensures still { OnErr result (out.new.items ≡ out.old.items) }
    ensures capacity { vec_capacity out.old ≤ vec_capacity out.new }
{
    in_range(event);
    let Some(len) = record_len(event) else {
        return Err(WriteFault::TooLong);
    };
    if out.capacity() - out.len() < len {
        out.reserve(len)?;
    }
    put_record(out, event);
    Ok(())
}

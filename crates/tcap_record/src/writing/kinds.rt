//! The record of an event appended to a vector that has room for it, kind by kind: no memory is taken.

ghost use Rattle.std.specs.Prelude.{◌≡◌, ◌+◌, ◌≤◌, ◌++◌, IsTrue, length, vec_capacity, vec_len, option_copied};
ghost use Rattle.tcap_engine.specs.EventViews.{event_view};
ghost use Rattle.tcap_engine.specs.declared.event.Event.TheVariants as events;
ghost use Rattle.tcap_record.specs.Parts.{address, octet_string, optional};
ghost use Rattle.tcap_record.specs.Records.{event_octet, fields_of, is_counted, is_counted_event, is_counted_if_any, kind_of, record_of};

use super::parts::{
    put_address, put_body, put_class, put_code, put_ending, put_identifier, put_identifier_if_any,
    put_long, put_problem, put_short, put_string, put_string_if_any, put_why,
};
use std::alloc::Allocator;
use tcap_engine::{
    AbortRequest, Address, EndRequest, ErrorRequest, Event, InvokeRequest, RejectRequest,
    ResultRequest,
};

/// The version of the layout.
const VERSION: u8 = 1;

/// Appends the fields of a TC-INVOKE request.
fn put_invoke<A: Allocator + Copy>(out: &mut Vec<u8, A>, dialogue: u32, invoke: &InvokeRequest<'_>)
    requires counted { IsTrue (is_counted_event (event_view (events.Invoke dialogue invoke.now))) }
    requires room { vec_len out.old + length (fields_of (event_view (events.Invoke dialogue invoke.now)))
        ≤ vec_capacity out.old }
    ensures items { out.new.items ≡ out.old.items ++ fields_of (event_view (events.Invoke dialogue invoke.now)) }
    ensures capacity { vec_capacity out.old ≤ vec_capacity out.new }
{
    put_short(out, dialogue);
    put_identifier(out, invoke.id);
    put_class(out, invoke.class);
    put_code(out, &invoke.code);
    put_string_if_any(out, invoke.parameter);
    put_identifier_if_any(out, invoke.linked);
    put_long(out, invoke.timeout_ms);
}

/// Appends the fields of a TC-RESULT-L or TC-RESULT-NL request.
fn put_result<A: Allocator + Copy>(out: &mut Vec<u8, A>, dialogue: u32, given: &ResultRequest<'_>)
    requires counted { IsTrue (is_counted_event (event_view (events.ResultLast dialogue given.now))) }
    requires room { vec_len out.old + length (fields_of (event_view (events.ResultLast dialogue given.now)))
        ≤ vec_capacity out.old }
    ensures items { out.new.items ≡ out.old.items ++ fields_of (event_view (events.ResultLast dialogue given.now)) }
    ensures capacity { vec_capacity out.old ≤ vec_capacity out.new }
{
    put_short(out, dialogue);
    put_identifier(out, given.id);
    put_body(out, given.body);
}

/// Appends the fields of a TC-U-ERROR request.
fn put_error<A: Allocator + Copy>(out: &mut Vec<u8, A>, dialogue: u32, error: &ErrorRequest<'_>)
    requires counted { IsTrue (is_counted_event (event_view (events.ErrorBack dialogue error.now))) }
    requires room { vec_len out.old + length (fields_of (event_view (events.ErrorBack dialogue error.now)))
        ≤ vec_capacity out.old }
    ensures items { out.new.items ≡ out.old.items ++ fields_of (event_view (events.ErrorBack dialogue error.now)) }
    ensures capacity { vec_capacity out.old ≤ vec_capacity out.new }
{
    put_short(out, dialogue);
    put_identifier(out, error.id);
    put_code(out, &error.code);
    put_string_if_any(out, error.parameter);
}

/// Appends the fields of a TC-U-REJECT request.
fn put_reject<A: Allocator + Copy>(out: &mut Vec<u8, A>, dialogue: u32, reject: &RejectRequest)
    requires { vec_len out.old + length (fields_of (event_view (events.Reject dialogue reject.now)))
        ≤ vec_capacity out.old }
    ensures items { out.new.items ≡ out.old.items ++ fields_of (event_view (events.Reject dialogue reject.now)) }
    ensures capacity { vec_capacity out.old ≤ vec_capacity out.new }
{
    put_short(out, dialogue);
    put_identifier_if_any(out, reject.id);
    put_problem(out, reject.problem);
}

/// Appends a context that may be missing and user information.
fn put_portion<A: Allocator + Copy>(out: &mut Vec<u8, A>, context: Option<&[u8]>, info: &[u8])
    requires context { IsTrue (is_counted_if_any (option_copied context)) }
    requires info { IsTrue (is_counted info.now) }
    requires room { vec_len out.old + (length (optional octet_string (option_copied context))
        + length (octet_string info.now)) ≤ vec_capacity out.old }
    ensures items { out.new.items ≡ out.old.items ++ (optional octet_string (option_copied context.entry)
        ++ octet_string info.now) }
    ensures capacity { vec_capacity out.old ≤ vec_capacity out.new }
{
    put_string_if_any(out, context);
    put_string(out, info);
}

/// Appends a destination, and the context and the user information behind it.
fn put_addressed<A: Allocator + Copy>(
    out: &mut Vec<u8, A>,
    to: &Address,
    context: Option<&[u8]>,
    info: &[u8],
)
    requires context { IsTrue (is_counted_if_any (option_copied context)) }
    requires info { IsTrue (is_counted info.now) }
    requires room { vec_len out.old + (length (address to.now) + (length (optional octet_string
        (option_copied context)) + length (octet_string info.now))) ≤ vec_capacity out.old }
    ensures items { out.new.items ≡ out.old.items ++ (address to.now
        ++ (optional octet_string (option_copied context.entry) ++ octet_string info.now)) }
    ensures capacity { vec_capacity out.old ≤ vec_capacity out.new }
{
    put_address(out, to);
    put_portion(out, context, info);
}

/// Appends the fields of a TC-END request.
fn put_end<A: Allocator + Copy>(out: &mut Vec<u8, A>, dialogue: u32, end: &EndRequest<'_>)
    requires counted { IsTrue (is_counted_event (event_view (events.End dialogue end.now))) }
    requires room { vec_len out.old + length (fields_of (event_view (events.End dialogue end.now)))
        ≤ vec_capacity out.old }
    ensures items { out.new.items ≡ out.old.items ++ fields_of (event_view (events.End dialogue end.now)) }
    ensures capacity { vec_capacity out.old ≤ vec_capacity out.new }
{
    put_short(out, dialogue);
    put_ending(out, end.ending);
    put_portion(out, end.context, end.info);
}

/// Appends the fields of a TC-U-ABORT request.
fn put_abort<A: Allocator + Copy>(out: &mut Vec<u8, A>, dialogue: u32, abort: &AbortRequest<'_>)
    requires counted { IsTrue (is_counted_event (event_view (events.Abort dialogue abort.now))) }
    requires room { vec_len out.old + length (fields_of (event_view (events.Abort dialogue abort.now)))
        ≤ vec_capacity out.old }
    ensures items { out.new.items ≡ out.old.items ++ fields_of (event_view (events.Abort dialogue abort.now)) }
    ensures capacity { vec_capacity out.old ≤ vec_capacity out.new }
{
    put_short(out, dialogue);
    put_why(out, abort.why);
    put_string(out, abort.info);
}

/// The octet of the kind of an event.
fn event_octet(event: &Event<'_>) -> u8
    ensures { result ≡ event_octet (kind_of (event_view event.now)) }
{
    match event {
        Event::NewDialogue => 1,
        Event::Invoke(..) => 2,
        Event::ResultLast(..) => 3,
        Event::ResultMore(..) => 4,
        Event::ErrorBack(..) => 5,
        Event::Reject(..) => 6,
        Event::Cancel(..) => 7,
        Event::Uni(..) => 8,
        Event::Begin(..) => 9,
        Event::Continue(..) => 10,
        Event::End(..) => 11,
        Event::Abort(..) => 12,
        Event::Bytes(..) => 13,
        Event::Moment(_) => 14,
    }
}

/// Appends the fields of an event.
fn put_fields<A: Allocator + Copy>(out: &mut Vec<u8, A>, event: &Event<'_>)
    requires counted { IsTrue (is_counted_event (event_view event.now)) }
    requires room { vec_len out.old + length (fields_of (event_view event.now)) ≤ vec_capacity out.old }
    ensures items { out.new.items ≡ out.old.items ++ fields_of (event_view event.now) }
    ensures capacity { vec_capacity out.old ≤ vec_capacity out.new }
{
    match event {
        Event::NewDialogue => {}
        Event::Invoke(dialogue, invoke) => put_invoke(out, *dialogue, invoke),
        Event::ResultLast(dialogue, last) => put_result(out, *dialogue, last),
        Event::ResultMore(dialogue, more) => put_result(out, *dialogue, more),
        Event::ErrorBack(dialogue, error) => put_error(out, *dialogue, error),
        Event::Reject(dialogue, reject) => put_reject(out, *dialogue, reject),
        Event::Cancel(dialogue, cancel) => {
            put_short(out, *dialogue);
            put_identifier(out, cancel.id);
        }
        Event::Uni(dialogue, uni) => {
            put_short(out, *dialogue);
            put_addressed(out, uni.to, uni.context, uni.info);
        }
        Event::Begin(dialogue, begin) => {
            put_short(out, *dialogue);
            put_addressed(out, begin.to, begin.context, begin.info);
        }
        Event::Continue(dialogue, go_on) => {
            put_short(out, *dialogue);
            put_portion(out, go_on.context, go_on.info);
        }
        Event::End(dialogue, end) => put_end(out, *dialogue, end),
        Event::Abort(dialogue, abort) => put_abort(out, *dialogue, abort),
        Event::Bytes(from, bytes) => {
            put_address(out, from);
            put_string(out, bytes);
        }
        Event::Moment(now) => put_long(out, *now),
    }
}

/// Appends the record of an event, for which there is room.
pub(super) fn put_record<A: Allocator + Copy>(out: &mut Vec<u8, A>, event: &Event<'_>)
    requires counted { IsTrue (is_counted_event (event_view event.now)) }
    requires room { vec_len out.old + length (record_of (event_view event.now)) ≤ vec_capacity out.old }
    ensures items { out.new.items ≡ out.old.items ++ record_of (event_view event.now) }
    ensures capacity { vec_capacity out.old ≤ vec_capacity out.new }
{
    out.push_reserved(VERSION);
    out.push_reserved(event_octet(event));
    put_fields(out, event);
}

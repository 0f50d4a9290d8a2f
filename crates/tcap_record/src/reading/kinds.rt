//! The fields of each kind of event, read at the front of octets.

ghost use Rattle.ber_core.specs.Results.{Gives};
ghost use Rattle.tcap_record.specs.Layout.{event_at};
ghost use Rattle.tcap_record.specs.RecordViews.{kept_view};
ghost use Rattle.tcap_record.specs.declared.kind.EventKind.TheVariants as kinds;

use super::parts::{
    Left, take_address, take_body_if_any, take_class, take_code, take_ending, take_identifier,
    take_identifier_if_any, take_long, take_problem, take_short, take_string, take_string_if_any,
    take_why,
};
use crate::kept::Kept;
use crate::kind::EventKind;
use tcap_engine::{
    AbortRequest, CancelRequest, ContinueRequest, EndRequest, ErrorRequest, Event, InvokeRequest,
    RejectRequest, ResultRequest,
};

/// TC-INVOKE request.
#[tactic(auto, unfolding(crate::specs::Layout::kind_fields_at))]
fn take_invoke<'m>(octets: &'m [u8]) -> Result<(Kept<'m>, &'m [u8]), Left>
    ensures { Gives (λ r. (kept_view r.0, r.1.now)) result (event_at kinds.Invoke octets.now) }
{
    let (dialogue, rest) = take_short(octets)?;
    let (id, rest) = take_identifier(rest)?;
    let (class, rest) = take_class(rest)?;
    let (code, rest) = take_code(rest)?;
    let (parameter, rest) = take_string_if_any(rest)?;
    let (linked, rest) = take_identifier_if_any(rest)?;
    let (timeout_ms, rest) = take_long(rest)?;
    let invoke = InvokeRequest {
        id,
        class,
        code,
        parameter,
        linked,
        timeout_ms,
    };
    Ok((Kept::Plain(Event::Invoke(dialogue, invoke)), rest))
}

/// TC-RESULT-L request.
#[tactic(auto, unfolding(crate::specs::Layout::kind_fields_at))]
fn take_result_last<'m>(octets: &'m [u8]) -> Result<(Kept<'m>, &'m [u8]), Left>
    ensures { Gives (λ r. (kept_view r.0, r.1.now)) result (event_at kinds.ResultLast octets.now) }
{
    let (dialogue, rest) = take_short(octets)?;
    let (id, rest) = take_identifier(rest)?;
    let (body, rest) = take_body_if_any(rest)?;
    let result = ResultRequest { id, body };
    Ok((Kept::Plain(Event::ResultLast(dialogue, result)), rest))
}

/// TC-RESULT-NL request.
#[tactic(auto, unfolding(crate::specs::Layout::kind_fields_at))]
fn take_result_more<'m>(octets: &'m [u8]) -> Result<(Kept<'m>, &'m [u8]), Left>
    ensures { Gives (λ r. (kept_view r.0, r.1.now)) result (event_at kinds.ResultMore octets.now) }
{
    let (dialogue, rest) = take_short(octets)?;
    let (id, rest) = take_identifier(rest)?;
    let (body, rest) = take_body_if_any(rest)?;
    let result = ResultRequest { id, body };
    Ok((Kept::Plain(Event::ResultMore(dialogue, result)), rest))
}

/// TC-U-ERROR request.
#[tactic(auto, unfolding(crate::specs::Layout::kind_fields_at))]
fn take_error<'m>(octets: &'m [u8]) -> Result<(Kept<'m>, &'m [u8]), Left>
    ensures { Gives (λ r. (kept_view r.0, r.1.now)) result (event_at kinds.ErrorBack octets.now) }
{
    let (dialogue, rest) = take_short(octets)?;
    let (id, rest) = take_identifier(rest)?;
    let (code, rest) = take_code(rest)?;
    let (parameter, rest) = take_string_if_any(rest)?;
    let error = ErrorRequest {
        id,
        code,
        parameter,
    };
    Ok((Kept::Plain(Event::ErrorBack(dialogue, error)), rest))
}

/// TC-U-REJECT request.
#[tactic(auto, unfolding(crate::specs::Layout::kind_fields_at))]
fn take_reject<'m>(octets: &'m [u8]) -> Result<(Kept<'m>, &'m [u8]), Left>
    ensures { Gives (λ r. (kept_view r.0, r.1.now)) result (event_at kinds.Reject octets.now) }
{
    let (dialogue, rest) = take_short(octets)?;
    let (id, rest) = take_identifier_if_any(rest)?;
    let (problem, rest) = take_problem(rest)?;
    let reject = RejectRequest { id, problem };
    Ok((Kept::Plain(Event::Reject(dialogue, reject)), rest))
}

/// TC-U-CANCEL request.
#[tactic(auto, unfolding(crate::specs::Layout::kind_fields_at))]
fn take_cancel<'m>(octets: &'m [u8]) -> Result<(Kept<'m>, &'m [u8]), Left>
    ensures { Gives (λ r. (kept_view r.0, r.1.now)) result (event_at kinds.Cancel octets.now) }
{
    let (dialogue, rest) = take_short(octets)?;
    let (id, rest) = take_identifier(rest)?;
    Ok((
        Kept::Plain(Event::Cancel(dialogue, CancelRequest { id })),
        rest,
    ))
}

/// TC-UNI request.
#[tactic(auto, unfolding(crate::specs::Layout::kind_fields_at))]
fn take_uni<'m>(octets: &'m [u8]) -> Result<(Kept<'m>, &'m [u8]), Left>
    ensures { Gives (λ r. (kept_view r.0, r.1.now)) result (event_at kinds.Uni octets.now) }
{
    let (dialogue, rest) = take_short(octets)?;
    let (to, rest) = take_address(rest)?;
    let (context, rest) = take_string_if_any(rest)?;
    let (info, rest) = take_string(rest)?;
    let uni = Kept::Uni {
        dialogue,
        to,
        context,
        info,
    };
    Ok((uni, rest))
}

/// TC-BEGIN request.
#[tactic(auto, unfolding(crate::specs::Layout::kind_fields_at))]
fn take_begin<'m>(octets: &'m [u8]) -> Result<(Kept<'m>, &'m [u8]), Left>
    ensures { Gives (λ r. (kept_view r.0, r.1.now)) result (event_at kinds.Begin octets.now) }
{
    let (dialogue, rest) = take_short(octets)?;
    let (to, rest) = take_address(rest)?;
    let (context, rest) = take_string_if_any(rest)?;
    let (info, rest) = take_string(rest)?;
    let begin = Kept::Begin {
        dialogue,
        to,
        context,
        info,
    };
    Ok((begin, rest))
}

/// TC-CONTINUE request.
#[tactic(auto, unfolding(crate::specs::Layout::kind_fields_at))]
fn take_continue<'m>(octets: &'m [u8]) -> Result<(Kept<'m>, &'m [u8]), Left>
    ensures { Gives (λ r. (kept_view r.0, r.1.now)) result (event_at kinds.Continue octets.now) }
{
    let (dialogue, rest) = take_short(octets)?;
    let (context, rest) = take_string_if_any(rest)?;
    let (info, rest) = take_string(rest)?;
    let go_on = ContinueRequest { context, info };
    Ok((Kept::Plain(Event::Continue(dialogue, go_on)), rest))
}

/// TC-END request.
#[tactic(auto, unfolding(crate::specs::Layout::kind_fields_at))]
fn take_end<'m>(octets: &'m [u8]) -> Result<(Kept<'m>, &'m [u8]), Left>
    ensures { Gives (λ r. (kept_view r.0, r.1.now)) result (event_at kinds.End octets.now) }
{
    let (dialogue, rest) = take_short(octets)?;
    let (ending, rest) = take_ending(rest)?;
    let (context, rest) = take_string_if_any(rest)?;
    let (info, rest) = take_string(rest)?;
    let end = EndRequest {
        ending,
        context,
        info,
    };
    Ok((Kept::Plain(Event::End(dialogue, end)), rest))
}

/// TC-U-ABORT request.
#[tactic(auto, unfolding(crate::specs::Layout::kind_fields_at))]
fn take_abort<'m>(octets: &'m [u8]) -> Result<(Kept<'m>, &'m [u8]), Left>
    ensures { Gives (λ r. (kept_view r.0, r.1.now)) result (event_at kinds.Abort octets.now) }
{
    let (dialogue, rest) = take_short(octets)?;
    let (why, rest) = take_why(rest)?;
    let (info, rest) = take_string(rest)?;
    let abort = AbortRequest { why, info };
    Ok((Kept::Plain(Event::Abort(dialogue, abort)), rest))
}

/// Bytes that were received.
#[tactic(auto, unfolding(crate::specs::Layout::kind_fields_at))]
fn take_bytes<'m>(octets: &'m [u8]) -> Result<(Kept<'m>, &'m [u8]), Left>
    ensures { Gives (λ r. (kept_view r.0, r.1.now)) result (event_at kinds.Bytes octets.now) }
{
    let (from, rest) = take_address(octets)?;
    let (bytes, rest) = take_string(rest)?;
    Ok((Kept::Bytes { from, bytes }, rest))
}

/// A moment.
#[tactic(auto, unfolding(crate::specs::Layout::kind_fields_at))]
fn take_moment<'m>(octets: &'m [u8]) -> Result<(Kept<'m>, &'m [u8]), Left>
    ensures { Gives (λ r. (kept_view r.0, r.1.now)) result (event_at kinds.Moment octets.now) }
{
    let (now, rest) = take_long(octets)?;
    Ok((Kept::Plain(Event::Moment(now)), rest))
}

/// The fields of an event of this kind.
#[tactic(auto, unfolding(crate::specs::Layout::kind_fields_at))]
pub(super) fn take_fields<'m>(
    kind: EventKind,
    octets: &'m [u8],
) -> Result<(Kept<'m>, &'m [u8]), Left>
    ensures { Gives (λ r. (kept_view r.0, r.1.now)) result (event_at kind octets.now) }
{
    match kind {
        EventKind::NewDialogue => Ok((Kept::Plain(Event::NewDialogue), octets)),
        EventKind::Invoke => take_invoke(octets),
        EventKind::ResultLast => take_result_last(octets),
        EventKind::ResultMore => take_result_more(octets),
        EventKind::ErrorBack => take_error(octets),
        EventKind::Reject => take_reject(octets),
        EventKind::Cancel => take_cancel(octets),
        EventKind::Uni => take_uni(octets),
        EventKind::Begin => take_begin(octets),
        EventKind::Continue => take_continue(octets),
        EventKind::End => take_end(octets),
        EventKind::Abort => take_abort(octets),
        EventKind::Bytes => take_bytes(octets),
        EventKind::Moment => take_moment(octets),
    }
}

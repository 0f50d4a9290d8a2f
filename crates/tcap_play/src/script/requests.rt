//! Requests on a dialogue.

ghost use Rattle.std.specs.Prelude.{◌≡◌, ℕ, List, option_map};
ghost use Rattle.tcap_primitives.specs.RequestViews.{request_view};
ghost use Rattle.tcap_play.specs.LineViews.{text_of};
ghost use Rattle.tcap_play.specs.ScriptWords.{named_address};
ghost use Rattle.tcap_play.specs.ScriptLine.{begin_request_of, portion_request_of, portion_request_on, abort_request_of, last_request_of, more_request_of, cancel_request_of, error_request_of, reject_request_of, invoke_request_of};

use crate::script::values::{
    body, class, code, identifier, is, milliseconds, octets, optional_identifier, optional_octets,
    problem, reason, side,
};
use crate::script::word::Word;
use crate::side::Addresses;
use std::alloc::Allocator;
use tcap_dialogue::{
    AbortRequest, Address, BeginRequest, CancelRequest, ContinueRequest, EndRequest, Ending,
    ErrorRequest, InvokeRequest, RejectRequest, Request, ResultRequest, UniRequest,
};

/// A request of dialogue handling with a destination where it has one, a context and user information.
fn portion_request<'w, A: Allocator>(
    to: &'w Address,
    name: &[u8],
    context: &'w Word<'_, A>,
    information: &'w Word<'_, A>,
) -> Option<Request<'w>>
    ensures { option_map request_view result
        ≡ portion_request_of to.entry.now name.now (text_of context.entry.now) (text_of information.entry.now) }
{
    let context = optional_octets(context)?;
    let info = octets(information)?;
    if is(name, "uni") {
        Some(Request::Uni(UniRequest { to, context, info }))
    } else if is(name, "begin") {
        Some(Request::Begin(BeginRequest { to, context, info }))
    } else if is(name, "continue") {
        Some(Request::Continue(ContinueRequest { context, info }))
    } else if is(name, "end") {
        let ending = Ending::Basic;
        Some(Request::End(EndRequest {
            ending,
            context,
            info,
        }))
    } else {
        None
    }
}

/// The request with a dialogue portion, made on the engine of a letter, whose messages go to the other engine.
pub(crate) fn portion_request_on<'w, A: Allocator>(
    addresses: &'w Addresses,
    side_word: &[u8],
    name: &[u8],
    context: &'w Word<'_, A>,
    information: &'w Word<'_, A>,
) -> Option<Request<'w>>
    ensures { option_map request_view result
        ≡ portion_request_on side_word.now name.now (text_of context.entry.now) (text_of information.entry.now) }
{
    let to = addresses.beyond(side(side_word)?);
    portion_request(to, name, context, information)
}

/// A request to begin a dialogue with the address of a word that names one.
pub(crate) fn begin_request<'w, A: Allocator>(
    to: &'w Option<Address>,
    context: &'w Word<'_, A>,
    information: &'w Word<'_, A>,
) -> Option<Request<'w>>
    ensures { (word : List ℕ) → to.entry.now ≡ named_address word → option_map request_view result
        ≡ begin_request_of word (text_of context.entry.now) (text_of information.entry.now) }
{
    match to {
        Some(to) => portion_request(to, b"begin", context, information),
        None => None,
    }
}

/// A request to abort, for a reason.
pub fn abort_request<'w, A: Allocator>(
    why: &[u8],
    information: &'w Word<'_, A>,
) -> Option<Request<'w>>
    ensures { option_map request_view result ≡ abort_request_of why.now (text_of information.entry.now) }
{
    Some(Request::Abort(AbortRequest {
        why: reason(why)?,
        info: octets(information)?,
    }))
}

/// The last result, with a body or none.
pub fn last_request<'w, A: Allocator>(
    id: &[u8],
    code: &[u8],
    parameter: &'w Word<'_, A>,
) -> Option<Request<'w>>
    ensures { option_map request_view result ≡ last_request_of id.now code.now (text_of parameter.entry.now) }
{
    let id = identifier(id)?;
    let body = body(code, parameter)?;
    Some(Request::ResultLast(ResultRequest { id, body }))
}

/// A result that isn't the last, with a body or none.
pub fn more_request<'w, A: Allocator>(
    id: &[u8],
    code: &[u8],
    parameter: &'w Word<'_, A>,
) -> Option<Request<'w>>
    ensures { option_map request_view result ≡ more_request_of id.now code.now (text_of parameter.entry.now) }
{
    let id = identifier(id)?;
    let body = body(code, parameter)?;
    Some(Request::ResultMore(ResultRequest { id, body }))
}

/// That the user gives an invocation up.
pub fn cancel_request<'w>(id: &[u8]) -> Option<Request<'w>>
    ensures { option_map request_view result ≡ cancel_request_of id.now }
{
    let id = identifier(id)?;
    Some(Request::Cancel(CancelRequest { id }))
}

/// An error.
pub fn error_request<'w, A: Allocator>(
    id: &[u8],
    code_word: &[u8],
    parameter: &'w Word<'_, A>,
) -> Option<Request<'w>>
    ensures { option_map request_view result ≡ error_request_of id.now code_word.now (text_of parameter.entry.now) }
{
    Some(Request::ErrorBack(ErrorRequest {
        id: identifier(id)?,
        code: code(code_word)?,
        parameter: optional_octets(parameter)?,
    }))
}

/// A Reject.
pub fn reject_request<'w>(id: &[u8], kind: &[u8], code: &[u8]) -> Option<Request<'w>>
    ensures { option_map request_view result ≡ reject_request_of id.now kind.now code.now }
{
    Some(Request::Reject(RejectRequest {
        id: optional_identifier(id)?,
        problem: problem(kind, code)?,
    }))
}

/// An Invoke, by the words behind its dialogue.
pub fn invoke_request<'w, A: Allocator>(
    id: &[u8],
    class_word: &[u8],
    code_word: &[u8],
    timeout: &[u8],
    linked: &[u8],
    parameter: &'w Word<'_, A>,
) -> Option<Request<'w>>
    ensures { option_map request_view result
        ≡ invoke_request_of id.now class_word.now code_word.now timeout.now linked.now
        (text_of parameter.entry.now) }
{
    Some(Request::Invoke(InvokeRequest {
        id: identifier(id)?,
        class: class(class_word)?,
        code: code(code_word)?,
        timeout_ms: milliseconds(timeout)?,
        linked: optional_identifier(linked)?,
        parameter: optional_octets(parameter)?,
    }))
}

//! The numbers of what comes in are those that its types hold: what the model asks of every event. Each
//! function does nothing; its clause is what a caller learns.

ghost use Rattle.std.specs.Prelude.{IsTrue, option_copied};
ghost use Rattle.std.specs.Option.{option_map};
ghost use Rattle.tcap_component.specs.Component.{CodeParts};
ghost use Rattle.tcap_component.specs.Views.{body_parts, code_parts, problem_parts};
ghost use Rattle.tcap_primitives.specs.RequestViews.{request_view};
ghost use Rattle.tcap_model.specs.Words.InRange.{are_octets, are_octets_if_any, is_address, is_body, is_code, is_identifier, is_identifier_if_any, is_long, is_problem, is_request, is_short};

use crate::request::Request;
use tcap_address::Address;
use tcap_component::{Body, Code, Problem};

/// Each octet is below 256.
pub fn octets(bytes: &[u8])
    ensures { IsTrue (are_octets bytes.now) }
{}

/// Optional octets are octets.
fn octets_if_any(bytes: Option<&[u8]>)
    ensures { IsTrue (are_octets_if_any (option_copied bytes.entry)) }
{
    if let Some(bytes) = bytes {
        octets(bytes);
    }
}

/// An address has at most 255 octets, each below 256.
pub fn address(given: &Address)
    ensures { IsTrue (is_address given.now) }
{
    octets(given.octets());
}

/// An invoke identifier is from -128 to 127.
fn identifier(id: i8)
    ensures { IsTrue (is_identifier id) }
{}

/// An optional identifier is one octet.
fn identifier_if_any(id: Option<i8>)
    ensures { IsTrue (is_identifier_if_any id) }
{
    if let Some(id) = id {
        identifier(id);
    }
}

/// A dialogue identifier is below 2^32.
pub fn short(number: u32)
    ensures { IsTrue (is_short number) }
{}

/// A moment or a timeout is below 2^64.
pub fn long(number: u64)
    ensures { IsTrue (is_long number) }
{}

/// A local code has at most four octets.
fn local_code(number: i32)
    ensures { IsTrue (is_code (CodeParts.local number)) }
{}

/// A code is local and has four octets at most, or is global and has octets.
fn code(given: &Code<'_>)
    ensures { IsTrue (is_code (code_parts given.now)) }
{
    match given {
        Code::Local(number) => local_code(*number),
        Code::Global(bytes) => octets(bytes),
    }
}

/// A code is one, and the parameter that goes with it is octets.
fn coded(given: &Code<'_>, parameter: Option<&[u8]>)
    ensures code { IsTrue (is_code (code_parts given.now)) }
    ensures parameter { IsTrue (are_octets_if_any (option_copied parameter.entry)) }
{
    code(given);
    octets_if_any(parameter);
}

/// The code and the parameter of a body.
fn body(given: Option<Body<'_>>)
    ensures { IsTrue (is_body (option_map body_parts given.entry)) }
{
    if let Some(given) = given {
        coded(&given.code, given.parameter);
    }
}

/// A problem's code is at most 127.
fn problem(given: Problem)
    ensures { IsTrue (is_problem (problem_parts given)) }
{
    let _ = given.code();
}

/// The context and the user information of a dialogue portion are octets.
fn portion(context: Option<&[u8]>, info: &[u8])
    ensures context { IsTrue (are_octets_if_any (option_copied context.entry)) }
    ensures info { IsTrue (are_octets info.now) }
{
    octets_if_any(context);
    octets(info);
}

/// The numbers of a request are those that its types hold.
pub fn request(asked: &Request<'_>)
    ensures { IsTrue (is_request (request_view asked.now)) }
{
    match asked {
        Request::Invoke(invoke) => {
            identifier(invoke.id);
            coded(&invoke.code, invoke.parameter);
            identifier_if_any(invoke.linked);
            long(invoke.timeout_ms);
        }
        Request::ResultLast(result) | Request::ResultMore(result) => {
            identifier(result.id);
            body(result.body);
        }
        Request::ErrorBack(error) => {
            identifier(error.id);
            coded(&error.code, error.parameter);
        }
        Request::Reject(reject) => {
            identifier_if_any(reject.id);
            problem(reject.problem);
        }
        Request::Cancel(cancel) => identifier(cancel.id),
        Request::Uni(uni) => {
            address(uni.to);
            portion(uni.context, uni.info);
        }
        Request::Begin(begin) => {
            address(begin.to);
            portion(begin.context, begin.info);
        }
        Request::Continue(go_on) => portion(go_on.context, go_on.info),
        Request::End(end) => portion(end.context, end.info),
        Request::Abort(abort) => octets(abort.info),
    }
}

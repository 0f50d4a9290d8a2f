//! What the numbers and octets that C hands in name; `None` where a number is out of its range.

ghost use Rattle.std.specs.Prelude.{◌≡◌, option_copied};
ghost use Rattle.std.specs.Option.{option_map};
ghost use Rattle.tcap_component.specs.Views.{body_parts, code_parts, problem_parts};
ghost use Rattle.tcap_primitives.specs.RequestViews.{cancel_view, ending_view, error_view, invoke_view, last_view, more_view, reason_view, reject_view};
ghost use Rattle.tcap_c.specs.Arguments.{body_of, cancel_of, class_of, code_of, ending_of, error_of, id_if_any_of, id_of, invoke_of, octets_of, problem_of, reason_of, reject_of, result_last_of, result_more_of};

use crate::output_numbers::NO_ID;
use tcap_component::{Body, Code, Kind, Problem};
use tcap_invocation::Class;
use tcap_primitives::{
    AbortWhy, CancelRequest, Ending, ErrorRequest, InvokeRequest, RejectRequest, ResultRequest,
};

/// Octets, if there are any.
pub(crate) fn octets_of(octets: &[u8]) -> Option<&[u8]>
    ensures { option_copied result ≡ octets_of octets.now }
{
    match octets {
        [] => None,
        octets => Some(octets),
    }
}

/// An invoke identifier.
fn id_of(number: i32) -> Option<i8>
    ensures { result ≡ id_of number }
{
    i8::try_from(number).ok()
}

/// An invoke identifier, or none.
fn id_if_any_of(number: i32) -> Option<Option<i8>>
    ensures { result ≡ id_if_any_of number }
{
    if number == i32::from(NO_ID) {
        return Some(None);
    }
    match id_of(number) {
        Some(id) => Some(Some(id)),
        None => None,
    }
}

/// An operation class.
fn class_of(number: i32) -> Option<Class>
    ensures { result ≡ class_of number }
{
    match number {
        1 => Some(Class::One),
        2 => Some(Class::Two),
        3 => Some(Class::Three),
        4 => Some(Class::Four),
        _ => None,
    }
}

/// A code.
fn code_of(kind: i32, number: i32, octets: &[u8]) -> Option<Code<'_>>
    ensures { option_map code_parts result ≡ code_of kind number octets.now }
{
    match kind {
        1 => Some(Code::Local(number)),
        2 => Some(Code::Global(octets)),
        _ => None,
    }
}

/// The body of a result, or none.
fn body_of<'a>(
    kind: i32,
    number: i32,
    octets: &'a [u8],
    parameter: &'a [u8],
) -> Option<Option<Body<'a>>>
    ensures { option_map (option_map body_parts) result ≡ body_of kind number octets.now parameter.now }
{
    let parameter = octets_of(parameter);
    if kind == 0 {
        return if parameter.is_none() {
            Some(None)
        } else {
            None
        };
    }
    let code = code_of(kind, number, octets)?;
    Some(Some(Body { code, parameter }))
}

/// A problem by its number: 256 times its kind, and its code.
fn problem_of(number: i32) -> Option<Problem>
    ensures { option_map problem_parts result ≡ problem_of number }
{
    let number = u16::try_from(number).ok()?;
    let (kind, code) = match number {
        0..=255 => (Kind::General, number),
        256..=511 => (Kind::Invoke, number - 256),
        512..=767 => (Kind::Result, number - 512),
        768..=1023 => (Kind::Error, number - 768),
        _ => return None,
    };
    Problem::new(kind, u8::try_from(code).ok()?)
}

/// How a dialogue ends.
pub(crate) fn ending_of(number: i32) -> Option<Ending>
    ensures { option_map ending_view result ≡ ending_of number }
{
    match number {
        0 => Some(Ending::Basic),
        1 => Some(Ending::Prearranged),
        _ => None,
    }
}

/// Why the user aborts.
pub(crate) fn reason_of(number: i32) -> Option<AbortWhy>
    ensures { option_map reason_view result ≡ reason_of number }
{
    match number {
        0 => Some(AbortWhy::User),
        1 => Some(AbortWhy::NotSupported),
        _ => None,
    }
}

/// TC-INVOKE request.
pub(crate) fn invoke_of<'a>(
    id: i32,
    linked: i32,
    class: i32,
    kind: i32,
    number: i32,
    octets: &'a [u8],
    parameter: &'a [u8],
    timeout_ms: u64,
) -> Option<InvokeRequest<'a>>
    ensures { option_map invoke_view result
        ≡ invoke_of id linked class kind number octets.now parameter.now timeout_ms }
{
    Some(InvokeRequest {
        id: id_of(id)?,
        linked: id_if_any_of(linked)?,
        class: class_of(class)?,
        code: code_of(kind, number, octets)?,
        parameter: octets_of(parameter),
        timeout_ms,
    })
}

/// TC-RESULT-L or TC-RESULT-NL request.
pub(crate) fn result_of<'a>(
    id: i32,
    kind: i32,
    number: i32,
    octets: &'a [u8],
    parameter: &'a [u8],
) -> Option<ResultRequest<'a>>
    ensures last { option_map last_view result ≡ result_last_of id kind number octets.now parameter.now }
    ensures more { option_map more_view result ≡ result_more_of id kind number octets.now parameter.now }
{
    Some(ResultRequest {
        id: id_of(id)?,
        body: body_of(kind, number, octets, parameter)?,
    })
}

/// TC-U-ERROR request.
pub(crate) fn error_of<'a>(
    id: i32,
    kind: i32,
    number: i32,
    octets: &'a [u8],
    parameter: &'a [u8],
) -> Option<ErrorRequest<'a>>
    ensures { option_map error_view result ≡ error_of id kind number octets.now parameter.now }
{
    Some(ErrorRequest {
        id: id_of(id)?,
        code: code_of(kind, number, octets)?,
        parameter: octets_of(parameter),
    })
}

/// TC-U-REJECT request.
pub(crate) fn reject_of(id: i32, problem: i32) -> Option<RejectRequest>
    ensures { option_map reject_view result ≡ reject_of id problem }
{
    Some(RejectRequest {
        id: id_if_any_of(id)?,
        problem: problem_of(problem)?,
    })
}

/// TC-U-CANCEL request.
pub(crate) fn cancel_of(id: i32) -> Option<CancelRequest>
    ensures { option_map cancel_view result ≡ cancel_of id }
{
    Some(CancelRequest { id: id_of(id)? })
}

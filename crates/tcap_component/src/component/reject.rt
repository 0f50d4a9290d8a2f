//! What a Reject has, read, and a Reject written without memory: it has eight octets at most.

ghost use Rattle.std.specs.Prelude.{◌≡◌, ◌≤◌, length, take};
ghost use Rattle.std.specs.Option.{option_map};
ghost use Rattle.tcap_component.specs.Component.ComponentParts.{reject_back};
ghost use Rattle.tcap_component.specs.ComponentReading.{rejected_at, problem_kind, problem_code, problem_at};
ghost use Rattle.tcap_component.specs.Problem.{problem_tag};
ghost use Rattle.tcap_component.specs.Views.{problem_parts};
ghost use Rattle.tcap_component.specs.Written.{written_component};

use crate::component::parts::identifier;
use crate::problem::{Kind, Problem};
use crate::tag;
use ber_core::{take_content, take_tagged};

/// The most octets that a Reject has, 8 (Q.773, Reject component).
pub const MAX_REJECT: usize = 8;

/// The octets of a Reject in the canonical form, and how many of them it has; it takes no memory
/// (Q.773, Reject component).
pub fn reject_octets(id: Option<i8>, problem: Problem) -> ([u8; MAX_REJECT], usize)
    ensures octets { take result.1 result.0 ≡ written_component (reject_back id (problem_parts problem)) }
    ensures len { result.1 ≡ length (written_component (reject_back id (problem_parts problem))) }
    ensures within { result.1 ≤ 8 }
{
    let kind = tag_of(problem.kind());
    let code = problem.code();
    match id {
        Some(id) => {
            let id = id.cast_unsigned();
            ([tag::REJECT, 6, tag::INTEGER, 1, id, kind, 1, code], 8)
        }
        None => ([tag::REJECT, 5, tag::NULL, 0, kind, 1, code, 0], 7),
    }
}

/// The tag of a problem of this kind.
pub(crate) fn tag_of(kind: Kind) -> u8
    ensures { result ≡ problem_tag kind }
{
    match kind {
        Kind::General => tag::GENERAL_PROBLEM,
        Kind::Invoke => tag::INVOKE_PROBLEM,
        Kind::Result => tag::RETURN_RESULT_PROBLEM,
        Kind::Error => tag::RETURN_ERROR_PROBLEM,
    }
}

/// The kind of problem that the first octet is the tag of.
#[tactic(auto, unfolding(crate::specs::ComponentReading::problem_kind))]
fn kind_of(bytes: &[u8]) -> Option<Kind>
    ensures { result ≡ problem_kind bytes.now }
{
    match bytes {
        [tag::GENERAL_PROBLEM, ..] => Some(Kind::General),
        [tag::INVOKE_PROBLEM, ..] => Some(Kind::Invoke),
        [tag::RETURN_RESULT_PROBLEM, ..] => Some(Kind::Result),
        [tag::RETURN_ERROR_PROBLEM, ..] => Some(Kind::Error),
        _ => None,
    }
}

/// 02 identifier or 05 with nothing, and what follows it.
#[tactic(auto, unfolding(crate::specs::ComponentReading::rejected_at))]
pub(crate) fn take_rejected(bytes: &[u8]) -> Option<(Option<i8>, &[u8])>
    ensures { option_map (λ r. (r.0, r.1.now)) result ≡ rejected_at bytes.now }
{
    if let (Some(content), rest) = take_tagged(bytes, tag::INTEGER) {
        let id = identifier(content)?;
        return Some((Some(id), rest));
    }
    let (content, rest) = take_content(bytes, tag::NULL)?;
    if !content.is_empty() {
        return None;
    }
    Some((None, rest))
}

/// 80, 81, 82 or 83 with a problem's code, 00 to 7F.
#[tactic(auto, unfolding(crate::specs::ComponentReading::problem_at, crate::specs::ComponentReading::problem_code))]
pub(crate) fn read_problem(bytes: &[u8]) -> Option<Problem>
    ensures { option_map problem_parts result ≡ problem_at bytes.now }
{
    let kind = kind_of(bytes)?;
    let (content, rest) = take_content(bytes, tag_of(kind))?;
    let [code] = content else {
        return None;
    };
    let problem = Problem::new(kind, *code)?;
    if !rest.is_empty() {
        return None;
    }
    Some(problem)
}

//! Contents held against the tables, element by element.

ghost use Rattle.std.specs.Prelude.{◌≡◌, ◌+◌, ◌^◌, ◌<◌, length, option_map, true, IfSome, IfErr, IfOk, None};
ghost use Rattle.ber_core.specs.Element.{IsElement, depth_limit};
ghost use Rattle.ber_core.specs.Results.{Gives};
ghost use Rattle.ber_core.specs.Views.{parts};
ghost use Rattle.tcap_explain.specs.Walk.{IsWithin, Walk, further, first_of, inside_by, ended, step, walk};

use crate::contents::{Contents, is_met};
use crate::encoding::told_place;
use crate::line::{Explained, Line, ListLine, Rule};
use crate::table::{Inside, is_over, may_end, next};
use crate::way::head_len;
use ber_core::{Element, read_element};

/// What is not met, so many octets further on.
pub(crate) fn further_on(octets: usize, found: Explained) -> Explained
    requires place { octets + found.place < 2 ^ 64 }
    requires element { octets + found.element < 2 ^ 64 }
    ensures { result ≡ further octets found }
{
    Explained {
        place: octets + found.place,
        element: octets + found.element,
        rule: found.rule,
    }
}

/// What is not met in contents octets that are no elements, behind a head of so many octets.
fn octets_fault(head: usize, contents: Contents, content: &[u8]) -> Option<Explained>
    ensures value { (walk : Walk) → result ≡ inside_by walk head (Inside.Octets contents) content.now }
    ensures within { IfSome result (λ x. (x.place ≡ head) × (x.element ≡ 0)) }
{
    if is_met(contents, content) {
        return None;
    }
    Some(Explained {
        place: head,
        element: 0,
        rule: Rule::Octets(contents, content.len()),
    })
}

/// Whether the content of an element is known to be elements, and that is all that is asked of it: one of indefinite form
/// is read element by element to its end.
fn is_listed(line: Line, element: &Element<'_>) -> bool
    requires { IsElement depth_limit (parts element.now) }
    ensures { result ≡ true → walk line element.now.content.now ≡ None }
{
    let Line::List(ListLine::Elements) = line else {
        return false;
    };
    element.content.len() < element.whole.len() - head_len(element.whole)
}

/// What is not met in the elements that an element holds, behind a head of so many octets.
#[cycle(walk)]
fn elements_fault(head: usize, line: Line, element: &Element<'_>) -> Option<Explained>
    requires size { head + length element.now.content.now < 2 ^ 64 }
    requires element { IsElement depth_limit (parts element.now) }
    ensures value { result ≡ option_map (further head) (walk line element.now.content.now) }
    ensures within { IfSome result (λ x. IsWithin (head + length element.now.content.now) x) }
{
    // Elements of the indefinite form may go on over all that follows, so they aren't gone through once more.
    if is_listed(line, element) {
        return None;
    }
    match walk(line, element.content) {
        Some(found) => Some(further_on(head, found)),
        None => None,
    }
}

/// What is not met in elements that are held against two lines, behind a head of so many octets.
#[cycle(walk)]
fn listed_fault(head: usize, first: Line, second: Line, element: &Element<'_>) -> Option<Explained>
    requires size { head + length element.now.content.now < 2 ^ 64 }
    requires element { IsElement depth_limit (parts element.now) }
    ensures value { result ≡ option_map (further head)
        (first_of (walk first element.now.content.now) (walk second element.now.content.now)) }
    ensures within { IfSome result (λ x. IsWithin (head + length element.now.content.now) x) }
{
    match elements_fault(head, first, element) {
        Some(found) => Some(found),
        None => elements_fault(head, second, element),
    }
}

/// What is not met in the content of an element, behind a head of so many octets.
#[cycle(walk)]
fn inside_fault(head: usize, inside: Inside, element: &Element<'_>) -> Option<Explained>
    requires size { head + length element.now.content.now < 2 ^ 64 }
    requires element { IsElement depth_limit (parts element.now) }
    ensures value { result ≡ inside_by walk head inside element.now.content.now }
    ensures within { IfSome result (λ x. IsWithin (head + length element.now.content.now) x) }
{
    match inside {
        Inside::Octets(contents) => octets_fault(head, contents, element.content),
        Inside::Elements(line) => elements_fault(head, line, element),
        Inside::Listed(first, second) => listed_fault(head, first, second, element),
    }
}

/// The first element, held against the line: the next line and what is left, or what is not met.
#[cycle(walk)]
#[tactic(auto, unfolding(crate::specs::Walk::step))]
fn take_step(line: Line, bytes: &[u8]) -> Result<(Line, &[u8]), Explained>
    ensures value { Gives (λ s. (s.0, s.1.now)) result (step line bytes.now) }
    ensures shorter { IfOk result (λ s. length s.1.now < length bytes.now) }
    ensures within { IfErr result (λ x. IsWithin (length bytes.now) x) }
{
    if is_over(line) {
        return Err(Explained {
            place: 0,
            element: 0,
            rule: Rule::Other(line),
        });
    }
    let (element, rest) = match read_element(bytes) {
        Ok(read) => read,
        Err(fault) => {
            return Err(Explained {
                place: told_place(bytes),
                element: 0,
                rule: Rule::Encoding(fault),
            });
        }
    };
    let Some((inside, then)) = next(line, element.tag, element.content) else {
        return Err(Explained {
            place: 0,
            element: 0,
            rule: Rule::Other(line),
        });
    };
    match inside_fault(head_len(bytes), inside, &element) {
        Some(found) => Err(found),
        None => Ok((then, rest)),
    }
}

/// What is not met where contents end at a line: its element, if it has to be there.
fn end_fault(line: Line, len: usize) -> Option<Explained>
    ensures value { result ≡ option_map (further len) (ended line) }
    ensures within { IfSome result (λ x. (x.place ≡ len) × (x.element ≡ len)) }
{
    if may_end(line) {
        return None;
    }
    Some(Explained {
        place: len,
        element: len,
        rule: Rule::Missing(line),
    })
}

/// What is not met first in contents that are to be those of a table from a line on, if anything.
#[cycle(walk)]
pub(crate) fn walk(line: Line, bytes: &[u8]) -> Option<Explained>
    ensures value { result ≡ walk line bytes.now }
    ensures within { IfSome result (λ x. IsWithin (length bytes.now) x) }
{
    let mut line = line;
    let mut rest = bytes;
    while !rest.is_empty() {
        match take_step(line, rest) {
            Err(found) => return Some(further_on(bytes.len() - rest.len(), found)),
            Ok((then, after)) => {
                line = then;
                rest = after;
            }
        }
    }
    end_fault(line, bytes.len())
}

//! The tables of Q.773: which elements may stand at each line, what they hold, and which line follows.

ghost use Rattle.std.specs.Prelude.{◌≡◌};
ghost use Rattle.tcap_explain.specs.Choice.{only, either};
ghost use Rattle.tcap_explain.specs.ListTable.{list_next, list_may_end, list_is_over};
ghost use Rattle.tcap_explain.specs.Table.{next, may_end, is_over};

mod component;
mod message;
mod pdu;
mod portion;

use crate::contents::Contents;
use crate::line::{Line, ListLine};
use component::{component_may_end, component_next};
use message::{message_may_end, message_next};
use pdu::{pdu_may_end, pdu_next};
use portion::{portion_may_end, portion_next};

/// What an element holds.
#[derive(Clone, Copy)]
pub(crate) enum Inside {
    /// Octets that are no elements, or aren't looked into.
    Octets(Contents),
    /// Elements, from this line on.
    Elements(Line),
    /// Elements, from the first line on; and if these are as listed there, from the second line on too.
    Listed(Line, Line),
}

/// Nothing follows.
pub(crate) const END: Line = Line::List(ListLine::End);

/// Elements, whatever they are.
pub(crate) const ELEMENTS: Line = Line::List(ListLine::Elements);

/// What an element holds and which line follows, if it has this tag.
fn only(octet: u8, tag: &[u8], inside: Inside, line: Line) -> Option<(Inside, Line)>
    ensures { result ≡ only octet tag.now inside line }
{
    match tag {
        [first] if *first == octet => Some((inside, line)),
        _ => None,
    }
}

/// `only`, of an element whose contents octets aren't elements.
pub(crate) fn octets(
    octet: u8,
    tag: &[u8],
    contents: Contents,
    line: Line,
) -> Option<(Inside, Line)>
    ensures { result ≡ only octet tag.now (Inside.Octets contents) line }
{
    only(octet, tag, Inside::Octets(contents), line)
}

/// `only`, of an element that holds elements.
pub(crate) fn elements(octet: u8, tag: &[u8], inner: Line, line: Line) -> Option<(Inside, Line)>
    ensures { result ≡ only octet tag.now (Inside.Elements inner) line }
{
    only(octet, tag, Inside::Elements(inner), line)
}

/// `only`, of an element that holds elements, which are looked at twice.
pub(crate) fn listed(
    octet: u8,
    tag: &[u8],
    first: Line,
    second: Line,
    line: Line,
) -> Option<(Inside, Line)>
    ensures { result ≡ only octet tag.now (Inside.Listed first second) line }
{
    only(octet, tag, Inside::Listed(first, second), line)
}

/// The first of two, if it is there.
pub(crate) fn either(
    first: Option<(Inside, Line)>,
    second: Option<(Inside, Line)>,
) -> Option<(Inside, Line)>
    ensures { result ≡ either first second }
{
    match first {
        Some(found) => Some(found),
        None => second,
    }
}

/// What the element is, of any tag, in a list.
fn list_next(line: ListLine) -> Option<(Inside, Line)>
    ensures { result ≡ list_next line }
{
    match line {
        ListLine::OneElement => Some((Inside::Octets(Contents::Any), END)),
        ListLine::OneConstructed => Some((Inside::Elements(ELEMENTS), END)),
        ListLine::Elements => Some((Inside::Octets(Contents::Any), ELEMENTS)),
        ListLine::End => None,
    }
}

/// Whether a list may end here.
fn list_may_end(line: ListLine) -> bool
    ensures { result ≡ list_may_end line }
{
    match line {
        ListLine::OneElement | ListLine::OneConstructed => false,
        ListLine::Elements | ListLine::End => true,
    }
}

/// What an element with this tag and these contents holds at this line, and which line follows it; nothing,
/// where no such element stands at this line.
#[tactic(auto, unfolding(crate::specs::Table::next))]
pub(crate) fn next(line: Line, tag: &[u8], content: &[u8]) -> Option<(Inside, Line)>
    ensures { result ≡ next line tag.now content.now }
{
    match line {
        Line::List(line) => list_next(line),
        Line::Message(line) => message_next(line, tag),
        Line::Portion(line) => portion_next(line, tag, content),
        Line::Pdu(line) => pdu_next(line, tag),
        Line::Component(line) => component_next(line, tag),
    }
}

/// Whether the contents may end at this line.
#[tactic(auto, unfolding(crate::specs::Table::may_end))]
pub(crate) fn may_end(line: Line) -> bool
    ensures { result ≡ may_end line }
{
    match line {
        Line::List(line) => list_may_end(line),
        Line::Message(line) => message_may_end(line),
        Line::Portion(line) => portion_may_end(line),
        Line::Pdu(line) => pdu_may_end(line),
        Line::Component(line) => component_may_end(line),
    }
}

/// Whether nothing may follow in a list.
fn list_is_over(line: ListLine) -> bool
    ensures { result ≡ list_is_over line }
{
    match line {
        ListLine::OneElement | ListLine::OneConstructed | ListLine::Elements => false,
        ListLine::End => true,
    }
}

/// Whether nothing may follow at this line.
#[tactic(auto, unfolding(crate::specs::Table::is_over))]
pub(crate) fn is_over(line: Line) -> bool
    ensures { result ≡ is_over line }
{
    match line {
        Line::List(line) => list_is_over(line),
        Line::Message(_) | Line::Portion(_) | Line::Pdu(_) | Line::Component(_) => false,
    }
}

//! The octets of a message about the place of its fault, with marks below those that are faulty.

ghost use Rattle.std.specs.Prelude.{◌≡◌, ◌++◌, OnOk, drop, string_bytes, take};
ghost use Rattle.std.specs.List.{flat_map};
ghost use Rattle.tcap_judging.specs.MarkedText.{shown_before, shown_from, shown_faulty, left_count, faulty_count, spaced, blanks, mark, marks, dots_before, blanks_before, dots_behind, shown_line, mark_line, marked_text};

use ber_core::{OutOfMemory, read_element};
use std::alloc::Allocator;
use tcap_explain::{Explained, Line, ListLine, Rule};
use tcap_words::add_hex;

/// How many octets are shown before the place, and behind its octet, at most.
const ABOUT: usize = 16;

/// The octets from an index on; none behind the last.
fn octets_from(octets: &[u8], index: usize) -> &[u8]
    ensures { result.now ≡ drop index octets.now }
{
    if index < octets.len() {
        &octets[index..]
    } else {
        &[]
    }
}

/// So many octets at the front, or all.
fn first_octets(octets: &[u8], count: usize) -> &[u8]
    ensures { result.now ≡ take count octets.now }
{
    if count < octets.len() {
        &octets[..count]
    } else {
        octets
    }
}

/// The octets before the place, of those that are shown.
fn shown_before(octets: &[u8], place: usize) -> &[u8]
    ensures { result.now ≡ shown_before octets.now place }
{
    octets_from(first_octets(octets, place), place.saturating_sub(ABOUT))
}

/// The octets from the place on, of those that are shown.
fn shown_from(octets: &[u8], place: usize) -> &[u8]
    ensures { result.now ≡ shown_from octets.now place }
{
    first_octets(octets_from(octets, place), 1 + ABOUT)
}

/// How many octets the element of the fault has left from its place on; one where it has none, or isn't read.
fn left_count(octets: &[u8], found: &Explained) -> usize
    ensures { result ≡ left_count octets.now found.now }
{
    match read_element(octets_from(octets, found.element)) {
        Ok((element, _)) => {
            let before = found.place.saturating_sub(found.element);
            element.whole.len().saturating_sub(before).max(1)
        }
        Err(_) => 1,
    }
}

/// How many octets are faulty, from the place of the fault on: the rest of its element; one where an element can't be
/// read within the contents that hold it, or is missing there, or where these should end.
// Read from the place an element may go on behind those contents. Where it has another tag or other octets it doesn't: it
// was read within them.
#[tactic(auto, unfolding(tcap_explain::specs::Table::is_over))]
fn faulty_count(octets: &[u8], found: &Explained) -> usize
    ensures { result ≡ faulty_count octets.now found.now }
{
    match found.rule {
        Rule::Encoding(_) | Rule::Missing(_) | Rule::Other(Line::List(ListLine::End)) => 1,
        Rule::MessageLength | Rule::Other(_) | Rule::Octets(..) => left_count(octets, found),
    }
}

/// The faulty octets, of those that are shown.
fn shown_faulty<'a>(octets: &'a [u8], found: &Explained) -> &'a [u8]
    ensures { result.now ≡ shown_faulty octets.now found.now }
{
    first_octets(shown_from(octets, found.place), faulty_count(octets, found))
}

/// Adds octets in hexadecimal, each behind a space.
fn add_spaced<A: Allocator + Copy>(text: &mut String<A>, octets: &[u8]) -> Result<(), OutOfMemory>
    ensures { OnOk result (string_bytes text.new ≡ string_bytes text.old ++ flat_map spaced octets.now) }
{
    for octet in octets {
        text.push_str(" ")?;
        add_hex(text, &[*octet])?;
    }
    Ok(())
}

/// As many spaces as an octet takes, whichever it is.
fn blanks_of(_octet: u8) -> &'static str
    ensures { result.now ≡ blanks _octet }
{
    "   "
}

/// Adds as many spaces as the octets take.
fn add_blanks<A: Allocator + Copy>(text: &mut String<A>, octets: &[u8]) -> Result<(), OutOfMemory>
    ensures { OnOk result (string_bytes text.new ≡ string_bytes text.old ++ flat_map blanks octets.now) }
{
    for octet in octets {
        text.push_str(blanks_of(*octet))?;
    }
    Ok(())
}

/// The mark below an octet, whichever it is.
fn mark_of(_octet: u8) -> &'static str
    ensures { result.now ≡ mark _octet }
{
    " ^^"
}

/// Adds a mark for each of the octets.
fn add_each_mark<A: Allocator + Copy>(
    text: &mut String<A>,
    octets: &[u8],
) -> Result<(), OutOfMemory>
    ensures { OnOk result (string_bytes text.new ≡ string_bytes text.old ++ flat_map mark octets.now) }
{
    for octet in octets {
        text.push_str(mark_of(*octet))?;
    }
    Ok(())
}

/// Adds marks below the faulty octets; one behind all octets where there are none.
fn add_marks<A: Allocator + Copy>(text: &mut String<A>, octets: &[u8]) -> Result<(), OutOfMemory>
    ensures { OnOk result (string_bytes text.new ≡ string_bytes text.old ++ marks octets.now) }
{
    match octets {
        [] => Ok(text.push_str(" ^^")?),
        [_, ..] => add_each_mark(text, octets),
    }
}

/// Dots before the octets that are shown, where others stand before them.
fn dots_before(place: usize) -> &'static str
    ensures { result.now ≡ dots_before place }
{
    if ABOUT < place { " .." } else { "" }
}

/// As many spaces as these dots take.
fn blanks_before(place: usize) -> &'static str
    ensures { result.now ≡ blanks_before place }
{
    if ABOUT < place { "   " } else { "" }
}

/// Dots behind the octets that are shown, where others stand behind them.
fn dots_behind(octets: &[u8], place: usize) -> &'static str
    ensures { result.now ≡ dots_behind octets.now place }
{
    if 1 + ABOUT < octets_from(octets, place).len() {
        " .."
    } else {
        ""
    }
}

/// Adds the octets that are shown.
fn add_shown<A: Allocator + Copy>(
    text: &mut String<A>,
    octets: &[u8],
    place: usize,
) -> Result<(), OutOfMemory>
    ensures { OnOk result (string_bytes text.new ≡ string_bytes text.old ++ shown_line octets.now place) }
{
    text.push_str("   ")?;
    text.push_str(dots_before(place))?;
    add_spaced(text, shown_before(octets, place))?;
    add_spaced(text, shown_from(octets, place))?;
    text.push_str(dots_behind(octets, place))?;
    Ok(text.push_str("\n")?)
}

/// Adds the marks below the faulty octets.
fn add_mark_line<A: Allocator + Copy>(
    text: &mut String<A>,
    octets: &[u8],
    found: &Explained,
) -> Result<(), OutOfMemory>
    ensures { OnOk result (string_bytes text.new ≡ string_bytes text.old ++ mark_line octets.now found.now) }
{
    text.push_str("   ")?;
    text.push_str(blanks_before(found.place))?;
    add_blanks(text, shown_before(octets, found.place))?;
    add_marks(text, shown_faulty(octets, found))?;
    Ok(text.push_str("\n")?)
}

/// Adds what is printed below the line of a message: nothing where it has no fault.
pub(crate) fn add_mark<A: Allocator + Copy>(
    text: &mut String<A>,
    octets: &[u8],
    found: Option<Explained>,
) -> Result<(), OutOfMemory>
    ensures { OnOk result (string_bytes text.new ≡ string_bytes text.old ++ marked_text octets.now found) }
{
    match found {
        Some(fault) => {
            add_shown(text, octets, fault.place)?;
            add_mark_line(text, octets, &fault)
        }
        None => Ok(()),
    }
}

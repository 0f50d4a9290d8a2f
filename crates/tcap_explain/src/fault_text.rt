//! The text of a fault.

ghost use Rattle.std.specs.Prelude.{◌≡◌, ◌++◌, take, drop, OnOk, IfOk, string_bytes};
ghost use Rattle.tcap_words.specs.Verdict.{is_good, verdict_of};
ghost use Rattle.tcap_explain.specs.ExplainText.{named, position_words, octet_words, unit_words, count_words, contents_found, encoding_found, found_words, more_unit_words, more_words, is_in_end, tag_words, wanted_words, expectation_words, rule_words, explained_words, explained_lines, explain_text_of};

use crate::by_verdict::explain;
use crate::cut_element::octets_wanted;
use crate::line::{Explained, Rule};
use crate::words::expected_words;
use ber_core::{BerFault, OutOfMemory};
use std::alloc::Allocator;
use tcap_words::{Shown, add_decimal, add_hex, add_verdict, verdict_on};

/// Adds a name and a number.
fn add_named<A: Allocator + Copy>(
    text: &mut String<A>,
    name: &str,
    number: usize,
) -> Result<(), OutOfMemory>
    ensures { OnOk result (string_bytes text.new ≡ string_bytes text.old ++ named name.now number) }
{
    text.push_str(name)?;
    add_decimal(text, number as u64)
}

/// Adds the place of a fault, and the first octet of its element.
fn add_position<A: Allocator + Copy>(
    text: &mut String<A>,
    found: Explained,
) -> Result<(), OutOfMemory>
    ensures { OnOk result (string_bytes text.new ≡ string_bytes text.old ++ position_words found) }
{
    add_named(text, "place ", found.place)?;
    add_named(text, " element ", found.element)
}

/// The octet at a place, if it is there.
fn octet_at(bytes: &[u8], place: usize) -> &[u8]
    ensures { result.now ≡ take 1 (drop place bytes.now) }
{
    if place < bytes.len() {
        &bytes[place..place + 1]
    } else {
        &[]
    }
}

/// Adds the octet at a place.
fn add_octet<A: Allocator + Copy>(
    text: &mut String<A>,
    bytes: &[u8],
    place: usize,
) -> Result<(), OutOfMemory>
    ensures { OnOk result (string_bytes text.new ≡ string_bytes text.old ++ octet_words bytes.now place) }
{
    text.push_str("0x")?;
    add_hex(text, octet_at(bytes, place))
}

/// The word for so many octets.
fn unit(count: usize) -> &'static str
    ensures { result.now ≡ unit_words count }
{
    if count == 1 { " octet" } else { " octets" }
}

/// Adds how many octets there are.
fn add_count<A: Allocator + Copy>(text: &mut String<A>, count: usize) -> Result<(), OutOfMemory>
    ensures { OnOk result (string_bytes text.new ≡ string_bytes text.old ++ count_words count) }
{
    add_decimal(text, count as u64)?;
    Ok(text.push_str(unit(count))?)
}

/// Adds how many contents octets there are, and the first of them.
fn add_contents<A: Allocator + Copy>(
    text: &mut String<A>,
    bytes: &[u8],
    place: usize,
    count: usize,
) -> Result<(), OutOfMemory>
    ensures { OnOk result (string_bytes text.new ≡ string_bytes text.old ++ contents_found bytes.now place count) }
{
    add_count(text, count)?;
    if count == 0 {
        return Ok(());
    }
    text.push_str(" from ")?;
    add_octet(text, bytes, place)
}

/// Adds what stands where an encoding has a fault.
fn add_encoding<A: Allocator + Copy>(
    text: &mut String<A>,
    bytes: &[u8],
    place: usize,
    fault: BerFault,
) -> Result<(), OutOfMemory>
    ensures { OnOk result (string_bytes text.new ≡ string_bytes text.old ++ encoding_found fault bytes.now place) }
{
    match fault {
        BerFault::Short => Ok(text.push_str("the end")?),
        BerFault::BadTag
        | BerFault::BadLength
        | BerFault::IndefinitePrimitive
        | BerFault::TooDeep => add_octet(text, bytes, place),
    }
}

/// Adds the words for what stands at the place of a fault, by its rule.
pub fn add_found<A: Allocator + Copy>(
    text: &mut String<A>,
    bytes: &[u8],
    place: usize,
    rule: Rule,
) -> Result<(), OutOfMemory>
    ensures { OnOk result (string_bytes text.new ≡ string_bytes text.old ++ found_words bytes.now place rule) }
{
    match rule {
        Rule::MessageLength => add_count(text, bytes.len()),
        Rule::Encoding(fault) => add_encoding(text, bytes, place, fault),
        Rule::Other(_) => add_octet(text, bytes, place),
        Rule::Missing(_) => Ok(text.push_str("the end")?),
        Rule::Octets(_, count) => add_contents(text, bytes, place, count),
    }
}

/// The word for so many octets more.
fn more_unit(count: usize) -> &'static str
    ensures { result.now ≡ more_unit_words count }
{
    if count == 1 {
        " more octet"
    } else {
        " more octets"
    }
}

/// Adds the words for octets that are wanted.
fn add_more<A: Allocator + Copy>(
    text: &mut String<A>,
    wanted: Option<usize>,
) -> Result<(), OutOfMemory>
    ensures { OnOk result (string_bytes text.new ≡ string_bytes text.old ++ more_words wanted) }
{
    match wanted {
        None => Ok(text.push_str("more octets")?),
        Some(count) => {
            add_decimal(text, count as u64)?;
            Ok(text.push_str(more_unit(count))?)
        }
    }
}

/// Whether the place, where no tag is, is the second octet of an end-of-contents.
fn is_in_end(bytes: &[u8], place: usize, element: usize) -> bool
    ensures { result ≡ is_in_end bytes.now place element }
{
    if element < place {
        match octet_at(bytes, place - 1) {
            [octet] if *octet == 0 => true,
            _ => false,
        }
    } else {
        false
    }
}

/// The words for what is expected where no tag is.
fn tag_words(bytes: &[u8], place: usize, element: usize) -> &'static str
    ensures { result.now ≡ tag_words bytes.now place element }
{
    if is_in_end(bytes, place, element) {
        "the second 0x00 of an end-of-contents"
    } else {
        "a tag"
    }
}

/// Adds the words for what was expected where a message has a fault.
pub fn add_wanted<A: Allocator + Copy>(
    text: &mut String<A>,
    bytes: &[u8],
    found: Explained,
) -> Result<(), OutOfMemory>
    ensures { OnOk result (string_bytes text.new ≡ string_bytes text.old ++ wanted_words bytes.now found found.rule) }
{
    match found.rule {
        Rule::Encoding(BerFault::Short) => {
            add_more(text, octets_wanted(bytes, found.place, found.element))
        }
        Rule::Encoding(BerFault::BadTag) => {
            Ok(text.push_str(tag_words(bytes, found.place, found.element))?)
        }
        Rule::Encoding(BerFault::BadLength | BerFault::IndefinitePrimitive | BerFault::TooDeep)
        | Rule::MessageLength
        | Rule::Other(_)
        | Rule::Missing(_)
        | Rule::Octets(..) => Ok(text.push_str(expected_words(found.rule))?),
    }
}

/// Adds what was expected.
fn add_expectation<A: Allocator + Copy>(
    text: &mut String<A>,
    bytes: &[u8],
    found: Explained,
) -> Result<(), OutOfMemory>
    ensures { OnOk result (string_bytes text.new ≡ string_bytes text.old ++ expectation_words bytes.now found) }
{
    text.push_str(": expected ")?;
    add_wanted(text, bytes, found)
}

/// Adds what was expected, and what was found.
fn add_rule<A: Allocator + Copy>(
    text: &mut String<A>,
    bytes: &[u8],
    found: Explained,
) -> Result<(), OutOfMemory>
    ensures { OnOk result (string_bytes text.new ≡ string_bytes text.old ++ rule_words bytes.now found) }
{
    add_expectation(text, bytes, found)?;
    text.push_str(", found ")?;
    add_found(text, bytes, found.place, found.rule)
}

/// Adds the words for a fault of a message: its place, what was expected there, and what was found.
pub fn add_explained<A: Allocator + Copy>(
    text: &mut String<A>,
    bytes: &[u8],
    found: Explained,
) -> Result<(), OutOfMemory>
    ensures { OnOk result (string_bytes text.new ≡ string_bytes text.old ++ explained_words bytes.now found) }
{
    add_position(text, found)?;
    add_rule(text, bytes, found)
}

/// Adds the line for a fault, if there is one.
fn add_lines<A: Allocator + Copy>(
    text: &mut String<A>,
    bytes: &[u8],
    found: Option<Explained>,
) -> Result<(), OutOfMemory>
    ensures { OnOk result (string_bytes text.new ≡ string_bytes text.old ++ explained_lines bytes.now found) }
{
    match found {
        None => Ok(()),
        Some(found) => {
            add_explained(text, bytes, found)?;
            Ok(text.push_str("\n")?)
        }
    }
}

/// The text of `explain`: the line of the verdict, and where it isn't good one line for its fault: the place, what
/// was expected there, and what was found.
///
/// ```rust
/// let shown = tcap_explain::explain_text(rt.alloc(), &[0x62, 0x03, 0x49, 0x01, 0x07])?;
/// assert_eq!(rt; shown.text.as_slice(), b"fault incorrect\nplace 2 element 2: expected the originating transaction identifier 0x48, found 0x49\n".as_slice());
/// ```
pub fn explain_text<A: Allocator + Copy>(alloc: A, bytes: &[u8]) -> Result<Shown<A>, OutOfMemory>
    ensures text { IfOk result (λ shown. shown.text.items ≡ explain_text_of bytes.now) }
    ensures good { IfOk result (λ shown. shown.good ≡ is_good (verdict_of bytes.now)) }
{
    let verdict = verdict_on(bytes);
    let mut text = String::new(alloc);
    add_verdict(&mut text, verdict)?;
    add_lines(&mut text, bytes, explain(bytes))?;
    Ok(Shown::of(text, verdict))
}

//! What is told of a bad line.

ghost use Rattle.std.specs.Prelude.{◌≡◌, ◌++◌, OnOk, string_bytes};
ghost use Rattle.tcap_stories.specs.BadLine.{bad_line, reason_of, unfit_words, wrong_in};

use crate::expected_text::text_fault;
use crate::story_line::expectation;
use crate::table::story_table;
use crate::text::{add_number, is};
use ber_core::OutOfMemory;
use std::alloc::Allocator;
use tcap_lines::{LineFault, add_line_fault, line_fault};
use tcap_play::first_piece;

/// Why a line that has a form is bad, by its first word.
fn unfit_words(name: &[u8]) -> &'static str
    ensures { result.now ≡ unfit_words name.now }
{
    if is(name, "deliver") {
        "word 2, a message to the other side that was neither received nor lost"
    } else if is(name, "again") {
        "word 2, a message that was received"
    } else if is(name, "lose") {
        "word 2, a message that was neither received nor lost"
    } else if is(name, "idle") {
        "word 1, idle in the first line alone"
    } else {
        "word 2 is missing, the text of an output or nothing"
    }
}

/// What is wrong first with the words of a line, if anything.
fn wrong_in(line: &[u8]) -> Option<LineFault>
    ensures { result ≡ wrong_in line.now }
{
    match expectation(line) {
        Some(text) => text_fault(text),
        None => line_fault(&story_table(), line),
    }
}

/// Adds why a line is bad.
fn add_reason<A: Allocator + Copy>(text: &mut String<A>, line: &[u8]) -> Result<(), OutOfMemory>
    ensures { OnOk result (string_bytes text.new ≡ string_bytes text.old ++ reason_of line.now) }
{
    match wrong_in(line) {
        Some(fault) => add_line_fault(text, &story_table(), fault),
        None => {
            let (name, _) = first_piece(line, b' ');
            Ok(text.push_str(unfit_words(name))?)
        }
    }
}

/// Adds that the line of this number is bad, and why.
pub(crate) fn add_bad_line<A: Allocator + Copy>(
    alloc: A,
    text: &mut Vec<u8, A>,
    number: u64,
    line: &[u8],
) -> Result<(), OutOfMemory>
    ensures { OnOk result (text.new.items ≡ text.old.items ++ bad_line number line.now) }
{
    let mut reason = String::new(alloc);
    add_reason(&mut reason, line)?;
    text.extend_from_slice(b"line ")?;
    add_number(text, number)?;
    text.extend_from_slice(b" bad: ")?;
    text.extend_from_slice(reason.as_bytes())?;
    Ok(text.extend_from_slice(b"\n")?)
}

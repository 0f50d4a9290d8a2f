//! The outputs of a line beside what is expected of it.

ghost use Rattle.std.specs.Prelude.{◌≡◌, ◌++◌, [], drop, option_copied, slice_get, IfOk, OnOk};
ghost use Rattle.tcap_stories.specs.Comparing.{agrees, failed_line, front_words, held, or_nothing, output_words};
ghost use Rattle.tcap_stories.specs.Views.{Adds, Compares, Expects, going, left_over, still_told, texts_of};

use crate::outputs::is_refusal;
use crate::text::add_number;
use ber_core::OutOfMemory;
use std::alloc::{Allocator, Global};

/// The outputs of a line, beside what is expected of it so far.
#[derive(Drop)]
pub(crate) struct Comparing<A: Allocator = Global> {
    /// The number of the line.
    pub(crate) line: u64,
    /// Its outputs.
    pub(crate) outputs: Vec<Vec<u8, A>, A>,
    /// How many of them were compared.
    pub(crate) compared: usize,
    /// Whether something was expected.
    pub(crate) expected: bool,
}

/// Whether what came is what is expected.
fn agrees(wanted: Option<&[u8]>, found: Option<&[u8]>) -> bool
    ensures { result ≡ agrees (option_copied wanted.entry) (option_copied found.entry) }
{
    match (wanted, found) {
        (None, None) => true,
        (Some(wanted), Some(found)) => wanted == found,
        (None, Some(_)) | (Some(_), None) => false,
    }
}

/// An output, `nothing` where there is none.
fn or_nothing(output: Option<&[u8]>) -> &[u8]
    ensures { result.now ≡ or_nothing (option_copied output.entry) }
{
    match output {
        Some(output) => output,
        None => b"nothing",
    }
}

/// Adds words, and an output.
fn add_output<A: Allocator>(
    text: &mut Vec<u8, A>,
    words: &[u8],
    output: Option<&[u8]>,
) -> Result<(), OutOfMemory>
    ensures { OnOk result (text.new.items ≡ text.old.items ++ output_words words.now (option_copied output.entry)) }
{
    text.extend_from_slice(words)?;
    Ok(text.extend_from_slice(or_nothing(output))?)
}

/// Adds the words before what was expected by the line of this number.
fn add_front<A: Allocator>(text: &mut Vec<u8, A>, line: u64) -> Result<(), OutOfMemory>
    ensures { OnOk result (text.new.items ≡ text.old.items ++ front_words line) }
{
    text.extend_from_slice(b"line ")?;
    add_number(text, line)
}

/// Adds that the line of this number has failed.
fn add_failure<A: Allocator>(
    text: &mut Vec<u8, A>,
    line: u64,
    wanted: Option<&[u8]>,
    found: Option<&[u8]>,
) -> Result<(), OutOfMemory>
    ensures { OnOk result (text.new.items ≡ text.old.items
        ++ failed_line line (option_copied wanted.entry) (option_copied found.entry)) }
{
    add_front(text, line)?;
    add_output(text, b" failed: expected ", wanted)?;
    add_output(text, b", found ", found)?;
    Ok(text.extend_from_slice(b"\n")?)
}

/// Holds what came against what is expected by the line of this number, and tells whether it agrees; where it
/// doesn't, that is added.
fn hold<A: Allocator>(
    text: &mut Vec<u8, A>,
    line: u64,
    wanted: Option<&[u8]>,
    found: Option<&[u8]>,
) -> Result<bool, OutOfMemory>
    ensures { IfOk result (λ good. Adds (held line (option_copied wanted.entry) (option_copied found.entry))
        good text.old.items text.new.items) }
{
    if agrees(wanted, found) {
        return Ok(true);
    }
    add_failure(text, line, wanted, found)?;
    Ok(false)
}

/// Holds the output at a place, or that there is none, against what is expected by the line of this number.
fn hold_at<A: Allocator>(
    text: &mut Vec<u8, A>,
    line: u64,
    wanted: Option<&[u8]>,
    outputs: &[Vec<u8, A>],
    place: usize,
) -> Result<bool, OutOfMemory>
    ensures { IfOk result (λ good. Adds
        (held line (option_copied wanted.entry) (slice_get (texts_of outputs.now) place))
        good text.old.items text.new.items) }
{
    if place < outputs.len() {
        hold(text, line, wanted, Some(&outputs[place]))
    } else {
        hold(text, line, wanted, None)
    }
}

/// Holds an output of a line that no `expect` names: it has failed where something is expected of the line, and where
/// it is a refusal.
fn hold_left<A: Allocator>(
    text: &mut Vec<u8, A>,
    line: u64,
    expected: bool,
    output: &[u8],
) -> Result<bool, OutOfMemory>
    ensures { IfOk result (λ good. Adds (left_over expected line output.now) good text.old.items text.new.items) }
{
    if expected || is_refusal(output) {
        return hold(text, line, None, Some(output));
    }
    Ok(true)
}

/// Holds the outputs of a line from a place on, which no `expect` names, and tells whether none has failed.
fn hold_rest<A: Allocator>(
    text: &mut Vec<u8, A>,
    line: u64,
    expected: bool,
    outputs: &[Vec<u8, A>],
    place: usize,
) -> Result<bool, OutOfMemory>
    ensures { IfOk result (λ good. Adds (still_told expected line (drop place (texts_of outputs.now)) [])
        good text.old.items text.new.items) }
{
    let mut good = true;
    let mut place = place;
    while place < outputs.len() {
        good &= hold_left(text, line, expected, &outputs[place])?;
        place += 1;
    }
    Ok(good)
}

impl<A: Allocator + Copy> Comparing<A> {
    /// The outputs of a line, before anything is expected of it.
    pub(crate) fn new(line: u64, outputs: Vec<Vec<u8, A>, A>) -> Comparing<A>
        ensures { Compares line (texts_of outputs.items) result }
    {
        Comparing {
            line,
            outputs,
            compared: 0,
            expected: false,
        }
    }

    /// Holds the next output against what is expected by the line of this number, and tells whether it agrees.
    pub(crate) fn expect(
        &mut self,
        text: &mut Vec<u8, A>,
        line: u64,
        wanted: Option<&[u8]>,
    ) -> Result<bool, OutOfMemory>
        ensures { IfOk result (λ good. Expects (record { line = line; wanted = option_copied wanted.entry }) good
            self.old self.new text.old.items text.new.items) }
    {
        let good = hold_at(text, line, wanted, &self.outputs, self.compared)?;
        self.expected = true;
        if self.compared < self.outputs.len() {
            self.compared += 1;
        }
        Ok(good)
    }

    /// Tells whether the outputs that no `expect` names are fine: there is none where something was expected, and no
    /// refusal where nothing was. The others are added.
    pub(crate) fn end(&self, text: &mut Vec<u8, A>) -> Result<bool, OutOfMemory>
        ensures { IfOk result (λ good. Adds (going self.now []) good text.old.items text.new.items) }
    {
        hold_rest(text, self.line, self.expected, &self.outputs, self.compared)
    }
}

//! The lines of an answer, in words.

ghost use Rattle.std.specs.Prelude.{◌≡◌, ◌++◌, OnOk, string_bytes};
ghost use Rattle.std.specs.Fmt.{decimal};
ghost use Rattle.tcap_engine.specs.EventViews.{answer_view};
ghost use Rattle.tcap_primitives.specs.FaultViews.{fault_view};
ghost use Rattle.tcap_primitives.specs.OutputViews.{all_shown};
ghost use Rattle.tcap_play.specs.Pieces.{words_of};
ghost use Rattle.tcap_lines.specs.Reading.{first_fault};
ghost use Rattle.tcap_living.specs.LiveTable.{live_table};
ghost use Rattle.tcap_living.specs.LiveText.{answer_lines, numbered, output_lines, refused_words, state_words, timer_words, wrong_words};

use crate::output_text::add_output;
use crate::table::live_table;
use ber_core::OutOfMemory;
use std::alloc::Allocator;
use tcap_dialogue::{Fault, State};
use tcap_engine::{Answer, Output};
use tcap_lines::{add_line_fault, fault_name, line_fault};
use tcap_text::add_decimal;

/// Adds a line of the answer to the line with this number.
fn add_numbered<A: Allocator + Copy>(
    text: &mut String<A>,
    number: u64,
    words: &str,
) -> Result<(), OutOfMemory>
    ensures { OnOk result (string_bytes text.new ≡ string_bytes text.old ++ numbered number words.now) }
{
    add_decimal(text, number)?;
    text.push_str(" ")?;
    text.push_str(words)?;
    text.push_str("\n")?;
    Ok(())
}

/// Adds a line of the answer to the line with this number: a name with a space behind it, and what was made.
fn add_made<A: Allocator + Copy>(
    text: &mut String<A>,
    number: u64,
    name: &str,
    made: u64,
) -> Result<(), OutOfMemory>
    ensures { OnOk result (string_bytes text.new ≡ string_bytes text.old
        ++ numbered number (name.now ++ decimal made)) }
{
    add_decimal(text, number)?;
    text.push_str(" ")?;
    text.push_str(name)?;
    add_decimal(text, made)?;
    text.push_str("\n")?;
    Ok(())
}

/// Adds a refusal: the fault's number and its name.
fn add_refused<A: Allocator + Copy>(
    text: &mut String<A>,
    number: u64,
    fault: Fault,
) -> Result<(), OutOfMemory>
    ensures { OnOk result (string_bytes text.new ≡ string_bytes text.old
        ++ numbered number (refused_words (fault_view fault))) }
{
    add_decimal(text, number)?;
    text.push_str(" refused ")?;
    let fault = u64::from(fault.number());
    add_decimal(text, fault)?;
    text.push_str(" ")?;
    if let Some(name) = fault_name(fault) {
        text.push_str(name)?;
    }
    text.push_str("\n")?;
    Ok(())
}

/// Adds that a line has no form: which of its words is wrong first, and what was expected there.
pub(crate) fn add_bad_words<A: Allocator + Copy>(
    text: &mut String<A>,
    number: u64,
    line: &[u8],
) -> Result<(), OutOfMemory>
    ensures { OnOk result (string_bytes text.new ≡ string_bytes text.old
        ++ numbered number (wrong_words (first_fault live_table (words_of line.now)))) }
{
    add_decimal(text, number)?;
    text.push_str(" bad")?;
    let table = live_table();
    if let Some(fault) = line_fault(&table, line) {
        text.push_str(" ")?;
        add_line_fault(text, &table, fault)?;
    }
    text.push_str("\n")?;
    Ok(())
}

/// Adds the lines of outputs, in their order.
fn add_outputs<A: Allocator + Copy>(
    text: &mut String<A>,
    number: u64,
    outputs: &[Output<'_, A>],
) -> Result<(), OutOfMemory>
    ensures { OnOk result (string_bytes text.new ≡ string_bytes text.old
        ++ output_lines number (all_shown outputs.now)) }
{
    for output in outputs {
        add_output(text, number, output)?;
    }
    Ok(())
}

/// Adds the lines of an answer to the line with this number: its outputs one by one, and a last line that
/// none of them is.
pub(crate) fn add_answer_words<A: Allocator + Copy>(
    text: &mut String<A>,
    number: u64,
    answer: &Answer<'_, A>,
) -> Result<(), OutOfMemory>
    ensures { OnOk result (string_bytes text.new ≡ string_bytes text.old
        ++ answer_lines number (answer_view answer.now)) }
{
    match answer {
        Answer::NewDialogue(dialogue) => add_made(text, number, "new ", u64::from(*dialogue)),
        Answer::Number(made) => add_made(text, number, "number ", *made),
        Answer::Done => add_numbered(text, number, "done"),
        Answer::GivenUp(given_up) => add_made(text, number, "givenup ", *given_up),
        Answer::Outputs(outputs) => {
            add_outputs(text, number, outputs)?;
            add_numbered(text, number, "done")
        }
        Answer::Refused(fault) => add_refused(text, number, *fault),
    }
}

/// Adds the moment at which the next timer is due, `-` where none is.
pub(crate) fn add_timer_words<A: Allocator + Copy>(
    text: &mut String<A>,
    number: u64,
    timer: Option<u64>,
) -> Result<(), OutOfMemory>
    ensures { OnOk result (string_bytes text.new ≡ string_bytes text.old ++ numbered number (timer_words timer)) }
{
    match timer {
        Some(moment) => add_made(text, number, "timer ", moment),
        None => add_numbered(text, number, "timer -"),
    }
}

/// The words of a dialogue's state, `-` where none stands.
fn state_text(state: Option<State>) -> &'static str
    ensures { result.now ≡ state_words state }
{
    match state {
        Some(State::Fresh) => "state fresh",
        Some(State::Sent) => "state sent",
        Some(State::Received) => "state received",
        Some(State::Active) => "state active",
        None => "state -",
    }
}

/// Adds the state of a dialogue, `-` where none stands.
pub(crate) fn add_state_words<A: Allocator + Copy>(
    text: &mut String<A>,
    number: u64,
    state: Option<State>,
) -> Result<(), OutOfMemory>
    ensures { OnOk result (string_bytes text.new ≡ string_bytes text.old ++ numbered number (state_words state)) }
{
    add_numbered(text, number, state_text(state))
}

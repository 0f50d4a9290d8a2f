//! Answers, in words or in JSON.

ghost use Rattle.std.specs.Prelude.{◌≡◌, ◌++◌, OnOk, string_bytes};
ghost use Rattle.tcap_engine.specs.EventViews.{answer_view};
ghost use Rattle.tcap_play.specs.Pieces.{words_of};
ghost use Rattle.tcap_living.specs.LiveText.{answer_text, bad_line, state_text, timer_text};

use crate::answer_text::{add_answer_words, add_bad_words, add_state_words, add_timer_words};
use crate::format::Format;
use crate::json_text::{add_json_answer, add_json_bad, add_json_state, add_json_timer};
use ber_core::OutOfMemory;
use std::alloc::Allocator;
use tcap_dialogue::State;
use tcap_engine::Answer;

/// Adds an answer to the line with this number.
pub(crate) fn add_answer<A: Allocator + Copy>(
    text: &mut String<A>,
    format: Format,
    number: u64,
    answer: &Answer<'_, A>,
) -> Result<(), OutOfMemory>
    ensures { OnOk result (string_bytes text.new ≡ string_bytes text.old
        ++ answer_text format number (answer_view answer.now)) }
{
    match format {
        Format::Words => add_answer_words(text, number, answer),
        Format::Json => add_json_answer(text, number, answer),
    }
}

/// Adds the moment at which the next timer is due, if one is.
pub(crate) fn add_timer<A: Allocator + Copy>(
    text: &mut String<A>,
    format: Format,
    number: u64,
    timer: Option<u64>,
) -> Result<(), OutOfMemory>
    ensures { OnOk result (string_bytes text.new ≡ string_bytes text.old ++ timer_text format number timer) }
{
    match format {
        Format::Words => add_timer_words(text, number, timer),
        Format::Json => add_json_timer(text, number, timer),
    }
}

/// Adds the state of a dialogue, if it stands.
pub(crate) fn add_state<A: Allocator + Copy>(
    text: &mut String<A>,
    format: Format,
    number: u64,
    state: Option<State>,
) -> Result<(), OutOfMemory>
    ensures { OnOk result (string_bytes text.new ≡ string_bytes text.old ++ state_text format number state) }
{
    match format {
        Format::Words => add_state_words(text, number, state),
        Format::Json => add_json_state(text, number, state),
    }
}

/// Adds that a line has no form: which of its words is wrong first, and what was expected there.
pub(crate) fn add_bad<A: Allocator + Copy>(
    text: &mut String<A>,
    format: Format,
    number: u64,
    line: &[u8],
) -> Result<(), OutOfMemory>
    ensures { OnOk result (string_bytes text.new ≡ string_bytes text.old
        ++ bad_line format number (words_of line.now)) }
{
    match format {
        Format::Words => add_bad_words(text, number, line),
        Format::Json => add_json_bad(text, number, line),
    }
}

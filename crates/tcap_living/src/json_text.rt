//! Answers in JSON: an object in each line.

ghost use Rattle.std.specs.Prelude.{◌≡◌, ◌++◌, OnOk, Some, codes, string_bytes};
ghost use Rattle.std.specs.Fmt.{decimal};
ghost use Rattle.tcap_engine.specs.EventViews.{answer_view};
ghost use Rattle.tcap_primitives.specs.FaultViews.{fault_view};
ghost use Rattle.tcap_primitives.specs.OutputViews.{all_shown};
ghost use Rattle.tcap_play.specs.Pieces.{words_of};
ghost use Rattle.tcap_lines.specs.FaultNames.{fault_name_of};
ghost use Rattle.tcap_lines.specs.FaultText.{line_fault_words};
ghost use Rattle.tcap_lines.specs.LineFaults.{or_empty};
ghost use Rattle.tcap_lines.specs.Reading.{first_fault};
ghost use Rattle.tcap_living.specs.JsonText.{json_answer, json_last, json_outputs, json_refused, json_state, json_timer, json_wrong};
ghost use Rattle.tcap_living.specs.LiveTable.{live_table};

use crate::json_output::add_json_output;
use crate::json_values::{add_member, add_number};
use crate::table::live_table;
use ber_core::OutOfMemory;
use std::alloc::Allocator;
use tcap_dialogue::{Fault, State};
use tcap_engine::{Answer, Output};
use tcap_lines::{LineFault, add_line_fault, fault_name, line_fault};

/// Adds what stands before the members of the last object of an answer.
fn add_front<A: Allocator + Copy>(text: &mut String<A>, number: u64) -> Result<(), OutOfMemory>
    ensures { OnOk result (string_bytes text.new ≡ string_bytes text.old
        ++ (codes "{\"line\":" ++ (decimal number ++ codes ",\"last\":\""))) }
{
    add_member(text, "{\"line\":", number)?;
    Ok(text.push_str(",\"last\":\"")?)
}

/// Adds the last object of an answer that has these members.
#[tactic(auto, unfolding(crate::specs::JsonText::json_last))]
fn add_last<A: Allocator + Copy>(
    text: &mut String<A>,
    number: u64,
    members: &str,
) -> Result<(), OutOfMemory>
    ensures { OnOk result (string_bytes text.new ≡ string_bytes text.old ++ json_last number members.now) }
{
    add_front(text, number)?;
    text.push_str(members)?;
    Ok(text.push_str("}\n")?)
}

/// Adds the last object of an answer, with what was made behind a member's name.
#[tactic(auto, unfolding(crate::specs::JsonText::json_last))]
fn add_made<A: Allocator + Copy>(
    text: &mut String<A>,
    number: u64,
    name: &str,
    made: u64,
) -> Result<(), OutOfMemory>
    ensures { OnOk result (string_bytes text.new ≡ string_bytes text.old
        ++ json_last number (name.now ++ decimal made)) }
{
    add_front(text, number)?;
    add_member(text, name, made)?;
    Ok(text.push_str("}\n")?)
}

/// Adds the name of the fault with this number.
fn add_fault_name<A: Allocator + Copy>(text: &mut String<A>, number: u64) -> Result<(), OutOfMemory>
    ensures { OnOk result (string_bytes text.new ≡ string_bytes text.old
        ++ (codes ",\"name\":\"" ++ (or_empty (fault_name_of number) ++ codes "\""))) }
{
    text.push_str(",\"name\":\"")?;
    if let Some(name) = fault_name(number) {
        text.push_str(name)?;
    }
    Ok(text.push_str("\"")?)
}

/// Adds the fault of a request, by its number and its name.
fn add_fault<A: Allocator + Copy>(text: &mut String<A>, fault: Fault) -> Result<(), OutOfMemory>
    ensures { OnOk result (string_bytes text.new ≡ string_bytes text.old ++ json_refused (fault_view fault)) }
{
    let number = u64::from(fault.number());
    add_member(text, "refused\",\"fault\":", number)?;
    add_fault_name(text, number)
}

/// Adds the object of a refusal.
#[tactic(auto, unfolding(crate::specs::JsonText::json_last))]
fn add_refused<A: Allocator + Copy>(
    text: &mut String<A>,
    number: u64,
    fault: Fault,
) -> Result<(), OutOfMemory>
    ensures { OnOk result (string_bytes text.new ≡ string_bytes text.old
        ++ json_last number (json_refused (fault_view fault))) }
{
    add_front(text, number)?;
    add_fault(text, fault)?;
    Ok(text.push_str("}\n")?)
}

/// Adds the objects of outputs, in their order.
fn add_outputs<A: Allocator + Copy>(
    text: &mut String<A>,
    number: u64,
    outputs: &[Output<'_, A>],
) -> Result<(), OutOfMemory>
    ensures { OnOk result (string_bytes text.new ≡ string_bytes text.old
        ++ json_outputs number (all_shown outputs.now)) }
{
    for output in outputs {
        add_json_output(text, number, output)?;
    }
    Ok(())
}

/// Adds the objects of an answer to the line with this number: its outputs one by one, and a last one.
pub(crate) fn add_json_answer<A: Allocator + Copy>(
    text: &mut String<A>,
    number: u64,
    answer: &Answer<'_, A>,
) -> Result<(), OutOfMemory>
    ensures { OnOk result (string_bytes text.new ≡ string_bytes text.old
        ++ json_answer number (answer_view answer.now)) }
{
    match answer {
        Answer::NewDialogue(dialogue) => {
            add_made(text, number, "new\",\"dialogue\":", u64::from(*dialogue))
        }
        Answer::Number(made) => add_made(text, number, "number\",\"number\":", *made),
        Answer::Done => add_last(text, number, "done\""),
        Answer::GivenUp(given_up) => add_made(text, number, "givenup\",\"number\":", *given_up),
        Answer::Outputs(outputs) => {
            add_outputs(text, number, outputs)?;
            add_last(text, number, "done\"")
        }
        Answer::Refused(fault) => add_refused(text, number, *fault),
    }
}

/// Adds the object of the moment at which the next timer is due.
#[tactic(auto, unfolding(crate::specs::JsonText::json_last))]
pub(crate) fn add_json_timer<A: Allocator + Copy>(
    text: &mut String<A>,
    number: u64,
    timer: Option<u64>,
) -> Result<(), OutOfMemory>
    ensures { OnOk result (string_bytes text.new ≡ string_bytes text.old ++ json_last number (json_timer timer)) }
{
    add_front(text, number)?;
    text.push_str("timer\",\"moment\":")?;
    add_number(text, timer)?;
    Ok(text.push_str("}\n")?)
}

/// The members of a dialogue's state.
fn state_members(state: Option<State>) -> &'static str
    ensures { result.now ≡ json_state state }
{
    match state {
        Some(State::Fresh) => "state\",\"state\":\"fresh\"",
        Some(State::Sent) => "state\",\"state\":\"sent\"",
        Some(State::Received) => "state\",\"state\":\"received\"",
        Some(State::Active) => "state\",\"state\":\"active\"",
        None => "state\",\"state\":null",
    }
}

/// Adds the object of a dialogue's state.
pub(crate) fn add_json_state<A: Allocator + Copy>(
    text: &mut String<A>,
    number: u64,
    state: Option<State>,
) -> Result<(), OutOfMemory>
    ensures { OnOk result (string_bytes text.new ≡ string_bytes text.old ++ json_last number (json_state state)) }
{
    add_last(text, number, state_members(state))
}

/// Adds which word of a line is wrong first, and what was expected there.
fn add_fault_of_line<A: Allocator + Copy>(
    text: &mut String<A>,
    fault: LineFault,
) -> Result<(), OutOfMemory>
    ensures { OnOk result (string_bytes text.new ≡ string_bytes text.old
        ++ (codes ",\"why\":\"" ++ (line_fault_words live_table fault ++ codes "\""))) }
{
    text.push_str(",\"why\":\"")?;
    add_line_fault(text, &live_table(), fault)?;
    Ok(text.push_str("\"")?)
}

/// Adds which word of a line is wrong first, by its number, and what was expected there.
fn add_first_wrong<A: Allocator + Copy>(
    text: &mut String<A>,
    fault: LineFault,
) -> Result<(), OutOfMemory>
    ensures { OnOk result (string_bytes text.new ≡ string_bytes text.old ++ json_wrong (Some fault)) }
{
    add_member(text, "bad\",\"word\":", fault.word as u64)?;
    add_fault_of_line(text, fault)
}

/// Adds what is wrong with a line that has no form.
fn add_wrong<A: Allocator + Copy>(text: &mut String<A>, line: &[u8]) -> Result<(), OutOfMemory>
    ensures { OnOk result (string_bytes text.new ≡ string_bytes text.old
        ++ json_wrong (first_fault live_table (words_of line.now))) }
{
    match line_fault(&live_table(), line) {
        Some(fault) => add_first_wrong(text, fault),
        None => Ok(text.push_str("bad\"")?),
    }
}

/// Adds the object of a line that has no form.
#[tactic(auto, unfolding(crate::specs::JsonText::json_last))]
pub(crate) fn add_json_bad<A: Allocator + Copy>(
    text: &mut String<A>,
    number: u64,
    line: &[u8],
) -> Result<(), OutOfMemory>
    ensures { OnOk result (string_bytes text.new ≡ string_bytes text.old
        ++ json_last number (json_wrong (first_fault live_table (words_of line.now)))) }
{
    add_front(text, number)?;
    add_wrong(text, line)?;
    Ok(text.push_str("}\n")?)
}

//! The lines of an answer, and the line of an output.

mod closings;
mod components;
mod dialogues;

ghost use Rattle.std.specs.Prelude.{◌≡◌, ◌++◌, OnOk, string_bytes, ◌≤◌, [], ◌∷◌, false, OnErr, codes};
ghost use Rattle.tcap_primitives.specs.OutputViews.{drop_view, shown, all_shown};
ghost use Rattle.tcap_play.specs.OutputText.{drop_words, send_words, strange_words, output_words, output_line, engine_words};
ghost use Rattle.tcap_play.specs.SideView.{side_view};
ghost use Rattle.tcap_play.specs.AnswerText.{sends_in, prints_nothing, output_lines, answer_lines};
ghost use Rattle.tcap_model.specs.Words.Answer as model;
ghost use Rattle.std.specs.Fmt.{decimal};
ghost use Rattle.tcap_engine.specs.EventViews.{answer_view};

use crate::side::Side;
use ber_core::OutOfMemory;
pub use closings::add_closing;
pub use components::add_component;
pub use dialogues::add_dialogue;
use itoa::Buffer;
use std::alloc::Allocator;
use tcap_engine::{Address, Answer, DropWhy, Output};
use tcap_text::{add_decimal, add_hex, add_octets_or_dash};

/// Adds where a message goes that doesn't go to the other side; nothing of one that does.
fn add_strange<A: Allocator + Copy>(
    text: &mut String<A>,
    side: Side,
    to: &Address,
) -> Result<(), OutOfMemory>
    ensures { OnOk result (string_bytes text.new ≡ string_bytes text.old ++ strange_words (side_view side) to.now) }
{
    if to.octets() == side.beyond().octets() {
        return Ok(());
    }
    text.push_str(" to ")?;
    add_octets_or_dash(text, to.octets())
}

/// Adds a message that a side sends, of this number among all that it sends.
fn add_send<A: Allocator + Copy>(
    text: &mut String<A>,
    side: Side,
    number: u128,
    to: &Address,
    bytes: &[u8],
) -> Result<(), OutOfMemory>
    ensures { OnOk result (string_bytes text.new ≡ string_bytes text.old
        ++ send_words (side_view side) number to.now bytes.now) }
{
    text.push_str("send ")?;
    text.push_str(side.letter())?;
    text.push_str(Buffer::new().format(number))?;
    text.push_str(" ")?;
    add_hex(text, bytes)?;
    add_strange(text, side, to)
}

/// Why a message is dropped.
pub fn drop_text(why: DropWhy) -> &'static str
    ensures { result.now ≡ drop_words (drop_view why) }
{
    match why {
        DropWhy::TooLong => "toolong",
        DropWhy::BadMessage => "badmessage",
        DropWhy::NoDialogue => "nodialogue",
        DropWhy::BadDialogue => "baddialogue",
    }
}

/// Adds the words of an output of a side; `number` is that of the message, if it sends one.
fn add_words<A: Allocator + Copy>(
    text: &mut String<A>,
    side: Side,
    number: u128,
    output: &Output<'_, A>,
) -> Result<(), OutOfMemory>
    ensures { OnOk result (string_bytes text.new ≡ string_bytes text.old
        ++ output_words (side_view side) number (shown output.now)) }
{
    match output {
        Output::Send { to, bytes } => add_send(text, side, number, to, bytes),
        Output::Uni { .. } | Output::Begin { .. } | Output::Continue { .. } | Output::End { .. } =>
            { add_dialogue(text, output) }
        Output::UAbort { .. } | Output::PAbort { .. } => add_dialogue(text, output),
        Output::Invoked { .. } | Output::ResultMore { .. } => add_component(text, output),
        Output::LocalReject { .. } | Output::RemoteReject { .. } => add_component(text, output),
        Output::ResultLast { .. } | Output::ErrorBack { .. } => add_closing(text, output),
        Output::Rejected { .. } | Output::Lapsed { .. } | Output::Ended { .. } => {
            add_closing(text, output)
        }
        Output::Dropped(why) => {
            text.push_str("dropped ")?;
            Ok(text.push_str(drop_text(*why))?)
        }
    }
}

/// Adds the line of an output of a side; `number` is that of the message, if it sends one. Each part of it
/// goes behind the text that is there: no block is made of it first.
pub(crate) fn add_output<A: Allocator + Copy>(
    text: &mut String<A>,
    side: Side,
    number: u128,
    output: &Output<'_, A>,
) -> Result<(), OutOfMemory>
    ensures { OnOk result (string_bytes text.new ≡ string_bytes text.old
        ++ output_line (side_view side) number (shown output.now)) }
{
    text.push_str(side.letter())?;
    text.push_str(" ")?;
    add_words(text, side, number, output)?;
    text.push_str("\n")?;
    Ok(())
}

/// How many messages an output sends, one or none.
fn sends<A: Allocator + Copy>(output: &Output<'_, A>) -> u128
    ensures sends { result ≡ sends_in (shown output.now ∷ []) }
    ensures few { result ≤ 1 }
{
    match output {
        Output::Send { .. } => 1,
        Output::Uni { .. } | Output::Begin { .. } | Output::Continue { .. } => 0,
        Output::End { .. } | Output::UAbort { .. } | Output::PAbort { .. } => 0,
        Output::Invoked { .. } | Output::ResultMore { .. } | Output::ResultLast { .. } => 0,
        Output::LocalReject { .. } | Output::RemoteReject { .. } | Output::Rejected { .. } => 0,
        Output::ErrorBack { .. } | Output::Lapsed { .. } | Output::Ended { .. } => 0,
        Output::Dropped(_) => 0,
    }
}

/// Adds the lines of the outputs of a side that has sent so many messages before them.
fn add_outputs<A: Allocator + Copy>(
    text: &mut String<A>,
    side: Side,
    sent: usize,
    outputs: &[Output<'_, A>],
) -> Result<(), OutOfMemory>
    ensures lines { OnOk result (string_bytes text.new ≡ string_bytes text.old
        ++ output_lines (side_view side) sent (all_shown outputs.now)) }
    ensures err { OnErr result (prints_nothing (model.Answer.outputs (all_shown outputs.now)) ≡ false) }
{
    // The number of a message is above a usize where `sent` is the highest.
    let mut count = sent as u128;
    for output in outputs {
        add_output(text, side, count + 1, output)?;
        count += sends(output);
    }
    Ok(())
}

/// Adds the line of an answer that has a number, by its name, which has a space on each side.
fn add_numbered<A: Allocator + Copy>(
    text: &mut String<A>,
    side: Side,
    name: &str,
    number: u64,
) -> Result<(), OutOfMemory>
    ensures { OnOk result (string_bytes text.new ≡ string_bytes text.old
        ++ (engine_words (side_view side) ++ (name.now ++ (decimal number ++ codes "\n")))) }
{
    text.push_str(side.letter())?;
    text.push_str(name)?;
    add_decimal(text, number)?;
    text.push_str("\n")?;
    Ok(())
}

/// Adds the lines of an answer of a side that has sent so many messages before it: its outputs one by
/// one, every other answer in one line.
pub(crate) fn add_answer<A: Allocator + Copy>(
    text: &mut String<A>,
    side: Side,
    sent: usize,
    answer: &Answer<'_, A>,
) -> Result<(), OutOfMemory>
    ensures lines { OnOk result (string_bytes text.new ≡ string_bytes text.old
        ++ answer_lines (side_view side) sent (answer_view answer.now)) }
    // Memory is refused only where something is printed.
    ensures err { OnErr result (prints_nothing (answer_view answer.now) ≡ false) }
{
    match answer {
        Answer::NewDialogue(dialogue) => add_numbered(text, side, " new ", u64::from(*dialogue)),
        Answer::Number(number) => add_numbered(text, side, " number ", *number),
        Answer::Done => {
            text.push_str(side.letter())?;
            Ok(text.push_str(" done\n")?)
        }
        Answer::GivenUp(number) => add_numbered(text, side, " givenup ", *number),
        Answer::Outputs(outputs) => add_outputs(text, side, sent, outputs),
        Answer::Refused(fault) => {
            add_numbered(text, side, " refused ", u64::from(fault.number()))
        }
    }
}

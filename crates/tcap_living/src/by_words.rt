//! What the words of a line ask for, answered.
//!
//! How many words there are says which of them may stand for octets: only these are read from hexadecimal,
//! and kept for as long as the line takes.

ghost use Rattle.std.specs.Prelude.{◌≡◌, IfOk, OnOk, length, option_map, string_bytes};
ghost use Rattle.tcap_play.specs.LineViews.{texts_of};
ghost use Rattle.tcap_living.specs.Asking.{DoesAt, DoesAtIf};
ghost use Rattle.tcap_living.specs.LineViews.{line_view};
ghost use Rattle.tcap_living.specs.LiveLine.{line_of};

use crate::answers::{add_answer, add_state, add_timer};
use crate::context::Context;
use crate::format::Format;
use crate::line::{
    Line, line_of_eight, line_of_five, line_of_four, line_of_one, line_of_three, line_of_two,
};
use ber_core::OutOfMemory;
use std::alloc::Allocator;
use tcap_engine::Engine;
use tcap_play::script::requests::invoke_request;
use tcap_play::script::word::{Word, address_named};

/// Does what a line with this number asks for, and adds the answer.
fn act<A: Allocator + Copy>(
    engine: &mut Engine<A>,
    format: Format,
    number: u64,
    line: Line<'_>,
    text: &mut String<A>,
) -> Result<(), OutOfMemory>
    ensures { OnOk result (DoesAt format number (line_view line.entry) engine.old engine.new
        (string_bytes text.old) (string_bytes text.new)) }
{
    match line {
        Line::Call(event) => {
            let answer = engine.handle(&event)?;
            add_answer(text, format, number, &answer)
        }
        Line::Timer => add_timer(text, format, number, engine.next_timer()),
        Line::State(dialogue) => add_state(text, format, number, engine.state_of(dialogue)),
    }
}

/// Does what a line asks for, if it is one, and tells whether it is.
fn act_if<A: Allocator + Copy>(
    engine: &mut Engine<A>,
    format: Format,
    number: u64,
    line: Option<Line<'_>>,
    text: &mut String<A>,
) -> Result<bool, OutOfMemory>
    ensures { IfOk result (λ done. DoesAtIf format number (option_map line_view line.entry) done engine.old engine.new
        (string_bytes text.old) (string_bytes text.new)) }
{
    match line {
        Some(line) => {
            act(engine, format, number, line, text)?;
            Ok(true)
        }
        None => Ok(false),
    }
}

/// Does what one word asks for.
fn act_on_one<A: Allocator + Copy>(
    engine: &mut Engine<A>,
    format: Format,
    number: u64,
    words: &[&[u8]],
    text: &mut String<A>,
) -> Result<bool, OutOfMemory>
    requires { length words.now ≡ 1 }
    ensures { IfOk result (λ done. DoesAtIf format number (line_of (texts_of words.now)) done engine.old engine.new
        (string_bytes text.old) (string_bytes text.new)) }
{
    let line = line_of_one(words[0]);
    act_if(engine, format, number, line, text)
}

/// Does what two words ask for.
fn act_on_two<A: Allocator + Copy>(
    engine: &mut Engine<A>,
    format: Format,
    number: u64,
    words: &[&[u8]],
    text: &mut String<A>,
) -> Result<bool, OutOfMemory>
    requires { length words.now ≡ 2 }
    ensures { IfOk result (λ done. DoesAtIf format number (line_of (texts_of words.now)) done engine.old engine.new
        (string_bytes text.old) (string_bytes text.new)) }
{
    let line = line_of_two(words[0], words[1]);
    act_if(engine, format, number, line, text)
}

/// Does what three words ask for, the last of which may be octets, and the one before it an address.
fn act_on_three<A: Allocator + Copy>(
    alloc: A,
    engine: &mut Engine<A>,
    format: Format,
    number: u64,
    words: &[&[u8]],
    text: &mut String<A>,
) -> Result<bool, OutOfMemory>
    requires { length words.now ≡ 3 }
    ensures { IfOk result (λ done. DoesAtIf format number (line_of (texts_of words.now)) done engine.old engine.new
        (string_bytes text.old) (string_bytes text.new)) }
{
    let from = address_named(alloc, words[1])?;
    let last = Word::new(alloc, words[2])?;
    let line = line_of_three(words[0], words[1], &from, &last);
    act_if(engine, format, number, line, text)
}

/// Does what four words ask for, the last two of which may be octets.
fn act_on_four<A: Allocator + Copy>(
    alloc: A,
    engine: &mut Engine<A>,
    format: Format,
    number: u64,
    words: &[&[u8]],
    text: &mut String<A>,
) -> Result<bool, OutOfMemory>
    requires { length words.now ≡ 4 }
    ensures { IfOk result (λ done. DoesAtIf format number (line_of (texts_of words.now)) done engine.old engine.new
        (string_bytes text.old) (string_bytes text.new)) }
{
    let third = Context::new(alloc, words[2])?;
    let last = Word::new(alloc, words[3])?;
    let line = line_of_four(words[0], words[1], &third, &last);
    act_if(engine, format, number, line, text)
}

/// Does what five words ask for, the last two of which may be octets, and the one before them an address.
fn act_on_five<A: Allocator + Copy>(
    alloc: A,
    engine: &mut Engine<A>,
    format: Format,
    number: u64,
    words: &[&[u8]],
    text: &mut String<A>,
) -> Result<bool, OutOfMemory>
    requires { length words.now ≡ 5 }
    ensures { IfOk result (λ done. DoesAtIf format number (line_of (texts_of words.now)) done engine.old engine.new
        (string_bytes text.old) (string_bytes text.new)) }
{
    let to = address_named(alloc, words[2])?;
    let fourth = Context::new(alloc, words[3])?;
    let last = Word::new(alloc, words[4])?;
    let line = line_of_five(words[0], words[1], words[2], &to, &fourth, &last);
    act_if(engine, format, number, line, text)
}

/// Does what eight words ask for, the last of which may be octets.
fn act_on_eight<A: Allocator + Copy>(
    alloc: A,
    engine: &mut Engine<A>,
    format: Format,
    number: u64,
    words: &[&[u8]],
    text: &mut String<A>,
) -> Result<bool, OutOfMemory>
    requires { length words.now ≡ 8 }
    ensures { IfOk result (λ done. DoesAtIf format number (line_of (texts_of words.now)) done engine.old engine.new
        (string_bytes text.old) (string_bytes text.new)) }
{
    let last = Word::new(alloc, words[7])?;
    let request = invoke_request(words[2], words[3], words[4], words[5], words[6], &last);
    let line = line_of_eight(words[0], words[1], request);
    act_if(engine, format, number, line, text)
}

/// Does what the words of a line ask for, and tells whether they ask for anything.
pub(crate) fn act_on<A: Allocator + Copy>(
    alloc: A,
    engine: &mut Engine<A>,
    format: Format,
    number: u64,
    words: &[&[u8]],
    text: &mut String<A>,
) -> Result<bool, OutOfMemory>
    ensures { IfOk result (λ done. DoesAtIf format number (line_of (texts_of words.now)) done engine.old engine.new
        (string_bytes text.old) (string_bytes text.new)) }
{
    let count = words.len();
    if count == 1 {
        act_on_one(engine, format, number, words, text)
    } else if count == 2 {
        act_on_two(engine, format, number, words, text)
    } else if count == 3 {
        act_on_three(alloc, engine, format, number, words, text)
    } else if count == 4 {
        act_on_four(alloc, engine, format, number, words, text)
    } else if count == 5 {
        act_on_five(alloc, engine, format, number, words, text)
    } else if count == 8 {
        act_on_eight(alloc, engine, format, number, words, text)
    } else {
        Ok(false)
    }
}

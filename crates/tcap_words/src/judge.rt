//! What the verdict on bytes is.

ghost use Rattle.std.specs.Prelude.{◌≡◌, ◌<◌, ◌++◌, length, not, is_err, is_some, IfSome, IfOk, OnOk, OnErr, string_bytes, option_copied};
ghost use Rattle.std.specs.List.{position_from};
ghost use Rattle.ber_core.specs.Results.{Gives};
ghost use Rattle.tcap_pdu.specs.FrameViews.{message, reason_of};
ghost use Rattle.tcap_pdu.specs.DialogueReading.{dialogue_at};
ghost use Rattle.tcap_component.specs.ComponentReading.{components_of};
ghost use Rattle.tcap_words.specs.Text.{line};
ghost use Rattle.tcap_words.specs.Verdict.{verdict_of_fault, message_of, is_known, is_good_portion, is_good_reason, components_verdict, portions_verdict, message_verdict, verdict_of, is_good, is_numbered, verdict_words};

use crate::shown::Shown;
use crate::text::add_number;
use crate::verdict::Verdict;
use ber_core::OutOfMemory;
use std::alloc::Allocator;
use tcap_component::take_component;
use tcap_pdu::{AbortPart, DialoguePdu, Frame, FrameFault, MAX_MESSAGE, read_dialogue, read_frame};

/// The verdict on bytes that are no message.
fn verdict_on_fault(fault: FrameFault) -> Verdict
    ensures { result ≡ verdict_of_fault fault }
{
    match fault {
        FrameFault::Unknown => Verdict::UnknownType,
        FrameFault::BadlyFormatted => Verdict::BadlyFormatted,
        FrameFault::Incorrect => Verdict::Incorrect,
    }
}

/// The message that the bytes spell, or the verdict on bytes that spell none.
#[tactic(auto, unfolding(crate::specs::Verdict::message_of))]
pub fn read_message<'a>(bytes: &'a [u8]) -> Result<Frame<'a>, Verdict>
    ensures { Gives message result (message_of bytes.now) }
{
    if bytes.len() > MAX_MESSAGE {
        return Err(Verdict::TooLong);
    }
    match read_frame(bytes) {
        Ok(frame) => Ok(frame),
        Err(fault) => Err(verdict_on_fault(fault)),
    }
}

/// Whether the contents of a dialogue portion can be read and are not foreign.
fn is_known_pdu(content: &[u8]) -> bool
    ensures { result ≡ is_known (dialogue_at content.now) }
{
    match read_dialogue(content) {
        Ok(
            DialoguePdu::Aarq { .. }
            | DialoguePdu::Audt { .. }
            | DialoguePdu::Aare { .. }
            | DialoguePdu::Abrt { .. },
        ) => true,
        Ok(DialoguePdu::Foreign { .. }) | Err(_) => false,
    }
}

/// Whether the dialogue portion of a message other than an Abort is good, if it has one.
pub(crate) fn has_good_portion(dialogue: &Option<&[u8]>) -> bool
    ensures { result ≡ is_good_portion (option_copied dialogue.now) }
{
    match dialogue {
        Some(content) => is_known_pdu(content),
        None => true,
    }
}

/// Whether the dialogue portion of an Abort is good, if it has one.
pub fn has_good_reason(part: &AbortPart<'_>) -> bool
    ensures { result ≡ is_good_reason (reason_of part.now) }
{
    match part {
        AbortPart::Nothing | AbortPart::Cause(_) => true,
        AbortPart::Dialogue(content) => read_dialogue(content).is_ok(),
    }
}

/// The place of the first faulty component, counted from 0.
fn faulty_place(components: &[u8]) -> Option<usize>
    ensures value { result ≡ position_from is_err 0 (components_of components.now) }
    ensures below { IfSome result (λ place. place < length components.now) }
{
    let mut place: usize = 0;
    let mut rest = components;
    while !rest.is_empty() {
        let Some((_, after)) = take_component(rest) else {
            return Some(place);
        };
        rest = after;
        place += 1;
    }
    None
}

/// The verdict on the contents of a component portion.
fn judge_components(components: &[u8]) -> Verdict
    ensures { result ≡ components_verdict components.now }
{
    match faulty_place(components) {
        Some(place) => Verdict::Component(place + 1),
        None => Verdict::Good,
    }
}

/// The verdict on both portions.
fn judge_portions(dialogue: &Option<&[u8]>, components: &[u8]) -> Verdict
    ensures { result ≡ portions_verdict (option_copied dialogue.now) components.now }
{
    if has_good_portion(dialogue) {
        judge_components(components)
    } else {
        Verdict::Dialogue
    }
}

/// The verdict on a message.
pub fn judge_message(frame: &Frame<'_>) -> Verdict
    ensures { result ≡ message_verdict (message frame.now) }
{
    match frame {
        Frame::Uni {
            dialogue,
            components,
        }
        | Frame::Begin {
            dialogue,
            components,
            ..
        }
        | Frame::Continue {
            dialogue,
            components,
            ..
        }
        | Frame::End {
            dialogue,
            components,
            ..
        } => judge_portions(dialogue, components),
        Frame::Abort { reason, .. } => {
            if has_good_reason(reason) {
                Verdict::Good
            } else {
                Verdict::Dialogue
            }
        }
    }
}

/// The verdict on the bytes. It takes no memory.
pub fn verdict_on(bytes: &[u8]) -> Verdict
    ensures { result ≡ verdict_of bytes.now }
{
    match read_message(bytes) {
        Ok(frame) => judge_message(&frame),
        Err(verdict) => verdict,
    }
}

/// The line of a verdict, None where it has a number: a line that is known beforehand takes no memory.
pub fn verdict_line(verdict: Verdict) -> Option<&'static str>
    ensures words { IfSome result (λ words. words.now ≡ line (verdict_words verdict)) }
    ensures known { is_some result ≡ not (is_numbered verdict) }
{
    match verdict {
        Verdict::TooLong => Some("fault too long\n"),
        Verdict::UnknownType => Some("fault unknown type\n"),
        Verdict::BadlyFormatted => Some("fault badly formatted\n"),
        Verdict::Incorrect => Some("fault incorrect\n"),
        Verdict::Dialogue => Some("fault dialogue\n"),
        Verdict::Component(_) => None,
        Verdict::Good => Some("good\n"),
    }
}

/// Adds the line of a verdict. Where memory is refused, the text is as before.
pub fn add_verdict<A: Allocator + Copy>(
    text: &mut String<A>,
    verdict: Verdict,
) -> Result<(), OutOfMemory>
    ensures ok { OnOk result (string_bytes text.new ≡ string_bytes text.old ++ line (verdict_words verdict)) }
    ensures err { OnErr result (string_bytes text.new ≡ string_bytes text.old) }
{
    if let Verdict::Component(number) = verdict {
        return add_number(text, "fault component", number);
    }
    // Each of the others has a line that is known beforehand.
    Ok(text.push_str(verdict_line(verdict).unwrap())?)
}

/// The line of a verdict alone.
pub fn verdict_text<A: Allocator + Copy>(
    alloc: A,
    verdict: Verdict,
) -> Result<Shown<A>, OutOfMemory>
    ensures text { IfOk result (λ shown. shown.text.items ≡ line (verdict_words verdict)) }
    ensures good { IfOk result (λ shown. shown.good ≡ is_good verdict) }
{
    let mut text = String::new(alloc);
    add_verdict(&mut text, verdict)?;
    Ok(Shown::of(text, verdict))
}

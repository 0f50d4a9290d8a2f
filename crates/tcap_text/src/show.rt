//! The texts of `show` and `check`.

ghost use Rattle.std.specs.Prelude.{◌≡◌, ◌+◌, ◌*◌, ◌++◌, [], min, OnOk, IfOk, string_bytes, string_capacity};
ghost use Rattle.tcap_pdu.specs.FrameSpelling.{Message};
ghost use Rattle.tcap_pdu.specs.FrameViews.{message, reason_of};
ghost use Rattle.tcap_words.specs.Verdict.{is_good, message_verdict};
ghost use Rattle.tcap_words.specs.Show.{reason_lines, message_lines, show_text_of, show_is_good, check_text_of};

use ber_core::OutOfMemory;
use std::alloc::Allocator;
use tcap_pdu::{AbortPart, Frame, TransId};
use tcap_words::{
    Shown, add_destination, add_dialogue, add_line, add_number, add_origin, add_portions,
    has_good_reason, read_message, verdict_on, verdict_text,
};

/// Adds the lines of an Abort's reason.
fn add_reason<A: Allocator + Copy>(
    text: &mut String<A>,
    part: &AbortPart<'_>,
) -> Result<(), OutOfMemory>
    ensures { OnOk result (string_bytes text.new ≡ string_bytes text.old ++ reason_lines (reason_of part.now)) }
{
    match part {
        AbortPart::Nothing => Ok(()),
        AbortPart::Cause(cause) => add_number(text, "  cause", usize::from(*cause)),
        AbortPart::Dialogue(content) => add_dialogue(text, Some(*content)),
    }
}

/// Adds the lines of an Abort, and tells whether its verdict is good.
fn add_abort<A: Allocator + Copy>(
    text: &mut String<A>,
    dtid: &TransId,
    reason: &AbortPart<'_>,
) -> Result<bool, OutOfMemory>
    ensures text { OnOk result (string_bytes text.new ≡ string_bytes text.old
        ++ message_lines (Message.abort dtid.now (reason_of reason.now))) }
    ensures good { IfOk result (λ good. good
        ≡ is_good (message_verdict (Message.abort dtid.now (reason_of reason.now)))) }
{
    add_line(text, "abort")?;
    add_destination(text, dtid)?;
    add_reason(text, reason)?;
    Ok(has_good_reason(reason))
}

/// Adds the lines of a message, and tells whether its verdict is good.
fn add_message<A: Allocator + Copy>(
    text: &mut String<A>,
    frame: &Frame<'_>,
) -> Result<bool, OutOfMemory>
    ensures text { OnOk result (string_bytes text.new ≡ string_bytes text.old ++ message_lines (message frame.now)) }
    ensures good { IfOk result (λ good. good ≡ is_good (message_verdict (message frame.now))) }
{
    match frame {
        Frame::Uni {
            dialogue,
            components,
        } => {
            add_line(text, "unidirectional")?;
            add_portions(text, *dialogue, *components)
        }
        Frame::Begin {
            otid,
            dialogue,
            components,
        } => {
            add_line(text, "begin")?;
            add_origin(text, otid)?;
            add_portions(text, *dialogue, *components)
        }
        Frame::Continue {
            otid,
            dtid,
            dialogue,
            components,
        } => {
            add_line(text, "continue")?;
            add_origin(text, otid)?;
            add_destination(text, dtid)?;
            add_portions(text, *dialogue, *components)
        }
        Frame::End {
            dtid,
            dialogue,
            components,
        } => {
            add_line(text, "end")?;
            add_destination(text, dtid)?;
            add_portions(text, *dialogue, *components)
        }
        Frame::Abort { dtid, reason } => add_abort(text, dtid, reason),
    }
}

/// The octets that the text of a message of this length most likely has, 1,024 at most: two digits an octet
/// and some words, which is the whole of most texts.
fn likely_len(len: usize) -> usize
    ensures { result ≡ min (2 * len + 96) 1024 }
{
    len.saturating_mul(2).saturating_add(96).min(1_024)
}

/// An empty text with room for that of a message of this length. A long text grows from there, so that a long
/// message with a short text takes no more.
fn text_with_room<A: Allocator + Copy>(alloc: A, len: usize) -> Result<String<A>, OutOfMemory>
    ensures bytes { IfOk result (λ text. string_bytes text ≡ []) }
    ensures capacity { IfOk result (λ text. string_capacity text ≡ min (2 * len + 96) 1024) }
{
    Ok(String::with_capacity(alloc, likely_len(len))?)
}

/// The text of a message of this length. Behind a fault nothing is shown: where there is one, the text is copied to
/// memory of its own size, so that no room is kept for what isn't shown.
fn message_text<A: Allocator + Copy>(
    alloc: A,
    len: usize,
    frame: &Frame<'_>,
) -> Result<Shown<A>, OutOfMemory>
    ensures text { IfOk result (λ shown. shown.text.items ≡ message_lines (message frame.now)) }
    ensures good { IfOk result (λ shown. shown.good ≡ is_good (message_verdict (message frame.now))) }
{
    let mut text = text_with_room(alloc, len)?;
    let good = add_message(&mut text, frame)?;
    let text = if good {
        text.into_bytes()
    } else {
        text.as_bytes().to_vec(alloc)?
    };
    Ok(Shown { text, good })
}

/// The text of `show`: the message that the bytes are, line by line, or the verdict on them alone.
///
/// ```rust
/// let shown = tcap_text::show_text(rt.alloc(), &[0x62, 0x81, 0x03, 0x48, 0x01, 0x07])?;
/// assert_eq!(rt; shown.text.as_slice(), b"begin\n  otid 07\n".as_slice());
/// ```
pub fn show_text<A: Allocator + Copy>(alloc: A, bytes: &[u8]) -> Result<Shown<A>, OutOfMemory>
    ensures text { IfOk result (λ shown. shown.text.items ≡ show_text_of bytes.now) }
    ensures good { IfOk result (λ shown. shown.good ≡ show_is_good bytes.now) }
{
    match read_message(bytes) {
        Ok(frame) => message_text(alloc, bytes.len(), &frame),
        Err(verdict) => verdict_text(alloc, verdict),
    }
}

/// The text of `check`: the verdict on the bytes.
///
/// ```rust
/// let checked = tcap_text::check_text(rt.alloc(), &[0x62, 0x81, 0x03, 0x48, 0x01, 0x07])?;
/// assert!(rt; checked.good);
/// ```
pub fn check_text<A: Allocator + Copy>(alloc: A, bytes: &[u8]) -> Result<Shown<A>, OutOfMemory>
    ensures text { IfOk result (λ shown. shown.text.items ≡ check_text_of bytes.now) }
    ensures good { IfOk result (λ shown. shown.good ≡ show_is_good bytes.now) }
{
    verdict_text(alloc, verdict_on(bytes))
}

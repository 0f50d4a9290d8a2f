//! The canonical form of a message, and the text of `canon`.

ghost use Rattle.std.specs.Prelude.{◌≡◌, ◌≤◌, length, OnOk, IfOk, IfErr, true};
ghost use Rattle.hex.specs.Hex.{encode_lower};
ghost use Rattle.tcap_pdu.specs.FrameSpelling.{HasCause};
ghost use Rattle.tcap_pdu.specs.FrameViews.{message};
ghost use Rattle.tcap_words.specs.Text.{line};
ghost use Rattle.tcap_words.specs.Verdict.{message_limit, is_good};
ghost use Rattle.tcap_words.specs.declared.verdict.Verdict.TheVariants as verdict;
ghost use Rattle.tcap_words.specs.Canonical.{canonical_frame, IsCanonFault, canon_verdict, canon_line, canonical_of, canon_text_of, canon_is_good, IsHexLine};

use ber_core::OutOfMemory;
use std::alloc::Allocator;
use tcap_pdu::Frame;
use tcap_words::{
    CanonFault, Shown, Verdict, add_hex, assemble, judge_message, read_message, rewrite_components,
    rewrite_portion, verdict_text,
};

/// The octets of a message in the canonical form.
fn rewrite_frame<A: Allocator + Copy>(alloc: A, frame: Frame<'_>) -> Result<Vec<u8, A>, CanonFault>
    requires { HasCause (message frame) }
    ensures ok { IfOk result (λ octets. octets.items ≡ canonical_frame (message frame.entry)) }
    ensures short { OnOk result (length (canonical_frame (message frame.entry)) ≤ message_limit) }
    ensures err { IfErr result (λ fault. IsCanonFault (canonical_frame (message frame.entry)) fault) }
{
    let portion = rewrite_portion(alloc, frame.dialogue())?;
    let components = rewrite_components(alloc, frame.components())?;
    match portion {
        Some(dialogue) => assemble(
            alloc,
            frame,
            Some(dialogue.as_slice()),
            components.as_slice(),
        ),
        None => assemble(alloc, frame, None, components.as_slice()),
    }
}

/// The line of octets in lower case hexadecimal, which is good.
fn octets_text<A: Allocator + Copy>(alloc: A, octets: &[u8]) -> Result<Shown<A>, OutOfMemory>
    ensures text { IfOk result (λ shown. shown.text.items ≡ line (encode_lower octets.now)) }
    ensures good { IfOk result (λ shown. shown.good ≡ true) }
    ensures hex { IfOk result (λ shown. IsHexLine shown.text.items octets.now) }
{
    // Room for the digits and the end of the line, which then needs no other block.
    let mut text = String::with_capacity(alloc, 2 * octets.len() + 1)?;
    add_hex(&mut text, octets)?;
    text.push_str("\n")?;
    Ok(Shown::of(text, Verdict::Good))
}

/// The text of a message whose verdict is good.
fn frame_text<A: Allocator + Copy>(alloc: A, frame: Frame<'_>) -> Result<Shown<A>, OutOfMemory>
    requires { HasCause (message frame) }
    ensures text { IfOk result (λ shown. shown.text.items
        ≡ canon_line verdict.Good (canonical_frame (message frame.entry))) }
    ensures good { IfOk result (λ shown. shown.good
        ≡ is_good (canon_verdict verdict.Good (canonical_frame (message frame.entry)))) }
    ensures hex { IfOk result (λ shown. shown.good ≡ true
        → IsHexLine shown.text.items (canonical_frame (message frame.entry))) }
{
    match rewrite_frame(alloc, frame) {
        Ok(octets) => octets_text(alloc, octets.as_slice()),
        Err(CanonFault::TooLong) => verdict_text(alloc, Verdict::TooLong),
        Err(CanonFault::OutOfMemory) => Err(OutOfMemory),
    }
}

/// The text of `canon`: the message in the canonical form, in lower case hexadecimal, where the
/// verdict on the bytes is good and the form has at most 65,535 bytes; else the verdict.
///
/// ```rust
/// let rewritten = tcap_text::canon_text(rt.alloc(), &[0x62, 0x81, 0x03, 0x48, 0x01, 0x07])?;
/// assert_eq!(rt; rewritten.text.as_slice(), b"6203480107\n".as_slice());
/// ```
pub fn canon_text<A: Allocator + Copy>(alloc: A, bytes: &[u8]) -> Result<Shown<A>, OutOfMemory>
    ensures text { IfOk result (λ shown. shown.text.items ≡ canon_text_of bytes.now) }
    ensures good { IfOk result (λ shown. shown.good ≡ canon_is_good bytes.now) }
    ensures hex { IfOk result (λ shown. shown.good ≡ true → IsHexLine shown.text.items (canonical_of bytes.now)) }
{
    match read_message(bytes) {
        Ok(frame) => {
            let verdict = judge_message(&frame);
            if verdict.is_good() {
                frame_text(alloc, frame)
            } else {
                verdict_text(alloc, verdict)
            }
        }
        Err(verdict) => verdict_text(alloc, verdict),
    }
}

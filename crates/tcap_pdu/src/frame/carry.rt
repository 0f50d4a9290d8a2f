//! Writing a message with a dialogue portion of its own.

ghost use Rattle.std.specs.Prelude.{◌≡◌, ◌<◌, length, None, Some, IfOk, IfErr, IsErrOf};
ghost use Rattle.tcap_pdu.specs.declared.fault.PduFault.TheVariants.{TooLong};
ghost use Rattle.tcap_pdu.specs.DialogueDue.{content_fault};
ghost use Rattle.tcap_pdu.specs.DialogueViews.{pdu_value};
ghost use Rattle.tcap_pdu.specs.DialogueWritten.{HasDiagnostic, written_dialogue};
ghost use Rattle.tcap_pdu.specs.FrameLength.{with_dialogue};
ghost use Rattle.tcap_pdu.specs.FrameMeasured.{IsMeasured};
ghost use Rattle.tcap_pdu.specs.FrameSpelling.{HasCause};
ghost use Rattle.tcap_pdu.specs.FrameViews.{message};
ghost use Rattle.tcap_pdu.specs.FrameWritten.{IsWriteFault, message_limit, written_frame};

use super::Frame;
use super::length::{MessageLength, carrying_length};
use super::put::append_message;
use super::write::MAX_HEAD;
use crate::dialogue_pdu::DialoguePdu;
use crate::fault::PduFault;
use ber_core::OutOfMemory;
use std::alloc::Allocator;

/// The octets of a message with the dialogue portion of this PDU, with which it is so long. All room is taken
/// first.
#[inline(always)]
fn spell_carrying<A: Allocator + Copy>(
    alloc: A,
    frame: &Frame<'_>,
    pdu: &DialoguePdu<'_>,
    len: MessageLength,
) -> Result<Vec<u8, A>, OutOfMemory>
    requires good { content_fault (pdu_value pdu.now) ≡ None }
    requires measured { IsMeasured len (message frame.now) (Some (pdu_value pdu.now)) }
    ensures { IfOk result (λ bytes. bytes.items
        ≡ written_frame (with_dialogue (Some (written_dialogue (pdu_value pdu.now))) (message frame.now))) }
{
    let mut out = Vec::with_capacity(alloc, len.contents + MAX_HEAD)?;
    append_message(&mut out, frame, Some(pdu), len);
    Ok(out)
}

/// Writes a message as `write_frame` does, with the dialogue portion of this PDU, in the canonical form, in
/// place of its own: it is written straight into the message. The contents of the PDU are good, as
/// `write_dialogue` judges them; a diagnostic and a cause are at most 127. An Abort with a P-Abort cause
/// keeps its cause, and has no dialogue portion. Faults: TooLong above 65,535 bytes, then OutOfMemory
/// (Q.773, Structure of TC messages; the shortest form and the limit are our own).
///
/// ```rust
/// let end = Frame::End { dtid: TransId::of(1), dialogue: None, components: &[] };
/// let abort = DialoguePdu::Abrt { by_provider: false, info: &[] };
/// let written = tcap_pdu::write_frame_with(alloc, &end, &abort)?;
/// assert_eq!(rt; written.as_slice()[8..10], [0x6b, 0x12]);
/// ```
#[inline(always)]
pub fn write_frame_with<A: Allocator + Copy>(
    alloc: A,
    frame: &Frame<'_>,
    pdu: &DialoguePdu<'_>,
) -> Result<Vec<u8, A>, PduFault>
    requires cause { HasCause (message frame.now) }
    requires diagnostic { HasDiagnostic (pdu_value pdu.now) }
    requires good { content_fault (pdu_value pdu.now) ≡ None }
    ensures written { IfOk result (λ bytes. bytes.items
        ≡ written_frame (with_dialogue (Some (written_dialogue (pdu_value pdu.now))) (message frame.now))) }
    // TooLong exactly above the limit, OutOfMemory only up to it, and no other fault.
    ensures too_long { message_limit < length (written_frame (with_dialogue
        (Some (written_dialogue (pdu_value pdu.now))) (message frame.now))) → IsErrOf result TooLong }
    ensures fault { IfErr result (λ fault. IsWriteFault (with_dialogue
        (Some (written_dialogue (pdu_value pdu.now))) (message frame.now)) fault) }
{
    let Some(len) = carrying_length(frame, pdu) else {
        return Err(PduFault::TooLong);
    };
    Ok(spell_carrying(alloc, frame, pdu, len)?)
}

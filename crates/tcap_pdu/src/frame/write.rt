//! Writing a message.

ghost use Rattle.std.specs.Prelude.{◌≡◌, ◌<◌, length, None, IfOk, IfErr, IsErrOf};
ghost use Rattle.tcap_pdu.specs.declared.fault.PduFault.TheVariants.{TooLong};
ghost use Rattle.tcap_pdu.specs.FrameSpelling.{HasCause, SpellsFrame};
ghost use Rattle.tcap_pdu.specs.FrameMeasured.{IsMeasured};
ghost use Rattle.tcap_pdu.specs.FrameWritten.{IsWriteFault, message_limit, written_frame};
ghost use Rattle.tcap_pdu.specs.FrameViews.{message};

use super::Frame;
use super::length::{MessageLength, own_length};
use super::put::append_message;
use crate::fault::PduFault;
use ber_core::OutOfMemory;
use std::alloc::Allocator;

/// The most octets of a written head: the tag and three length octets.
pub(super) const MAX_HEAD: usize = 4;

/// The octets of a message that is so long. All room is taken first.
#[inline(always)]
fn spell_frame<A: Allocator + Copy>(
    alloc: A,
    frame: &Frame<'_>,
    len: MessageLength,
) -> Result<Vec<u8, A>, OutOfMemory>
    requires { IsMeasured len (message frame.now) None }
    ensures { IfOk result (λ bytes. bytes.items ≡ written_frame (message frame.now)) }
{
    let mut out = Vec::with_capacity(alloc, len.contents + MAX_HEAD)?;
    append_message(&mut out, frame, None, len);
    Ok(out)
}

/// Writes a message in the canonical form: the shortest definite lengths, an empty component portion
/// left out but in a Unidirectional. The contents of 6B and 6C are copied. A cause is at most 127.
/// Faults: TooLong above 65,535 bytes, then OutOfMemory (Q.773, Structure of TC messages; the
/// shortest form and the limit are our own).
///
/// ```rust
/// let end = Frame::End { dtid: TransId::of(1), dialogue: None, components: &[] };
/// let written = tcap_pdu::write_frame(alloc, &end)?;
/// assert_eq!(rt; written.as_slice(), [0x64, 0x06, 0x49, 0x04, 0x00, 0x00, 0x00, 0x01].as_slice());
/// ```
#[inline(always)]
pub fn write_frame<A: Allocator + Copy>(alloc: A, frame: &Frame<'_>) -> Result<Vec<u8, A>, PduFault>
    requires { HasCause (message frame.now) }
    ensures written { IfOk result (λ bytes. bytes.items ≡ written_frame (message frame.now)) }
    // What is written spells the message, so that reading it gives the message back.
    ensures spelled { IfOk result (λ bytes. SpellsFrame (message frame.now) bytes.items) }
    // TooLong exactly above the limit, OutOfMemory only up to it, and no other fault.
    ensures too_long { message_limit < length (written_frame (message frame.now)) → IsErrOf result TooLong }
    ensures fault { IfErr result (λ fault. IsWriteFault (message frame.now) fault) }
{
    let Some(len) = own_length(frame) else {
        return Err(PduFault::TooLong);
    };
    Ok(spell_frame(alloc, frame, len)?)
}

//! Writing a dialogue portion.

ghost use Rattle.std.specs.Prelude.{◌≡◌, ◌≤◌, IfOk, IfErr, IfSome, length};
ghost use Rattle.std.specs.Result.{IsErrOf};
ghost use Rattle.ber_core.specs.ObjectIdentifier.{object_identifier_limit};
ghost use Rattle.tcap_pdu.specs.DialogueSpelling.{SpellsDialogue};
ghost use Rattle.tcap_pdu.specs.DialogueViews.{pdu_value};
ghost use Rattle.tcap_pdu.specs.DialogueWritten.{portion_limit, written_dialogue, HasDiagnostic, IsWritable, WriteFault};
ghost use Rattle.tcap_pdu.specs.DialogueDue.{context_of, due_fault, portion_length};

use crate::dialogue_pdu::DialoguePdu;
use crate::dialogue_pdu::len::checked_len;
use crate::dialogue_pdu::put::put_portion;
use crate::fault::PduFault;
use ber_core::OutOfMemory;
use std::alloc::Allocator;

/// The contents of a dialogue portion, of this length. All room is taken first.
#[inline(always)]
fn spell_portion<A: Allocator + Copy>(
    alloc: A,
    len: usize,
    pdu: &DialoguePdu<'_>,
) -> Result<Vec<u8, A>, OutOfMemory>
    requires context { IfSome (context_of (pdu_value pdu.now)) (λ c. length c ≤ object_identifier_limit) }
    requires short { portion_length (pdu_value pdu.now) ≤ portion_limit }
    requires len { len ≡ length (written_dialogue (pdu_value pdu.now)) }
    ensures { IfOk result (λ out. out.items ≡ written_dialogue (pdu_value pdu.now)) }
{
    let mut out = Vec::with_capacity(alloc, len)?;
    put_portion(&mut out, pdu);
    Ok(out)
}

/// Writes the contents of a dialogue portion in the canonical form. A diagnostic is at most 127. Of
/// the faults the first in the order BadOid, BadInfo, TooLong, OutOfMemory is answered.
///
/// ```rust
/// let request = DialoguePdu::Aarq { version1: true, context: &[0x04, 0, 0, 1, 0, 1, 3], info: &[] };
/// let portion = tcap_pdu::write_dialogue(alloc, &request)?;
/// assert!(rt; matches!(tcap_pdu::read_dialogue(portion.as_slice()), Ok(DialoguePdu::Aarq { .. })));
/// ```
#[inline(always)]
pub fn write_dialogue<A: Allocator + Copy>(
    alloc: A,
    pdu: &DialoguePdu<'_>,
) -> Result<Vec<u8, A>, PduFault>
    requires { HasDiagnostic (pdu_value pdu.now) }
    // What is given is the canonical form, and spells the PDU.
    ensures ok { IfOk result (λ out.
        IsWritable (pdu_value pdu.now) × (out.items ≡ written_dialogue (pdu_value pdu.now))) }
    ensures spelled { IfOk result (λ out. SpellsDialogue (pdu_value pdu.now) out.items) }
    // Which fault, the first in the order; `OutOfMemory` only where no other is due.
    ensures err { IfErr result (λ f. WriteFault (pdu_value pdu.now) f) }
    // The same, computed: what the layers above cite.
    ensures due { IfSome (due_fault (pdu_value pdu.now)) (λ f. IsErrOf result f) }
{
    let len = checked_len(pdu)?;
    Ok(spell_portion(alloc, len, pdu)?)
}

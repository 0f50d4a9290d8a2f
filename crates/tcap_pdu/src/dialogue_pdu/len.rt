//! How long a written dialogue portion is, and whether it can be written.

ghost use Rattle.std.specs.Prelude.{◌≡◌, ◌+◌, ◌<◌, ◌≤◌, ◌^◌, IfSome, IfNone, length};
ghost use Rattle.std.specs.Result.{result_ok};
ghost use Rattle.ber_core.specs.ObjectIdentifier.{object_identifier_limit};
ghost use Rattle.ber_core.specs.Results.{Gives};
ghost use Rattle.tcap_pdu.specs.DialogueViews.{pdu_value};
ghost use Rattle.tcap_pdu.specs.DialogueWritten.{written_dialogue, IsWritable};
ghost use Rattle.tcap_pdu.specs.DialogueDue.{context_of, is_context, is_information_good, content_fault, length_at, information_length, opening_length, answer_length, held_length, external_length, portion_length};

use crate::dialogue_pdu::DialoguePdu;
use crate::dialogue_pdu::parts::is_user_information;
use crate::dialogue_pdu::read::read_pdu;
use crate::dialogue_tag::{STRUCTURED, VERSION_1};
use crate::fault::PduFault;
use ber_core::{MAX_LENGTH, element_len, is_oid};

/// Whether the application context name, where there is one, is an object identifier.
#[inline(always)]
fn is_context_good(pdu: &DialoguePdu<'_>) -> bool
    ensures { result ≡ is_context (context_of (pdu_value pdu.now)) }
{
    match pdu {
        DialoguePdu::Aarq { context, .. }
        | DialoguePdu::Audt { context, .. }
        | DialoguePdu::Aare { context, .. } => is_oid(context),
        DialoguePdu::Abrt { .. } | DialoguePdu::Foreign { .. } => true,
    }
}

/// Whether the user information is a list of EXTERNALs, and a foreign EXTERNAL one.
#[inline(always)]
fn is_information_good(pdu: &DialoguePdu<'_>) -> bool
    ensures { result ≡ is_information_good (pdu_value pdu.now) }
{
    match pdu {
        DialoguePdu::Aarq { info, .. }
        | DialoguePdu::Audt { info, .. }
        | DialoguePdu::Aare { info, .. }
        | DialoguePdu::Abrt { info, .. } => is_user_information(info),
        DialoguePdu::Foreign { external } => {
            matches!(read_pdu(external), Some(DialoguePdu::Foreign { .. }))
        }
    }
}

/// The first fault of the PDU's contents.
#[inline(always)]
fn content_fault(pdu: &DialoguePdu<'_>) -> Option<PduFault>
    ensures { result ≡ content_fault (pdu_value pdu.now) }
{
    if !is_context_good(pdu) {
        Some(PduFault::BadOid)
    } else if !is_information_good(pdu) {
        Some(PduFault::BadInfo)
    } else {
        None
    }
}

/// How many octets user information of this length takes; it is left out where it is empty.
#[inline(always)]
pub(crate) fn information_len(info: usize) -> usize
    requires { info + 4 < 2 ^ 64 }
    ensures { result ≡ information_length info }
{
    if info == 0 { 0 } else { element_len(info) }
}

/// How many octets a version and a context of this length take.
#[tactic(auto, using(crate::proofs::DialogueLength::element_most))]
#[inline(always)]
pub(crate) fn opening_len(context: usize) -> usize
    requires { context ≤ object_identifier_limit }
    ensures { result ≡ opening_length context }
{
    element_len(VERSION_1.len()) + element_len(element_len(context))
}

/// How many octets a result and a diagnostic take.
#[tactic(auto, using(crate::proofs::DialogueLength::element_most))]
#[inline(always)]
pub(crate) fn answer_len() -> usize
    ensures { result ≡ answer_length }
{
    element_len(element_len(1)) + element_len(element_len(element_len(1)))
}

/// How many octets an EXTERNAL holds, for a PDU with contents of this length.
#[tactic(auto, using(crate::proofs::DialogueLength::element_most))]
#[inline(always)]
pub(crate) fn held_len(contents: usize) -> usize
    requires { contents + 64 < 2 ^ 64 }
    ensures { result ≡ held_length contents }
{
    element_len(STRUCTURED.len()) + element_len(element_len(contents))
}

/// How many octets an EXTERNAL takes, for a PDU with contents of this length.
#[tactic(auto, using(crate::proofs::DialogueLength::element_most))]
#[inline(always)]
fn external_len(contents: usize) -> usize
    requires { contents + 64 < 2 ^ 64 }
    ensures { result ≡ external_length contents }
{
    element_len(held_len(contents))
}

/// How many octets the PDU takes, with its EXTERNAL.
#[tactic(auto, using(crate::proofs::DialogueLength::element_most, crate::proofs::DialogueLength::information_most), unfolding(crate::specs::DialogueDue::portion_length))]
#[inline(always)]
pub(crate) fn portion_len(pdu: &DialoguePdu<'_>) -> usize
    requires { IfSome (context_of (pdu_value pdu.now)) (λ c. length c ≤ object_identifier_limit) }
    ensures { result ≡ portion_length (pdu_value pdu.now) }
{
    match pdu {
        DialoguePdu::Aarq { context, info, .. } | DialoguePdu::Audt { context, info, .. } => {
            external_len(opening_len(context.len()) + information_len(info.len()))
        }
        DialoguePdu::Aare { context, info, .. } => external_len(
            opening_len(context.len()) + answer_len() + information_len(info.len()),
        ),
        DialoguePdu::Abrt { info, .. } => external_len(
            element_len(1) + information_len(info.len()),
        ),
        DialoguePdu::Foreign { external } => external.len(),
    }
}

/// The length that is written, or the first fault that is due, `OutOfMemory` apart.
#[tactic(auto, using(crate::proofs::DueSteps::due_content, crate::proofs::DueSteps::due_long, crate::proofs::DueSteps::due_none))]
#[inline(always)]
pub(crate) fn checked_len(pdu: &DialoguePdu<'_>) -> Result<usize, PduFault>
    ensures { Gives (λ n. n) result (length_at (pdu_value pdu.now)) }
{
    if let Some(fault) = content_fault(pdu) {
        return Err(fault);
    }
    let len = portion_len(pdu);
    if len > MAX_LENGTH {
        return Err(PduFault::TooLong);
    }
    Ok(len)
}

/// How many octets `write_dialogue` gives, and `None` where it refuses for another cause than want of
/// memory. It takes no memory.
pub fn dialogue_len(pdu: &DialoguePdu<'_>) -> Option<usize>
    ensures len { IfSome result (λ len.
        IsWritable (pdu_value pdu.now) × (len ≡ length (written_dialogue (pdu_value pdu.now)))) }
    ensures none { IfNone result (IsWritable (pdu_value pdu.now) → ⊥) }
    // The same, computed: what the layers above cite.
    ensures exact { result ≡ result_ok (length_at (pdu_value pdu.now)) }
{
    checked_len(pdu).ok()
}

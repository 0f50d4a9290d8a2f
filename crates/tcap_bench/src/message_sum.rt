//! The checksum of a message.

ghost use Rattle.std.specs.Prelude.{◌≡◌, option_copied};
ghost use Rattle.tcap_pdu.specs.DialogueReading.{dialogue_at};
ghost use Rattle.tcap_pdu.specs.DialogueViews.{source, pdu_value};
ghost use Rattle.tcap_pdu.specs.FrameViews.{message, reason_of};
ghost use Rattle.tcap_bench.specs.Checksum.{checksum, flag, diagnostic_number, pdu_numbers, dialogue_numbers, portions_numbers, reason_numbers, identifier_number, message_numbers, message_checksum};

use crate::component_sum::add_components;
use crate::sum::add;
use tcap_pdu::{AbortPart, Diagnostic, DialoguePdu, Frame, TransId, read_dialogue, read_frame};

/// 1 for yes, 0 for no.
fn flag(yes: bool) -> u64
    ensures { result ≡ flag yes }
{
    if yes { 1 } else { 0 }
}

/// The number of a diagnostic.
fn diagnostic_number(diagnostic: Diagnostic) -> u64
    ensures { result ≡ diagnostic_number (source diagnostic) }
{
    match diagnostic {
        Diagnostic::User(number) => number as u64,
        Diagnostic::Provider(number) => 128 + number as u64,
    }
}

/// Adds a dialogue PDU.
fn add_pdu(total: u64, pdu: &DialoguePdu<'_>) -> u64
    ensures { result ≡ checksum total (pdu_numbers (pdu_value pdu.now)) }
{
    match *pdu {
        DialoguePdu::Aarq {
            version1,
            context,
            info,
        }
        | DialoguePdu::Audt {
            version1,
            context,
            info,
        } => {
            let total = add(add(total, flag(version1)), context.len() as u64);
            add(total, info.len() as u64)
        }
        DialoguePdu::Aare {
            version1,
            context,
            accepted,
            diagnostic,
            info,
        } => {
            let total = add(add(total, flag(version1)), context.len() as u64);
            let total = add(add(total, flag(accepted)), diagnostic_number(diagnostic));
            add(total, info.len() as u64)
        }
        DialoguePdu::Abrt { by_provider, info } => {
            add(add(total, flag(by_provider)), info.len() as u64)
        }
        DialoguePdu::Foreign { external } => add(total, external.len() as u64),
    }
}

/// Adds the PDU that contents of a dialogue portion are, of a fault nothing.
fn add_dialogue(total: u64, content: &[u8]) -> u64
    ensures { result ≡ checksum total (dialogue_numbers (dialogue_at content.now)) }
{
    match read_dialogue(content) {
        Ok(pdu) => add_pdu(total, &pdu),
        Err(_) => total,
    }
}

/// Adds both portions.
#[tactic(auto, using(crate::proofs::Sums::checksum_append))]
fn add_portions(total: u64, dialogue: &Option<&[u8]>, components: &[u8]) -> u64
    ensures { result ≡ checksum total (portions_numbers (option_copied dialogue.now) components.now) }
{
    let total = match dialogue {
        Some(content) => add_dialogue(total, content),
        None => total,
    };
    add_components(total, components)
}

/// Adds what an Abort has behind its destination.
fn add_reason(total: u64, reason: &AbortPart<'_>) -> u64
    ensures { result ≡ checksum total (reason_numbers (reason_of reason.now)) }
{
    match reason {
        AbortPart::Nothing => total,
        AbortPart::Cause(cause) => add(total, *cause as u64),
        AbortPart::Dialogue(content) => add_dialogue(total, content),
    }
}

/// The number of a transaction identifier of four octets, the length of another.
fn identifier_number(id: &TransId) -> u64
    ensures { result ≡ identifier_number id.now }
{
    match id.as_u32() {
        Some(number) => number as u64,
        None => id.octets().len() as u64,
    }
}

/// Adds a message.
#[tactic(auto, using(crate::proofs::Sums::checksum_append))]
fn add_message(total: u64, frame: &Frame<'_>) -> u64
    ensures { result ≡ checksum total (message_numbers (message frame.now)) }
{
    match frame {
        Frame::Uni {
            dialogue,
            components,
        } => add_portions(total, dialogue, components),
        Frame::Begin {
            otid,
            dialogue,
            components,
        } => add_portions(add(total, identifier_number(otid)), dialogue, components),
        Frame::Continue {
            otid,
            dtid,
            dialogue,
            components,
        } => {
            let total = add(add(total, identifier_number(otid)), identifier_number(dtid));
            add_portions(total, dialogue, components)
        }
        Frame::End {
            dtid,
            dialogue,
            components,
        } => add_portions(add(total, identifier_number(dtid)), dialogue, components),
        Frame::Abort { dtid, reason } => add_reason(add(total, identifier_number(dtid)), reason),
    }
}

/// The checksum of the message that the bytes are.
pub fn read_sum(bytes: &[u8]) -> u64
    ensures { result ≡ message_checksum bytes.now }
{
    match read_frame(bytes) {
        Ok(frame) => add_message(0, &frame),
        Err(_) => 0,
    }
}

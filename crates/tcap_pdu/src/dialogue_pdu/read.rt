//! Reading a dialogue portion.

ghost use Rattle.std.specs.Prelude.{◌≡◌, [], ◌∷◌, None, IfOk, IfErr, IfSome, IsOkAnd, option_map};
ghost use Rattle.ber_core.specs.Place.{Slice};
ghost use Rattle.ber_core.specs.Way.{IsOnWay, IsOnWayIfAny, GoesOn};
ghost use Rattle.ber_core.specs.Results.{Gives};
ghost use Rattle.tcap_pdu.specs.DialogueSpelling.{PduValue, SpellsDialogue};
ghost use Rattle.tcap_pdu.specs.DialoguePartsReading.{opening};
ghost use Rattle.tcap_pdu.specs.DialogueReading.{request_at, accepted_of, by_provider_of, response_at, abort_at, structured_at, unstructured_at, foreign_by, pdu_by, pdu_at, dialogue_at};
ghost use Rattle.tcap_pdu.specs.DialogueViews.{pdu_value};
ghost use Rattle.tcap_pdu.specs.DialoguePlace.{pdu_tag, foreign_slice, PartsOnWay, PduOnWay, PduInPlace};

use crate::dialogue_pdu::DialoguePdu;
use crate::dialogue_pdu::parts::{
    only_octet, read_diagnostic, read_information, read_number, read_opening, take_one,
};
use crate::dialogue_pdu::plain::read_plain;
use crate::dialogue_tag::{
    ABORT_BY_PROVIDER, ABORT_BY_USER, ABORT_SOURCE, ACCEPTED, DIALOGUE_ABORT, DIALOGUE_REQUEST,
    DIALOGUE_RESPONSE, EXTERNAL, OBJECT_IDENTIFIER, REJECT_PERMANENT, RESULT,
    RESULT_SOURCE_DIAGNOSTIC, SINGLE_ASN1_TYPE, STRUCTURED, UNIDIRECTIONAL_DIALOGUE, UNSTRUCTURED,
};
use crate::fault::DialogueFault;
use ber_core::{is_element_list, is_oid, take_content, take_only};

/// AARQ and AUDT: [80 protocol version], A1 application context name, [BE user information].
#[tactic(auto, unfolding(crate::specs::DialogueReading::request_at))]
fn read_request<'a>(content: &'a [u8]) -> Option<(bool, &'a [u8], &'a [u8])>
    ensures value { option_map (λ r. opening r.0 r.1.now r.2.now) result ≡ request_at content.now }
    ensures context { IfSome result (λ r. IsOnWay (0xa1 ∷ 0x06 ∷ []) r.1 content.entry) }
    ensures info { IfSome result (λ r. IsOnWayIfAny (0xbe ∷ []) r.2 content.entry) }
{
    let (version1, context, rest) = read_opening(content)?;
    let info = read_information(rest)?;
    Some((version1, context, info))
}

/// Whether a result says accepted.
fn accepted_of(number: u8) -> Option<bool>
    ensures { result ≡ accepted_of number }
{
    match number {
        ACCEPTED => Some(true),
        REJECT_PERMANENT => Some(false),
        _ => None,
    }
}

/// Whether an abort source is the provider.
fn by_provider_of(number: u8) -> Option<bool>
    ensures { result ≡ by_provider_of number }
{
    match number {
        ABORT_BY_USER => Some(false),
        ABORT_BY_PROVIDER => Some(true),
        _ => None,
    }
}

/// AARE: [80 protocol version], A1 application context name, A2 result, A3 result source diagnostic,
/// [BE user information].
#[tactic(auto, unfolding(crate::specs::DialogueReading::response_at))]
fn read_response<'a>(content: &'a [u8]) -> Option<DialoguePdu<'a>>
    ensures value { option_map pdu_value result ≡ response_at content.now }
    ensures tag { IfSome result (λ pdu. pdu_tag pdu ≡ 0x61) }
    ensures own { IfSome result (λ pdu. foreign_slice pdu ≡ None) }
    ensures place { IfSome result (λ pdu. PartsOnWay [] pdu content.entry) }
{
    let (version1, context, rest) = read_opening(content)?;
    let (result, rest) = take_content(rest, RESULT)?;
    let number = read_number(result)?;
    let accepted = accepted_of(number)?;
    let (source, rest) = take_content(rest, RESULT_SOURCE_DIAGNOSTIC)?;
    let diagnostic = read_diagnostic(source)?;
    let info = read_information(rest)?;
    Some(DialoguePdu::Aare {
        version1,
        context,
        accepted,
        diagnostic,
        info,
    })
}

/// ABRT: 80 abort source, [BE user information].
#[tactic(auto, unfolding(crate::specs::DialogueReading::abort_at))]
fn read_abort<'a>(content: &'a [u8]) -> Option<DialoguePdu<'a>>
    ensures value { option_map pdu_value result ≡ abort_at content.now }
    ensures tag { IfSome result (λ pdu. pdu_tag pdu ≡ 0x64) }
    ensures own { IfSome result (λ pdu. foreign_slice pdu ≡ None) }
    ensures place { IfSome result (λ pdu. PartsOnWay [] pdu content.entry) }
{
    let (source, rest) = take_content(content, ABORT_SOURCE)?;
    let number = only_octet(source)?;
    let by_provider = by_provider_of(number)?;
    let info = read_information(rest)?;
    Some(DialoguePdu::Abrt { by_provider, info })
}

/// The PDU of a structured dialogue, and nothing after it.
#[tactic(auto, unfolding(crate::specs::DialogueReading::structured_at))]
fn read_structured<'a>(bytes: &'a [u8]) -> Option<DialoguePdu<'a>>
    ensures value { option_map pdu_value result ≡ structured_at bytes.now }
    ensures own { IfSome result (λ pdu. foreign_slice pdu ≡ None) }
    ensures place { IfSome result (λ pdu. PartsOnWay (pdu_tag pdu ∷ []) pdu bytes.entry) }
{
    let (tag, content) = take_one(bytes)?;
    match tag {
        DIALOGUE_REQUEST => {
            let (version1, context, info) = read_request(content)?;
            Some(DialoguePdu::Aarq {
                version1,
                context,
                info,
            })
        }
        DIALOGUE_RESPONSE => read_response(content),
        DIALOGUE_ABORT => read_abort(content),
        _ => None,
    }
}

/// The PDU of an unstructured dialogue, and nothing after it.
#[tactic(auto, unfolding(crate::specs::DialogueReading::unstructured_at))]
fn read_unstructured<'a>(bytes: &'a [u8]) -> Option<DialoguePdu<'a>>
    ensures value { option_map pdu_value result ≡ unstructured_at bytes.now }
    ensures own { IfSome result (λ pdu. foreign_slice pdu ≡ None) }
    ensures place { IfSome result (λ pdu. PartsOnWay (pdu_tag pdu ∷ []) pdu bytes.entry) }
{
    let content = take_only(bytes, UNIDIRECTIONAL_DIALOGUE)?;
    let (version1, context, info) = read_request(content)?;
    Some(DialoguePdu::Audt {
        version1,
        context,
        info,
    })
}

/// The foreign EXTERNAL that all bytes are, with this syntax and what follows it.
#[tactic(auto, unfolding(crate::specs::DialogueReading::foreign_by))]
fn read_foreign<'a>(bytes: &'a [u8], syntax: &[u8], rest: &[u8]) -> Option<DialoguePdu<'a>>
    ensures value { option_map pdu_value result ≡ foreign_by bytes.now syntax.now rest.now }
    ensures place { (external : Slice) → IfSome result (λ pdu. PduOnWay (0xa0 ∷ []) pdu bytes.entry external) }
{
    if !is_oid(syntax) {
        return None;
    }
    if !is_element_list(rest) {
        return None;
    }
    Some(DialoguePdu::Foreign { external: bytes })
}

/// The PDU by the abstract syntax, which stands first in the EXTERNAL.
#[tactic(auto, unfolding(crate::specs::DialogueReading::pdu_by))]
fn read_by_syntax<'a>(bytes: &'a [u8], syntax: &'a [u8], rest: &'a [u8]) -> Option<DialoguePdu<'a>>
    ensures value { option_map pdu_value result ≡ pdu_by bytes.now syntax.now rest.now }
    ensures place { (external : Slice) → GoesOn 0xa0 rest.entry external →
        IfSome result (λ pdu. PduOnWay (0xa0 ∷ []) pdu bytes.entry external) }
{
    if syntax == STRUCTURED.as_slice() {
        read_structured(take_only(rest, SINGLE_ASN1_TYPE)?)
    } else if syntax == UNSTRUCTURED.as_slice() {
        read_unstructured(take_only(rest, SINGLE_ASN1_TYPE)?)
    } else {
        read_foreign(bytes, syntax, rest)
    }
}

/// `read_pdu`, of any form.
#[tactic(auto, unfolding(crate::specs::DialogueReading::pdu_at))]
#[inline(never)]
fn read_general<'a>(bytes: &'a [u8]) -> Option<DialoguePdu<'a>>
    ensures value { option_map pdu_value result ≡ pdu_at bytes.now }
    ensures place { IfSome result (λ pdu. PduOnWay (0x28 ∷ 0xa0 ∷ []) pdu bytes.entry bytes.entry) }
{
    let external = take_only(bytes, EXTERNAL)?;
    let (syntax, rest) = take_content(external, OBJECT_IDENTIFIER)?;
    read_by_syntax(bytes, syntax, rest)
}

/// The PDU that the bytes spell, if any. Those of nearly every dialogue are read in one pass.
pub(crate) fn read_pdu<'a>(bytes: &'a [u8]) -> Option<DialoguePdu<'a>>
    ensures value { option_map pdu_value result ≡ pdu_at bytes.now }
    ensures place { IfSome result (λ pdu. PduOnWay (0x28 ∷ 0xa0 ∷ []) pdu bytes.entry bytes.entry) }
{
    if let Some(pdu) = read_plain(bytes) {
        return Some(pdu);
    }
    read_general(bytes)
}

/// The PDU that the bytes spell, or why there is none.
#[tactic(auto, unfolding(crate::specs::DialogueReading::dialogue_at))]
fn read_portion<'a>(bytes: &'a [u8]) -> Result<DialoguePdu<'a>, DialogueFault>
    ensures value { Gives pdu_value result (dialogue_at bytes.now) }
    ensures place { IfOk result (λ pdu. PduOnWay (0x28 ∷ 0xa0 ∷ []) pdu bytes.entry bytes.entry) }
{
    read_pdu(bytes).ok_or(DialogueFault::Faulty)
}

/// Reads the contents of a dialogue portion: one EXTERNAL and nothing after it, and the PDU in it.
pub fn read_dialogue<'a>(content: &'a [u8]) -> Result<DialoguePdu<'a>, DialogueFault>
    // What is read is spelled.
    ensures found { IfOk result (λ pdu. SpellsDialogue (pdu_value pdu) content.now) }
    // Each PDU that is spelled is read.
    ensures only { (p : PduValue) → SpellsDialogue p content.now → IsOkAnd result (λ pdu. pdu_value pdu ≡ p) }
    // The fault comes where no PDU is spelled.
    ensures fault { IfErr result (λ _. (p : PduValue) → SpellsDialogue p content.now → ⊥) }
    // Its slices are parts of the content, at their places.
    ensures place { IfOk result (λ pdu. PduInPlace pdu content.entry) }
    // The same, computed: what the layers above cite.
    ensures exact { Gives pdu_value result (dialogue_at content.now) }
{
    read_portion(content)
}

//! Reading the dialogue PDUs that open nearly every dialogue, in one pass: an AARQ and an accepting
//! AARE of version 1 without user information, each length one octet below 128. Whatever else stands
//! there is left to the general reading.

ghost use Rattle.std.specs.Prelude.{◌≡◌, ◌≢◌, ◌==◌, ℕ, List, [], ◌∷◌, bit_and, false, true, Some, None, IfSome};
ghost use Rattle.ber_core.specs.SequenceReading.{only_at};
ghost use Rattle.ber_core.specs.Place.{Slice};
ghost use Rattle.ber_core.specs.Way.{IsInside, IsOnWay, GoesOn};
ghost use Rattle.tcap_pdu.specs.DialoguePartsReading.{version_of, version_and, version_at, context_at, opening, opening_at};
ghost use Rattle.tcap_pdu.specs.DialogueReading.{request_at, response_at, structured_at, pdu_by, pdu_at};
ghost use Rattle.tcap_pdu.specs.DialogueViews.{pdu_value};
ghost use Rattle.tcap_pdu.specs.DialoguePlace.{pdu_tag, foreign_slice, PartsOnWay, PduOnWay};

use crate::dialogue_pdu::{Diagnostic, DialoguePdu};
use crate::dialogue_tag::{
    ACCEPTED, APPLICATION_CONTEXT_NAME, DIALOGUE_REQUEST, DIALOGUE_RESPONSE, DIALOGUE_SERVICE_USER,
    EXTERNAL, INTEGER, NULL, OBJECT_IDENTIFIER, PROTOCOL_VERSION, RESULT, RESULT_SOURCE_DIAGNOSTIC,
    SINGLE_ASN1_TYPE, STRUCTURED, VERSION_1,
};
use ber_core::{is_oid, take_short};

/// What follows the application context name of an AARE that accepts: the result accepted, and the
/// diagnostic null of the dialogue service user (Q.773, Dialogue portion).
const ACCEPTED_BY_USER: [u8; 12] = [
    RESULT,
    3,
    INTEGER,
    1,
    ACCEPTED,
    RESULT_SOURCE_DIAGNOSTIC,
    5,
    DIALOGUE_SERVICE_USER,
    3,
    INTEGER,
    1,
    NULL,
];

/// The content of the one element that the bytes are, where it has this tag and a short length.
#[tactic(auto, unfolding(ber_core::specs::SequenceReading::only_at))]
#[inline(always)]
fn take_only_short<'a>(bytes: &'a [u8], tag: u8) -> Option<&'a [u8]>
    requires { (tag ≢ 0x00) × (bit_and tag 0x1f == 0x1f ≡ false) }
    ensures value { IfSome result (λ content. only_at tag bytes.now ≡ Some content.now) }
    ensures inside { IfSome result (λ content. IsInside tag content bytes.entry) }
{
    match take_short(bytes, tag) {
        Some((content, [])) => Some(content),
        _ => None,
    }
}

/// The application context name that is held, where its length is short.
#[tactic(auto, unfolding(crate::specs::DialoguePartsReading::context_at))]
#[inline(always)]
fn take_context<'a>(bytes: &'a [u8]) -> Option<&'a [u8]>
    ensures value { IfSome result (λ context. context_at bytes.now ≡ Some context.now) }
    ensures inside { IfSome result (λ context. IsInside 0x06 context bytes.entry) }
{
    match take_only_short(bytes, OBJECT_IDENTIFIER) {
        Some(context) if is_oid(context) => Some(context),
        _ => None,
    }
}

/// What follows a protocol version that says version 1.
#[tactic(auto, unfolding(crate::specs::DialoguePartsReading::version_at, crate::specs::DialoguePartsReading::version_of))]
#[inline(always)]
fn skip_version1<'a>(bytes: &'a [u8]) -> Option<&'a [u8]>
    ensures value { IfSome result (λ rest. version_at bytes.now ≡ Some (version_and true rest.now)) }
    ensures goes_on { IfSome result (λ rest. GoesOn 0xa1 rest bytes.entry) }
{
    match take_short(bytes, PROTOCOL_VERSION) {
        Some((octets, rest)) if octets == VERSION_1.as_slice() => Some(rest),
        _ => None,
    }
}

/// Version 1 and the application context name, and what follows them.
#[tactic(auto, unfolding(crate::specs::DialoguePartsReading::opening_at))]
#[inline(always)]
fn take_opening<'a>(bytes: &'a [u8]) -> Option<(bool, &'a [u8], &'a [u8])>
    ensures value { IfSome result (λ r. opening_at bytes.now ≡ Some (opening r.0 r.1.now r.2.now)) }
    ensures context { IfSome result (λ r. IsOnWay (0xa1 ∷ 0x06 ∷ []) r.1 bytes.entry) }
{
    let rest = skip_version1(bytes)?;
    let (name, rest) = take_short(rest, APPLICATION_CONTEXT_NAME)?;
    let context = take_context(name)?;
    Some((true, context, rest))
}

/// An AARQ without user information: version 1 and the application context name.
#[inline(always)]
fn take_request<'a>(content: &'a [u8]) -> Option<(bool, &'a [u8])>
    ensures value { IfSome result (λ r. request_at content.now ≡ Some (opening r.0 r.1.now [])) }
    ensures context { IfSome result (λ r. IsOnWay (0xa1 ∷ 0x06 ∷ []) r.1 content.entry) }
{
    match take_opening(content) {
        Some((version1, context, [])) => Some((version1, context)),
        _ => None,
    }
}

/// An AARE that accepts, without user information.
#[inline(always)]
fn take_response<'a>(content: &'a [u8]) -> Option<DialoguePdu<'a>>
    ensures value { IfSome result (λ pdu. response_at content.now ≡ Some (pdu_value pdu)) }
    ensures tag { IfSome result (λ pdu. pdu_tag pdu ≡ 0x61) }
    ensures own { IfSome result (λ pdu. foreign_slice pdu ≡ None) }
    ensures place { IfSome result (λ pdu. PartsOnWay [] pdu content.entry) }
{
    match take_opening(content) {
        Some((version1, context, rest)) if rest == ACCEPTED_BY_USER.as_slice() => Some(
            DialoguePdu::Aare {
                version1,
                context,
                accepted: true,
                diagnostic: Diagnostic::User(NULL),
                info: &[],
            },
        ),
        _ => None,
    }
}

/// The PDU of a structured dialogue, and nothing after it.
#[inline(always)]
fn take_structured<'a>(bytes: &'a [u8]) -> Option<DialoguePdu<'a>>
    ensures value { IfSome result (λ pdu. structured_at bytes.now ≡ Some (pdu_value pdu)) }
    ensures own { IfSome result (λ pdu. foreign_slice pdu ≡ None) }
    ensures place { IfSome result (λ pdu. PartsOnWay (pdu_tag pdu ∷ []) pdu bytes.entry) }
{
    if let Some(content) = take_only_short(bytes, DIALOGUE_REQUEST) {
        let (version1, context) = take_request(content)?;
        return Some(DialoguePdu::Aarq {
            version1,
            context,
            info: &[],
        });
    }
    take_response(take_only_short(bytes, DIALOGUE_RESPONSE)?)
}

/// The PDU behind the abstract syntax of structured dialogues.
#[tactic(auto, unfolding(crate::specs::DialogueReading::pdu_by))]
#[inline(always)]
fn take_by_syntax<'a>(syntax: &[u8], rest: &'a [u8]) -> Option<DialoguePdu<'a>>
    ensures value { (bytes : List ℕ) →
        IfSome result (λ pdu. pdu_by bytes syntax.now rest.now ≡ Some (pdu_value pdu)) }
    ensures place { (bytes external : Slice) → GoesOn 0xa0 rest.entry external →
        IfSome result (λ pdu. PduOnWay (0xa0 ∷ []) pdu bytes external) }
{
    if syntax != STRUCTURED.as_slice() {
        return None;
    }
    take_structured(take_only_short(rest, SINGLE_ASN1_TYPE)?)
}

/// The PDU that the bytes spell, where it is one of these; nothing says only that it isn't.
#[tactic(auto, unfolding(crate::specs::DialogueReading::pdu_at))]
#[inline(always)]
pub(crate) fn read_plain<'a>(bytes: &'a [u8]) -> Option<DialoguePdu<'a>>
    ensures value { IfSome result (λ pdu. pdu_at bytes.now ≡ Some (pdu_value pdu)) }
    ensures place { IfSome result (λ pdu. PduOnWay (0x28 ∷ 0xa0 ∷ []) pdu bytes.entry bytes.entry) }
{
    let external = take_only_short(bytes, EXTERNAL)?;
    let (syntax, rest) = take_short(external, OBJECT_IDENTIFIER)?;
    take_by_syntax(syntax, rest)
}

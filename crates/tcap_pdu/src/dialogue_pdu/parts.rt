//! The parts of a dialogue PDU, read one by one.

ghost use Rattle.std.specs.Prelude.{◌≡◌, ◌==◌, ℕ, [], ◌∷◌, false, Some, IfSome, option_map};
ghost use Rattle.ber_core.specs.Way.{IsInside, IsInsideIfAny, IsOnWay, GoesOn};
ghost use Rattle.tcap_pdu.specs.DialoguePartsReading.{one_octet, tag_and, one_at, is_information, information_at, version_of, version_at, context_at, opening, opening_at, number_at, source_of, diagnostic_at};
ghost use Rattle.tcap_pdu.specs.DialogueViews.{source};

use crate::dialogue_pdu::Diagnostic;
use crate::dialogue_tag::{
    APPLICATION_CONTEXT_NAME, DIALOGUE_SERVICE_PROVIDER, DIALOGUE_SERVICE_USER, EXTERNAL,
    FIRST_BIT, INTEGER, MAX_DIAGNOSTIC, MAX_UNUSED, OBJECT_IDENTIFIER, PROTOCOL_VERSION,
    USER_INFORMATION,
};
use ber_core::{Elements, is_oid, read_alone, take_content, take_only, take_tagged};

/// The one octet that a content is.
#[tactic(auto, unfolding(crate::specs::DialoguePartsReading::one_octet))]
pub(crate) fn only_octet(content: &[u8]) -> Option<u8>
    ensures { result ≡ one_octet content.now }
{
    match content {
        [octet] => Some(*octet),
        _ => None,
    }
}

/// The tag, of one octet, and the content of the one element that the bytes are.
#[tactic(auto, unfolding(crate::specs::DialoguePartsReading::one_at))]
pub(crate) fn take_one<'a>(bytes: &'a [u8]) -> Option<(u8, &'a [u8])>
    ensures value { option_map (λ r. tag_and r.0 r.1.now) result ≡ one_at bytes.now }
    ensures inside { IfSome result (λ r. IsInside r.0 r.1 bytes.entry) }
{
    let element = read_alone(bytes)?;
    let tag = only_octet(element.tag)?;
    Some((tag, element.content))
}

/// Whether the bytes are user information: EXTERNALs one after the other.
fn are_externals(bytes: &[u8]) -> bool
    ensures { result ≡ is_information bytes.now }
{
    Elements::new(bytes).all(|item| match item {
        Ok(element) => match element.tag {
            [tag] => *tag == EXTERNAL,
            _ => false,
        },
        Err(_) => false,
    })
}

/// Whether the bytes are user information as a dialogue PDU carries it: EXTERNALs, elements with the tag
/// 28, one after the other, and none where it is left out (Q.773, Dialogue portion).
#[tactic(auto, using(crate::proofs::DialogueParts::information_none))]
#[inline(always)]
pub fn is_user_information(bytes: &[u8]) -> bool
    ensures { result ≡ is_information bytes.now }
{
    if bytes.is_empty() {
        return true;
    }
    are_externals(bytes)
}

/// [BE user information], and nothing after it.
#[tactic(auto, unfolding(crate::specs::DialoguePartsReading::information_at))]
pub(crate) fn read_information<'a>(bytes: &'a [u8]) -> Option<&'a [u8]>
    ensures value { option_map (λ info. info.now) result ≡ information_at bytes.now }
    ensures inside { IfSome result (λ info. IsInsideIfAny 0xbe info bytes.entry) }
{
    let (info, rest) = take_tagged(bytes, USER_INFORMATION);
    let info = info.unwrap_or(&[]);
    if !is_user_information(info) {
        return None;
    }
    if !rest.is_empty() {
        return None;
    }
    Some(info)
}

/// Whether the octets of a protocol version, or none, say version 1.
#[tactic(auto, unfolding(crate::specs::DialoguePartsReading::version_of))]
fn says_version1(octets: &[u8]) -> Option<bool>
    ensures { result ≡ version_of (Some octets.now) }
{
    match octets {
        [0] => Some(false),
        [unused, bits, ..] if *unused <= MAX_UNUSED => Some(*bits >= FIRST_BIT),
        _ => None,
    }
}

/// [80 protocol version]: whether it is absent or says version 1; and what follows it.
#[tactic(auto, unfolding(crate::specs::DialoguePartsReading::version_at, crate::specs::DialoguePartsReading::version_of))]
fn read_version<'a>(bytes: &'a [u8]) -> Option<(bool, &'a [u8])>
    ensures value { option_map (λ r. (r.0, r.1.now)) result ≡ version_at bytes.now }
    ensures goes_on { (other : ℕ) → (0x80 == other) ≡ false
        → IfSome result (λ r. GoesOn other r.1 bytes.entry) }
{
    match take_tagged(bytes, PROTOCOL_VERSION) {
        (Some(octets), rest) => Some((says_version1(octets)?, rest)),
        (None, rest) => Some((true, rest)),
    }
}

/// The application context name that is held: one element 06, an object identifier.
#[tactic(auto, unfolding(crate::specs::DialoguePartsReading::context_at))]
fn read_context<'a>(bytes: &'a [u8]) -> Option<&'a [u8]>
    ensures value { option_map (λ context. context.now) result ≡ context_at bytes.now }
    ensures inside { IfSome result (λ context. IsInside 0x06 context bytes.entry) }
{
    let context = take_only(bytes, OBJECT_IDENTIFIER)?;
    if is_oid(context) { Some(context) } else { None }
}

/// [80 protocol version], A1 application context name; and what follows them.
#[tactic(auto, unfolding(crate::specs::DialoguePartsReading::opening_at))]
pub(crate) fn read_opening<'a>(bytes: &'a [u8]) -> Option<(bool, &'a [u8], &'a [u8])>
    ensures value { option_map (λ r. opening r.0 r.1.now r.2.now) result ≡ opening_at bytes.now }
    ensures context { IfSome result (λ r. IsOnWay (0xa1 ∷ 0x06 ∷ []) r.1 bytes.entry) }
    ensures goes_on { (other : ℕ) → (0x80 == other) ≡ false → (0xa1 == other) ≡ false →
        IfSome result (λ r. GoesOn other r.2 bytes.entry) }
{
    let (version1, rest) = read_version(bytes)?;
    let (name, rest) = take_content(rest, APPLICATION_CONTEXT_NAME)?;
    let context = read_context(name)?;
    Some((version1, context, rest))
}

/// The integer of one octet that is held: one element 02.
#[tactic(auto, unfolding(crate::specs::DialoguePartsReading::number_at))]
pub(crate) fn read_number(bytes: &[u8]) -> Option<u8>
    ensures { result ≡ number_at bytes.now }
{
    only_octet(take_only(bytes, INTEGER)?)
}

/// The diagnostic of this number in an element with this tag.
fn diagnostic_of(tag: u8, number: u8) -> Option<Diagnostic>
    ensures { option_map source result ≡ source_of tag number }
{
    if number > MAX_DIAGNOSTIC {
        return None;
    }
    match tag {
        DIALOGUE_SERVICE_USER => Some(Diagnostic::User(number)),
        DIALOGUE_SERVICE_PROVIDER => Some(Diagnostic::Provider(number)),
        _ => None,
    }
}

/// The result source diagnostic that is held: one element A1 or A2, which holds one element 02.
#[tactic(auto, unfolding(crate::specs::DialoguePartsReading::diagnostic_at))]
pub(crate) fn read_diagnostic(bytes: &[u8]) -> Option<Diagnostic>
    ensures { option_map source result ≡ diagnostic_at bytes.now }
{
    let (tag, held) = take_one(bytes)?;
    let number = read_number(held)?;
    diagnostic_of(tag, number)
}

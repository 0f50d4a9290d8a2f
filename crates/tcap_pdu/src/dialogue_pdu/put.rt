//! Dialogue PDUs appended in the canonical form to a vector that has room for them: no octet is reserved
//! or copied on the way.

ghost use Rattle.std.specs.Prelude.{◌≡◌, ◌+◌, ◌≤◌, ◌++◌, [], ◌∷◌, IfSome, length, vec_len, vec_capacity};
ghost use Rattle.ber_core.specs.ObjectIdentifier.{object_identifier_limit};
ghost use Rattle.ber_core.specs.Sequence.Field.{filled};
ghost use Rattle.ber_core.specs.Written.{written, written_field, written_fields};
ghost use Rattle.ber_core.specs.WrittenLength.{element_length};
ghost use Rattle.tcap_pdu.specs.DialogueSpelling.{abort_source, structured_syntax};
ghost use Rattle.tcap_pdu.specs.DialogueViews.{pdu_value, source};
ghost use Rattle.tcap_pdu.specs.DialogueWritten.{portion_limit, opening_fields, request_fields, result_field, diagnostic_field, response_fields, abort_fields, written_dialogue, written_external};
ghost use Rattle.tcap_pdu.specs.DialogueDue.{context_of, information_length, opening_length, answer_length, external_length, external_front, portion_length};

use crate::dialogue_pdu::len::{answer_len, held_len, information_len, opening_len};
use crate::dialogue_pdu::{Diagnostic, DialoguePdu};
use crate::dialogue_tag::{
    ABORT_BY_PROVIDER, ABORT_BY_USER, ABORT_SOURCE, ACCEPTED, APPLICATION_CONTEXT_NAME,
    DIALOGUE_ABORT, DIALOGUE_REQUEST, DIALOGUE_RESPONSE, DIALOGUE_SERVICE_PROVIDER,
    DIALOGUE_SERVICE_USER, EXTERNAL, INTEGER, NO_VERSION, OBJECT_IDENTIFIER, PROTOCOL_VERSION,
    REJECT_PERMANENT, RESULT, RESULT_SOURCE_DIAGNOSTIC, SINGLE_ASN1_TYPE, STRUCTURED,
    UNIDIRECTIONAL_DIALOGUE, UNSTRUCTURED, USER_INFORMATION, VERSION_1,
};
use ber_core::{element_len, put_element, put_few, put_head, put_octet};
use std::alloc::Allocator;

/// Appends what begins an EXTERNAL, up to the contents of the PDU, which have this length.
#[tactic(auto, using(crate::proofs::DialogueLength::element_least), unfolding(crate::specs::DialogueDue::external_front))]
#[inline(always)]
fn put_front<A: Allocator + Copy>(out: &mut Vec<u8, A>, syntax: &[u8], tag: u8, contents: usize)
    requires syntax { length syntax.now ≡ 7 }
    requires short { external_length contents ≤ portion_limit }
    requires room { vec_len out.old + length (external_front syntax.now tag contents) ≤ vec_capacity out.old }
    ensures items { out.new.items ≡ out.old.items ++ external_front syntax.now tag contents }
    ensures capacity { vec_capacity out.old ≤ vec_capacity out.new }
{
    put_head(out, EXTERNAL, held_len(contents));
    put_few(out, OBJECT_IDENTIFIER, syntax);
    put_head(out, SINGLE_ASN1_TYPE, element_len(contents));
    put_head(out, tag, contents);
}

/// Appends a protocol version, which is always written, and an application context name.
#[tactic(auto, using(crate::proofs::DialogueLength::element_most))]
#[inline(always)]
fn put_opening<A: Allocator + Copy>(out: &mut Vec<u8, A>, version1: bool, context: &[u8])
    requires short { length context.now ≤ object_identifier_limit }
    requires room { vec_len out.old + length (written_fields (opening_fields version1 context.now []))
        ≤ vec_capacity out.old }
    ensures items { out.new.items ≡ out.old.items ++ written_fields (opening_fields version1 context.now []) }
    ensures capacity { vec_capacity out.old ≤ vec_capacity out.new }
{
    let version = if version1 { VERSION_1 } else { NO_VERSION };
    put_few(out, PROTOCOL_VERSION, &version);
    put_head(out, APPLICATION_CONTEXT_NAME, element_len(context.len()));
    put_element(out, OBJECT_IDENTIFIER, context);
}

/// Appends an element that holds an integer of one octet.
#[inline(always)]
fn put_number<A: Allocator + Copy>(out: &mut Vec<u8, A>, tag: u8, number: u8)
    requires { vec_len out.old + 5 ≤ vec_capacity out.old }
    ensures items { out.new.items ≡ out.old.items ++ written (tag ∷ []) (written (0x02 ∷ []) (number ∷ [])) }
    ensures capacity { vec_capacity out.old ≤ vec_capacity out.new }
{
    put_head(out, tag, 3);
    put_octet(out, INTEGER, number);
}

/// Appends a result.
#[inline(always)]
fn put_result<A: Allocator + Copy>(out: &mut Vec<u8, A>, accepted: bool)
    requires { vec_len out.old + 5 ≤ vec_capacity out.old }
    ensures items { out.new.items ≡ out.old.items ++ written_field (result_field accepted) }
    ensures capacity { vec_capacity out.old ≤ vec_capacity out.new }
{
    let number = if accepted { ACCEPTED } else { REJECT_PERMANENT };
    put_number(out, RESULT, number);
}

/// Appends a result source diagnostic.
#[inline(always)]
fn put_diagnostic<A: Allocator + Copy>(out: &mut Vec<u8, A>, diagnostic: Diagnostic)
    requires { vec_len out.old + 7 ≤ vec_capacity out.old }
    ensures items { out.new.items ≡ out.old.items ++ written_field (diagnostic_field (source diagnostic)) }
    ensures capacity { vec_capacity out.old ≤ vec_capacity out.new }
{
    put_head(out, RESULT_SOURCE_DIAGNOSTIC, 5);
    match diagnostic {
        Diagnostic::User(number) => put_number(out, DIALOGUE_SERVICE_USER, number),
        Diagnostic::Provider(number) => put_number(out, DIALOGUE_SERVICE_PROVIDER, number),
    }
}

/// Appends user information; it is left out where it is empty.
#[inline(always)]
fn put_information<A: Allocator + Copy>(out: &mut Vec<u8, A>, info: &[u8])
    requires short { length info.now ≤ portion_limit }
    requires room { vec_len out.old + length (written_fields (filled 0xbe info.now ∷ [])) ≤ vec_capacity out.old }
    ensures items { out.new.items ≡ out.old.items ++ written_fields (filled 0xbe info.now ∷ []) }
    ensures capacity { vec_capacity out.old ≤ vec_capacity out.new }
{
    if !info.is_empty() {
        put_element(out, USER_INFORMATION, info);
    }
}

/// Appends an AARQ or an AUDT, by syntax and tag, with its EXTERNAL.
#[tactic(auto, using(crate::proofs::DialogueLength::element_most, crate::proofs::DialogueLength::information_most))]
#[inline(always)]
fn put_request<A: Allocator + Copy>(
    out: &mut Vec<u8, A>,
    syntax: &[u8],
    tag: u8,
    version1: bool,
    context: &[u8],
    info: &[u8],
)
    requires syntax { length syntax.now ≡ 7 }
    requires context { length context.now ≤ object_identifier_limit }
    requires info { length info.now ≤ portion_limit }
    requires short { external_length (opening_length (length context.now) + information_length (length info.now))
        ≤ portion_limit }
    requires room { vec_len out.old + length (written_external syntax.now tag
        (request_fields version1 context.now info.now)) ≤ vec_capacity out.old }
    ensures items { out.new.items ≡ out.old.items
        ++ written_external syntax.now tag (request_fields version1 context.now info.now) }
    ensures capacity { vec_capacity out.old ≤ vec_capacity out.new }
{
    let contents = opening_len(context.len()) + information_len(info.len());
    put_front(out, syntax, tag, contents);
    put_opening(out, version1, context);
    put_information(out, info);
}

/// Appends an AARE with its EXTERNAL.
#[tactic(auto, using(crate::proofs::DialogueLength::element_most, crate::proofs::DialogueLength::information_most))]
#[inline(always)]
fn put_response<A: Allocator + Copy>(
    out: &mut Vec<u8, A>,
    version1: bool,
    context: &[u8],
    accepted: bool,
    diagnostic: Diagnostic,
    info: &[u8],
)
    requires context { length context.now ≤ object_identifier_limit }
    requires info { length info.now ≤ portion_limit }
    requires short { external_length (opening_length (length context.now) + answer_length + information_length
        (length info.now))
        ≤ portion_limit }
    requires room { vec_len out.old + length (written_external structured_syntax 0x61
        (response_fields version1 context.now accepted (source diagnostic) info.now)) ≤ vec_capacity out.old }
    ensures items { out.new.items ≡ out.old.items ++ written_external structured_syntax 0x61
        (response_fields version1 context.now accepted (source diagnostic) info.now) }
    ensures capacity { vec_capacity out.old ≤ vec_capacity out.new }
{
    let contents = opening_len(context.len()) + answer_len() + information_len(info.len());
    put_front(out, &STRUCTURED, DIALOGUE_RESPONSE, contents);
    put_opening(out, version1, context);
    put_result(out, accepted);
    put_diagnostic(out, diagnostic);
    put_information(out, info);
}

/// Appends an abort source.
#[inline(always)]
fn put_source<A: Allocator + Copy>(out: &mut Vec<u8, A>, by_provider: bool)
    requires { vec_len out.old + 3 ≤ vec_capacity out.old }
    ensures items { out.new.items ≡ out.old.items ++ written (0x80 ∷ []) (abort_source by_provider ∷ []) }
    ensures capacity { vec_capacity out.old ≤ vec_capacity out.new }
{
    let source = if by_provider {
        ABORT_BY_PROVIDER
    } else {
        ABORT_BY_USER
    };
    put_octet(out, ABORT_SOURCE, source);
}

/// Appends an ABRT with its EXTERNAL.
// Rare, and called: with it a message that has a dialogue PDU would be too large to be inlined into what sends it, 50
// instructions a message.
#[tactic(auto, using(crate::proofs::DialogueLength::element_most, crate::proofs::DialogueLength::information_most))]
#[inline(never)]
fn put_abort<A: Allocator + Copy>(out: &mut Vec<u8, A>, by_provider: bool, info: &[u8])
    requires info { length info.now ≤ portion_limit }
    requires short { external_length (element_length 1 + information_length (length info.now)) ≤ portion_limit }
    requires room { vec_len out.old + length (written_external structured_syntax 0x64
        (abort_fields by_provider info.now)) ≤ vec_capacity out.old }
    ensures items { out.new.items ≡ out.old.items
        ++ written_external structured_syntax 0x64 (abort_fields by_provider info.now) }
    ensures capacity { vec_capacity out.old ≤ vec_capacity out.new }
{
    let contents = element_len(1) + information_len(info.len());
    put_front(out, &STRUCTURED, DIALOGUE_ABORT, contents);
    put_source(out, by_provider);
    put_information(out, info);
}

/// Appends the contents of a dialogue portion.
#[tactic(auto, unfolding(crate::specs::DialogueWritten::written_dialogue, crate::specs::DialogueDue::portion_length))]
#[inline(always)]
pub(crate) fn put_portion<A: Allocator + Copy>(out: &mut Vec<u8, A>, pdu: &DialoguePdu<'_>)
    requires context { IfSome (context_of (pdu_value pdu.now)) (λ c. length c ≤ object_identifier_limit) }
    requires short { portion_length (pdu_value pdu.now) ≤ portion_limit }
    requires room { vec_len out.old + length (written_dialogue (pdu_value pdu.now)) ≤ vec_capacity out.old }
    ensures items { out.new.items ≡ out.old.items ++ written_dialogue (pdu_value pdu.now) }
    ensures capacity { vec_capacity out.old ≤ vec_capacity out.new }
{
    match pdu {
        DialoguePdu::Aarq {
            version1,
            context,
            info,
        } => put_request(out, &STRUCTURED, DIALOGUE_REQUEST, *version1, context, info),
        DialoguePdu::Audt {
            version1,
            context,
            info,
        } => put_request(
            out,
            &UNSTRUCTURED,
            UNIDIRECTIONAL_DIALOGUE,
            *version1,
            context,
            info,
        ),
        DialoguePdu::Aare {
            version1,
            context,
            accepted,
            diagnostic,
            info,
        } => put_response(out, *version1, context, *accepted, *diagnostic, info),
        DialoguePdu::Abrt { by_provider, info } => put_abort(out, *by_provider, info),
        DialoguePdu::Foreign { external } => out.extend_from_slice(external).unwrap(),
    }
}

//! The parts of components, each by its line of the table in Q.773, and the two components that come most, of few
//! octets.

ghost use Rattle.std.specs.Prelude.{◌≡◌, ◌==◌, ◌+◌, ◌<◌, ◌≤◌, ◌↔◌, ℕ, [], ◌∷◌, false, get_or, is_some, length, Ok, Some, option_copied, IfSome, IsOk, IsTrue};
ghost use Rattle.std.specs.Option.{option_map};
ghost use Rattle.ber_core.specs.Options.{◌>>=◌ as bound};
ghost use Rattle.ber_core.specs.Place.{AtEnd};
ghost use Rattle.ber_core.specs.SequenceReading.{tagged, content_at};
ghost use Rattle.ber_core.specs.Way.{GoesOn};
ghost use Rattle.tcap_component.specs.declared.component.Component.TheVariants as component;
ghost use Rattle.tcap_component.specs.Place.{CodeOnWay, CodedOnWay, BodyOnWay, ComponentInPlace};
ghost use Rattle.tcap_component.specs.Component.{InRange};
ghost use Rattle.tcap_component.specs.Component.ComponentParts.{invoke};
ghost use Rattle.tcap_component.specs.ComponentReading.{identifier_of, identifier_at, linked_at, global_from, code_at, body_at, invoke_at, result_at, component_at};
ghost use Rattle.tcap_component.specs.Views.{code_parts, body_parts, component_parts};
ghost use Rattle.tcap_component.specs.Written.{HasParts};

use crate::component::{Body, Code};
use crate::tag;
use ber_core::{is_oid, read_int, take_any, take_content, take_short, take_tagged};

/// The identifier that one octet is.
#[tactic(auto, unfolding(crate::specs::ComponentReading::identifier_of))]
#[inline(always)]
pub(crate) fn identifier(content: &[u8]) -> Option<i8>
    ensures { result ≡ identifier_of content.now }
{
    match content {
        [octet] => Some(octet.cast_signed()),
        _ => None,
    }
}

/// The one octet of the content, where the bytes begin with 02 01, and what follows it: most
/// identifiers and codes are such.
#[inline(always)]
fn take_octet(bytes: &[u8]) -> Option<(u8, &[u8])>
    ensures value { IfSome result (λ r. tagged 0x02 bytes.now ≡ (Some (r.0 ∷ []), r.1.now)) }
    ensures place { IfSome result (λ r. AtEnd r.1 bytes.entry) }
    ensures goes_on { (other : ℕ) → (0x02 == other) ≡ false
        → IfSome result (λ r. GoesOn other r.1 bytes.entry) }
{
    match bytes {
        [first, length, octet, rest @ ..] if *first == tag::INTEGER && *length == 1 => {
            Some((*octet, rest))
        }
        _ => None,
    }
}

/// 02 identifier, and what follows it.
#[tactic(auto, unfolding(crate::specs::ComponentReading::identifier_at, crate::specs::ComponentReading::identifier_of))]
#[inline(always)]
pub(crate) fn take_identifier(bytes: &[u8]) -> Option<(i8, &[u8])>
    ensures value { option_map (λ r. (r.0, r.1.now)) result ≡ identifier_at bytes.now }
    ensures code { IfSome result (λ r. GoesOn 0x06 r.1 bytes.entry) }
    ensures body { IfSome result (λ r. GoesOn 0x30 r.1 bytes.entry) }
{
    if let Some((octet, rest)) = take_octet(bytes) {
        return Some((octet.cast_signed(), rest));
    }
    let (content, rest) = take_content(bytes, tag::INTEGER)?;
    let id = identifier(content)?;
    Some((id, rest))
}

/// [80 linked identifier], and what follows it.
#[tactic(auto, unfolding(crate::specs::ComponentReading::linked_at))]
#[inline(always)]
fn take_linked(bytes: &[u8]) -> Option<(Option<i8>, &[u8])>
    ensures value { option_map (λ r. (r.0, r.1.now)) result ≡ linked_at bytes.now }
    ensures code { IfSome result (λ r. GoesOn 0x06 r.1 bytes.entry) }
{
    match take_tagged(bytes, tag::LINKED_ID) {
        (None, rest) => Some((None, rest)),
        (Some(content), rest) => {
            let id = identifier(content)?;
            Some((Some(id), rest))
        }
    }
}

/// 06 object identifier, and what follows it.
fn take_global<'a>(bytes: &'a [u8]) -> Option<(Code<'a>, &'a [u8])>
    ensures value { option_map (λ r. (code_parts r.0, r.1.now)) result
        ≡ bound (content_at 0x06 bytes.now) global_from }
    ensures place { IfSome result (λ r. CodeOnWay [] r.0 bytes.entry × AtEnd r.1 bytes.entry) }
{
    let (octets, rest) = take_content(bytes, tag::OBJECT_IDENTIFIER)?;
    if !is_oid(octets) {
        return None;
    }
    Some((Code::Global(octets), rest))
}

/// `take_code` of a code in any form. Most are local and have one octet, so it stands apart.
#[tactic(auto, unfolding(crate::specs::ComponentReading::code_at))]
#[inline(never)]
fn take_any_code<'a>(bytes: &'a [u8]) -> Option<(Code<'a>, &'a [u8])>
    ensures value { option_map (λ r. (code_parts r.0, r.1.now)) result ≡ code_at bytes.now }
    ensures place { IfSome result (λ r. CodeOnWay [] r.0 bytes.entry × AtEnd r.1 bytes.entry) }
{
    if let (Some(content), rest) = take_tagged(bytes, tag::INTEGER) {
        let number = read_int(content)?;
        return Some((Code::Local(number), rest));
    }
    take_global(bytes)
}

/// A code: 02 integer or 06 object identifier, and what follows it.
#[tactic(auto, unfolding(crate::specs::ComponentReading::code_at, ber_core::specs::Integer::integer_at, ber_core::specs::Integer::signed_after))]
#[inline(always)]
fn take_code<'a>(bytes: &'a [u8]) -> Option<(Code<'a>, &'a [u8])>
    ensures value { option_map (λ r. (code_parts r.0, r.1.now)) result ≡ code_at bytes.now }
    ensures place { IfSome result (λ r. CodeOnWay [] r.0 bytes.entry × AtEnd r.1 bytes.entry) }
{
    if let Some((octet, rest)) = take_octet(bytes) {
        return Some((Code::Local(i32::from(octet.cast_signed())), rest));
    }
    take_any_code(bytes)
}

/// Code, [parameter].
#[tactic(auto, unfolding(crate::specs::ComponentReading::body_at))]
#[inline(always)]
pub(crate) fn read_body<'a>(bytes: &'a [u8]) -> Option<Body<'a>>
    ensures value { option_map body_parts result ≡ body_at bytes.now }
    ensures place { IfSome result (λ b. CodedOnWay [] b.code b.parameter bytes.entry) }
{
    let (code, rest) = take_code(bytes)?;
    let (parameter, rest) = take_any(rest);
    if !rest.is_empty() {
        return None;
    }
    Some(Body { code, parameter })
}

/// An Invoke: 02 identifier, [80 linked identifier], code, [parameter].
#[tactic(auto, unfolding(crate::specs::ComponentReading::invoke_at))]
#[inline(always)]
pub(crate) fn read_invoke_fields<'a>(bytes: &'a [u8]) -> Option<(i8, Option<i8>, Body<'a>)>
    ensures value { option_map (λ r. invoke r.0 r.1 (code_parts r.2.code) (option_copied r.2.parameter)) result
        ≡ invoke_at bytes.now }
    ensures place { IfSome result (λ r. CodedOnWay [] r.2.code r.2.parameter bytes.entry) }
{
    let (id, rest) = take_identifier(bytes)?;
    let (linked, rest) = take_linked(rest)?;
    let body = read_body(rest)?;
    Some((id, linked, body))
}

/// A result: 02 identifier, [30 { code, [parameter] }].
// One without a body is three octets: it is read in place, which saves 55 instructions, and the others by a call, where
// `take_octet` looks at the identifier again.
#[tactic(auto, unfolding(crate::specs::ComponentReading::result_at, crate::specs::ComponentReading::identifier_at, crate::specs::ComponentReading::identifier_of))]
#[inline(always)]
pub(crate) fn read_result<'a>(bytes: &'a [u8]) -> Option<(i8, Option<Body<'a>>)>
    ensures value { option_map (λ r. (r.0, option_map body_parts r.1)) result ≡ result_at bytes.now }
    ensures place { IfSome result (λ r. BodyOnWay (0x30 ∷ []) r.1 bytes.entry) }
{
    if let Some((octet, [])) = take_octet(bytes) {
        return Some((octet.cast_signed(), None));
    }
    read_any_result(bytes)
}

/// `read_result`, of any result.
#[tactic(auto, unfolding(crate::specs::ComponentReading::result_at))]
#[inline(never)]
fn read_any_result<'a>(bytes: &'a [u8]) -> Option<(i8, Option<Body<'a>>)>
    ensures value { option_map (λ r. (r.0, option_map body_parts r.1)) result ≡ result_at bytes.now }
    ensures place { IfSome result (λ r. BodyOnWay (0x30 ∷ []) r.1 bytes.entry) }
{
    let (id, rest) = take_identifier(bytes)?;
    let (inner, rest) = take_tagged(rest, tag::SEQUENCE);
    let body = match inner {
        Some(inner) => Some(read_body(inner)?),
        None => None,
    };
    if !rest.is_empty() {
        return None;
    }
    Some((id, body))
}

/// Reads the first component, where it is a Return Result Last whose length is one octet below 128: its identifier, its
/// operation code with the parameter, and what follows it, as `read_component` reads them. Nothing where it is another,
/// or where it can't be read: `read_component` says what stands there. Q.773, component portion.
// Most components are short results and Invokes. The tag then says the form, and contents that are read whole are a
// list of elements: nothing is left to be judged. A caller asks for these two first, and takes the others by
// `read_component`, a call: where that was inlined, places for all that it answers were cleared for each component, 22
// to 62 instructions a step.
#[inline(always)]
pub fn read_short_result<'a>(bytes: &'a [u8]) -> Option<(i8, Option<Body<'a>>, &'a [u8])>
    // Exactly where the tag and such a length stand first, the content is whole, and a component is read.
    ensures found { IsTrue (is_some result) ↔ ((get_or bytes.now 0 0 ≡ 0xa2) × (get_or bytes.now 1 0 < 0x80)
        × (2 + get_or bytes.now 1 0 ≤ length bytes.now) × IsOk (component_at bytes.now)) }
    // What is read is the first component, and what follows it.
    ensures exact { IfSome result (λ r. component_at bytes.now
        ≡ Ok (component_parts (component.ResultLast r.0 r.1), r.2.now)) }
    ensures writable { IfSome result (λ r. HasParts (component_parts (component.ResultLast r.0 r.1))
        × InRange (component_parts (component.ResultLast r.0 r.1))) }
    ensures place { IfSome result (λ r. ComponentInPlace (component.ResultLast r.0 r.1) bytes.entry
        × AtEnd r.2 bytes.entry) }
{
    let (content, rest) = take_short(bytes, tag::RETURN_RESULT_LAST)?;
    let (id, body) = read_result(content)?;
    Some((id, body, rest))
}

/// `read_short_result`, of an Invoke: its identifier, the one it is linked to, its operation code with the parameter,
/// and what follows it. Q.773, component portion.
#[inline(always)]
pub fn read_short_invoke<'a>(bytes: &'a [u8]) -> Option<(i8, Option<i8>, Body<'a>, &'a [u8])>
    // Exactly where the tag and such a length stand first, the content is whole, and a component is read.
    ensures found { IsTrue (is_some result) ↔ ((get_or bytes.now 0 0 ≡ 0xa1) × (get_or bytes.now 1 0 < 0x80)
        × (2 + get_or bytes.now 1 0 ≤ length bytes.now) × IsOk (component_at bytes.now)) }
    // What is read is the first component, and what follows it.
    ensures exact { IfSome result (λ r. component_at bytes.now
        ≡ Ok (component_parts (component.Invoke r.0 r.1 r.2.code r.2.parameter), r.3.now)) }
    ensures writable { IfSome result (λ r. HasParts (component_parts (component.Invoke r.0 r.1 r.2.code r.2.parameter))
        × InRange (component_parts (component.Invoke r.0 r.1 r.2.code r.2.parameter))) }
    ensures place { IfSome result (λ r. ComponentInPlace (component.Invoke r.0 r.1 r.2.code r.2.parameter) bytes.entry
        × AtEnd r.3 bytes.entry) }
{
    let (content, rest) = take_short(bytes, tag::INVOKE)?;
    let (id, linked, body) = read_invoke_fields(content)?;
    Some((id, linked, body, rest))
}

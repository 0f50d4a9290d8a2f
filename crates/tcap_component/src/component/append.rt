//! Components appended in the canonical form to a vector that has room for them: no octet is reserved or
//! copied on the way.

ghost use Rattle.std.specs.Prelude.{◌≡◌, ◌+◌, ◌≤◌, ◌++◌, [], ◌∷◌, length, vec_len, vec_capacity};
ghost use Rattle.std.specs.Option.{option_map};
ghost use Rattle.ber_core.specs.Length.{length_limit};
ghost use Rattle.ber_core.specs.Sequence.Field.{must, may};
ghost use Rattle.ber_core.specs.Written.{written, written_field, written_fields};
ghost use Rattle.tcap_component.specs.Problem.{problem_tag};
ghost use Rattle.tcap_component.specs.Component.{identifier, rejected_field, body_fields};
ghost use Rattle.tcap_component.specs.Views.{code_parts, body_parts, problem_parts, component_parts};
ghost use Rattle.tcap_component.specs.Written.{written_body, written_contents, written_component, coded_part, CanCode, HasCode, CanWriteComponent};

use crate::component::length::{body_len, contents_len};
use crate::component::reject::tag_of;
use crate::component::write::tag_of_component;
use crate::component::{Body, Code, Component};
use crate::problem::Problem;
use crate::tag;
use ber_core::{put_element, put_head, put_int, put_octet};
use std::alloc::Allocator;

/// Appends a global code.
#[inline(never)]
fn put_global<A: Allocator + Copy>(out: &mut Vec<u8, A>, octets: &[u8])
    requires short { length octets.now ≤ length_limit }
    requires room { vec_len out.old + length (written (0x06 ∷ []) octets.now) ≤ vec_capacity out.old }
    ensures items { out.new.items ≡ out.old.items ++ written (0x06 ∷ []) octets.now }
    ensures capacity { vec_capacity out.old ≤ vec_capacity out.new }
{
    put_element(out, tag::OBJECT_IDENTIFIER, octets);
}

/// Appends code, [parameter].
#[inline(always)]
fn put_body<A: Allocator + Copy>(out: &mut Vec<u8, A>, body: &Body<'_>)
    requires can { CanCode (code_parts body.now.code) }
    requires room { vec_len out.old + length (written_fields (body_fields (body_parts body.now)))
        ≤ vec_capacity out.old }
    ensures items { out.new.items ≡ out.old.items ++ written_fields (body_fields (body_parts body.now)) }
    ensures capacity { vec_capacity out.old ≤ vec_capacity out.new }
{
    match body.code {
        Code::Local(number) => put_int(out, tag::INTEGER, number),
        Code::Global(octets) => put_global(out, octets),
    }
    if let Some(octets) = body.parameter {
        out.extend_from_slice(octets).unwrap();
    }
}

/// Appends 02 identifier, [30 { code, [parameter] }].
#[inline(always)]
fn put_result<A: Allocator + Copy>(out: &mut Vec<u8, A>, id: i8, body: Option<Body<'_>>)
    requires code { HasCode (option_map body_parts body) }
    requires short { length (written_field (may 0x30 (written_body (option_map body_parts body)))) ≤ length_limit }
    requires room { vec_len out.old + length (written_fields (must 0x02 (identifier id)
        ∷ may 0x30 (written_body (option_map body_parts body)) ∷ [])) ≤ vec_capacity out.old }
    ensures items { out.new.items ≡ out.old.items ++ written_fields (must 0x02 (identifier id)
        ∷ may 0x30 (written_body (option_map body_parts body.entry)) ∷ []) }
    ensures capacity { vec_capacity out.old ≤ vec_capacity out.new }
{
    put_octet(out, tag::INTEGER, id.cast_unsigned());
    if let Some(body) = body {
        put_head(out, tag::SEQUENCE, body_len(&body));
        put_body(out, &body);
    }
}

/// Appends a Reject's identifier, or 05 00, and its problem.
fn put_reject<A: Allocator + Copy>(out: &mut Vec<u8, A>, id: Option<i8>, problem: Problem)
    requires { vec_len out.old + length (written_fields (rejected_field id
        ∷ must (problem_tag (problem_parts problem).kind) ((problem_parts problem).code ∷ []) ∷ []))
        ≤ vec_capacity out.old }
    ensures items { out.new.items ≡ out.old.items ++ written_fields (rejected_field id
        ∷ must (problem_tag (problem_parts problem).kind) ((problem_parts problem).code ∷ []) ∷ []) }
    ensures capacity { vec_capacity out.old ≤ vec_capacity out.new }
{
    match id {
        Some(id) => put_octet(out, tag::INTEGER, id.cast_unsigned()),
        None => put_head(out, tag::NULL, 0),
    }
    put_octet(out, tag_of(problem.kind()), problem.code());
}

/// Appends the contents of a component.
#[inline(always)]
fn put_contents<A: Allocator + Copy>(out: &mut Vec<u8, A>, component: &Component<'_>)
    requires code { HasCode (coded_part (component_parts component.now)) }
    requires short { length (written_contents (component_parts component.now)) ≤ length_limit }
    requires room { vec_len out.old + length (written_contents (component_parts component.now))
        ≤ vec_capacity out.old }
    ensures items { out.new.items ≡ out.old.items ++ written_contents (component_parts component.now) }
    ensures capacity { vec_capacity out.old ≤ vec_capacity out.new }
{
    match *component {
        Component::Invoke {
            id,
            linked,
            code,
            parameter,
        } => {
            put_octet(out, tag::INTEGER, id.cast_unsigned());
            if let Some(linked) = linked {
                put_octet(out, tag::LINKED_ID, linked.cast_unsigned());
            }
            put_body(out, &Body { code, parameter });
        }
        Component::ResultLast { id, body } => put_result(out, id, body),
        Component::ErrorBack {
            id,
            code,
            parameter,
        } => {
            put_octet(out, tag::INTEGER, id.cast_unsigned());
            put_body(out, &Body { code, parameter });
        }
        Component::RejectBack { id, problem } => put_reject(out, id, problem),
        Component::ResultMore { id, body } => put_result(out, id, body),
    }
}

/// Appends a component that can be written, and whose contents have this length.
#[inline(always)]
pub(crate) fn put_component<A: Allocator + Copy>(
    out: &mut Vec<u8, A>,
    component: &Component<'_>,
    contents: usize,
)
    requires can { CanWriteComponent (component_parts component.now) }
    requires contents { contents ≡ length (written_contents (component_parts component.now)) }
    requires within { contents ≤ length_limit }
    requires room { vec_len out.old + length (written_component (component_parts component.now))
        ≤ vec_capacity out.old }
    ensures items { out.new.items ≡ out.old.items ++ written_component (component_parts component.now) }
    ensures capacity { vec_capacity out.old ≤ vec_capacity out.new }
{
    put_head(out, tag_of_component(component), contents);
    put_contents(out, component);
}

/// Appends a component in the canonical form, as `write_component` writes it. It can be written, as
/// `judge_component` tells, and there is room for it: no memory is taken.
///
/// ```rust
/// let result = Component::ResultLast { id: 5, body: None };
/// let mut out = Vec::with_capacity(alloc, tcap_component::judge_component(&result)?)?;
/// tcap_component::append_component(&mut out, &result);
/// assert_eq!(rt; out.as_slice(), [0xa2, 0x03, 0x02, 0x01, 0x05].as_slice());
/// ```
#[inline(always)]
pub fn append_component<A: Allocator + Copy>(out: &mut Vec<u8, A>, component: &Component<'_>)
    requires can { CanWriteComponent (component_parts component.now) }
    requires room { vec_len out.old + length (written_component (component_parts component.now))
        ≤ vec_capacity out.old }
    ensures items { out.new.items ≡ out.old.items ++ written_component (component_parts component.now) }
    ensures capacity { vec_capacity out.old ≤ vec_capacity out.new }
{
    put_component(out, component, contents_len(component));
}

//! Components read, each by its line of the table in Q.773, and the faults.

ghost use Rattle.std.specs.Prelude.{◌≡◌, List, ℕ, [], ◌++◌, IfSome, IfOk, IfErr, IsOkAnd, if◌then◌else◌};
ghost use Rattle.std.specs.Option.{option_map};
ghost use Rattle.ber_core.specs.Results.{Gives};
ghost use Rattle.ber_core.specs.Place.{AtEnd};
ghost use Rattle.ber_core.specs.Tag.{is_constructor};
ghost use Rattle.ber_core.specs.Views.{parts};
ghost use Rattle.tcap_component.specs.Place.{FieldsOnWay, ComponentInPlace};
ghost use Rattle.tcap_component.specs.Problem.{IsProblem, general_problem};
ghost use Rattle.tcap_component.specs.Component.{ComponentParts, InRange, SpellsComponent};
ghost use Rattle.tcap_component.specs.ComponentFault.{fault, IsComponentFault};
ghost use Rattle.tcap_component.specs.ComponentReading.{invoke_at, result_last_at, error_at, reject_at, result_more_at, contents_at, form_at, second_is_listed, is_structured, verdict_by, front_identifier, component_at};
ghost use Rattle.tcap_component.specs.Written.{HasParts};
ghost use Rattle.tcap_component.specs.Views.{Reads, fault_parts, component_parts};

use crate::component::parts::{
    identifier, read_body, read_invoke_fields, read_result, take_identifier,
};
use crate::component::reject::{read_problem, take_rejected};
use crate::component::{Body, Component, Form};
use crate::fault::ComponentFault;
use crate::problem::Problem;
use crate::problem::general_problem::{
    BADLY_STRUCTURED_COMPONENT, MISTYPED_COMPONENT, UNRECOGNIZED_COMPONENT,
};
use crate::tag;
use ber_core::{Element, is_element_list, read_element, take_any, take_tagged};

/// Invoke: 02 identifier, [80 linked identifier], code, [parameter].
// A call of its own, so that `split_component` is small enough for the toolchain to inline.
#[tactic(auto, unfolding(crate::specs::ComponentReading::invoke_at))]
#[inline(never)]
fn read_invoke<'a>(content: &'a [u8]) -> Option<Component<'a>>
    ensures value { option_map component_parts result ≡ invoke_at content.now }
    ensures place { IfSome result (λ c. FieldsOnWay [] c content.entry) }
{
    let (id, linked, body) = read_invoke_fields(content)?;
    let Body { code, parameter } = body;
    Some(Component::Invoke {
        id,
        linked,
        code,
        parameter,
    })
}

/// Return Result Last: 02 identifier, [30 { code, [parameter] }].
#[tactic(auto, unfolding(crate::specs::ComponentReading::result_last_at))]
fn read_result_last<'a>(content: &'a [u8]) -> Option<Component<'a>>
    ensures value { option_map component_parts result ≡ result_last_at content.now }
    ensures place { IfSome result (λ c. FieldsOnWay [] c content.entry) }
{
    let (id, body) = read_result(content)?;
    Some(Component::ResultLast { id, body })
}

/// Return Error: 02 identifier, code, [parameter].
#[tactic(auto, unfolding(crate::specs::ComponentReading::error_at))]
fn read_error<'a>(content: &'a [u8]) -> Option<Component<'a>>
    ensures value { option_map component_parts result ≡ error_at content.now }
    ensures place { IfSome result (λ c. FieldsOnWay [] c content.entry) }
{
    let (id, rest) = take_identifier(content)?;
    let Body { code, parameter } = read_body(rest)?;
    Some(Component::ErrorBack {
        id,
        code,
        parameter,
    })
}

/// Reject: 02 identifier or 05 00, then the problem.
#[tactic(auto, unfolding(crate::specs::ComponentReading::reject_at))]
fn read_reject<'a>(content: &'a [u8]) -> Option<Component<'a>>
    ensures value { option_map component_parts result ≡ reject_at content.now }
    ensures place { IfSome result (λ c. FieldsOnWay [] c content.entry) }
{
    let (id, rest) = take_rejected(content)?;
    let problem = read_problem(rest)?;
    Some(Component::RejectBack { id, problem })
}

/// Return Result Not Last: 02 identifier, [30 { code, [parameter] }].
#[tactic(auto, unfolding(crate::specs::ComponentReading::result_more_at))]
fn read_result_more<'a>(content: &'a [u8]) -> Option<Component<'a>>
    ensures value { option_map component_parts result ≡ result_more_at content.now }
    ensures place { IfSome result (λ c. FieldsOnWay [] c content.entry) }
{
    let (id, body) = read_result(content)?;
    Some(Component::ResultMore { id, body })
}

/// The component that the contents are, by its form.
#[inline(always)]
pub(crate) fn read_contents<'a>(form: Form, content: &'a [u8]) -> Option<Component<'a>>
    ensures value { option_map component_parts result ≡ contents_at form content.now }
    ensures place { IfSome result (λ c. FieldsOnWay [] c content.entry) }
{
    match form {
        Form::Invoke => read_invoke(content),
        Form::ResultLast => read_result_last(content),
        Form::ErrorBack => read_error(content),
        Form::RejectBack => read_reject(content),
        Form::ResultMore => read_result_more(content),
    }
}

/// The form that a tag names.
#[tactic(auto, unfolding(crate::specs::ComponentReading::form_at))]
#[inline(always)]
pub(crate) fn form_of(octets: &[u8]) -> Option<Form>
    ensures { result ≡ form_at octets.now }
{
    match octets {
        [tag::INVOKE] => Some(Form::Invoke),
        [tag::RETURN_RESULT_LAST] => Some(Form::ResultLast),
        [tag::RETURN_ERROR] => Some(Form::ErrorBack),
        [tag::REJECT] => Some(Form::RejectBack),
        [tag::RETURN_RESULT_NOT_LAST] => Some(Form::ResultMore),
        _ => None,
    }
}

/// Whether a 30 that stands second holds a list of elements, whatever stands first.
#[tactic(auto, unfolding(crate::specs::ComponentReading::second_is_listed))]
fn second_listed(content: &[u8]) -> bool
    ensures { result ≡ second_is_listed content.now }
{
    let (_, rest) = take_any(content);
    match take_tagged(rest, tag::SEQUENCE) {
        (Some(inner), _) => is_element_list(inner),
        (None, _) => true,
    }
}

/// Whether the contents are a list of elements, and so those of a 30 that stands second in a result.
#[tactic(auto, unfolding(crate::specs::ComponentReading::is_structured))]
#[inline(always)]
fn structured(form: Form, content: &[u8]) -> bool
    ensures { result ≡ is_structured form content.now }
{
    if !is_element_list(content) {
        return false;
    }
    match form {
        Form::ResultLast | Form::ResultMore => second_listed(content),
        Form::Invoke | Form::ErrorBack | Form::RejectBack => true,
    }
}

/// The code of the general problem of contents that no component of this form has.
#[inline(never)]
fn code_of_unread(form: Form, content: &[u8]) -> u8
    ensures { result ≡ (if is_structured form content.now then 1 else 2) }
{
    if structured(form, content) {
        MISTYPED_COMPONENT
    } else {
        BADLY_STRUCTURED_COMPONENT
    }
}

/// The component that an element is, or the code of the general problem. What is read whole is a list of
/// elements, so only what is not is looked through for that.
#[inline(always)]
fn judge<'a>(octets: &[u8], content: &'a [u8]) -> Result<Component<'a>, u8>
    ensures value { Gives component_parts result (verdict_by (form_at octets.now) content.now) }
    ensures place { IfOk result (λ c. FieldsOnWay [] c content.entry) }
    ensures within { IfErr result (λ code. IsProblem (general_problem code)) }
{
    let Some(form) = form_of(octets) else {
        return Err(UNRECOGNIZED_COMPONENT);
    };
    match read_contents(form, content) {
        Some(component) => Ok(component),
        None => Err(code_of_unread(form, content)),
    }
}

/// The identifier that a constructed element begins with.
#[tactic(auto, unfolding(crate::specs::ComponentReading::front_identifier))]
fn front_id(element: &Element<'_>) -> Option<i8>
    requires { element.now.constructed ≡ is_constructor element.now.tag.now }
    ensures { result ≡ front_identifier (parts element.now) }
{
    if !element.constructed {
        return None;
    }
    match take_tagged(element.content, tag::INTEGER) {
        (Some(content), _) => identifier(content),
        (None, _) => None,
    }
}

/// The fault of a component with these octets.
fn general_fault(code: u8, id: Option<i8>, octets: &[u8]) -> ComponentFault
    requires { IsProblem (general_problem code) }
    ensures { fault_parts result ≡ fault code id octets.now }
{
    ComponentFault {
        problem: Problem::general(code),
        id,
        was_reject: matches!(octets, [tag::REJECT, ..]),
    }
}

/// The first component and what follows it, in exact form.
// Inlined into a walk over components, which meets all forms: a monitor takes 5 to 8 % more where it asks first whether
// one is a short result or Invoke, or calls this.
#[tactic(auto, unfolding(crate::specs::ComponentReading::component_at))]
#[inline(always)]
pub(crate) fn split_component<'a>(
    bytes: &'a [u8],
) -> Result<(Component<'a>, &'a [u8]), ComponentFault>
    ensures value { Reads (λ r. (component_parts r.0, r.1.now)) result (component_at bytes.now) }
    ensures place { IfOk result (λ r. ComponentInPlace r.0 bytes.entry × AtEnd r.1 bytes.entry) }
{
    let Ok((element, rest)) = read_element(bytes) else {
        return Err(general_fault(BADLY_STRUCTURED_COMPONENT, None, bytes));
    };
    match judge(element.tag, element.content) {
        Ok(component) => Ok((component, rest)),
        Err(code) => Err(general_fault(code, front_id(&element), bytes)),
    }
}

/// Reads the first component, and gives what follows it. A component that can't be read has the
/// first of four faults: its element can't be read, its tag isn't a component's, its contents aren't a
/// list of elements, they aren't the listed sequence.
#[inline(never)]
pub fn read_component<'a>(bytes: &'a [u8]) -> Result<(Component<'a>, &'a [u8]), ComponentFault>
    // What is read is spelled by the bytes before the rest.
    ensures found { IfOk result (λ r. (whole : List ℕ) × SpellsComponent (component_parts r.0) whole
        × (bytes.now ≡ whole ++ r.1.now)) }
    // Its code and its parameter can be written, and its numbers are such as a component has.
    ensures writable { IfOk result (λ r. HasParts (component_parts r.0) × InRange (component_parts r.0)) }
    // Its slices are parts of the bytes, at their places, and so is what follows it.
    ensures place { IfOk result (λ r. ComponentInPlace r.0 bytes.entry × AtEnd r.1 bytes.entry) }
    // Each component is read.
    ensures only { (c : ComponentParts) (whole rest : List ℕ)
        → SpellsComponent c whole → bytes.now ≡ whole ++ rest →
        IsOkAnd result (λ r. (component_parts r.0 ≡ c) × (r.1.now ≡ rest)) }
    // Which fault, the first case that holds.
    ensures fault { IfErr result (λ f. IsComponentFault bytes.now (fault_parts f)) }
    // The same, computed: what the layers above cite.
    ensures exact { Reads (λ r. (component_parts r.0, r.1.now)) result (component_at bytes.now) }
{
    split_component(bytes)
}

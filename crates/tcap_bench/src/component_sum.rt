//! The checksum of components.

ghost use Rattle.std.specs.Prelude.{◌≡◌, option_copied};
ghost use Rattle.std.specs.Option.{option_map};
ghost use Rattle.tcap_component.specs.Views.{code_parts, body_parts, component_parts, item_view};
ghost use Rattle.tcap_bench.specs.Checksum.{checksum, code_number, id_numbers, parameter_numbers, body_numbers, component_numbers, item_numbers, components_numbers};

use crate::sum::add;
use tcap_component::{Body, Code, Component, ComponentFault, Components};

/// The number of a code.
fn code_number(code: &Code<'_>) -> u64
    ensures { result ≡ code_number (code_parts code.now) }
{
    match code {
        Code::Local(number) => number.cast_unsigned() as u64,
        Code::Global(octets) => octets.len() as u64,
    }
}

/// Adds an identifier, if it is there.
fn add_id(total: u64, id: Option<i8>) -> u64
    ensures { result ≡ checksum total (id_numbers id) }
{
    match id {
        Some(id) => add(total, id.cast_unsigned() as u64),
        None => total,
    }
}

/// Adds the length of a parameter, if it is there.
fn add_parameter(total: u64, parameter: Option<&[u8]>) -> u64
    ensures { result ≡ checksum total (parameter_numbers (option_copied parameter.entry)) }
{
    match parameter {
        Some(octets) => add(total, octets.len() as u64),
        None => total,
    }
}

/// Adds what a result holds.
fn add_body(total: u64, body: Option<Body<'_>>) -> u64
    ensures { result ≡ checksum total (body_numbers (option_map body_parts body.entry)) }
{
    match body {
        Some(body) => add_parameter(add(total, code_number(&body.code)), body.parameter),
        None => total,
    }
}

/// Adds a component.
fn add_component(total: u64, component: &Component<'_>) -> u64
    ensures { result ≡ checksum total (component_numbers (component_parts component.now)) }
{
    match *component {
        Component::Invoke {
            id,
            linked,
            code,
            parameter,
        } => {
            let total = add_id(add(total, id.cast_unsigned() as u64), linked);
            add_parameter(add(total, code_number(&code)), parameter)
        }
        Component::ResultLast { id, body } => add_body(add(total, id.cast_unsigned() as u64), body),
        Component::ErrorBack {
            id,
            code,
            parameter,
        } => {
            let total = add(total, id.cast_unsigned() as u64);
            add_parameter(add(total, code_number(&code)), parameter)
        }
        Component::RejectBack { id, problem } => add_id(add(total, problem.code() as u64), id),
        Component::ResultMore { id, body } => add_body(add(total, id.cast_unsigned() as u64), body),
    }
}

/// Adds a component that was read, of a fault nothing.
fn add_item(total: u64, item: &Result<Component<'_>, ComponentFault>) -> u64
    ensures { result ≡ checksum total (item_numbers (item_view item.now)) }
{
    match item {
        Ok(component) => add_component(total, component),
        Err(_) => total,
    }
}

/// Adds the components of a component portion.
#[tactic(auto, using(crate::proofs::Sums::checksum_append))]
pub(crate) fn add_components(total: u64, content: &[u8]) -> u64
    ensures { result ≡ checksum total (components_numbers content.now) }
{
    let mut sum = total;
    for item in Components::new(content) {
        sum = add_item(sum, &item);
    }
    sum
}

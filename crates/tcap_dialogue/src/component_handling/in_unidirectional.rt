//! One component of a Unidirectional: no invocation is Sent there, and no Reject goes out.

ghost use Rattle.std.specs.Prelude.{◌≡◌, ◌+◌, ◌≤◌, ◌<◌, length, None, Ok, option_copied};
ghost use Rattle.tcap_component.specs.Views.{code_parts, component_parts, problem_parts};
ghost use Rattle.tcap_component.specs.declared.component.Component.TheVariants as component;
ghost use Rattle.tcap_dialogue.specs.FirstComponent.{IsFirstTold};
ghost use Rattle.tcap_primitives.specs.IndicationViews.{code_octets, component_octets, indicated, indicated_octets, indicated_slices, optional_octets};
ghost use Rattle.tcap_primitives.specs.Slices.{Slices, AreOf};
ghost use Rattle.tcap_model.specs.Procedures.ComponentHandling.{handled, invoke_handled, rejecting, remote};

use super::in_dialogue::Left;
use super::remote_rejector;
use std::alloc::Allocator;
use tcap_component::{Code, Component, Problem, read_component};
use tcap_primitives::{Indication, Sink, SinkKind};

/// A component that answers nothing, is linked to nothing or can't be read.
fn rejected<'m>(id: Option<i8>, problem: Problem) -> Indication<'m>
    ensures told { indicated result ≡ (rejecting None id (problem_parts problem)).told }
    ensures slices { indicated_slices result ≡ Slices.none }
    ensures octets { indicated_octets result ≡ 0 }
{
    Indication::LocalReject {
        dialogue: None,
        id,
        problem,
    }
}

/// A Reject, which closes nothing.
fn unidirectional_reject<'m>(id: Option<i8>, problem: Problem) -> Indication<'m>
    ensures told { indicated result ≡ (remote None id (problem_parts problem)).told }
    ensures slices { indicated_slices result ≡ Slices.none }
    ensures octets { indicated_octets result ≡ 0 }
{
    Indication::RemoteReject {
        dialogue: None,
        id,
        problem,
        by: remote_rejector(problem),
    }
}

/// An Invoke.
fn unidirectional_invoke<'m>(
    id: i8,
    linked: Option<i8>,
    code: Code<'m>,
    parameter: Option<&'m [u8]>,
) -> Indication<'m>
    ensures told { indicated result
        ≡ (invoke_handled None None id linked (code_parts code.entry) (option_copied parameter.entry)).told }
    ensures slices { AreOf (component.Invoke id linked code.entry parameter.entry) (indicated_slices result) }
    ensures octets { indicated_octets result ≤ code_octets code.entry + optional_octets parameter.entry }
{
    match linked {
        None => Indication::Invoked {
            dialogue: None,
            id,
            linked: None,
            code,
            parameter,
        },
        Some(_) => rejected(Some(id), Problem::unrecognized_linked_id()),
    }
}

/// A component that was read.
fn unidirectional_component<'m>(component: Component<'m>) -> Indication<'m>
    ensures told { indicated result ≡ (handled None None (Ok (component_parts component.entry))).told }
    ensures slices { AreOf component.entry (indicated_slices result) }
    ensures octets { indicated_octets result ≤ component_octets component.entry }
{
    match component {
        Component::Invoke {
            id,
            linked,
            code,
            parameter,
        } => unidirectional_invoke(id, linked, code, parameter),
        Component::ResultLast { id, .. } | Component::ResultMore { id, .. } => {
            rejected(Some(id), Problem::unrecognized_result())
        }
        Component::ErrorBack { id, .. } => rejected(Some(id), Problem::unrecognized_error()),
        Component::RejectBack { id, problem } => unidirectional_reject(id, problem),
    }
}

/// The first component of what is left is told; there is room for it. Behind a faulty one nothing is left
/// (Q.774, Unstructured dialogue).
pub(crate) fn tell_first<'m, A: Allocator + Copy, K: SinkKind>(
    left: &mut Left<'m>,
    sink: &mut Sink<'m, A, K>,
)
    requires room { 1 ≤ sink.old.places }
    requires octets { length left.old.octets.now ≤ sink.old.octets }
    requires left { 0 < length left.old.octets.now }
    ensures { IsFirstTold left.old.octets left.new.octets sink.old sink.new }
{
    match read_component(left.octets) {
        Ok((component, rest)) => {
            left.octets = rest;
            sink.tell(unidirectional_component(component));
        }
        Err(fault) => {
            left.octets = &left.octets[left.octets.len()..];
            sink.tell(rejected(fault.id, fault.problem));
        }
    }
}

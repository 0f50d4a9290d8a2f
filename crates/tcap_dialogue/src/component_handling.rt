//! What one received component comes to: what is told, and the Reject that answers it.

// Hints to inline have the reason that in_dialogue.rt gives.

ghost use Rattle.std.specs.Prelude.{◌≡◌, ◌≤◌, Some};
ghost use Rattle.tcap_component.specs.Views.{problem_parts};
ghost use Rattle.tcap_dialogue.specs.HandledViews.{IsHandled, AreNone};
ghost use Rattle.tcap_primitives.specs.OutputViews.{rejector};
ghost use Rattle.tcap_dialogue.specs.Verdicts.{unexpected as unexpected_told};
ghost use Rattle.tcap_model.specs.Procedures.ComponentHandling.{rejecting as rejecting_told};
ghost use Rattle.tcap_model.specs.Procedures.Problems.{remote_rejector};

pub mod component_portion;
pub mod failures;
pub mod in_dialogue;
pub mod in_unidirectional;

use std::alloc::Allocator;
use tcap_component::Problem;
use tcap_primitives::{By, Indication, Sink, SinkKind};

/// A Reject that answers a component (Q.773, Reject component).
#[derive(Clone, Copy)]
pub struct Reject {
    /// The invoke identifier, where it could be read.
    pub id: Option<i8>,
    /// Why the component is rejected.
    pub problem: Problem,
}

/// Who rejects, by the problem.
fn remote_rejector(problem: Problem) -> By
    ensures { rejector result ≡ remote_rejector (problem_parts problem) }
{
    if problem.by_provider() {
        By::RemoteProvider
    } else {
        By::RemoteUser
    }
}

/// An answer that closes an invocation and is rejected here.
#[inline(never)]
fn unexpected<'m, A: Allocator + Copy, K: SinkKind>(
    dialogue: u32,
    number: u64,
    id: i8,
    problem: Problem,
    sink: &mut Sink<'m, A, K>,
) -> Option<Reject>
    requires room { 1 ≤ sink.old.places }
    ensures handled { IsHandled sink.old sink.new result AreNone 0
        (unexpected_told dialogue number id (problem_parts problem)) }
{
    sink.tell(Indication::Rejected {
        dialogue,
        number,
        id,
        problem,
        by: By::Local,
    });
    Some(Reject {
        id: Some(id),
        problem,
    })
}

/// A component that is rejected here and closes nothing.
#[inline(never)]
fn rejecting<'m, A: Allocator + Copy, K: SinkKind>(
    dialogue: u32,
    id: i8,
    problem: Problem,
    sink: &mut Sink<'m, A, K>,
) -> Option<Reject>
    requires room { 1 ≤ sink.old.places }
    ensures handled { IsHandled sink.old sink.new result AreNone 0
        (rejecting_told (Some dialogue) (Some id) (problem_parts problem)) }
{
    sink.tell(Indication::LocalReject {
        dialogue: Some(dialogue),
        id: Some(id),
        problem,
    });
    Some(Reject {
        id: Some(id),
        problem,
    })
}

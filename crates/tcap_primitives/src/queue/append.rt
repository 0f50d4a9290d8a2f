//! What is put into the queue.

ghost use Rattle.std.specs.Prelude.{◌≡◌, ◌+◌, ◌≤◌, ◌<◌, ◌++◌, ◌∷◌, [], None, length, vec_len, vec_capacity};
ghost use Rattle.std.specs.Option.{option_map};
ghost use Rattle.tcap_component.specs.Component.ComponentParts.{reject_back};
ghost use Rattle.tcap_component.specs.Views.{problem_parts, component_parts};
ghost use Rattle.tcap_component.specs.Written.{CanWriteComponent, written_component};
ghost use Rattle.tcap_primitives.specs.QueueViews.{invoking_view, queue_view};
ghost use Rattle.tcap_model.specs.Procedures.QueueRules.{queue_limit, queued, queue_if_fits};

use super::{Invoking, MAX_QUEUE, Part, Queue};
use std::alloc::Allocator;
use tcap_component::{Component, Problem, append_component, reject_octets};

impl<A: Allocator + Copy> Queue<A> {
    /// Appends a component, for which there is room.
    pub fn append(&mut self, octets: &[u8], invoking: Option<Invoking>)
        requires octets { vec_len self.old.octets + length octets.now ≤ vec_capacity self.old.octets }
        requires part { vec_len self.old.parts < vec_capacity self.old.parts }
        ensures queue { queue_view self.new ≡ queue_view self.old
            ++ (record { octets = octets.now; invoking = option_map invoking_view invoking }) ∷ [] }
        ensures octets_room { vec_capacity self.old.octets ≤ vec_capacity self.new.octets }
        ensures octets_len { vec_len self.new.octets ≡ vec_len self.old.octets + length octets.now }
        ensures parts_room { vec_capacity self.old.parts ≤ vec_capacity self.new.parts }
        ensures parts_len { vec_len self.new.parts ≡ vec_len self.old.parts + 1 }
    {
        append_part(&mut self.octets, &mut self.parts, octets, invoking);
    }

    /// Appends a component that can be written, has so many octets, and for which there is room: it is
    /// written straight into the queue's octets.
    // Inlined for the reason that contents.rt gives.
    #[inline(always)]
    pub fn append_component(
        &mut self,
        component: &Component<'_>,
        len: usize,
        invoking: Option<Invoking>,
    )
        requires can { CanWriteComponent (component_parts component.now) }
        requires len { len ≡ length (written_component (component_parts component.now)) }
        requires octets { vec_len self.old.octets + len ≤ vec_capacity self.old.octets }
        requires part { vec_len self.old.parts < vec_capacity self.old.parts }
        ensures { queue_view self.new ≡ queue_view self.old
            ++ queued (option_map invoking_view invoking) (component_parts component.now) ∷ [] }
    {
        append_component(&mut self.octets, component);
        self.parts.push_reserved(Part { len, invoking });
    }

    /// Appends a Reject where it fits; there is room for it.
    pub fn append_reject(&mut self, id: Option<i8>, problem: Problem)
        requires octets { vec_len self.old.octets + 8 ≤ vec_capacity self.old.octets }
        requires part { vec_len self.old.parts < vec_capacity self.old.parts }
        ensures queue { queue_view self.new
            ≡ queue_if_fits queue_limit (queue_view self.old) (queued None (reject_back id (problem_parts problem))) }
        ensures octets_room { vec_capacity self.old.octets ≤ vec_capacity self.new.octets }
        ensures octets_len { vec_len self.new.octets ≤ vec_len self.old.octets + 8 }
        ensures parts_room { vec_capacity self.old.parts ≤ vec_capacity self.new.parts }
        ensures parts_len { vec_len self.new.parts ≤ vec_len self.old.parts + 1 }
    {
        let (octets, len) = reject_octets(id, problem);
        if self.octets.len() + len <= MAX_QUEUE {
            self.append(&octets[..len], None);
        }
    }
}

/// Appends a component to both lists.
fn append_part<A: Allocator + Copy>(
    all: &mut Vec<u8, A>,
    parts: &mut Vec<Part, A>,
    octets: &[u8],
    invoking: Option<Invoking>,
)
    requires octets { vec_len all.old + length octets.now ≤ vec_capacity all.old }
    requires part { vec_len parts.old < vec_capacity parts.old }
    ensures octets { all.new.items ≡ all.old.items ++ octets.now }
    ensures parts { parts.new.items ≡ parts.old.items ++ (record { len = length octets.now; invoking = invoking })
        ∷ [] }
    ensures octets_room { vec_capacity all.old ≤ vec_capacity all.new }
    ensures parts_room { vec_capacity parts.old ≤ vec_capacity parts.new }
{
    all.extend_from_slice(octets).unwrap();
    parts.push_reserved(Part {
        len: octets.len(),
        invoking,
    });
}

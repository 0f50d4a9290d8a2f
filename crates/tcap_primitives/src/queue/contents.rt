//! What the queue holds: whether a component comes into it, and room for it; all its octets, as a message takes them.

// Hints to inline: each step of an engine runs through it; docs/PERF.md says what the whole of it inlined gains.

// Inlined into each request that queues a component, whose kind is known there: so the match on it folds away,
// 360 to 570 instructions a step.

ghost use Rattle.std.specs.Prelude.{◌≡◌, ◌+◌, ◌*◌, ◌≤◌, ◌<◌, ◌↔◌, length, None, Some, IsTrue, IfOk, OnOk, IfErr, vec_len, vec_capacity, []};
ghost use Rattle.tcap_component.specs.Views.{component_parts};
ghost use Rattle.tcap_component.specs.Written.{CanWriteComponent, written_component};
ghost use Rattle.tcap_primitives.specs.QueueRefusals.{written_fault, queue_fault};
ghost use Rattle.tcap_primitives.specs.FaultViews.{fault_view};
ghost use Rattle.tcap_primitives.specs.QueueViews.{queue_view, invoking_view};
ghost use Rattle.tcap_model.specs.Procedures.QueueRules.{joined, can_go_alone, goes_alone};
ghost use Rattle.std.specs.Option.{option_map};
ghost use Rattle.std.specs.List.{list_all};

use super::{MAX_QUEUE, Part, Queue};
use crate::fault::Fault;
use std::alloc::{AllocError, Allocator};
use tcap_component::{Component, MAX_REJECT, WriteFault, judge_component};
use tcap_invocation::Class;

/// The fault of a request whose component can't be written.
fn fault_of(fault: WriteFault) -> Fault
    ensures { fault_view result ≡ written_fault fault }
{
    match fault {
        WriteFault::OutOfMemory => Fault::OutOfMemory,
        WriteFault::BadParameter => Fault::BadParameter,
        WriteFault::BadOid => Fault::BadOid,
        WriteFault::TooLong => Fault::TooLong,
    }
}

impl<A: Allocator + Copy> Queue<A> {
    /// How many octets a component that comes into the queue has, or why it doesn't: BadOid, BadParameter,
    /// TooLong. It takes no memory.
    #[inline(always)]
    pub fn judge(&self, component: &Component<'_>) -> Result<usize, Fault>
        ensures len { IfOk result (λ n. n ≡ length (written_component (component_parts component.now))) }
        ensures can { OnOk result (CanWriteComponent (component_parts component.now)) }
        ensures ok { OnOk result (queue_fault (queue_view self.now) (component_parts component.now) ≡ None) }
        ensures err { IfErr result (λ f. queue_fault (queue_view self.now) (component_parts component.now)
            ≡ Some (fault_view f)) }
    {
        match judge_component(component) {
            Ok(len) => {
                if self.octets.len() + len <= MAX_QUEUE {
                    Ok(len)
                } else {
                    Err(Fault::TooLong)
                }
            }
            Err(fault) => Err(fault_of(fault)),
        }
    }

    /// Whether there is room for a component of this many octets, so that it takes no memory.
    #[inline(always)]
    pub fn has_room(&self, len: usize) -> bool
        ensures { IsTrue result ↔ ((vec_len self.now.octets + len ≤ vec_capacity self.now.octets)
            × (vec_len self.now.parts < vec_capacity self.now.parts)) }
    {
        len <= self.octets.capacity() - self.octets.len()
            && self.parts.len() < self.parts.capacity()
    }

    /// Makes room for a component of this many octets.
    #[inline(always)]
    pub fn reserve(&mut self, len: usize) -> Result<(), AllocError>
        ensures same { queue_view self.new ≡ queue_view self.old }
        ensures octets { OnOk result (vec_len self.new.octets + len ≤ vec_capacity self.new.octets) }
        ensures part { OnOk result (vec_len self.new.parts < vec_capacity self.new.parts) }
    {
        self.octets.reserve(len)?;
        self.parts.reserve(1)?;
        Ok(())
    }

    /// Makes room for this many Rejects.
    #[inline(always)]
    pub fn reserve_rejects(&mut self, count: usize) -> Result<(), AllocError>
        ensures same { queue_view self.new ≡ queue_view self.old }
        ensures octets { OnOk result (vec_len self.new.octets + 8 * count ≤ vec_capacity self.new.octets) }
        ensures parts { OnOk result (vec_len self.new.parts + count ≤ vec_capacity self.new.parts) }
    {
        self.octets.reserve(count.saturating_mul(MAX_REJECT))?;
        self.parts.reserve(count)?;
        Ok(())
    }

    /// The octets of all components.
    #[inline(always)]
    pub fn all_octets(&self) -> &[u8]
        ensures { result.now ≡ joined (queue_view self.now) }
    {
        &self.octets
    }

    /// Whether a Unidirectional may carry the components.
    pub fn can_go_alone(&self) -> bool
        ensures { result ≡ can_go_alone (queue_view self.now) }
    {
        !self.parts.is_empty() && all_go_alone(&self.parts)
    }

    /// Takes everything out; the room stays.
    #[inline(always)]
    pub fn clear(&mut self)
        ensures queue { queue_view self.new ≡ [] }
        ensures octets { (vec_len self.new.octets ≡ 0)
            × (vec_capacity self.new.octets ≡ vec_capacity self.old.octets) }
        ensures parts { (vec_len self.new.parts ≡ 0)
            × (vec_capacity self.new.parts ≡ vec_capacity self.old.parts) }
    {
        self.octets.clear();
        self.parts.clear();
    }
}

/// Whether a component is no Invoke of another class than 4.
fn goes_alone(part: &Part) -> bool
    ensures { result ≡ goes_alone (option_map invoking_view part.now.invoking) }
{
    match part.invoking {
        None => true,
        Some(invoking) => matches!(invoking.class, Class::Four),
    }
}

/// Whether all of them are none.
fn all_go_alone(parts: &[Part]) -> bool
    ensures { result ≡ list_all (λ part. goes_alone (option_map invoking_view part.invoking)) parts.now }
{
    parts.iter().all(|part| goes_alone(part))
}

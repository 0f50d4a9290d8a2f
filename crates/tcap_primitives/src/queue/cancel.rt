//! What leaves the queue.

ghost use Rattle.std.specs.Prelude.{◌≡◌, filter, length, not};
ghost use Rattle.std.specs.Option.{option_map};
ghost use Rattle.tcap_primitives.specs.Parts.{total};
ghost use Rattle.tcap_primitives.specs.QueueViews.{cut, invoking_view, queue_view};
ghost use Rattle.tcap_model.specs.Procedures.QueueRules.{asks_for, joined, without_invoke};

use super::{Part, Queue};
use std::alloc::Allocator;

impl<A: Allocator + Copy> Queue<A> {
    /// Takes out the Invoke of an invocation that is given up. It takes no memory.
    pub fn remove_invoke(&mut self, number: u64)
        ensures { queue_view self.new ≡ without_invoke number (queue_view self.old) }
    {
        remove_octets(&mut self.octets, &self.parts, number);
        remove_parts(&mut self.parts, number);
    }
}

impl Part {
    /// Whether this is the Invoke of an invocation.
    fn asks_for(&self, number: u64) -> bool
        ensures { result ≡ asks_for number (option_map invoking_view self.now.invoking) }
    {
        match self.invoking {
            Some(invoking) => invoking.number == number,
            None => false,
        }
    }
}

/// Takes out the Invoke of an invocation from the list of components.
fn remove_parts<A: Allocator + Copy>(parts: &mut Vec<Part, A>, number: u64)
    ensures { parts.new.items
        ≡ filter (λ part. not (asks_for number (option_map invoking_view part.invoking))) parts.old.items }
{
    parts.retain(
        |part: &Part| -> bool
            ensures { result ≡ not (asks_for number (option_map invoking_view part.now.invoking)) }
        { !part.asks_for(number) },
    );
}

/// Takes out the octets of the Invoke of an invocation: those that stay move to the front, one
/// component after the other.
fn remove_octets<A: Allocator + Copy>(octets: &mut Vec<u8, A>, parts: &[Part], number: u64)
    requires { total parts.now ≡ length octets.old.items }
    ensures { octets.new.items ≡ joined (without_invoke number (cut parts.now octets.old.items)) }
{
    let mut kept = 0;
    let mut from = 0;
    for part in parts.iter() {
        if !part.asks_for(number) {
            octets.copy_within(from..from + part.len, kept);
            kept += part.len;
        }
        from += part.len;
    }
    octets.truncate(kept);
}

//! Outputs in memory that is used again and again.

// Hints to inline: each step of an engine runs through it; docs/PERF.md says what the whole of it inlined gains.

ghost use Rattle.std.specs.Prelude.{◌≡◌, ◌+◌, ◌≤◌, ◌↔◌, IsTrue, [], length, option_map, slice_get};
ghost use Rattle.tcap_primitives.specs.OutboxViews.{output_ref_view, outputs_left};

mod indications;
mod iter;
mod keeping;
pub(crate) mod kept_output;
pub(crate) mod output_ref;
pub(crate) mod records;
mod room;
mod tell;

pub use iter::OutboxIter;
pub use output_ref::OutputRef;
use output_ref::output_of;
use records::Record;
use std::alloc::{Allocator, Global};
use std::fmt;
use std::marker::Model;

/// Outputs in order, and the octets that they name, in two blocks of memory that are used again and again: a
/// caller hands it in, reads it and clears it. It keeps at most 4,294,967,295 octets; more are refused as memory
/// is (our own).
#[derive(Drop)]
pub struct Outbox<A: Allocator + Copy = Global> {
    records: Vec<Record, A>,
    octets: Vec<u8, A>,
}

impl<A: Allocator + Copy> Model for Outbox<A> {
    ghost use Rattle.std.specs.Prelude.{◌-◌, ◌≤◌, map, vec_len, vec_capacity};
    ghost use Rattle.tcap_primitives.specs.SinkViews.{Contents};

    ghost Value = { Contents };

    ghost use Rattle.tcap_primitives.specs.OutboxReading.{output_read};
    ghost use Rattle.tcap_primitives.specs.OutboxSpans.{AllFit, most_octets, octets_left};

    ghost view = { λ o. record {
      outputs = map (output_read o.octets.items) o.records.items;
      places = vec_capacity o.records - vec_len o.records;
      octets = octets_left (vec_capacity o.octets) (vec_len o.octets);
    } };

    ghost invariant = { λ o. AllFit o.octets.items o.records.items × (vec_len o.octets ≤ most_octets) };
}

impl<A: Allocator + Copy> Outbox<A> {
    /// An outbox with no outputs; it takes no memory.
    #[inline(always)]
    pub fn new(alloc: A) -> Self
        ensures outputs { result.outputs ≡ [] }
        ensures room { (result.places ≡ 0) × (result.octets ≡ 0) }
    {
        Outbox {
            records: Vec::new(alloc),
            octets: Vec::new(alloc),
        }
    }

    /// How many outputs there are.
    #[inline]
    pub fn len(&self) -> usize
        ensures { result ≡ length self.now.outputs }
    {
        self.records.len()
    }

    /// Whether there are no outputs.
    #[inline]
    pub fn is_empty(&self) -> bool
        ensures { IsTrue result ↔ (self.now.outputs ≡ []) }
    {
        self.records.is_empty()
    }

    /// The output at an index, from 0 on; `None` behind the last. It copies no octets.
    #[inline(always)]
    pub fn get(&self, index: usize) -> Option<OutputRef<'_>>
        ensures { option_map output_ref_view result ≡ slice_get self.now.outputs index }
    {
        let kept = self.records.get(index)?;
        Some(output_of(&self.octets, kept))
    }

    /// The outputs in order.
    #[inline]
    pub fn iter(&self) -> OutboxIter<'_, A>
        ensures { outputs_left result ≡ self.now.outputs }
    {
        OutboxIter::new(self)
    }

    /// Forgets the outputs; the room for them stays.
    #[inline(always)]
    pub fn clear(&mut self)
        ensures outputs { self.new.outputs ≡ [] }
        ensures places { self.new.places ≡ self.old.places + length self.old.outputs }
        ensures octets { self.old.octets ≤ self.new.octets }
    {
        self.records.clear();
        self.octets.clear();
    }

    /// Gives back memory that is not in use; with no outputs it holds none.
    pub fn shrink(&mut self)
        ensures outputs { self.new.outputs ≡ self.old.outputs }
        ensures places { self.old.outputs ≡ [] → self.new.places ≡ 0 }
        ensures octets { self.old.outputs ≡ [] → self.new.octets ≡ 0 }
    {
        if self.records.is_empty() {
            self.octets.clear();
        }
        self.records.shrink_to_fit();
        self.octets.shrink_to_fit();
    }
}

// By hand, since the room that there is says nothing of the outputs.
impl<A: Allocator + Copy> fmt::Debug for Outbox<A> {
    fn fmt<W: fmt::Write>(&self, f: &mut fmt::Formatter<W>) -> fmt::Result {
        let mut outputs = f.debug_list();
        for output in self {
            outputs.entry(&output);
        }
        outputs.finish()
    }
}

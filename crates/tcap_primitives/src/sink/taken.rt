//! An outbox that a sink takes, until it is put back.

// Hints to inline: each step of an engine runs through it; docs/PERF.md says what the whole of it inlined gains.

ghost use Rattle.std.specs.Prelude.{◌≡◌, []};

use super::{Sink, ToOutbox};
use crate::outbox::Outbox;
use std::alloc::Allocator;
use std::marker::PhantomData;
use std::mem;

impl<'m, A: Allocator + Copy> Sink<'m, A, ToOutbox> {
    /// What this outbox holds and has room for. Until `put_back` an empty one without room stands in its place.
    #[inline(always)]
    pub fn take_outbox(alloc: A, place: &mut Outbox<A>) -> Self
        ensures outputs { result.outputs ≡ place.old.outputs }
        ensures slices { result.slices ≡ [] }
        ensures places { result.places ≡ place.old.places }
        ensures octets { result.octets ≡ place.old.octets }
        ensures left { (place.new.outputs ≡ []) × (place.new.places ≡ 0) × (place.new.octets ≡ 0) }
    {
        Sink {
            vector: Vec::new(alloc),
            outbox: mem::replace(place, Outbox::new(alloc)),
            kind: PhantomData,
        }
    }

    /// Puts its outbox into this place.
    // Answered by value it was moved twice on its way, 10 to 24 instructions a step. The vector of such a sink has no
    // memory, since each call of such a sink writes to its own half alone: to look for it took 17 to 26.
    #[inline(always)]
    pub fn put_back(self, place: &mut Outbox<A>)
        ensures outputs { place.new.outputs ≡ self.entry.outputs }
        ensures places { place.new.places ≡ self.entry.places }
        ensures octets { place.new.octets ≡ self.entry.octets }
    {
        let Sink {
            vector,
            outbox,
            kind: _kind,
        } = self;
        mem::forget(vector);
        *place = outbox;
    }
}

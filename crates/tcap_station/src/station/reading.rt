//! The outputs that wait are taken, one at a time.

ghost use Rattle.std.specs.Prelude.{◌≡◌, IfSome, Some, slice_get};
ghost use Rattle.std.specs.Option.{option_map};
ghost use Rattle.tcap_primitives.specs.KeptViews.{FitsKept, kept_view};
ghost use Rattle.tcap_station.specs.Station.{without_first};
ghost use Rattle.tcap_station.specs.WaitingOutput.{is_any};
ghost use Rattle.tcap_station.specs.WaitingViews.{answering, output_of, waiting_view};

use super::Station;
use crate::waiting::{Answering, Waiting};
use std::alloc::Allocator;
use tcap_primitives::kept::KeptOutput;

impl<A: Allocator + Copy> Station<A> {
    /// The output that comes next, `None` where none waits. It copies no octets, and takes no memory.
    #[inline]
    pub fn front(&self) -> Option<Waiting<'_>>
        ensures { option_map waiting_view result ≡ slice_get self.now.waiting 0 }
    {
        self.line.first()
    }

    /// Whether an output waits.
    #[inline(always)]
    pub fn is_waiting(&self) -> bool
        ensures { result ≡ is_any self.now.waiting }
    {
        self.line.is_any()
    }

    /// The output that comes next, as it is kept, without its event: for who handles outputs by their kinds. `None`
    /// where none waits. It copies no octets, and takes no memory.
    #[inline(always)]
    pub fn kept_front(&self) -> Option<KeptOutput<'_>>
        ensures output { option_map kept_view result ≡ option_map output_of (slice_get self.now.waiting 0) }
        ensures fits { IfSome result FitsKept }
    {
        self.line.kept_first()
    }

    /// `kept_front`, where the outputs of one event wait, of which none was taken; `None` elsewhere. To take it calls
    /// nothing then.
    #[inline(always)]
    pub fn kept_of_one_event(&self) -> Option<KeptOutput<'_>>
        ensures output { IfSome result (λ kept. Some (kept_view kept)
            ≡ option_map output_of (slice_get self.now.waiting 0)) }
        ensures fits { IfSome result FitsKept }
    {
        self.line.kept_of_one_event()
    }

    /// Takes away the output that comes next, if one waits: which event it answers. It takes no memory.
    #[inline(always)]
    pub fn take_front(&mut self) -> Option<Answering>
        ensures found { result ≡ option_map answering (slice_get self.old.waiting 0) }
        ensures rest { self.new ≡ without_first self.old }
    {
        self.line.remove_first()
    }

    /// Takes away the output that comes next: whether one waited. It takes no memory.
    #[inline]
    pub fn remove_front(&mut self) -> bool
        ensures found { result ≡ is_any self.old.waiting }
        ensures rest { self.new ≡ without_first self.old }
    {
        self.take_front().is_some()
    }
}

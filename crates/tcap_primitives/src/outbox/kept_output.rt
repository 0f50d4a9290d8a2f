//! An output as an outbox keeps it: a record, and the octets of which it names parts.

ghost use Rattle.std.specs.Prelude.{◌≡◌, IfSome, option_map, slice_get};
ghost use Rattle.tcap_primitives.specs.KeptViews.{FitsKept, kept_view};

use super::Outbox;
use super::records::Record;
use std::alloc::Allocator;

/// An output as an outbox keeps it: who handles it by its kind needs no `OutputRef` between (our own).
#[derive(Clone, Copy)]
pub struct KeptOutput<'o> {
    /// What is sent or told, with the places of its octets.
    pub record: &'o Record,
    /// The octets of the outbox.
    pub octets: &'o [u8],
}

impl<A: Allocator + Copy> Outbox<A> {
    /// The output at an index, from 0 on, as it is kept; `None` behind the last. It copies nothing.
    // Inlined into its callers in other crates: each output that a station hands out runs through it.
    #[inline(always)]
    pub fn kept(&self, index: usize) -> Option<KeptOutput<'_>>
        ensures output { option_map kept_view result ≡ slice_get self.now.outputs index }
        ensures fits { IfSome result FitsKept }
    {
        let record = self.records.get(index)?;
        Some(KeptOutput {
            record,
            octets: &self.octets,
        })
    }
}

//! The outputs of an outbox, one after the other.

// Hints to inline: a loop over an outbox is most often in another crate, and each output runs through them.

use super::Outbox;
use super::output_ref::OutputRef;
use std::alloc::{Allocator, Global};

/// The outputs of an outbox that are still to come, in order; `Outbox::iter` makes it.
#[derive(Clone, Drop)]
pub struct OutboxIter<'o, A: Allocator + Copy = Global> {
    outbox: &'o Outbox<A>,
    /// The index of the output that comes next; past the last where none does.
    index: usize,
}

impl<'o, A: Allocator + Copy> OutboxIter<'o, A> {
    ghost use Rattle.std.specs.Prelude.{◌≡◌};
    ghost use Rattle.tcap_primitives.specs.OutboxViews.{outputs_left};

    /// The outputs from the first on.
    #[inline]
    pub(super) fn new(outbox: &'o Outbox<A>) -> OutboxIter<'o, A>
        ensures { outputs_left result ≡ outbox.now.outputs }
    {
        OutboxIter { outbox, index: 0 }
    }
}

impl<'o, A: Allocator + Copy> Iterator for OutboxIter<'o, A> {
    ghost use Rattle.std.specs.Iterator.{item_count, YieldsFirstBy};
    ghost use Rattle.tcap_primitives.specs.OutboxViews.{output_ref_view, outputs_left};

    type Item = OutputRef<'o>;

    ghost next_gives = { YieldsFirstBy output_ref_view outputs_left };

    ghost remaining = { item_count outputs_left };

    #[inline]
    fn next(&mut self) -> Option<OutputRef<'o>> {
        let outbox = self.outbox;
        if self.index >= outbox.len() {
            return None;
        }
        let output = outbox.get(self.index)?;
        self.index += 1;
        Some(output)
    }
}

impl<'o, A: Allocator + Copy> IntoIterator for &'o Outbox<A> {
    ghost use Rattle.std.specs.Prelude.{◌≡◌};
    ghost use Rattle.tcap_primitives.specs.OutboxViews.{outputs_left};

    type Item = OutputRef<'o>;

    type IntoIter = OutboxIter<'o, A>;

    ghost into_iter_gives = { λ o it. outputs_left it ≡ o.now.outputs };

    #[inline]
    fn into_iter(self) -> OutboxIter<'o, A> {
        self.iter()
    }
}

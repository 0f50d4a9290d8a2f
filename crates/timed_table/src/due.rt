//! A walk over the values whose times are due.

// Hints to inline: each step of an engine runs through it; docs/PERF.md says what the whole of it inlined gains.

use slab::Slab;
use std::alloc::{Allocator, Global};
use timer_queue::Due;

/// The values whose times are due at a moment, each once; `Table::due` makes it.
#[derive(Drop)]
pub struct DueRows<'a, T: Drop, A: Allocator + Copy = Global> {
    keys: Due<'a>,
    values: &'a Slab<T, A>,
}

impl<'a, T: Drop, A: Allocator + Copy> DueRows<'a, T, A> {
    ghost use Rattle.std.specs.Prelude.{◌≡◌, filter_map};
    ghost use Rattle.slab.specs.Slab.{get};
    ghost use Rattle.timer_queue.specs.Due.{due_left};
    ghost use Rattle.timed_table.specs.Due.{due_rows_left};

    /// The values at these keys.
    #[inline(always)]
    pub(crate) fn new(keys: Due<'a>, values: &'a Slab<T, A>) -> Self
        ensures { due_rows_left result ≡ filter_map (get values.now) (due_left keys.entry) }
    {
        DueRows { keys, values }
    }
}

impl<'a, T: Drop, A: Allocator + Copy> Iterator for DueRows<'a, T, A> {
    ghost use Rattle.std.specs.Iterator.{item_count, YieldsFirstRef};
    ghost use Rattle.timed_table.specs.Due.{due_rows_left};

    type Item = &'a T;

    ghost next_gives = { YieldsFirstRef due_rows_left };

    ghost remaining = { item_count due_rows_left };

    #[inline(always)]
    fn next(&mut self) -> Option<&'a T> {
        while let Some(key) = self.keys.next() {
            if let Some(value) = self.values.get(key) {
                return Some(value);
            }
        }
        None
    }
}

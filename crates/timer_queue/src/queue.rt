//! The queue of timers.

// Hints to inline: each step of an engine runs through it; docs/PERF.md says what the whole of it inlined gains.

ghost use Rattle.std.specs.Prelude.{◌≡◌, ◌<◌, ◌++◌, [], ◌∷◌, None, OnOk, OnErr, MatchOption, length, ◌≤◌, ◌+◌, vec_len, vec_capacity, ℕ};
ghost use Rattle.timer_queue.specs.Order.{timer_at};
ghost use Rattle.timer_queue.specs.Queue.{HasNoTimer, IsFirst};
ghost use Rattle.timer_queue.specs.Heap.{IsSound, IsOrdered, item_at, key_at};

use crate::due::Due;
use crate::timer::Timer;
use std::alloc::{AllocError, Allocator, Global};
use std::marker::Model;

/// The timers of items, which are numbered from 0 on; each item has one timer at most.
///
/// - Changes: `add_item`, which alone takes memory, and `set`.
/// - Getters: `len`, `get`, `first`, `due`.
///
/// `set` costs steps that grow with the logarithm of the number of items, `due` with what is due, and the
/// others cost the same whatever that number. A contract sees the timer of each item, and forgets how much
/// room there is.
#[derive(Debug, Drop)]
pub struct TimerQueue<A: Allocator + Copy = Global> {
    /// The items, none before the one above it, that is at half its place.
    pub(crate) heap: Vec<usize, A>,
    /// Of each item the place in the heap.
    pub(crate) places: Vec<usize, A>,
    /// Of each item the timer.
    pub(crate) timers: Vec<Option<Timer>, A>,
}

impl<A: Allocator + Copy> Model for TimerQueue<A> {
    ghost use Rattle.std.specs.Prelude.{List, Option};
    ghost use Rattle.timer_queue.specs.declared.timer.Timer.{Timer};
    ghost use Rattle.timer_queue.specs.Heap.{IsSound};

    ghost Value = { List (Option Timer) };

    ghost view = { λ q. q.timers.items };

    ghost invariant = { λ q. IsSound q.heap.items q.places.items q.timers.items };
}

impl<A: Allocator + Copy> TimerQueue<A> {
    ghost use Rattle.std.specs.List.Sorted.{IsPermutation};
    ghost use Rattle.timer_queue.specs.Due.{due_items, due_left};

    /// No items; takes no memory.
    #[inline(always)]
    pub fn new(alloc: A) -> Self
        ensures { result ≡ [] }
    {
        TimerQueue {
            heap: Vec::new(alloc),
            places: Vec::new(alloc),
            timers: Vec::new(alloc),
        }
    }

    /// How many items there are.
    #[inline(always)]
    pub fn len(&self) -> usize
        ensures { result ≡ length self.now }
    {
        self.timers.len()
    }

    /// One item more, without a timer. All room that it will ever need is made.
    #[inline(always)]
    pub fn add_item(&mut self) -> Result<(), AllocError>
        ensures ok { OnOk result (self.new ≡ self.old ++ None ∷ []) }
        ensures err { OnErr result (self.new ≡ self.old) }
    {
        self.heap.reserve(1)?;
        self.places.reserve(1)?;
        self.timers.reserve(1)?;
        push_item(&mut self.heap, &mut self.places, &mut self.timers);
        Ok(())
    }

    /// The timer of an item.
    #[inline(always)]
    pub fn get(&self, item: usize) -> Option<Timer>
        ensures { result ≡ timer_at self.now item }
    {
        if item < self.timers.len() {
            self.timers[item]
        } else {
            None
        }
    }

    /// The item whose timer is the least by time, then name.
    #[inline(always)]
    pub fn first(&self) -> Option<usize>
        ensures { MatchOption result (HasNoTimer self.now) (IsFirst self.now) }
    {
        first_item(&self.heap, &self.timers)
    }

    /// The items whose time is at or before a moment, each once; takes no memory.
    #[inline(always)]
    pub fn due(&self, moment: u64) -> Due<'_>
        ensures { IsPermutation (due_items moment self.now) (due_left result) }
    {
        Due::new(&self.heap, &self.timers, moment)
    }
}

/// Puts an item without a timer behind the others, in room that is there.
#[inline(always)]
fn push_item<A: Allocator>(
    heap: &mut Vec<usize, A>,
    places: &mut Vec<usize, A>,
    timers: &mut Vec<Option<Timer>, A>,
)
    requires heap { vec_len heap.old + 1 ≤ vec_capacity heap.old }
    requires places { vec_len places.old + 1 ≤ vec_capacity places.old }
    requires timers { vec_len timers.old + 1 ≤ vec_capacity timers.old }
    requires sound { IsSound heap.old.items places.old.items timers.old.items }
    ensures sound { IsSound heap.new.items places.new.items timers.new.items }
    ensures none { timers.new.items ≡ timers.old.items ++ None ∷ [] }
{
    let item = timers.len();
    heap.push_reserved(item);
    places.push_reserved(item);
    timers.push_reserved(None);
}

/// The item with the least timer, if one has a timer: the first of the heap.
#[inline(always)]
fn first_item(heap: &[usize], timers: &[Option<Timer>]) -> Option<usize>
    requires as_many { length heap.now ≡ length timers.now }
    requires within { (place : ℕ) → place < length timers.now → item_at heap.now place < length timers.now }
    requires listed { (item : ℕ) → item < length timers.now → (place : ℕ)
        × (place < length timers.now) × (item_at heap.now place ≡ item) }
    requires ordered { IsOrdered (key_at timers.now heap.now) (length timers.now) }
    ensures { MatchOption result (HasNoTimer timers.now) (IsFirst timers.now) }
{
    let item = *heap.first()?;
    timers[item]?;
    Some(item)
}

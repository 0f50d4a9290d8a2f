//! The items that are due.

// Hints to inline: each step of an engine runs through it; docs/PERF.md says what the whole of it inlined gains.

ghost use Rattle.std.specs.Prelude.{◌≡◌, ◌<◌, ◌++◌, length};
ghost use Rattle.timer_queue.specs.Order.{is_due, timer_at};
ghost use Rattle.timer_queue.specs.Due.{is_due_place, downwards, below_place, after_place, from_place};

use crate::timer::Timer;

/// The items whose timers are due at a moment, each once; a getter of `TimerQueue` makes it.
///
/// The heap is a tree, and below an item that isn't due none is, so the walk goes on at the next branch.
#[derive(Clone, Copy, Debug)]
pub struct Due<'a> {
    heap: &'a [usize],
    timers: &'a [Option<Timer>],
    moment: u64,
    /// The place of the item that comes next; past the heap where none does.
    place: usize,
}

impl<'a> Due<'a> {
    ghost use Rattle.timer_queue.specs.Due.{due_left};
    ghost use Rattle.timer_queue.specs.Heap.{item_at};
    ghost use Rattle.std.specs.Prelude.{map};

    /// The walk over what is due in a heap, from its first item on.
    #[inline(always)]
    pub(crate) fn new(heap: &'a [usize], timers: &'a [Option<Timer>], moment: u64) -> Due<'a>
        ensures { due_left result
            ≡ map (item_at heap.now) (downwards (is_due_place moment heap.now timers.now) (length heap.now) 0) }
    {
        let place = first_place(heap, timers, moment);
        Due {
            heap,
            timers,
            moment,
            place,
        }
    }
}

impl<'a> Iterator for Due<'a> {
    ghost use Rattle.std.specs.Iterator.{item_count, YieldsFirst};
    ghost use Rattle.timer_queue.specs.Due.{due_left};

    type Item = usize;

    ghost next_gives = { YieldsFirst due_left };

    ghost remaining = { item_count due_left };

    #[inline(always)]
    fn next(&mut self) -> Option<usize> {
        if self.place < self.heap.len() {
            let item = self.heap[self.place];
            self.place = next_place(self.heap, self.timers, self.moment, self.place);
            Some(item)
        } else {
            None
        }
    }
}

/// Whether there is an item at a place of the heap, and it is due.
#[inline(always)]
fn is_due_place(heap: &[usize], timers: &[Option<Timer>], moment: u64, place: usize) -> bool
    ensures { result ≡ is_due_place moment heap.now timers.now place }
{
    if place < heap.len() {
        is_due(timers, moment, heap[place])
    } else {
        false
    }
}

/// Whether the timer of an item is due.
#[inline(always)]
fn is_due(timers: &[Option<Timer>], moment: u64, item: usize) -> bool
    ensures { result ≡ is_due moment (timer_at timers.now item) }
{
    if item < timers.len() {
        match timers[item] {
            None => false,
            Some(timer) => timer.time <= moment,
        }
    } else {
        false
    }
}

/// The first place of the heap, if it is due; else a place past it.
#[inline(always)]
fn first_place(heap: &[usize], timers: &[Option<Timer>], moment: u64) -> usize
    ensures { from_place (is_due_place moment heap.now timers.now) (length heap.now) result
        ≡ downwards (is_due_place moment heap.now timers.now) (length heap.now) 0 }
{
    if is_due_place(heap, timers, moment, 0) {
        0
    } else {
        heap.len()
    }
}

/// The place that comes after one: the first below it, if that is due, and else what comes after all below it.
#[inline(always)]
fn next_place(heap: &[usize], timers: &[Option<Timer>], moment: u64, place: usize) -> usize
    requires { place < length heap.now }
    ensures { from_place (is_due_place moment heap.now timers.now) (length heap.now) result ≡
        below_place (is_due_place moment heap.now timers.now) (length heap.now) place ++ after_place (is_due_place moment heap.now timers.now) (length heap.now) place }
{
    // Half of the places have none below them, and twice a place past those might not fit.
    if place < heap.len() / 2 {
        place_or_later(heap, timers, moment, 2 * place + 1)
    } else {
        later_place(heap, timers, moment, place)
    }
}

/// A left place, if it is due, and else what comes after it.
#[inline(always)]
fn place_or_later(heap: &[usize], timers: &[Option<Timer>], moment: u64, place: usize) -> usize
    requires { place < length heap.now }
    ensures { from_place (is_due_place moment heap.now timers.now) (length heap.now) result ≡
        downwards (is_due_place moment heap.now timers.now) (length heap.now) place ++ after_place (is_due_place moment heap.now timers.now) (length heap.now) place }
{
    if is_due_place(heap, timers, moment, place) {
        place
    } else {
        later_place(heap, timers, moment, place)
    }
}

/// The place that comes after one and all below it: of a left one the right one, if that is due, and else what
/// comes after the place above.
#[inline(always)]
fn later_place(heap: &[usize], timers: &[Option<Timer>], moment: u64, place: usize) -> usize
    requires { place < length heap.now }
    ensures { from_place (is_due_place moment heap.now timers.now) (length heap.now) result
        ≡ after_place (is_due_place moment heap.now timers.now) (length heap.now) place }
{
    if place == 0 {
        return heap.len();
    }
    if place % 2 == 1 && is_due_place(heap, timers, moment, place + 1) {
        place + 1
    } else {
        later_place(heap, timers, moment, (place - 1) / 2)
    }
}

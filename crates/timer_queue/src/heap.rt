//! The heap of items: order, moving up and down, and how the timer of an item is set.

// Hints to inline: each step of an engine runs through it; docs/PERF.md says what the whole of it inlined gains.

ghost use Rattle.std.specs.Prelude.{◌≡◌, ◌<◌, ◌+◌, ◌*◌, ℕ, false, length, slice_set, ◌^◌};
ghost use Rattle.timer_queue.specs.Order.{comes_before};
ghost use Rattle.timer_queue.specs.Heap.{IsChild, IsOrdered, IsOrderedBut, IsFineBelow, IsFineAbove, IsSound, IsTied, item_at, key_at, heap_swapped, heap_with, places_swapped, places_with};

use crate::queue::TimerQueue;
use crate::timer::Timer;
use std::alloc::Allocator;

/// Whether the item at a place has a timer before that of the item at another.
#[inline(always)]
fn is_before(heap: &[usize], timers: &[Option<Timer>], a: usize, b: usize) -> bool
    requires a { a < length heap.now }
    requires b { b < length heap.now }
    requires first { item_at heap.now a < length timers.now }
    requires second { item_at heap.now b < length timers.now }
    ensures { result ≡ comes_before (key_at timers.now heap.now a) (key_at timers.now heap.now b) }
{
    comes_before(timers[heap[a]], timers[heap[b]])
}

/// The place above a place.
#[inline(always)]
fn parent_of(at: usize) -> usize
    requires { 0 < at }
    ensures parent { IsChild at result }
    ensures lower { result < at }
{
    (at - 1) / 2
}

/// Puts the items at two places into each other's place.
#[inline(always)]
fn swap_places(heap: &mut [usize], places: &mut [usize], a: usize, b: usize)
    requires a { a < length heap.old }
    requires b { b < length heap.old }
    requires first { item_at heap.old a < length places.old }
    requires second { item_at heap.old b < length places.old }
    ensures heap { heap.new ≡ heap_swapped heap.old a b }
    ensures places { places.new ≡ places_swapped heap.old places.old a b }
{
    let one = heap[a];
    let other = heap[b];
    heap[a] = other;
    heap[b] = one;
    places[other] = a;
    places[one] = b;
}

/// Moves the item at a place up, as long as its timer is before that of the place above.
#[inline(always)]
fn sift_up(heap: &mut [usize], places: &mut [usize], timers: &[Option<Timer>], at: usize)
    requires at { at < length timers.now }
    requires tied { IsTied heap.old places.old (length timers.now) }
    requires but { IsOrderedBut (key_at timers.now heap.old) (length timers.now) at }
    requires below { IsFineBelow (key_at timers.now heap.old) (length timers.now) at }
    ensures tied { IsTied heap.new places.new (length timers.now) }
    ensures ordered { IsOrdered (key_at timers.now heap.new) (length timers.now) }
{
    if at > 0 {
        let parent = parent_of(at);
        if is_before(heap, timers, at, parent) {
            swap_places(heap, places, at, parent);
            sift_up(heap, places, timers, parent);
        }
    }
}

/// Of the two places below a place the one with the earlier timer; the first of them is there.
#[inline(always)]
fn least_child(heap: &[usize], timers: &[Option<Timer>], at: usize) -> usize
    requires first { 2 * at + 1 < length timers.now }
    requires as_many { length heap.now ≡ length timers.now }
    requires within { (place : ℕ) → place < length timers.now → item_at heap.now place < length timers.now }
    ensures child { IsChild result at }
    ensures there { result < length timers.now }
    ensures least { (child : ℕ) → IsChild child at → child < length timers.now →
        comes_before (key_at timers.now heap.now child) (key_at timers.now heap.now result) ≡ false }
{
    let left = 2 * at + 1;
    let right = left + 1;
    if right < heap.len() && is_before(heap, timers, right, left) {
        right
    } else {
        left
    }
}

/// Moves an item down from a place to where none is below it, past the earlier one of each two places below,
/// and tells where it is then. The place is a hole until the item is put into the last one.
// Called: it keeps all that it walks with in registers so, 27 instructions a level, where it took 37 inlined into a
// moment.
#[inline(never)]
fn sink(
    heap: &mut [usize],
    places: &mut [usize],
    timers: &[Option<Timer>],
    at: usize,
    item: usize,
) -> usize
    requires at { at < length timers.now }
    requires hole { item_at heap.old at < length timers.now }
    requires item { item < length places.old }
    requires tied { IsTied (heap_with heap.old at item) (places_with places.old at item) (length timers.now) }
    requires but { IsOrderedBut (key_at timers.now (heap_with heap.old at item)) (length timers.now) at }
    ensures at { result < length timers.now }
    ensures tied { IsTied heap.new places.new (length timers.now) }
    ensures but { IsOrderedBut (key_at timers.now heap.new) (length timers.now) result }
    ensures below { IsFineBelow (key_at timers.now heap.new) (length timers.now) result }
{
    // Half of the places have none below them, and twice a place past those might not fit.
    if at < heap.len() / 2 {
        let child = least_child(heap, timers, at);
        let other = heap[child];
        heap[at] = other;
        places[other] = at;
        sink(heap, places, timers, child, item)
    } else {
        heap[at] = item;
        places[item] = at;
        at
    }
}

/// Moves the item at a place down, if the timer of a place below is before its own: to the end, which takes
/// one comparison a level, and then up to where it belongs, which is seldom far.
#[inline(always)]
fn sift_down(heap: &mut [usize], places: &mut [usize], timers: &[Option<Timer>], at: usize)
    requires at { at < length timers.now }
    requires tied { IsTied heap.old places.old (length timers.now) }
    requires but { IsOrderedBut (key_at timers.now heap.old) (length timers.now) at }
    requires above { IsFineAbove (key_at timers.now heap.old) at }
    ensures tied { IsTied heap.new places.new (length timers.now) }
    ensures ordered { IsOrdered (key_at timers.now heap.new) (length timers.now) }
{
    if at >= heap.len() / 2 {
        return;
    }
    let child = least_child(heap, timers, at);
    if is_before(heap, timers, child, at) {
        let item = heap[at];
        let last = sink(heap, places, timers, at, item);
        sift_up(heap, places, timers, last);
    }
}

/// Brings the item at a place, whose timer changed, to where it belongs.
#[inline(always)]
fn sift(heap: &mut [usize], places: &mut [usize], timers: &[Option<Timer>], at: usize)
    requires at { at < length timers.now }
    requires tied { IsTied heap.old places.old (length timers.now) }
    requires but { IsOrderedBut (key_at timers.now heap.old) (length timers.now) at }
    ensures tied { IsTied heap.new places.new (length timers.now) }
    ensures ordered { IsOrdered (key_at timers.now heap.new) (length timers.now) }
{
    if at > 0 && is_before(heap, timers, at, parent_of(at)) {
        sift_up(heap, places, timers, at);
    } else {
        sift_down(heap, places, timers, at);
    }
}

/// Writes the timer of an item, and brings the item to its new place.
#[inline(always)]
fn set_timer(
    heap: &mut [usize],
    places: &mut [usize],
    timers: &mut [Option<Timer>],
    item: usize,
    timer: Option<Timer>,
)
    requires item { item < length timers.old }
    requires sound { IsSound heap.old places.old timers.old }
    ensures sound { IsSound heap.new places.new timers.new }
    ensures set { timers.new ≡ slice_set timers.old item timer }
{
    timers[item] = timer;
    let place = places[item];
    sift(heap, places, timers, place);
}

impl<A: Allocator + Copy> TimerQueue<A> {
    /// Gives an item this timer, or none; where that is its timer, nothing moves. Takes no memory.
    // Most timers that are set are those that stand: the caller sees that by itself, and calls only for a
    // change.
    #[inline(always)]
    pub fn set(&mut self, item: usize, timer: Option<Timer>)
        requires { item < length self.old }
        ensures { self.new ≡ slice_set self.old item timer }
    {
        if self.timers[item] == timer {
            return;
        }
        set_timer(
            &mut self.heap,
            &mut self.places,
            &mut self.timers,
            item,
            timer,
        );
    }
}

impl Timer {
    /// The number by which timers are ordered, the time above the name: so two are compared without a branch.
    #[inline(always)]
    fn rank(self) -> u128
        ensures { result ≡ self.time * 2 ^ 64 + self.name }
    {
        u128::from(self.time) * 0x1_0000_0000_0000_0000 + u128::from(self.name)
    }
}

/// Whether a timer is before another; none comes after each.
#[inline(always)]
fn comes_before(a: Option<Timer>, b: Option<Timer>) -> bool
    ensures { result ≡ comes_before a b }
{
    match a {
        None => false,
        Some(a) => is_before_next(a, b),
    }
}

/// Whether a timer is before one that there may be.
#[inline(always)]
fn is_before_next(a: Timer, b: Option<Timer>) -> bool
    ensures { result ≡ comes_before (Some a) b }
{
    match b {
        None => true,
        Some(b) => a.rank() < b.rank(),
    }
}

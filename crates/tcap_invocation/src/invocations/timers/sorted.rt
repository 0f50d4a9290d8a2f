//! Rings of timers in order.

ghost use Rattle.std.specs.Prelude.{◌≡◌, ◌<◌, ◌≤◌, ◌∷◌, ◌++◌, [], IsTrue, List, length};
ghost use Rattle.std.specs.VecDeque.{deque_len, deque_capacity};
ghost use Rattle.tcap_invocation.specs.declared.invocations.timers.Timer.{Timer};
ghost use Rattle.tcap_invocation.specs.Order.{put_by};
ghost use Rattle.tcap_invocation.specs.TimerList.{IsInOrder, IsPlace, is_earlier};

use super::Timer;
use std::alloc::Allocator;
use std::collections::VecDeque;

/// Puts a timer in its place, in room that is there.
pub(super) fn put<A: Allocator + Copy>(timers: &mut VecDeque<Timer, A>, timer: Timer)
    requires order { IsInOrder timers.old.items }
    requires room { deque_len timers.old < deque_capacity timers.old }
    ensures timers { timers.new.items ≡ put_by is_earlier timer timers.old.items }
    ensures room { deque_capacity timers.old ≤ deque_capacity timers.new }
{
    if is_last(timers, timer) {
        timers.push_back_reserved(timer);
        return;
    }
    let at = place_of(timers, timer);
    timers.insert(at, timer).unwrap();
}

/// Whether a timer comes after all others, as the deadline of what is sent now mostly does.
fn is_last<A: Allocator + Copy>(timers: &VecDeque<Timer, A>, timer: Timer) -> bool
    requires { IsInOrder timers.now.items }
    ensures { IsTrue result → put_by is_earlier timer timers.now.items ≡ timers.now.items ++ timer ∷ [] }
{
    match timers.back() {
        Some(last) => is_earlier(*last, timer),
        None => true,
    }
}

/// Takes a timer out.
pub(super) fn take<A: Allocator + Copy>(timers: &mut VecDeque<Timer, A>, timer: Timer)
    requires order { IsInOrder timers.old.items }
    ensures timers { (left : List Timer) → timers.old.items ≡ put_by is_earlier timer left
        → timers.new.items ≡ left }
    ensures order { IsInOrder timers.new.items }
    ensures room { deque_capacity timers.new ≡ deque_capacity timers.old }
{
    let at = place_of(timers, timer);
    if at < timers.len() {
        timers.remove(at);
    }
}

/// Whether a timer stands before another: by time, then number.
fn is_earlier(a: Timer, b: Timer) -> bool
    ensures { result ≡ is_earlier a b }
{
    a.time < b.time || (a.time == b.time && a.number < b.number)
}

/// The place where a timer stands, or where it is to be put.
fn place_of<A: Allocator + Copy>(timers: &VecDeque<Timer, A>, timer: Timer) -> usize
    requires { IsInOrder timers.now.items }
    ensures bound { result ≤ length timers.now.items }
    ensures place { IsPlace timer timers.now.items result }
{
    // The first is mostly the one that is taken out: it is found by a comparison.
    let Some(first) = timers.front() else {
        return 0;
    };
    if !is_earlier(*first, timer) {
        return 0;
    }
    timers.partition_point(
        |other: &Timer| -> bool
            ensures { result ≡ is_earlier other.now timer }
        { is_earlier(*other, timer) },
    )
}

//! What is told of timers in order.

ghost use Rattle.std.specs.Prelude.{◌≡◌, ◌≤◌, ◌+◌, ◌++◌, length, filter, filter_map, vec_len, vec_capacity};
ghost use Rattle.tcap_invocation.specs.Order.{first_of};
ghost use Rattle.tcap_invocation.specs.TimerList.{IsInOrder, is_over, told_of_timer};

use super::Timer;
use crate::invocations::lapse::Lapse;
use std::alloc::Allocator;
use std::collections::VecDeque;

/// What is told of an invocation with this timer, if it lapses by the clock.
fn told(timer: &Timer, clock: u64) -> Option<Lapse>
    ensures { result ≡ told_of_timer clock timer.now }
{
    if timer.lapses && timer.time <= clock {
        Some(Lapse {
            deadline: timer.time,
            number: timer.number,
            id: timer.id,
        })
    } else {
        None
    }
}

/// The first of those of a wait that is over at the clock.
pub(super) fn first_over<A: Allocator + Copy>(
    timers: &VecDeque<Timer, A>,
    clock: u64,
) -> Option<Timer>
    requires { IsInOrder timers.now.items }
    ensures { result ≡ first_of (filter (is_over clock) timers.now.items) }
{
    for timer in timers.iter() {
        if timer.is_later(clock) {
            return None;
        }
        if timer.is_over(clock) {
            return Some(*timer);
        }
    }
    None
}

/// How many of them are of invocations that lapse by the clock.
pub(super) fn due_count<A: Allocator + Copy>(timers: &VecDeque<Timer, A>, clock: u64) -> usize
    requires { IsInOrder timers.now.items }
    ensures { result ≡ length (filter_map (told_of_timer clock) timers.now.items) }
{
    let mut count = 0;
    for timer in timers.iter() {
        if timer.is_later(clock) {
            return count;
        }
        if timer.lapses {
            count += 1;
        }
    }
    count
}

/// What is told of the first of these.
pub(super) fn first_due<A: Allocator + Copy>(
    timers: &VecDeque<Timer, A>,
    clock: u64,
) -> Option<Lapse>
    requires { IsInOrder timers.now.items }
    ensures { result ≡ first_of (filter_map (told_of_timer clock) timers.now.items) }
{
    for timer in timers.iter() {
        if timer.is_later(clock) {
            return None;
        }
        if let Some(lapse) = told(timer, clock) {
            return Some(lapse);
        }
    }
    None
}

/// Tells all of these, in room that is there.
pub(super) fn push_due<A: Allocator + Copy>(
    lapses: &mut Vec<Lapse, A>,
    timers: &VecDeque<Timer, A>,
    clock: u64,
)
    requires order { IsInOrder timers.now.items }
    requires room { vec_len lapses.old + length (filter_map (told_of_timer clock) timers.now.items)
        ≤ vec_capacity lapses.old }
    ensures { lapses.new.items ≡ lapses.old.items ++ filter_map (told_of_timer clock) timers.now.items }
{
    for timer in timers.iter() {
        if timer.is_later(clock) {
            return;
        }
        if let Some(lapse) = told(timer, clock) {
            lapses.push_reserved(lapse);
        }
    }
}

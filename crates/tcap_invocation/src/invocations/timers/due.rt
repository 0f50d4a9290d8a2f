//! What is taken out of timers in order once their time has come.

ghost use Rattle.std.specs.Prelude.{◌≡◌, filter};
ghost use Rattle.std.specs.VecDeque.{deque_capacity};
ghost use Rattle.tcap_invocation.specs.Order.{first_of};
ghost use Rattle.tcap_invocation.specs.TimerList.{IsInOrder, is_later, is_kept, has_come, is_first_over};

use super::Timer;
use std::alloc::Allocator;
use std::collections::VecDeque;

/// Takes out those whose time has come at the clock: they stand in front.
pub(super) fn take_due<A: Allocator + Copy>(timers: &mut VecDeque<Timer, A>, clock: u64)
    requires { IsInOrder timers.old.items }
    ensures timers { timers.new.items ≡ filter (is_later clock) timers.old.items }
    ensures room { deque_capacity timers.new ≡ deque_capacity timers.old }
{
    while is_due(timers, clock) {
        timers.pop_front();
    }
}

/// Takes out those of a wait that is over at the clock. Mostly they alone stand in front, since an invocation
/// lapses before a wait ends.
pub(super) fn take_over<A: Allocator + Copy>(timers: &mut VecDeque<Timer, A>, clock: u64)
    requires { IsInOrder timers.old.items }
    ensures timers { timers.new.items ≡ filter (is_kept clock) timers.old.items }
    ensures room { deque_capacity timers.new ≡ deque_capacity timers.old }
{
    while is_over(timers, clock) {
        timers.pop_front();
    }
    if is_due(timers, clock) {
        timers.retain_mut(
            |timer: &mut Timer| -> bool
                ensures { (result ≡ is_kept clock timer.old) × (timer.new ≡ timer.old) }
            { timer.is_kept(clock) },
        );
    }
}

/// Whether the time of the first has come at the clock.
pub(super) fn is_due<A: Allocator + Copy>(timers: &VecDeque<Timer, A>, clock: u64) -> bool
    ensures { result ≡ has_come clock (first_of timers.now.items) }
{
    match timers.front() {
        Some(timer) => timer.time <= clock,
        None => false,
    }
}

/// Whether the first is that of a wait which is over at the clock.
fn is_over<A: Allocator + Copy>(timers: &VecDeque<Timer, A>, clock: u64) -> bool
    ensures { result ≡ is_first_over clock (first_of timers.now.items) }
{
    match timers.front() {
        Some(timer) => timer.is_over(clock),
        None => false,
    }
}

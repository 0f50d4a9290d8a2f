//! The timers of many invocations: deadlines, and ends of the wait for a Reject.

ghost use Rattle.std.specs.Prelude.{◌≡◌, ◌<◌, ◌≤◌, [], List, length, filter, filter_map, slice_get, option_copied, IfOk, OnOk, OnErr};
ghost use Rattle.tcap_invocation.specs.declared.invocations.timers.Timer.{Timer};
ghost use Rattle.tcap_invocation.specs.Order.{put_by, first_of};
ghost use Rattle.tcap_invocation.specs.TimerList.{is_earlier, lapse_at_time, told_of_timer, timer_of, is_later, is_kept, is_over, has_come};

mod due;
mod sorted;
mod telling;

use super::Invocation;
use super::lapse::Lapse;
use crate::stage::Stage;
use ber_core::OutOfMemory;
use due::{is_due, take_due, take_over};
use sorted::{put, take};
use std::alloc::{AllocError, Allocator};
use std::collections::VecDeque;
use std::marker::Model;
use telling::{due_count, first_due, first_over, push_due};

/// When an invocation lapses, or when the wait of its identifier ends.
#[derive(Clone, Copy, Debug)]
pub(super) struct Timer {
    /// The deadline or the end of the wait, in milliseconds, at most 2^63.
    pub(super) time: u64,
    /// The number of the invocation.
    pub(super) number: u64,
    /// Its invoke identifier.
    pub(super) id: i8,
    /// Whether it is Sent, so that it lapses then; else it is Waiting.
    pub(super) lapses: bool,
}

impl Timer {
    /// What is told where it lapses.
    pub(super) fn lapse(&self) -> Lapse
        ensures { result ≡ lapse_at_time self.now }
    {
        Lapse {
            deadline: self.time,
            number: self.number,
            id: self.id,
        }
    }

    /// Whether its time hasn't come at the clock.
    pub(super) fn is_later(&self, clock: u64) -> bool
        ensures { result ≡ is_later clock self.now }
    {
        clock < self.time
    }

    /// Whether it is that of a wait which is over at the clock.
    pub(super) fn is_over(&self, clock: u64) -> bool
        ensures { result ≡ is_over clock self.now }
    {
        !self.lapses && self.time <= clock
    }

    /// Whether it isn't that of a wait which is over at the clock.
    pub(super) fn is_kept(&self, clock: u64) -> bool
        ensures { result ≡ is_kept clock self.now }
    {
        self.lapses || clock < self.time
    }
}

/// The timer of an invocation; there is none while it is Queued.
pub(super) fn timer_of(id: &i8, entry: &Invocation) -> Option<Timer>
    ensures { result ≡ timer_of (id.now, entry.now) }
{
    let (time, lapses) = match entry.stage {
        Stage::Queued(_) => return None,
        Stage::Sent(deadline) => (deadline, true),
        Stage::Waiting(until) => (until, false),
    };
    Some(Timer {
        time,
        number: entry.number,
        id: *id,
        lapses,
    })
}

/// Timers by time, then number. A contract sees the list, and for how many there is room.
#[derive(Debug, Drop)]
pub(super) struct Timers<A: Allocator + Copy> {
    ring: VecDeque<Timer, A>,
}

impl<A: Allocator + Copy> Model for Timers<A> {
    ghost use Rattle.std.specs.VecDeque.{deque_capacity};
    ghost use Rattle.tcap_invocation.specs.TimerList.{TimerList, IsInOrder};

    ghost Value = { TimerList };

    ghost view = { λ v. record { timers = v.ring.items; room = deque_capacity v.ring } };

    ghost invariant = { λ v. IsInOrder v.ring.items };
}

impl<A: Allocator + Copy> Timers<A> {
    /// No timer.
    pub(super) fn new(alloc: A) -> Self
        ensures { result.timers ≡ [] }
    {
        Timers {
            ring: VecDeque::new(alloc),
        }
    }

    /// The first.
    pub(super) fn first(&self) -> Option<&Timer>
        ensures { option_copied result ≡ first_of self.now.timers }
    {
        self.ring.front()
    }

    /// Whether the time of the first has come at the clock.
    pub(super) fn is_due(&self, clock: u64) -> bool
        ensures { result ≡ has_come clock (first_of self.now.timers) }
    {
        is_due(&self.ring, clock)
    }

    /// Whether the time of the one at this place has come at the clock.
    pub(super) fn is_due_at(&self, place: usize, clock: u64) -> bool
        ensures { result ≡ has_come clock (slice_get self.now.timers place) }
    {
        match self.ring.get(place) {
            Some(timer) => timer.time <= clock,
            None => false,
        }
    }

    /// The first of those of a wait that is over at the clock.
    pub(super) fn first_over(&self, clock: u64) -> Option<Timer>
        ensures { result ≡ first_of (filter (is_over clock) self.now.timers) }
    {
        first_over(&self.ring, clock)
    }

    /// For how many there is room.
    pub(super) fn capacity(&self) -> usize
        ensures { result ≡ self.now.room }
    {
        self.ring.capacity()
    }

    /// Makes room for so many in all. Where that takes memory, the room doubles: the ring by itself grows by its
    /// length, and few of the invocations have a timer while many are Queued.
    pub(super) fn reserve(&mut self, count: usize) -> Result<(), AllocError>
        ensures room { OnOk result (count ≤ self.new.room) }
        ensures more { self.old.room ≤ self.new.room }
        ensures kept { self.new.timers ≡ self.old.timers }
    {
        let room = self.ring.capacity();
        if count <= room {
            return Ok(());
        }
        let wanted = count.max(room.saturating_mul(2));
        self.ring.reserve(wanted.saturating_sub(self.ring.len()))
    }

    /// Puts a timer in its place, in room that is there.
    pub(super) fn insert(&mut self, timer: Timer)
        requires { length self.old.timers < self.old.room }
        ensures timers { self.new.timers ≡ put_by is_earlier timer self.old.timers }
        ensures room { self.old.room ≤ self.new.room }
    {
        put(&mut self.ring, timer);
    }

    /// Takes a timer out of the list.
    pub(super) fn remove(&mut self, timer: Timer)
        ensures timers { (left : List Timer) → self.old.timers ≡ put_by is_earlier timer left
            → self.new.timers ≡ left }
        ensures room { self.new.room ≡ self.old.room }
    {
        take(&mut self.ring, timer);
    }

    /// Takes each timer out.
    pub(super) fn clear(&mut self)
        ensures timers { self.new.timers ≡ [] }
        ensures room { self.new.room ≡ self.old.room }
    {
        self.ring.clear();
    }

    /// Takes out each timer whose time has come at the clock.
    pub(super) fn expire(&mut self, clock: u64)
        ensures timers { self.new.timers ≡ filter (is_later clock) self.old.timers }
        ensures room { self.new.room ≡ self.old.room }
    {
        take_due(&mut self.ring, clock);
    }

    /// Takes out each timer of a wait that is over at the clock.
    pub(super) fn end_waits(&mut self, clock: u64)
        ensures timers { self.new.timers ≡ filter (is_kept clock) self.old.timers }
        ensures room { self.new.room ≡ self.old.room }
    {
        take_over(&mut self.ring, clock);
    }

    /// How many are of invocations that lapse by the clock.
    pub(super) fn due_count(&self, clock: u64) -> usize
        ensures { result ≡ length (filter_map (told_of_timer clock) self.now.timers) }
    {
        due_count(&self.ring, clock)
    }

    /// What is told first of what lapses by the clock.
    pub(super) fn first_due(&self, clock: u64) -> Option<Lapse>
        ensures { result ≡ first_of (filter_map (told_of_timer clock) self.now.timers) }
    {
        first_due(&self.ring, clock)
    }

    /// All that is told of what lapses by the clock, with all room found first.
    pub(super) fn due_lapses(&self, clock: u64) -> Result<Vec<Lapse, A>, OutOfMemory>
        ensures told { IfOk result (λ v. v.items ≡ filter_map (told_of_timer clock) self.now.timers) }
        ensures memory { OnErr result (0 < length (filter_map (told_of_timer clock) self.now.timers)) }
    {
        let mut lapses = Vec::with_capacity(*self.ring.allocator(), self.due_count(clock))?;
        push_due(&mut lapses, &self.ring, clock);
        Ok(lapses)
    }
}

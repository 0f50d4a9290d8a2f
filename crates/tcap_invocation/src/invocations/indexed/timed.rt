//! The map of the invocations and the list of their timers, changed together.

ghost use Rattle.std.specs.List.{IsDistinct};
ghost use Rattle.std.specs.Map.{keys_of};
ghost use Rattle.std.specs.Ordering.{int_eq};
ghost use Rattle.std.specs.Prelude.{◌≡◌, ◌<◌, ◌≤◌, ◌*◌, ◌++◌, ◌∷◌, [], ℕ, List, None, false, length, slice_get, Some, OnOk};
ghost use Rattle.tcap_invocation.specs.declared.invocations.timers.Timer.{Timer};
ghost use Rattle.tcap_invocation.specs.declared.stage.Stage.TheVariants.{Waiting};
ghost use Rattle.tcap_invocation.specs.Invocations.{Row, AreInOrder, entry_at, sent_at, without, at_stage, sent_rows};
ghost use Rattle.tcap_invocation.specs.Stage.{is_queued, moment_limit};
ghost use Rattle.tcap_invocation.specs.TimerList.{HasTimer, IsTimed, AreQueuedLast, timer_of, put_timer, sent_place, sent_below};

use super::Entries;
use crate::invocations::Invocation;
use crate::invocations::timers::{Timer, Timers, timer_of};
use crate::stage::Stage;
use std::alloc::{AllocError, Allocator};

/// Takes the timer of an invocation out of the list, if it has one.
fn drop_timer<A: Allocator + Copy>(timers: &mut Timers<A>, id: &i8, entry: &Invocation)
    ensures timers { (rest : List Timer) → timers.old.timers ≡ put_timer (timer_of (id.now, entry.now)) rest
        → timers.new.timers ≡ rest }
    ensures room { timers.new.room ≡ timers.old.room }
{
    if let Some(timer) = timer_of(id, entry) {
        timers.remove(timer);
    }
}

/// Puts the timer of an invocation into the list, if it has one, in room that is there.
fn put_timer<A: Allocator + Copy>(timers: &mut Timers<A>, id: &i8, entry: &Invocation)
    requires { length timers.old.timers < timers.old.room }
    ensures timers { timers.new.timers ≡ put_timer (timer_of (id.now, entry.now)) timers.old.timers }
    ensures room { timers.old.room ≤ timers.new.room }
{
    if let Some(timer) = timer_of(id, entry) {
        timers.insert(timer);
    }
}

/// Takes an invocation in, whose number is above all, with its timer, in room that is there.
pub(super) fn take_in<A: Allocator + Copy>(
    entries: &mut Entries<A>,
    timers: &mut Timers<A>,
    id: &i8,
    entry: &Invocation,
) -> Result<(), AllocError>
    requires free { entry_at entries.old.entries id.now ≡ None }
    requires room { length timers.old.timers < timers.old.room }
    ensures rows { OnOk result (entries.new.entries ≡ entries.old.entries ++ (id.now, entry.now) ∷ []) }
    ensures timers { timers.new.timers ≡ put_timer (timer_of (id.now, entry.now)) timers.old.timers }
    ensures room { timers.old.room ≤ timers.new.room }
{
    put_timer(timers, id, entry);
    entries.insert(*id, *entry)?;
    Ok(())
}

/// Takes an invocation out, with its timer.
pub(super) fn take_out<A: Allocator + Copy>(
    entries: &mut Entries<A>,
    timers: &mut Timers<A>,
    id: &i8,
    entry: &Invocation,
)
    requires found { entry_at entries.old.entries id.now ≡ Some entry.now }
    requires order { AreInOrder entries.old.entries }
    requires timed { IsTimed entries.old.entries timers.old }
    requires last { AreQueuedLast entries.old.entries }
    ensures rows { entries.new.entries ≡ without entries.old.entries id.now }
    ensures order { AreInOrder entries.new.entries }
    ensures distinct { IsDistinct int_eq (keys_of entries.new.entries) }
    ensures timed { IsTimed entries.new.entries timers.new }
    ensures last { AreQueuedLast entries.new.entries }
{
    drop_timer(timers, id, entry);
    entries.shift_remove(id);
}

/// Takes the invocation of a timer out, with the timer.
pub(super) fn take_timed<A: Allocator + Copy>(
    entries: &mut Entries<A>,
    timers: &mut Timers<A>,
    timer: Timer,
)
    requires found { HasTimer entries.old.entries timer }
    requires order { AreInOrder entries.old.entries }
    requires distinct { IsDistinct int_eq (keys_of entries.old.entries) }
    requires timed { IsTimed entries.old.entries timers.old }
    requires last { AreQueuedLast entries.old.entries }
    ensures rows { entries.new.entries ≡ without entries.old.entries timer.id }
    ensures timed { IsTimed entries.new.entries timers.new }
{
    timers.remove(timer);
    entries.shift_remove(&timer.id);
}

/// The identifier of an invocation that a result or an error closed waits for a Reject.
pub(super) fn wait<A: Allocator + Copy>(
    entries: &mut Entries<A>,
    timers: &mut Timers<A>,
    id: &i8,
    entry: Invocation,
    until: u64,
)
    requires until { until ≤ 2 * moment_limit }
    requires found { sent_at entries.old.entries id.now ≡ Some entry }
    requires order { AreInOrder entries.old.entries }
    requires timed { IsTimed entries.old.entries timers.old }
    requires last { AreQueuedLast entries.old.entries }
    ensures rows { entries.new.entries ≡ at_stage entries.old.entries id.now entry (Waiting until) }
    ensures order { AreInOrder entries.new.entries }
    ensures distinct { IsDistinct int_eq (keys_of entries.new.entries) }
    ensures timed { IsTimed entries.new.entries timers.new }
    ensures last { AreQueuedLast entries.new.entries }
{
    drop_timer(timers, id, &entry);
    let waiting = Invocation {
        stage: Stage::Waiting(until),
        ..entry
    };
    put_timer(timers, id, &waiting);
    if let Some(place) = entries.get_mut(id) {
        *place = waiting;
    }
}

/// The message with the queued Invokes goes out at this moment: each gets its deadline.
pub(super) fn send_queued<A: Allocator + Copy>(
    entries: &mut Entries<A>,
    timers: &mut Timers<A>,
    clock: u64,
)
    requires clock { clock ≤ moment_limit }
    requires order { AreInOrder entries.old.entries }
    requires distinct { IsDistinct int_eq (keys_of entries.old.entries) }
    requires timed { IsTimed entries.old.entries timers.old }
    requires last { AreQueuedLast entries.old.entries }
    ensures rows { entries.new.entries ≡ sent_rows clock entries.old.entries }
    ensures order { AreInOrder entries.new.entries }
    ensures distinct { IsDistinct int_eq (keys_of entries.new.entries) }
    ensures timed { IsTimed entries.new.entries timers.new }
    ensures last { AreQueuedLast entries.new.entries }
{
    for place in first_queued(entries)..entries.len() {
        send_at(entries, timers, place, clock);
    }
}

/// A place before which none is Queued, and behind which all are. Since they stand behind all others, they
/// are counted from the end, and those that were sent long ago aren't looked at.
fn first_queued<A: Allocator + Copy>(entries: &Entries<A>) -> usize
    requires { AreQueuedLast entries.now.entries }
    ensures { (clock : ℕ) → sent_below clock result entries.now.entries ≡ entries.now.entries }
{
    let mut place = entries.len().saturating_sub(1);
    while 0 < place && is_queued(entries, place - 1) {
        place -= 1;
    }
    place
}

/// Whether the one at this place is Queued.
fn is_queued<A: Allocator + Copy>(entries: &Entries<A>, place: usize) -> bool
    ensures { result ≡ false → (r : Row) → slice_get entries.now.entries place ≡ Some r
        → is_queued r.1.stage ≡ false }
{
    match entries.get_index(place) {
        Some((_, entry)) => entry.stage.is_queued(),
        None => false,
    }
}

/// The one at this place is sent, if it is Queued.
fn send_at<A: Allocator + Copy>(
    entries: &mut Entries<A>,
    timers: &mut Timers<A>,
    place: usize,
    clock: u64,
)
    requires clock { clock ≤ moment_limit }
    requires order { AreInOrder entries.old.entries }
    requires distinct { IsDistinct int_eq (keys_of entries.old.entries) }
    requires timed { IsTimed entries.old.entries timers.old }
    ensures rows { entries.new.entries ≡ sent_place clock place entries.old.entries }
    ensures order { AreInOrder entries.new.entries }
    ensures distinct { IsDistinct int_eq (keys_of entries.new.entries) }
    ensures timed { IsTimed entries.new.entries timers.new }
{
    let Some((id, entry)) = entries.get_index(place) else {
        return;
    };
    let Stage::Queued(timeout) = entry.stage else {
        return;
    };
    let sent = Invocation {
        stage: Stage::Sent(clock + timeout),
        ..*entry
    };
    put_timer(timers, id, &sent);
    entries[place] = sent;
}

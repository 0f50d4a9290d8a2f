//! Many invocations: by their identifiers in a map, together with their timers.

ghost use Rattle.std.specs.Prelude.{◌≡◌, ◌↔◌, ◌≢◌, ◌<◌, ◌≤◌, ◌*◌, ◌++◌, ◌∷◌, [], false, IsTrue, length, min, filter, option_copied, Some, IfOk, OnOk, OnErr};
ghost use Rattle.tcap_invocation.specs.declared.stage.Stage.TheVariants.{Waiting};
ghost use Rattle.tcap_invocation.specs.Closing.{ended_at, first_ended_at};
ghost use Rattle.tcap_invocation.specs.Expiries.{first_expiry_at, rows_after};
ghost use Rattle.tcap_invocation.specs.Invocations.{AllBelow, entry_at, sent_at, without, at_stage, sent_rows};
ghost use Rattle.tcap_invocation.specs.Lapses.{due_at, told_at, first_due_at, is_held, stays};
ghost use Rattle.tcap_invocation.specs.Rows.{AreSorted, IsNew};
ghost use Rattle.tcap_invocation.specs.Stage.{moment_limit};
ghost use Rattle.tcap_invocation.specs.Timers.{next_timer_at};

mod timed;

use super::closing::ended_of;
use super::lapse::{Expiry, Lapse};
use super::timers::Timers;
use super::{Invocation, Row};
use ber_core::OutOfMemory;
use indexmap::IndexMap;
use std::alloc::{AllocError, Allocator};
use std::hash::{BuildHasherDefault, FoldHasher};
use std::marker::Model;
use timed::{send_queued, take_in, take_out, take_timed, wait};

/// The invocations by their identifiers, in order of number.
type Entries<A> = IndexMap<i8, Invocation, BuildHasherDefault<FoldHasher>, A>;

/// Where the time of so many has come, one walk through all frees each identifier whose wait is over. Fewer are freed
/// one by one, which costs less: mostly one wait ends at a moment.
const MANY: usize = 3;

/// The invocations by their identifiers, with their timers. A contract sees the rows, and forgets the timers, which
/// are those of the rows.
#[derive(Debug, Drop)]
pub(super) struct Indexed<A: Allocator + Copy> {
    entries: Entries<A>,
    /// Of each Sent or Waiting entry, with room for one of each entry.
    timers: Timers<A>,
}

impl<A: Allocator + Copy> Model for Indexed<A> {
    ghost use Rattle.std.specs.Prelude.{List};
    ghost use Rattle.tcap_invocation.specs.Invocations.{Row};
    ghost use Rattle.tcap_invocation.specs.Rows.{AreSorted};
    ghost use Rattle.tcap_invocation.specs.TimerList.{IsTimed};

    ghost Value = { List Row };

    ghost view = { λ v. v.entries.entries };

    ghost invariant = { λ v. AreSorted v.entries.entries × IsTimed v.entries.entries v.timers };
}

impl<A: Allocator + Copy> Indexed<A> {
    /// These rows, with room for one more, since there is one more wherever few become many.
    pub(super) fn of_few(alloc: A, rows: &[Row]) -> Result<Indexed<A>, AllocError>
        requires { AreSorted rows.now }
        ensures { IfOk result (λ indexed. indexed ≡ rows.now) }
    {
        let mut entries = IndexMap::new(alloc);
        let mut timers = Timers::new(alloc);
        let count = rows.len() + 1;
        entries.reserve(count)?;
        timers.reserve(count)?;
        for (id, entry) in rows {
            take_in(&mut entries, &mut timers, id, entry)?;
        }
        Ok(Indexed { entries, timers })
    }

    /// Takes all out; the room stays.
    pub(super) fn clear(&mut self)
        ensures { self.new ≡ [] }
    {
        self.timers.clear();
        self.entries.clear();
    }

    /// For how many there is memory: the greater of what the map and the timers have room for. The map may show less
    /// than it has once many were taken out.
    pub(super) fn capacity(&self) -> usize
        ensures { min (length self.now) 256 ≤ result }
    {
        self.entries.capacity().max(self.timers.capacity())
    }

    /// The invocation that has the identifier.
    pub(super) fn get(&self, id: &i8) -> Option<&Invocation>
        ensures { option_copied result ≡ entry_at self.now id.now }
    {
        self.entries.get(id)
    }

    /// Takes an invocation in that is Queued, under an identifier that is free and a number above all.
    pub(super) fn push(&mut self, id: i8, entry: Invocation) -> Result<(), AllocError>
        requires { IsNew self.old id entry }
        ensures ok { OnOk result (self.new ≡ self.old ++ (id, entry) ∷ []) }
        ensures err { OnErr result (self.new ≡ self.old) }
    {
        self.timers.reserve(self.entries.len() + 1)?;
        self.entries.insert(id, entry)?;
        Ok(())
    }

    /// Takes an invocation out, with its timer.
    pub(super) fn take_out(&mut self, id: &i8, entry: &Invocation)
        requires { entry_at self.old id.now ≡ Some entry.now }
        ensures { self.new ≡ without self.old id.now }
    {
        take_out(&mut self.entries, &mut self.timers, id, entry);
    }

    /// The identifier of an invocation that a result or an error closed waits for a Reject.
    pub(super) fn wait(&mut self, id: &i8, entry: Invocation, until: u64)
        requires until { until ≤ 2 * moment_limit }
        requires found { sent_at self.old id.now ≡ Some entry }
        ensures { self.new ≡ at_stage self.old id.now entry (Waiting until) }
    {
        wait(&mut self.entries, &mut self.timers, id, entry, until);
    }

    /// The message with the queued Invokes goes out at this moment: each gets its deadline.
    pub(super) fn send_queued(&mut self, clock: u64)
        requires { clock ≤ moment_limit }
        ensures { self.new ≡ sent_rows clock self.old }
    {
        send_queued(&mut self.entries, &mut self.timers, clock);
    }

    /// The moment at which time next changes something.
    #[tactic(auto, using(crate::proofs::TimelyLemmas::timely_rules))]
    pub(super) fn next_timer(&self) -> Option<u64>
        ensures { result ≡ next_timer_at self.now }
    {
        Some(self.timers.first()?.time)
    }

    /// How many Sent invocations have a deadline at most the clock.
    #[tactic(auto, using(crate::proofs::TimelyLemmas::timely_rules))]
    pub(super) fn due_count(&self, clock: u64) -> usize
        ensures { result ≡ length (due_at clock self.now) }
    {
        self.timers.due_count(clock)
    }

    /// The first Sent invocation, by deadline, then number, whose deadline is at most the clock.
    #[tactic(auto, using(crate::proofs::TimelyLemmas::timely_rules))]
    pub(super) fn first_due(&self, clock: u64) -> Option<Lapse>
        ensures { result ≡ first_due_at clock self.now }
    {
        self.timers.first_due(clock)
    }

    /// Takes out each invocation whose deadline, and each identifier whose wait, is over at the clock, and tells the
    /// former by deadline, then number, with all room found first.
    pub(super) fn lapse(&mut self, clock: u64) -> Result<Vec<Lapse, A>, OutOfMemory>
        ensures told { IfOk result (λ v. v.items ≡ told_at clock self.old) }
        ensures rows { OnOk result (self.new ≡ filter (λ r. stays clock r.1.stage) self.old) }
        ensures err { OnErr result (self.new ≡ self.old) }
        ensures memory { OnErr result (told_at clock self.old ≢ []) }
    {
        if !self.timers.is_due(clock) {
            return Ok(Vec::new(*self.entries.allocator()));
        }
        let told = self.timers.due_lapses(clock)?;
        self.timers.expire(clock);
        self.entries.retain(
            |_id: &i8, entry: &mut Invocation| -> bool
                ensures { (result ≡ stays clock entry.old.stage) × (entry.new ≡ entry.old) }
            { entry.stage.stays(clock) },
        );
        Ok(told)
    }

    /// The first timer runs out, if its moment is at most the clock.
    pub(super) fn expire_first(&mut self, clock: u64) -> Option<Expiry>
        ensures expiry { result ≡ first_expiry_at clock self.old }
        ensures rows { self.new ≡ rows_after clock self.old result }
    {
        let timer = *self.timers.first()?;
        if timer.is_later(clock) {
            return None;
        }
        if !timer.lapses {
            self.free_due(clock);
            return Some(Expiry::Wait);
        }
        take_timed(&mut self.entries, &mut self.timers, timer);
        Some(Expiry::Lapse(timer.lapse()))
    }

    /// Frees each identifier whose wait is over at the clock.
    pub(super) fn free_due(&mut self, clock: u64)
        ensures { self.new ≡ filter (λ r. is_held clock r.1.stage) self.old }
    {
        if !self.timers.is_due(clock) {
            return;
        }
        if self.timers.is_due_at(MANY - 1, clock) {
            self.free_all(clock);
        } else {
            self.free_each(clock);
        }
    }

    /// `free_due`, one by one.
    fn free_each(&mut self, clock: u64)
        ensures { self.new ≡ filter (λ r. is_held clock r.1.stage) self.old }
    {
        while self.free_first(clock) {}
    }

    /// Frees the first identifier whose wait is over at the clock: whether there was one.
    fn free_first(&mut self, clock: u64) -> bool
        ensures same { filter (λ r. is_held clock r.1.stage) self.new
            ≡ filter (λ r. is_held clock r.1.stage) self.old }
        ensures none { result ≡ false → filter (λ r. is_held clock r.1.stage) self.new ≡ self.new }
        ensures fewer { IsTrue result → length self.new < length self.old }
    {
        if !self.timers.is_due(clock) {
            return false;
        }
        let Some(timer) = self.timers.first_over(clock) else {
            return false;
        };
        let Some(entry) = self.entries.get(&timer.id).copied() else {
            return false;
        };
        take_out(&mut self.entries, &mut self.timers, &timer.id, &entry);
        true
    }

    /// `free_due`, by one walk through all.
    fn free_all(&mut self, clock: u64)
        ensures { self.new ≡ filter (λ r. is_held clock r.1.stage) self.old }
    {
        self.timers.end_waits(clock);
        self.entries.retain(
            |_id: &i8, entry: &mut Invocation| -> bool
                ensures { (result ≡ is_held clock entry.old.stage) × (entry.new ≡ entry.old) }
            { entry.stage.is_held(clock) },
        );
    }

    /// Whether each number is below this one.
    #[tactic(auto, using(crate::proofs::OrderLemmas::below_rules))]
    pub(super) fn are_below(&self, number: u64) -> bool
        ensures { IsTrue result ↔ AllBelow number self.now }
    {
        self.entries.values().all(|entry| entry.number < number)
    }

    /// What is told first at the end of the dialogue.
    pub(super) fn first_ended(&self) -> Option<(u64, i8)>
        ensures { result ≡ first_ended_at self.now }
    {
        for (id, entry) in self.entries.iter() {
            if let Some(one) = ended_of(id, entry) {
                return Some(one);
            }
        }
        None
    }

    /// How many invocations are Queued or Sent.
    pub(super) fn ended_count(&self) -> usize
        ensures { result ≡ length (ended_at self.now) }
    {
        self.entries
            .iter()
            .filter_map(|(id, entry)| ended_of(id, entry))
            .count()
    }

    /// What is told of each invocation at the end of the dialogue, with all room found first.
    pub(super) fn ended(&self) -> Result<Vec<(u64, i8), A>, OutOfMemory>
        ensures told { IfOk result (λ v. v.items ≡ ended_at self.now) }
        ensures memory { OnErr result (ended_at self.now ≢ []) }
    {
        let mut ended = Vec::with_capacity(*self.entries.allocator(), self.ended_count())?;
        for (id, entry) in self.entries.iter() {
            if let Some(one) = ended_of(id, entry) {
                ended.push_reserved(one);
            }
        }
        Ok(ended)
    }
}

//! `Engine::advance`: the clock goes to a moment, and what is due lapses or ends (own); and when that will be.

// Hints to inline: each step of an engine runs through it; docs/PERF.md says what the whole of it inlined gains.

ghost use Rattle.std.specs.Prelude.{◌≡◌, ◌≢◌, ◌≤◌, ◌⊎◌, ◌+◌, ◌-◌, ◌^◌, ◌++◌, [], ℕ, List, true, false, length, min, vec_capacity};
ghost use Rattle.std.specs.Prelude.{IfNone, IfSome, MatchOption, OnErr};
ghost use Rattle.tcap_engine.specs.DialogueEntries.{AreFrom, dialogues_of};
ghost use Rattle.tcap_engine.specs.HistoryForm.{Stands};
ghost use Rattle.tcap_engine.specs.IdleDialogues.{ends_in, idle_ids, left_by};
ghost use Rattle.tcap_engine.specs.Lapsing.{AreUntimed, IsExpired, IsFirstTimer, IsQuiet};
ghost use Rattle.tcap_engine.specs.NextTimer.{IsAccepted, IsStill, IsChanged, next_timer_in};
ghost use Rattle.tcap_engine.specs.StepForm.{EngineAnswers, outputs_answer, since_answer};
ghost use Rattle.tcap_invocation.specs.Stage.{moment_limit};
ghost use Rattle.tcap_model.specs.Table.Dialogue.{is_idle_at};
ghost use Rattle.tcap_model.specs.Table.DueLapses.{all_idle_told, all_told};
ghost use Rattle.tcap_model.specs.Table.EngineMove.{advanced, engine_move};
ghost use Rattle.tcap_model.specs.Words.Event.{Event};
ghost use Rattle.tcap_model.specs.Words.Output as model;
ghost use Rattle.tcap_primitives.specs.SinkViews.{KeepsOutputs};
ghost use Rattle.timed_table.specs.Row.{is_due};

use super::Engine;
use crate::dialogues::{Dialogues, end_all};
use std::alloc::Allocator;
use tcap_dialogue::{Dialogue, Fault, Output, Sink, SinkKind, Timer};
use tcap_invocation::MAX_MOMENT;

/// How much room the answer to a moment needs.
#[derive(Clone, Copy)]
pub(super) struct Capacity {
    /// For what is told.
    pub(super) told: usize,
    /// For the identifiers of the dialogues that have been idle too long.
    pub(super) idle: usize,
}

impl<A: Allocator + Copy> Engine<A> {
    /// The clock is at this moment, in milliseconds, at most 2^62: tells each invocation whose deadline
    /// was reached, by deadline, then dialogue, then number (TC-L-CANCEL indication), and frees each
    /// identifier that has waited. Then each dialogue that has been idle too long is over, by the moment
    /// at which it had, then dialogue: TC-P-ABORT indication, and each invocation that is left, by number;
    /// no message goes out (own). A moment below the clock does nothing. Faults: `MomentTooLate`,
    /// `OutOfMemory`.
    #[tactic(auto, using(crate::proofs::StandingLemmas::stands_after))]
    pub fn advance<'m>(&mut self, now: u64) -> Result<Vec<Output<'m, A>, A>, Fault>
        ensures moves { EngineAnswers outputs_answer result
            (engine_move self.old (Event.moment now)) self.old self.new }
        ensures err { OnErr result (self.new ≡ self.old) }
        // Whatever legal history the engine stood at: the reply, and the history that it stands at then.
        ensures stands { Stands outputs_answer result (Event.moment now) self.old self.new }
    {
        match self.pass_if_still(now) {
            Some(Ok(())) => Ok(Vec::new(self.table.allocator())),
            Some(Err(fault)) => Err(fault),
            None => self.expire_to_vector(now),
        }
    }

    /// The clock moves on to this moment, which isn't below it: what is due is told, in a vector.
    // Apart from `advance`, which mostly finds nothing due: such a moment takes 20 instructions less.
    #[inline(never)]
    fn expire_to_vector<'m>(&mut self, now: u64) -> Result<Vec<Output<'m, A>, A>, Fault>
        requires late { now ≤ moment_limit }
        requires up { self.old.clock ≤ now }
        ensures moves { EngineAnswers outputs_answer result (advanced self.old now) self.old self.new }
        ensures err { OnErr result (self.new ≡ self.old) }
    {
        let mut sink = Sink::vector(self.table.allocator());
        self.expire(now, &mut sink)?;
        Ok(sink.into_vector())
    }

    /// What is answered to a moment that is refused, or at which nothing is due: the clock is at it then, unless it is
    /// below. `None`, and nothing has changed, where the first timer was reached.
    #[tactic(auto, unfolding(tcap_model::specs::Table::EngineMove::engine_move))]
    #[inline(always)]
    pub(super) fn pass_if_still(&mut self, now: u64) -> Option<Result<(), Fault>>
        ensures answered { IfSome result (λ answer. (outputs : List model.Output) → EngineAnswers
            (since_answer outputs outputs) answer (engine_move self.old (Event.moment now)) self.old self.new) }
        ensures err { IfSome result (λ answer. OnErr answer (self.new ≡ self.old)) }
        ensures reached { IfNone result ((self.old.clock ≤ now) × (now ≤ moment_limit)
            × (engine_move self.old (Event.moment now) ≡ advanced self.old now)) }
        ensures same { IfNone result (self.new ≡ self.old) }
    {
        if now > MAX_MOMENT {
            return Some(Err(Fault::MomentTooLate));
        }
        if now < self.clock {
            return Some(Ok(()));
        }
        if self.has_reached(now) {
            return None;
        }
        self.clock = now;
        Some(Ok(()))
    }

    /// The least moment, in milliseconds, at which `advance` tells something, frees an identifier or ends a
    /// dialogue; `None` where none is. A caller may sleep until then. It takes no memory (our own).
    pub fn next_timer(&self) -> Option<u64>
        ensures value { result ≡ next_timer_in self.now }
        // A moment below it does nothing but set the clock; one from it on changes a dialogue.
        ensures before { (now : ℕ) → IsAccepted self.now now
            → is_due now result ≡ false → IsStill self.now now }
        ensures reached { (now : ℕ) → IsAccepted self.now now
            → is_due now result ≡ true → IsChanged self.now now }
    {
        let first = self.table.first_timer()?;
        if first.0 <= MAX_MOMENT {
            Some(first.0)
        } else {
            None
        }
    }

    /// Whether a moment has reached the first timer of all.
    #[inline(always)]
    fn has_reached(&self, now: u64) -> bool
        ensures { result ≡ false → IsAccepted self.now now → IsStill self.now now }
    {
        self.next_timer().is_some_and(|time| time <= now)
    }

    /// The clock moves on to this moment, which isn't below it: what is due is told.
    #[inline(always)]
    pub(super) fn expire<'m, K: SinkKind>(
        &mut self,
        now: u64,
        sink: &mut Sink<'m, A, K>,
    ) -> Result<(), Fault>
        requires late { now ≤ moment_limit }
        requires up { self.old.clock ≤ now }
        ensures moves { EngineAnswers (since_answer sink.old.outputs sink.new.outputs)
            result (advanced self.old now) self.old self.new }
        ensures kept { KeepsOutputs sink.old.outputs sink.new.outputs }
        ensures err { OnErr result (self.new ≡ self.old) }
        ensures still { OnErr result (sink.new.outputs ≡ sink.old.outputs) }
    {
        let room = self.table.capacity_at(now);
        let mut idle = Vec::with_capacity(self.table.allocator(), room.idle)?;
        sink.reserve(room.told, 0)?;
        tell_due(&mut self.table, now, sink, &mut idle);
        end_all(&mut self.table, &idle, sink);
        self.clock = now;
        Ok(())
    }
}

impl<A: Allocator + Copy> Dialogues<A> {
    /// The least timer of all, and of the dialogues that share it the least identifier.
    #[inline(always)]
    fn first_timer(&self) -> Option<(u64, u32)>
        ensures { MatchOption result (AreUntimed self.now) (IsFirstTimer self.now) }
    {
        self.rows.first()
    }

    /// Makes the next call for the dialogue of the first timer find it at once.
    #[inline(always)]
    fn find_first(&mut self)
        ensures { self.new ≡ self.old }
    {
        self.rows.find_first();
    }

    /// How much room the answer to a moment needs, as far as a `usize` can tell: none for outputs where
    /// nothing is told.
    // Inlined: apart it took 21 instructions a lapse.
    #[inline(always)]
    pub(super) fn capacity_at(&self, now: u64) -> Capacity
        ensures enough { length (all_told now (dialogues_of self.now)) + length
            (all_idle_told now (dialogues_of self.now)) ≤ result.told ⊎ (result.told ≡ 2 ^ 64 - 1) }
        ensures some { result.told ≢ 0 → all_told now (dialogues_of self.now)
            ++ all_idle_told now (dialogues_of self.now) ≢ [] }
        ensures idle { result.idle ≡ min (length (idle_ids now self.now)) (2 ^ 64 - 1) }
    {
        let mut told: usize = 0;
        let mut idle: usize = 0;
        for dialogue in self.rows.due(now) {
            told = told.saturating_add(dialogue.due_count(now));
            if is_idle(dialogue, now) {
                told = told.saturating_add(dialogue.open_count()).saturating_add(1);
                idle = idle.saturating_add(1);
            }
        }
        Capacity { told, idle }
    }
}

/// Whether a dialogue has been idle too long at a moment.
#[inline(always)]
fn is_idle<A: Allocator + Copy>(dialogue: &Dialogue<A>, now: u64) -> bool
    ensures { result ≡ is_idle_at now dialogue.now }
{
    dialogue.idle_at().is_some_and(|time| time <= now)
}

/// The first timer of all that runs out by a moment, and its dialogue.
#[inline(always)]
fn first_timer_by<A: Allocator + Copy>(table: &Dialogues<A>, now: u64) -> Option<(u64, u32)>
    ensures first { MatchOption result (IsQuiet now table.now) (IsFirstTimer table.now) }
    ensures reached { IfSome result (λ first. first.0 ≤ now) }
{
    let first = table.first_timer()?;
    if first.0 <= now { Some(first) } else { None }
}

/// The first timer of all runs out, if a moment has reached it: the identifier of its dialogue, and what it was of.
// In its one caller: apart, what it answers went through memory, and its many registers were kept twice for each lapse,
// for one that ran out and for none; 40 instructions a lapse.
#[inline(always)]
fn expire_first<'m, A: Allocator + Copy, K: SinkKind>(
    table: &mut Dialogues<A>,
    now: u64,
    sink: &mut Sink<'m, A, K>,
) -> Option<(u32, Timer)>
    requires from { AreFrom 0 table.old }
    requires late { now ≤ moment_limit }
    requires places { length (all_told now (dialogues_of table.old)) ≤ sink.old.places }
    ensures none { IfNone result (IsQuiet now table.old × (table.new ≡ table.old)) }
    ensures some { IfSome result (λ first. IsExpired now first.0 first.1 table.old table.new) }
    // What is told is what comes first at the moment.
    ensures told { sink.new.outputs ++ all_told now (dialogues_of table.new)
        ≡ sink.old.outputs ++ all_told now (dialogues_of table.old) }
    ensures places { sink.old.places + length (all_told now (dialogues_of table.new))
        ≤ sink.new.places + length (all_told now (dialogues_of table.old)) }
{
    let first = first_timer_by(table, now)?;
    table.find_first();
    let dialogue = table.rows.get_mut(first.1)?;
    let timer = dialogue.expire_first(now, sink)?;
    let next = dialogue.next_timer();
    table.rows.set_time(first.1, next);
    Some((first.1, timer))
}

/// Tells what lapses, earliest first, frees each identifier whose wait is over, and postpones the end of each
/// dialogue that has been idle too long: these are the identifiers, earliest first. There is room for all.
#[inline(always)]
fn tell_due<'m, A: Allocator + Copy, K: SinkKind>(
    table: &mut Dialogues<A>,
    now: u64,
    sink: &mut Sink<'m, A, K>,
    idle: &mut Vec<u32, A>,
)
    requires from { AreFrom 0 table.old }
    requires late { now ≤ moment_limit }
    requires places { length (all_told now (dialogues_of table.old)) ≤ sink.old.places }
    requires empty { idle.old.items ≡ [] }
    requires space { length (idle_ids now table.old) ≤ vec_capacity idle.old }
    ensures told { sink.new.outputs ≡ sink.old.outputs
        ++ all_told now (dialogues_of table.old) }
    ensures places { sink.old.places ≤ sink.new.places
        + length (all_told now (dialogues_of table.old)) }
    ensures idle { idle.new.items ≡ idle_ids now table.old }
    ensures ends { (id : ℕ) → ends_in now table.new id ≡ ends_in now table.old id }
    ensures left { left_by now (idle_ids now table.old) table.new ≡ left_by now (idle_ids now table.old) table.old }
    ensures quiet { IsQuiet now table.new }
    ensures from { AreFrom 0 table.new }
{
    while let Some((identifier, timer)) = expire_first(table, now, sink) {
        match timer {
            Timer::Lapse | Timer::Wait => {}
            Timer::Idle => idle.push_reserved(identifier),
        }
    }
}

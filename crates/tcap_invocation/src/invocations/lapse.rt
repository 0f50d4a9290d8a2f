//! What timers do to invocations: how they are set, which comes next, and what lapses (TC-L-CANCEL indication).

// Hints to inline: each step of an engine runs through it; docs/PERF.md says what the whole of it inlined gains.

ghost use Rattle.std.specs.Prelude.{◌≡◌, ◌≢◌, ◌≤◌, [], ◌∷◌, filter, length, OnOk, OnErr, IfOk, IfSome};
ghost use Rattle.tcap_invocation.specs.Expiries.{RunsOut, first_expiry_at, after_expiry, rows_after};
ghost use Rattle.tcap_invocation.specs.Invocations.{IsSound, after_sent, sent_rows};
ghost use Rattle.tcap_invocation.specs.Rows.{AreSorted};
ghost use Rattle.tcap_invocation.specs.Stage.{moment_limit};
ghost use Rattle.tcap_invocation.specs.Timers.{next_timer_at};
ghost use Rattle.tcap_invocation.specs.Lapses.{due_at, told_at, first_due_at, is_held, lapse_of, lapse_at, stays, after_lapse, after_lapse_one, after_free_due};

use super::rows::Rows;
use super::{Invocation, Invocations, Row, few, few_lapses};
use crate::stage::Stage;
use ber_core::OutOfMemory;
use std::alloc::Allocator;

/// An invocation whose deadline has come (TC-L-CANCEL indication). In order of deadline, then number.
#[derive(Clone, Copy, Debug, PartialEq, Eq, PartialOrd, Ord)]
pub struct Lapse {
    /// The moment at which it lapses, in milliseconds, at most 2^63.
    pub deadline: u64,
    /// Its number, which the TC-INVOKE request answered.
    pub number: u64,
    /// Its invoke identifier, -128 to 127.
    pub id: i8,
}

/// What a timer of the invocations of a dialogue is of.
#[derive(Clone, Copy, Debug, PartialEq, Eq)]
pub enum Expiry {
    /// An invocation lapses (Q.774, Invocation timer; TC-L-CANCEL indication).
    Lapse(Lapse),
    /// Identifiers are free that have waited for a Reject (Q.774, Reject timer).
    Wait,
}

impl<A: Allocator + Copy> Invocations<A> {
    /// The message with the queued Invokes goes out at this moment, at most 2^62: each gets its deadline.
    #[inline(always)]
    pub fn sent(&mut self, clock: u64)
        requires { clock ≤ moment_limit }
        ensures { self.new ≡ after_sent self.old clock }
    {
        self.rows.send_queued(clock);
    }

    /// The moment at which time next changes something: the least deadline of a Sent invocation or end of
    /// the wait of an identifier, in milliseconds, at most 2^63. Nothing where there is none. It takes no
    /// memory (own).
    #[tactic(auto, using(crate::proofs::TimelyLemmas::timely_rules))]
    #[inline(always)]
    pub fn next_timer(&self) -> Option<u64>
        ensures { result ≡ next_timer_at self.now.rows }
    {
        self.rows.next_timer()
    }

    /// How many Sent invocations have a deadline at most the clock.
    #[inline(always)]
    pub fn due_count(&self, clock: u64) -> usize
        ensures { result ≡ length (due_at clock self.now.rows) }
    {
        self.rows.due_count(clock)
    }

    /// The first timer by its moment, then number, runs out, if its moment is at most the clock: the invocation
    /// lapses, or each identifier whose wait is over at the clock is free. What it was of, or nothing where no moment
    /// is reached. It takes no memory.
    #[inline(always)]
    pub fn expire_first(&mut self, clock: u64) -> Option<Expiry>
        ensures expiry { result ≡ first_expiry_at clock self.old.rows }
        ensures list { self.new ≡ after_expiry self.old clock result }
        // What lapses and what is left from then on is the same.
        ensures rest { RunsOut clock result self.old self.new }
    {
        self.expire_row(clock)
    }

    /// `expire_first`, by the rows.
    #[inline(always)]
    fn expire_row(&mut self, clock: u64) -> Option<Expiry>
        ensures expiry { result ≡ first_expiry_at clock self.old.rows }
        ensures list { self.new ≡ after_expiry self.old clock result }
        ensures sound { IsSound self.old }
    {
        self.rows.expire_first(clock)
    }

    /// The clock is at this moment: takes out each Sent invocation whose deadline is at most the clock,
    /// told by deadline, then number, and untold each identifier whose wait is over by then.
    pub fn lapse(&mut self, clock: u64) -> Result<Vec<Lapse, A>, OutOfMemory>
        ensures told { IfOk result (λ v. v.items ≡ told_at clock self.old.rows) }
        ensures list { OnOk result (self.new ≡ after_lapse self.old clock) }
        ensures err { OnErr result (self.new ≡ self.old) }
        ensures memory { OnErr result (told_at clock self.old.rows ≢ []) }
    {
        self.rows.lapse(clock)
    }

    /// The Sent invocation whose deadline comes first, by deadline, then number, if it is at most the clock.
    pub fn first_due(&self, clock: u64) -> Option<Lapse>
        ensures { result ≡ first_due_at clock self.now.rows }
    {
        self.rows.first_due(clock)
    }

    /// Takes out the Sent invocation with the identifier, if its deadline is at most the clock.
    #[tactic(auto, using(crate::proofs::TellingLemmas::lapse_rules))]
    pub fn lapse_one(&mut self, id: i8, clock: u64) -> Option<Lapse>
        ensures lapse { result ≡ lapse_at clock self.old.rows id }
        ensures list { self.new ≡ after_lapse_one self.old id clock }
        // If it is the first that is due, what is told from here on is the rest.
        ensures first { IfSome (first_due_at clock self.old.rows) (λ l. l.id ≡ id
            → told_at clock self.old.rows ≡ l ∷ told_at clock self.new.rows) }
        // What all lapses together leave is the same.
        ensures rest { after_lapse self.new clock ≡ after_lapse self.old clock }
    {
        self.take_due(id, clock)
    }

    /// `lapse_one`, row by row.
    fn take_due(&mut self, id: i8, clock: u64) -> Option<Lapse>
        ensures lapse { result ≡ lapse_at clock self.old.rows id }
        ensures list { self.new ≡ after_lapse_one self.old id clock }
        ensures sound { IsSound self.old }
    {
        let entry = *self.rows.get(&id)?;
        let lapse = lapse_of(&id, &entry, clock)?;
        self.rows.take_out(&id, &entry);
        Some(lapse)
    }

    /// Frees each identifier whose wait is over at the clock.
    pub fn free_due(&mut self, clock: u64)
        ensures { self.new ≡ after_free_due self.old clock }
    {
        self.rows.free_due(clock);
    }
}

impl<A: Allocator + Copy> Rows<A> {
    /// The message with the queued Invokes goes out at this moment: each gets its deadline.
    #[inline(always)]
    pub(super) fn send_queued(&mut self, clock: u64)
        requires { clock ≤ moment_limit }
        ensures { self.new ≡ sent_rows clock self.old }
    {
        match &mut self.many {
            None => few::send_queued(&mut self.few, clock),
            Some(many) => many.send_queued(clock),
        }
    }

    /// The moment at which time next changes something.
    #[inline(always)]
    pub(super) fn next_timer(&self) -> Option<u64>
        ensures { result ≡ next_timer_at self.now }
    {
        match &self.many {
            None => next_timer_of(&self.few),
            Some(many) => many.next_timer(),
        }
    }

    /// How many Sent invocations have a deadline at most the clock.
    #[inline(always)]
    pub(super) fn due_count(&self, clock: u64) -> usize
        ensures { result ≡ length (due_at clock self.now) }
    {
        match &self.many {
            None => few::due_count(&self.few, clock),
            Some(many) => many.due_count(clock),
        }
    }

    /// The first Sent invocation, by deadline, then number, whose deadline is at most the clock.
    pub(super) fn first_due(&self, clock: u64) -> Option<Lapse>
        ensures { result ≡ first_due_at clock self.now }
    {
        match &self.many {
            None => few_lapses::first_due(&self.few, clock),
            Some(many) => many.first_due(clock),
        }
    }

    /// Takes out each invocation whose deadline, and each identifier whose wait, is over at the clock, and tells the
    /// former by deadline, then number.
    pub(super) fn lapse(&mut self, clock: u64) -> Result<Vec<Lapse, A>, OutOfMemory>
        ensures told { IfOk result (λ v. v.items ≡ told_at clock self.old) }
        ensures rows { OnOk result (self.new ≡ filter (λ r. stays clock r.1.stage) self.old) }
        ensures err { OnErr result (self.new ≡ self.old) }
        ensures memory { OnErr result (told_at clock self.old ≢ []) }
    {
        match &mut self.many {
            None => few_lapses::lapse(&mut self.few, clock),
            Some(many) => many.lapse(clock),
        }
    }

    /// The first timer runs out, if its moment is at most the clock.
    #[inline(always)]
    pub(super) fn expire_first(&mut self, clock: u64) -> Option<Expiry>
        ensures expiry { result ≡ first_expiry_at clock self.old }
        ensures rows { self.new ≡ rows_after clock self.old result }
        // What all rows keep.
        ensures sorted { AreSorted self.old }
    {
        match &mut self.many {
            None => few::expire_first(&mut self.few, clock),
            Some(many) => many.expire_first(clock),
        }
    }

    /// Takes out each identifier whose wait is over at the clock.
    pub(super) fn free_due(&mut self, clock: u64)
        ensures { self.new ≡ filter (λ r. is_held clock r.1.stage) self.old }
    {
        match &mut self.many {
            None => few::free_due(&mut self.few, clock),
            Some(many) => many.free_due(clock),
        }
    }
}

/// The moment at which time next changes something in few invocations.
#[inline(always)]
fn next_timer_of(rows: &[Row]) -> Option<u64>
    ensures { result ≡ next_timer_at rows.now }
{
    let mut least: Option<u64> = None;
    for row in rows {
        let time = match row.1.stage {
            Stage::Queued(_) => continue,
            Stage::Sent(time) | Stage::Waiting(time) => time,
        };
        if least.is_none_or(|least| time < least) {
            least = Some(time);
        }
    }
    least
}

/// What is told of an invocation, if its deadline is at most the clock.
pub(super) fn lapse_of(id: &i8, entry: &Invocation, clock: u64) -> Option<Lapse>
    ensures { result ≡ lapse_of clock (id.now, entry.now) }
{
    let deadline = entry.stage.due_deadline(clock)?;
    Some(Lapse {
        deadline,
        number: entry.number,
        id: *id,
    })
}

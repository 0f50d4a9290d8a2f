//! What lapses with time, invocation by invocation, and how a dialogue ends that stays idle.

// Hints to inline: each step of an engine runs through it; docs/PERF.md says what the whole of it inlined gains.

ghost use Rattle.std.specs.Prelude.{◌≡◌, ◌≢◌, ◌≤◌, ◌+◌, ◌++◌, [], ◌∷◌, length, IfSome, IfOk, OnOk, OnErr};
ghost use Rattle.tcap_dialogue.specs.Timers.{after_timer, earliest, expiry_by, first_by, idle_by, lapse_told, timer_of};
ghost use Rattle.tcap_invocation.specs.Closing.{ended_at, first_ended_at, after_close_one};
ghost use Rattle.tcap_invocation.specs.Expiries.{RunsOut, after_expiry, lapse_in};
ghost use Rattle.tcap_invocation.specs.Lapses.{due_at, told_at, first_due_at, lapse_at, after_lapse, after_lapse_one, after_free_due};
ghost use Rattle.tcap_invocation.specs.Stage.{moment_limit};
ghost use Rattle.tcap_invocation.specs.Timers.{next_timer_at};
ghost use Rattle.tcap_model.specs.Table.Dialogue.{idle_end, touched_at, with_invocations};
ghost use Rattle.tcap_model.specs.Table.TableMove.{ended_told};
ghost use Rattle.tcap_model.specs.Words.Output as model;
ghost use Rattle.tcap_model.specs.Words.Output.{AbortCause, DialogueIndication};

use super::Dialogue;
use super::ended_invocations::tell_ended;
use ber_core::OutOfMemory;
use std::alloc::Allocator;
use tcap_invocation::{Expiry, Lapse};
use tcap_primitives::{Indication, Sink, SinkKind, Why};

/// What a timer of a dialogue is of.
#[derive(Clone, Copy, Debug, PartialEq, Eq)]
pub enum Timer {
    /// An invocation lapses (Q.774, Invocation timer).
    Lapse,
    /// Identifiers are free that have waited for a Reject (Q.774, Reject timer).
    Wait,
    /// The dialogue has been idle too long (own).
    Idle,
}

/// The earlier of two moments, of which each may be absent.
#[inline(always)]
fn earliest(first: Option<u64>, second: Option<u64>) -> Option<u64>
    ensures { result ≡ earliest first second }
{
    match (first, second) {
        (None, other) | (other, None) => other,
        (Some(one), Some(other)) => Some(if other < one { other } else { one }),
    }
}

impl<A: Allocator + Copy> Dialogue<A> {
    /// The clock is at this moment: takes out each Sent invocation whose deadline is at most the clock,
    /// told by deadline, then number, and untold each identifier whose wait is over by then
    /// (TC-L-CANCEL indication).
    pub fn lapse(&mut self, clock: u64) -> Result<Vec<Lapse, A>, OutOfMemory>
        ensures told { IfOk result (λ lapses. lapses.items ≡ told_at clock self.old.invocations.rows) }
        ensures dialogue { OnOk result (self.new
            ≡ with_invocations self.old (after_lapse self.old.invocations clock)) }
        ensures err { OnErr result (self.new ≡ self.old) }
        ensures memory { OnErr result (told_at clock self.old.invocations.rows ≢ []) }
    {
        self.invocations.lapse(clock)
    }

    /// The moment at which time next changes something: the least deadline of a Sent invocation or end of
    /// the wait of an identifier, or the moment at which the dialogue has been idle too long, in
    /// milliseconds, at most 2^63. Nothing where there is none. It takes no memory (own).
    #[inline(always)]
    pub fn next_timer(&self) -> Option<u64>
        ensures { result ≡ earliest (next_timer_at self.now.invocations.rows) (idle_end self.now) }
    {
        earliest(self.invocations.next_timer(), self.idle_at())
    }

    /// The moment at which the dialogue has been idle too long: its idle limit after its last activity,
    /// in milliseconds, at most 2^63. Nothing unless it is Sent or Active and has an idle limit. It takes
    /// no memory (own).
    pub fn idle_at(&self) -> Option<u64>
        ensures { result ≡ idle_end self.now }
    {
        if self.phase.is_live() && 0 < self.idle_ms {
            Some(self.touched + self.idle_ms)
        } else {
            None
        }
    }

    /// The moment at which the dialogue had been idle too long, if the clock has reached it.
    #[inline(always)]
    fn idle_by(&self, clock: u64) -> Option<u64>
        ensures { result ≡ idle_by clock self.now }
    {
        let time = self.idle_at()?;
        if time <= clock { Some(time) } else { None }
    }

    /// The first timer runs out, if its moment is at most the clock, which is at most 2^62: an invocation lapses, which
    /// is told (TC-L-CANCEL indication), or each identifier whose wait is over then is free, or the end of the
    /// dialogue, which has been idle too long, is put off as by `touch`. At one moment the idle limit comes last. What
    /// it was of, or nothing where no moment is reached. There is room for all that lapses by the clock. It takes no
    /// memory.
    pub fn expire_first<'m, K: SinkKind>(
        &mut self,
        clock: u64,
        sink: &mut Sink<'m, A, K>,
    ) -> Option<Timer>
        requires clock { clock ≤ moment_limit }
        requires places { length (told_at clock self.old.invocations.rows) ≤ sink.old.places }
        ensures timer { result ≡ timer_of (expiry_by clock self.old) (idle_by clock self.old) }
        ensures dialogue { self.new ≡ after_timer clock (expiry_by clock self.old) (idle_by clock self.old) self.old }
        ensures told { sink.new.outputs ≡ sink.old.outputs
            ++ lapse_told self.old.standing.identifier (lapse_in (expiry_by clock self.old)) }
        ensures places { sink.old.places ≤ sink.new.places + length
            (lapse_told self.old.standing.identifier (lapse_in (expiry_by clock self.old))) }
        // What lapses and what is left from then on is the same.
        ensures rest { RunsOut (first_by clock self.old) (expiry_by clock self.old) self.old.invocations
            (after_expiry self.old.invocations (first_by clock self.old) (expiry_by clock self.old)) }
    {
        let idle = self.idle_by(clock);
        match self.invocations.expire_first(idle.unwrap_or(clock)) {
            Some(Expiry::Lapse(lapse)) => {
                sink.tell(Indication::Lapsed {
                    dialogue: self.identifier,
                    number: lapse.number,
                    id: lapse.id,
                });
                Some(Timer::Lapse)
            }
            Some(Expiry::Wait) => Some(Timer::Wait),
            None => {
                idle?;
                self.touch(clock);
                Some(Timer::Idle)
            }
        }
    }

    /// The idle timer starts anew at this moment of the clock, at most 2^62: for a caller that puts its
    /// end off until all lapses of the moment are told. It takes no memory (own).
    #[inline(always)]
    pub fn touch(&mut self, clock: u64)
        requires { clock ≤ moment_limit }
        ensures { self.new ≡ touched_at self.old clock }
    {
        self.touched = clock;
    }

    /// How many invocations are Queued or Sent: so many are told at the end of the dialogue. It takes no
    /// memory.
    pub fn open_count(&self) -> usize
        ensures { result ≡ length (ended_at self.now.invocations.rows) }
    {
        self.invocations.open_count()
    }

    /// The dialogue is over: takes out the first invocation that is Queued or Sent and gives its number
    /// and identifier, or nothing where there is none. It takes no memory.
    pub fn close_one(&mut self) -> Option<(u64, i8)>
        ensures told { result ≡ first_ended_at self.old.invocations.rows }
        ensures dialogue { self.new ≡ with_invocations self.old (after_close_one self.old.invocations) }
        // What is told from here on is the rest.
        ensures rest { IfSome result (λ one. ended_at self.old.invocations.rows
            ≡ one ∷ ended_at self.new.invocations.rows) }
    {
        self.invocations.close_one()
    }

    /// The dialogue has been idle too long and is over: TC-P-ABORT, and each invocation that is left, by number; there
    /// is room for all. It takes no memory (own).
    pub fn abort_idle<'m, K: SinkKind>(&mut self, sink: &mut Sink<'m, A, K>)
        requires { 1 + length (ended_at self.old.invocations.rows) ≤ sink.old.places }
        ensures told { sink.new.outputs ≡ sink.old.outputs
            ++ model.Output.dialogue (DialogueIndication.p_abort self.old.standing.identifier AbortCause.idle)
            ∷ ended_told self.old.standing.identifier self.old.invocations }
        ensures places { sink.old.places
            ≤ sink.new.places + (1 + length (ended_at self.old.invocations.rows)) }
    {
        sink.tell(Indication::PAbort {
            dialogue: self.identifier,
            why: Why::Idle,
        });
        tell_ended(self.identifier, &mut self.invocations, sink);
    }

    /// How many Sent invocations have a deadline at most the clock, in milliseconds.
    pub fn due_count(&self, clock: u64) -> usize
        ensures { result ≡ length (due_at clock self.now.invocations.rows) }
    {
        self.invocations.due_count(clock)
    }

    /// The Sent invocation whose deadline comes first, by deadline, then number, if it is at most the clock.
    pub fn first_due(&self, clock: u64) -> Option<Lapse>
        ensures { result ≡ first_due_at clock self.now.invocations.rows }
    {
        self.invocations.first_due(clock)
    }

    /// Takes out the Sent invocation with the identifier, if its deadline is at most the clock, in milliseconds.
    pub fn lapse_one(&mut self, id: i8, clock: u64) -> Option<Lapse>
        ensures lapse { result ≡ lapse_at clock self.old.invocations.rows id }
        ensures dialogue { self.new ≡ with_invocations self.old (after_lapse_one self.old.invocations id clock) }
        // If it is the first that is due, what is told from here on is the rest.
        ensures first { IfSome (first_due_at clock self.old.invocations.rows) (λ l. l.id ≡ id
            → told_at clock self.old.invocations.rows ≡ l ∷ told_at clock self.new.invocations.rows) }
        // What all lapses together leave is the same.
        ensures rest { after_lapse self.new.invocations clock ≡ after_lapse self.old.invocations clock }
    {
        self.invocations.lapse_one(id, clock)
    }

    /// Frees each identifier whose wait is over at the clock, in milliseconds.
    pub fn free_due(&mut self, clock: u64)
        ensures { self.new ≡ with_invocations self.old (after_free_due self.old.invocations clock) }
    {
        self.invocations.free_due(clock)
    }
}

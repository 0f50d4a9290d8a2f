//! The invocations of one dialogue (Q.774, Invocation state machine).

// Hints to inline: each step of an engine runs through it; docs/PERF.md says what the whole of it inlined gains.

ghost use Rattle.std.specs.Prelude.{◌≡◌, ◌↔◌, ◌≤◌, min, length, [], None, is_some, IsSome, IfSome, IfNone, OnOk, OnErr, IsErrOf, IsOkUnless, IsTrue, Err};
ghost use Rattle.tcap_invocation.specs.Invocations.{InvocationList, AllBelow, IsSound, entry_at, add_fault, added};
ghost use Rattle.tcap_invocation.specs.Stage.{moment_limit, IsTimeout};

pub(crate) mod answers;
pub(crate) mod closing;
mod few;
mod few_lapses;
mod indexed;
pub(crate) mod lapse;
mod rows;
mod timers;

use crate::class::Class;
use crate::fault::AddFault;
use crate::stage::{MAX_MOMENT, Stage};
use rows::Rows;
use std::alloc::{AllocError, Allocator, Global};
use std::marker::Model;

/// What is known of an invoke identifier that is in use.
#[derive(Clone, Copy, Debug)]
struct Invocation {
    number: u64,
    class: Class,
    stage: Stage,
}

/// An invoke identifier, and what is known of it.
type Row = (i8, Invocation);

/// How many identifiers there are (Q.773, Invoke ID: one octet).
const IDENTIFIERS: usize = 256;

/// The invocations of one dialogue (Q.774, Invocation state machine), by rising number.
///
/// - Requests of the TC-user and of the dialogue: `add`, `add_free`, `sent`, `give_up`, `free_wait`, `close_all`, or
///   one by one `open_count` and `close_one`; `renew` for the next dialogue.
/// - Answers that were received: `on_result`, `on_error`, `on_reject`.
/// - Time: `lapse`; or timer by timer `expire_first`; or one by one `due_count`, `first_due`, `lapse_one` and
///   `free_due`. `next_timer` tells when it next changes something.
/// - Getters: `is_open`, `in_use`, `is_above_all`, `capacity`.
///
/// Moments and lengths of time are in milliseconds by the caller's clock. A contract sees the length of
/// the wait and the rows, and forgets how they are kept and how much room there is.
#[derive(Debug, Drop)]
pub struct Invocations<A: Allocator + Copy = Global> {
    rows: Rows<A>,
    reject_ms: u64,
}

impl<A: Allocator + Copy> Model for Invocations<A> {
    ghost use Rattle.std.specs.Prelude.{◌≤◌};
    ghost use Rattle.tcap_invocation.specs.Invocations.{InvocationList};
    ghost use Rattle.tcap_invocation.specs.Stage.{moment_limit};

    ghost Value = { InvocationList };

    ghost view = { λ v. record { reject_ms = v.reject_ms; rows = v.rows } };

    ghost invariant = { λ v. v.reject_ms ≤ moment_limit };
}

impl<A: Allocator + Copy> Invocations<A> {
    /// No invocation. `reject_ms` is how long an identifier waits for a Reject of its result or error,
    /// 0 to 2^62 (Q.774, Reject timer; the length is our own).
    #[inline(always)]
    pub fn new(alloc: A, reject_ms: u64) -> Self
        requires { reject_ms ≤ moment_limit }
        ensures { result ≡ record { reject_ms = reject_ms; rows = [] } }
    {
        Invocations {
            rows: Rows::new(alloc),
            reject_ms,
        }
    }

    /// No invocation any more, and a wait of this length, 0 to 2^62, as `new` gives; the room stays.
    #[inline(always)]
    pub fn renew(&mut self, reject_ms: u64)
        requires { reject_ms ≤ moment_limit }
        ensures { self.new ≡ record { reject_ms = reject_ms; rows = [] } }
    {
        self.rows.clear();
        self.reject_ms = reject_ms;
    }

    /// For how many invocations there is memory, at most 256, the number of identifiers. Where there were more than
    /// eight it may show less than there is once many were taken out; after `renew` it shows all, and 0 where there is
    /// none. A contract sees the rows alone.
    #[inline(always)]
    pub fn capacity(&self) -> usize
        ensures least { min (length self.now.rows) 256 ≤ result }
        ensures most { result ≤ 256 }
    {
        self.rows.capacity().min(IDENTIFIERS)
    }

    /// Whether the identifier is in use, in any stage.
    #[inline(always)]
    pub fn in_use(&self, id: i8) -> bool
        ensures value { result ≡ is_some (entry_at self.now.rows id) }
        // What every list keeps.
        ensures sound { IsSound self.now }
    {
        self.rows.get(&id).is_some()
    }

    /// Whether the number is above all in the list, as `add` needs it.
    #[tactic(auto, using(crate::proofs::OrderLemmas::below_rules))]
    #[inline(always)]
    pub fn is_above_all(&self, number: u64) -> bool
        ensures { IsTrue result ↔ AllBelow number self.now.rows }
    {
        self.rows.are_below(number)
    }

    /// Takes an invocation in, Queued until the next message goes out. `number` is above all in the
    /// list, `timeout` is 1 to 2^62 (TC-INVOKE request).
    pub fn add(&mut self, id: i8, number: u64, class: Class, timeout: u64) -> Result<(), AddFault>
        requires { AllBelow number self.old.rows }
        ensures ok { OnOk result (self.new ≡ added self.old id number class timeout) }
        ensures err { OnErr result (self.new ≡ self.old) }

        // The refusal that is due comes, and where none is due only `OutOfMemory`.
        ensures due { IfSome (add_fault self.old.rows id timeout) (λ fault. result ≡ Err fault) }
        ensures memory { IfNone (add_fault self.old.rows id timeout) (IsOkUnless result AddFault.OutOfMemory) }

        // The same, refusal by refusal.
        ensures bad_timeout { IsErrOf result AddFault.BadTimeout ↔ ¬ IsTimeout timeout }
        ensures in_use { IsErrOf result AddFault.InUse ↔ (IsTimeout timeout × IsSome (entry_at self.old.rows id)) }
    {
        if timeout == 0 || timeout > MAX_MOMENT {
            return Err(AddFault::BadTimeout);
        }
        if self.rows.get(&id).is_some() {
            return Err(AddFault::InUse);
        }
        self.add_free(id, number, class, timeout)?;
        Ok(())
    }

    /// `add`, where the timeout is in its range and the identifier is free.
    // Who has judged an Invoke doesn't have its identifier looked for again.
    #[inline(always)]
    pub fn add_free(
        &mut self,
        id: i8,
        number: u64,
        class: Class,
        timeout: u64,
    ) -> Result<(), AllocError>
        requires above { AllBelow number self.old.rows }
        requires free { add_fault self.old.rows id timeout ≡ None }
        ensures ok { OnOk result (self.new ≡ added self.old id number class timeout) }
        ensures err { OnErr result (self.new ≡ self.old) }
    {
        let entry = Invocation {
            number,
            class,
            stage: Stage::Queued(timeout),
        };
        self.rows.push(id, entry)
    }
}

//! What closes an invocation but an answer or time, and what frees its identifier.

// Hints to inline: each step of an engine runs through it; docs/PERF.md says what the whole of it inlined gains.

ghost use Rattle.std.specs.Prelude.{◌≡◌, ◌≢◌, [], ◌∷◌, length, is_some, OnOk, OnErr, IfOk, IfSome};
ghost use Rattle.tcap_invocation.specs.Invocations.{IsSound, entry_at, passing};
ghost use Rattle.tcap_invocation.specs.Rows.{AreSorted};
ghost use Rattle.tcap_invocation.specs.Stage.{is_waiting};
ghost use Rattle.tcap_invocation.specs.Closing.{given_up_at, after_give_up, after_free_wait, ended_of, ended_at, first_ended_at, after_close_one, after_close};

use super::rows::Rows;
use super::{Invocation, Invocations, few};
use crate::stage::Stage;
use ber_core::OutOfMemory;
use std::alloc::Allocator;

impl<A: Allocator + Copy> Invocations<A> {
    /// The TC-user gives up the Queued or Sent invocation with the identifier: its number
    /// (TC-U-CANCEL request). The identifier is free at once.
    pub fn give_up(&mut self, id: i8) -> Option<u64>
        ensures number { result ≡ given_up_at self.old.rows id }
        ensures list { self.new ≡ after_give_up self.old id }
    {
        let entry = *self.rows.get(&id)?;
        match entry.stage {
            Stage::Queued(_) | Stage::Sent(_) => {
                self.rows.take_out(&id, &entry);
                Some(entry.number)
            }
            Stage::Waiting(_) => None,
        }
    }

    /// The TC-user rejects the result or error of the identifier, which ends its wait: whether it waited
    /// (TC-U-REJECT request).
    pub fn free_wait(&mut self, id: i8) -> bool
        ensures value { result ≡ is_some (passing is_waiting (entry_at self.old.rows id)) }
        ensures list { self.new ≡ after_free_wait self.old id }
    {
        let Some(entry) = self.rows.get(&id).copied() else {
            return false;
        };
        match entry.stage {
            Stage::Waiting(_) => {
                self.rows.take_out(&id, &entry);
                true
            }
            Stage::Queued(_) | Stage::Sent(_) => false,
        }
    }

    /// The dialogue is over: the number and identifier of each Queued or Sent invocation, by number. All
    /// identifiers are free afterwards.
    pub fn close_all(&mut self) -> Result<Vec<(u64, i8), A>, OutOfMemory>
        ensures told { IfOk result (λ v. v.items ≡ ended_at self.old.rows) }
        ensures list { OnOk result (self.new ≡ after_close self.old) }
        ensures err { OnErr result (self.new ≡ self.old) }
        ensures memory { OnErr result (ended_at self.old.rows ≢ []) }
    {
        let ended = self.rows.ended()?;
        self.rows.clear();
        Ok(ended)
    }

    /// How many invocations are Queued or Sent: so many are told at the end of the dialogue.
    #[inline(always)]
    pub fn open_count(&self) -> usize
        ensures { result ≡ length (ended_at self.now.rows) }
    {
        self.rows.ended_count()
    }

    /// The dialogue is over: takes out the first invocation that is Queued or Sent and gives its number
    /// and identifier, or nothing where there is none. It takes no memory.
    #[inline(always)]
    pub fn close_one(&mut self) -> Option<(u64, i8)>
        ensures told { result ≡ first_ended_at self.old.rows }
        ensures list { self.new ≡ after_close_one self.old }
        // What is told from here on is the rest.
        ensures rest { IfSome result (λ one. ended_at self.old.rows ≡ one ∷ ended_at self.new.rows) }
    {
        self.take_ended()
    }

    /// `close_one`, row by row.
    #[inline(always)]
    fn take_ended(&mut self) -> Option<(u64, i8)>
        ensures told { result ≡ first_ended_at self.old.rows }
        ensures list { self.new ≡ after_close_one self.old }
        ensures sound { IsSound self.old }
    {
        let (number, id) = self.rows.first_ended()?;
        let entry = *self.rows.get(&id)?;
        self.rows.take_out(&id, &entry);
        Some((number, id))
    }
}

impl<A: Allocator + Copy> Rows<A> {
    /// What is told first at the end of the dialogue.
    #[inline(always)]
    pub(super) fn first_ended(&self) -> Option<(u64, i8)>
        ensures told { result ≡ first_ended_at self.now }
        // What all rows keep.
        ensures sorted { AreSorted self.now }
    {
        match &self.many {
            None => few::first_ended(&self.few),
            Some(many) => many.first_ended(),
        }
    }

    /// How many invocations are Queued or Sent.
    #[inline(always)]
    pub(super) fn ended_count(&self) -> usize
        ensures { result ≡ length (ended_at self.now) }
    {
        match &self.many {
            None => few::ended_count(&self.few),
            Some(many) => many.ended_count(),
        }
    }

    /// What is told of each invocation at the end of the dialogue, with all room found first.
    pub(super) fn ended(&self) -> Result<Vec<(u64, i8), A>, OutOfMemory>
        ensures told { IfOk result (λ v. v.items ≡ ended_at self.now) }
        ensures memory { OnErr result (ended_at self.now ≢ []) }
    {
        match &self.many {
            None => few::ended(*self.few.allocator(), &self.few),
            Some(many) => many.ended(),
        }
    }
}

/// What is told of an invocation at the end of the dialogue.
#[inline(always)]
pub(super) fn ended_of(id: &i8, entry: &Invocation) -> Option<(u64, i8)>
    ensures { result ≡ ended_of (id.now, entry.now) }
{
    match entry.stage {
        Stage::Queued(_) | Stage::Sent(_) => Some((entry.number, *id)),
        Stage::Waiting(_) => None,
    }
}

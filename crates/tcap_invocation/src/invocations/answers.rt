//! The invocation under an identifier, and received results, errors and Rejects, by its class.

// Hints to inline: each step of an engine runs through it; docs/PERF.md says what the whole of it inlined gains.

ghost use Rattle.std.specs.Prelude.{◌≡◌, ◌≤◌, ◌*◌, Some, is_some, option_copied};
ghost use Rattle.tcap_invocation.specs.declared.stage.Stage.TheVariants.{Waiting};
ghost use Rattle.tcap_invocation.specs.Invocations.{at_stage, entry_at, sent_at};
ghost use Rattle.tcap_invocation.specs.Rows.{AreSorted};
ghost use Rattle.tcap_invocation.specs.Class.{return_result};
ghost use Rattle.tcap_invocation.specs.Class.Received.{return_error};
ghost use Rattle.tcap_invocation.specs.Answers.{verdict_on, after_received, rejected_at, after_reject};
ghost use Rattle.tcap_invocation.specs.Stage.{moment_limit};

use super::rows::Rows;
use super::{Invocation, Invocations, few};
use crate::stage::Stage;
use std::alloc::Allocator;
use tcap_component::Kind;

/// What a received result or error is for its identifier (Q.774, Component sublayer procedures).
#[derive(Clone, Copy, Debug, PartialEq, Eq)]
pub enum Verdict {
    /// It is for the Sent invocation of this number, whose class has it.
    Good(u64),
    /// It is for the Sent invocation of this number, whose class doesn't have it; that closes it.
    Unexpected(u64),
    /// No invocation with the identifier is Sent.
    Unknown,
}

impl<A: Allocator + Copy> Invocations<A> {
    /// Whether an invocation with the identifier is Sent, so that a result or an error is for it.
    pub fn is_open(&self, id: i8) -> bool
        ensures { result ≡ is_some (sent_at self.now.rows id) }
    {
        sent_at(&self.rows, &id).is_some()
    }

    /// A Return Result was received at this moment, at most 2^62; `last` tells Last from Not Last.
    #[inline(always)]
    pub fn on_result(&mut self, id: i8, last: bool, clock: u64) -> Verdict
        requires { clock ≤ moment_limit }
        ensures verdict { result ≡ verdict_on self.old.rows id (return_result last) }
        ensures list { self.new ≡ after_received self.old id (return_result last) clock }
    {
        let Some(entry) = sent_at(&self.rows, &id) else {
            return Verdict::Unknown;
        };
        if !entry.class.reports_success() {
            self.rows.take_out(&id, &entry);
            return Verdict::Unexpected(entry.number);
        }
        if last {
            let until = clock + self.reject_ms;
            self.rows.wait(&id, entry, until);
        }
        Verdict::Good(entry.number)
    }

    /// A Return Error was received at this moment, at most 2^62.
    pub fn on_error(&mut self, id: i8, clock: u64) -> Verdict
        requires { clock ≤ moment_limit }
        ensures verdict { result ≡ verdict_on self.old.rows id return_error }
        ensures list { self.new ≡ after_received self.old id return_error clock }
    {
        let Some(entry) = sent_at(&self.rows, &id) else {
            return Verdict::Unknown;
        };
        if !entry.class.reports_failure() {
            self.rows.take_out(&id, &entry);
            return Verdict::Unexpected(entry.number);
        }
        let until = clock + self.reject_ms;
        self.rows.wait(&id, entry, until);
        Verdict::Good(entry.number)
    }

    /// A Reject was received: the number of the Sent invocation that it closes. One with a Result or an
    /// Error problem is of an answer that was sent from here, and closes nothing.
    pub fn on_reject(&mut self, id: i8, kind: Kind) -> Option<u64>
        ensures number { result ≡ rejected_at self.old.rows id kind }
        ensures list { self.new ≡ after_reject self.old id kind }
    {
        let entry = sent_at(&self.rows, &id)?;
        match kind {
            Kind::General | Kind::Invoke => {
                self.rows.take_out(&id, &entry);
                Some(entry.number)
            }
            Kind::Result | Kind::Error => None,
        }
    }
}

impl<A: Allocator + Copy> Rows<A> {
    /// The invocation that has the identifier.
    #[inline(always)]
    pub(super) fn get(&self, id: &i8) -> Option<&Invocation>
        ensures entry { option_copied result ≡ entry_at self.now id.now }
        // What all rows keep.
        ensures sorted { AreSorted self.now }
    {
        match &self.many {
            None => few::get(&self.few, id),
            Some(many) => many.get(id),
        }
    }

    /// The identifier of an invocation that a result or an error closed waits for a Reject.
    #[inline(always)]
    pub(super) fn wait(&mut self, id: &i8, entry: Invocation, until: u64)
        requires until { until ≤ 2 * moment_limit }
        requires found { sent_at self.old id.now ≡ Some entry }
        ensures { self.new ≡ at_stage self.old id.now entry (Waiting until) }
    {
        match &mut self.many {
            None => few::set_stage(&mut self.few, id, &entry, Stage::Waiting(until)),
            Some(many) => many.wait(id, entry, until),
        }
    }
}

/// The invocation that has the identifier, if it is Sent.
#[inline(always)]
fn sent_at<A: Allocator + Copy>(rows: &Rows<A>, id: &i8) -> Option<Invocation>
    ensures { result ≡ sent_at rows.now id.now }
{
    let entry = *rows.get(id)?;
    match entry.stage {
        Stage::Sent(_) => Some(entry),
        Stage::Queued(_) | Stage::Waiting(_) => None,
    }
}

//! How long the message of a request would be (our own).

// Hints to inline: where the caller knows the kind of request, the match on it folds away, and those on its answer.

ghost use Rattle.std.specs.Prelude.{◌≡◌, Option, Some, None, IfOk, IfErr};
ghost use Rattle.tcap_dialogue.specs.MessageLength.{IsJudged, IsJudgedBy, octets_of};
ghost use Rattle.tcap_dialogue.specs.RequestMessages.{outgoing_view};
ghost use Rattle.tcap_model.specs.Words.Fault as model_fault;
ghost use Rattle.tcap_pdu.specs.FrameSpelling.{Message};
ghost use Rattle.tcap_primitives.specs.FaultViews.{fault_view};
ghost use Rattle.tcap_primitives.specs.RequestViews.{request_view};

use super::Dialogue;
use std::alloc::Allocator;
use tcap_primitives::{Fault, Outgoing, Request};

/// How many octets a message has, if there is one.
#[inline(always)]
fn length_of(message: Option<Outgoing<'_>>) -> Option<usize>
    ensures { result ≡ octets_of (outgoing_view message.entry) }
{
    match message {
        None => None,
        Some(message) => Some(message.len()),
    }
}

/// How many octets a message has, if there is one and no fault is due.
#[inline(always)]
fn judged(message: Result<Option<Outgoing<'_>>, Fault>) -> Result<Option<usize>, Fault>
    ensures { (m : Option Message) (due : Option model_fault.Fault)
        → IfOk message.entry (λ v. (outgoing_view v ≡ m) × (due ≡ None))
        → IfErr message.entry (λ f. due ≡ Some (fault_view f)) → IsJudgedBy m due result }
{
    match message {
        Ok(message) => Ok(length_of(message)),
        Err(fault) => Err(fault),
    }
}

impl<A: Allocator + Copy> Dialogue<A> {
    /// How many octets the message has that this request would send now, `None` where it sends none; a request of
    /// component handling sends none, and isn't judged. Faults: those of a request of dialogue handling, in their
    /// order, but `OutOfMemory`. It takes no memory (our own).
    #[inline(always)]
    pub fn message_length(&self, request: &Request<'_>) -> Result<Option<usize>, Fault>
        ensures { IsJudged self.now (request_view request.now) result }
    {
        match *request {
            Request::Invoke(_)
            | Request::ResultLast(_)
            | Request::ResultMore(_)
            | Request::ErrorBack(_)
            | Request::Reject(_)
            | Request::Cancel(_) => Ok(None),
            Request::Uni(uni) => judged(self.uni_message(&uni)),
            Request::Begin(begin) => judged(self.begin_message(&begin)),
            Request::Continue(go_on) => judged(self.continue_message(&go_on)),
            Request::End(end) => judged(self.end_message(&end)),
            Request::Abort(abort) => judged(self.abort_message(&abort)),
        }
    }
}

//! How long the message of a request would be (our own).

ghost use Rattle.std.specs.Prelude.{◌≡◌, ◌+◌, true, length, IfOk, IfErr, OnOk};
ghost use Rattle.tcap_engine.specs.AnswerKinds.{AnswerKind, kind_of};
ghost use Rattle.tcap_engine.specs.MessageLength.{ended_by, ends_dialogue, message_count, open_in, sent_length};
ghost use Rattle.tcap_engine.specs.Running.{outputs_in};
ghost use Rattle.tcap_model.specs.Table.EngineMove.{dialogue_in, engine_move};
ghost use Rattle.tcap_model.specs.Words.Answer.{Answer, is_accepted};
ghost use Rattle.tcap_model.specs.Words.Event.{Event};
ghost use Rattle.tcap_primitives.specs.FaultViews.{fault_view};
ghost use Rattle.tcap_primitives.specs.RequestViews.{request_view};

use super::Engine;
use std::alloc::Allocator;
use tcap_dialogue::{Fault, Request};

impl<A: Allocator + Copy> Engine<A> {
    /// How many octets the message has that this request would send now, `None` where it sends none. Faults:
    /// `UnknownDialogue`, and those of the request but `OutOfMemory`. Nothing changes, and it takes no memory (our
    /// own).
    // Where the request is known, the match on it folds away.
    #[inline(always)]
    pub fn message_length(
        &self,
        dialogue: u32,
        request: &Request<'_>,
    ) -> Result<Option<usize>, Fault>
        // The length of the message in the answer that the request would get.
        ensures ok { IfOk result (λ count. count ≡ sent_length
            (engine_move self.now (Event.on_dialogue dialogue (request_view request.now))).answer) }
        // A request of dialogue handling would be accepted then, if memory is there.
        ensures accepted { kind_of (request_view request.now) ≡ AnswerKind.outputs → OnOk result (is_accepted
            (engine_move self.now (Event.on_dialogue dialogue (request_view request.now))).answer ≡ true) }
        // Else it would be refused so.
        ensures err { IfErr result (λ f. (engine_move self.now
            (Event.on_dialogue dialogue (request_view request.now))).answer ≡ Answer.refused (fault_view f)) }
    {
        match self.dialogue_at(dialogue) {
            None => Err(Fault::UnknownDialogue),
            Some(dialogue) => dialogue.message_length(request),
        }
    }

    /// How many invocations this request ends where it is accepted: those that are Queued or Sent, where it ends the
    /// dialogue. It takes no memory (our own).
    pub fn ended_by(&self, dialogue: u32, request: &Request<'_>) -> usize
        ensures value { result ≡ ended_by self.now dialogue (request_view request.now) }
        // So many outputs answer it behind the message that it sends, if it sends one.
        ensures told { let a = (engine_move self.now (Event.on_dialogue dialogue (request_view request.now))).answer in
            kind_of (request_view request.now) ≡ AnswerKind.outputs → is_accepted a ≡ true
            → length (outputs_in a) ≡ message_count (sent_length a) + result }
    {
        if ends_dialogue(request) {
            self.open_in(dialogue)
        } else {
            0
        }
    }

    /// How many invocations of a dialogue are Queued or Sent.
    fn open_in(&self, identifier: u32) -> usize
        ensures { result ≡ open_in (dialogue_in identifier self.now.dialogues) }
    {
        match self.dialogue_at(identifier) {
            None => 0,
            Some(dialogue) => dialogue.open_count(),
        }
    }
}

/// Whether a request ends its dialogue where it is accepted.
fn ends_dialogue(request: &Request<'_>) -> bool
    ensures { result ≡ ends_dialogue (request_view request.now) }
{
    match request {
        Request::Invoke(_)
        | Request::ResultLast(_)
        | Request::ResultMore(_)
        | Request::ErrorBack(_)
        | Request::Reject(_)
        | Request::Cancel(_)
        | Request::Begin(_)
        | Request::Continue(_) => false,
        Request::Uni(_) | Request::End(_) | Request::Abort(_) => true,
    }
}

//! The calls whose outputs are appended to an outbox: each does what the call of its name without `_into` does.

ghost use Rattle.std.specs.Prelude.{◌≡◌, ◌≤◌, option_copied, OnErr};
ghost use Rattle.tcap_engine.specs.AnswerKinds.{AnswerKind, kind_of};
ghost use Rattle.tcap_engine.specs.StepForm.{EngineAnswers, EngineReceives, since_answer};
ghost use Rattle.tcap_engine.specs.HistoryForm.{Stands, StandsReceived};
ghost use Rattle.tcap_invocation.specs.Stage.{moment_limit};
ghost use Rattle.tcap_model.specs.Table.EngineMove.{advanced, engine_move};
ghost use Rattle.tcap_model.specs.Words.Event.{Event};
ghost use Rattle.tcap_model.specs.Words.Request as model;
ghost use Rattle.tcap_model.specs.Words.Request.{DialogueRequest};
ghost use Rattle.tcap_primitives.specs.RequestViews.{ending_view, reason_view, request_view};
ghost use Rattle.tcap_primitives.specs.SinkViews.{KeepsOutputs};

use super::Engine;
use super::requests::without_answer;
use ber_core::OutOfMemory;
use std::alloc::Allocator;
use tcap_dialogue::{
    AbortRequest, AbortWhy, Address, BeginRequest, ContinueRequest, EndRequest, Ending, Fault,
    Outbox, Request, Sink, UniRequest,
};

/// In all of these what was in the outbox before stays, and where a call is refused nothing is appended, and the
/// engine is as it was. An outbox that has room takes no memory.
impl<A: Allocator + Copy> Engine<A> {
    /// `receive`, into an outbox.
    #[tactic(auto, using(crate::proofs::StandingLemmas::kept_into))]
    pub fn receive_into(
        &mut self,
        from: &Address,
        bytes: &[u8],
        outbox: &mut Outbox<A>,
    ) -> Result<(), OutOfMemory>
        ensures moves { EngineReceives (since_answer outbox.old.outputs outbox.new.outputs) result
            (engine_move self.old (Event.received from.now bytes.now)) self.old self.new }
        ensures kept { KeepsOutputs outbox.old.outputs outbox.new.outputs }
        ensures still { OnErr result (outbox.new.outputs ≡ outbox.old.outputs) }
        // Whatever legal history the engine stood at: the reply, and the history that it stands at then.
        ensures stands { StandsReceived (since_answer outbox.old.outputs outbox.new.outputs) result
            (Event.received from.now bytes.now) self.old self.new }
    {
        let mut sink = Sink::take_outbox(self.table.allocator(), outbox);
        let received = self.receive_with(from, bytes, &mut sink);
        sink.put_back(outbox);
        received
    }

    /// `advance`, into an outbox.
    #[tactic(auto, using(crate::proofs::StandingLemmas::stands_after))]
    pub fn advance_into(&mut self, now: u64, outbox: &mut Outbox<A>) -> Result<(), Fault>
        ensures moves { EngineAnswers (since_answer outbox.old.outputs outbox.new.outputs) result
            (engine_move self.old (Event.moment now)) self.old self.new }
        ensures kept { KeepsOutputs outbox.old.outputs outbox.new.outputs }
        ensures still { OnErr result (outbox.new.outputs ≡ outbox.old.outputs) }
        ensures err { OnErr result (self.new ≡ self.old) }
        ensures stands { Stands (since_answer outbox.old.outputs outbox.new.outputs) result (Event.moment now)
            self.old self.new }
    {
        // What comes most is a moment at which nothing is due. Nothing is told then, so the outbox stays where it is:
        // to move it took 33 instructions.
        if let Some(answer) = self.pass_if_still(now) {
            return answer;
        }
        self.expire_into(now, outbox)
    }

    /// The clock moves on to this moment, which isn't below it: what is due is told, into an outbox.
    // Apart from `advance_into`, which mostly finds nothing due: a Continue and its moment take 24 instructions less.
    #[inline(never)]
    fn expire_into(&mut self, now: u64, outbox: &mut Outbox<A>) -> Result<(), Fault>
        requires late { now ≤ moment_limit }
        requires up { self.old.clock ≤ now }
        ensures moves { EngineAnswers (since_answer outbox.old.outputs outbox.new.outputs)
            result (advanced self.old now) self.old self.new }
        ensures kept { KeepsOutputs outbox.old.outputs outbox.new.outputs }
        ensures err { OnErr result (self.new ≡ self.old) }
        ensures still { OnErr result (outbox.new.outputs ≡ outbox.old.outputs) }
    {
        let mut sink = Sink::take_outbox(self.table.allocator(), outbox);
        let expired = self.expire(now, &mut sink);
        sink.put_back(outbox);
        expired
    }

    /// `uni`, into an outbox.
    pub fn uni_into(
        &mut self,
        dialogue: u32,
        to: &Address,
        context: Option<&[u8]>,
        info: &[u8],
        outbox: &mut Outbox<A>,
    ) -> Result<(), Fault>
        ensures moves { EngineAnswers (since_answer outbox.old.outputs outbox.new.outputs) result
            (engine_move self.old (Event.on_dialogue dialogue (model.Request.dialogue
            (DialogueRequest.uni to.now (option_copied context.entry) info.now)))) self.old self.new }
        ensures kept { KeepsOutputs outbox.old.outputs outbox.new.outputs }
        ensures still { OnErr result (outbox.new.outputs ≡ outbox.old.outputs) }
        ensures err { OnErr result (self.new ≡ self.old) }
        ensures stands { Stands (since_answer outbox.old.outputs outbox.new.outputs) result
            (Event.on_dialogue dialogue (model.Request.dialogue
            (DialogueRequest.uni to.now (option_copied context.entry) info.now))) self.old self.new }
    {
        self.request_into(
            dialogue,
            &Request::Uni(UniRequest { to, context, info }),
            outbox,
        )
    }

    /// `begin`, into an outbox.
    pub fn begin_into(
        &mut self,
        dialogue: u32,
        to: &Address,
        context: Option<&[u8]>,
        info: &[u8],
        outbox: &mut Outbox<A>,
    ) -> Result<(), Fault>
        ensures moves { EngineAnswers (since_answer outbox.old.outputs outbox.new.outputs) result
            (engine_move self.old (Event.on_dialogue dialogue (model.Request.dialogue
            (DialogueRequest.begin to.now (option_copied context.entry) info.now)))) self.old self.new }
        ensures kept { KeepsOutputs outbox.old.outputs outbox.new.outputs }
        ensures still { OnErr result (outbox.new.outputs ≡ outbox.old.outputs) }
        ensures err { OnErr result (self.new ≡ self.old) }
        ensures stands { Stands (since_answer outbox.old.outputs outbox.new.outputs) result
            (Event.on_dialogue dialogue (model.Request.dialogue
            (DialogueRequest.begin to.now (option_copied context.entry) info.now))) self.old self.new }
    {
        let mut sink = Sink::take_outbox(self.table.allocator(), outbox);
        let sent = self.begin_with(dialogue, &BeginRequest { to, context, info }, &mut sink);
        sink.put_back(outbox);
        sent
    }

    /// `go_on`, into an outbox.
    pub fn go_on_into(
        &mut self,
        dialogue: u32,
        context: Option<&[u8]>,
        info: &[u8],
        outbox: &mut Outbox<A>,
    ) -> Result<(), Fault>
        ensures moves { EngineAnswers (since_answer outbox.old.outputs outbox.new.outputs) result
            (engine_move self.old (Event.on_dialogue dialogue (model.Request.dialogue
            (DialogueRequest.go_on (option_copied context.entry) info.now)))) self.old self.new }
        ensures kept { KeepsOutputs outbox.old.outputs outbox.new.outputs }
        ensures still { OnErr result (outbox.new.outputs ≡ outbox.old.outputs) }
        ensures err { OnErr result (self.new ≡ self.old) }
        ensures stands { Stands (since_answer outbox.old.outputs outbox.new.outputs) result
            (Event.on_dialogue dialogue (model.Request.dialogue
            (DialogueRequest.go_on (option_copied context.entry) info.now))) self.old self.new }
    {
        let mut sink = Sink::take_outbox(self.table.allocator(), outbox);
        let sent = self.go_on_with(dialogue, &ContinueRequest { context, info }, &mut sink);
        sink.put_back(outbox);
        sent
    }

    /// `finish`, into an outbox.
    pub fn finish_into(
        &mut self,
        dialogue: u32,
        ending: Ending,
        context: Option<&[u8]>,
        info: &[u8],
        outbox: &mut Outbox<A>,
    ) -> Result<(), Fault>
        ensures moves { EngineAnswers (since_answer outbox.old.outputs outbox.new.outputs) result
            (engine_move self.old (Event.on_dialogue dialogue (model.Request.dialogue
            (DialogueRequest.finish (ending_view ending) (option_copied context.entry) info.now)))) self.old self.new }
        ensures kept { KeepsOutputs outbox.old.outputs outbox.new.outputs }
        ensures still { OnErr result (outbox.new.outputs ≡ outbox.old.outputs) }
        ensures err { OnErr result (self.new ≡ self.old) }
        ensures stands { Stands (since_answer outbox.old.outputs outbox.new.outputs) result
            (Event.on_dialogue dialogue (model.Request.dialogue
            (DialogueRequest.finish (ending_view ending) (option_copied context.entry) info.now))) self.old self.new }
    {
        let end = EndRequest {
            ending,
            context,
            info,
        };
        let mut sink = Sink::take_outbox(self.table.allocator(), outbox);
        let sent = self.finish_with(dialogue, &end, &mut sink);
        sink.put_back(outbox);
        sent
    }

    /// `u_abort`, into an outbox.
    pub fn u_abort_into(
        &mut self,
        dialogue: u32,
        why: AbortWhy,
        info: &[u8],
        outbox: &mut Outbox<A>,
    ) -> Result<(), Fault>
        ensures moves { EngineAnswers (since_answer outbox.old.outputs outbox.new.outputs) result
            (engine_move self.old (Event.on_dialogue dialogue
            (model.Request.dialogue (DialogueRequest.u_abort (reason_view why) info.now)))) self.old self.new }
        ensures kept { KeepsOutputs outbox.old.outputs outbox.new.outputs }
        ensures still { OnErr result (outbox.new.outputs ≡ outbox.old.outputs) }
        ensures err { OnErr result (self.new ≡ self.old) }
        ensures stands { Stands (since_answer outbox.old.outputs outbox.new.outputs) result
            (Event.on_dialogue dialogue (model.Request.dialogue (DialogueRequest.u_abort (reason_view why) info.now)))
            self.old self.new }
    {
        self.request_into(
            dialogue,
            &Request::Abort(AbortRequest { why, info }),
            outbox,
        )
    }

    /// A request of dialogue handling, into an outbox.
    // Each call that knows its request has its own copy, in which the match on it folds away. A Continue and an End go
    // by the calls of their names, into which all that they do is inlined (dialogue_requests.rt): through a station a
    // Continue takes 49 instructions less so and an End 17. A Begin would take 12 more.
    #[inline(always)]
    pub fn request_into(
        &mut self,
        dialogue: u32,
        request: &Request<'_>,
        outbox: &mut Outbox<A>,
    ) -> Result<(), Fault>
        requires { kind_of (request_view request.now) ≡ AnswerKind.outputs }
        ensures moves { EngineAnswers (since_answer outbox.old.outputs outbox.new.outputs) result
            (engine_move self.old (Event.on_dialogue dialogue (request_view request.now))) self.old self.new }
        ensures kept { KeepsOutputs outbox.old.outputs outbox.new.outputs }
        ensures still { OnErr result (outbox.new.outputs ≡ outbox.old.outputs) }
        ensures err { OnErr result (self.new ≡ self.old) }
        ensures stands { Stands (since_answer outbox.old.outputs outbox.new.outputs) result
            (Event.on_dialogue dialogue (request_view request.now)) self.old self.new }
    {
        match *request {
            Request::Continue(ContinueRequest { context, info }) => {
                self.go_on_into(dialogue, context, info, outbox)
            }
            Request::End(
                EndRequest {
                    ending,
                    context,
                    info,
                },
            ) => self.finish_into(dialogue, ending, context, info, outbox),
            Request::Uni(_)
            | Request::Begin(_)
            | Request::Abort(_)
            | Request::Invoke(_)
            | Request::ResultLast(_)
            | Request::ResultMore(_)
            | Request::ErrorBack(_)
            | Request::Reject(_)
            | Request::Cancel(_) => self.any_request_into(dialogue, request, outbox),
        }
    }

    /// `request_into`, by what takes any request.
    // Inlined into `request_into`, for the reason that stands there.
    #[inline(always)]
    fn any_request_into(
        &mut self,
        dialogue: u32,
        request: &Request<'_>,
        outbox: &mut Outbox<A>,
    ) -> Result<(), Fault>
        requires { kind_of (request_view request.now) ≡ AnswerKind.outputs }
        ensures moves { EngineAnswers (since_answer outbox.old.outputs outbox.new.outputs) result
            (engine_move self.old (Event.on_dialogue dialogue (request_view request.now))) self.old self.new }
        ensures kept { KeepsOutputs outbox.old.outputs outbox.new.outputs }
        ensures still { OnErr result (outbox.new.outputs ≡ outbox.old.outputs) }
        ensures err { OnErr result (self.new ≡ self.old) }
        ensures stands { Stands (since_answer outbox.old.outputs outbox.new.outputs) result
            (Event.on_dialogue dialogue (request_view request.now)) self.old self.new }
    {
        let mut sink = Sink::take_outbox(self.table.allocator(), outbox);
        let accepted = self.request_with(dialogue, request, &mut sink);
        sink.put_back(outbox);
        without_answer(accepted)
    }
}

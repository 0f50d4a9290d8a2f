//! TC-UNI and TC-U-ABORT (Q.771, Dialogue handling).

ghost use Rattle.std.specs.Prelude.{◌≡◌, option_copied, OnErr};
ghost use Rattle.tcap_engine.specs.AnswerKinds.{AnswerKind, kind_of};
ghost use Rattle.tcap_engine.specs.HistoryForm.{Stands};
ghost use Rattle.tcap_engine.specs.StepForm.{EngineAnswers, outputs_answer};
ghost use Rattle.tcap_model.specs.Table.EngineMove.{engine_move};
ghost use Rattle.tcap_model.specs.Words.Event.{Event};
ghost use Rattle.tcap_model.specs.Words.Request as model;
ghost use Rattle.tcap_model.specs.Words.Request.{DialogueRequest};
ghost use Rattle.tcap_primitives.specs.RequestViews.{reason_view, request_view};

use super::Engine;
use super::requests::without_answer;
use std::alloc::Allocator;
use tcap_dialogue::{AbortRequest, AbortWhy, Address, Fault, Output, Request, Sink, UniRequest};

/// In these `context` is the contents octets of the application context name, and `info` the user
/// information: EXTERNALs one after the other, empty where there is none.
impl<A: Allocator + Copy> Engine<A> {
    /// TC-UNI request: the queue goes out in a Unidirectional to this address, and the dialogue is over.
    /// `context` is the contents octets of its object identifier, not its dotted text.
    /// Faults: `UnknownDialogue`, `WrongState` unless Fresh, `BadOid`, `BadParameter`, `NoContext` for
    /// information without a context, `NotClassFour`, `TooLong`, `OutOfMemory`
    /// (Q.774, Unstructured dialogue).
    pub fn uni<'m>(
        &mut self,
        dialogue: u32,
        to: &Address,
        context: Option<&[u8]>,
        info: &[u8],
    ) -> Result<Vec<Output<'m, A>, A>, Fault>
        ensures moves { EngineAnswers outputs_answer result
            (engine_move self.old (Event.on_dialogue dialogue (model.Request.dialogue
            (DialogueRequest.uni to.now (option_copied context.entry) info.now)))) self.old self.new }
        ensures stands { Stands outputs_answer result (Event.on_dialogue dialogue (model.Request.dialogue
            (DialogueRequest.uni to.now (option_copied context.entry) info.now))) self.old self.new }
        ensures err { OnErr result (self.new ≡ self.old) }
    {
        self.ask_step(dialogue, &Request::Uni(UniRequest { to, context, info }))
    }

    /// TC-U-ABORT request: an Abort goes out to the peer's address, if the peer knows the dialogue; this is
    /// over, and each invocation that is left is told as ended. Faults: `UnknownDialogue`, `WrongState`,
    /// `BadParameter`, `NoContext`, `TooLong`, `OutOfMemory` (Q.774, Dialogue abort).
    pub fn u_abort<'m>(
        &mut self,
        dialogue: u32,
        why: AbortWhy,
        info: &[u8],
    ) -> Result<Vec<Output<'m, A>, A>, Fault>
        ensures moves { EngineAnswers outputs_answer result (engine_move self.old (Event.on_dialogue dialogue
            (model.Request.dialogue (DialogueRequest.u_abort (reason_view why) info.now)))) self.old self.new }
        ensures stands { Stands outputs_answer result (Event.on_dialogue dialogue
            (model.Request.dialogue (DialogueRequest.u_abort (reason_view why) info.now))) self.old self.new }
        ensures err { OnErr result (self.new ≡ self.old) }
    {
        self.ask_step(dialogue, &Request::Abort(AbortRequest { why, info }))
    }

    /// A request of dialogue handling: what is sent and told.
    // Each call that knows its request has its own copy, in which the match on it folds away.
    #[inline(always)]
    fn ask_step<'m>(
        &mut self,
        dialogue: u32,
        request: &Request<'_>,
    ) -> Result<Vec<Output<'m, A>, A>, Fault>
        requires { kind_of (request_view request.now) ≡ AnswerKind.outputs }
        ensures moves { EngineAnswers outputs_answer result
            (engine_move self.old (Event.on_dialogue dialogue (request_view request.now))) self.old self.new }
        ensures stands { Stands outputs_answer result
            (Event.on_dialogue dialogue (request_view request.now)) self.old self.new }
        ensures err { OnErr result (self.new ≡ self.old) }
    {
        let mut sink = Sink::vector(self.table.allocator());
        without_answer(self.request_with(dialogue, request, &mut sink))?;
        Ok(sink.into_vector())
    }
}

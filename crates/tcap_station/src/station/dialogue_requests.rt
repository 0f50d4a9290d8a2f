//! The requests of dialogue handling (Q.771, Dialogue handling).

ghost use Rattle.std.specs.Prelude.{◌≡◌, ◌≢◌, [], false, option_copied, IfErr, OnErr, OnOk};
ghost use Rattle.tcap_engine.specs.AnswerKinds.{AnswerKind, kind_of};
ghost use Rattle.tcap_engine.specs.Running.{outputs_in};
ghost use Rattle.tcap_model.specs.Table.EngineMove.{engine_move};
ghost use Rattle.tcap_model.specs.Words.Event.{Event};
ghost use Rattle.tcap_model.specs.Words.Request as model;
ghost use Rattle.tcap_model.specs.Words.Request.{DialogueRequest};
ghost use Rattle.tcap_primitives.specs.FaultViews.{fault_view};
ghost use Rattle.tcap_primitives.specs.RequestViews.{ending_view, reason_view, request_view};
ghost use Rattle.tcap_station.specs.Marks.{HasPlace, IsOrdered, marks_in};
ghost use Rattle.tcap_station.specs.HistoryForm.{StandsTold};
ghost use Rattle.tcap_station.specs.Station.{is_above, sends_above};
ghost use Rattle.tcap_station.specs.StepForm.{IsRefusalWithin, TakesWithin};

use super::Station;
use crate::line::accepting::mark_event;
use crate::line::marks::{Marks, has_place, make_place};
use std::alloc::Allocator;
use tcap_engine::{
    AbortRequest, AbortWhy, Address, BeginRequest, ContinueRequest, EndRequest, Ending, Engine,
    Fault, Request, UniRequest,
};
use tcap_pdu::MAX_MESSAGE;

/// In all of these `context` is the contents octets of the application context name, and `info` the user
/// information: EXTERNALs one after the other, empty where there is none.
impl<A: Allocator + Copy> Station<A> {
    /// TC-UNI request: the queue goes out in a Unidirectional to this address, and the dialogue is over.
    /// `context` is the contents octets of its object identifier, not its dotted text.
    /// Faults: `UnknownDialogue`, `WrongState` unless Fresh, `BadOid`, `BadParameter`, `NoContext` for
    /// information without a context, `NotClassFour`, `TooLong`, `OutOfMemory`
    /// (Q.774, Unstructured dialogue).
    pub fn uni(
        &mut self,
        dialogue: u32,
        to: &Address,
        context: Option<&[u8]>,
        info: &[u8],
    ) -> Result<(), Fault>
        ensures moves { TakesWithin result
            (engine_move self.old.engine (Event.on_dialogue dialogue (model.Request.dialogue
            (DialogueRequest.uni to.now (option_copied context.entry) info.now)))) self.old self.new }
        ensures stands { StandsTold result (Event.on_dialogue dialogue (model.Request.dialogue
            (DialogueRequest.uni to.now (option_copied context.entry) info.now))) self.old self.new }
        ensures err { OnErr result (self.new ≡ self.old) }
    {
        self.request(dialogue, &Request::Uni(UniRequest { to, context, info }))
    }

    /// TC-BEGIN request: the queue goes out in a Begin to this address, which the dialogue keeps, with an
    /// AARQ where there is a context, and the dialogue is Sent. `context` is the contents octets of its object
    /// identifier, not its dotted text. Faults: `UnknownDialogue`, `WrongState`
    /// unless Fresh, `BadOid`, `BadParameter`, `NoContext` for information without a context, `TooLong`,
    /// `OutOfMemory` (Q.774, Dialogue begin).
    pub fn begin(
        &mut self,
        dialogue: u32,
        to: &Address,
        context: Option<&[u8]>,
        info: &[u8],
    ) -> Result<(), Fault>
        ensures moves { TakesWithin result
            (engine_move self.old.engine (Event.on_dialogue dialogue (model.Request.dialogue
            (DialogueRequest.begin to.now (option_copied context.entry) info.now)))) self.old self.new }
        ensures stands { StandsTold result (Event.on_dialogue dialogue (model.Request.dialogue
            (DialogueRequest.begin to.now (option_copied context.entry) info.now))) self.old self.new }
        ensures err { OnErr result (self.new ≡ self.old) }
    {
        self.request(
            dialogue,
            &Request::Begin(BeginRequest { to, context, info }),
        )
    }

    /// TC-CONTINUE request: the queue goes out in a Continue to the peer's address. In Received an AARQ is
    /// answered, with the context given or else its own; `context` is the contents octets of its object identifier,
    /// not its dotted text. Faults: `UnknownDialogue`, `WrongState` unless
    /// Received or Active, `BadOid`, `BadParameter`, `NoContext` for a context or information where no AARQ
    /// is answered, `TooLong`, `OutOfMemory` (Q.774, Dialogue continuation).
    pub fn go_on(&mut self, dialogue: u32, context: Option<&[u8]>, info: &[u8]) -> Result<(), Fault>
        ensures moves { TakesWithin result
            (engine_move self.old.engine (Event.on_dialogue dialogue (model.Request.dialogue
            (DialogueRequest.go_on (option_copied context.entry) info.now)))) self.old self.new }
        ensures stands { StandsTold result (Event.on_dialogue dialogue
            (model.Request.dialogue (DialogueRequest.go_on (option_copied context.entry) info.now))) self.old self.new }
        ensures err { OnErr result (self.new ≡ self.old) }
    {
        self.request(
            dialogue,
            &Request::Continue(ContinueRequest { context, info }),
        )
    }

    /// TC-END request: a basic end sends the queue in an End to the peer's address, a prearranged one nothing;
    /// the dialogue is over, and each invocation that is left is told as ended. `context` is the contents octets
    /// of its object identifier, not its dotted text. Faults: `UnknownDialogue`,
    /// `WrongState`, `BadOid`, `BadParameter`, `NoContext`, `TooLong`, `OutOfMemory` (Q.774, Dialogue end).
    pub fn finish(
        &mut self,
        dialogue: u32,
        ending: Ending,
        context: Option<&[u8]>,
        info: &[u8],
    ) -> Result<(), Fault>
        ensures moves { TakesWithin result
            (engine_move self.old.engine (Event.on_dialogue dialogue (model.Request.dialogue
            (DialogueRequest.finish (ending_view ending) (option_copied context.entry) info.now)))) self.old self.new }
        ensures stands { StandsTold result (Event.on_dialogue dialogue (model.Request.dialogue
            (DialogueRequest.finish (ending_view ending) (option_copied context.entry) info.now))) self.old self.new }
        ensures err { OnErr result (self.new ≡ self.old) }
    {
        let end = EndRequest {
            ending,
            context,
            info,
        };
        self.request(dialogue, &Request::End(end))
    }

    /// TC-U-ABORT request: an Abort goes out to the peer's address, if the peer knows the dialogue; this is
    /// over, and each invocation that is left is told as ended. Faults: `UnknownDialogue`, `WrongState`,
    /// `BadParameter`, `NoContext`, `TooLong`, `OutOfMemory` (Q.774, Dialogue abort).
    pub fn u_abort(&mut self, dialogue: u32, why: AbortWhy, info: &[u8]) -> Result<(), Fault>
        ensures moves { TakesWithin result (engine_move self.old.engine (Event.on_dialogue dialogue
            (model.Request.dialogue (DialogueRequest.u_abort (reason_view why) info.now)))) self.old self.new }
        ensures stands { StandsTold result (Event.on_dialogue dialogue
            (model.Request.dialogue (DialogueRequest.u_abort (reason_view why) info.now))) self.old self.new }
        ensures err { OnErr result (self.new ≡ self.old) }
    {
        self.request(dialogue, &Request::Abort(AbortRequest { why, info }))
    }

    /// A request of dialogue handling.
    // Each named call has its own copy, in which the request is known and the match on it folds away.
    #[inline(always)]
    fn request(&mut self, dialogue: u32, request: &Request<'_>) -> Result<(), Fault>
        requires { kind_of (request_view request.now) ≡ AnswerKind.outputs }
        ensures moves { TakesWithin result (engine_move self.old.engine
            (Event.on_dialogue dialogue (request_view request.now))) self.old self.new }
        ensures err { OnErr result (self.new ≡ self.old) }
        ensures stands { StandsTold result (Event.on_dialogue dialogue (request_view request.now)) self.old self.new }
    {
        prepare(
            &self.engine,
            &mut self.line.marks,
            self.max_message,
            dialogue,
            request,
        )?;
        let before = self.line.back.len();
        let accepted = self
            .engine
            .request_into(dialogue, request, &mut self.line.back);
        mark_event(
            &mut self.events,
            &mut self.line.marks,
            &self.line.back,
            before,
            accepted,
        )
    }
}

/// Whether a message has more octets than this, if there is one.
#[inline(always)]
fn is_above(length: Option<usize>, max_message: usize) -> bool
    ensures { result ≡ is_above max_message length }
{
    match length {
        None => false,
        Some(count) => count > max_message,
    }
}

/// Makes a place for a request of dialogue handling, whose message is to have no more octets than this. The faults of
/// the engine come first, then `TooLong`, then `OutOfMemory`.
#[inline(always)]
fn prepare<A: Allocator + Copy>(
    engine: &Engine<A>,
    marks: &mut Marks<A>,
    max_message: usize,
    dialogue: u32,
    request: &Request<'_>,
) -> Result<(), Fault>
    requires { kind_of (request_view request.now) ≡ AnswerKind.outputs }
    ensures marks { marks_in marks.new ≡ marks_in marks.old }
    ensures ordered { IsOrdered marks.old → IsOrdered marks.new }
    // A place is made where anything is sent or told.
    ensures place { let a = (engine_move engine.now (Event.on_dialogue dialogue (request_view request.now))).answer in
        OnOk result (outputs_in a ≢ [] → HasPlace marks.new) }
    ensures within { let a = (engine_move engine.now (Event.on_dialogue dialogue (request_view request.now))).answer in
        OnOk result (sends_above max_message a ≡ false) }
    ensures err { let a = (engine_move engine.now (Event.on_dialogue dialogue (request_view request.now))).answer in
        IfErr result (λ f. IsRefusalWithin max_message (fault_view f) a) }
{
    if max_message >= MAX_MESSAGE && has_place(marks) {
        // No message of an engine is longer: it judges the request itself.
        return Ok(());
    }
    // The length is asked of a copy, so that the request itself needs no memory where its kind is known: a Continue
    // through C takes 9 instructions less. Where it isn't known the copy is made for nothing.
    let asked = *request;
    let length = engine.message_length(dialogue, &asked)?;
    if is_above(length, max_message) {
        return Err(Fault::TooLong);
    }
    if !has_place(marks) && (length.is_some() || engine.ended_by(dialogue, &asked) > 0) {
        make_place(marks)?;
    }
    Ok(())
}

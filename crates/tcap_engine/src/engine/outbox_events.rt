//! `Engine::handle_into`: an event as a value, whose outputs are appended to an outbox (own).

ghost use Rattle.std.specs.Prelude.{◌≡◌, [], List, IfOk, IsTrue, OnErr};
ghost use Rattle.tcap_dialogue.specs.AskViews.{Appends};
ghost use Rattle.tcap_dialogue.specs.RequestForm.{takes_memory};
ghost use Rattle.tcap_engine.specs.EventViews.{answered_view, event_view};
ghost use Rattle.tcap_engine.specs.HistoryForm.{ReceivedOn, StandsAfter, StandsReceived, StandsRefused};
ghost use Rattle.tcap_engine.specs.RequestInTable.{accepted_answer};
ghost use Rattle.tcap_engine.specs.Running.{MayWant, outputs_in};
ghost use Rattle.tcap_engine.specs.StepForm.{EngineAnswers, EngineReceives, EngineRefuses, birth_answer, since_answer};
ghost use Rattle.tcap_model.specs.Histories.History.{History};
ghost use Rattle.tcap_model.specs.Table.EngineMove.{EngineMoved, engine_move};
ghost use Rattle.tcap_model.specs.Table.World.{World};
ghost use Rattle.tcap_model.specs.Words.Event as model;
ghost use Rattle.tcap_model.specs.Words.Output.{Output};
ghost use Rattle.tcap_primitives.specs.FaultViews.{fault_view};
ghost use Rattle.tcap_primitives.specs.RequestViews.{request_view};
ghost use Rattle.tcap_primitives.specs.SinkViews.{KeepsOutputs, told_since};

use super::Engine;
use crate::event::{Answered, Event};
use ber_core::OutOfMemory;
use std::alloc::Allocator;
use tcap_dialogue::{Accepted, Fault, Outbox, Request, Sink};

/// A refusal is an answer, but for `OutOfMemory`.
fn refused(fault: Fault) -> Result<Answered, OutOfMemory>
    ensures moves { (told : List Output) (m : EngineMoved) (old new : World)
        → EngineRefuses (fault_view fault) m old new → EngineReceives (answered_view told) result m old new }
    ensures memory { (m : EngineMoved) (old new : World) → EngineRefuses (fault_view fault) m old new
        → OnErr result (IsTrue (takes_memory m.answer)) }
    ensures stands { (told : List Output) (h : History) (event : model.Event) (new : World)
        → StandsRefused (fault_view fault) h event new → ReceivedOn (answered_view told) result h event new }
    ensures told { (told : List Output) → IfOk result (λ a. outputs_in (answered_view told a) ≡ []) }
{
    if fault == Fault::OutOfMemory {
        Err(OutOfMemory)
    } else {
        Ok(Answered::Refused(fault))
    }
}

/// The answer to the request for a new dialogue.
fn created(identifier: Result<u32, Fault>) -> Result<Answered, OutOfMemory>
    ensures moves { (told : List Output) (m : EngineMoved) (old new : World)
        → EngineAnswers birth_answer identifier m old new → EngineReceives (answered_view told) result m old new }
    ensures memory { (m : EngineMoved) (old new : World) → EngineAnswers birth_answer identifier m old new
        → OnErr result (IsTrue (takes_memory m.answer)) }
    ensures stands { (told : List Output) (h : History) (event : model.Event) (new : World)
        → StandsAfter birth_answer identifier h event new → ReceivedOn (answered_view told) result h event new }
    ensures told { (told : List Output) → IfOk result (λ a. outputs_in (answered_view told a) ≡ []) }
{
    match identifier {
        Ok(identifier) => Ok(Answered::NewDialogue(identifier)),
        Err(fault) => refused(fault),
    }
}

/// The answer to a request on a dialogue.
fn answered(accepted: Result<Accepted, Fault>) -> Result<Answered, OutOfMemory>
    ensures moves { (before after : List Output) (m : EngineMoved) (old new : World)
        → EngineAnswers (accepted_answer (told_since before after)) accepted m old new
        → EngineReceives (answered_view (told_since before after)) result m old new }
    ensures memory { (before after : List Output) (m : EngineMoved) (old new : World)
        → EngineAnswers (accepted_answer (told_since before after)) accepted m old new
        → OnErr result (IsTrue (takes_memory m.answer)) }
    ensures stands { (before after : List Output) (h : History) (event : model.Event) (new : World)
        → StandsAfter (accepted_answer (told_since before after)) accepted h event new
        → ReceivedOn (answered_view (told_since before after)) result h event new }
    ensures told { (before after : List Output) → IfOk accepted (λ a. Appends a before after)
        → OnErr accepted (after ≡ before)
        → IfOk result (λ a. told_since before after ≡ outputs_in (answered_view (told_since before after) a)) }
    ensures kept { (before after : List Output) → IfOk accepted (λ a. Appends a before after)
        → OnErr accepted (after ≡ before) → KeepsOutputs before after }
    ensures still { (before after : List Output) → OnErr accepted (after ≡ before)
        → OnErr result (after ≡ before) }
{
    match accepted {
        Ok(Accepted::Number(number)) => Ok(Answered::Number(number)),
        Ok(Accepted::Done) => Ok(Answered::Done),
        Ok(Accepted::GivenUp(number)) => Ok(Answered::GivenUp(number)),
        Ok(Accepted::Step(_)) => Ok(Answered::Outputs),
        Err(fault) => refused(fault),
    }
}

/// The answer to a moment.
fn passed(advanced: Result<(), Fault>) -> Result<Answered, OutOfMemory>
    ensures moves { (before after : List Output) (m : EngineMoved) (old new : World)
        → EngineAnswers (since_answer before after) advanced m old new
        → EngineReceives (answered_view (told_since before after)) result m old new }
    ensures memory { (before after : List Output) (m : EngineMoved) (old new : World)
        → EngineAnswers (since_answer before after) advanced m old new
        → OnErr result (IsTrue (takes_memory m.answer)) }
    ensures stands { (before after : List Output) (h : History) (event : model.Event) (new : World)
        → StandsAfter (since_answer before after) advanced h event new
        → ReceivedOn (answered_view (told_since before after)) result h event new }
    ensures told { (before after : List Output) → OnErr advanced (after ≡ before)
        → IfOk result (λ a. told_since before after ≡ outputs_in (answered_view (told_since before after) a)) }
    ensures still { (before after : List Output) → OnErr advanced (after ≡ before)
        → OnErr result (after ≡ before) }
{
    match advanced {
        Ok(()) => Ok(Answered::Outputs),
        Err(fault) => refused(fault),
    }
}

impl<A: Allocator + Copy> Engine<A> {
    /// A request on the dialogue with this identifier, into an outbox.
    // In each arm of `handle_into` the request is known, and the match on it folds away.
    #[inline(always)]
    fn answer_into(
        &mut self,
        dialogue: u32,
        request: Request<'_>,
        outbox: &mut Outbox<A>,
    ) -> Result<Answered, OutOfMemory>
        ensures moves { EngineReceives (answered_view (told_since outbox.old.outputs outbox.new.outputs)) result
            (engine_move self.old (model.Event.on_dialogue dialogue (request_view request.entry))) self.old self.new }
        ensures memory { OnErr result (IsTrue (takes_memory
            (engine_move self.old (model.Event.on_dialogue dialogue (request_view request.entry))).answer)) }
        ensures kept { KeepsOutputs outbox.old.outputs outbox.new.outputs }
        ensures told { let told = told_since outbox.old.outputs outbox.new.outputs in
            IfOk result (λ a. told ≡ outputs_in (answered_view told a)) }
        ensures still { OnErr result (outbox.new.outputs ≡ outbox.old.outputs) }
        ensures stands { StandsReceived (answered_view (told_since outbox.old.outputs outbox.new.outputs)) result
            (model.Event.on_dialogue dialogue (request_view request.entry)) self.old self.new }
    {
        let mut sink = Sink::take_outbox(self.table.allocator(), outbox);
        let accepted = self.request_with(dialogue, &request, &mut sink);
        sink.put_back(outbox);
        answered(accepted)
    }

    /// `handle`, into an outbox: what is sent and told is appended, and what the answer is else is answered.
    pub fn handle_into(
        &mut self,
        event: &Event<'_>,
        outbox: &mut Outbox<A>,
    ) -> Result<Answered, OutOfMemory>
        ensures moves { EngineReceives (answered_view (told_since outbox.old.outputs outbox.new.outputs)) result
            (engine_move self.old (event_view event.now)) self.old self.new }
        // Where memory may be refused: not at a refusal, and not where nothing is kept or told.
        ensures memory { OnErr result (MayWant (event_view event.now)
            (engine_move self.old (event_view event.now)).answer) }
        ensures kept { KeepsOutputs outbox.old.outputs outbox.new.outputs }
        // What is appended is what the answer tells: nothing, but where it is `Outputs`.
        ensures told { let told = told_since outbox.old.outputs outbox.new.outputs in
            IfOk result (λ a. told ≡ outputs_in (answered_view told a)) }
        ensures still { OnErr result (outbox.new.outputs ≡ outbox.old.outputs) }
        // Whatever legal history the engine stood at: the reply, and the history that it stands at then.
        ensures stands { StandsReceived (answered_view (told_since outbox.old.outputs outbox.new.outputs)) result
            (event_view event.now) self.old self.new }
    {
        match *event {
            Event::NewDialogue => created(self.new_dialogue()),
            Event::Invoke(on, invoke) => self.answer_into(on, Request::Invoke(invoke), outbox),
            Event::ResultLast(on, last) => self.answer_into(on, Request::ResultLast(last), outbox),
            Event::ResultMore(on, more) => self.answer_into(on, Request::ResultMore(more), outbox),
            Event::ErrorBack(on, error) => self.answer_into(on, Request::ErrorBack(error), outbox),
            Event::Reject(on, reject) => self.answer_into(on, Request::Reject(reject), outbox),
            Event::Cancel(on, cancel) => self.answer_into(on, Request::Cancel(cancel), outbox),
            Event::Uni(on, uni) => self.answer_into(on, Request::Uni(uni), outbox),
            Event::Begin(on, begin) => self.answer_into(on, Request::Begin(begin), outbox),
            Event::Continue(on, go_on) => self.answer_into(on, Request::Continue(go_on), outbox),
            Event::End(on, end) => self.answer_into(on, Request::End(end), outbox),
            Event::Abort(on, abort) => self.answer_into(on, Request::Abort(abort), outbox),
            Event::Bytes(from, bytes) => {
                self.receive_into(from, bytes, outbox)?;
                Ok(Answered::Outputs)
            }
            Event::Moment(now) => passed(self.advance_into(now, outbox)),
        }
    }
}

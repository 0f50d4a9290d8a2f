//! `Engine::handle`: an event as a value, answered by the call of its name (own).

ghost use Rattle.std.specs.Prelude.{◌≡◌, IsTrue, OnErr};
ghost use Rattle.tcap_dialogue.specs.RequestForm.{takes_memory};
ghost use Rattle.tcap_primitives.specs.FaultViews.{fault_view};
ghost use Rattle.tcap_primitives.specs.RequestViews.{request_view};
ghost use Rattle.tcap_engine.specs.StepForm.{EngineAnswers, EngineReceives, EngineRefuses, birth_answer, outputs_answer};
ghost use Rattle.tcap_engine.specs.RequestInTable.{asked_answer};
ghost use Rattle.tcap_engine.specs.EventViews.{answer_view, event_view};
ghost use Rattle.tcap_engine.specs.HistoryForm.{ReceivedOn, StandsAfter, StandsReceived, StandsRefused};
ghost use Rattle.tcap_engine.specs.Running.{MayWant};
ghost use Rattle.tcap_model.specs.Histories.History.{History};
ghost use Rattle.tcap_model.specs.Table.EngineMove.{EngineMoved, engine_move};
ghost use Rattle.tcap_model.specs.Table.World.{World};
ghost use Rattle.tcap_model.specs.Words.Event as model;

use super::Engine;
use crate::event::{Answer, Event};
use ber_core::OutOfMemory;
use std::alloc::Allocator;
use tcap_dialogue::{Asked, Fault, Output, Request};

/// A refusal is an answer, but for `OutOfMemory`.
fn refused<'m, A: Allocator + Copy>(fault: Fault) -> Result<Answer<'m, A>, OutOfMemory>
    ensures moves { (m : EngineMoved) (old new : World) → EngineRefuses (fault_view fault) m old new
        → EngineReceives answer_view result m old new }
    ensures memory { (m : EngineMoved) (old new : World) → EngineRefuses (fault_view fault) m old new
        → OnErr result (IsTrue (takes_memory m.answer)) }
    ensures stands { (h : History) (event : model.Event) (new : World)
        → StandsRefused (fault_view fault) h event new → ReceivedOn answer_view result h event new }
{
    if fault == Fault::OutOfMemory {
        Err(OutOfMemory)
    } else {
        Ok(Answer::Refused(fault))
    }
}

/// The answer to the request for a new dialogue.
fn created<'m, A: Allocator + Copy>(
    identifier: Result<u32, Fault>,
) -> Result<Answer<'m, A>, OutOfMemory>
    ensures moves { (m : EngineMoved) (old new : World) → EngineAnswers birth_answer identifier m old new
        → EngineReceives answer_view result m old new }
    ensures memory { (m : EngineMoved) (old new : World) → EngineAnswers birth_answer identifier m old new
        → OnErr result (IsTrue (takes_memory m.answer)) }
    ensures stands { (h : History) (event : model.Event) (new : World)
        → StandsAfter birth_answer identifier h event new → ReceivedOn answer_view result h event new }
{
    match identifier {
        Ok(identifier) => Ok(Answer::NewDialogue(identifier)),
        Err(fault) => refused(fault),
    }
}

/// The answer to a request on a dialogue, which was accepted.
fn accepted<'m, A: Allocator + Copy>(asked: Asked<'m, A>) -> Answer<'m, A>
    ensures { answer_view result ≡ asked_answer asked.entry }
{
    match asked {
        Asked::Number(number) => Answer::Number(number),
        Asked::Done => Answer::Done,
        Asked::GivenUp(number) => Answer::GivenUp(number),
        Asked::Step(step) => Answer::Outputs(step.outputs),
    }
}

/// The answer to a request on a dialogue.
fn asked<'m, A: Allocator + Copy>(
    asked: Result<Asked<'m, A>, Fault>,
) -> Result<Answer<'m, A>, OutOfMemory>
    ensures moves { (m : EngineMoved) (old new : World) → EngineAnswers asked_answer asked.entry m old new
        → EngineReceives answer_view result m old new }
    ensures memory { (m : EngineMoved) (old new : World) → EngineAnswers asked_answer asked.entry m old new
        → OnErr result (IsTrue (takes_memory m.answer)) }
    ensures stands { (h : History) (event : model.Event) (new : World)
        → StandsAfter asked_answer asked.entry h event new → ReceivedOn answer_view result h event new }
{
    match asked {
        Ok(asked) => Ok(accepted(asked)),
        Err(fault) => refused(fault),
    }
}

/// The answer to a moment.
fn told<'m, A: Allocator + Copy>(
    outputs: Result<Vec<Output<'m, A>, A>, Fault>,
) -> Result<Answer<'m, A>, OutOfMemory>
    ensures moves { (m : EngineMoved) (old new : World) → EngineAnswers outputs_answer outputs.entry m old new
        → EngineReceives answer_view result m old new }
    ensures memory { (m : EngineMoved) (old new : World) → EngineAnswers outputs_answer outputs.entry m old new
        → OnErr result (IsTrue (takes_memory m.answer)) }
    ensures stands { (h : History) (event : model.Event) (new : World)
        → StandsAfter outputs_answer outputs.entry h event new → ReceivedOn answer_view result h event new }
{
    match outputs {
        Ok(outputs) => Ok(Answer::Outputs(outputs)),
        Err(fault) => refused(fault),
    }
}

impl<A: Allocator + Copy> Engine<A> {
    /// A request on the dialogue with this identifier, and its answer.
    // In each arm of `handle` the request is known, and the match on it folds away.
    #[inline(always)]
    fn answer<'m>(
        &mut self,
        dialogue: u32,
        request: Request<'_>,
    ) -> Result<Answer<'m, A>, OutOfMemory>
        ensures moves { EngineReceives answer_view result
            (engine_move self.old (model.Event.on_dialogue dialogue (request_view request.entry))) self.old self.new }
        ensures memory { OnErr result (IsTrue (takes_memory
            (engine_move self.old (model.Event.on_dialogue dialogue (request_view request.entry))).answer)) }
        ensures stands { StandsReceived answer_view result
            (model.Event.on_dialogue dialogue (request_view request.entry)) self.old self.new }
    {
        asked(self.request(dialogue, &request))
    }

    /// Any event; the calls of their own names are the same. A refusal is an answer too; the only error is
    /// that memory was refused, and then nothing has changed.
    pub fn handle<'m>(&mut self, event: &Event<'m>) -> Result<Answer<'m, A>, OutOfMemory>
        ensures moves { EngineReceives answer_view result
            (engine_move self.old (event_view event.now)) self.old self.new }
        // Where memory may be refused: not at a refusal, and not where nothing is kept or told.
        ensures memory { OnErr result (MayWant (event_view event.now)
            (engine_move self.old (event_view event.now)).answer) }
        // Whatever legal history the engine stood at: the reply, and the history that it stands at then.
        ensures stands { StandsReceived answer_view result (event_view event.now) self.old self.new }
    {
        match *event {
            Event::NewDialogue => created(self.new_dialogue()),
            Event::Invoke(dialogue, invoke) => self.answer(dialogue, Request::Invoke(invoke)),
            Event::ResultLast(dialogue, last) => self.answer(dialogue, Request::ResultLast(last)),
            Event::ResultMore(dialogue, more) => self.answer(dialogue, Request::ResultMore(more)),
            Event::ErrorBack(dialogue, error) => self.answer(dialogue, Request::ErrorBack(error)),
            Event::Reject(dialogue, reject) => self.answer(dialogue, Request::Reject(reject)),
            Event::Cancel(dialogue, cancel) => self.answer(dialogue, Request::Cancel(cancel)),
            Event::Uni(dialogue, uni) => self.answer(dialogue, Request::Uni(uni)),
            Event::Begin(dialogue, begin) => self.answer(dialogue, Request::Begin(begin)),
            Event::Continue(dialogue, go_on) => self.answer(dialogue, Request::Continue(go_on)),
            Event::End(dialogue, end) => self.answer(dialogue, Request::End(end)),
            Event::Abort(dialogue, abort) => self.answer(dialogue, Request::Abort(abort)),
            Event::Bytes(from, bytes) => Ok(Answer::Outputs(self.receive(from, bytes)?)),
            Event::Moment(now) => told(self.advance(now)),
        }
    }
}

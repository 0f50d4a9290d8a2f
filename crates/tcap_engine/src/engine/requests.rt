//! Requests on a dialogue: it is found by its identifier, asked, and taken out where it is over.

// Hints to inline: each step of an engine runs through it; docs/PERF.md says what the whole of it inlined gains.

ghost use Rattle.std.specs.Prelude.{◌≡◌, List, IfOk, OnErr, ◌≤◌, nat_eq, IfSome};
ghost use Rattle.tcap_dialogue.specs.AskViews.{Appends, AsksInto};
ghost use Rattle.tcap_primitives.specs.RequestViews.{request_view};
ghost use Rattle.tcap_primitives.specs.SinkViews.{told_since, KeepsOutputs};
ghost use Rattle.tcap_engine.specs.StepForm.{EngineAnswers, since_answer};
ghost use Rattle.tcap_engine.specs.AnswerKinds.{MayAnswer, kind_of, AnswerKind};
ghost use Rattle.tcap_engine.specs.RequestInTable.{IsLeft, accepted_answer, asked_answer, ends_dialogue, keeps_timer, AnswersInTable};
ghost use Rattle.tcap_engine.specs.HistoryForm.{Stands, StandsAfter};
ghost use Rattle.tcap_model.specs.Table.EngineMove.{engine_move, number_after, EngineMoved};
ghost use Rattle.tcap_model.specs.Words.Event.{Event};
ghost use Rattle.tcap_dialogue.specs.StepViews.{asked, outcome};
ghost use Rattle.tcap_invocation.specs.Invocations.{AllBelow};
ghost use Rattle.tcap_invocation.specs.Stage.{moment_limit};
ghost use Rattle.tcap_model.specs.Table.TableMove.{DialogueEvent, table_move};
ghost use Rattle.std.specs.Map.{lookup};
ghost use Rattle.tcap_engine.specs.DialogueEntries.{IsWithin};
ghost use Rattle.tcap_model.specs.Histories.History.{History};
ghost use Rattle.tcap_model.specs.Table.World.{World};
ghost use Rattle.tcap_model.specs.Words.Output as model;

use super::Engine;
use super::component_requests::spent_fault;
use crate::dialogues::{Dialogues, settle, timer_after};
use std::alloc::Allocator;
use tcap_dialogue::{Accepted, Asked, Dialogue, Fault, Request, Sink, SinkKind, Spares};
use tcap_primitives::ranges;

/// Whether the dialogue is over.
#[inline(always)]
fn ends_dialogue(accepted: Accepted) -> bool
    ensures { result ≡ ends_dialogue accepted }
{
    match accepted {
        Accepted::Number(_) | Accepted::Done | Accepted::GivenUp(_) => false,
        Accepted::Step(over) => over,
    }
}

/// Whether the next timer of a dialogue is after the request what it was: a component is queued, and no identifier
/// is freed.
#[inline(always)]
fn keeps_timer(request: &Request<'_>) -> bool
    ensures { result ≡ keeps_timer (request_view request.now) }
{
    match request {
        Request::Invoke { .. }
        | Request::ResultLast { .. }
        | Request::ResultMore { .. }
        | Request::ErrorBack { .. } => true,
        Request::Reject { .. }
        | Request::Cancel { .. }
        | Request::Uni { .. }
        | Request::Begin { .. }
        | Request::Continue { .. }
        | Request::End { .. }
        | Request::Abort { .. } => false,
    }
}

/// Any request on a dialogue, where `number` is what an Invoke gets; the greatest one is never drawn.
// A part of `ask_in`, for the same reason.
#[inline(always)]
fn ask_one<'m, A: Allocator + Copy, K: SinkKind>(
    dialogue: &mut Dialogue<A>,
    spares: &mut Spares<A>,
    reject_ms: u64,
    clock: u64,
    number: u64,
    request: &Request<'_>,
    sink: &mut Sink<'m, A, K>,
) -> Result<Accepted, Fault>
    requires wait { dialogue.old.invocations.reject_ms ≡ reject_ms }
    requires limited { reject_ms ≤ moment_limit }
    requires clock { clock ≤ moment_limit }
    requires number { AllBelow number dialogue.old.invocations.rows }
    ensures answer { AsksInto sink.old.outputs sink.new.outputs result
        (outcome (table_move (asked clock number) dialogue.old (DialogueEvent.request (request_view request.now))))
        dialogue.old dialogue.new }
    ensures kept { dialogue.new.standing.identifier ≡ dialogue.old.standing.identifier }
{
    if number == u64::MAX {
        if let Request::Invoke(invoke) = request {
            return Err(spent_fault(dialogue, invoke));
        }
    }
    dialogue.ask_with(spares, reject_ms, clock, number, request, sink)
}

/// A request on the dialogue of an identifier, which is taken out where it is over.
// Each call that knows its request has its own copy, in which the match on it folds away.
#[inline(always)]
fn ask_in<'m, A: Allocator + Copy, K: SinkKind>(
    table: &mut Dialogues<A>,
    identifier: u32,
    reject_ms: u64,
    clock: u64,
    number: u64,
    request: &Request<'_>,
    sink: &mut Sink<'m, A, K>,
) -> Result<Accepted, Fault>
    requires limited { reject_ms ≤ moment_limit }
    requires clock { clock ≤ moment_limit }
    requires within { IfSome (lookup (nat_eq identifier) table.old) (IsWithin reject_ms number) }
    ensures answer { AnswersInTable (accepted_answer
        (told_since sink.old.outputs sink.new.outputs)) result
        (λ x. outcome (table_move (asked clock number) x (DialogueEvent.request (request_view request.now))))
        identifier (lookup (nat_eq identifier) table.old) table.old table.new }
    ensures appends { IfOk result (λ a. Appends a sink.old.outputs sink.new.outputs) }
    ensures still { OnErr result (sink.new.outputs ≡ sink.old.outputs) }
{
    let Some(dialogue) = table.rows.get_mut(identifier) else {
        return Err(Fault::UnknownDialogue);
    };
    let spares = &mut table.spares;
    let accepted = ask_one(dialogue, spares, reject_ms, clock, number, request, sink)?;
    if keeps_timer(request) {
        return Ok(accepted);
    }
    let is_over = ends_dialogue(accepted);
    let timer = timer_after(dialogue, is_over);
    settle(
        &mut table.rows,
        &mut table.spares,
        identifier,
        is_over,
        timer,
    );
    Ok(accepted)
}

/// The number of the next invocation: one that was answered is drawn.
#[inline(always)]
fn next_number(accepted: Accepted, next: u64) -> u64
    requires { (told : List model.Output) → IsLeft (accepted_answer told accepted) next }
    ensures { (told : List model.Output) → result ≡ number_after (accepted_answer told accepted) next }
{
    match accepted {
        Accepted::Number(_) => next + 1,
        Accepted::Done | Accepted::GivenUp(_) | Accepted::Step(_) => next,
    }
}

impl<A: Allocator + Copy> Engine<A> {
    /// Any request on the dialogue with this identifier; the calls of their own names are the same. Faults:
    /// `UnknownDialogue`, and those of the request.
    // Each call that knows its request has its own copy, in which the match on it folds away.
    #[inline(always)]
    pub fn request<'m>(
        &mut self,
        dialogue: u32,
        request: &Request<'_>,
    ) -> Result<Asked<'m, A>, Fault>
        ensures moves { EngineAnswers asked_answer result
            (engine_move self.old (Event.on_dialogue dialogue (request_view request.now))) self.old self.new }
        // The answer is of the request's kind.
        ensures kind { IfOk result (λ asked. MayAnswer (kind_of (request_view request.now)) (asked_answer asked)) }
        // Whatever legal history the engine stood at: the reply, and the history that it stands at then.
        ensures stands { Stands asked_answer result
            (Event.on_dialogue dialogue (request_view request.now)) self.old self.new }
        // A refusal changes nothing.
        ensures err { OnErr result (self.new ≡ self.old) }
    {
        let mut sink = Sink::vector(self.table.allocator());
        let accepted = self.request_with(dialogue, request, &mut sink)?;
        Ok(accepted.asked(sink.into_vector()))
    }

    /// `request`, whose outputs are appended to what a sink holds.
    #[tactic(auto, using(crate::proofs::StandingLemmas::stands_after))]
    #[inline(always)]
    pub(super) fn request_with<'m, K: SinkKind>(
        &mut self,
        dialogue: u32,
        request: &Request<'_>,
        sink: &mut Sink<'m, A, K>,
    ) -> Result<Accepted, Fault>
        ensures moves { EngineAnswers (accepted_answer
            (told_since sink.old.outputs sink.new.outputs)) result
            (engine_move self.old (Event.on_dialogue dialogue (request_view request.now))) self.old self.new }
        // The answer is of the request's kind.
        ensures kind { IfOk result (λ accepted. (told : List model.Output)
            → MayAnswer (kind_of (request_view request.now)) (accepted_answer told accepted)) }
        ensures stands { Stands (accepted_answer
            (told_since sink.old.outputs sink.new.outputs)) result
            (Event.on_dialogue dialogue (request_view request.now)) self.old self.new }
        ensures appends { IfOk result (λ a. Appends a sink.old.outputs sink.new.outputs) }
        // A refusal changes nothing.
        ensures err { OnErr result (self.new ≡ self.old) }
        ensures still { OnErr result (sink.new.outputs ≡ sink.old.outputs) }
    {
        ranges::request(request);
        self.ask(dialogue, request, sink)
    }

    /// `request_with`, by the engine's move.
    #[inline(always)]
    pub(super) fn ask<'m, K: SinkKind>(
        &mut self,
        dialogue: u32,
        request: &Request<'_>,
        sink: &mut Sink<'m, A, K>,
    ) -> Result<Accepted, Fault>
        ensures moves { EngineAnswers (accepted_answer
            (told_since sink.old.outputs sink.new.outputs)) result
            (engine_move self.old (Event.on_dialogue dialogue (request_view request.now))) self.old self.new }
        ensures appends { IfOk result (λ a. Appends a sink.old.outputs sink.new.outputs) }
        ensures err { OnErr result (self.new ≡ self.old) }
        ensures still { OnErr result (sink.new.outputs ≡ sink.old.outputs) }
    {
        let accepted = ask_in(
            &mut self.table,
            dialogue,
            self.limits.reject_ms,
            self.clock,
            self.next_number,
            request,
            sink,
        )?;
        let next = next_number(accepted, self.next_number);
        self.next_number = next;
        Ok(accepted)
    }
}

/// A request of dialogue handling was accepted: what it answers was appended.
#[inline(always)]
pub(super) fn without_answer(accepted: Result<Accepted, Fault>) -> Result<(), Fault>
    requires { IfOk accepted (λ a. (told : List model.Output)
        → MayAnswer AnswerKind.outputs (accepted_answer told a)) }
    ensures moves { (before after : List model.Output) (m : EngineMoved) (old new : World)
        → EngineAnswers (accepted_answer (told_since before after)) accepted m old new
        → EngineAnswers (since_answer before after) result m old new }
    ensures stands { (before after : List model.Output) (h : History) (event : Event) (new : World)
        → StandsAfter (accepted_answer (told_since before after)) accepted h event new
        → StandsAfter (since_answer before after) result h event new }
    ensures kept { (before after : List model.Output) → IfOk accepted (λ a. Appends a before after)
        → OnErr accepted (after ≡ before) → KeepsOutputs before after }
    ensures err { (old new : World) → OnErr accepted (new ≡ old) → OnErr result (new ≡ old) }
    ensures still { (before after : List model.Output) → OnErr accepted (after ≡ before)
        → OnErr result (after ≡ before) }
{
    accepted?;
    Ok(())
}

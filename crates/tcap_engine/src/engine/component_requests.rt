//! The requests of component handling (Q.771, Component handling).

// Where a call goes by `request`, the kind of its answer is known: inlined, the match on it folds away. TC-INVOKE and
// TC-RESULT-L find their dialogue and ask it by calls of their own, for the reason that dialogue_requests.rt gives.
// TC-U-CANCEL does so too: its call answers the number itself, so nothing asks which kind of answer came.

ghost use Rattle.std.specs.Prelude.{◌≡◌, ◌≤◌, ℕ, nat_eq, true, option_copied, IfSome, OnErr, IfOk};
ghost use Rattle.std.specs.Map.{lookup};
ghost use Rattle.std.specs.Option.{option_map};
ghost use Rattle.tcap_component.specs.Views.{body_parts, code_parts, problem_parts};
ghost use Rattle.tcap_dialogue.specs.RequestForm.{RefusedBy, gave_up, numbered, queued_done};
ghost use Rattle.tcap_dialogue.specs.StepViews.{asked, outcome};
ghost use Rattle.tcap_engine.specs.DialogueEntries.{IsWithin};
ghost use Rattle.tcap_engine.specs.StepForm.{EngineAnswers};
ghost use Rattle.tcap_engine.specs.HistoryForm.{Stands, StandsAfter};
ghost use Rattle.tcap_model.specs.Table.EngineMove.{engine_move, EngineMoved};
ghost use Rattle.tcap_model.specs.Words.Event.{Event};
ghost use Rattle.tcap_model.specs.Words.Request as model;
ghost use Rattle.tcap_model.specs.Words.Request.{ComponentRequest};
ghost use Rattle.tcap_engine.specs.AnswerKinds.{AnswerKind, MayAnswer};
ghost use Rattle.tcap_engine.specs.RequestInTable.{AnswersInTable, asked_answer};
ghost use Rattle.tcap_invocation.specs.Stage.{moment_limit};
ghost use Rattle.tcap_model.specs.Table.TableMove.{DialogueEvent, table_move};
ghost use Rattle.tcap_model.specs.Words.Identifiers.{are_numbers_spent};
ghost use Rattle.tcap_primitives.specs.FaultViews.{fault_view};
ghost use Rattle.tcap_primitives.specs.RequestViews.{cancel_view, invoke_view, last_view};
ghost use Rattle.tcap_model.specs.Histories.History.{History};
ghost use Rattle.tcap_model.specs.Table.World.{World};

use super::Engine;
use crate::dialogues::{Dialogues, write_timer};
use std::alloc::Allocator;
use tcap_component::{Body, Code, Problem};
use tcap_dialogue::{
    Asked, CancelRequest, Dialogue, ErrorRequest, Fault, InvokeRequest, RejectRequest, Request,
    ResultRequest,
};
use tcap_invocation::Class;
use tcap_primitives::ranges;

impl<A: Allocator + Copy> Engine<A> {
    /// TC-INVOKE request: an invocation is queued, and its number answered. `id` and `linked` are -128 to
    /// 127, `parameter` is the octets of one element, `timeout_ms` is 1 to 2^62 milliseconds. Faults:
    /// `UnknownDialogue`, `BadTimeout`, `BadOid`, `BadParameter`, `InvokeIdInUse`, `NumbersSpent`,
    /// `TooLong`, `OutOfMemory`.
    #[tactic(auto, using(crate::proofs::StandingLemmas::stands_after))]
    pub fn invoke(
        &mut self,
        dialogue: u32,
        id: i8,
        class: Class,
        code: Code<'_>,
        parameter: Option<&[u8]>,
        linked: Option<i8>,
        timeout_ms: u64,
    ) -> Result<u64, Fault>
        ensures moves { EngineAnswers numbered result
            (engine_move self.old (Event.on_dialogue dialogue (model.Request.component (ComponentRequest.invoke id class
            (code_parts code.entry) (option_copied parameter.entry) linked timeout_ms)))) self.old self.new }
        ensures stands { Stands numbered result
            (Event.on_dialogue dialogue (model.Request.component (ComponentRequest.invoke id class
            (code_parts code.entry) (option_copied parameter.entry) linked timeout_ms))) self.old self.new }
        ensures err { OnErr result (self.new ≡ self.old) }
    {
        let invoke = InvokeRequest {
            id,
            class,
            code,
            parameter,
            linked,
            timeout_ms,
        };
        ranges::request(&Request::Invoke(invoke));
        let number = invoke_in(
            &mut self.table,
            dialogue,
            self.limits.reject_ms,
            self.next_number,
            &invoke,
        )?;
        self.next_number += 1;
        Ok(number)
    }

    /// TC-RESULT-L request: the last or only result of an invocation of the peer, -128 to 127, is queued.
    /// Faults: `UnknownDialogue`, `WrongState`, `BadOid`, `BadParameter`, `TooLong`, `OutOfMemory`.
    #[tactic(auto, using(crate::proofs::StandingLemmas::stands_after))]
    pub fn result_last(
        &mut self,
        dialogue: u32,
        id: i8,
        body: Option<Body<'_>>,
    ) -> Result<(), Fault>
        ensures moves { EngineAnswers queued_done result
            (engine_move self.old (Event.on_dialogue dialogue (model.Request.component
            (ComponentRequest.result_last id (option_map body_parts body.entry))))) self.old self.new }
        ensures stands { Stands queued_done result (Event.on_dialogue dialogue (model.Request.component
            (ComponentRequest.result_last id (option_map body_parts body.entry)))) self.old self.new }
        ensures err { OnErr result (self.new ≡ self.old) }
    {
        let result = ResultRequest { id, body };
        ranges::request(&Request::ResultLast(result));
        result_last_in(&mut self.table, dialogue, self.limits.reject_ms, &result)
    }

    /// TC-RESULT-NL request: a result of an invocation of the peer, -128 to 127, that others follow is
    /// queued. Faults: as of `result_last`.
    pub fn result_more(
        &mut self,
        dialogue: u32,
        id: i8,
        body: Option<Body<'_>>,
    ) -> Result<(), Fault>
        ensures moves { EngineAnswers queued_done result
            (engine_move self.old (Event.on_dialogue dialogue (model.Request.component
            (ComponentRequest.result_more id (option_map body_parts body.entry))))) self.old self.new }
        ensures stands { Stands queued_done result (Event.on_dialogue dialogue (model.Request.component
            (ComponentRequest.result_more id (option_map body_parts body.entry)))) self.old self.new }
        ensures err { OnErr result (self.new ≡ self.old) }
    {
        queued_of(self.request(dialogue, &Request::ResultMore(ResultRequest { id, body })))
    }

    /// TC-U-ERROR request: the error of an invocation of the peer, -128 to 127, is queued; `parameter` is
    /// the octets of one element. Faults: as of `result_last`.
    pub fn error_back(
        &mut self,
        dialogue: u32,
        id: i8,
        code: Code<'_>,
        parameter: Option<&[u8]>,
    ) -> Result<(), Fault>
        ensures moves { EngineAnswers queued_done result
            (engine_move self.old (Event.on_dialogue dialogue (model.Request.component (ComponentRequest.error_back id
            (code_parts code.entry) (option_copied parameter.entry))))) self.old self.new }
        ensures stands { Stands queued_done result
            (Event.on_dialogue dialogue (model.Request.component (ComponentRequest.error_back id
            (code_parts code.entry) (option_copied parameter.entry)))) self.old self.new }
        ensures err { OnErr result (self.new ≡ self.old) }
    {
        let error = ErrorRequest {
            id,
            code,
            parameter,
        };
        queued_of(self.request(dialogue, &Request::ErrorBack(error)))
    }

    /// TC-U-REJECT request: a Reject is queued, of the component with this identifier, -128 to 127, if it
    /// is known. Faults: `UnknownDialogue`, `WrongState`, `TooLong`, `OutOfMemory`.
    pub fn u_reject(&mut self, dialogue: u32, id: Option<i8>, problem: Problem) -> Result<(), Fault>
        ensures moves { EngineAnswers queued_done result (engine_move self.old (Event.on_dialogue dialogue
            (model.Request.component (ComponentRequest.u_reject id (problem_parts problem))))) self.old self.new }
        ensures stands { Stands queued_done result (Event.on_dialogue dialogue
            (model.Request.component (ComponentRequest.u_reject id (problem_parts problem)))) self.old self.new }
        ensures err { OnErr result (self.new ≡ self.old) }
    {
        queued_of(self.request(dialogue, &Request::Reject(RejectRequest { id, problem })))
    }

    /// TC-U-CANCEL request: the Queued or Sent invocation with this identifier, -128 to 127, is given up,
    /// and its number answered. Takes no memory. Faults: `UnknownDialogue`, `NoSuchInvocation`.
    #[tactic(auto, using(crate::proofs::StandingLemmas::stands_after))]
    pub fn u_cancel(&mut self, dialogue: u32, id: i8) -> Result<u64, Fault>
        ensures moves { EngineAnswers gave_up result (engine_move self.old
            (Event.on_dialogue dialogue (model.Request.component (ComponentRequest.u_cancel id)))) self.old self.new }
        ensures stands { Stands gave_up result
            (Event.on_dialogue dialogue (model.Request.component (ComponentRequest.u_cancel id))) self.old self.new }
        ensures err { OnErr result (self.new ≡ self.old) }
    {
        let cancel = CancelRequest { id };
        ranges::request(&Request::Cancel(cancel));
        cancel_in(&mut self.table, dialogue, &cancel)
    }
}

/// A component was queued.
#[inline(always)]
fn queued_of<A: Allocator + Copy>(asked: Result<Asked<'_, A>, Fault>) -> Result<(), Fault>
    requires { IfOk asked (λ a. MayAnswer AnswerKind.queued (asked_answer a)) }
    ensures moves { (m : EngineMoved) (old new : World) → EngineAnswers asked_answer asked.entry m old new
        → EngineAnswers queued_done result m old new }
    ensures stands { (h : History) (event : Event) (new : World)
        → StandsAfter asked_answer asked.entry h event new → StandsAfter queued_done result h event new }
    ensures err { (old new : World) → OnErr asked.entry (new ≡ old) → OnErr result (new ≡ old) }
{
    asked?;
    Ok(())
}

/// Why an Invoke is refused where all numbers are spent: for a fault of its own, if it has one.
#[inline(never)]
pub(super) fn spent_fault<A: Allocator + Copy>(
    dialogue: &Dialogue<A>,
    request: &InvokeRequest<'_>,
) -> Fault
    ensures { (clock number : ℕ) → are_numbers_spent number ≡ true → RefusedBy (fault_view result)
        (outcome (table_move (asked clock number) dialogue.now
        (DialogueEvent.request (model.Request.component (invoke_view request.now))))) dialogue.now dialogue.now }
{
    let fault = dialogue.check_invoke(
        request.id,
        request.code,
        request.parameter,
        request.timeout_ms,
    );
    fault.unwrap_or(Fault::NumbersSpent)
}

/// TC-INVOKE on the dialogue of an identifier, where `number` is what it gets; the greatest one is never drawn.
#[inline(always)]
fn invoke_in<A: Allocator + Copy>(
    table: &mut Dialogues<A>,
    identifier: u32,
    reject_ms: u64,
    number: u64,
    request: &InvokeRequest<'_>,
) -> Result<u64, Fault>
    requires limited { reject_ms ≤ moment_limit }
    requires within { IfSome (lookup (nat_eq identifier) table.old) (IsWithin reject_ms number) }
    ensures { (clock : ℕ) → AnswersInTable numbered result
        (λ x. outcome (table_move (asked clock number) x
        (DialogueEvent.request (model.Request.component (invoke_view request.now)))))
        identifier (lookup (nat_eq identifier) table.old) table.old table.new }
{
    let Some(dialogue) = table.rows.get_mut(identifier) else {
        return Err(Fault::UnknownDialogue);
    };
    if number == u64::MAX {
        return Err(spent_fault(dialogue, request));
    }
    dialogue.invoke_with(&mut table.spares, reject_ms, number, request)
}

/// TC-RESULT-L on the dialogue of an identifier.
#[inline(always)]
fn result_last_in<A: Allocator + Copy>(
    table: &mut Dialogues<A>,
    identifier: u32,
    reject_ms: u64,
    request: &ResultRequest<'_>,
) -> Result<(), Fault>
    requires limited { reject_ms ≤ moment_limit }
    requires wait { IfSome (lookup (nat_eq identifier) table.old) (λ d. d.invocations.reject_ms ≡ reject_ms) }
    ensures { (clock number : ℕ) → AnswersInTable queued_done result
        (λ x. outcome (table_move (asked clock number) x
        (DialogueEvent.request (model.Request.component (last_view request.now)))))
        identifier (lookup (nat_eq identifier) table.old) table.old table.new }
{
    let Some(dialogue) = table.rows.get_mut(identifier) else {
        return Err(Fault::UnknownDialogue);
    };
    dialogue.result_last_with(&mut table.spares, reject_ms, request)
}

/// TC-U-CANCEL on the dialogue of an identifier, whose timer is then written anew: the one before may have been the
/// invocation's.
#[inline(always)]
fn cancel_in<A: Allocator + Copy>(
    table: &mut Dialogues<A>,
    identifier: u32,
    request: &CancelRequest,
) -> Result<u64, Fault>
    ensures { (clock number : ℕ) → AnswersInTable gave_up result
        (λ x. outcome (table_move (asked clock number) x
        (DialogueEvent.request (model.Request.component (cancel_view request.now)))))
        identifier (lookup (nat_eq identifier) table.old) table.old table.new }
{
    let Some(dialogue) = table.rows.get_mut(identifier) else {
        return Err(Fault::UnknownDialogue);
    };
    let number = dialogue.cancel_with(&mut table.spares, request)?;
    let timer = dialogue.next_timer();
    write_timer(&mut table.rows, identifier, timer);
    Ok(number)
}

//! TC-INVOKE and TC-U-CANCEL (Q.771, Component handling).

// Hints to inline have the reasons that requests.rt gives.

ghost use Rattle.std.specs.Prelude.{◌≡◌, ◌↔◌, ◌<◌, ◌≤◌, ◌^◌, ◌-◌, ◌&&◌, ℕ, ℤ, length, Option, Some, None, IfOk, OnOk, IfErr, IsTrue, nat_lt, nat_le, option_copied};
ghost use Rattle.std.specs.Option.{option_map};
ghost use Rattle.tcap_component.specs.Views.{code_parts, component_parts};
ghost use Rattle.tcap_component.specs.Written.{CanWriteComponent, written_component};
ghost use Rattle.tcap_dialogue.specs.ComponentRefusals.{invoke_refusal};
ghost use Rattle.tcap_dialogue.specs.RequestForm.{Answers, gave_up, numbered};
ghost use Rattle.tcap_dialogue.specs.StepViews.{asked, requested};
ghost use Rattle.tcap_invocation.specs.Invocations.{AllBelow, add_fault};
ghost use Rattle.tcap_invocation.specs.Stage.{moment_limit};
ghost use Rattle.tcap_invocation.specs.declared.class.Class.{Class};
ghost use Rattle.tcap_model.specs.Procedures.Refusals.{invoke_fault};
ghost use Rattle.tcap_model.specs.Table.TableMove.{situation};
ghost use Rattle.tcap_model.specs.Words.Request.{Request};
ghost use Rattle.tcap_model.specs.Words.Request.ComponentRequest.{invoke, u_cancel};
ghost use Rattle.tcap_primitives.specs.FaultViews.{fault_view};
ghost use Rattle.tcap_primitives.specs.declared.fault.Fault.TheVariants as fault;
ghost use Rattle.tcap_primitives.specs.RequestViews.{cancel_view, invoke_view};

use crate::dialogue::Dialogue;
use crate::dialogue::spares::Spares;
use std::alloc::Allocator;
use tcap_component::{Code, Component};
use tcap_invocation::{Class, MAX_MOMENT};
use tcap_primitives::{CancelRequest, Fault, InvokeRequest, Invoking};

/// Whether a timeout is neither 0 nor above the limit.
#[inline(always)]
fn is_timeout(timeout_ms: u64) -> bool
    ensures { result ≡ (nat_lt 0 timeout_ms && nat_le timeout_ms moment_limit) }
{
    0 < timeout_ms && timeout_ms <= MAX_MOMENT
}

/// Whether a component that was judged so can be written: at most room for it is missing.
#[inline(always)]
fn is_spelled(judged: Result<usize, Fault>) -> bool
    ensures { IsTrue result ↔ IfErr judged (λ f. f ≡ fault.TooLong) }
{
    match judged {
        Ok(_) => true,
        Err(fault) => fault == Fault::TooLong,
    }
}

impl<A: Allocator + Copy> Dialogue<A> {
    /// TC-INVOKE request: the invocation is Queued with this number, which is above all that the dialogue
    /// had, and answered. `id` and `linked` are -128 to 127, `parameter` is the octets of one element,
    /// `timeout_ms` is 1 to 2^62 milliseconds.
    #[inline(always)]
    pub fn invoke(
        &mut self,
        number: u64,
        id: i8,
        class: Class,
        code: Code<'_>,
        parameter: Option<&[u8]>,
        linked: Option<i8>,
        timeout_ms: u64,
    ) -> Result<u64, Fault>
        requires left { number < 2 ^ 64 - 1 }
        requires above { AllBelow number self.old.invocations.rows }
        ensures answer { Answers numbered result (requested 0 number self.old (Request.component (invoke id class
            (code_parts code.entry) (option_copied parameter.entry) linked timeout_ms))) self.old self.new }
        ensures kept { self.new.standing.identifier ≡ self.old.standing.identifier }
    {
        let request = InvokeRequest {
            id,
            class,
            code,
            parameter,
            linked,
            timeout_ms,
        };
        self.queue_invoke_apart(number, &request)
    }

    /// TC-U-CANCEL request: the number of the invocation that is given up. An Invoke that wasn't sent
    /// leaves the queue. It takes no memory.
    #[inline(always)]
    pub fn u_cancel(&mut self, id: i8) -> Result<u64, Fault>
        ensures answer { Answers gave_up result
            (requested 0 0 self.old (Request.component (u_cancel id))) self.old self.new }
        ensures kept { self.new.standing.identifier ≡ self.old.standing.identifier }
    {
        self.give_up_invocation(&CancelRequest { id })
    }

    /// What of an Invoke the dialogue refuses, whatever its number: BadTimeout, BadOid, BadParameter,
    /// InvokeIdInUse. It takes no memory.
    #[inline(never)]
    pub fn check_invoke(
        &self,
        id: i8,
        code: Code<'_>,
        parameter: Option<&[u8]>,
        timeout_ms: u64,
    ) -> Option<Fault>
        ensures { (number : ℕ) (class : Class) (linked : Option ℤ) →
            let r = Request.component
            (invoke id class (code_parts code.entry) (option_copied parameter.entry) linked timeout_ms) in
            option_map fault_view result ≡ invoke_fault (situation (asked 0 number) self.now r) r }
    {
        let component = Component::Invoke {
            id,
            linked: None,
            code,
            parameter,
        };
        match self.judge_invoke(id, timeout_ms, &component) {
            Ok(_) => None,
            Err(fault) => {
                // The room is looked at last: where it alone is missing, none of these faults is due.
                if fault == Fault::TooLong {
                    None
                } else {
                    Some(fault)
                }
            }
        }
    }

    /// How many octets an Invoke has, or why it is refused, its number and memory apart: BadTimeout, BadOid,
    /// BadParameter, InvokeIdInUse, TooLong. It takes no memory.
    // Code and parameter are judged once, whether room is missing or not: their length is found with them.
    #[inline(always)]
    fn judge_invoke(
        &self,
        id: i8,
        timeout_ms: u64,
        component: &Component<'_>,
    ) -> Result<usize, Fault>
        ensures len { IfOk result (λ n. n ≡ length (written_component (component_parts component.now))) }
        ensures can { OnOk result (CanWriteComponent (component_parts component.now)) }
        ensures free { OnOk result (add_fault self.now.invocations.rows id timeout_ms ≡ None) }
        ensures ok { OnOk result (invoke_refusal self.now id timeout_ms (component_parts component.now) ≡ None) }
        ensures err { IfErr result (λ f. invoke_refusal self.now id timeout_ms (component_parts component.now)
            ≡ Some (fault_view f)) }
    {
        if !is_timeout(timeout_ms) {
            return Err(Fault::BadTimeout);
        }
        let judged = self.queue.judge(component);
        if !is_spelled(judged) {
            return judged;
        }
        if self.invocations.in_use(id) {
            return Err(Fault::InvokeIdInUse);
        }
        judged
    }

    /// Queues an Invoke and takes its invocation in, Queued with this number.
    #[inline(always)]
    pub(super) fn queue_invoke(
        &mut self,
        number: u64,
        request: &InvokeRequest<'_>,
    ) -> Result<u64, Fault>
        requires left { number < 2 ^ 64 - 1 }
        requires above { AllBelow number self.old.invocations.rows }
        ensures answer { Answers numbered result
            (requested 0 number self.old (Request.component (invoke_view request.now))) self.old self.new }
        ensures kept { self.new.standing.identifier ≡ self.old.standing.identifier }
    {
        let component = Component::Invoke {
            id: request.id,
            linked: request.linked,
            code: request.code,
            parameter: request.parameter,
        };
        let len = self.judge_invoke(request.id, request.timeout_ms, &component)?;
        self.queue.reserve(len)?;
        let class = request.class;
        self.invocations
            .add_free(request.id, number, class, request.timeout_ms)?;
        self.queue
            .append_component(&component, len, Some(Invoking { number, class }));
        Ok(number)
    }

    /// Gives an invocation up.
    #[inline(never)]
    pub(super) fn give_up_invocation(&mut self, request: &CancelRequest) -> Result<u64, Fault>
        ensures answer { Answers gave_up result
            (requested 0 0 self.old (Request.component (cancel_view request.now))) self.old self.new }
        ensures kept { self.new.standing.identifier ≡ self.old.standing.identifier }
    {
        let Some(number) = self.invocations.give_up(request.id) else {
            return Err(Fault::NoSuchInvocation);
        };
        self.queue.remove_invoke(number);
        Ok(number)
    }

    /// `invoke`, where the component takes memory that other dialogues left; where it is refused that is given back.
    /// `number`, 0 to 2^64 - 2, is what the invocation gets, above those of the dialogue; `reject_ms`, at most 2^62
    /// milliseconds, is what the dialogue was made with. Faults: those of `invoke`
    /// (Q.771, TC-INVOKE; the memory is our own).
    #[inline(always)]
    pub fn invoke_with(
        &mut self,
        spares: &mut Spares<A>,
        reject_ms: u64,
        number: u64,
        request: &InvokeRequest<'_>,
    ) -> Result<u64, Fault>
        requires wait { self.old.invocations.reject_ms ≡ reject_ms }
        requires limited { reject_ms ≤ moment_limit }
        requires left { number < 2 ^ 64 - 1 }
        requires above { AllBelow number self.old.invocations.rows }
        ensures answer { Answers numbered result
            (requested 0 number self.old (Request.component (invoke_view request.now))) self.old self.new }
        ensures kept { self.new.standing.identifier ≡ self.old.standing.identifier }
    {
        self.borrow_for_invoke(spares, reject_ms);
        match self.queue_invoke(number, request) {
            Ok(number) => Ok(number),
            Err(fault) => {
                self.give_back(spares, reject_ms, true);
                Err(fault)
            }
        }
    }

    /// `u_cancel`. If it is accepted and the queue is empty then, the queue leaves its memory to others. It takes no
    /// memory (Q.771, TC-U-CANCEL; what becomes of the memory is our own).
    // Nothing is borrowed, so a refusal gives nothing back.
    #[inline(always)]
    pub fn cancel_with(
        &mut self,
        spares: &mut Spares<A>,
        request: &CancelRequest,
    ) -> Result<u64, Fault>
        ensures answer { Answers gave_up result
            (requested 0 0 self.old (Request.component (cancel_view request.now))) self.old self.new }
        ensures kept { self.new.standing.identifier ≡ self.old.standing.identifier }
    {
        let number = self.give_up_invocation(request)?;
        self.leave_queue(spares);
        Ok(number)
    }

    /// `queue_invoke`, as a call.
    #[inline(never)]
    pub(super) fn queue_invoke_apart(
        &mut self,
        number: u64,
        request: &InvokeRequest<'_>,
    ) -> Result<u64, Fault>
        requires left { number < 2 ^ 64 - 1 }
        requires above { AllBelow number self.old.invocations.rows }
        ensures answer { Answers numbered result
            (requested 0 number self.old (Request.component (invoke_view request.now))) self.old self.new }
        ensures kept { self.new.standing.identifier ≡ self.old.standing.identifier }
    {
        self.queue_invoke(number, request)
    }
}

//! TC-RESULT-L, TC-RESULT-NL, TC-U-ERROR and TC-U-REJECT (Q.771, Component handling): the peer is answered by a
//! component, which is written at once and queued until the next message goes out.

// Hints to inline have the reasons that requests.rt gives.

ghost use Rattle.std.specs.Prelude.{◌≡◌, ◌≤◌, length, Some, None, IfOk, OnOk, IfErr, option_copied};
ghost use Rattle.std.specs.Option.{option_map};
ghost use Rattle.tcap_component.specs.Views.{body_parts, code_parts, component_parts, problem_parts};
ghost use Rattle.tcap_component.specs.Written.{CanWriteComponent, written_component};
ghost use Rattle.tcap_dialogue.specs.ComponentRefusals.{answer_fault, answered};
ghost use Rattle.tcap_dialogue.specs.RequestForm.{Answers, queued_done};
ghost use Rattle.tcap_dialogue.specs.StepViews.{requested};
ghost use Rattle.tcap_invocation.specs.Stage.{moment_limit};
ghost use Rattle.tcap_model.specs.Table.Dialogue.{with_invocations};
ghost use Rattle.tcap_model.specs.Table.TableMove.{freed_by};
ghost use Rattle.tcap_model.specs.Words.Request.{Request};
ghost use Rattle.tcap_model.specs.Words.Request.ComponentRequest.{error_back, result_last, result_more, u_reject};
ghost use Rattle.tcap_primitives.specs.FaultViews.{fault_view};
ghost use Rattle.tcap_primitives.specs.RequestViews.{error_view, last_view, more_view, reject_view};

use crate::dialogue::Dialogue;
use crate::dialogue::spares::Spares;
use std::alloc::Allocator;
use tcap_component::{Body, Code, Component, Kind, Problem};
use tcap_primitives::{ErrorRequest, Fault, RejectRequest, ResultRequest};

impl<A: Allocator + Copy> Dialogue<A> {
    /// TC-RESULT-L request.
    #[inline(always)]
    pub fn result_last(&mut self, id: i8, body: Option<Body<'_>>) -> Result<(), Fault>
        ensures answer { Answers queued_done result (requested 0 0 self.old
            (Request.component (result_last id (option_map body_parts body.entry)))) self.old self.new }
        ensures kept { self.new.standing.identifier ≡ self.old.standing.identifier }
    {
        self.queue_result_last_apart(&ResultRequest { id, body })
    }

    /// TC-RESULT-NL request.
    #[inline(always)]
    pub fn result_more(&mut self, id: i8, body: Option<Body<'_>>) -> Result<(), Fault>
        ensures answer { Answers queued_done result (requested 0 0 self.old
            (Request.component (result_more id (option_map body_parts body.entry)))) self.old self.new }
        ensures kept { self.new.standing.identifier ≡ self.old.standing.identifier }
    {
        self.queue_result_more(&ResultRequest { id, body })
    }

    /// TC-U-ERROR request.
    #[inline(always)]
    pub fn error_back(
        &mut self,
        id: i8,
        code: Code<'_>,
        parameter: Option<&[u8]>,
    ) -> Result<(), Fault>
        ensures answer { Answers queued_done result (requested 0 0 self.old (Request.component
            (error_back id (code_parts code.entry) (option_copied parameter.entry)))) self.old self.new }
        ensures kept { self.new.standing.identifier ≡ self.old.standing.identifier }
    {
        self.queue_error(&ErrorRequest {
            id,
            code,
            parameter,
        })
    }

    /// TC-U-REJECT request. A Reject of a result or an error frees the identifier that waits for it.
    #[inline(always)]
    pub fn u_reject(&mut self, id: Option<i8>, problem: Problem) -> Result<(), Fault>
        ensures answer { Answers queued_done result
            (requested 0 0 self.old (Request.component (u_reject id (problem_parts problem)))) self.old self.new }
        ensures kept { self.new.standing.identifier ≡ self.old.standing.identifier }
    {
        self.queue_reject(&RejectRequest { id, problem })
    }

    /// Queues a Return Result, Last.
    #[inline(always)]
    pub(super) fn queue_result_last(&mut self, request: &ResultRequest<'_>) -> Result<(), Fault>
        ensures answer { Answers queued_done result
            (requested 0 0 self.old (Request.component (last_view request.now))) self.old self.new }
        ensures kept { self.new.standing.identifier ≡ self.old.standing.identifier }
    {
        self.queue_answer(&Component::ResultLast {
            id: request.id,
            body: request.body,
        })
    }

    /// Queues a Return Result, Not Last.
    // `ask` is copied to each call that takes any request; what it calls stands once, here and below.
    #[inline(never)]
    pub(super) fn queue_result_more(&mut self, request: &ResultRequest<'_>) -> Result<(), Fault>
        ensures answer { Answers queued_done result
            (requested 0 0 self.old (Request.component (more_view request.now))) self.old self.new }
        ensures kept { self.new.standing.identifier ≡ self.old.standing.identifier }
    {
        self.queue_answer(&Component::ResultMore {
            id: request.id,
            body: request.body,
        })
    }

    /// Queues a Return Error.
    #[inline(never)]
    pub(super) fn queue_error(&mut self, request: &ErrorRequest<'_>) -> Result<(), Fault>
        ensures answer { Answers queued_done result
            (requested 0 0 self.old (Request.component (error_view request.now))) self.old self.new }
        ensures kept { self.new.standing.identifier ≡ self.old.standing.identifier }
    {
        self.queue_answer(&Component::ErrorBack {
            id: request.id,
            code: request.code,
            parameter: request.parameter,
        })
    }

    /// Queues a Reject.
    #[inline(never)]
    pub(super) fn queue_reject(&mut self, request: &RejectRequest) -> Result<(), Fault>
        ensures answer { Answers queued_done result
            (requested 0 0 self.old (Request.component (reject_view request.now))) self.old self.new }
        ensures kept { self.new.standing.identifier ≡ self.old.standing.identifier }
    {
        self.queue_answer(&Component::RejectBack {
            id: request.id,
            problem: request.problem,
        })?;
        self.free_rejected(request.id, request.problem.kind());
        Ok(())
    }

    /// Queues a component that answers the peer.
    // Each request knows which kind of component it queues: here the match on that folds away.
    #[inline(always)]
    fn queue_answer(&mut self, component: &Component<'_>) -> Result<(), Fault>
        ensures answer { Answers queued_done result
            (answered self.old (component_parts component.now)) self.old self.new }
        ensures kept { self.new.standing.identifier ≡ self.old.standing.identifier }
    {
        let len = self.judge_answer(component)?;
        self.queue.reserve(len)?;
        self.queue.append_component(component, len, None);
        Ok(())
    }

    /// How many octets a component that answers the peer has, or why it is refused, memory apart.
    #[inline(always)]
    fn judge_answer(&self, component: &Component<'_>) -> Result<usize, Fault>
        ensures len { IfOk result (λ n. n ≡ length (written_component (component_parts component.now))) }
        ensures can { OnOk result (CanWriteComponent (component_parts component.now)) }
        ensures ok { OnOk result (answer_fault self.now (component_parts component.now) ≡ None) }
        ensures err { IfErr result (λ f. answer_fault self.now (component_parts component.now)
            ≡ Some (fault_view f)) }
    {
        if !self.phase.has_peer() {
            return Err(Fault::WrongState);
        }
        self.queue.judge(component)
    }

    /// Frees the identifier of a result or an error that the user rejects.
    fn free_rejected(&mut self, id: Option<i8>, kind: Kind)
        ensures { self.new ≡ with_invocations self.old (freed_by self.old.invocations id kind) }
    {
        let Some(id) = id else {
            return;
        };
        match kind {
            Kind::Result | Kind::Error => {
                self.invocations.free_wait(id);
            }
            Kind::General | Kind::Invoke => {}
        }
    }

    /// `result_last`, where the component takes memory that other dialogues left; where it is refused that is given
    /// back. `reject_ms`, at most 2^62 milliseconds, is what the dialogue was made with. Faults: those of
    /// `result_last` (Q.771, TC-RESULT-L; the memory is our own).
    #[inline(always)]
    pub fn result_last_with(
        &mut self,
        spares: &mut Spares<A>,
        reject_ms: u64,
        request: &ResultRequest<'_>,
    ) -> Result<(), Fault>
        requires wait { self.old.invocations.reject_ms ≡ reject_ms }
        requires limited { reject_ms ≤ moment_limit }
        ensures answer { Answers queued_done result
            (requested 0 0 self.old (Request.component (last_view request.now))) self.old self.new }
        ensures kept { self.new.standing.identifier ≡ self.old.standing.identifier }
    {
        self.borrow_queue(spares);
        match self.queue_result_last(request) {
            Ok(()) => Ok(()),
            Err(fault) => {
                self.give_back(spares, reject_ms, false);
                Err(fault)
            }
        }
    }

    /// `queue_result_last`, as a call.
    #[inline(never)]
    pub(super) fn queue_result_last_apart(
        &mut self,
        request: &ResultRequest<'_>,
    ) -> Result<(), Fault>
        ensures answer { Answers queued_done result
            (requested 0 0 self.old (Request.component (last_view request.now))) self.old self.new }
        ensures kept { self.new.standing.identifier ≡ self.old.standing.identifier }
    {
        self.queue_result_last(request)
    }
}

//! TC-CONTINUE (Q.771, Dialogue handling): the request that goes on with a dialogue.

// Hints to inline have the reasons that requests.rt gives.

ghost use Rattle.std.specs.Prelude.{◌≡◌, ◌≤◌, ◌++◌, None, Some, IfErr, IfOk, OnErr, OnOk, is_some, false, option_copied};
ghost use Rattle.std.specs.Option.{option_map};
ghost use Rattle.tcap_dialogue.specs.RequestForm.{Steps, StepsBy, StepsInto};
ghost use Rattle.tcap_dialogue.specs.RequestMessages.{IsUnwritten, early_faults, outgoing_view};
ghost use Rattle.tcap_dialogue.specs.StepViews.{asked, requested};
ghost use Rattle.tcap_invocation.specs.Stage.{moment_limit};
ghost use Rattle.tcap_model.specs.Procedures.AbortRules.{sent_if_any};
ghost use Rattle.tcap_model.specs.Procedures.Refusals.{due_on, first_that, holds};
ghost use Rattle.tcap_model.specs.Procedures.RequestMessage.{message_of};
ghost use Rattle.tcap_model.specs.Table.TableMove.{situation};
ghost use Rattle.tcap_model.specs.Words.Request.{DialogueRequest, Request};
ghost use Rattle.tcap_primitives.specs.FaultViews.{fault_view};
ghost use Rattle.tcap_primitives.specs.RequestViews.{continue_view};
ghost use Rattle.tcap_primitives.specs.SendingViews.{CanSend, sending_view};
ghost use Rattle.tcap_reception.specs.StateViews.{is_over};

use super::sending::{frame_length, gives_any, is_name_good, send, within_limit_if_any};
use crate::dialogue::spares::Spares;
use crate::dialogue::{Dialogue, Step};
use std::alloc::Allocator;
use tcap_pdu::{Frame, TransId, is_user_information};
use tcap_primitives::{ContinueRequest, Fault, MessageParts, Outgoing, Sending, Sink, SinkKind};
use tcap_reception::{After, Phase};

impl<A: Allocator + Copy> Dialogue<A> {
    /// TC-CONTINUE request: the queue goes out in a Continue to the peer's address, and the dialogue is
    /// Active. In Received an AARQ is answered, with the context given or else its own; `context` is the contents
    /// octets of its object identifier, not its dotted text. Faults:
    /// WrongState unless Received or Active, BadOid, BadParameter, NoContext for a context or information
    /// where no AARQ is answered, TooLong, OutOfMemory (Q.774, Dialogue continuation).
    #[inline(always)]
    pub fn go_on<'m>(
        &mut self,
        context: Option<&[u8]>,
        info: &[u8],
        clock: u64,
    ) -> Result<Step<'m, A>, Fault>
        requires { clock ≤ moment_limit }
        ensures step { Steps result (requested clock 0 self.old
            (Request.dialogue (DialogueRequest.go_on (option_copied context.entry) info.now))) self.old self.new }
        ensures kept { self.new.standing.identifier ≡ self.old.standing.identifier }
    {
        self.continue_step(&ContinueRequest { context, info }, clock)
    }

    /// The first fault of a Continue that is due before its message is written.
    #[inline(always)]
    fn continue_fault(&self, request: &ContinueRequest<'_>) -> Option<Fault>
        ensures { let r = Request.dialogue (continue_view request.now) in option_map fault_view result
            ≡ first_that (holds (situation (asked 0 0) self.now r) r) early_faults }
    {
        if !self.phase.has_peer() {
            return Some(Fault::WrongState);
        }
        if !is_name_good(request.context) {
            return Some(Fault::BadOid);
        }
        if !is_user_information(request.info) {
            return Some(Fault::BadParameter);
        }
        if !self.is_asked() && gives_any(request.context, request.info) {
            return Some(Fault::NoContext);
        }
        None
    }

    /// The Continue with the queue, once the peer is known.
    #[inline(always)]
    fn continue_sending<'a>(&'a self, request: &ContinueRequest<'a>) -> Option<Sending<'a>>
        ensures message { option_map sending_view result
            ≡ message_of self.now.standing (Request.dialogue (continue_view request.now)) }
        ensures sound { CanSend (option_copied request.now.context) request.now.info.now result }
    {
        match &self.phase {
            Phase::Fresh | Phase::Sent => None,
            Phase::Received(peer) | Phase::Active(peer) => Some(Sending {
                bearer: MessageParts::Continue {
                    origin: self.identifier,
                    peer,
                    components: self.queue.all_octets(),
                },
                pdu: self.answer_pdu(request.context, request.info),
            }),
        }
    }

    /// The Continue, or the first due fault of its request.
    #[inline(always)]
    pub(crate) fn continue_message<'a>(
        &'a self,
        request: &ContinueRequest<'a>,
    ) -> Result<Option<Outgoing<'a>>, Fault>
        ensures ok { let r = Request.dialogue (continue_view request.now) in
            IfOk result (λ m. (outgoing_view m ≡ message_of self.now.standing r)
            × (due_on (situation (asked 0 0) self.now r) r ≡ None)) }
        ensures err { let r = Request.dialogue (continue_view request.now) in
            IfErr result (λ f. due_on (situation (asked 0 0) self.now r) r ≡ Some (fault_view f)) }
    {
        if let Some(fault) = self.continue_fault(request) {
            return Err(fault);
        }
        within_limit_if_any(self.continue_sending(request))
    }

    /// `write_continue`, with the AARE of an AARQ that isn't answered yet, if there is one.
    #[inline(never)]
    fn write_answer<'m, K: SinkKind>(
        &self,
        request: &ContinueRequest<'_>,
        sink: &mut Sink<'m, A, K>,
    ) -> Result<(), Fault>
        ensures ok { let r = Request.dialogue (continue_view request.now) in OnOk result
            (sink.new.outputs ≡ sink.old.outputs
            ++ sent_if_any self.now.kept (message_of self.now.standing r)) }
        ensures due { let r = Request.dialogue (continue_view request.now) in
            OnOk result (due_on (situation (asked 0 0) self.now r) r ≡ None) }
        ensures err { let r = Request.dialogue (continue_view request.now) in IfErr result (λ f. IsUnwritten f
            (due_on (situation (asked 0 0) self.now r) r)
            (is_some (message_of self.now.standing r))) }
        ensures still { OnErr result (sink.new.outputs ≡ sink.old.outputs) }
    {
        let message = self.continue_message(request)?;
        send(self.kept.octets(), message, 0, sink)?;
        Ok(())
    }

    /// Judges a Continue and writes it.
    #[inline(always)]
    fn write_continue<'m, K: SinkKind>(
        &self,
        request: &ContinueRequest<'_>,
        sink: &mut Sink<'m, A, K>,
    ) -> Result<(), Fault>
        ensures ok { let r = Request.dialogue (continue_view request.now) in OnOk result
            (sink.new.outputs ≡ sink.old.outputs
            ++ sent_if_any self.now.kept (message_of self.now.standing r)) }
        ensures due { let r = Request.dialogue (continue_view request.now) in
            OnOk result (due_on (situation (asked 0 0) self.now r) r ≡ None) }
        ensures err { let r = Request.dialogue (continue_view request.now) in IfErr result (λ f. IsUnwritten f
            (due_on (situation (asked 0 0) self.now r) r)
            (is_some (message_of self.now.standing r))) }
        ensures still { OnErr result (sink.new.outputs ≡ sink.old.outputs) }
    {
        let Some(peer) = self.plain_peer() else {
            return self.write_answer(request, sink);
        };
        if let Some(fault) = self.continue_fault(request) {
            return Err(fault);
        }
        let frame = Frame::Continue {
            otid: TransId::of(self.identifier),
            dtid: peer.copied(),
            dialogue: None,
            components: self.queue.all_octets(),
        };
        let len = frame_length(&frame)?;
        sink.send_frame(self.kept.octets(), &frame, len, 0)?;
        Ok(())
    }

    /// Judges a Continue, and writes it at this moment; the dialogue is Active, and not over.
    #[inline(always)]
    pub(super) fn send_continue<'m, K: SinkKind>(
        &mut self,
        request: &ContinueRequest<'_>,
        clock: u64,
        sink: &mut Sink<'m, A, K>,
    ) -> Result<After, Fault>
        requires { clock ≤ moment_limit }
        ensures step { StepsInto sink.old.outputs sink.new.outputs result
            (requested clock 0 self.old (Request.dialogue (continue_view request.now))) self.old self.new }
        ensures stands { IfOk result (λ after. is_over after ≡ false) }
        ensures kept { self.new.standing.identifier ≡ self.old.standing.identifier }
    {
        self.write_continue(request, sink)?;
        self.send_queue(clock);
        self.touched = clock;
        Ok(self.phase.send_continue())
    }

    /// `send_continue`, into a vector.
    fn continue_step<'m>(
        &mut self,
        request: &ContinueRequest<'_>,
        clock: u64,
    ) -> Result<Step<'m, A>, Fault>
        requires { clock ≤ moment_limit }
        ensures step { Steps result
            (requested clock 0 self.old (Request.dialogue (continue_view request.now))) self.old self.new }
        ensures kept { self.new.standing.identifier ≡ self.old.standing.identifier }
    {
        let mut sink = Sink::vector(*self.queue.octets.allocator());
        let after = self.send_continue_apart(request, clock, &mut sink)?;
        let outputs = sink.into_vector();
        Ok(Step {
            outputs,
            over: after.is_over(),
        })
    }

    /// `go_on`, whose message is appended to what a sink holds; `clock` is in milliseconds, at most 2^62. The queue
    /// leaves its memory to others; it is empty, unless the Continue is refused. Faults: those of `go_on`
    /// (Q.771, TC-CONTINUE; the memory is our own).
    #[inline(always)]
    pub fn go_on_with<'m, K: SinkKind>(
        &mut self,
        spares: &mut Spares<A>,
        request: &ContinueRequest<'_>,
        clock: u64,
        sink: &mut Sink<'m, A, K>,
    ) -> Result<(), Fault>
        requires { clock ≤ moment_limit }
        ensures step { StepsBy false sink.old.outputs sink.new.outputs result
            (requested clock 0 self.old (Request.dialogue (continue_view request.now))) self.old self.new }
        ensures kept { self.new.standing.identifier ≡ self.old.standing.identifier }
    {
        let sent = self.send_continue(request, clock, sink);
        self.leave_empty_queue(spares, sent.is_ok());
        sent?;
        Ok(())
    }

    /// `send_continue`, as a call.
    #[inline(never)]
    pub(super) fn send_continue_apart<'m, K: SinkKind>(
        &mut self,
        request: &ContinueRequest<'_>,
        clock: u64,
        sink: &mut Sink<'m, A, K>,
    ) -> Result<After, Fault>
        requires { clock ≤ moment_limit }
        ensures step { StepsInto sink.old.outputs sink.new.outputs result
            (requested clock 0 self.old (Request.dialogue (continue_view request.now))) self.old self.new }
        ensures kept { self.new.standing.identifier ≡ self.old.standing.identifier }
    {
        self.send_continue(request, clock, sink)
    }
}

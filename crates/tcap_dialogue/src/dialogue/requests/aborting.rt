//! TC-U-ABORT (Q.771, Dialogue handling): the request with which the user aborts a dialogue.

// Hints to inline have the reasons that requests.rt gives.

ghost use Rattle.std.specs.Prelude.{◌≡◌, ◌≤◌, ◌++◌, ◌||◌, None, Some, IfErr, IfOk, OnErr, OnOk, is_some, length, nat_lt};
ghost use Rattle.std.specs.Option.{option_map};
ghost use Rattle.tcap_dialogue.specs.RequestForm.{Steps, StepsInto};
ghost use Rattle.tcap_dialogue.specs.RequestMessages.{IsUnwritten, early_faults, outgoing_view};
ghost use Rattle.tcap_dialogue.specs.StepViews.{asked, requested};
ghost use Rattle.tcap_invocation.specs.Closing.{ended_at};
ghost use Rattle.tcap_model.specs.Procedures.AbortRules.{sent_if_any};
ghost use Rattle.tcap_model.specs.Procedures.Refusals.{due_on, first_that, holds};
ghost use Rattle.tcap_model.specs.Procedures.RequestMessage.{abort_message, message_of, refusing_message, user_abort};
ghost use Rattle.tcap_model.specs.Table.TableMove.{situation};
ghost use Rattle.tcap_model.specs.Words.Request.{DialogueRequest, Request};
ghost use Rattle.tcap_primitives.specs.FaultViews.{fault_view};
ghost use Rattle.tcap_primitives.specs.RequestViews.{abort_view, reason_view};
ghost use Rattle.tcap_primitives.specs.SendingViews.{CanSend, sending_view};

use super::sending::{is_filled, send, within_limit_if_any};
use crate::dialogue::ended_invocations::tell_ended;
use crate::dialogue::{Dialogue, Step};
use std::alloc::Allocator;
use tcap_pdu::is_user_information;
use tcap_primitives::{
    AbortRequest, AbortWhy, Fault, MessageParts, Outgoing, Sending, Sink, SinkKind, abort_pdu,
    refusing_pdu,
};
use tcap_reception::{After, Phase};

impl<A: Allocator + Copy> Dialogue<A> {
    /// TC-U-ABORT request: in Received and Active an Abort goes to the peer's address, and the dialogue is
    /// over. By the user it carries an ABRT where the dialogue has a context; NotSupported refuses the
    /// context of an AARQ with an AARE. Faults: WrongState where NotSupported answers no AARQ, BadParameter,
    /// NoContext for information that no ABRT carries, TooLong, OutOfMemory (Q.774, Abort by the user).
    #[inline(always)]
    pub fn u_abort<'m>(&mut self, why: AbortWhy, info: &[u8]) -> Result<Step<'m, A>, Fault>
        ensures step { Steps result (requested 0 0 self.old
            (Request.dialogue (DialogueRequest.u_abort (reason_view why) info.now))) self.old self.new }
        ensures kept { self.new.standing.identifier ≡ self.old.standing.identifier }
    {
        self.abort_step(&AbortRequest { why, info })
    }

    /// The first fault of an Abort by the user that is due before its message is written.
    fn abort_fault(&self, request: &AbortRequest<'_>) -> Option<Fault>
        ensures { let r = Request.dialogue (abort_view request.now) in option_map fault_view result
            ≡ first_that (holds (situation (asked 0 0) self.now r) r) early_faults }
    {
        let why = request.why;
        if why == AbortWhy::NotSupported && !self.is_asked() {
            return Some(Fault::WrongState);
        }
        if !is_user_information(request.info) {
            return Some(Fault::BadParameter);
        }
        let carries_abrt = self.phase.has_peer() && self.context.is_some();
        if why == AbortWhy::User && !carries_abrt && is_filled(request.info) {
            return Some(Fault::NoContext);
        }
        None
    }

    /// The user's Abort, once the peer is known.
    #[inline(always)]
    fn user_abort_sending<'a>(&'a self, info: &'a [u8]) -> Option<Sending<'a>>
        ensures message { option_map sending_view result
            ≡ abort_message self.now.standing.state (user_abort self.now.standing.context info.now) }
        ensures sound { CanSend None info.now result }
    {
        match &self.phase {
            Phase::Fresh | Phase::Sent => None,
            Phase::Received(peer) | Phase::Active(peer) => Some(Sending {
                bearer: MessageParts::Abort { peer },
                pdu: abort_pdu(&self.context, info),
            }),
        }
    }

    /// The Abort that refuses the application context of an AARQ.
    #[inline(always)]
    fn refusing_sending<'a>(&'a self, info: &'a [u8]) -> Option<Sending<'a>>
        ensures message { option_map sending_view result
            ≡ refusing_message self.now.standing.state self.now.standing.context info.now }
        ensures sound { CanSend None info.now result }
    {
        let asked = self.context.as_ref()?;
        match &self.phase {
            Phase::Fresh | Phase::Sent => None,
            Phase::Received(peer) | Phase::Active(peer) => Some(Sending {
                bearer: MessageParts::Abort { peer },
                pdu: Some(refusing_pdu(asked, info)),
            }),
        }
    }

    /// The Abort of an abort by the user.
    #[inline(always)]
    fn abort_sending<'a>(&'a self, request: &AbortRequest<'a>) -> Option<Sending<'a>>
        ensures message { option_map sending_view result
            ≡ message_of self.now.standing (Request.dialogue (abort_view request.now)) }
        ensures sound { CanSend None request.now.info.now result }
    {
        match request.why {
            AbortWhy::User => self.user_abort_sending(request.info),
            AbortWhy::NotSupported => self.refusing_sending(request.info),
        }
    }

    /// The Abort, if one is sent, or the first due fault of its request.
    #[inline(always)]
    pub(crate) fn abort_message<'a>(
        &'a self,
        request: &AbortRequest<'a>,
    ) -> Result<Option<Outgoing<'a>>, Fault>
        ensures ok { let r = Request.dialogue (abort_view request.now) in
            IfOk result (λ m. (outgoing_view m ≡ message_of self.now.standing r)
            × (due_on (situation (asked 0 0) self.now r) r ≡ None)) }
        ensures err { let r = Request.dialogue (abort_view request.now) in
            IfErr result (λ f. due_on (situation (asked 0 0) self.now r) r ≡ Some (fault_view f)) }
    {
        if let Some(fault) = self.abort_fault(request) {
            return Err(fault);
        }
        within_limit_if_any(self.abort_sending(request))
    }

    /// Judges an abort by the user and writes its message, if it sends one, with places for the invocations that it
    /// ends.
    #[inline(always)]
    fn write_abort<'m, K: SinkKind>(
        &self,
        request: &AbortRequest<'_>,
        sink: &mut Sink<'m, A, K>,
    ) -> Result<(), Fault>
        ensures ok { let r = Request.dialogue (abort_view request.now) in OnOk result
            (sink.new.outputs ≡ sink.old.outputs
            ++ sent_if_any self.now.kept (message_of self.now.standing r)) }
        ensures due { let r = Request.dialogue (abort_view request.now) in
            OnOk result (due_on (situation (asked 0 0) self.now r) r ≡ None) }
        ensures places { OnOk result (length (ended_at self.now.invocations.rows) ≤ sink.new.places) }
        ensures err { let r = Request.dialogue (abort_view request.now) in IfErr result (λ f. IsUnwritten f
            (due_on (situation (asked 0 0) self.now r) r)
            (is_some (message_of self.now.standing r) || nat_lt 0 (length (ended_at self.now.invocations.rows)))) }
        ensures still { OnErr result (sink.new.outputs ≡ sink.old.outputs) }
    {
        let message = self.abort_message(request)?;
        send(
            self.kept.octets(),
            message,
            self.invocations.open_count(),
            sink,
        )?;
        Ok(())
    }

    /// Judges an abort by the user, and writes its message, if it sends one; the dialogue is over.
    #[inline(never)]
    pub(super) fn send_abort<'m, K: SinkKind>(
        &mut self,
        request: &AbortRequest<'_>,
        sink: &mut Sink<'m, A, K>,
    ) -> Result<After, Fault>
        ensures step { StepsInto sink.old.outputs sink.new.outputs result
            (requested 0 0 self.old (Request.dialogue (abort_view request.now))) self.old self.new }
        ensures kept { self.new.standing.identifier ≡ self.old.standing.identifier }
    {
        self.write_abort(request, sink)?;
        tell_ended(self.identifier, &mut self.invocations, sink);
        Ok(self.phase.send_abort())
    }

    /// `send_abort`, into a vector.
    fn abort_step<'m>(&mut self, request: &AbortRequest<'_>) -> Result<Step<'m, A>, Fault>
        ensures step { Steps result
            (requested 0 0 self.old (Request.dialogue (abort_view request.now))) self.old self.new }
        ensures kept { self.new.standing.identifier ≡ self.old.standing.identifier }
    {
        let mut sink = Sink::vector(*self.queue.octets.allocator());
        let after = self.send_abort(request, &mut sink)?;
        let outputs = sink.into_vector();
        Ok(Step {
            outputs,
            over: after.is_over(),
        })
    }
}

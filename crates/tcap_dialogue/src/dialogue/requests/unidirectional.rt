//! TC-UNI (Q.771, Dialogue handling): the request without a dialogue that stands afterwards.

// Hints to inline have the reasons that requests.rt gives.

ghost use Rattle.std.specs.Prelude.{◌≡◌, ◌≤◌, ◌++◌, ◌||◌, None, Some, IfErr, IfOk, OnErr, OnOk, is_some, length, nat_lt, option_copied};
ghost use Rattle.std.specs.Option.{option_map};
ghost use Rattle.tcap_dialogue.specs.RequestForm.{Steps, StepsInto};
ghost use Rattle.tcap_dialogue.specs.RequestMessages.{IsUnwritten, early_faults, outgoing_view};
ghost use Rattle.tcap_dialogue.specs.StepViews.{asked, requested};
ghost use Rattle.tcap_invocation.specs.Closing.{ended_at};
ghost use Rattle.tcap_model.specs.Procedures.AbortRules.{sent_if_any};
ghost use Rattle.tcap_model.specs.Procedures.Refusals.{due_on, first_that, holds};
ghost use Rattle.tcap_model.specs.Procedures.RequestMessage.{message_of};
ghost use Rattle.tcap_model.specs.Table.TableMove.{situation};
ghost use Rattle.tcap_model.specs.Words.Request.{DialogueRequest, Request};
ghost use Rattle.tcap_primitives.specs.FaultViews.{fault_view};
ghost use Rattle.tcap_primitives.specs.RequestViews.{uni_view};
ghost use Rattle.tcap_primitives.specs.SendingViews.{CanSend, sending_view};

use super::sending::{is_name_good, lacks_context, send, within_limit_if_any};
use crate::dialogue::ended_invocations::tell_ended;
use crate::dialogue::{Dialogue, Step};
use std::alloc::Allocator;
use tcap_address::Address;
use tcap_pdu::is_user_information;
use tcap_primitives::{
    Fault, MessageParts, Outgoing, Sending, Sink, SinkKind, UniRequest, uni_pdu,
};
use tcap_reception::After;

impl<A: Allocator + Copy> Dialogue<A> {
    /// TC-UNI request: the queue goes out in a Unidirectional to this address, and the dialogue is over. `context`
    /// is the contents octets of its object identifier, not its dotted text. Faults: WrongState unless Fresh,
    /// BadOid, BadParameter, NoContext for information without a context, NotClassFour, TooLong, OutOfMemory
    /// (Q.774, Unstructured dialogue).
    #[inline(always)]
    pub fn uni<'m>(
        &mut self,
        to: &Address,
        context: Option<&[u8]>,
        info: &[u8],
    ) -> Result<Step<'m, A>, Fault>
        ensures step { Steps result (requested 0 0 self.old
            (Request.dialogue (DialogueRequest.uni to.now (option_copied context.entry) info.now))) self.old self.new }
        ensures kept { self.new.standing.identifier ≡ self.old.standing.identifier }
    {
        self.uni_step(&UniRequest { to, context, info })
    }

    /// The first fault of a Unidirectional that is due before its message is written.
    fn uni_fault(&self, request: &UniRequest<'_>) -> Option<Fault>
        ensures { let r = Request.dialogue (uni_view request.now) in option_map fault_view result
            ≡ first_that (holds (situation (asked 0 0) self.now r) r) early_faults }
    {
        if !self.phase.is_fresh() {
            return Some(Fault::WrongState);
        }
        if !is_name_good(request.context) {
            return Some(Fault::BadOid);
        }
        if !is_user_information(request.info) {
            return Some(Fault::BadParameter);
        }
        if lacks_context(request.context, request.info) {
            return Some(Fault::NoContext);
        }
        if !self.queue.can_go_alone() {
            return Some(Fault::NotClassFour);
        }
        None
    }

    /// The Unidirectional with the queue.
    #[inline(always)]
    fn uni_sending<'a>(&'a self, request: &UniRequest<'a>) -> Sending<'a>
        ensures message { Some (sending_view result)
            ≡ message_of self.now.standing (Request.dialogue (uni_view request.now)) }
        ensures sound { CanSend (option_copied request.now.context) request.now.info.now (Some result) }
    {
        Sending {
            bearer: MessageParts::Uni {
                components: self.queue.all_octets(),
            },
            pdu: uni_pdu(request.context, request.info),
        }
    }

    /// The Unidirectional, or the first due fault of its request.
    #[inline(always)]
    pub(crate) fn uni_message<'a>(
        &'a self,
        request: &UniRequest<'a>,
    ) -> Result<Option<Outgoing<'a>>, Fault>
        ensures ok { let r = Request.dialogue (uni_view request.now) in
            IfOk result (λ m. (outgoing_view m ≡ message_of self.now.standing r)
            × (due_on (situation (asked 0 0) self.now r) r ≡ None)) }
        ensures err { let r = Request.dialogue (uni_view request.now) in
            IfErr result (λ f. due_on (situation (asked 0 0) self.now r) r ≡ Some (fault_view f)) }
    {
        if let Some(fault) = self.uni_fault(request) {
            return Err(fault);
        }
        within_limit_if_any(Some(self.uni_sending(request)))
    }

    /// Judges a Unidirectional and writes it, with places for the invocations that are left.
    #[inline(always)]
    fn write_uni<'m, K: SinkKind>(
        &self,
        request: &UniRequest<'_>,
        sink: &mut Sink<'m, A, K>,
    ) -> Result<(), Fault>
        ensures ok { let r = Request.dialogue (uni_view request.now) in OnOk result
            (sink.new.outputs ≡ sink.old.outputs
            ++ sent_if_any request.now.to.now (message_of self.now.standing r)) }
        ensures due { let r = Request.dialogue (uni_view request.now) in
            OnOk result (due_on (situation (asked 0 0) self.now r) r ≡ None) }
        ensures places { OnOk result (length (ended_at self.now.invocations.rows) ≤ sink.new.places) }
        ensures err { let r = Request.dialogue (uni_view request.now) in IfErr result (λ f. IsUnwritten f
            (due_on (situation (asked 0 0) self.now r) r)
            (is_some (message_of self.now.standing r) || nat_lt 0 (length (ended_at self.now.invocations.rows)))) }
        ensures still { OnErr result (sink.new.outputs ≡ sink.old.outputs) }
    {
        let message = self.uni_message(request)?;
        send(
            request.to.octets(),
            message,
            self.invocations.open_count(),
            sink,
        )?;
        Ok(())
    }

    /// Judges a Unidirectional, and writes it; the dialogue is over.
    // `ask` is copied to each call that takes any request; what it calls stands once, here and below.
    #[inline(never)]
    pub(super) fn send_uni<'m, K: SinkKind>(
        &mut self,
        request: &UniRequest<'_>,
        sink: &mut Sink<'m, A, K>,
    ) -> Result<After, Fault>
        ensures step { StepsInto sink.old.outputs sink.new.outputs result
            (requested 0 0 self.old (Request.dialogue (uni_view request.now))) self.old self.new }
        ensures kept { self.new.standing.identifier ≡ self.old.standing.identifier }
    {
        self.write_uni(request, sink)?;
        tell_ended(self.identifier, &mut self.invocations, sink);
        Ok(self.phase.send_uni())
    }

    /// `send_uni`, into a vector.
    fn uni_step<'m>(&mut self, request: &UniRequest<'_>) -> Result<Step<'m, A>, Fault>
        ensures step { Steps result
            (requested 0 0 self.old (Request.dialogue (uni_view request.now))) self.old self.new }
        ensures kept { self.new.standing.identifier ≡ self.old.standing.identifier }
    {
        let mut sink = Sink::vector(*self.queue.octets.allocator());
        let after = self.send_uni(request, &mut sink)?;
        let outputs = sink.into_vector();
        Ok(Step {
            outputs,
            over: after.is_over(),
        })
    }
}

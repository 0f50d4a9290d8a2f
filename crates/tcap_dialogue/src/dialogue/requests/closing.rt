//! TC-END (Q.771, Dialogue handling): the request with which a dialogue ends.

// Hints to inline have the reasons that requests.rt gives.

ghost use Rattle.std.specs.Prelude.{◌≡◌, ◌≤◌, ◌++◌, ◌||◌, None, Some, IfErr, IfOk, IfSome, OnErr, OnOk, is_some, length, nat_lt, option_copied, true};
ghost use Rattle.std.specs.Option.{option_map};
ghost use Rattle.tcap_dialogue.specs.RequestForm.{Steps, StepsBy, StepsInto};
ghost use Rattle.tcap_dialogue.specs.RequestMessages.{IsUnwritten, early_faults, outgoing_view};
ghost use Rattle.tcap_dialogue.specs.StepViews.{asked, requested};
ghost use Rattle.tcap_invocation.specs.Closing.{ended_at};
ghost use Rattle.tcap_model.specs.Procedures.AbortRules.{sent_if_any};
ghost use Rattle.tcap_model.specs.Procedures.Refusals.{due_on, first_that, has_no_context, holds};
ghost use Rattle.tcap_model.specs.Procedures.QueueRules.{joined};
ghost use Rattle.tcap_model.specs.Procedures.RequestMessage.{message_of};
ghost use Rattle.tcap_model.specs.Procedures.States.{has_request};
ghost use Rattle.tcap_model.specs.Table.TableMove.{situation};
ghost use Rattle.tcap_model.specs.Words.Request.{DialogueRequest, Request};
ghost use Rattle.tcap_pdu.specs.FrameSpelling.{Message};
ghost use Rattle.tcap_primitives.specs.FaultViews.{fault_view};
ghost use Rattle.tcap_primitives.specs.RequestViews.{end_view, ending_view};
ghost use Rattle.tcap_primitives.specs.SendingViews.{CanSend, sending_view};
ghost use Rattle.tcap_reception.specs.StateViews.{is_over};

use super::sending::{frame_length, gives_any, is_name_good, send, within_limit_if_any};
use crate::dialogue::ended_invocations::tell_ended;
use crate::dialogue::spares::Spares;
use crate::dialogue::{Dialogue, Step};
use std::alloc::Allocator;
use tcap_pdu::{Frame, TransId, is_user_information};
use tcap_primitives::{EndRequest, Ending, Fault, MessageParts, Outgoing, Sending, Sink, SinkKind};
use tcap_reception::{After, Phase};

impl<A: Allocator + Copy> Dialogue<A> {
    /// TC-END request: a basic end sends the queue in an End to the peer's address, a prearranged one nothing;
    /// the dialogue is over. `context` is the contents octets of its object identifier, not its dotted text.
    /// Faults: WrongState for a basic end unless Received or Active, BadOid,
    /// BadParameter, NoContext for a context or information where no AARQ is answered, TooLong, OutOfMemory
    /// (Q.774, Dialogue end).
    #[inline(always)]
    pub fn finish<'m>(
        &mut self,
        ending: Ending,
        context: Option<&[u8]>,
        info: &[u8],
    ) -> Result<Step<'m, A>, Fault>
        ensures step { Steps result (requested 0 0 self.old (Request.dialogue
            (DialogueRequest.finish (ending_view ending) (option_copied context.entry) info.now))) self.old self.new }
        ensures kept { self.new.standing.identifier ≡ self.old.standing.identifier }
    {
        self.end_step(&EndRequest {
            ending,
            context,
            info,
        })
    }

    /// Whether the state of the dialogue has the end.
    fn has_end(&self, request: &EndRequest<'_>) -> bool
        ensures { result ≡ has_request self.now.standing.state self.now.standing.context
            (Request.dialogue (end_view request.now)) }
    {
        match request.ending {
            Ending::Basic => self.phase.has_peer(),
            Ending::Prearranged => true,
        }
    }

    /// Whether a context or user information is given for which an end has no dialogue portion.
    fn end_lacks_portion(&self, request: &EndRequest<'_>) -> bool
        ensures { result ≡ has_no_context self.now.standing.state self.now.standing.context
            (Request.dialogue (end_view request.now)) }
    {
        match request.ending {
            Ending::Basic => !self.is_asked() && gives_any(request.context, request.info),
            Ending::Prearranged => gives_any(request.context, request.info),
        }
    }

    /// The first fault of an end that is due before its message is written.
    fn end_fault(&self, request: &EndRequest<'_>) -> Option<Fault>
        ensures { let r = Request.dialogue (end_view request.now) in option_map fault_view result
            ≡ first_that (holds (situation (asked 0 0) self.now r) r) early_faults }
    {
        if !self.has_end(request) {
            return Some(Fault::WrongState);
        }
        if !is_name_good(request.context) {
            return Some(Fault::BadOid);
        }
        if !is_user_information(request.info) {
            return Some(Fault::BadParameter);
        }
        if self.end_lacks_portion(request) {
            return Some(Fault::NoContext);
        }
        None
    }

    /// The End with the queue of a basic end, once the peer is known; a prearranged one sends nothing.
    #[inline(always)]
    fn end_sending<'a>(&'a self, request: &EndRequest<'a>) -> Option<Sending<'a>>
        ensures message { option_map sending_view result
            ≡ message_of self.now.standing (Request.dialogue (end_view request.now)) }
        ensures sound { CanSend (option_copied request.now.context) request.now.info.now result }
    {
        match request.ending {
            Ending::Prearranged => None,
            Ending::Basic => match &self.phase {
                Phase::Fresh | Phase::Sent => None,
                Phase::Received(peer) | Phase::Active(peer) => Some(Sending {
                    bearer: MessageParts::End {
                        peer,
                        components: self.queue.all_octets(),
                    },
                    pdu: self.answer_pdu(request.context, request.info),
                }),
            },
        }
    }

    /// The End, if one is sent, or the first due fault of its request.
    #[inline(always)]
    pub(crate) fn end_message<'a>(
        &'a self,
        request: &EndRequest<'a>,
    ) -> Result<Option<Outgoing<'a>>, Fault>
        ensures ok { let r = Request.dialogue (end_view request.now) in
            IfOk result (λ m. (outgoing_view m ≡ message_of self.now.standing r)
            × (due_on (situation (asked 0 0) self.now r) r ≡ None)) }
        ensures err { let r = Request.dialogue (end_view request.now) in
            IfErr result (λ f. due_on (situation (asked 0 0) self.now r) r ≡ Some (fault_view f)) }
    {
        if let Some(fault) = self.end_fault(request) {
            return Err(fault);
        }
        within_limit_if_any(self.end_sending(request))
    }

    /// `write_end`, of a prearranged end too, and with the AARE of an AARQ that isn't answered yet, if there is one.
    #[inline(never)]
    fn write_any_end<'m, K: SinkKind>(
        &self,
        request: &EndRequest<'_>,
        sink: &mut Sink<'m, A, K>,
    ) -> Result<(), Fault>
        ensures ok { let r = Request.dialogue (end_view request.now) in OnOk result
            (sink.new.outputs ≡ sink.old.outputs
            ++ sent_if_any self.now.kept (message_of self.now.standing r)) }
        ensures due { let r = Request.dialogue (end_view request.now) in
            OnOk result (due_on (situation (asked 0 0) self.now r) r ≡ None) }
        ensures places { OnOk result (length (ended_at self.now.invocations.rows) ≤ sink.new.places) }
        ensures err { let r = Request.dialogue (end_view request.now) in IfErr result (λ f. IsUnwritten f
            (due_on (situation (asked 0 0) self.now r) r)
            (is_some (message_of self.now.standing r) || nat_lt 0 (length (ended_at self.now.invocations.rows)))) }
        ensures still { OnErr result (sink.new.outputs ≡ sink.old.outputs) }
    {
        let message = self.end_message(request)?;
        send(
            self.kept.octets(),
            message,
            self.invocations.open_count(),
            sink,
        )?;
        Ok(())
    }

    /// The peer of a basic end that has no dialogue portion.
    #[inline(always)]
    fn plain_end(&self, request: &EndRequest<'_>) -> Option<&TransId>
        ensures { IfSome result (λ peer. message_of self.now.standing (Request.dialogue (end_view request.now))
            ≡ Some (Message.end peer.now None (joined self.now.standing.queue))) }
    {
        if matches!(request.ending, Ending::Prearranged) {
            return None;
        }
        self.plain_peer()
    }

    /// Judges an end and writes its message, if it sends one, with places for the invocations that are left.
    #[inline(always)]
    fn write_end<'m, K: SinkKind>(
        &self,
        request: &EndRequest<'_>,
        sink: &mut Sink<'m, A, K>,
    ) -> Result<(), Fault>
        ensures ok { let r = Request.dialogue (end_view request.now) in OnOk result
            (sink.new.outputs ≡ sink.old.outputs
            ++ sent_if_any self.now.kept (message_of self.now.standing r)) }
        ensures due { let r = Request.dialogue (end_view request.now) in
            OnOk result (due_on (situation (asked 0 0) self.now r) r ≡ None) }
        ensures places { OnOk result (length (ended_at self.now.invocations.rows) ≤ sink.new.places) }
        ensures err { let r = Request.dialogue (end_view request.now) in IfErr result (λ f. IsUnwritten f
            (due_on (situation (asked 0 0) self.now r) r)
            (is_some (message_of self.now.standing r) || nat_lt 0 (length (ended_at self.now.invocations.rows)))) }
        ensures still { OnErr result (sink.new.outputs ≡ sink.old.outputs) }
    {
        let Some(peer) = self.plain_end(request) else {
            return self.write_any_end(request, sink);
        };
        if let Some(fault) = self.end_fault(request) {
            return Err(fault);
        }
        let frame = Frame::End {
            dtid: peer.copied(),
            dialogue: None,
            components: self.queue.all_octets(),
        };
        let len = frame_length(&frame)?;
        let more = self.invocations.open_count();
        sink.send_frame(self.kept.octets(), &frame, len, more)?;
        Ok(())
    }

    /// Judges an end, and writes its message, if it sends one; the dialogue is over.
    #[inline(always)]
    pub(super) fn send_end<'m, K: SinkKind>(
        &mut self,
        request: &EndRequest<'_>,
        sink: &mut Sink<'m, A, K>,
    ) -> Result<After, Fault>
        ensures step { StepsInto sink.old.outputs sink.new.outputs result
            (requested 0 0 self.old (Request.dialogue (end_view request.now))) self.old self.new }
        ensures ends { IfOk result (λ after. is_over after ≡ true) }
        ensures kept { self.new.standing.identifier ≡ self.old.standing.identifier }
    {
        self.write_end(request, sink)?;
        tell_ended(self.identifier, &mut self.invocations, sink);
        Ok(self.phase.send_end())
    }

    /// `send_end`, into a vector.
    fn end_step<'m>(&mut self, request: &EndRequest<'_>) -> Result<Step<'m, A>, Fault>
        ensures step { Steps result
            (requested 0 0 self.old (Request.dialogue (end_view request.now))) self.old self.new }
        ensures kept { self.new.standing.identifier ≡ self.old.standing.identifier }
    {
        let mut sink = Sink::vector(*self.queue.octets.allocator());
        let after = self.send_end_apart(request, &mut sink)?;
        let outputs = sink.into_vector();
        Ok(Step {
            outputs,
            over: after.is_over(),
        })
    }

    /// `finish`, of which what is sent and told is appended to what a sink holds. What the dialogue, which is over,
    /// leaves is for `leave_memory`; where the end is refused, an empty queue leaves its memory to others. Faults:
    /// those of `finish` (Q.771, TC-END; the memory is our own).
    #[inline(always)]
    pub fn finish_with<'m, K: SinkKind>(
        &mut self,
        spares: &mut Spares<A>,
        request: &EndRequest<'_>,
        sink: &mut Sink<'m, A, K>,
    ) -> Result<(), Fault>
        ensures step { StepsBy true sink.old.outputs sink.new.outputs result
            (requested 0 0 self.old (Request.dialogue (end_view request.now))) self.old self.new }
        ensures kept { self.new.standing.identifier ≡ self.old.standing.identifier }
    {
        let sent = self.send_end(request, sink);
        // Where it is over, `leave_memory` follows, which leaves the queue too.
        if sent.is_err() {
            self.leave_queue(spares);
        }
        sent?;
        Ok(())
    }

    /// `send_end`, as a call.
    #[inline(never)]
    pub(super) fn send_end_apart<'m, K: SinkKind>(
        &mut self,
        request: &EndRequest<'_>,
        sink: &mut Sink<'m, A, K>,
    ) -> Result<After, Fault>
        ensures step { StepsInto sink.old.outputs sink.new.outputs result
            (requested 0 0 self.old (Request.dialogue (end_view request.now))) self.old self.new }
        ensures kept { self.new.standing.identifier ≡ self.old.standing.identifier }
    {
        self.send_end(request, sink)
    }
}

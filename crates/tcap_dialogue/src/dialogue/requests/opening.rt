//! TC-BEGIN (Q.771, Dialogue handling): the request with which a dialogue begins.

// Hints to inline have the reasons that requests.rt gives.

ghost use Rattle.std.specs.Prelude.{◌≡◌, ◌≤◌, ◌++◌, None, Some, IfErr, IfOk, OnErr, OnOk, is_some, false, option_copied, true};
ghost use Rattle.std.specs.Option.{option_map};
ghost use Rattle.tcap_dialogue.specs.RequestForm.{Steps, StepsBy, StepsInto};
ghost use Rattle.tcap_dialogue.specs.RequestMessages.{IsUnwritten, early_faults, outgoing_view};
ghost use Rattle.tcap_dialogue.specs.StepViews.{asked, requested};
ghost use Rattle.tcap_invocation.specs.Stage.{moment_limit};
ghost use Rattle.tcap_model.specs.Procedures.AbortRules.{sent_if_any};
ghost use Rattle.tcap_model.specs.Procedures.Refusals.{can_name, due_on, first_that, holds};
ghost use Rattle.tcap_model.specs.Procedures.RequestMessage.{message_of};
ghost use Rattle.tcap_model.specs.Table.Dialogue.{in_context, keeping};
ghost use Rattle.tcap_model.specs.Table.TableMove.{situation};
ghost use Rattle.tcap_model.specs.Words.Request.{DialogueRequest, Request};
ghost use Rattle.tcap_primitives.specs.ContextViews.{context_view};
ghost use Rattle.tcap_primitives.specs.FaultViews.{fault_view};
ghost use Rattle.tcap_primitives.specs.RequestViews.{begin_view};
ghost use Rattle.tcap_primitives.specs.SendingViews.{CanSend, sending_view};
ghost use Rattle.tcap_reception.specs.StateViews.{is_over};

use super::sending::{frame_length, is_name_good, lacks_context, send, within_limit_if_any};
use crate::dialogue::kept_address::{Names, is_short, keep_short};
use crate::dialogue::spares::Spares;
use crate::dialogue::{Dialogue, Step};
use std::alloc::Allocator;
use tcap_address::Address;
use tcap_pdu::{Frame, TransId, is_user_information};
use tcap_primitives::{
    BeginRequest, Fault, MessageParts, Outgoing, Sending, Sink, SinkKind, begin_pdu,
};
use tcap_reception::After;

impl<A: Allocator + Copy> Dialogue<A> {
    /// TC-BEGIN request: the queue goes out in a Begin to this address, which is kept, with an AARQ where
    /// there is a context, and the dialogue is Sent. `context` is the contents octets of its object identifier,
    /// not its dotted text. Faults: WrongState unless Fresh, BadOid,
    /// BadParameter, NoContext for information without a context, TooLong, OutOfMemory
    /// (Q.774, Dialogue begin).
    #[inline(always)]
    pub fn begin<'m>(
        &mut self,
        to: &Address,
        context: Option<&[u8]>,
        info: &[u8],
        clock: u64,
    ) -> Result<Step<'m, A>, Fault>
        requires { clock ≤ moment_limit }
        ensures step { Steps result (requested clock 0 self.old (Request.dialogue
            (DialogueRequest.begin to.now (option_copied context.entry) info.now))) self.old self.new }
        ensures kept { self.new.standing.identifier ≡ self.old.standing.identifier }
    {
        self.begin_step(&BeginRequest { to, context, info }, clock)
    }

    /// The first fault of a Begin that is due before its message is written.
    #[inline(always)]
    fn begin_fault(&self, request: &BeginRequest<'_>) -> Option<Fault>
        ensures { let r = Request.dialogue (begin_view request.now) in option_map fault_view result
            ≡ first_that (holds (situation (asked 0 0) self.now r) r) early_faults }
    {
        if !self.phase.is_fresh() {
            return Some(Fault::WrongState);
        }
        if !is_name_good(request.context) {
            return Some(Fault::BadOid);
        }
        if !is_user_information(request.info) {
            return Some(Fault::BadParameter);
        }
        if lacks_context(request.context, request.info) {
            return Some(Fault::NoContext);
        }
        None
    }

    /// The Begin with the queue.
    #[inline(always)]
    fn begin_sending<'a>(&'a self, request: &BeginRequest<'a>) -> Sending<'a>
        ensures message { Some (sending_view result)
            ≡ message_of self.now.standing (Request.dialogue (begin_view request.now)) }
        ensures sound { CanSend (option_copied request.now.context) request.now.info.now (Some result) }
    {
        Sending {
            bearer: MessageParts::Begin {
                origin: self.identifier,
                components: self.queue.all_octets(),
            },
            pdu: begin_pdu(request.context, request.info),
        }
    }

    /// The Begin, or the first due fault of its request.
    #[inline(always)]
    pub(crate) fn begin_message<'a>(
        &'a self,
        request: &BeginRequest<'a>,
    ) -> Result<Option<Outgoing<'a>>, Fault>
        ensures ok { let r = Request.dialogue (begin_view request.now) in
            IfOk result (λ m. (outgoing_view m ≡ message_of self.now.standing r)
            × (due_on (situation (asked 0 0) self.now r) r ≡ None)) }
        ensures named { OnOk result (can_name (option_copied request.now.context) ≡ true) }
        ensures err { let r = Request.dialogue (begin_view request.now) in
            IfErr result (λ f. due_on (situation (asked 0 0) self.now r) r ≡ Some (fault_view f)) }
    {
        if let Some(fault) = self.begin_fault(request) {
            return Err(fault);
        }
        within_limit_if_any(Some(self.begin_sending(request)))
    }

    /// Writes a Begin without an AARQ, which is judged here.
    #[inline(always)]
    fn write_plain_begin<'m, K: SinkKind>(
        &self,
        request: &BeginRequest<'_>,
        sink: &mut Sink<'m, A, K>,
    ) -> Result<(), Fault>
        requires plain { is_some (option_copied request.now.context) ≡ false }
        ensures ok { let r = Request.dialogue (begin_view request.now) in OnOk result
            (sink.new.outputs ≡ sink.old.outputs
            ++ sent_if_any request.now.to.now (message_of self.now.standing r)) }
        ensures due { let r = Request.dialogue (begin_view request.now) in
            OnOk result (due_on (situation (asked 0 0) self.now r) r ≡ None) }
        ensures err { let r = Request.dialogue (begin_view request.now) in IfErr result (λ f. IsUnwritten f
            (due_on (situation (asked 0 0) self.now r) r)
            (is_some (message_of self.now.standing r))) }
        ensures still { OnErr result (sink.new.outputs ≡ sink.old.outputs) }
    {
        if let Some(fault) = self.begin_fault(request) {
            return Err(fault);
        }
        let frame = Frame::Begin {
            otid: TransId::of(self.identifier),
            dialogue: None,
            components: self.queue.all_octets(),
        };
        let len = frame_length(&frame)?;
        Ok(sink.send_frame(request.to.octets(), &frame, len, 0)?)
    }

    /// Judges a Begin and writes it: the names that the dialogue is to keep, for which memory is found first.
    // It stands apart: it has all of a dialogue PDU in it.
    #[inline(never)]
    fn write_named_begin<'m, K: SinkKind>(
        &self,
        request: &BeginRequest<'_>,
        sink: &mut Sink<'m, A, K>,
    ) -> Result<Names<A>, Fault>
        ensures ok { let r = Request.dialogue (begin_view request.now) in OnOk result
            (sink.new.outputs ≡ sink.old.outputs
            ++ sent_if_any request.now.to.now (message_of self.now.standing r)) }
        ensures due { let r = Request.dialogue (begin_view request.now) in
            OnOk result (due_on (situation (asked 0 0) self.now r) r ≡ None) }
        ensures names { IfOk result (λ names. (names.kept ≡ request.now.to.now)
            × (context_view names.context ≡ option_copied request.now.context)) }
        ensures err { let r = Request.dialogue (begin_view request.now) in IfErr result (λ f. IsUnwritten f
            (due_on (situation (asked 0 0) self.now r) r)
            (is_some (message_of self.now.standing r))) }
        ensures still { OnErr result (sink.new.outputs ≡ sink.old.outputs) }
    {
        let message = self.begin_message(request)?;
        let alloc = *self.queue.octets.allocator();
        let names = Names::of(alloc, request.to, request.context)?;
        send(request.to.octets(), message, 0, sink)?;
        Ok(names)
    }

    /// Judges a Begin and writes it; the dialogue keeps its destination and its context.
    // By the shorter way where nothing but the message takes memory.
    #[inline(always)]
    fn write_begin<'m, K: SinkKind>(
        &mut self,
        request: &BeginRequest<'_>,
        sink: &mut Sink<'m, A, K>,
    ) -> Result<(), Fault>
        ensures ok { let r = Request.dialogue (begin_view request.now) in OnOk result
            (sink.new.outputs ≡ sink.old.outputs
            ++ sent_if_any request.now.to.now (message_of self.old.standing r)) }
        ensures due { let r = Request.dialogue (begin_view request.now) in
            OnOk result (due_on (situation (asked 0 0) self.old r) r ≡ None) }
        ensures names { OnOk result (self.new
            ≡ keeping (in_context self.old (option_copied request.now.context)) request.now.to.now) }
        ensures err { let r = Request.dialogue (begin_view request.now) in IfErr result (λ f. IsUnwritten f
            (due_on (situation (asked 0 0) self.old r) r)
            (is_some (message_of self.old.standing r))) }
        ensures still { OnErr result (sink.new.outputs ≡ sink.old.outputs) }
        ensures unchanged { OnErr result (self.new ≡ self.old) }
    {
        if request.context.is_some() || !is_short(request.to) {
            let names = self.write_named_begin(request, sink)?;
            self.kept = names.kept;
            self.context = names.context;
        } else {
            self.write_plain_begin(request, sink)?;
            keep_short(request.to, &mut self.kept, &mut self.context);
        }
        Ok(())
    }

    /// Judges a Begin, and writes it at this moment; the dialogue keeps its destination and its context, and is Sent,
    /// and not over.
    #[inline(always)]
    pub(super) fn send_begin<'m, K: SinkKind>(
        &mut self,
        request: &BeginRequest<'_>,
        clock: u64,
        sink: &mut Sink<'m, A, K>,
    ) -> Result<After, Fault>
        requires { clock ≤ moment_limit }
        ensures step { StepsInto sink.old.outputs sink.new.outputs result
            (requested clock 0 self.old (Request.dialogue (begin_view request.now))) self.old self.new }
        ensures stands { IfOk result (λ after. is_over after ≡ false) }
        ensures kept { self.new.standing.identifier ≡ self.old.standing.identifier }
    {
        self.write_begin(request, sink)?;
        self.send_queue(clock);
        self.touched = clock;
        Ok(self.phase.send_begin())
    }

    /// `send_begin`, into a vector.
    fn begin_step<'m>(
        &mut self,
        request: &BeginRequest<'_>,
        clock: u64,
    ) -> Result<Step<'m, A>, Fault>
        requires { clock ≤ moment_limit }
        ensures step { Steps result
            (requested clock 0 self.old (Request.dialogue (begin_view request.now))) self.old self.new }
        ensures kept { self.new.standing.identifier ≡ self.old.standing.identifier }
    {
        let mut sink = Sink::vector(*self.queue.octets.allocator());
        let after = self.send_begin_apart(request, clock, &mut sink)?;
        let outputs = sink.into_vector();
        Ok(Step {
            outputs,
            over: after.is_over(),
        })
    }

    /// `begin`, whose message is appended to what a sink holds; `clock` is in milliseconds, at most 2^62. The queue
    /// leaves its memory to others; it is empty, unless the Begin is refused. Faults: those of `begin`
    /// (Q.771, TC-BEGIN; the memory is our own).
    #[inline(always)]
    pub fn begin_with<'m, K: SinkKind>(
        &mut self,
        spares: &mut Spares<A>,
        request: &BeginRequest<'_>,
        clock: u64,
        sink: &mut Sink<'m, A, K>,
    ) -> Result<(), Fault>
        requires { clock ≤ moment_limit }
        ensures step { StepsBy false sink.old.outputs sink.new.outputs result
            (requested clock 0 self.old (Request.dialogue (begin_view request.now))) self.old self.new }
        ensures kept { self.new.standing.identifier ≡ self.old.standing.identifier }
    {
        let sent = self.send_begin(request, clock, sink);
        self.leave_empty_queue(spares, sent.is_ok());
        sent?;
        Ok(())
    }

    /// `send_begin`, as a call.
    #[inline(never)]
    pub(super) fn send_begin_apart<'m, K: SinkKind>(
        &mut self,
        request: &BeginRequest<'_>,
        clock: u64,
        sink: &mut Sink<'m, A, K>,
    ) -> Result<After, Fault>
        requires { clock ≤ moment_limit }
        ensures step { StepsInto sink.old.outputs sink.new.outputs result
            (requested clock 0 self.old (Request.dialogue (begin_view request.now))) self.old self.new }
        ensures kept { self.new.standing.identifier ≡ self.old.standing.identifier }
    {
        self.send_begin(request, clock, sink)
    }
}

//! What the requests of dialogue handling share: how their dialogue portion is judged, and how their message is
//! measured and sent.

// Hints to inline have the reasons that requests.rt gives.

ghost use Rattle.std.specs.Prelude.{◌≡◌, ◌≤◌, ◌++◌, ◌||◌, ℕ, List, Option, None, Some, IfErr, IfOk, IfSome, IsTrue, OnErr, OnOk, false, true, is_some, length, nat_lt, option_copied};
ghost use Rattle.std.specs.Option.{option_map};
ghost use Rattle.tcap_dialogue.specs.RequestMessages.{outgoing_view};
ghost use Rattle.tcap_dialogue.specs.StepViews.{asked};
ghost use Rattle.tcap_invocation.specs.Stage.{moment_limit};
ghost use Rattle.tcap_model.specs.Procedures.AbortRules.{sent_if_any};
ghost use Rattle.tcap_model.specs.Procedures.Refusals.{can_name, gives_any, is_filled, lacks_context, passes_message};
ghost use Rattle.tcap_model.specs.Procedures.QueueRules.{joined};
ghost use Rattle.tcap_model.specs.Procedures.RequestMessage.{answer_portion, message_of};
ghost use Rattle.tcap_model.specs.Procedures.States.{is_asked};
ghost use Rattle.tcap_model.specs.Table.TableMove.{gone_out};
ghost use Rattle.tcap_model.specs.Words.LocalId.{local_id};
ghost use Rattle.tcap_model.specs.Words.Request.{DialogueRequest, Ending, Request};
ghost use Rattle.tcap_pdu.specs.FrameMeasured.{IsMeasured};
ghost use Rattle.tcap_pdu.specs.FrameSpelling.{Message};
ghost use Rattle.tcap_pdu.specs.FrameViews.{message};
ghost use Rattle.tcap_primitives.specs.SendingViews.{CanCarry, IsGood, portion_view, sending_view};
ghost use Rattle.tcap_primitives.specs.declared.fault.Fault.TheVariants as fault;

use crate::dialogue::Dialogue;
use ber_core::{OutOfMemory, is_oid};
use std::alloc::Allocator;
use tcap_pdu::{DialoguePdu, Frame, MessageLength, TransId, own_length};
use tcap_primitives::{Fault, Outgoing, Sending, Sink, SinkKind, answering_pdu};
use tcap_reception::Phase;

/// Whether a context that is given is an object identifier.
#[inline(always)]
pub(super) fn is_name_good(context: Option<&[u8]>) -> bool
    ensures { result ≡ can_name (option_copied context.entry) }
{
    match context {
        None => true,
        Some(context) => is_oid(context),
    }
}

/// Whether there is something.
#[inline(always)]
pub(super) fn is_filled(bytes: &[u8]) -> bool
    ensures { result ≡ is_filled bytes.now }
{
    match bytes {
        [] => false,
        [_, ..] => true,
    }
}

/// Whether user information is given without a context.
#[inline(always)]
pub(super) fn lacks_context(context: Option<&[u8]>, info: &[u8]) -> bool
    ensures { result ≡ lacks_context (option_copied context.entry) info.now }
{
    context.is_none() && is_filled(info)
}

/// Whether a context or user information is given.
#[inline(always)]
pub(super) fn gives_any(context: Option<&[u8]>, info: &[u8]) -> bool
    ensures { result ≡ gives_any (option_copied context.entry) info.now }
{
    context.is_some() || is_filled(info)
}

impl<A: Allocator + Copy> Dialogue<A> {
    /// Whether a Begin with an AARQ was received and isn't answered yet.
    #[inline(always)]
    pub(super) fn is_asked(&self) -> bool
        ensures { result ≡ is_asked self.now.standing.state self.now.standing.context }
    {
        match &self.phase {
            Phase::Fresh | Phase::Sent | Phase::Active(_) => false,
            Phase::Received(_) => self.context.is_some(),
        }
    }

    /// The AARE that accepts an AARQ which isn't answered yet, if there is one.
    pub(super) fn answer_pdu<'a>(
        &'a self,
        context: Option<&'a [u8]>,
        info: &'a [u8],
    ) -> Option<DialoguePdu<'a>>
        ensures portion { portion_view result ≡ answer_portion self.now.standing.state self.now.standing.context
            (option_copied context.entry) info.now }
        ensures sound { CanCarry (option_copied context.entry) info.now result }
    {
        match &self.phase {
            Phase::Fresh | Phase::Sent | Phase::Active(_) => None,
            Phase::Received(_) => answering_pdu(&self.context, context, info),
        }
    }

    /// The peer, if it is known and no AARQ is to be answered: a Continue or an End to it has no dialogue portion.
    #[inline(always)]
    pub(super) fn plain_peer(&self) -> Option<&TransId>
        ensures go_on { IfSome result (λ peer. (context : Option (List ℕ)) (info : List ℕ)
            → message_of self.now.standing (Request.dialogue (DialogueRequest.go_on context info))
            ≡ Some (Message.go_on (local_id self.now.standing.identifier) peer.now None
            (joined self.now.standing.queue))) }
        ensures finish { IfSome result (λ peer. (context : Option (List ℕ)) (info : List ℕ)
            → message_of self.now.standing (Request.dialogue (DialogueRequest.finish Ending.basic context info))
            ≡ Some (Message.end peer.now None (joined self.now.standing.queue))) }
    {
        match &self.phase {
            Phase::Fresh | Phase::Sent => None,
            Phase::Active(peer) => Some(peer),
            Phase::Received(peer) => {
                if self.context.is_some() {
                    return None;
                }
                Some(peer)
            }
        }
    }

    /// A message with the queue goes out at this moment.
    #[inline(always)]
    pub(super) fn send_queue(&mut self, clock: u64)
        requires { clock ≤ moment_limit }
        ensures { self.new ≡ gone_out (asked clock 0) self.old }
    {
        self.queue.clear();
        self.invocations.sent(clock);
    }
}

/// A message that is sent, which is within the limit. Faults: TooLong.
// Each request knows which message it sends: in its own copy the match on that folds away, here and below.
#[inline(always)]
pub(super) fn within_limit(sending: Sending<'_>) -> Result<Outgoing<'_>, Fault>
    requires { IsGood sending.pdu }
    ensures ok { IfOk result (λ m. (m.sending ≡ sending.entry)
        × (passes_message (Some (sending_view sending.entry)) ≡ false)) }
    ensures err { IfErr result (λ f. (f ≡ fault.TooLong)
        × (passes_message (Some (sending_view sending.entry)) ≡ true)) }
{
    Outgoing::of(sending).ok_or(Fault::TooLong)
}

/// A message that is sent, if there is one. Faults: TooLong.
#[inline(always)]
pub(super) fn within_limit_if_any(
    sending: Option<Sending<'_>>,
) -> Result<Option<Outgoing<'_>>, Fault>
    requires { IfSome sending (λ s. IsGood s.pdu) }
    ensures ok { let m = option_map sending_view sending.entry in
        IfOk result (λ v. (outgoing_view v ≡ m) × (passes_message m ≡ false)) }
    ensures err { IfErr result (λ f. (f ≡ fault.TooLong)
        × (passes_message (option_map sending_view sending.entry) ≡ true)) }
{
    match sending {
        None => Ok(None),
        Some(sending) => Ok(Some(within_limit(sending)?)),
    }
}

/// Sends a message to an address, of at most 255 octets, if there is one, with places for so many outputs more.
// In each of its callers it is known whether there is a message: the match folds away.
#[inline(always)]
pub(super) fn send<'m, A: Allocator + Copy, K: SinkKind>(
    to: &[u8],
    message: Option<Outgoing<'_>>,
    more: usize,
    sink: &mut Sink<'m, A, K>,
) -> Result<(), OutOfMemory>
    requires to { length to.now ≤ 255 }
    ensures ok { OnOk result (sink.new.outputs ≡ sink.old.outputs
        ++ sent_if_any to.now (outgoing_view message.entry)) }
    ensures places { OnOk result (more ≤ sink.new.places) }
    ensures still { OnErr result (sink.new.outputs ≡ sink.old.outputs) }
    ensures memory { OnErr result (IsTrue (is_some (outgoing_view message.entry) || nat_lt 0 more)) }
{
    match message {
        None => Ok(sink.reserve(more, 0)?),
        Some(message) => Ok(sink.send(to, &message, more)?),
    }
}

/// How long a message is as it stands. Faults: TooLong.
#[inline(always)]
pub(super) fn frame_length(frame: &Frame<'_>) -> Result<MessageLength, Fault>
    ensures ok { IfOk result (λ len. IsMeasured len (message frame.now) None
        × (passes_message (Some (message frame.now)) ≡ false)) }
    ensures err { IfErr result (λ f. (f ≡ fault.TooLong) × (passes_message (Some (message frame.now)) ≡ true)) }
{
    own_length(frame).ok_or(Fault::TooLong)
}

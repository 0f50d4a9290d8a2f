//! A message that is within the limit: how long it is, and its octets, which are written where it goes out.

// Hints to inline: each step of an engine runs through it; docs/PERF.md says what the whole of it inlined gains.

ghost use Rattle.std.specs.Prelude.{◌≡◌, ◌+◌, ◌≤◌, ◌++◌, None, Some, IfSome, is_some, length, not, vec_len, vec_capacity, option_copied, IfOk, ◌⊎◌, true, false, IfErr, IsErrOf};
ghost use Rattle.tcap_model.specs.Procedures.Refusals.{passes_message};
ghost use Rattle.tcap_pdu.specs.FrameWritten.{written_frame};
ghost use Rattle.tcap_primitives.specs.SendingViews.{CanGoOut, IsGood, sending_view, carried_by, reason_with};
ghost use Rattle.tcap_pdu.specs.FrameViews.{message, reason_of};
ghost use Rattle.tcap_pdu.specs.FrameSpelling.{HasIds};
ghost use Rattle.tcap_pdu.specs.declared.fault.PduFault.TheVariants as pdu_fault;
ghost use Rattle.tcap_pdu.specs.DialogueDue.{content_fault};
ghost use Rattle.tcap_pdu.specs.DialogueViews.{pdu_value};
ghost use Rattle.tcap_pdu.specs.DialogueWritten.{HasDiagnostic};

use super::{MessageParts, Sending};
use ber_core::OutOfMemory;
use std::alloc::Allocator;
use tcap_pdu::{
    AbortPart, Frame, MessageLength, PduFault, TransId, append_message, message_length,
};

/// A message that goes out: it is within the limit, and its length is known.
#[derive(Drop)]
pub struct Outgoing<'a> {
    /// The message.
    pub sending: Sending<'a>,
    /// How long it is.
    pub length: MessageLength,
    ghost can_go_out: { CanGoOut length sending },
}

impl<'a> Outgoing<'a> {
    /// A message, where the contents of its PDU are good; `None` above 65,535 octets. It takes no memory (our own).
    #[inline(always)]
    pub fn of(sending: Sending<'a>) -> Option<Outgoing<'a>>
        requires { IsGood sending.pdu }
        ensures same { IfSome result (λ m. m.sending ≡ sending.entry) }
        ensures passes { is_some result ≡ not (passes_message (Some (sending_view sending.entry))) }
    {
        let length = sending.measured()?;
        Some(Outgoing { sending, length })
    }

    /// How many octets it has.
    #[inline(always)]
    pub fn len(&self) -> usize
        ensures { result ≡ length (written_frame (sending_view self.now.sending)) }
    {
        self.sending.octets_measured(self.length)
    }

    /// Appends its octets, for which there is room.
    #[inline(always)]
    pub fn append<A: Allocator + Copy>(&self, out: &mut Vec<u8, A>)
        requires { vec_len out.old + length (written_frame (sending_view self.now.sending)) ≤ vec_capacity out.old }
        ensures items { out.new.items ≡ out.old.items ++ written_frame (sending_view self.now.sending) }
        ensures capacity { vec_capacity out.old ≤ vec_capacity out.new }
    {
        self.sending.append_measured(out, self.length);
    }
}

impl<'a> MessageParts<'a> {
    /// The message with this dialogue portion, if there is one and it can hold it.
    #[inline(always)]
    fn frame<'b>(&'b self, dialogue: Option<&'b [u8]>) -> Frame<'b>
        ensures { message result ≡ carried_by self.now (option_copied dialogue.entry) }
    {
        match self {
            MessageParts::Uni { components } => Frame::Uni {
                dialogue,
                components,
            },
            MessageParts::Begin { origin, components } => Frame::Begin {
                otid: TransId::of(*origin),
                dialogue,
                components,
            },
            MessageParts::Continue {
                origin,
                peer,
                components,
            } => Frame::Continue {
                otid: TransId::of(*origin),
                dtid: peer.copied(),
                dialogue,
                components,
            },
            MessageParts::End { peer, components } => Frame::End {
                dtid: peer.copied(),
                dialogue,
                components,
            },
            MessageParts::Abort { peer } => Frame::Abort {
                dtid: peer.copied(),
                reason: reason(dialogue),
            },
            MessageParts::AbortCause { peer, cause } => Frame::Abort {
                dtid: peer.copied(),
                reason: AbortPart::Cause(*cause),
            },
        }
    }
}

/// What an Abort carries.
fn reason<'a>(portion: Option<&'a [u8]>) -> AbortPart<'a>
    ensures { reason_of result ≡ reason_with (option_copied portion.entry) }
{
    match portion {
        None => AbortPart::Nothing,
        Some(portion) => AbortPart::Dialogue(portion),
    }
}

impl<'a> Sending<'a> {
    /// How long the message is, where the contents of its PDU are good; `None` above 65,535 octets. It takes no
    /// memory (our own).
    // Where the message is known, as in a request, the match on it folds away; so it does below.
    #[inline(always)]
    pub(crate) fn measured(&self) -> Option<MessageLength>
        requires { IsGood self.now.pdu }
        ensures some { IfSome result (λ len. CanGoOut len self.now) }
        ensures passes { is_some result ≡ not (passes_message (Some (sending_view self.now))) }
        ensures ids { HasIds (sending_view self.now) }
    {
        message_length(&self.bearer.frame(None), self.pdu.as_ref())
    }

    /// Appends the octets of the message, which is so long, and for which there is room.
    #[inline(always)]
    fn append_measured<A: Allocator + Copy>(&self, out: &mut Vec<u8, A>, len: MessageLength)
        requires can { CanGoOut len self.now }
        requires room { vec_len out.old + length (written_frame (sending_view self.now)) ≤ vec_capacity out.old }
        ensures items { out.new.items ≡ out.old.items ++ written_frame (sending_view self.now) }
        ensures capacity { vec_capacity out.old ≤ vec_capacity out.new }
    {
        append_message(out, &self.bearer.frame(None), self.pdu.as_ref(), len);
    }

    /// How many octets the message has, which is so long.
    #[inline(always)]
    fn octets_measured(&self, len: MessageLength) -> usize
        requires { CanGoOut len self.now }
        ensures { result ≡ length (written_frame (sending_view self.now)) }
    {
        len.octets()
    }

    /// The octets of the message, which is so long. All room is taken first, and no more.
    #[inline(always)]
    fn spell_measured<A: Allocator + Copy>(
        &self,
        alloc: A,
        len: MessageLength,
    ) -> Result<Vec<u8, A>, OutOfMemory>
        requires { CanGoOut len self.now }
        ensures { IfOk result (λ v. v.items ≡ written_frame (sending_view self.now)) }
    {
        let mut out = Vec::with_capacity(alloc, self.octets_measured(len))?;
        self.append_measured(&mut out, len);
        Ok(out)
    }

    /// The octets of the message, where the contents of its PDU are good; it is written at once, with the
    /// dialogue portion in its place. Faults: TooLong above 65,535 bytes, then OutOfMemory (our own).
    // Where the message is known, as in a request, the match on it folds away.
    #[inline(always)]
    pub fn spelled<A: Allocator + Copy>(&self, alloc: A) -> Result<Vec<u8, A>, PduFault>
        requires { IfSome self.now.pdu (λ p. HasDiagnostic (pdu_value p) × (content_fault (pdu_value p) ≡ None)) }
        ensures written { IfOk result (λ v. v.items ≡ written_frame (sending_view self.now)) }
        // TooLong exactly where the message is above the limit, and else no fault but OutOfMemory.
        ensures too_long { passes_message (Some (sending_view self.now)) ≡ true → IsErrOf result pdu_fault.TooLong }
        ensures fault { IfErr result (λ f.
            ((f ≡ pdu_fault.TooLong) × (passes_message (Some (sending_view self.now)) ≡ true))
            ⊎ ((f ≡ pdu_fault.OutOfMemory) × (passes_message (Some (sending_view self.now)) ≡ false))) }
    {
        let Some(len) = self.measured() else {
            return Err(PduFault::TooLong);
        };
        Ok(self.spell_measured(alloc, len)?)
    }
}

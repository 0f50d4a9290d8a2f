//! The portions of a message, and the message appended in the canonical form to a vector that has room for it.

ghost use Rattle.std.specs.Prelude.{◌≡◌, ◌+◌, ◌≤◌, ◌++◌, [], ◌∷◌, length, option_copied, vec_len, vec_capacity, None, Some, IfSome, option_map};
ghost use Rattle.ber_core.specs.Length.{length_limit};
ghost use Rattle.ber_core.specs.Sequence.Field.{may, filled};
ghost use Rattle.ber_core.specs.Written.{written, written_field, written_fields, written_head};
ghost use Rattle.tcap_pdu.specs.FrameParts.{cause_fields, closing_fields, identifier_fields, has_place};
ghost use Rattle.tcap_pdu.specs.FrameSpelling.{message_tag};
ghost use Rattle.tcap_pdu.specs.FrameViews.{message, reason_of};
ghost use Rattle.tcap_pdu.specs.FrameWritten.{message_limit, written_frame};
ghost use Rattle.ber_core.specs.ObjectIdentifier.{object_identifier_limit};
ghost use Rattle.tcap_pdu.specs.DialogueDue.{content_fault, context_of};
ghost use Rattle.tcap_pdu.specs.DialogueViews.{pdu_value};
ghost use Rattle.tcap_pdu.specs.DialogueWritten.{written_dialogue};
ghost use Rattle.tcap_pdu.specs.FrameLength.{dialogue_of, with_dialogue};
ghost use Rattle.tcap_pdu.specs.FrameMeasured.{IsMeasured, carrying};

use super::length::MessageLength;
use super::{AbortPart, Frame};
use crate::dialogue_pdu::DialoguePdu;
use crate::dialogue_pdu::put::put_portion;
use crate::tag;
use crate::trans_id::TransId;
use ber_core::{put_element, put_few, put_head, put_octet};
use std::alloc::Allocator;

impl<'a> Frame<'a> {
    ghost use Rattle.std.specs.Prelude.{◌≡◌, IfSome, option_copied};
    ghost use Rattle.tcap_pdu.specs.FrameLength.{dialogue_of};
    ghost use Rattle.tcap_pdu.specs.FramePortions.{components_in, dialogue_slice, components_slice};
    ghost use Rattle.tcap_pdu.specs.FrameViews.{message};

    /// The contents of 6B, the dialogue portion, `None` where there is none (Q.773, Dialogue portion).
    // One arm for each kind of message, in `components` too: where one pattern names a part of several, what it binds
    // is an address, and the message is kept in memory.
    #[inline(always)]
    pub fn dialogue(&self) -> Option<&'a [u8]>
        ensures exact { option_copied result ≡ dialogue_of (message self.now) }
        // It is the slice that the message holds.
        ensures own { result ≡ dialogue_slice self.now }
    {
        match self {
            Frame::Uni { dialogue, .. } => *dialogue,
            Frame::Begin { dialogue, .. } => *dialogue,
            Frame::End { dialogue, .. } => *dialogue,
            Frame::Continue { dialogue, .. } => *dialogue,
            Frame::Abort { reason, .. } => match reason {
                AbortPart::Nothing | AbortPart::Cause(_) => None,
                AbortPart::Dialogue(content) => Some(*content),
            },
        }
    }

    /// The contents of 6C, the component portion, empty where there is none (Q.773, Component
    /// portion).
    #[inline(always)]
    pub fn components(&self) -> &'a [u8]
        ensures exact { result.now ≡ components_in (message self.now) }
        // It is the slice that the message holds.
        ensures own { IfSome (components_slice self.now) (λ own. result ≡ own) }
    {
        match self {
            Frame::Uni { components, .. } => *components,
            Frame::Begin { components, .. } => *components,
            Frame::End { components, .. } => *components,
            Frame::Continue { components, .. } => *components,
            Frame::Abort { .. } => &[],
        }
    }
}

/// The tag of the message type.
#[inline(always)]
fn tag_of(frame: &Frame<'_>) -> u8
    ensures { result ≡ message_tag (message frame.now) }
{
    match frame {
        Frame::Uni { .. } => tag::UNIDIRECTIONAL,
        Frame::Begin { .. } => tag::BEGIN,
        Frame::End { .. } => tag::END,
        Frame::Continue { .. } => tag::CONTINUE,
        Frame::Abort { .. } => tag::ABORT,
    }
}

/// Appends a transaction identifier, by a call.
#[inline(never)]
fn put_any_id<A: Allocator + Copy>(out: &mut Vec<u8, A>, tag: u8, id: &TransId)
    requires { vec_len out.old + length (written (tag ∷ []) id.now) ≤ vec_capacity out.old }
    ensures items { out.new.items ≡ out.old.items ++ written (tag ∷ []) id.now }
    ensures capacity { vec_capacity out.old ≤ vec_capacity out.new }
{
    put_few(out, tag, id.octets());
}

/// Appends a transaction identifier.
// Nearly all have four octets. One whose octets are walked through is kept in memory, and so is the message that it
// lies in, with all that is known of it: 8 to 78 instructions a message by an outbox.
#[inline(always)]
fn put_id<A: Allocator + Copy>(out: &mut Vec<u8, A>, tag: u8, id: &TransId)
    requires { vec_len out.old + length (written (tag ∷ []) id.now) ≤ vec_capacity out.old }
    ensures items { out.new.items ≡ out.old.items ++ written (tag ∷ []) id.now }
    ensures capacity { vec_capacity out.old ≤ vec_capacity out.new }
{
    match id.four_octets() {
        Some(octets) => put_few(out, tag, &octets),
        None => put_any_id(out, tag, &id.copied()),
    }
}

/// Appends the transaction identifiers of the message.
// One arm for each kind of message: where one pattern names a part of several, what it binds is an address, and the
// message is kept in memory. So it is in `put_closing` and in length.rt.
#[inline(always)]
fn put_identifiers<A: Allocator + Copy>(out: &mut Vec<u8, A>, frame: &Frame<'_>)
    requires { vec_len out.old + length (written_fields (identifier_fields (message frame.now)))
        ≤ vec_capacity out.old }
    ensures items { out.new.items ≡ out.old.items ++ written_fields (identifier_fields (message frame.now)) }
    ensures capacity { vec_capacity out.old ≤ vec_capacity out.new }
{
    match frame {
        Frame::Uni { .. } => {}
        Frame::Begin { otid, .. } => put_id(out, tag::ORIGIN, otid),
        Frame::End { dtid, .. } => put_id(out, tag::DESTINATION, dtid),
        Frame::Continue { otid, dtid, .. } => {
            put_id(out, tag::ORIGIN, otid);
            put_id(out, tag::DESTINATION, dtid);
        }
        Frame::Abort { dtid, .. } => put_any_id(out, tag::DESTINATION, dtid),
    }
}

/// Appends the head of the message, whose contents have this many bytes, and its transaction
/// identifiers.
#[inline(always)]
pub(super) fn put_front<A: Allocator + Copy>(
    out: &mut Vec<u8, A>,
    frame: &Frame<'_>,
    content: usize,
)
    requires short { content ≤ length_limit }
    requires room { vec_len out.old + length (written_head (message_tag (message frame.now) ∷ []) content
        ++ written_fields (identifier_fields (message frame.now))) ≤ vec_capacity out.old }
    ensures items { out.new.items ≡ out.old.items ++ (written_head (message_tag (message frame.now) ∷ []) content
        ++ written_fields (identifier_fields (message frame.now))) }
    ensures capacity { vec_capacity out.old ≤ vec_capacity out.new }
{
    put_head(out, tag_of(frame), content);
    put_identifiers(out, frame);
}

/// Appends 6B, if the message has it.
#[inline(always)]
pub(super) fn put_dialogue<A: Allocator + Copy>(out: &mut Vec<u8, A>, content: Option<&[u8]>)
    requires short { length (written_field (may 0x6b (option_copied content))) ≤ message_limit }
    requires room { vec_len out.old + length (written_field (may 0x6b (option_copied content)))
        ≤ vec_capacity out.old }
    ensures items { out.new.items ≡ out.old.items ++ written_field (may 0x6b (option_copied content.entry)) }
    ensures capacity { vec_capacity out.old ≤ vec_capacity out.new }
{
    if let Some(content) = content {
        put_element(out, tag::DIALOGUE_PORTION, content);
    }
}

/// Appends 6C, unless it is empty.
#[inline(always)]
fn put_components<A: Allocator + Copy>(out: &mut Vec<u8, A>, components: &[u8])
    requires short { length components.now ≤ message_limit }
    requires room { vec_len out.old + length (written_field (filled 0x6c components.now)) ≤ vec_capacity out.old }
    ensures items { out.new.items ≡ out.old.items ++ written_field (filled 0x6c components.now) }
    ensures capacity { vec_capacity out.old ≤ vec_capacity out.new }
{
    if !components.is_empty() {
        put_element(out, tag::COMPONENT_PORTION, components);
    }
}

/// Appends the P-Abort cause of an Abort, if it has one.
#[inline(always)]
fn put_cause<A: Allocator + Copy>(out: &mut Vec<u8, A>, reason: &AbortPart<'_>)
    requires { vec_len out.old + length (written_fields (cause_fields (reason_of reason.now)))
        ≤ vec_capacity out.old }
    ensures items { out.new.items ≡ out.old.items ++ written_fields (cause_fields (reason_of reason.now)) }
    ensures capacity { vec_capacity out.old ≤ vec_capacity out.new }
{
    match reason {
        AbortPart::Cause(cause) => put_octet(out, tag::P_ABORT_CAUSE, *cause),
        AbortPart::Nothing | AbortPart::Dialogue(_) => {}
    }
}

/// Appends what the message has behind the place of 6B: 6C, or a P-Abort cause.
#[inline(always)]
pub(super) fn put_closing<A: Allocator + Copy>(out: &mut Vec<u8, A>, frame: &Frame<'_>)
    requires short { length (written_fields (closing_fields (message frame.now))) ≤ message_limit }
    requires room { vec_len out.old + length (written_fields (closing_fields (message frame.now)))
        ≤ vec_capacity out.old }
    ensures items { out.new.items ≡ out.old.items ++ written_fields (closing_fields (message frame.now)) }
    ensures capacity { vec_capacity out.old ≤ vec_capacity out.new }
{
    match frame {
        Frame::Uni { components, .. } => put_element(out, tag::COMPONENT_PORTION, components),
        Frame::Begin { components, .. } => put_components(out, components),
        Frame::End { components, .. } => put_components(out, components),
        Frame::Continue { components, .. } => put_components(out, components),
        Frame::Abort { reason, .. } => put_cause(out, reason),
    }
}

/// Whether the message can hold a dialogue portion: an Abort with a P-Abort cause can't.
#[inline(always)]
fn has_place(frame: &Frame<'_>) -> bool
    ensures { result ≡ has_place (message frame.now) }
{
    match frame {
        Frame::Uni { .. } | Frame::Begin { .. } | Frame::End { .. } | Frame::Continue { .. } => {
            true
        }
        Frame::Abort { reason, .. } => match reason {
            AbortPart::Cause(_) => false,
            AbortPart::Nothing | AbortPart::Dialogue(_) => true,
        },
    }
}

/// Appends 6B with this PDU, whose EXTERNAL has this length, where the message can hold it.
#[inline(always)]
fn put_carried<A: Allocator + Copy>(
    out: &mut Vec<u8, A>,
    frame: &Frame<'_>,
    pdu: &DialoguePdu<'_>,
    len: usize,
)
    requires context { IfSome (context_of (pdu_value pdu.now)) (λ c. length c ≤ object_identifier_limit) }
    requires len { len ≡ length (written_dialogue (pdu_value pdu.now)) }
    requires short { length (written_field (may 0x6b (dialogue_of (with_dialogue
        (Some (written_dialogue (pdu_value pdu.now))) (message frame.now))))) ≤ message_limit }
    requires room { vec_len out.old + length (written_field (may 0x6b (dialogue_of (with_dialogue
        (Some (written_dialogue (pdu_value pdu.now))) (message frame.now))))) ≤ vec_capacity out.old }
    ensures items { out.new.items ≡ out.old.items ++ written_field (may 0x6b (dialogue_of (with_dialogue
        (Some (written_dialogue (pdu_value pdu.now))) (message frame.now)))) }
    ensures capacity { vec_capacity out.old ≤ vec_capacity out.new }
{
    if has_place(frame) {
        put_head(out, tag::DIALOGUE_PORTION, len);
        put_portion(out, pdu);
    }
}

/// Appends the message that `message_length` measured, with the same PDU, for which there is room. No length
/// is computed again but within the PDU, and no memory is taken (Q.773, Structure of TC messages; the shortest
/// form is our own).
// Where the message is known, as in a request, the matches on it fold away.
#[inline(always)]
pub fn append_message<A: Allocator + Copy>(
    out: &mut Vec<u8, A>,
    frame: &Frame<'_>,
    pdu: Option<&DialoguePdu<'_>>,
    len: MessageLength,
)
    requires good { IfSome (option_copied pdu) (λ p. content_fault (pdu_value p) ≡ None) }
    requires measured { IsMeasured len (message frame.now) (option_map pdu_value (option_copied pdu)) }
    requires room { vec_len out.old + length (written_frame
        (carrying (option_map pdu_value (option_copied pdu)) (message frame.now))) ≤ vec_capacity out.old }
    ensures items { out.new.items ≡ out.old.items ++ written_frame
        (carrying (option_map pdu_value (option_copied pdu.entry)) (message frame.now)) }
    ensures capacity { vec_capacity out.old ≤ vec_capacity out.new }
{
    put_front(out, frame, len.contents);
    match pdu {
        None => put_dialogue(out, frame.dialogue()),
        Some(pdu) => put_carried(out, frame, pdu, len.dialogue),
    }
    put_closing(out, frame);
}

/// `append_message` without a PDU: the message as it stands, with its own dialogue portion if it has one.
// Apart from `append_message`, which has all kinds of PDU in it: a caller that knows its message can have this inlined.
#[inline(always)]
pub fn append_frame<A: Allocator + Copy>(
    out: &mut Vec<u8, A>,
    frame: &Frame<'_>,
    len: MessageLength,
)
    requires measured { IsMeasured len (message frame.now) None }
    requires room { vec_len out.old + length (written_frame (message frame.now)) ≤ vec_capacity out.old }
    ensures items { out.new.items ≡ out.old.items ++ written_frame (message frame.now) }
    ensures capacity { vec_capacity out.old ≤ vec_capacity out.new }
{
    put_front(out, frame, len.contents);
    put_dialogue(out, frame.dialogue());
    put_closing(out, frame);
}

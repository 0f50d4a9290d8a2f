//! How long a message is before it is written: whether it is short enough.

ghost use Rattle.std.specs.Prelude.{◌≡◌, ◌↔◌, ◌+◌, ◌^◌, ◌<◌, ◌≤◌, List, ℕ, Option, length, option_map, IsTrue, IfSome, IfNone, None, Some, option_copied};
ghost use Rattle.tcap_pdu.specs.TransId.{IsTransId};
ghost use Rattle.tcap_pdu.specs.FrameSpelling.{HasIds, Message};
ghost use Rattle.tcap_pdu.specs.FrameWritten.{message_limit, written_frame};
ghost use Rattle.tcap_pdu.specs.FrameLength.{CanHold, content_length, dialogue_of, nonzero, element_length as field_length, frame_length, may_length, filled_length, reason_length, with_dialogue};
ghost use Rattle.tcap_pdu.specs.FrameViews.{message, reason_of};
ghost use Rattle.tcap_pdu.specs.DialogueDue.{content_fault};
ghost use Rattle.tcap_pdu.specs.DialogueSpelling.{PduValue};
ghost use Rattle.tcap_pdu.specs.DialogueViews.{pdu_value};
ghost use Rattle.tcap_pdu.specs.FrameMeasured.{IsMeasured, carrying};

use super::{AbortPart, Frame};
use crate::dialogue_pdu::DialoguePdu;
use crate::dialogue_pdu::len::portion_len;
use crate::trans_id::TransId;
use ber_core::{MAX_LENGTH, element_len};

/// The greatest number of bytes of a message that is written: 65,535 (our own).
pub const MAX_MESSAGE: usize = MAX_LENGTH;

/// The bytes of an optional element, `None` where its contents alone are above the limit.
#[tactic(auto, unfolding(crate::specs::FrameLength::element_length))]
#[inline(always)]
fn may_len(content: Option<usize>) -> Option<usize>
    ensures some { IfSome result (λ len. (len ≡ may_length content) × (len < 2 ^ 17)) }
    ensures none { IfNone result (message_limit < may_length content) }
{
    match content {
        None => Some(0),
        Some(len) if len > MAX_LENGTH => None,
        Some(len) => Some(element_len(len)),
    }
}

/// A length of contents, `None` where it is 0: the part is left out.
#[inline(always)]
fn nonzero(len: usize) -> Option<usize>
    ensures { result ≡ nonzero len }
{
    if len == 0 { None } else { Some(len) }
}

/// The bytes of a transaction identifier.
#[tactic(auto, unfolding(crate::specs::FrameLength::element_length))]
#[inline(always)]
fn id_len(id: &TransId) -> usize
    ensures value { result ≡ field_length (length id.now) }
    ensures small { result ≤ 8 }
    ensures within { IsTransId id.now }
{
    element_len(id.octets().len())
}

/// The bytes behind the destination of an Abort, with 6B contents of this many bytes in place of its
/// own.
fn reason_len(reason: &AbortPart<'_>, dialogue: Option<usize>) -> Option<usize>
    ensures some { IfSome result (λ len. (len ≡ reason_length dialogue (reason_of reason.now)) × (len < 2 ^ 17)) }
    ensures none { IfNone result (message_limit < reason_length dialogue (reason_of reason.now)) }
{
    match reason {
        AbortPart::Cause(_) => may_len(Some(1)),
        AbortPart::Nothing | AbortPart::Dialogue(_) => may_len(dialogue),
    }
}

/// The bytes of the portions, with 6B contents of this many bytes in place of its own.
#[inline(always)]
fn portions_len(dialogue: Option<usize>, components: &[u8]) -> Option<usize>
    ensures some { IfSome result (λ len. (len ≡ may_length dialogue + filled_length (length components.now))
        × (len < 2 ^ 18)) }
    ensures none { IfNone result (message_limit < may_length dialogue + filled_length (length components.now)) }
{
    Some(may_len(dialogue)? + may_len(nonzero(components.len()))?)
}

/// The bytes of the contents, with 6B contents of this many bytes in place of its own; `None` where a
/// part alone is above the limit.
// One arm for each kind of message, for the reason at `put_identifiers` (put.rt).
#[inline(always)]
fn content_len(frame: &Frame<'_>, dialogue: Option<usize>) -> Option<usize>
    ensures some { IfSome result (λ len. (len ≡ content_length dialogue (message frame.now)) × (len < 2 ^ 20)) }
    ensures none { IfNone result (message_limit < content_length dialogue (message frame.now)) }
    ensures ids { HasIds (message frame.now) }
{
    let ids = match frame {
        Frame::Uni { components, .. } => {
            return Some(may_len(dialogue)? + may_len(Some(components.len()))?);
        }
        Frame::Begin { otid, .. } => id_len(otid),
        Frame::End { dtid, .. } => id_len(dtid),
        Frame::Continue { otid, dtid, .. } => id_len(otid) + id_len(dtid),
        Frame::Abort { dtid, reason } => {
            return Some(id_len(dtid) + reason_len(reason, dialogue)?);
        }
    };
    Some(ids + portions_len(dialogue, frame.components())?)
}

/// The bytes of the contents, with 6B contents of this many bytes in place of its own; `None` where
/// the written message is above the limit.
#[inline(always)]
pub(super) fn fitting_len(frame: &Frame<'_>, dialogue: Option<usize>) -> Option<usize>
    ensures some { IfSome result (λ len. (len ≡ content_length dialogue (message frame.now))
        × (frame_length dialogue (message frame.now) ≤ message_limit)) }
    ensures none { IfNone result (message_limit < frame_length dialogue (message frame.now)) }
    ensures ids { HasIds (message frame.now) }
{
    let content = content_len(frame, dialogue)?;
    if element_len(content) > MAX_MESSAGE {
        return None;
    }
    Some(content)
}

/// The length of the message's own 6B contents, if it has any.
#[inline(always)]
pub(super) fn dialogue_len(frame: &Frame<'_>) -> Option<usize>
    ensures { result ≡ option_map length (dialogue_of (message frame.now)) }
{
    frame.dialogue().map(|own| own.len())
}

/// Whether the written message, with 6B contents of this many bytes in place of its own, is within
/// the limit.
#[inline(always)]
fn fits(frame: &Frame<'_>, dialogue: Option<usize>) -> bool
    ensures { IsTrue result ↔ (frame_length dialogue (message frame.now) ≤ message_limit) }
{
    fitting_len(frame, dialogue).is_some()
}

/// Whether the written message, with 6B contents of `dialogue` bytes in place of its own, or without
/// 6B where `dialogue` is 0, is at most 65,535 bytes. For an Abort with a P-Abort cause, which has no
/// 6B, `dialogue` has to be 0. It takes no memory (our own).
pub fn frame_fits(frame: &Frame<'_>, dialogue: usize) -> bool
    requires { CanHold (message frame.now) dialogue }
    // The message written with any such contents of 6B.
    ensures written { (own : Option (List ℕ)) → option_map length own ≡ nonzero dialogue →
        (IsTrue result ↔ (length (written_frame (with_dialogue own (message frame.now))) ≤ message_limit)) }
    // The same by lengths, computed: what the layers above cite.
    ensures exact { IsTrue result ↔ (frame_length (nonzero dialogue) (message frame.now) ≤ message_limit) }
{
    fits(frame, nonzero(dialogue))
}

/// How long a written message is (X.690, Length octets).
#[derive(Clone, Copy, Debug, PartialEq, Eq)]
pub struct MessageLength {
    /// The octets of its contents, at most 65,531.
    pub contents: usize,
    /// Those of the contents of its dialogue portion, where it is written from a dialogue PDU; else 0.
    pub dialogue: usize,
}

impl MessageLength {
    ghost use Rattle.std.specs.Prelude.{◌≡◌, ◌≤◌, Option, length};
    ghost use Rattle.ber_core.specs.WrittenLength.{element_length};
    ghost use Rattle.tcap_pdu.specs.DialogueSpelling.{PduValue};
    ghost use Rattle.tcap_pdu.specs.FrameMeasured.{IsMeasured, carrying};
    ghost use Rattle.tcap_pdu.specs.FrameSpelling.{Message};
    ghost use Rattle.tcap_pdu.specs.FrameWritten.{message_limit, written_frame};

    /// The octets of the whole message.
    #[inline(always)]
    pub fn octets(self) -> usize
        requires { self.contents ≤ message_limit }
        // Of any message that is so long.
        ensures whole { (m : Message) (p : Option PduValue) → IsMeasured self m p
            → result ≡ length (written_frame (carrying p m)) }
        // The same, computed.
        ensures exact { result ≡ element_length self.contents }
    {
        element_len(self.contents)
    }
}

/// `message_length` without a PDU: how long the message is as it stands; `None` above 65,535 bytes. It takes no memory.
#[inline(always)]
pub fn own_length(frame: &Frame<'_>) -> Option<MessageLength>
    ensures some { IfSome result (λ len. IsMeasured len (message frame.now) None) }
    ensures none { IfNone result (message_limit < length (written_frame (message frame.now))) }
    ensures ids { HasIds (message frame.now) }
{
    let contents = fitting_len(frame, dialogue_len(frame))?;
    Some(MessageLength {
        contents,
        dialogue: 0,
    })
}

/// How long the message is with the dialogue portion of this PDU in place of its own.
#[inline(always)]
pub(super) fn carrying_length(frame: &Frame<'_>, pdu: &DialoguePdu<'_>) -> Option<MessageLength>
    requires { content_fault (pdu_value pdu.now) ≡ None }
    ensures some { IfSome result (λ len. IsMeasured len (message frame.now) (Some (pdu_value pdu.now))) }
    ensures none { IfNone result (message_limit
        < length (written_frame (carrying (Some (pdu_value pdu.now)) (message frame.now)))) }
    ensures ids { HasIds (message frame.now) }
{
    let dialogue = portion_len(pdu);
    let contents = fitting_len(frame, Some(dialogue))?;
    Some(MessageLength { contents, dialogue })
}

/// How long the message is, with the dialogue portion of this PDU, if there is one, in place of its own;
/// `None` above 65,535 bytes. The contents of the PDU are good, as `write_dialogue` judges them. An Abort with
/// a P-Abort cause keeps its cause, and has no dialogue portion. It takes no memory (X.690, Length octets; the
/// limit is our own).
// Where the message is known, as in a request, the matches on it fold away.
#[inline(always)]
pub fn message_length(frame: &Frame<'_>, pdu: Option<&DialoguePdu<'_>>) -> Option<MessageLength>
    requires { IfSome (option_copied pdu) (λ p. content_fault (pdu_value p) ≡ None) }
    // How long it is, within the limit.
    ensures some { IfSome result (λ len.
        IsMeasured len (message frame.now) (option_map pdu_value (option_copied pdu.entry))) }
    // Nothing exactly above it.
    ensures none { IfNone result (message_limit < length (written_frame
        (carrying (option_map pdu_value (option_copied pdu.entry)) (message frame.now)))) }
    // Each transaction identifier has one to four octets.
    ensures ids { HasIds (message frame.now) }
{
    match pdu {
        None => own_length(frame),
        Some(pdu) => carrying_length(frame, pdu),
    }
}

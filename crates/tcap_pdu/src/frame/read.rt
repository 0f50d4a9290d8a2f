//! Reading a message.

ghost use Rattle.std.specs.Prelude.{◌≡◌, ◌==◌, ℕ, false, None, IfOk, IfErr, IfSome, IsOkAnd, is_ok, ok_or, option_map, if◌then◌else◌};
ghost use Rattle.std.specs.List.{list_all};
ghost use Rattle.ber_core.specs.ListReading.{items_of};
ghost use Rattle.ber_core.specs.Results.{Gives};
ghost use Rattle.tcap_pdu.specs.FrameSpelling.{Message, SpellsFrame};
ghost use Rattle.tcap_pdu.specs.FrameFaults.{IsFrameFault};
ghost use Rattle.tcap_pdu.specs.FrameReading.{frame_at, begin_at, end_at, go_on_at, abort_at, unidirectional_at, cause_at, reason_at, type_at, message_at, id_at, portions_at, pair};
ghost use Rattle.tcap_pdu.specs.FrameViews.{message, reason_of};
ghost use Rattle.ber_core.specs.SequenceReading.{ending};
ghost use Rattle.tcap_pdu.specs.FramePortions.{reason_slice};
ghost use Rattle.tcap_pdu.specs.FramePlace.{FrameIn, PortionsIn, ReasonIn, FrameInPlace};
ghost use Rattle.ber_core.specs.Way.{GoesOn};
ghost use Rattle.std.specs.Option.{option_copied};

use super::{AbortPart, Frame};
use crate::fault::FrameFault;
use crate::tag;
use crate::trans_id::TransId;
use ber_core::{is_element_list, read_alone, take_content, take_tagged};

/// The message types (Q.773, Message type tag).
#[derive(Clone, Copy)]
pub enum MessageType {
    /// Unidirectional, 61.
    Uni,
    /// Begin, 62.
    Begin,
    /// End, 64.
    End,
    /// Continue, 65.
    Continue,
    /// Abort, 67.
    Abort,
}

/// The message type that a tag names.
#[tactic(auto, unfolding(crate::specs::FrameReading::type_at))]
#[inline(always)]
fn message_type(tag: &[u8]) -> Option<MessageType>
    ensures { result ≡ type_at tag.now }
{
    match tag {
        [tag::UNIDIRECTIONAL] => Some(MessageType::Uni),
        [tag::BEGIN] => Some(MessageType::Begin),
        [tag::END] => Some(MessageType::End),
        [tag::CONTINUE] => Some(MessageType::Continue),
        [tag::ABORT] => Some(MessageType::Abort),
        _ => None,
    }
}

/// A transaction identifier with this tag, and what follows it.
#[tactic(auto, unfolding(crate::specs::FrameReading::id_at))]
#[inline(always)]
fn take_id<'a>(bytes: &'a [u8], tag: u8) -> Option<(TransId, &'a [u8])>
    ensures value { option_map (λ r. (r.0, r.1.now)) result ≡ id_at tag bytes.now }
    ensures goes_on { (other : ℕ) → (tag == other) ≡ false
        → IfSome result (λ r. GoesOn other r.1 bytes.entry) }
{
    let (octets, rest) = take_content(bytes, tag)?;
    let id = TransId::new(octets)?;
    Some((id, rest))
}

/// The contents of 6B and 6C where they stand, with nothing after them.
#[tactic(auto, unfolding(crate::specs::FrameReading::portions_at))]
#[inline(always)]
fn take_portions<'a>(bytes: &'a [u8]) -> Option<(Option<&'a [u8]>, &'a [u8])>
    ensures value { option_map (λ r. pair (option_copied r.0) r.1.now) result ≡ portions_at bytes.now }
    ensures place { IfSome result (λ r. PortionsIn r.0 r.1 bytes.entry) }
{
    let (dialogue, rest) = take_tagged(bytes, tag::DIALOGUE_PORTION);
    let (components, rest) = take_tagged(rest, tag::COMPONENT_PORTION);
    if !rest.is_empty() {
        return None;
    }
    Some((dialogue, components.unwrap_or(&[])))
}

/// Unidirectional: [6B], 6C.
#[tactic(auto, unfolding(crate::specs::FrameReading::unidirectional_at))]
#[inline(never)]
fn read_unidirectional<'a>(content: &'a [u8]) -> Option<Frame<'a>>
    ensures value { option_map message result ≡ unidirectional_at content.now }
    ensures place { IfSome result (λ frame. FrameIn frame content.entry) }
{
    let (dialogue, rest) = take_tagged(content, tag::DIALOGUE_PORTION);
    let (components, rest) = take_content(rest, tag::COMPONENT_PORTION)?;
    if !rest.is_empty() {
        return None;
    }
    Some(Frame::Uni {
        dialogue,
        components,
    })
}

/// Begin: 48, [6B], [6C].
#[tactic(auto, unfolding(crate::specs::FrameReading::begin_at))]
#[inline(always)]
fn read_begin<'a>(content: &'a [u8]) -> Option<Frame<'a>>
    ensures value { option_map message result ≡ begin_at content.now }
    ensures place { IfSome result (λ frame. FrameIn frame content.entry) }
{
    let (otid, rest) = take_id(content, tag::ORIGIN)?;
    let (dialogue, components) = take_portions(rest)?;
    Some(Frame::Begin {
        otid,
        dialogue,
        components,
    })
}

/// End: 49, [6B], [6C].
#[tactic(auto, unfolding(crate::specs::FrameReading::end_at))]
fn read_end<'a>(content: &'a [u8]) -> Option<Frame<'a>>
    ensures value { option_map message result ≡ end_at content.now }
    ensures place { IfSome result (λ frame. FrameIn frame content.entry) }
{
    let (dtid, rest) = take_id(content, tag::DESTINATION)?;
    let (dialogue, components) = take_portions(rest)?;
    Some(Frame::End {
        dtid,
        dialogue,
        components,
    })
}

/// Continue: 48, 49, [6B], [6C].
#[tactic(auto, unfolding(crate::specs::FrameReading::go_on_at))]
#[inline(always)]
fn read_continue<'a>(content: &'a [u8]) -> Option<Frame<'a>>
    ensures value { option_map message result ≡ go_on_at content.now }
    ensures place { IfSome result (λ frame. FrameIn frame content.entry) }
{
    let (otid, rest) = take_id(content, tag::ORIGIN)?;
    let (dtid, rest) = take_id(rest, tag::DESTINATION)?;
    let (dialogue, components) = take_portions(rest)?;
    Some(Frame::Continue {
        otid,
        dtid,
        dialogue,
        components,
    })
}

/// The P-Abort cause that a content of one octet is, 0 to 127.
#[tactic(auto, unfolding(crate::specs::FrameReading::cause_at))]
fn read_cause(content: &[u8]) -> Option<AbortPart<'static>>
    ensures value { option_map reason_of result ≡ cause_at content.now }
    ensures none { IfSome result (λ part. reason_slice part ≡ None) }
{
    match content {
        [cause] if *cause <= tag::MAX_CAUSE => Some(AbortPart::Cause(*cause)),
        _ => None,
    }
}

/// The part, if nothing follows it.
#[inline(always)]
fn if_last<'a>(part: AbortPart<'a>, rest: &[u8]) -> Option<AbortPart<'a>>
    ensures value { option_map reason_of result ≡ ending (reason_of part.entry) rest.now }
    ensures same { IfSome result (λ last. reason_slice last ≡ reason_slice part.entry) }
{
    if rest.is_empty() { Some(part) } else { None }
}

/// What follows the destination of an Abort: 4A or 6B or nothing.
#[tactic(auto, unfolding(crate::specs::FrameReading::reason_at))]
#[inline(never)]
fn read_reason<'a>(bytes: &'a [u8]) -> Option<AbortPart<'a>>
    ensures value { option_map reason_of result ≡ reason_at bytes.now }
    ensures place { IfSome result (λ reason. ReasonIn reason bytes.entry) }
{
    if bytes.is_empty() {
        return Some(AbortPart::Nothing);
    }
    match take_tagged(bytes, tag::P_ABORT_CAUSE) {
        (Some(cause), rest) => if_last(read_cause(cause)?, rest),
        (None, _) => {
            let (dialogue, rest) = take_content(bytes, tag::DIALOGUE_PORTION)?;
            if_last(AbortPart::Dialogue(dialogue), rest)
        }
    }
}

/// Abort: 49, then 4A or 6B or nothing.
#[tactic(auto, unfolding(crate::specs::FrameReading::abort_at))]
#[inline(never)]
fn read_abort<'a>(content: &'a [u8]) -> Option<Frame<'a>>
    ensures value { option_map message result ≡ abort_at content.now }
    ensures place { IfSome result (λ frame. FrameIn frame content.entry) }
{
    let (dtid, rest) = take_id(content, tag::DESTINATION)?;
    let reason = read_reason(rest)?;
    Some(Frame::Abort { dtid, reason })
}

/// The fault of contents that no message of a type has.
#[inline(never)]
fn fault_of_unread(content: &[u8]) -> FrameFault
    ensures { result
        ≡ (if list_all is_ok (items_of content.now) then FrameFault.Incorrect else FrameFault.BadlyFormatted) }
{
    if is_element_list(content) {
        FrameFault::Incorrect
    } else {
        FrameFault::BadlyFormatted
    }
}

/// The message that was read of contents, or the fault. What is read whole is a list of elements, so only
/// what is not is looked through for that.
#[inline(always)]
fn or_fault<'a>(read: Option<Frame<'a>>, content: &'a [u8]) -> Result<Frame<'a>, FrameFault>
    ensures value { Gives message result (ok_or (option_map message read.entry)
        (if list_all is_ok (items_of content.now) then FrameFault.Incorrect else FrameFault.BadlyFormatted)) }
    ensures place { IfSome read.entry (λ frame. FrameIn frame content.entry)
        → IfOk result (λ frame. FrameIn frame content.entry) }
{
    match read {
        Some(frame) => Ok(frame),
        None => Err(fault_of_unread(content)),
    }
}

/// The message of this type that a content is, or the fault. Each type gives its own result, so that a
/// message is not moved once more.
#[inline(always)]
fn read_content<'a>(kind: MessageType, content: &'a [u8]) -> Result<Frame<'a>, FrameFault>
    ensures value { Gives message result (ok_or (message_at kind content.now)
        (if list_all is_ok (items_of content.now) then FrameFault.Incorrect else FrameFault.BadlyFormatted)) }
    ensures place { IfOk result (λ frame. FrameIn frame content.entry) }
{
    match kind {
        MessageType::Uni => or_fault(read_unidirectional(content), content),
        MessageType::Begin => or_fault(read_begin(content), content),
        MessageType::End => or_fault(read_end(content), content),
        MessageType::Continue => or_fault(read_continue(content), content),
        MessageType::Abort => or_fault(read_abort(content), content),
    }
}

/// The message that the bytes are, in exact form.
#[tactic(auto, unfolding(crate::specs::FrameReading::frame_at))]
#[inline(always)]
fn split_frame<'a>(bytes: &'a [u8]) -> Result<Frame<'a>, FrameFault>
    ensures value { Gives message result (frame_at bytes.now) }
    ensures place { IfOk result (λ frame. FrameInPlace frame bytes.entry) }
{
    let Some(element) = read_alone(bytes) else {
        return Err(FrameFault::BadlyFormatted);
    };
    let Some(kind) = message_type(element.tag) else {
        return Err(FrameFault::Unknown);
    };
    read_content(kind, element.content)
}

/// Reads the message that the bytes are, all of them, of any length. It takes no memory: the slices
/// of the message are parts of the bytes (Q.773, Structure of TC messages).
///
/// ```rust
/// let begin = [0x62, 0x06, 0x48, 0x04, 0x00, 0x00, 0x00, 0x01];
/// assert!(rt; matches!(tcap_pdu::read_frame(&begin), Ok(Frame::Begin { dialogue: None, .. })));
/// ```
#[inline(always)]
pub fn read_frame<'a>(bytes: &'a [u8]) -> Result<Frame<'a>, FrameFault>
    // What is read is spelled by the bytes.
    ensures found { IfOk result (λ frame. SpellsFrame (message frame) bytes.now) }
    // Each message is read.
    ensures only { (m : Message) → SpellsFrame m bytes.now → IsOkAnd result (λ frame. message frame ≡ m) }
    // Which fault, the first in their order.
    ensures fault { IfErr result (λ f. IsFrameFault bytes.now f) }
    // The portions are parts of the bytes, at their places.
    ensures place { IfOk result (λ frame. FrameInPlace frame bytes.entry) }
    // The same, computed: what the layers above cite.
    ensures exact { Gives message result (frame_at bytes.now) }
{
    split_frame(bytes)
}

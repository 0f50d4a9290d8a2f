//! The verdict on a message of which the element was read. It is that of `verdict_on`, which reads the element anew:
//! of the indefinite form that takes as long as there are elements in it.

ghost use Rattle.std.specs.Prelude.{◌≡◌, ◌≤◌, length, is_ok, option_map, option_copied, if◌then◌else◌};
ghost use Rattle.std.specs.List.{list_all};
ghost use Rattle.ber_core.specs.Element.{IsElement, depth_limit};
ghost use Rattle.ber_core.specs.ListReading.{items_of};
ghost use Rattle.ber_core.specs.SequenceReading.{ending};
ghost use Rattle.ber_core.specs.Views.{parts};
ghost use Rattle.tcap_pdu.specs.FrameReading.{abort_at, begin_at, cause_at, end_at, go_on_at, id_at, pair, portions_at, reason_at, unidirectional_at};
ghost use Rattle.tcap_pdu.specs.FrameSpelling.{IsFrame};
ghost use Rattle.tcap_pdu.specs.FrameViews.{message, reason_of};
ghost use Rattle.tcap_words.specs.Show.{show_is_good};
ghost use Rattle.tcap_words.specs.Verdict.{message_limit, message_verdict, verdict_of, verdict_of_fault};
ghost use Rattle.tcap_explain.specs.Explaining.{explained_at};
ghost use Rattle.tcap_judging.specs.ByElement.{message_in, unread};

use crate::judged::Judged;
use crate::judging::judged_so;
use ber_core::{Element, is_element_list, read_head, take_content, take_tagged};
use tcap_explain::{Explained, explain_message};
use tcap_pdu::{AbortPart, Frame, FrameFault, TransId, tag};
use tcap_words::{Verdict, judge_message};

/// A transaction identifier with this tag, and what follows it.
#[tactic(auto, unfolding(tcap_pdu::specs::FrameReading::id_at))]
#[inline(always)]
fn take_id(octets: &[u8], tag: u8) -> Option<(TransId, &[u8])>
    ensures { option_map (λ r. (r.0, r.1.now)) result ≡ id_at tag octets.now }
{
    let (id, rest) = take_content(octets, tag)?;
    let id = TransId::new(id)?;
    Some((id, rest))
}

/// The contents of 6B and 6C where they stand, with nothing after them.
#[tactic(auto, unfolding(tcap_pdu::specs::FrameReading::portions_at))]
#[inline(always)]
fn take_portions(octets: &[u8]) -> Option<(Option<&[u8]>, &[u8])>
    ensures { option_map (λ r. pair (option_copied r.0) r.1.now) result ≡ portions_at octets.now }
{
    let (dialogue, rest) = take_tagged(octets, tag::DIALOGUE_PORTION);
    let (components, rest) = take_tagged(rest, tag::COMPONENT_PORTION);
    if !rest.is_empty() {
        return None;
    }
    Some((dialogue, components.unwrap_or(&[])))
}

/// Unidirectional: [6B], 6C.
#[tactic(auto, unfolding(tcap_pdu::specs::FrameReading::unidirectional_at))]
fn read_unidirectional(content: &[u8]) -> Option<Frame<'_>>
    ensures { option_map message result ≡ unidirectional_at content.now }
{
    let (dialogue, rest) = take_tagged(content, tag::DIALOGUE_PORTION);
    let (components, rest) = take_content(rest, tag::COMPONENT_PORTION)?;
    if !rest.is_empty() {
        return None;
    }
    Some(Frame::Uni {
        dialogue,
        components,
    })
}

/// Begin: 48, [6B], [6C].
#[tactic(auto, unfolding(tcap_pdu::specs::FrameReading::begin_at))]
#[inline(always)]
fn read_begin(content: &[u8]) -> Option<Frame<'_>>
    ensures { option_map message result ≡ begin_at content.now }
{
    let (otid, rest) = take_id(content, tag::ORIGIN)?;
    let (dialogue, components) = take_portions(rest)?;
    Some(Frame::Begin {
        otid,
        dialogue,
        components,
    })
}

/// End: 49, [6B], [6C].
#[tactic(auto, unfolding(tcap_pdu::specs::FrameReading::end_at))]
#[inline(always)]
fn read_end(content: &[u8]) -> Option<Frame<'_>>
    ensures { option_map message result ≡ end_at content.now }
{
    let (dtid, rest) = take_id(content, tag::DESTINATION)?;
    let (dialogue, components) = take_portions(rest)?;
    Some(Frame::End {
        dtid,
        dialogue,
        components,
    })
}

/// Continue: 48, 49, [6B], [6C].
#[tactic(auto, unfolding(tcap_pdu::specs::FrameReading::go_on_at))]
#[inline(always)]
fn read_continue(content: &[u8]) -> Option<Frame<'_>>
    ensures { option_map message result ≡ go_on_at content.now }
{
    let (otid, rest) = take_id(content, tag::ORIGIN)?;
    let (dtid, rest) = take_id(rest, tag::DESTINATION)?;
    let (dialogue, components) = take_portions(rest)?;
    Some(Frame::Continue {
        otid,
        dtid,
        dialogue,
        components,
    })
}

/// The P-Abort cause that a content of one octet is, 0 to 127.
#[tactic(auto, unfolding(tcap_pdu::specs::FrameReading::cause_at))]
fn read_cause(content: &[u8]) -> Option<AbortPart<'_>>
    ensures { option_map reason_of result ≡ cause_at content.now }
{
    match content {
        [cause] if *cause <= tag::MAX_CAUSE => Some(AbortPart::Cause(*cause)),
        _ => None,
    }
}

/// The part, if nothing follows it.
fn if_last<'a>(part: AbortPart<'a>, rest: &[u8]) -> Option<AbortPart<'a>>
    ensures { option_map reason_of result ≡ ending (reason_of part.entry) rest.now }
{
    if rest.is_empty() { Some(part) } else { None }
}

/// What follows the destination of an Abort: 4A or 6B or nothing.
#[tactic(auto, unfolding(tcap_pdu::specs::FrameReading::reason_at))]
fn read_reason(octets: &[u8]) -> Option<AbortPart<'_>>
    ensures { option_map reason_of result ≡ reason_at octets.now }
{
    if octets.is_empty() {
        return Some(AbortPart::Nothing);
    }
    match take_tagged(octets, tag::P_ABORT_CAUSE) {
        (Some(cause), rest) => if_last(read_cause(cause)?, rest),
        (None, _) => {
            let (dialogue, rest) = take_content(octets, tag::DIALOGUE_PORTION)?;
            if_last(AbortPart::Dialogue(dialogue), rest)
        }
    }
}

/// Abort: 49, then 4A or 6B or nothing.
#[tactic(auto, unfolding(tcap_pdu::specs::FrameReading::abort_at))]
fn read_abort(content: &[u8]) -> Option<Frame<'_>>
    ensures { option_map message result ≡ abort_at content.now }
{
    let (dtid, rest) = take_id(content, tag::DESTINATION)?;
    let reason = read_reason(rest)?;
    Some(Frame::Abort { dtid, reason })
}

/// The message that an element is, if it is one.
#[tactic(auto, unfolding(tcap_pdu::specs::FrameReading::type_at))]
#[inline(always)]
fn frame_of<'a>(element: &Element<'a>) -> Option<Frame<'a>>
    ensures { option_map message result ≡ message_in (parts element.now) }
{
    let content = element.content;
    match element.tag {
        [tag::UNIDIRECTIONAL] => read_unidirectional(content),
        [tag::BEGIN] => read_begin(content),
        [tag::END] => read_end(content),
        [tag::CONTINUE] => read_continue(content),
        [tag::ABORT] => read_abort(content),
        _ => None,
    }
}

/// Whether an element holds a list of elements. One of the indefinite form does: it was read element by element to its
/// end, and isn't gone through once more.
fn holds_list(element: &Element<'_>) -> bool
    requires { IsElement depth_limit (parts element.now) }
    ensures { result ≡ list_all is_ok (items_of element.now.content.now) }
{
    match read_head(element.whole) {
        Ok(head) if element.content.len() < head.rest.len() => true,
        _ => is_element_list(element.content),
    }
}

/// The verdict on an element that has the tag of a message and is none, by its contents.
fn unread_verdict(element: &Element<'_>) -> Verdict
    requires { IsElement depth_limit (parts element.now) }
    ensures { result ≡ verdict_of_fault (if list_all is_ok (items_of element.now.content.now)
        then FrameFault.Incorrect else FrameFault.BadlyFormatted) }
{
    if holds_list(element) {
        Verdict::Incorrect
    } else {
        Verdict::BadlyFormatted
    }
}

/// The verdict on an element that is no message.
#[tactic(auto, unfolding(tcap_pdu::specs::FrameReading::type_at))]
fn verdict_on_unread(element: &Element<'_>) -> Verdict
    requires { IsElement depth_limit (parts element.now) }
    ensures { result ≡ verdict_of_fault (unread (parts element.now)) }
{
    match element.tag {
        [tag::UNIDIRECTIONAL] | [tag::BEGIN] | [tag::END] | [tag::CONTINUE] | [tag::ABORT] =>
            unread_verdict(element),
        _ => Verdict::UnknownType,
    }
}

/// Where the fault of an element that is this message is, by the verdict on it. A good one isn't looked into again.
#[inline(always)]
#[tactic(auto, unfolding(tcap_explain::specs::Explaining::explained_at))]
fn found_in(verdict: Verdict, element: &Element<'_>, frame: &Frame<'_>) -> Option<Explained>
    requires is_element { IsElement depth_limit (parts element.now) }
    requires most { length element.now.whole.now ≤ message_limit }
    requires is_frame { IsFrame (message frame.now) (parts element.now) }
    requires of_frame { verdict ≡ message_verdict (message frame.now) }
    requires of_octets { verdict ≡ verdict_of element.now.whole.now }
    ensures { result ≡ explained_at element.now.whole.now }
{
    if let Verdict::Good = verdict {
        return None;
    }
    explain_message(verdict, element, frame)
}

/// An element that is this message, judged.
#[inline(always)]
fn judge_frame<'a>(element: &Element<'a>, frame: &Frame<'_>) -> Judged<'a>
    requires is_element { IsElement depth_limit (parts element.now) }
    requires most { length element.now.whole.now ≤ message_limit }
    requires is_frame { IsFrame (message frame.now) (parts element.now) }
    ensures { result.octets.now ≡ element.now.whole.now }
{
    let verdict = judge_message(frame);
    Judged {
        octets: element.whole,
        verdict,
        found: found_in(verdict, element, frame),
    }
}

/// An element of at most as many octets as a message has, judged. Of a message it isn't read again what it is.
pub(crate) fn judge_element<'a>(element: &Element<'a>) -> Judged<'a>
    requires is_element { IsElement depth_limit (parts element.now) }
    requires most { length element.now.whole.now ≤ message_limit }
    ensures { result.octets.now ≡ element.now.whole.now }
{
    match frame_of(element) {
        Some(frame) => judge_frame(element, &frame),
        None => judged_so(element.whole, verdict_on_unread(element)),
    }
}

/// Whether it is good: of one that isn't, less is read than for its verdict.
pub(crate) fn is_good_element(element: &Element<'_>) -> bool
    requires is_element { IsElement depth_limit (parts element.now) }
    requires most { length element.now.whole.now ≤ message_limit }
    ensures { result ≡ show_is_good element.now.whole.now }
{
    match frame_of(element) {
        Some(frame) => judge_message(&frame).is_good(),
        None => false,
    }
}

//! Where the fault of a message is, by the verdict on it.

ghost use Rattle.std.specs.Prelude.{◌≡◌, ◌+◌, ◌^◌, ◌<◌, ◌≤◌, length, option_map, option_copied, true, IfSome, Some, None};
ghost use Rattle.tcap_pdu.specs.FrameSpelling.{message_tag};
ghost use Rattle.tcap_pdu.specs.FrameLength.{dialogue_of};
ghost use Rattle.tcap_pdu.specs.FramePortions.{components_in};
ghost use Rattle.tcap_pdu.specs.FrameViews.{message};
ghost use Rattle.tcap_words.specs.Verdict.{is_good, verdict_of, message_of};
ghost use Rattle.tcap_explain.specs.Walk.{IsWithin, further, first_of, walk};
ghost use Rattle.tcap_explain.specs.declared.line.Explained.{Explained};
ghost use Rattle.tcap_explain.specs.FaultAt.{FaultAt};
ghost use Rattle.tcap_explain.specs.Explaining.{external_line, dialogue_fault, left_of, faulty_component, component_fault, in_message, explained_by, explained_at};

use crate::encoding::likely_fault;
use crate::line::{ComponentLine, Explained, Line, ListLine, MessageLine, PortionLine, Rule};
use crate::walk::{further_on, walk};
use crate::way::way;
use tcap_component::read_component;
use tcap_pdu::{AbortPart, Frame, MAX_MESSAGE, tag};
use tcap_words::{Verdict, read_message, verdict_on};

/// The tag of a message.
pub(crate) fn tag_of(frame: &Frame<'_>) -> u8
    ensures { result ≡ message_tag (message frame.now) }
{
    match frame {
        Frame::Uni { .. } => tag::UNIDIRECTIONAL,
        Frame::Begin { .. } => tag::BEGIN,
        Frame::End { .. } => tag::END,
        Frame::Continue { .. } => tag::CONTINUE,
        Frame::Abort { .. } => tag::ABORT,
    }
}

/// The line at which the dialogue portion of a message begins.
pub(crate) fn external_of(frame: &Frame<'_>) -> Line
    ensures { result ≡ external_line (message frame.now) }
{
    match frame {
        Frame::Uni { .. } | Frame::Begin { .. } | Frame::End { .. } | Frame::Continue { .. } => {
            Line::Portion(PortionLine::External)
        }
        Frame::Abort { .. } => Line::Portion(PortionLine::AbortExternal),
    }
}

/// The contents of the dialogue portion of a message, if it has one.
pub(crate) fn portion_of<'a>(frame: &Frame<'a>) -> Option<&'a [u8]>
    ensures { option_copied result ≡ dialogue_of (message frame.now) }
{
    match frame {
        Frame::Uni { dialogue, .. }
        | Frame::Begin { dialogue, .. }
        | Frame::End { dialogue, .. }
        | Frame::Continue { dialogue, .. } => *dialogue,
        Frame::Abort { reason, .. } => match reason {
            AbortPart::Nothing | AbortPart::Cause(_) => None,
            AbortPart::Dialogue(content) => Some(*content),
        },
    }
}

/// The contents of the component portion of a message, empty where it has none.
pub(crate) fn components_of<'a>(frame: &Frame<'a>) -> &'a [u8]
    ensures { result.now ≡ components_in (message frame.now) }
{
    match frame {
        Frame::Uni { components, .. }
        | Frame::Begin { components, .. }
        | Frame::End { components, .. }
        | Frame::Continue { components, .. } => *components,
        Frame::Abort { .. } => &[],
    }
}

/// What is not met in contents that stand so many octets behind the front.
pub(crate) fn walk_at(before: usize, line: Line, content: &[u8]) -> Option<Explained>
    requires { before + length content.now < 2 ^ 64 }
    ensures value { result ≡ option_map (further before) (walk line content.now) }
    ensures within { IfSome result (λ x. IsWithin (before + length content.now) x) }
{
    match walk(line, content) {
        Some(found) => Some(further_on(before, found)),
        None => None,
    }
}

/// What is not met in the dialogue portion of a message.
fn explain_portion(bytes: &[u8], frame: &Frame<'_>) -> Option<Explained>
    ensures { result ≡ dialogue_fault bytes.now (message frame.now) (dialogue_of (message frame.now)) }
{
    match portion_of(frame) {
        Some(content) => {
            let before = way(tag_of(frame), tag::DIALOGUE_PORTION, bytes);
            walk_at(before, external_of(frame), content)
        }
        None => None,
    }
}

/// What is left behind the components that can be read.
fn skip_components(content: &[u8]) -> &[u8]
    ensures value { result.now ≡ left_of content.now }
    ensures within { length result.now ≤ length content.now }
{
    let mut rest = content;
    while !rest.is_empty() {
        let Ok((_, after)) = read_component(rest) else {
            return rest;
        };
        rest = after;
    }
    rest
}

/// What is not met in the first faulty component of a component portion.
fn explain_components(content: &[u8]) -> Option<Explained>
    ensures value { result ≡ faulty_component content.now }
    ensures within { IfSome result (λ x. IsWithin (length content.now) x) }
{
    let rest = skip_components(content);
    walk_at(
        content.len() - rest.len(),
        Line::Component(ComponentLine::ComponentType),
        rest,
    )
}

/// What is not met in the first faulty component of a message.
fn explain_component(bytes: &[u8], frame: &Frame<'_>) -> Option<Explained>
    ensures { result ≡ component_fault bytes.now (message frame.now) }
{
    match explain_components(components_of(frame)) {
        Some(found) => {
            let before = way(tag_of(frame), tag::COMPONENT_PORTION, bytes);
            Some(further_on(before, found))
        }
        None => None,
    }
}

/// What is not met in a dialogue portion that has a fault.
fn explain_dialogue_verdict(bytes: &[u8]) -> Option<Explained>
    ensures { result ≡ in_message (λ m. dialogue_fault bytes.now m (dialogue_of m)) (message_of bytes.now) }
{
    match read_message(bytes) {
        Ok(frame) => explain_portion(bytes, &frame),
        Err(_) => None,
    }
}

/// What is not met in a component portion that has a fault.
fn explain_component_verdict(bytes: &[u8]) -> Option<Explained>
    ensures { result ≡ in_message (component_fault bytes.now) (message_of bytes.now) }
{
    match read_message(bytes) {
        Ok(frame) => explain_component(bytes, &frame),
        Err(_) => None,
    }
}

/// What is not met in bytes that are no element, or whose contents are no list of elements.
fn explain_format(bytes: &[u8]) -> Option<Explained>
    ensures { result ≡ first_of (walk (Line.List ListLine.OneElement) bytes.now)
        (walk (Line.List ListLine.OneConstructed) bytes.now) }
{
    // Where it is found at once, the bytes aren't read through first.
    if let Some((place, fault)) = likely_fault(bytes) {
        return Some(Explained {
            place,
            element: 0,
            rule: Rule::Encoding(fault),
        });
    }
    match walk(Line::List(ListLine::OneElement), bytes) {
        Some(found) => Some(found),
        None => walk(Line::List(ListLine::OneConstructed), bytes),
    }
}

/// `explain` by the verdict on the bytes, for a caller that knows it: they aren't judged again. It takes no memory.
#[tactic(auto, unfolding(crate::specs::Explaining::explained_at))]
pub fn explain_verdict(verdict: Verdict, bytes: &[u8]) -> Option<Explained>
    // Where it is the verdict on the bytes, what is told is where their fault is.
    ensures judged { verdict ≡ verdict_of bytes.now → result ≡ explained_at bytes.now }
    // By any verdict, computed.
    ensures exact { result ≡ explained_by verdict bytes.now }
{
    match verdict {
        Verdict::TooLong => Some(Explained {
            place: MAX_MESSAGE,
            element: 0,
            rule: Rule::MessageLength,
        }),
        Verdict::UnknownType | Verdict::Incorrect => {
            walk(Line::Message(MessageLine::MessageType), bytes)
        }
        Verdict::BadlyFormatted => explain_format(bytes),
        Verdict::Dialogue => explain_dialogue_verdict(bytes),
        Verdict::Component(_) => explain_component_verdict(bytes),
        Verdict::Good => None,
    }
}

/// `explain`, in exact form.
#[tactic(auto, unfolding(crate::specs::Explaining::explained_at))]
fn explain_bytes(bytes: &[u8]) -> Option<Explained>
    ensures { result ≡ explained_at bytes.now }
{
    explain_verdict(verdict_on(bytes), bytes)
}

/// Where the fault of a message is, and the rule that isn't met there; None where the verdict is good. It takes
/// no memory.
pub fn explain(bytes: &[u8]) -> Option<Explained>
    // What is told is where the fault is; and wherever the fault is, that is told.
    ensures found { IfSome result (λ x. FaultAt bytes.now x) }
    ensures only { (x : Explained) → FaultAt bytes.now x → result ≡ Some x }
    // Nothing is told exactly of a good message.
    ensures none { result ≡ None → is_good (verdict_of bytes.now) ≡ true }
    ensures good { is_good (verdict_of bytes.now) ≡ true → result ≡ None }
    // The same, computed: what stands above cites it.
    ensures exact { result ≡ explained_at bytes.now }
{
    explain_bytes(bytes)
}

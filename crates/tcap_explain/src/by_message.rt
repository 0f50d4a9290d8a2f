//! Where the fault of a message is that was read: what is known of it isn't read again.

ghost use Rattle.std.specs.Prelude.{◌≡◌, ◌≤◌, length, IfSome};
ghost use Rattle.ber_core.specs.Element.{IsElement, depth_limit};
ghost use Rattle.ber_core.specs.Views.{parts};
ghost use Rattle.tcap_pdu.specs.FrameSpelling.{IsFrame};
ghost use Rattle.tcap_pdu.specs.FrameLength.{dialogue_of};
ghost use Rattle.tcap_pdu.specs.FramePortions.{components_in};
ghost use Rattle.tcap_pdu.specs.FrameViews.{message};
ghost use Rattle.tcap_words.specs.Verdict.{components_verdict, message_limit, message_verdict};
ghost use Rattle.tcap_explain.specs.Walk.{IsWithin};
ghost use Rattle.tcap_explain.specs.Explaining.{component_fault, dialogue_fault, explained_at, faulty_component, left_of};

use crate::by_verdict::{components_of, explain_verdict, external_of, portion_of, tag_of, walk_at};
use crate::line::{ComponentLine, Explained, Line};
use crate::walk::further_on;
use crate::way::way_within;
use ber_core::Element;
use tcap_component::read_component;
use tcap_pdu::{Frame, tag};
use tcap_words::Verdict;

/// What is left from the first faulty component on, by its number: it isn't read to find out that it is faulty.
fn skip_to(number: usize, content: &[u8]) -> &[u8]
    requires { components_verdict content.now ≡ Verdict.Component number }
    ensures value { result.now ≡ left_of content.now }
    ensures within { length result.now ≤ length content.now }
{
    let mut rest = content;
    let mut at: usize = 1;
    while at < number {
        let Ok((_, after)) = read_component(rest) else {
            return rest;
        };
        rest = after;
        at += 1;
    }
    rest
}

/// What is not met in the first faulty component of a component portion, by its number.
fn explain_numbered(number: usize, content: &[u8]) -> Option<Explained>
    requires { components_verdict content.now ≡ Verdict.Component number }
    ensures value { result ≡ faulty_component content.now }
    ensures within { IfSome result (λ x. IsWithin (length content.now) x) }
{
    let rest = skip_to(number, content);
    walk_at(
        content.len() - rest.len(),
        Line::Component(ComponentLine::ComponentType),
        rest,
    )
}

/// What is not met in the first faulty component of a message, by its number.
fn explain_component(number: usize, element: &Element<'_>, frame: &Frame<'_>) -> Option<Explained>
    requires element { IsElement depth_limit (parts element.now) }
    requires frame { IsFrame (message frame.now) (parts element.now) }
    requires number { components_verdict (components_in (message frame.now)) ≡ Verdict.Component number }
    ensures { result ≡ component_fault element.now.whole.now (message frame.now) }
{
    match explain_numbered(number, components_of(frame)) {
        Some(found) => {
            let before = way_within(tag_of(frame), tag::COMPONENT_PORTION, element);
            Some(further_on(before, found))
        }
        None => None,
    }
}

/// What is not met in the dialogue portion of a message.
fn explain_dialogue(element: &Element<'_>, frame: &Frame<'_>) -> Option<Explained>
    requires element { IsElement depth_limit (parts element.now) }
    requires frame { IsFrame (message frame.now) (parts element.now) }
    ensures { result ≡ dialogue_fault element.now.whole.now (message frame.now) (dialogue_of (message frame.now)) }
{
    match portion_of(frame) {
        Some(content) => {
            let before = way_within(tag_of(frame), tag::DIALOGUE_PORTION, element);
            walk_at(before, external_of(frame), content)
        }
        None => None,
    }
}

/// `explain` of an element that was read as this message, by the verdict on it: of the message is read again only what
/// its fault is looked for in. It takes no memory.
pub fn explain_message(
    verdict: Verdict,
    element: &Element<'_>,
    frame: &Frame<'_>,
) -> Option<Explained>
    requires element { IsElement depth_limit (parts element.now) }
    requires size { length element.now.whole.now ≤ message_limit }
    requires frame { IsFrame (message frame.now) (parts element.now) }
    requires verdict { verdict ≡ message_verdict (message frame.now) }
    // What is told is where its fault is.
    ensures { result ≡ explained_at element.now.whole.now }
{
    match verdict {
        Verdict::Component(number) => explain_component(number, element, frame),
        Verdict::Dialogue => explain_dialogue(element, frame),
        Verdict::TooLong
        | Verdict::UnknownType
        | Verdict::BadlyFormatted
        | Verdict::Incorrect
        | Verdict::Good => explain_verdict(verdict, element.whole),
    }
}

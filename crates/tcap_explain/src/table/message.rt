//! The tables of messages (Q.773, Structure of TC messages).

ghost use Rattle.std.specs.Prelude.{◌≡◌};
ghost use Rattle.tcap_explain.specs.MessageTable.{message_next, message_may_end};

use crate::contents::Contents;
use crate::line::{Line, MessageLine};
use crate::table::{END, Inside, either, elements, octets};
use tcap_pdu::tag;

const UNI_PORTIONS: Line = Line::Message(MessageLine::UniPortions);

const UNI_COMPONENTS: Line = Line::Message(MessageLine::UniComponents);

const BEGIN_ORIGIN: Line = Line::Message(MessageLine::BeginOrigin);

const CONTINUE_ORIGIN: Line = Line::Message(MessageLine::ContinueOrigin);

const DESTINATION: Line = Line::Message(MessageLine::Destination);

const PORTIONS: Line = Line::Message(MessageLine::Portions);

const COMPONENT_PORTION: Line = Line::Message(MessageLine::ComponentPortion);

const ABORT_DESTINATION: Line = Line::Message(MessageLine::AbortDestination);

const ABORT_REASON: Line = Line::Message(MessageLine::AbortReason);

/// The message: 61, 62, 64, 65 or 67.
fn message_type(tag: &[u8]) -> Option<(Inside, Line)>
    ensures { result ≡ message_next MessageLine.MessageType tag.now }
{
    either(
        elements(tag::UNIDIRECTIONAL, tag, UNI_PORTIONS, END),
        either(
            elements(tag::BEGIN, tag, BEGIN_ORIGIN, END),
            either(
                elements(tag::END, tag, DESTINATION, END),
                either(
                    elements(tag::CONTINUE, tag, CONTINUE_ORIGIN, END),
                    elements(tag::ABORT, tag, ABORT_DESTINATION, END),
                ),
            ),
        ),
    )
}

/// Unidirectional: [6B], 6C.
fn uni_portions(tag: &[u8]) -> Option<(Inside, Line)>
    ensures { result ≡ message_next MessageLine.UniPortions tag.now }
{
    either(
        octets(tag::DIALOGUE_PORTION, tag, Contents::Any, UNI_COMPONENTS),
        octets(tag::COMPONENT_PORTION, tag, Contents::Any, END),
    )
}

/// Begin, End and Continue, behind the transaction identifiers: [6B], [6C].
fn portions(tag: &[u8]) -> Option<(Inside, Line)>
    ensures { result ≡ message_next MessageLine.Portions tag.now }
{
    either(
        octets(tag::DIALOGUE_PORTION, tag, Contents::Any, COMPONENT_PORTION),
        octets(tag::COMPONENT_PORTION, tag, Contents::Any, END),
    )
}

/// Abort, behind 49: 4A or 6B or nothing.
fn abort_reason(tag: &[u8]) -> Option<(Inside, Line)>
    ensures { result ≡ message_next MessageLine.AbortReason tag.now }
{
    either(
        octets(tag::P_ABORT_CAUSE, tag, Contents::PAbortCause, END),
        octets(tag::DIALOGUE_PORTION, tag, Contents::Any, END),
    )
}

/// What an element with this tag holds at a line of the tables of messages, and which line follows it.
pub(crate) fn message_next(line: MessageLine, tag: &[u8]) -> Option<(Inside, Line)>
    ensures { result ≡ message_next line tag.now }
{
    match line {
        MessageLine::MessageType => message_type(tag),
        MessageLine::UniPortions => uni_portions(tag),
        MessageLine::UniComponents => octets(tag::COMPONENT_PORTION, tag, Contents::Any, END),
        MessageLine::BeginOrigin => octets(tag::ORIGIN, tag, Contents::TransactionId, PORTIONS),
        MessageLine::ContinueOrigin => octets(
            tag::ORIGIN,
            tag,
            Contents::TransactionId,
            DESTINATION,
        ),
        MessageLine::Destination => octets(
            tag::DESTINATION,
            tag,
            Contents::TransactionId,
            PORTIONS,
        ),
        MessageLine::Portions => portions(tag),
        MessageLine::ComponentPortion => octets(tag::COMPONENT_PORTION, tag, Contents::Any, END),
        MessageLine::AbortDestination => octets(
            tag::DESTINATION,
            tag,
            Contents::TransactionId,
            ABORT_REASON,
        ),
        MessageLine::AbortReason => abort_reason(tag),
    }
}

/// Whether the contents may end at a line of the tables of messages.
pub(crate) fn message_may_end(line: MessageLine) -> bool
    ensures { result ≡ message_may_end line }
{
    match line {
        MessageLine::Portions | MessageLine::ComponentPortion | MessageLine::AbortReason => true,
        MessageLine::MessageType
        | MessageLine::UniPortions
        | MessageLine::UniComponents
        | MessageLine::BeginOrigin
        | MessageLine::ContinueOrigin
        | MessageLine::Destination
        | MessageLine::AbortDestination => false,
    }
}

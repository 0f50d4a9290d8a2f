//! The tables of the dialogue portion (Q.773, Dialogue portion).

ghost use Rattle.std.specs.Prelude.{◌≡◌, []};
ghost use Rattle.tcap_explain.specs.PortionTable.{line_behind, portion_next, portion_may_end};

use crate::contents::Contents;
use crate::line::{Line, PduLine, PortionLine};
use crate::table::{ELEMENTS, END, Inside, either, elements, octets};
use tcap_pdu::dialogue_tag as tag;

const DIALOGUE_SYNTAX: Line = Line::Portion(PortionLine::DialogueSyntax);

const ANY_SYNTAX: Line = Line::Portion(PortionLine::AnySyntax);

const STRUCTURED: Line = Line::Portion(PortionLine::Structured);

const UNSTRUCTURED: Line = Line::Portion(PortionLine::Unstructured);

const STRUCTURED_PDU: Line = Line::Portion(PortionLine::StructuredPdu);

const UNSTRUCTURED_PDU: Line = Line::Portion(PortionLine::UnstructuredPdu);

const REQUEST_VERSION: Line = Line::Pdu(PduLine::RequestVersion);

const RESPONSE_VERSION: Line = Line::Pdu(PduLine::ResponseVersion);

const ABORT_SOURCE: Line = Line::Pdu(PduLine::AbortSource);

/// The line behind an abstract syntax: what an EXTERNAL of a structured or an unstructured dialogue holds; any
/// elements in one of another syntax.
fn line_behind(syntax: &[u8]) -> Line
    ensures { result ≡ line_behind syntax.now }
{
    if syntax == tag::STRUCTURED.as_slice() {
        STRUCTURED
    } else if syntax == tag::UNSTRUCTURED.as_slice() {
        UNSTRUCTURED
    } else {
        ELEMENTS
    }
}

/// The PDU of a structured dialogue: 60, 61 or 64.
fn structured_pdu(tag: &[u8]) -> Option<(Inside, Line)>
    ensures { result ≡ portion_next PortionLine.StructuredPdu tag.now [] }
{
    either(
        elements(tag::DIALOGUE_REQUEST, tag, REQUEST_VERSION, END),
        either(
            elements(tag::DIALOGUE_RESPONSE, tag, RESPONSE_VERSION, END),
            elements(tag::DIALOGUE_ABORT, tag, ABORT_SOURCE, END),
        ),
    )
}

/// What an element with this tag holds at a line of the tables of the dialogue portion, and which line follows it.
pub(crate) fn portion_next(line: PortionLine, tag: &[u8], content: &[u8]) -> Option<(Inside, Line)>
    ensures { result ≡ portion_next line tag.now content.now }
{
    match line {
        PortionLine::External => elements(tag::EXTERNAL, tag, DIALOGUE_SYNTAX, END),
        PortionLine::AbortExternal => elements(tag::EXTERNAL, tag, ANY_SYNTAX, END),
        PortionLine::DialogueSyntax => octets(
            tag::OBJECT_IDENTIFIER,
            tag,
            Contents::DialogueSyntax,
            line_behind(content),
        ),
        PortionLine::AnySyntax => octets(
            tag::OBJECT_IDENTIFIER,
            tag,
            Contents::ObjectIdentifier,
            line_behind(content),
        ),
        PortionLine::Structured => elements(tag::SINGLE_ASN1_TYPE, tag, STRUCTURED_PDU, END),
        PortionLine::Unstructured => elements(tag::SINGLE_ASN1_TYPE, tag, UNSTRUCTURED_PDU, END),
        PortionLine::StructuredPdu => structured_pdu(tag),
        PortionLine::UnstructuredPdu => elements(tag::DIALOGUE_REQUEST, tag, REQUEST_VERSION, END),
    }
}

/// Whether the contents may end at a line of the tables of the dialogue portion.
pub(crate) fn portion_may_end(line: PortionLine) -> bool
    ensures { result ≡ portion_may_end line }
{
    match line {
        PortionLine::External
        | PortionLine::AbortExternal
        | PortionLine::DialogueSyntax
        | PortionLine::AnySyntax
        | PortionLine::Structured
        | PortionLine::Unstructured
        | PortionLine::StructuredPdu
        | PortionLine::UnstructuredPdu => false,
    }
}

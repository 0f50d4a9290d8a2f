//! The tables of dialogue PDUs (Q.773, Dialogue portion).

ghost use Rattle.std.specs.Prelude.{◌≡◌};
ghost use Rattle.tcap_explain.specs.Choice.{only};
ghost use Rattle.tcap_explain.specs.PduTable.{pdu_next, pdu_may_end};

use crate::contents::Contents;
use crate::line::{Line, PduLine};
use crate::table::{END, Inside, either, elements, octets};
use tcap_pdu::dialogue_tag as tag;

const REQUEST_CONTEXT: Line = Line::Pdu(PduLine::RequestContext);

const RESPONSE_CONTEXT: Line = Line::Pdu(PduLine::ResponseContext);

const ASSOCIATE_RESULT: Line = Line::Pdu(PduLine::AssociateResult);

const DIAGNOSTIC: Line = Line::Pdu(PduLine::Diagnostic);

const USER_INFORMATION: Line = Line::Pdu(PduLine::UserInformation);

const EXTERNALS: Line = Line::Pdu(PduLine::Externals);

const CONTEXT_NAME: Line = Line::Pdu(PduLine::ContextName);

const RESULT_NUMBER: Line = Line::Pdu(PduLine::ResultNumber);

const DIAGNOSTIC_SOURCE: Line = Line::Pdu(PduLine::DiagnosticSource);

const DIAGNOSTIC_NUMBER: Line = Line::Pdu(PduLine::DiagnosticNumber);

/// The application context name: A1, which holds 06.
fn application_context(tag: &[u8], line: Line) -> Option<(Inside, Line)>
    ensures { result ≡ only 0xa1 tag.now (Inside.Elements (Line.Pdu PduLine.ContextName)) line }
{
    elements(tag::APPLICATION_CONTEXT_NAME, tag, CONTEXT_NAME, line)
}

/// AARQ and AUDT: [80], A1.
fn request_version(tag: &[u8]) -> Option<(Inside, Line)>
    ensures { result ≡ pdu_next PduLine.RequestVersion tag.now }
{
    either(
        octets(
            tag::PROTOCOL_VERSION,
            tag,
            Contents::ProtocolVersion,
            REQUEST_CONTEXT,
        ),
        application_context(tag, USER_INFORMATION),
    )
}

/// AARE: [80], A1.
fn response_version(tag: &[u8]) -> Option<(Inside, Line)>
    ensures { result ≡ pdu_next PduLine.ResponseVersion tag.now }
{
    either(
        octets(
            tag::PROTOCOL_VERSION,
            tag,
            Contents::ProtocolVersion,
            RESPONSE_CONTEXT,
        ),
        application_context(tag, ASSOCIATE_RESULT),
    )
}

/// A3 of an AARE: A1 or A2.
fn diagnostic_source(tag: &[u8]) -> Option<(Inside, Line)>
    ensures { result ≡ pdu_next PduLine.DiagnosticSource tag.now }
{
    either(
        elements(tag::DIALOGUE_SERVICE_USER, tag, DIAGNOSTIC_NUMBER, END),
        elements(tag::DIALOGUE_SERVICE_PROVIDER, tag, DIAGNOSTIC_NUMBER, END),
    )
}

/// What an element with this tag holds at a line of the tables of dialogue PDUs, and which line follows it.
pub(crate) fn pdu_next(line: PduLine, tag: &[u8]) -> Option<(Inside, Line)>
    ensures { result ≡ pdu_next line tag.now }
{
    match line {
        PduLine::RequestVersion => request_version(tag),
        PduLine::RequestContext => application_context(tag, USER_INFORMATION),
        PduLine::ResponseVersion => response_version(tag),
        PduLine::ResponseContext => application_context(tag, ASSOCIATE_RESULT),
        PduLine::AssociateResult => elements(tag::RESULT, tag, RESULT_NUMBER, DIAGNOSTIC),
        PduLine::Diagnostic => elements(
            tag::RESULT_SOURCE_DIAGNOSTIC,
            tag,
            DIAGNOSTIC_SOURCE,
            USER_INFORMATION,
        ),
        PduLine::AbortSource => octets(
            tag::ABORT_SOURCE,
            tag,
            Contents::AbortSource,
            USER_INFORMATION,
        ),
        PduLine::UserInformation => elements(tag::USER_INFORMATION, tag, EXTERNALS, END),
        PduLine::Externals => octets(tag::EXTERNAL, tag, Contents::Any, EXTERNALS),
        PduLine::ContextName => octets(
            tag::OBJECT_IDENTIFIER,
            tag,
            Contents::ObjectIdentifier,
            END,
        ),
        PduLine::ResultNumber => octets(tag::INTEGER, tag, Contents::ResultNumber, END),
        PduLine::DiagnosticSource => diagnostic_source(tag),
        PduLine::DiagnosticNumber => octets(tag::INTEGER, tag, Contents::DiagnosticNumber, END),
    }
}

/// Whether the contents may end at a line of the tables of dialogue PDUs.
pub(crate) fn pdu_may_end(line: PduLine) -> bool
    ensures { result ≡ pdu_may_end line }
{
    match line {
        PduLine::UserInformation | PduLine::Externals => true,
        PduLine::RequestVersion
        | PduLine::RequestContext
        | PduLine::ResponseVersion
        | PduLine::ResponseContext
        | PduLine::AssociateResult
        | PduLine::Diagnostic
        | PduLine::AbortSource
        | PduLine::ContextName
        | PduLine::ResultNumber
        | PduLine::DiagnosticSource
        | PduLine::DiagnosticNumber => false,
    }
}

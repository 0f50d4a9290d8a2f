//! The words for what is expected.

ghost use Rattle.std.specs.Prelude.{◌≡◌};
ghost use Rattle.tcap_explain.specs.Words.{list_words, message_words, portion_words, pdu_words, component_words, line_words, contents_words, ber_words, expected_words};

use crate::contents::Contents;
use crate::line::{ComponentLine, Line, ListLine, MessageLine, PduLine, PortionLine, Rule};
use ber_core::BerFault;

/// The words for a list of elements.
fn list_words(line: ListLine) -> &'static str
    ensures { result.now ≡ list_words line }
{
    match line {
        ListLine::OneElement | ListLine::OneConstructed | ListLine::Elements => "an element",
        ListLine::End => "the end",
    }
}

/// The words for a line of messages.
fn message_words(line: MessageLine) -> &'static str
    ensures { result.now ≡ message_words line }
{
    match line {
        MessageLine::MessageType => "a message 0x61, 0x62, 0x64, 0x65 or 0x67",
        MessageLine::UniPortions => "the dialogue portion 0x6b or the component portion 0x6c",
        MessageLine::UniComponents => "the component portion 0x6c",
        MessageLine::BeginOrigin | MessageLine::ContinueOrigin =>
            "the originating transaction identifier 0x48",
        MessageLine::Destination | MessageLine::AbortDestination =>
            "the destination transaction identifier 0x49",
        MessageLine::Portions => "the dialogue portion 0x6b, the component portion 0x6c or the end",
        MessageLine::ComponentPortion => "the component portion 0x6c or the end",
        MessageLine::AbortReason => "the P-Abort cause 0x4a, the dialogue portion 0x6b or the end",
    }
}

/// The words for a line of the dialogue portion.
fn portion_words(line: PortionLine) -> &'static str
    ensures { result.now ≡ portion_words line }
{
    match line {
        PortionLine::External | PortionLine::AbortExternal => "the EXTERNAL 0x28",
        PortionLine::DialogueSyntax | PortionLine::AnySyntax => "the abstract syntax 0x06",
        PortionLine::Structured | PortionLine::Unstructured => "the single-ASN1-type 0xa0",
        PortionLine::StructuredPdu => "the AARQ 0x60, the AARE 0x61 or the ABRT 0x64",
        PortionLine::UnstructuredPdu => "the AUDT 0x60",
    }
}

/// The words for a line of dialogue PDUs.
fn pdu_words(line: PduLine) -> &'static str
    ensures { result.now ≡ pdu_words line }
{
    match line {
        PduLine::RequestVersion | PduLine::ResponseVersion =>
            "the protocol version 0x80 or the application context name 0xa1",
        PduLine::RequestContext | PduLine::ResponseContext => "the application context name 0xa1",
        PduLine::AssociateResult => "the result 0xa2",
        PduLine::Diagnostic => "the result source diagnostic 0xa3",
        PduLine::AbortSource => "the abort source 0x80",
        PduLine::UserInformation => "the user information 0xbe or the end",
        PduLine::Externals => "an EXTERNAL 0x28 or the end",
        PduLine::ContextName => "the object identifier 0x06",
        PduLine::ResultNumber | PduLine::DiagnosticNumber => "the integer 0x02",
        PduLine::DiagnosticSource =>
            "the dialogue service user 0xa1 or the dialogue service provider 0xa2",
    }
}

/// The words for a line of components.
fn component_words(line: ComponentLine) -> &'static str
    ensures { result.now ≡ component_words line }
{
    match line {
        ComponentLine::ComponentType => "a component 0xa1, 0xa2, 0xa3, 0xa4 or 0xa7",
        ComponentLine::InvokeId | ComponentLine::ResultId | ComponentLine::ErrorId =>
            "the invoke identifier 0x02",
        ComponentLine::LinkedOrCode =>
            "the linked identifier 0x80, the local code 0x02 or the global code 0x06",
        ComponentLine::Code => "the local code 0x02 or the global code 0x06",
        ComponentLine::Parameter => "a parameter or the end",
        ComponentLine::ResultBody => "the sequence 0x30 or the end",
        ComponentLine::RejectId => "the invoke identifier 0x02 or the null 0x05",
        ComponentLine::Problem => "the problem 0x80, 0x81, 0x82 or 0x83",
        ComponentLine::ResultList | ComponentLine::ResultListSecond => "an element",
    }
}

/// The words for a line of the tables.
fn line_words(line: Line) -> &'static str
    ensures { result.now ≡ line_words line }
{
    match line {
        Line::List(line) => list_words(line),
        Line::Message(line) => message_words(line),
        Line::Portion(line) => portion_words(line),
        Line::Pdu(line) => pdu_words(line),
        Line::Component(line) => component_words(line),
    }
}

/// The words for contents octets.
fn contents_words(contents: Contents) -> &'static str
    ensures { result.now ≡ contents_words contents }
{
    match contents {
        Contents::Any => "any octets",
        Contents::TransactionId => "a transaction identifier of 1 to 4 octets",
        Contents::PAbortCause => "a P-Abort cause of one octet 0x00 to 0x7f",
        Contents::DialogueSyntax =>
            "the abstract syntax of structured or of unstructured dialogues",
        Contents::ObjectIdentifier => "an object identifier",
        Contents::ProtocolVersion => "a protocol version in a bit string",
        Contents::ResultNumber => "a result of one octet 0x00 or 0x01",
        Contents::DiagnosticNumber => "a diagnostic of one octet 0x00 to 0x7f",
        Contents::AbortSource => "an abort source of one octet 0x00 or 0x01",
        Contents::Identifier => "an identifier of one octet",
        Contents::LocalCode => "a local code of 1 to 4 octets in the fewest octets",
        Contents::Null => "a null of no octets",
        Contents::ProblemCode => "a problem code of one octet 0x00 to 0x7f",
    }
}

/// The words for an encoding.
fn ber_words(fault: BerFault) -> &'static str
    ensures { result.now ≡ ber_words fault }
{
    match fault {
        BerFault::Short => "more octets",
        BerFault::BadTag => "a tag",
        BerFault::BadLength => "a length of at most 65535",
        BerFault::IndefinitePrimitive => "a definite length behind a primitive tag",
        BerFault::TooDeep => "at most 32 open elements of indefinite length",
    }
}

/// The words for what a rule expects.
pub(crate) fn expected_words(rule: Rule) -> &'static str
    ensures { result.now ≡ expected_words rule }
{
    match rule {
        Rule::MessageLength => "at most 65535 octets",
        Rule::Encoding(fault) => ber_words(fault),
        Rule::Other(line) | Rule::Missing(line) => line_words(line),
        Rule::Octets(contents, _) => contents_words(contents),
    }
}

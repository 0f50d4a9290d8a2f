//! The lines of the tables, and the rule that wasn't met.

use crate::contents::Contents;
use ber_core::BerFault;

/// A line of the tables of Q.773: the place in the contents of a message, of a dialogue PDU or of a component
/// at which an element is looked for. docs/PROFILE.md has the tables.
#[derive(Clone, Copy, Debug, PartialEq, Eq)]
pub enum Line {
    /// A list of elements.
    List(ListLine),
    /// A message.
    Message(MessageLine),
    /// A dialogue portion.
    Portion(PortionLine),
    /// A dialogue PDU.
    Pdu(PduLine),
    /// A component.
    Component(ComponentLine),
}

/// What is looked for in a list of elements.
#[derive(Clone, Copy, Debug, PartialEq, Eq)]
pub enum ListLine {
    /// One element, whatever it is, and nothing after it.
    OneElement,
    /// One element whose contents are a list of elements, and nothing after it.
    OneConstructed,
    /// Elements one after the other, whatever they are.
    Elements,
    /// Nothing follows.
    End,
}

/// A line of the tables of messages (Q.773, Structure of TC messages).
#[derive(Clone, Copy, Debug, PartialEq, Eq)]
pub enum MessageLine {
    /// The message: 61, 62, 64, 65 or 67.
    MessageType,
    /// Unidirectional: [6B], 6C.
    UniPortions,
    /// Unidirectional, behind 6B: 6C.
    UniComponents,
    /// Begin: 48.
    BeginOrigin,
    /// Continue: 48.
    ContinueOrigin,
    /// End, and Continue behind 48: 49.
    Destination,
    /// Begin, End and Continue, behind the transaction identifiers: [6B], [6C].
    Portions,
    /// Begin, End and Continue, behind 6B: [6C].
    ComponentPortion,
    /// Abort: 49.
    AbortDestination,
    /// Abort, behind 49: 4A or 6B or nothing.
    AbortReason,
}

/// A line of the tables of the dialogue portion, down to its PDU (Q.773, Dialogue portion).
#[derive(Clone, Copy, Debug, PartialEq, Eq)]
pub enum PortionLine {
    /// Dialogue portion: 28.
    External,
    /// Dialogue portion of an Abort: 28.
    AbortExternal,
    /// EXTERNAL: 06, an abstract syntax of dialogues.
    DialogueSyntax,
    /// EXTERNAL in an Abort: 06, any abstract syntax.
    AnySyntax,
    /// EXTERNAL of a structured dialogue, behind 06: A0.
    Structured,
    /// EXTERNAL of an unstructured dialogue, behind 06: A0.
    Unstructured,
    /// The PDU of a structured dialogue: 60, 61 or 64.
    StructuredPdu,
    /// The PDU of an unstructured dialogue: 60.
    UnstructuredPdu,
}

/// A line of the tables of dialogue PDUs (Q.773, Dialogue portion).
#[derive(Clone, Copy, Debug, PartialEq, Eq)]
pub enum PduLine {
    /// AARQ and AUDT: [80], A1.
    RequestVersion,
    /// AARQ and AUDT, behind 80: A1.
    RequestContext,
    /// AARE: [80], A1.
    ResponseVersion,
    /// AARE, behind 80: A1.
    ResponseContext,
    /// AARE, behind A1: A2.
    AssociateResult,
    /// AARE, behind A2: A3.
    Diagnostic,
    /// ABRT: 80.
    AbortSource,
    /// The end of each dialogue PDU: [BE].
    UserInformation,
    /// BE: elements 28.
    Externals,
    /// A1 of an AARQ, AUDT or AARE: 06.
    ContextName,
    /// A2 of an AARE: 02.
    ResultNumber,
    /// A3 of an AARE: A1 or A2.
    DiagnosticSource,
    /// A1 or A2 of a diagnostic: 02.
    DiagnosticNumber,
}

/// A line of the tables of components (Q.773, Component portion).
#[derive(Clone, Copy, Debug, PartialEq, Eq)]
pub enum ComponentLine {
    /// The component: A1, A2, A3, A4 or A7.
    ComponentType,
    /// Invoke: 02.
    InvokeId,
    /// Invoke, behind 02: [80], 02 or 06.
    LinkedOrCode,
    /// Return Error, behind 02; Invoke, behind 80; the 30 of a result: 02 or 06.
    Code,
    /// Behind a code: one element of any tag, or nothing.
    Parameter,
    /// Return Result: 02.
    ResultId,
    /// Return Result, behind 02: [30].
    ResultBody,
    /// Return Error: 02.
    ErrorId,
    /// Reject: 02 or 05.
    RejectId,
    /// Reject, behind 02 or 05: 80, 81, 82 or 83.
    Problem,
    /// Return Result, before it is read: a list of elements, of which a 30 that stands second holds a list.
    ResultList,
    /// The list of a Return Result, behind its first element.
    ResultListSecond,
}

/// The rule that wasn't met.
#[derive(Clone, Copy, Debug, PartialEq, Eq)]
pub enum Rule {
    /// A message has at most 65,535 octets.
    MessageLength,
    /// An element is encoded as X.690 says.
    Encoding(BerFault),
    /// This line has no element of the tag that stands there.
    Other(Line),
    /// The contents end where this line has an element.
    Missing(Line),
    /// The contents of the element are these octets; and how many octets they are instead.
    Octets(Contents, usize),
}

/// Where the fault of a message is, and the rule that wasn't met there.
#[derive(Clone, Copy, Debug, PartialEq, Eq)]
pub struct Explained {
    /// The octet at which the fault is told, 0 for the first of the message; at most 65,535. Where octets or
    /// an element are missing, the octet behind the contents.
    pub place: usize,
    /// The first octet of the element that has the fault; the same as `place` where one is missing, and 0 for
    /// a message that is too long.
    pub element: usize,
    /// The rule.
    pub rule: Rule,
}

//! What an outbox keeps of each output: parts of its octets where `Output` has slices.

use crate::output::{By, DropWhy, Why};
use tcap_component::Problem;
use tcap_pdu::Diagnostic;

/// A part of an outbox's octets.
#[derive(Clone, Copy)]
pub struct Span {
    /// Where it begins, from 0 on.
    pub at: u32,
    /// How many octets it has.
    pub len: u32,
}

/// A code (Q.773, Operation Code; Q.773, Error Code).
#[derive(Clone, Copy)]
pub enum CodeRecord {
    /// A local value.
    Local(i32),
    /// A global value: the contents octets of an object identifier.
    Global(Span),
}

/// A code and a parameter, as a result, an Invoke or an error has them (Q.773, Invoke component).
#[derive(Clone, Copy)]
pub struct BodyRecord {
    pub code: CodeRecord,
    /// The octets of the parameter's element, if there is one.
    pub parameter: Option<Span>,
}

/// What a dialogue portion names (Q.771, Dialogue handling).
#[derive(Clone, Copy)]
pub struct PortionRecord {
    /// The contents octets of the application context name, if there is one.
    pub context: Option<Span>,
    /// The user information, without octets where there is none.
    pub info: Span,
}

/// A dialogue PDU (Q.773, Dialogue portion).
#[derive(Clone, Copy)]
pub enum PduRecord {
    /// A request, and whether protocol version 1 is among its versions.
    Aarq {
        version1: bool,
        context: Span,
        info: Span,
    },
    /// The PDU of a Unidirectional.
    Audt {
        version1: bool,
        context: Span,
        info: Span,
    },
    /// A response.
    Aare {
        version1: bool,
        context: Span,
        accepted: bool,
        diagnostic: Diagnostic,
        info: Span,
    },
    /// An abort.
    Abrt {
        by_provider: bool,
        info: Span,
    },
    /// An EXTERNAL of another syntax.
    Foreign {
        external: Span,
    },
}

/// An output, in at most 48 octets: a message that is sent, or an indication by the name that it has in `Indication`
/// (our own).
#[derive(Clone, Copy)]
pub enum Record {
    /// A message goes to this address: its octets.
    Send {
        to: Span,
        bytes: Span,
    },
    /// TC-UNI.
    Uni {
        portion: PortionRecord,
    },
    /// TC-BEGIN.
    Begin {
        dialogue: u32,
        portion: PortionRecord,
    },
    /// TC-CONTINUE.
    Continue {
        dialogue: u32,
        portion: PortionRecord,
    },
    /// TC-END.
    End {
        dialogue: u32,
        portion: PortionRecord,
    },
    /// TC-U-ABORT.
    UAbort {
        dialogue: u32,
        pdu: Option<PduRecord>,
    },
    /// TC-P-ABORT.
    PAbort {
        dialogue: u32,
        why: Why,
    },
    /// TC-INVOKE.
    Invoked {
        dialogue: Option<u32>,
        id: i8,
        linked: Option<i8>,
        body: BodyRecord,
    },
    /// TC-RESULT-NL.
    ResultMore {
        dialogue: u32,
        number: u64,
        id: i8,
        body: Option<BodyRecord>,
    },
    /// TC-L-REJECT that closes no invocation.
    LocalReject {
        dialogue: Option<u32>,
        id: Option<i8>,
        problem: Problem,
    },
    /// A Reject from the peer that closes no invocation.
    RemoteReject {
        dialogue: Option<u32>,
        id: Option<i8>,
        problem: Problem,
        by: By,
    },
    /// TC-RESULT-L.
    ResultLast {
        dialogue: u32,
        number: u64,
        id: i8,
        body: Option<BodyRecord>,
    },
    /// TC-U-ERROR.
    ErrorBack {
        dialogue: u32,
        number: u64,
        id: i8,
        body: BodyRecord,
    },
    /// A Reject that closes an invocation.
    Rejected {
        dialogue: u32,
        number: u64,
        id: i8,
        problem: Problem,
        by: By,
    },
    /// TC-L-CANCEL: the timer of an invocation ran out.
    Lapsed {
        dialogue: u32,
        number: u64,
        id: i8,
    },
    /// The dialogue of an invocation is over.
    Ended {
        dialogue: u32,
        number: u64,
        id: i8,
    },
    /// A message was dropped.
    Dropped(DropWhy),
}

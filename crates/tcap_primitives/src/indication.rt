//! What the user is told, wherever it is kept.

pub mod indicated;

use crate::output::{By, DropWhy, Why};
use tcap_component::{Body, Code, Problem};
use tcap_pdu::DialoguePdu;

/// An indication primitive of TC (Q.771, Component handling; Q.771, Dialogue handling), or what our own adds to
/// them: what `Output` says but for messages that are sent. Its slices are parts of a message, or of an outbox.
#[derive(Clone, Copy, Debug, PartialEq, Eq)]
pub enum Indication<'m> {
    /// TC-UNI indication.
    Uni {
        context: Option<&'m [u8]>,
        info: &'m [u8],
    },
    /// TC-BEGIN indication.
    Begin {
        dialogue: u32,
        context: Option<&'m [u8]>,
        info: &'m [u8],
    },
    /// TC-CONTINUE indication.
    Continue {
        dialogue: u32,
        context: Option<&'m [u8]>,
        info: &'m [u8],
    },
    /// TC-END indication.
    End {
        dialogue: u32,
        context: Option<&'m [u8]>,
        info: &'m [u8],
    },
    /// TC-U-ABORT indication, with the dialogue PDU of the Abort if there is one.
    UAbort {
        dialogue: u32,
        pdu: Option<DialoguePdu<'m>>,
    },
    /// TC-P-ABORT indication.
    PAbort {
        dialogue: u32,
        why: Why,
    },
    /// TC-INVOKE indication; `dialogue` is `None` in a Unidirectional.
    Invoked {
        dialogue: Option<u32>,
        id: i8,
        linked: Option<i8>,
        code: Code<'m>,
        parameter: Option<&'m [u8]>,
    },
    /// TC-RESULT-NL indication.
    ResultMore {
        dialogue: u32,
        number: u64,
        id: i8,
        body: Option<Body<'m>>,
    },
    /// TC-L-REJECT indication of a component that was received, which closes no invocation.
    LocalReject {
        dialogue: Option<u32>,
        id: Option<i8>,
        problem: Problem,
    },
    /// TC-U-REJECT or TC-R-REJECT indication that closes no invocation.
    RemoteReject {
        dialogue: Option<u32>,
        id: Option<i8>,
        problem: Problem,
        by: By,
    },
    /// TC-RESULT-L indication; it closes the invocation.
    ResultLast {
        dialogue: u32,
        number: u64,
        id: i8,
        body: Option<Body<'m>>,
    },
    /// TC-U-ERROR indication; it closes the invocation.
    ErrorBack {
        dialogue: u32,
        number: u64,
        id: i8,
        code: Code<'m>,
        parameter: Option<&'m [u8]>,
    },
    /// TC-L-REJECT, TC-R-REJECT or TC-U-REJECT indication that closes an invocation.
    Rejected {
        dialogue: u32,
        number: u64,
        id: i8,
        problem: Problem,
        by: By,
    },
    /// TC-L-CANCEL indication: the timer of the invocation ran out.
    Lapsed {
        dialogue: u32,
        number: u64,
        id: i8,
    },
    /// The dialogue of the invocation is over (our own).
    Ended {
        dialogue: u32,
        number: u64,
        id: i8,
    },
    /// A message was dropped (our own).
    Dropped(DropWhy),
}

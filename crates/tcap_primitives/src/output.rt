//! Indications to the user, and messages to be sent (Q.771).

use std::alloc::{Allocator, Global};
use tcap_address::Address;
use tcap_component::{Body, Code, Problem};
use tcap_pdu::DialoguePdu;

/// Why the provider aborted (Q.771, Provider abort).
#[derive(Clone, Copy, Debug, PartialEq, Eq)]
pub enum Why {
    /// The P-Abort cause of the Abort, or that of a faulty message, 0 to 127.
    Cause(u8),
    /// The dialogue portion was abnormal.
    Abnormal,
    /// There is no common dialogue portion.
    NoCommon,
    /// The dialogue was idle too long (our own).
    Idle,
}

/// Who rejects (Q.771, Component handling).
#[derive(Clone, Copy, Debug, PartialEq, Eq)]
pub enum By {
    /// The component sublayer here (TC-L-REJECT).
    Local,
    /// The component sublayer of the peer (TC-R-REJECT).
    RemoteProvider,
    /// The peer's user (TC-U-REJECT).
    RemoteUser,
}

/// Why a message is dropped (our own).
#[derive(Clone, Copy, Debug, PartialEq, Eq)]
pub enum DropWhy {
    /// It is above 65,535 bytes.
    TooLong,
    /// It can't be read, and nobody is known to whom that could be told.
    BadMessage,
    /// It is an End or an Abort to a dialogue that isn't live.
    NoDialogue,
    /// It is a Unidirectional whose dialogue portion isn't an AUDT of version 1.
    BadDialogue,
}

/// What is sent and what the user is told: the indication primitives of TC (Q.771, Component handling;
/// Q.771, Dialogue handling). Dialogues are named by their identifier, invocations by the number that
/// `invoke` gave and by their invoke identifier, -128 to 127. `context` is the contents octets of the
/// application context name, `info` the user information, empty where there is none, `parameter` the
/// octets of one element; all of them are parts of the message that was received.
#[derive(Debug, Drop, PartialEq, Eq)]
pub enum Output<'m, A: Allocator = Global> {
    /// A message goes to this address: its octets.
    Send {
        to: Address,
        bytes: Vec<u8, A>,
    },
    /// TC-UNI indication.
    Uni {
        context: Option<&'m [u8]>,
        info: &'m [u8],
    },
    /// TC-BEGIN indication.
    Begin {
        dialogue: u32,
        context: Option<&'m [u8]>,
        info: &'m [u8],
    },
    /// TC-CONTINUE indication.
    Continue {
        dialogue: u32,
        context: Option<&'m [u8]>,
        info: &'m [u8],
    },
    /// TC-END indication.
    End {
        dialogue: u32,
        context: Option<&'m [u8]>,
        info: &'m [u8],
    },
    /// TC-U-ABORT indication, with the dialogue PDU of the Abort if there is one.
    UAbort {
        dialogue: u32,
        pdu: Option<DialoguePdu<'m>>,
    },
    /// TC-P-ABORT indication.
    PAbort {
        dialogue: u32,
        why: Why,
    },
    /// TC-INVOKE indication; `dialogue` is `None` in a Unidirectional.
    Invoked {
        dialogue: Option<u32>,
        id: i8,
        linked: Option<i8>,
        code: Code<'m>,
        parameter: Option<&'m [u8]>,
    },
    /// TC-RESULT-NL indication.
    ResultMore {
        dialogue: u32,
        number: u64,
        id: i8,
        body: Option<Body<'m>>,
    },
    /// TC-L-REJECT indication of a component that was received, which closes no invocation.
    LocalReject {
        dialogue: Option<u32>,
        id: Option<i8>,
        problem: Problem,
    },
    /// TC-U-REJECT or TC-R-REJECT indication that closes no invocation.
    RemoteReject {
        dialogue: Option<u32>,
        id: Option<i8>,
        problem: Problem,
        by: By,
    },
    /// TC-RESULT-L indication; it closes the invocation.
    ResultLast {
        dialogue: u32,
        number: u64,
        id: i8,
        body: Option<Body<'m>>,
    },
    /// TC-U-ERROR indication; it closes the invocation.
    ErrorBack {
        dialogue: u32,
        number: u64,
        id: i8,
        code: Code<'m>,
        parameter: Option<&'m [u8]>,
    },
    /// TC-L-REJECT, TC-R-REJECT or TC-U-REJECT indication that closes an invocation.
    Rejected {
        dialogue: u32,
        number: u64,
        id: i8,
        problem: Problem,
        by: By,
    },
    /// TC-L-CANCEL indication: the timer of the invocation ran out.
    Lapsed {
        dialogue: u32,
        number: u64,
        id: i8,
    },
    /// The dialogue of the invocation is over (our own).
    Ended {
        dialogue: u32,
        number: u64,
        id: i8,
    },
    /// A message was dropped (our own).
    Dropped(DropWhy),
}

//! Request primitives of a dialogue (Q.771): each with its arguments, and any of them as one value.

use tcap_address::Address;
use tcap_component::{Body, Code, Problem};
use tcap_invocation::Class;

/// How a dialogue ends (Q.771, Dialogue end).
#[derive(Clone, Copy, Debug, PartialEq, Eq)]
pub enum Ending {
    /// With an End to the peer.
    Basic,
    /// As both sides arranged before: nothing is sent.
    Prearranged,
}

/// Why the user aborts (Q.771, User abort).
#[derive(Clone, Copy, Debug, PartialEq, Eq)]
pub enum AbortWhy {
    /// For a reason of its own.
    User,
    /// It doesn't support the application context of the AARQ.
    NotSupported,
}

/// TC-INVOKE request (Q.771, Component handling).
#[derive(Clone, Copy, Debug, PartialEq, Eq)]
pub struct InvokeRequest<'a> {
    /// Invoke identifier, -128 to 127.
    pub id: i8,
    /// Class of the operation.
    pub class: Class,
    /// Operation code.
    pub code: Code<'a>,
    /// The octets of one element, if there is a parameter.
    pub parameter: Option<&'a [u8]>,
    /// Linked identifier, -128 to 127, if the operation is linked to one.
    pub linked: Option<i8>,
    /// How long the invocation waits for its answer once it is sent: 1 to 2^62 milliseconds.
    pub timeout_ms: u64,
}

/// TC-RESULT-L or TC-RESULT-NL request (Q.771, Component handling).
#[derive(Clone, Copy, Debug, PartialEq, Eq)]
pub struct ResultRequest<'a> {
    /// Invoke identifier of the peer's invocation, -128 to 127.
    pub id: i8,
    /// Operation code and parameter of the result, if it has them.
    pub body: Option<Body<'a>>,
}

/// TC-U-ERROR request (Q.771, Component handling).
#[derive(Clone, Copy, Debug, PartialEq, Eq)]
pub struct ErrorRequest<'a> {
    /// Invoke identifier of the peer's invocation, -128 to 127.
    pub id: i8,
    /// Error code.
    pub code: Code<'a>,
    /// The octets of one element, if there is a parameter.
    pub parameter: Option<&'a [u8]>,
}

/// TC-U-REJECT request (Q.771, Component handling).
#[derive(Clone, Copy, Debug, PartialEq, Eq)]
pub struct RejectRequest {
    /// Invoke identifier of the component that is rejected, -128 to 127, if it is known.
    pub id: Option<i8>,
    /// What is wrong with it.
    pub problem: Problem,
}

/// TC-U-CANCEL request (Q.771, Component handling).
#[derive(Clone, Copy, Debug, PartialEq, Eq)]
pub struct CancelRequest {
    /// Invoke identifier of the invocation that is given up, -128 to 127.
    pub id: i8,
}

/// TC-UNI request (Q.771, Dialogue handling).
#[derive(Clone, Copy, Debug, PartialEq, Eq)]
pub struct UniRequest<'a> {
    /// Destination.
    pub to: &'a Address,
    /// The contents octets of the application context name, if there is one.
    pub context: Option<&'a [u8]>,
    /// User information: EXTERNALs one after the other, empty where there is none.
    pub info: &'a [u8],
}

/// TC-BEGIN request (Q.771, Dialogue handling).
#[derive(Clone, Copy, Debug, PartialEq, Eq)]
pub struct BeginRequest<'a> {
    /// Destination.
    pub to: &'a Address,
    /// The contents octets of the application context name, if there is one.
    pub context: Option<&'a [u8]>,
    /// User information: EXTERNALs one after the other, empty where there is none.
    pub info: &'a [u8],
}

/// TC-CONTINUE request (Q.771, Dialogue handling).
#[derive(Clone, Copy, Debug, PartialEq, Eq)]
pub struct ContinueRequest<'a> {
    /// The contents octets of the application context name, where it isn't that of the AARQ that is answered.
    pub context: Option<&'a [u8]>,
    /// User information: EXTERNALs one after the other, empty where there is none.
    pub info: &'a [u8],
}

/// TC-END request (Q.771, Dialogue handling).
#[derive(Clone, Copy, Debug, PartialEq, Eq)]
pub struct EndRequest<'a> {
    /// How the dialogue ends.
    pub ending: Ending,
    /// The contents octets of the application context name, where it isn't that of the AARQ that is answered.
    pub context: Option<&'a [u8]>,
    /// User information: EXTERNALs one after the other, empty where there is none.
    pub info: &'a [u8],
}

/// TC-U-ABORT request (Q.771, Dialogue handling).
#[derive(Clone, Copy, Debug, PartialEq, Eq)]
pub struct AbortRequest<'a> {
    /// Why the user aborts.
    pub why: AbortWhy,
    /// User information: EXTERNALs one after the other, empty where there is none.
    pub info: &'a [u8],
}

/// What the user asks of one dialogue: the request primitives of TC (Q.771, Component handling; Q.771,
/// Dialogue handling), each with its arguments.
#[derive(Clone, Copy, Debug, PartialEq, Eq)]
pub enum Request<'a> {
    /// TC-INVOKE.
    Invoke(InvokeRequest<'a>),
    /// TC-RESULT-L.
    ResultLast(ResultRequest<'a>),
    /// TC-RESULT-NL.
    ResultMore(ResultRequest<'a>),
    /// TC-U-ERROR.
    ErrorBack(ErrorRequest<'a>),
    /// TC-U-REJECT.
    Reject(RejectRequest),
    /// TC-U-CANCEL.
    Cancel(CancelRequest),
    /// TC-UNI.
    Uni(UniRequest<'a>),
    /// TC-BEGIN.
    Begin(BeginRequest<'a>),
    /// TC-CONTINUE.
    Continue(ContinueRequest<'a>),
    /// TC-END.
    End(EndRequest<'a>),
    /// TC-U-ABORT.
    Abort(AbortRequest<'a>),
}

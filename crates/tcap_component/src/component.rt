//! Components: Invoke, Return Result Last, Return Result Not Last, Return Error, Reject (Q.773, Component type).

pub mod append;
pub mod length;
pub mod parts;
pub mod range;
pub mod read;
pub mod reject;
pub mod take;
pub mod write;

use crate::problem::Problem;

/// The code of an operation or of an error (Q.773, Operation Code; Q.773, Error Code).
#[derive(Clone, Copy, Debug, PartialEq, Eq)]
pub enum Code<'a> {
    /// A local code: one to four octets.
    Local(i32),
    /// A global code: the contents octets of an object identifier, 1 to 255.
    Global(&'a [u8]),
}

/// What a result holds (Q.773, Return Result component; that the parameter may be missing is our own).
#[derive(Clone, Copy, Debug, PartialEq, Eq)]
pub struct Body<'a> {
    /// The code of the operation.
    pub code: Code<'a>,
    /// The octets of one element of any tag.
    pub parameter: Option<&'a [u8]>,
}

/// A component and its fields (Q.773, Component portion). Identifiers are one octet, -128 to 127;
/// parameters are the octets of one element of any tag.
#[derive(Clone, Copy, Debug, PartialEq, Eq)]
pub enum Component<'a> {
    /// Invoke.
    Invoke {
        id: i8,
        linked: Option<i8>,
        code: Code<'a>,
        parameter: Option<&'a [u8]>,
    },
    /// Return Result Last.
    ResultLast {
        id: i8,
        body: Option<Body<'a>>,
    },
    /// Return Result Not Last.
    ResultMore {
        id: i8,
        body: Option<Body<'a>>,
    },
    /// Return Error.
    ErrorBack {
        id: i8,
        code: Code<'a>,
        parameter: Option<&'a [u8]>,
    },
    /// Reject.
    RejectBack {
        id: Option<i8>,
        problem: Problem,
    },
}

/// The forms of component, each with its tag (Q.773, Component Type Tag).
#[derive(Clone, Copy)]
pub enum Form {
    /// Invoke, A1.
    Invoke,
    /// Return Result Last, A2.
    ResultLast,
    /// Return Error, A3.
    ErrorBack,
    /// Reject, A4.
    RejectBack,
    /// Return Result Not Last, A7.
    ResultMore,
}

//! Tags of components and of what they hold (Q.773, Component portion), each of one octet.

/// Integer: an identifier or a local code.
pub const INTEGER: u8 = 0x02;
/// Null: a Reject has no identifier.
pub const NULL: u8 = 0x05;
/// Object identifier: a global code.
pub const OBJECT_IDENTIFIER: u8 = 0x06;
/// Sequence: the body of a result.
pub const SEQUENCE: u8 = 0x30;
/// The linked identifier of an Invoke.
pub const LINKED_ID: u8 = 0x80;

/// General problem of a Reject.
pub const GENERAL_PROBLEM: u8 = 0x80;
/// Invoke problem of a Reject.
pub const INVOKE_PROBLEM: u8 = 0x81;
/// Return Result problem of a Reject.
pub const RETURN_RESULT_PROBLEM: u8 = 0x82;
/// Return Error problem of a Reject.
pub const RETURN_ERROR_PROBLEM: u8 = 0x83;

/// Invoke.
pub const INVOKE: u8 = 0xa1;
/// Return Result Last.
pub const RETURN_RESULT_LAST: u8 = 0xa2;
/// Return Error.
pub const RETURN_ERROR: u8 = 0xa3;
/// Reject.
pub const REJECT: u8 = 0xa4;
/// Return Result Not Last.
pub const RETURN_RESULT_NOT_LAST: u8 = 0xa7;

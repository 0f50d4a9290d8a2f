//! The octets of the messages' tags and of the P-Abort causes (Q.773).

/// Unidirectional (Q.773, Message type tag).
pub const UNIDIRECTIONAL: u8 = 0x61;
/// Begin (Q.773, Message type tag).
pub const BEGIN: u8 = 0x62;
/// End (Q.773, Message type tag).
pub const END: u8 = 0x64;
/// Continue (Q.773, Message type tag).
pub const CONTINUE: u8 = 0x65;
/// Abort (Q.773, Message type tag).
pub const ABORT: u8 = 0x67;

/// Originating transaction identifier (Q.773, Transaction ID tags).
pub const ORIGIN: u8 = 0x48;
/// Destination transaction identifier (Q.773, Transaction ID tags).
pub const DESTINATION: u8 = 0x49;
/// P-Abort cause (Q.773, P-Abort cause tag).
pub const P_ABORT_CAUSE: u8 = 0x4a;
/// Dialogue portion (Q.773, Dialogue portion).
pub const DIALOGUE_PORTION: u8 = 0x6b;
/// Component portion (Q.773, Component portion tag).
pub const COMPONENT_PORTION: u8 = 0x6c;

/// P-Abort cause: unrecognized message type (Q.773, P-Abort cause).
pub const UNRECOGNIZED_MESSAGE_TYPE: u8 = 0;
/// P-Abort cause: unrecognized transaction identifier (Q.773, P-Abort cause).
pub const UNRECOGNIZED_TRANSACTION_ID: u8 = 1;
/// P-Abort cause: badly formatted transaction portion (Q.773, P-Abort cause).
pub const BADLY_FORMATTED_TRANSACTION_PORTION: u8 = 2;
/// P-Abort cause: incorrect transaction portion (Q.773, P-Abort cause).
pub const INCORRECT_TRANSACTION_PORTION: u8 = 3;
/// P-Abort cause: resource limitation (Q.773, P-Abort cause).
pub const RESOURCE_LIMITATION: u8 = 4;
/// The greatest P-Abort cause that is read or written; 5 to 127 are kept as numbers (our own).
pub const MAX_CAUSE: u8 = 0x7f;

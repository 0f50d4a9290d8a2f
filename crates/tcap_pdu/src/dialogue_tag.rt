//! Tags, object identifiers and named codes of the dialogue portion (Q.773, Dialogue portion).

/// EXTERNAL (X.690, Encoding of a value of the external type).
pub const EXTERNAL: u8 = 0x28;
/// OBJECT IDENTIFIER (X.690, Encoding of an object identifier value).
pub const OBJECT_IDENTIFIER: u8 = 0x06;
/// INTEGER (X.690, Encoding of an integer value).
pub const INTEGER: u8 = 0x02;
/// single-ASN1-type of an EXTERNAL (X.690, Encoding of a value of the external type).
pub const SINGLE_ASN1_TYPE: u8 = 0xa0;

/// The abstract syntax of structured dialogues, dialogue-as (Q.773, Dialogue portion).
pub const STRUCTURED: [u8; 7] = [0x00, 0x11, 0x86, 0x05, 0x01, 0x01, 0x01];
/// The abstract syntax of unstructured dialogues, uniDialogue-as (Q.773, Dialogue portion).
pub const UNSTRUCTURED: [u8; 7] = [0x00, 0x11, 0x86, 0x05, 0x01, 0x02, 0x01];

/// Dialogue request, AARQ (Q.773, Dialogue portion).
pub const DIALOGUE_REQUEST: u8 = 0x60;
/// Unidirectional dialogue, AUDT (Q.773, Dialogue portion).
pub const UNIDIRECTIONAL_DIALOGUE: u8 = 0x60;
/// Dialogue response, AARE (Q.773, Dialogue portion).
pub const DIALOGUE_RESPONSE: u8 = 0x61;
/// Dialogue abort, ABRT (Q.773, Dialogue portion).
pub const DIALOGUE_ABORT: u8 = 0x64;

/// protocol-version (Q.773, Dialogue portion).
pub const PROTOCOL_VERSION: u8 = 0x80;
/// application-context-name (Q.773, Dialogue portion).
pub const APPLICATION_CONTEXT_NAME: u8 = 0xa1;
/// result (Q.773, Dialogue portion).
pub const RESULT: u8 = 0xa2;
/// result-source-diagnostic (Q.773, Dialogue portion).
pub const RESULT_SOURCE_DIAGNOSTIC: u8 = 0xa3;
/// dialogue-service-user, in a result-source-diagnostic (Q.773, Dialogue portion).
pub const DIALOGUE_SERVICE_USER: u8 = 0xa1;
/// dialogue-service-provider, in a result-source-diagnostic (Q.773, Dialogue portion).
pub const DIALOGUE_SERVICE_PROVIDER: u8 = 0xa2;
/// abort-source (Q.773, Dialogue portion).
pub const ABORT_SOURCE: u8 = 0x80;
/// user-information (Q.773, Dialogue portion).
pub const USER_INFORMATION: u8 = 0xbe;

/// Result: accepted (Q.773, Dialogue portion).
pub const ACCEPTED: u8 = 0;
/// Result: reject-permanent (Q.773, Dialogue portion).
pub const REJECT_PERMANENT: u8 = 1;

/// Diagnostic of the user and of the provider: null (Q.773, Dialogue portion).
pub const NULL: u8 = 0;
/// Diagnostic of the user and of the provider: no-reason-given (Q.773, Dialogue portion).
pub const NO_REASON_GIVEN: u8 = 1;
/// Diagnostic of the user: application-context-name-not-supported (Q.773, Dialogue portion).
pub const CONTEXT_NAME_NOT_SUPPORTED: u8 = 2;
/// Diagnostic of the provider: no-common-dialogue-portion (Q.773, Dialogue portion).
pub const NO_COMMON_DIALOGUE_PORTION: u8 = 2;

/// Abort source: dialogue-service-user (Q.773, Dialogue portion).
pub const ABORT_BY_USER: u8 = 0;
/// Abort source: dialogue-service-provider (Q.773, Dialogue portion).
pub const ABORT_BY_PROVIDER: u8 = 1;

/// The octets of version 1: seven unused bits, and bit 0 set (Q.773, Dialogue portion).
pub const VERSION_1: [u8; 2] = [0x07, 0x80];
/// The octets of no version that is known: seven unused bits, and bit 0 not set (our own).
pub const NO_VERSION: [u8; 2] = [0x07, 0x00];
/// The greatest number of unused bits in the last octet of a bit string (X.690, Encoding of a
/// bitstring value).
pub const MAX_UNUSED: u8 = 7;
/// The first bit of an octet of a bit string (X.690, Encoding of a bitstring value).
pub const FIRST_BIT: u8 = 0x80;
/// The greatest number of a diagnostic that is read or written: 127 (our own).
pub const MAX_DIAGNOSTIC: u8 = 0x7f;

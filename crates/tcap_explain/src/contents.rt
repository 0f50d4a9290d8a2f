//! Contents octets that are no elements, and what they have to be.

ghost use Rattle.std.specs.Prelude.{◌≡◌};
ghost use Rattle.tcap_explain.specs.Octets.{is_within, fits};

use ber_core::{is_oid, read_int};
use tcap_pdu::dialogue_tag::{STRUCTURED, UNSTRUCTURED};

/// What the contents octets of an element have to be.
#[derive(Clone, Copy, Debug, PartialEq, Eq)]
pub enum Contents {
    /// They are not looked into.
    Any,
    /// A transaction identifier: one to four octets.
    TransactionId,
    /// A P-Abort cause: one octet, 00 to 7F.
    PAbortCause,
    /// The abstract syntax of structured or of unstructured dialogues.
    DialogueSyntax,
    /// An object identifier.
    ObjectIdentifier,
    /// A protocol version: a bit string.
    ProtocolVersion,
    /// A result: one octet, 0 or 1.
    ResultNumber,
    /// The number of a result source diagnostic: one octet, 00 to 7F.
    DiagnosticNumber,
    /// An abort source: one octet, 0 or 1.
    AbortSource,
    /// An invoke identifier or a linked identifier: one octet.
    Identifier,
    /// A local code: an integer in the fewest octets, one to four.
    LocalCode,
    /// The null of a Reject without identifier: no octets.
    Null,
    /// The code of a problem: one octet, 00 to 7F.
    ProblemCode,
}

/// Whether the octets are one octet, at most this one.
fn within(octets: &[u8], most: u8) -> bool
    ensures { result ≡ is_within most octets.now }
{
    match octets {
        [octet] => *octet <= most,
        _ => false,
    }
}

/// Whether the octets are a protocol version.
fn is_version(octets: &[u8]) -> bool
    ensures { result ≡ fits Contents.ProtocolVersion octets.now }
{
    match octets {
        [unused] => *unused == 0,
        [unused, _, ..] => *unused <= 7,
        [] => false,
    }
}

/// Whether contents octets are what they have to be.
pub(crate) fn is_met(contents: Contents, octets: &[u8]) -> bool
    ensures { result ≡ fits contents octets.now }
{
    match contents {
        Contents::Any => true,
        Contents::TransactionId => !octets.is_empty() && octets.len() <= 4,
        Contents::PAbortCause | Contents::DiagnosticNumber | Contents::ProblemCode => {
            within(octets, 0x7f)
        }
        Contents::DialogueSyntax => {
            octets == STRUCTURED.as_slice() || octets == UNSTRUCTURED.as_slice()
        }
        Contents::ObjectIdentifier => is_oid(octets),
        Contents::ProtocolVersion => is_version(octets),
        Contents::ResultNumber | Contents::AbortSource => within(octets, 1),
        Contents::Identifier => within(octets, 0xff),
        Contents::LocalCode => read_int(octets).is_some(),
        Contents::Null => octets.is_empty(),
    }
}

//! The message of a request: what carries the dialogue portion, and the PDU in it.

pub mod outgoing;
pub mod portions;

use tcap_pdu::{DialoguePdu, TransId};

/// A message without its dialogue portion: the identifiers, and the octets of the components.
#[derive(Drop)]
pub enum MessageParts<'a> {
    /// Unidirectional.
    Uni {
        components: &'a [u8],
    },
    /// Begin of the dialogue with this identifier.
    Begin {
        origin: u32,
        components: &'a [u8],
    },
    /// Continue of the dialogue with this identifier.
    Continue {
        origin: u32,
        peer: &'a TransId,
        components: &'a [u8],
    },
    /// End.
    End {
        peer: &'a TransId,
        components: &'a [u8],
    },
    /// Abort by the user.
    Abort {
        peer: &'a TransId,
    },
    /// Abort by the provider, with a P-Abort cause, 0 to 127; it carries no dialogue portion.
    AbortCause {
        peer: &'a TransId,
        cause: u8,
    },
}

/// The message of a request, with the dialogue PDU that it carries, if any.
#[derive(Drop)]
pub struct Sending<'a> {
    /// The message but for its dialogue portion.
    pub bearer: MessageParts<'a>,
    /// The PDU of its dialogue portion, if it has one.
    pub pdu: Option<DialoguePdu<'a>>,
}

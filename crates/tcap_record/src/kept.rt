//! What a record that was read keeps.

use tcap_address::Address;
use tcap_engine::Event;

/// What a record that was read keeps: an event that names no address, or one that does, with the address
/// itself.
#[derive(Debug, Drop)]
pub(crate) enum Kept<'m> {
    /// Any other event.
    Plain(Event<'m>),
    /// TC-UNI request.
    Uni {
        dialogue: u32,
        to: Address,
        context: Option<&'m [u8]>,
        info: &'m [u8],
    },
    /// TC-BEGIN request.
    Begin {
        dialogue: u32,
        to: Address,
        context: Option<&'m [u8]>,
        info: &'m [u8],
    },
    /// Bytes were received.
    Bytes {
        from: Address,
        bytes: &'m [u8],
    },
}

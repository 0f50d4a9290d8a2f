//! The messages of the peer.

use super::lot::Lot;
pub(super) use crate::engine_steps::{BEGIN, end_to, result_to};

/// A component of eight octets: an Invoke, a Return Error or a Reject.
pub(super) fn component(kind: u32, id: i8) -> [u8; 8] {
    let [id] = id.to_be_bytes();
    match kind {
        0 => [0xa1, 0x06, 0x02, 0x01, id, 0x02, 0x01, 0x0a],
        1 => [0xa3, 0x06, 0x02, 0x01, id, 0x02, 0x01, 0x05],
        _ => [0xa4, 0x06, 0x02, 0x01, id, 0x81, 0x01, 0x02],
    }
}

/// A Continue to a dialogue with a component of eight octets.
pub(super) fn continue_to(dialogue: u32, component: [u8; 8]) -> [u8; 24] {
    let [a, b, c, d] = dialogue.to_be_bytes();
    let [p, q, r, s, t, u, v, w] = component;
    [
        0x65, 0x16, 0x48, 0x04, 0x00, 0x00, 0x00, 0x05, 0x49, 0x04, a, b, c, d, 0x6c, 0x08, p, q,
        r, s, t, u, v, w,
    ]
}

/// A P-Abort to a dialogue, with the cause "unrecognized message type".
pub(super) fn abort_to(dialogue: u32) -> [u8; 11] {
    let [a, b, c, d] = dialogue.to_be_bytes();
    [0x67, 0x09, 0x49, 0x04, a, b, c, d, 0x4a, 0x01, 0x00]
}

/// A Continue with a result, of which one octet is drawn by lot.
pub(super) fn spoiled(lot: &mut Lot, dialogue: u32, id: i8) -> [u8; 21] {
    let mut octets = result_to(dialogue, id);
    let at = lot.below(21) as usize;
    let [.., drawn] = lot.below(256).to_be_bytes();
    if let Some(octet) = octets.get_mut(at) {
        *octet = drawn;
    }
    octets
}

//! What comes of a message on its way, and the addresses of peers.

use crate::lot::Lot;
use std::alloc::Global;
use tcap_engine::Address;

/// What becomes of a message on its way.
#[derive(Clone, Copy)]
pub(crate) enum Way {
    /// It arrives.
    Arrives,
    /// It is lost.
    Lost,
    /// It arrives late: in the place of the next one that is late.
    Late,
    /// It arrives twice.
    Repeated,
    /// It arrives with one octet that is another.
    Damaged,
}

/// What becomes of the next message: one in fifty doesn't simply arrive.
pub(crate) fn draw_way(lot: &mut Lot) -> Way {
    match lot.below(200) {
        0 => Way::Lost,
        1 => Way::Late,
        2 => Way::Repeated,
        3 => Way::Damaged,
        _ => Way::Arrives,
    }
}

/// An address of 7 to 12 octets.
fn address(lot: &mut Lot) -> Address {
    let mut octets = [0u8; 12];
    for octet in &mut octets {
        *octet = lot.octet();
    }
    let len = lot.between(7, 12) as usize;
    match octets.get(..len) {
        Some(octets) => Address::new(octets).unwrap_or(Address::empty()),
        None => Address::empty(),
    }
}

/// So many addresses.
pub(crate) fn addresses(alloc: Global, lot: &mut Lot, count: usize) -> Option<Vec<Address>> {
    let mut all = Vec::with_capacity(alloc, count).ok()?;
    for _ in 0..count {
        all.push(address(lot)).ok()?;
    }
    Some(all)
}

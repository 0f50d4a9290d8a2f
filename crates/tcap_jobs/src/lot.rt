//! What is drawn by lot.

use std::alloc::Global;

/// So many octets are drawn at first; parameters are parts of them.
const OCTETS: u32 = 8_192;

/// A row of numbers that look drawn by lot, the same for the same seed.
#[derive(Drop)]
pub(crate) struct Lot {
    seed: u64,
    octets: Vec<u8>,
}

impl Lot {
    /// The row of a seed.
    pub(crate) fn new(alloc: Global, seed: u32) -> Option<Lot> {
        let mut lot = Lot {
            seed: u64::from(seed).wrapping_mul(0x9e37_79b9_7f4a_7c15),
            octets: Vec::new(alloc),
        };
        for _ in 0..OCTETS {
            let octet = lot.octet();
            lot.octets.push(octet).ok()?;
        }
        Some(lot)
    }

    /// So many octets, at most 256.
    pub(crate) fn octets(&mut self, len: usize) -> Option<&[u8]> {
        let from = self.below(OCTETS - 256) as usize;
        self.octets.get(from..from.saturating_add(len))
    }

    /// Any number of 32 bits.
    pub(crate) fn number(&mut self) -> u32 {
        let mixed = self.seed.wrapping_mul(6_364_136_223_846_793_005);
        self.seed = mixed.wrapping_add(1_442_695_040_888_963_407);
        (self.seed >> 32) as u32
    }

    /// A number below another; 0 where there is none.
    pub(crate) fn below(&mut self, most: u32) -> u32 {
        ((u64::from(self.number()) * u64::from(most)) >> 32) as u32
    }

    /// Whether one case in so many comes.
    pub(crate) fn is_one_in(&mut self, most: u32) -> bool {
        self.below(most) == 0
    }

    /// A number from one to another.
    pub(crate) fn between(&mut self, least: u32, most: u32) -> u32 {
        let more = most.saturating_sub(least).saturating_add(1);
        least.saturating_add(self.below(more))
    }

    /// An index of a list of this length; 0 where it is empty.
    pub(crate) fn index(&mut self, len: usize) -> usize {
        self.below(u32::try_from(len).unwrap_or(u32::MAX)) as usize
    }

    /// An octet.
    pub(crate) fn octet(&mut self) -> u8 {
        let [octet, ..] = self.number().to_be_bytes();
        octet
    }
}

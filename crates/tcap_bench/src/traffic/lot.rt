//! What is drawn by lot.

/// A row of numbers that look drawn by lot, the same for the same seed.
#[derive(Drop)]
pub(super) struct Lot {
    seed: u64,
}

impl Lot {
    /// The row of a seed.
    pub(super) fn new(seed: u64) -> Lot {
        Lot { seed }
    }

    /// A number below another; 0 where there is none.
    pub(super) fn below(&mut self, most: u32) -> u32 {
        let mixed = self.seed.wrapping_mul(6_364_136_223_846_793_005);
        self.seed = mixed.wrapping_add(1_442_695_040_888_963_407);
        (((self.seed >> 32) * most as u64) >> 32) as u32
    }

    /// An invoke identifier: one of three.
    pub(super) fn id(&mut self) -> i8 {
        let [.., id] = self.below(3).to_be_bytes();
        id.cast_signed()
    }
}

//! All that was answered, in one number.

ghost use Rattle.std.specs.Prelude.{◌≡◌};

use std::fmt::{self, Write};
use tcap_engine::Answer;

/// The number: of two rows of answers that differ it is hardly ever the same.
#[derive(Drop)]
pub(super) struct Digest {
    value: u64,
}

impl Digest {
    /// Of no answers.
    pub(super) fn new() -> Digest
        ensures { result.value ≡ 0 }
    {
        Digest { value: 0 }
    }

    /// Adds an answer, by its text with all fields.
    pub(super) fn add(&mut self, answer: &Answer) -> Option<()> {
        write!(self, "{answer:?};").ok()
    }

    /// The number, 0 of no answers.
    pub(super) fn value(&self) -> u64
        ensures { result ≡ self.now.value }
    {
        self.value
    }
}

impl fmt::Write for Digest {
    fn write_str(&mut self, s: &str) -> fmt::Result {
        for octet in s.as_bytes() {
            let mixed = (self.value ^ *octet as u64).wrapping_add(1);
            self.value = mixed.wrapping_mul(0x0100_0000_01b3);
        }
        Ok(())
    }
}

//! Why the program stops.

use ber_core::OutOfMemory;
use tcap_words::WriteFailed;

/// Why the program stops before its input ends: the words on standard error, and status 2.
#[derive(Clone, Copy, Debug, PartialEq, Eq)]
pub enum Refusal {
    /// Memory was refused.
    OutOfMemory,
    /// A line is above 131,584 octets.
    LineTooLong,
    /// A read of standard input failed.
    ReadFailed,
    /// A write to standard output failed.
    WriteFailed,
}

impl Refusal {
    /// The words of the line on standard error.
    pub fn words(self) -> &'static str {
        match self {
            Refusal::OutOfMemory => "out of memory",
            Refusal::LineTooLong => "line too long",
            Refusal::ReadFailed => "read failed",
            Refusal::WriteFailed => "write failed",
        }
    }
}

impl From<OutOfMemory> for Refusal {
    fn from(_refused: OutOfMemory) -> Refusal {
        Refusal::OutOfMemory
    }
}

impl From<WriteFailed> for Refusal {
    fn from(_refused: WriteFailed) -> Refusal {
        Refusal::WriteFailed
    }
}

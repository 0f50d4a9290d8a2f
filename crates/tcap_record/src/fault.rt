//! Why octets are no record, and why an event isn't written as one.

ghost use Rattle.std.specs.Prelude.{◌≡◌};
ghost use Rattle.tcap_record.specs.declared.fault.WriteFault.TheVariants.{OutOfMemory};

use std::alloc::AllocError;
use std::error::Error;
use std::fmt;

/// Where octets are no record (our own).
#[derive(Clone, Copy, Debug, PartialEq, Eq)]
pub struct RecordFault {
    /// How many octets stand before the first that can't stand there; all of them where the octets end within a
    /// record.
    pub place: usize,
}

/// Why an event was not written (our own).
#[derive(Clone, Copy, Debug, PartialEq, Eq)]
pub enum WriteFault {
    /// A part of the event has more than 4,294,967,295 octets.
    TooLong,
    /// Memory was refused.
    OutOfMemory,
}

/// Why a replay stopped (our own).
#[derive(Clone, Copy, Debug, PartialEq, Eq)]
pub enum ReplayFault {
    /// Memory was refused.
    OutOfMemory {
        /// How many events were done before.
        done: usize,
    },
    /// Octets stand in the log that are no record.
    Damaged {
        /// How many events were done before.
        done: usize,
        /// How many octets of the log stand before the first that can't stand there; all of them where the log
        /// ends within a record.
        place: usize,
    },
}

impl From<AllocError> for WriteFault {
    ghost from_gives = { λ _ fault. fault ≡ OutOfMemory };

    fn from(_refused: AllocError) -> WriteFault {
        WriteFault::OutOfMemory
    }
}

impl fmt::Display for RecordFault {
    ghost use Rattle.std.specs.Prelude.{Some};
    ghost use Rattle.tcap_record.specs.FaultText.{record_text};

    ghost output = { λ fault. Some (record_text fault) };

    fn fmt<W: fmt::Write>(&self, f: &mut fmt::Formatter<W>) -> fmt::Result {
        write!(f, "no record: octet {}", self.place)
    }
}

impl Error for RecordFault {}

impl fmt::Display for ReplayFault {
    ghost use Rattle.std.specs.Prelude.{Some};
    ghost use Rattle.tcap_record.specs.FaultText.{replay_text};

    ghost output = { λ fault. Some (replay_text fault) };

    fn fmt<W: fmt::Write>(&self, f: &mut fmt::Formatter<W>) -> fmt::Result {
        match self {
            ReplayFault::OutOfMemory { done } => write!(f, "out of memory after {done} events"),
            ReplayFault::Damaged { done, place } => {
                write!(f, "no record after {done} events: octet {place}")
            }
        }
    }
}

impl Error for ReplayFault {}

impl fmt::Display for WriteFault {
    ghost use Rattle.std.specs.Prelude.{Some};
    ghost use Rattle.tcap_record.specs.FaultText.{write_text};

    ghost output = { λ fault. Some (write_text fault) };

    fn fmt<W: fmt::Write>(&self, f: &mut fmt::Formatter<W>) -> fmt::Result {
        f.write_str(match self {
            WriteFault::TooLong => "too long",
            WriteFault::OutOfMemory => "out of memory",
        })
    }
}

impl Error for WriteFault {}

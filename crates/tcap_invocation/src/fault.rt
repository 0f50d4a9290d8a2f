//! Why an invocation isn't taken into the list.

ghost use Rattle.std.specs.Prelude.{◌≡◌};
ghost use Rattle.tcap_invocation.specs.Fault.{fault_number};
ghost use Rattle.tcap_invocation.specs.declared.fault.AddFault.TheVariants.{OutOfMemory};

use std::alloc::{AllocError, AllocFailed};
use std::error::Error;
use std::fmt;

/// Why an invocation isn't taken into the list; the list is unchanged (our own). Where several hold,
/// the one with the highest number is answered.
#[derive(Clone, Copy, Debug, PartialEq, Eq)]
pub enum AddFault {
    /// Memory was refused.
    OutOfMemory = 1,
    /// The invoke identifier is in the list.
    InUse = 2,
    /// The timeout is 0 or above 2^62 milliseconds.
    BadTimeout = 3,
}

impl AddFault {
    /// Its number, 1 to 3.
    pub fn number(self) -> u8
        ensures { result ≡ fault_number self }
    {
        self as u8
    }
}

impl fmt::Display for AddFault {
    ghost use Rattle.std.specs.Prelude.{Some};
    ghost use Rattle.tcap_invocation.specs.Fault.{fault_text};

    ghost output = { λ fault. Some (fault_text fault) };

    fn fmt<W: fmt::Write>(&self, f: &mut fmt::Formatter<W>) -> fmt::Result {
        f.write_str(match self {
            AddFault::OutOfMemory => "out of memory",
            AddFault::InUse => "the invoke identifier is in use",
            AddFault::BadTimeout => "bad timeout",
        })
    }
}

impl Error for AddFault {}

impl From<AllocError> for AddFault {
    ghost from_gives = { λ _ fault. fault ≡ OutOfMemory };

    fn from(_refused: AllocError) -> AddFault {
        AddFault::OutOfMemory
    }
}

impl<T: Drop> From<AllocFailed<T>> for AddFault {
    ghost from_gives = { λ _ fault. fault ≡ OutOfMemory };

    fn from(_refused: AllocFailed<T>) -> AddFault {
        AddFault::OutOfMemory
    }
}

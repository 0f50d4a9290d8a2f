//! Why a component can't be read, and why one isn't written.

ghost use Rattle.std.specs.Prelude.{◌≡◌};
ghost use Rattle.tcap_component.specs.declared.fault.WriteFault.TheVariants.{OutOfMemory};
ghost use Rattle.tcap_component.specs.Written.{fault_number};

use crate::problem::Problem;
use crate::problem::general_problem::{
    BADLY_STRUCTURED_COMPONENT, MISTYPED_COMPONENT, UNRECOGNIZED_COMPONENT,
};
use std::error::Error;
use std::fmt;

/// Why a component can't be read, as it is told to both users (our own).
#[derive(Clone, Copy, Debug, PartialEq, Eq)]
pub struct ComponentFault {
    /// The problem, a general one.
    pub problem: Problem,
    /// The identifier that the component begins with, if it can be read, -128 to 127.
    pub id: Option<i8>,
    /// Whether the octets begin as a Reject, which is not answered by another one.
    pub was_reject: bool,
}

/// Why a component was not written: BadOid first, then BadParameter, TooLong and OutOfMemory (our own).
#[derive(Clone, Copy, Debug, PartialEq, Eq)]
pub enum WriteFault {
    /// Memory was refused; the component can be written.
    OutOfMemory = 1,
    /// A parameter is not one element and nothing after it.
    BadParameter = 2,
    /// A global code is not an object identifier.
    BadOid = 3,
    /// The component would be longer than 65,535 bytes.
    TooLong = 4,
}

impl fmt::Display for ComponentFault {
    ghost use Rattle.std.specs.Prelude.{Some};
    ghost use Rattle.tcap_component.specs.FaultText.{fault_text};

    ghost output = { λ fault. Some (fault_text fault) };

    fn fmt<W: fmt::Write>(&self, f: &mut fmt::Formatter<W>) -> fmt::Result {
        f.write_str(match self.problem.code() {
            UNRECOGNIZED_COMPONENT => "unrecognized component",
            MISTYPED_COMPONENT => "mistyped component",
            BADLY_STRUCTURED_COMPONENT => "badly structured component",
            _ => "faulty component",
        })
    }
}

impl Error for ComponentFault {}

impl WriteFault {
    /// Its number, 1 to 4.
    pub fn number(self) -> u8
        ensures { result ≡ fault_number self }
    {
        self as u8
    }
}

impl fmt::Display for WriteFault {
    ghost use Rattle.std.specs.Prelude.{Some};
    ghost use Rattle.tcap_component.specs.FaultText.{write_text};

    ghost output = { λ fault. Some (write_text fault) };

    fn fmt<W: fmt::Write>(&self, f: &mut fmt::Formatter<W>) -> fmt::Result {
        f.write_str(match self {
            WriteFault::OutOfMemory => "out of memory",
            WriteFault::BadParameter => "bad parameter",
            WriteFault::BadOid => "bad object identifier",
            WriteFault::TooLong => "too long",
        })
    }
}

impl Error for WriteFault {}

impl From<ber_core::OutOfMemory> for WriteFault {
    ghost from_gives = { λ _ fault. fault ≡ OutOfMemory };

    fn from(_refused: ber_core::OutOfMemory) -> WriteFault {
        WriteFault::OutOfMemory
    }
}

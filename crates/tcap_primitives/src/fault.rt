//! Why a request is refused.

ghost use Rattle.std.specs.Prelude.{◌≡◌};
ghost use Rattle.tcap_primitives.specs.FaultViews.{fault_view};
ghost use Rattle.tcap_primitives.specs.declared.fault.Fault.TheVariants.{OutOfMemory as NoMemory};
ghost use Rattle.tcap_model.specs.Words.Fault.{fault_number};

use ber_core::OutOfMemory;
use std::alloc::AllocError;
use std::error::Error;
use std::fmt;

/// Why a request is refused; nothing has changed then. Of several that hold, the first in the order of
/// the request is answered (our own).
#[derive(Clone, Copy, Debug, PartialEq, Eq)]
pub enum Fault {
    /// Memory was refused.
    OutOfMemory = 1,
    /// No dialogue with the identifier stands.
    UnknownDialogue = 2,
    /// The state of the dialogue doesn't have the request.
    WrongState = 3,
    /// The invoke identifier is in use.
    InvokeIdInUse = 4,
    /// No invocation with the invoke identifier is Queued or Sent.
    NoSuchInvocation = 5,
    /// The timeout is 0 or above 2^62 milliseconds.
    BadTimeout = 6,
    /// The queue would hold more than 60,000 bytes, or the message would be above 65,535.
    TooLong = 7,
    /// As many dialogues stand as may.
    DialoguesFull = 8,
    /// No dialogue identifier is left.
    DialogueIdsSpent = 9,
    /// No invocation number is left.
    NumbersSpent = 10,
    /// A context or a global code is no object identifier.
    BadOid = 11,
    /// A parameter isn't one element, or user information isn't a list of EXTERNALs.
    BadParameter = 12,
    /// The Unidirectional would carry nothing, or an Invoke of another class than 4.
    NotClassFour = 13,
    /// The moment is above 2^62 milliseconds.
    MomentTooLate = 14,
    /// No message is sent, or the message has no dialogue portion, for the context or the information.
    NoContext = 15,
}

impl Fault {
    /// Its number, 1 to 15.
    pub fn number(self) -> u8
        ensures { result ≡ fault_number (fault_view self) }
    {
        self as u8
    }
}

impl fmt::Display for Fault {
    ghost use Rattle.std.specs.Prelude.{Some};
    ghost use Rattle.tcap_primitives.specs.FaultText.{fault_text};

    ghost output = { λ fault. Some (fault_text fault) };

    fn fmt<W: fmt::Write>(&self, f: &mut fmt::Formatter<W>) -> fmt::Result {
        f.write_str(match self {
            Fault::OutOfMemory => "out of memory",
            Fault::UnknownDialogue => "unknown dialogue",
            Fault::WrongState => "the state of the dialogue doesn't have the request",
            Fault::InvokeIdInUse => "the invoke identifier is in use",
            Fault::NoSuchInvocation => "no such invocation",
            Fault::BadTimeout => "bad timeout",
            Fault::TooLong => "too long",
            Fault::DialoguesFull => "as many dialogues stand as may",
            Fault::DialogueIdsSpent => "no dialogue identifier is left",
            Fault::NumbersSpent => "no invocation number is left",
            Fault::BadOid => "not an object identifier",
            Fault::BadParameter => "bad parameter",
            Fault::NotClassFour => "not of class 4 alone",
            Fault::MomentTooLate => "the moment is too late",
            Fault::NoContext => "no context",
        })
    }
}

impl Error for Fault {}

impl From<OutOfMemory> for Fault {
    ghost from_gives = { λ _ fault. fault ≡ NoMemory };

    fn from(_refused: OutOfMemory) -> Fault {
        Fault::OutOfMemory
    }
}

impl From<AllocError> for Fault {
    ghost from_gives = { λ _ fault. fault ≡ NoMemory };

    fn from(_refused: AllocError) -> Fault {
        Fault::OutOfMemory
    }
}

//! Why bytes are no message or no dialogue portion, and why one isn't written.

ghost use Rattle.std.specs.Prelude.{◌≡◌};

use crate::tag::{
    BADLY_FORMATTED_TRANSACTION_PORTION, INCORRECT_TRANSACTION_PORTION, UNRECOGNIZED_MESSAGE_TYPE,
};
use ber_core::OutOfMemory;
use std::error::Error;
use std::fmt;

/// Why bytes are no message, by the P-Abort cause that answers it (Q.773, P-Abort cause).
#[derive(Clone, Copy, Debug, PartialEq, Eq)]
pub enum FrameFault {
    /// One element, but its tag is no message type's: cause 0.
    Unknown = 1,
    /// Not one element and nothing after it, or its contents are no list of elements: cause 2.
    BadlyFormatted = 2,
    /// The contents are not the listed sequence of the message type: cause 3.
    Incorrect = 3,
}

// The numbers of the faults.
const _: () = prove!(FrameFault::Unknown as u8 == 1);

const _: () = prove!(FrameFault::BadlyFormatted as u8 == 2);

const _: () = prove!(FrameFault::Incorrect as u8 == 3);

impl FrameFault {
    ghost use Rattle.tcap_pdu.specs.FrameFaults.{cause_of};

    /// The P-Abort cause that answers the fault: 0, 2 or 3 (Q.773, P-Abort cause).
    pub fn cause(self) -> u8
        ensures { result ≡ cause_of self }
    {
        match self {
            FrameFault::Unknown => UNRECOGNIZED_MESSAGE_TYPE,
            FrameFault::BadlyFormatted => BADLY_FORMATTED_TRANSACTION_PORTION,
            FrameFault::Incorrect => INCORRECT_TRANSACTION_PORTION,
        }
    }
}

impl fmt::Display for FrameFault {
    ghost use Rattle.std.specs.Prelude.{Some};
    ghost use Rattle.tcap_pdu.specs.FaultText.{frame_fault_text};

    ghost output = { λ fault. Some (frame_fault_text fault) };

    fn fmt<W: fmt::Write>(&self, f: &mut fmt::Formatter<W>) -> fmt::Result {
        f.write_str(match self {
            FrameFault::Unknown => "unknown message type",
            FrameFault::BadlyFormatted => "badly formatted message",
            FrameFault::Incorrect => "incorrect message",
        })
    }
}

impl Error for FrameFault {}

/// Why the contents of a dialogue portion are not read (our own).
#[derive(Clone, Copy, Debug, PartialEq, Eq)]
pub enum DialogueFault {
    /// No dialogue PDU is spelled by the bytes.
    Faulty = 1,
}

// The numbers of the faults.
const _: () = prove!(DialogueFault::Faulty as u8 == 1);

impl fmt::Display for DialogueFault {
    ghost use Rattle.std.specs.Prelude.{Some};
    ghost use Rattle.tcap_pdu.specs.FaultText.{dialogue_fault_text};

    ghost output = { λ fault. Some (dialogue_fault_text fault) };

    fn fmt<W: fmt::Write>(&self, f: &mut fmt::Formatter<W>) -> fmt::Result {
        f.write_str(match self {
            DialogueFault::Faulty => "no dialogue PDU",
        })
    }
}

impl Error for DialogueFault {}

/// Why a message or a dialogue portion is not written (our own). Of several the first in the order
/// BadOid, BadInfo, TooLong, OutOfMemory is answered.
#[derive(Clone, Copy, Debug, PartialEq, Eq)]
pub enum PduFault {
    /// Memory was refused.
    OutOfMemory = 1,
    /// More than 65,535 bytes.
    TooLong = 2,
    /// The application context name is no object identifier.
    BadOid = 3,
    /// The user information is no list of EXTERNALs, or a foreign portion is not one.
    BadInfo = 4,
}

// The numbers of the faults.
const _: () = prove!(PduFault::OutOfMemory as u8 == 1);

const _: () = prove!(PduFault::TooLong as u8 == 2);

const _: () = prove!(PduFault::BadOid as u8 == 3);

const _: () = prove!(PduFault::BadInfo as u8 == 4);

impl From<OutOfMemory> for PduFault {
    ghost use Rattle.std.specs.Prelude.{◌≡◌};
    ghost use Rattle.tcap_pdu.specs.declared.fault.PduFault.TheVariants as fault;

    ghost from_gives = { λ _ result. result ≡ fault.OutOfMemory };

    fn from(_error: OutOfMemory) -> PduFault {
        Self::OutOfMemory
    }
}

impl fmt::Display for PduFault {
    ghost use Rattle.std.specs.Prelude.{Some};
    ghost use Rattle.tcap_pdu.specs.FaultText.{pdu_fault_text};

    ghost output = { λ fault. Some (pdu_fault_text fault) };

    fn fmt<W: fmt::Write>(&self, f: &mut fmt::Formatter<W>) -> fmt::Result {
        f.write_str(match self {
            PduFault::OutOfMemory => "out of memory",
            PduFault::TooLong => "too long",
            PduFault::BadOid => "bad object identifier",
            PduFault::BadInfo => "bad user information",
        })
    }
}

impl Error for PduFault {}

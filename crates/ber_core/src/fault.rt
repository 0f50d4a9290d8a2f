//! Why no element could be read, why a feed gives no messages, and that memory was refused.

ghost use Rattle.std.specs.Prelude.{◌≡◌};

use std::alloc::AllocError;
use std::error::Error;
use std::fmt;

/// Why no element could be read: the first fault from left to right (X.690, Structure of an encoding;
/// the numbers are our own).
#[derive(Clone, Copy, Debug, PartialEq, Eq)]
pub enum BerFault {
    /// The input ends before the element is whole, and before any other fault.
    Short = 1,
    /// An octet that no tag has in its place, or half an end of an indefinite element.
    BadTag = 2,
    /// The reserved length octet FF, or a length above 65,535.
    BadLength = 3,
    /// Length 80, the indefinite form, behind a primitive tag.
    IndefinitePrimitive = 4,
    /// A 33rd indefinite element would be open.
    TooDeep = 5,
}

// The numbers of the faults.
const _: () = prove!(BerFault::Short as u8 == 1);

const _: () = prove!(BerFault::BadTag as u8 == 2);

const _: () = prove!(BerFault::BadLength as u8 == 3);

const _: () = prove!(BerFault::IndefinitePrimitive as u8 == 4);

const _: () = prove!(BerFault::TooDeep as u8 == 5);

impl fmt::Display for BerFault {
    ghost use Rattle.std.specs.Prelude.{Some};
    ghost use Rattle.ber_core.specs.FaultText.{fault_text};

    ghost output = { λ fault. Some (fault_text fault) };

    fn fmt<W: fmt::Write>(&self, f: &mut fmt::Formatter<W>) -> fmt::Result {
        f.write_str(match self {
            BerFault::Short => "the input ends too early",
            BerFault::BadTag => "bad tag",
            BerFault::BadLength => "bad length",
            BerFault::IndefinitePrimitive => "indefinite length behind a primitive tag",
            BerFault::TooDeep => "too many indefinite elements are open",
        })
    }
}

impl Error for BerFault {}

/// Memory was refused: the call changed nothing (our own).
#[derive(Clone, Copy, Debug, PartialEq, Eq)]
pub struct OutOfMemory;

impl From<AllocError> for OutOfMemory {
    fn from(_error: AllocError) -> OutOfMemory {
        OutOfMemory
    }
}

impl fmt::Display for OutOfMemory {
    ghost use Rattle.std.specs.Prelude.{Some, codes};

    ghost output = { λ _. Some (codes "out of memory") };

    fn fmt<W: fmt::Write>(&self, f: &mut fmt::Formatter<W>) -> fmt::Result {
        f.write_str("out of memory")
    }
}

impl Error for OutOfMemory {}

/// Why a feed gives no messages (our own).
#[derive(Clone, Copy, Debug, PartialEq, Eq)]
pub enum FeedFault {
    /// Memory was refused: the feed has taken nothing of the piece.
    OutOfMemory,
    /// No element can follow the messages before, for this reason; it is never `Short`.
    Ber(BerFault),
    /// An element would be longer than 65,535 octets.
    TooLong,
}

impl FeedFault {
    ghost use Rattle.ber_core.specs.FaultText.{feed_fault_number};

    /// Its number, 1 to 3.
    pub fn number(self) -> u8
        ensures { result ≡ feed_fault_number self }
    {
        match self {
            FeedFault::OutOfMemory => 1,
            FeedFault::Ber(_) => 2,
            FeedFault::TooLong => 3,
        }
    }
}

impl From<BerFault> for FeedFault {
    ghost use Rattle.ber_core.specs.declared.fault.FeedFault.TheVariants.{Ber};

    ghost from_gives = { λ why fault. fault ≡ Ber why };

    fn from(why: BerFault) -> FeedFault {
        FeedFault::Ber(why)
    }
}

impl From<OutOfMemory> for FeedFault {
    ghost use Rattle.ber_core.specs.declared.fault.FeedFault.TheVariants as feed_fault;

    ghost from_gives = { λ _ fault. fault ≡ feed_fault.OutOfMemory };

    fn from(_refused: OutOfMemory) -> FeedFault {
        FeedFault::OutOfMemory
    }
}

impl fmt::Display for FeedFault {
    ghost use Rattle.std.specs.Prelude.{Some};
    ghost use Rattle.ber_core.specs.FaultText.{feed_fault_text};

    ghost output = { λ fault. Some (feed_fault_text fault) };

    fn fmt<W: fmt::Write>(&self, f: &mut fmt::Formatter<W>) -> fmt::Result {
        match self {
            FeedFault::OutOfMemory => f.write_str("out of memory"),
            FeedFault::Ber(why) => why.fmt(f),
            FeedFault::TooLong => f.write_str("the element is too long"),
        }
    }
}

impl Error for FeedFault {}

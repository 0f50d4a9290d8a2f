//! Why a run over a reader and a writer came to no verdict.

use ber_core::OutOfMemory;
use std::alloc::AllocError;
use tcap_words::WriteFailed;
use thiserror::Error;

/// Why a run over a reader and a writer came to no verdict (our own).
#[derive(Clone, Copy, Debug, PartialEq, Eq, Error)]
pub enum PlayFault {
    /// Memory was refused.
    #[error("out of memory")]
    OutOfMemory = 1,
    /// A read failed, or was interrupted.
    #[error("read failed")]
    Read = 2,
    /// A write failed, and some of the text was not written.
    #[error("write failed")]
    Write = 3,
    /// A script has more than 1,048,576 octets, or 1,000,000 reads did not find the end of the input.
    #[error("input too long")]
    TooLong = 4,
}

// The numbers of the faults.
const _: () = prove!(PlayFault::OutOfMemory as u8 == 1);

const _: () = prove!(PlayFault::Read as u8 == 2);

const _: () = prove!(PlayFault::Write as u8 == 3);

const _: () = prove!(PlayFault::TooLong as u8 == 4);

impl From<AllocError> for PlayFault {
    ghost use Rattle.std.specs.Prelude.{◌≡◌};
    ghost use Rattle.tcap_text.specs.declared.fault.PlayFault.TheVariants as fault;

    ghost from_gives = { λ _ r. r ≡ fault.OutOfMemory };

    fn from(_error: AllocError) -> PlayFault {
        PlayFault::OutOfMemory
    }
}

impl From<OutOfMemory> for PlayFault {
    ghost use Rattle.std.specs.Prelude.{◌≡◌};
    ghost use Rattle.tcap_text.specs.declared.fault.PlayFault.TheVariants as fault;

    ghost from_gives = { λ _ r. r ≡ fault.OutOfMemory };

    fn from(_error: OutOfMemory) -> PlayFault {
        PlayFault::OutOfMemory
    }
}

impl From<WriteFailed> for PlayFault {
    ghost use Rattle.std.specs.Prelude.{◌≡◌};
    ghost use Rattle.tcap_text.specs.declared.fault.PlayFault.TheVariants as fault;

    ghost from_gives = { λ _ r. r ≡ fault.Write };

    fn from(_error: WriteFailed) -> PlayFault {
        PlayFault::Write
    }
}

//! Why a run came to no end.

use ber_core::OutOfMemory;
use std::alloc::AllocError;
use tcap_words::WriteFailed;
use thiserror::Error;

/// Why a run over a reader and a writer came to no end (our own).
#[derive(Clone, Copy, Debug, PartialEq, Eq, Error)]
pub enum JudgingFault {
    /// Memory was refused.
    #[error("out of memory")]
    OutOfMemory,
    /// A read failed, or was interrupted.
    #[error("read failed")]
    Read,
    /// A write failed, and some of the text was not written.
    #[error("write failed")]
    Write,
    /// 1,099,511,627,776 reads did not find the end of the input.
    #[error("input too long")]
    TooLong,
}

impl From<AllocError> for JudgingFault {
    ghost use Rattle.std.specs.Prelude.{◌≡◌};
    ghost use Rattle.tcap_judging.specs.declared.fault.JudgingFault.TheVariants as fault;

    ghost from_gives = { λ _ r. r ≡ fault.OutOfMemory };

    fn from(_error: AllocError) -> JudgingFault {
        JudgingFault::OutOfMemory
    }
}

impl From<OutOfMemory> for JudgingFault {
    ghost use Rattle.std.specs.Prelude.{◌≡◌};
    ghost use Rattle.tcap_judging.specs.declared.fault.JudgingFault.TheVariants as fault;

    ghost from_gives = { λ _ r. r ≡ fault.OutOfMemory };

    fn from(_error: OutOfMemory) -> JudgingFault {
        JudgingFault::OutOfMemory
    }
}

impl From<WriteFailed> for JudgingFault {
    ghost use Rattle.std.specs.Prelude.{◌≡◌};
    ghost use Rattle.tcap_judging.specs.declared.fault.JudgingFault.TheVariants as fault;

    ghost from_gives = { λ _ r. r ≡ fault.Write };

    fn from(_error: WriteFailed) -> JudgingFault {
        JudgingFault::Write
    }
}

//! Why a run of the command came to no verdict.

use tcap_text::{PlayFault, WriteFailed};

/// Why a run of the command came to no verdict: the line on standard error, and status 2.
#[derive(Clone, Copy, Debug, PartialEq, Eq)]
pub enum Refusal {
    /// The words ask for nothing.
    BadCommand,
    /// Memory was refused.
    OutOfMemory,
    /// A write to standard output failed.
    WriteFailed,
    /// A read of standard input failed.
    ReadFailed,
    /// A line is longer than it may be.
    LineTooLong,
}

impl Refusal {
    ghost use Rattle.std.specs.Prelude.{◌≡◌};
    ghost use Rattle.tcap_live_cmd.specs.Refusal.{refusal_words};

    /// The words of the line on standard error.
    pub fn words(self) -> &'static str
        ensures { result.now ≡ refusal_words self }
    {
        match self {
            Refusal::BadCommand => "bad command; --help tells the options",
            Refusal::OutOfMemory => "out of memory",
            Refusal::WriteFailed => "write failed",
            Refusal::ReadFailed => "read failed",
            Refusal::LineTooLong => "line too long",
        }
    }
}

impl From<WriteFailed> for Refusal {
    ghost use Rattle.std.specs.Prelude.{◌≡◌};
    ghost use Rattle.tcap_live_cmd.specs.declared.refusal.Refusal.TheVariants as refusal;

    ghost from_gives = { λ _ r. r ≡ refusal.WriteFailed };

    fn from(_error: WriteFailed) -> Refusal {
        Refusal::WriteFailed
    }
}

impl From<PlayFault> for Refusal {
    ghost use Rattle.std.specs.Prelude.{◌≡◌};
    ghost use Rattle.tcap_live_cmd.specs.Refusal.{refusal_of};

    ghost from_gives = { λ fault r. r ≡ refusal_of fault };

    fn from(fault: PlayFault) -> Refusal {
        match fault {
            PlayFault::OutOfMemory => Refusal::OutOfMemory,
            PlayFault::Read => Refusal::ReadFailed,
            PlayFault::Write => Refusal::WriteFailed,
            PlayFault::TooLong => Refusal::LineTooLong,
        }
    }
}

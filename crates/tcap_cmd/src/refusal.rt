//! Why a run of the command came to no verdict.

use ber_core::OutOfMemory;
use tcap_play::PlayFault;
use tcap_text::WriteFailed;

/// Why a run of the command came to no verdict: the line on standard error, and status 2.
#[derive(Clone, Copy, Debug, PartialEq, Eq)]
pub enum Refusal {
    /// The words ask for nothing.
    BadCommand,
    /// HEX is no hexadecimal.
    BadHex,
    /// Memory was refused.
    OutOfMemory,
    /// A write to standard output failed.
    WriteFailed,
    /// A read of standard input failed.
    ReadFailed,
    /// Standard input is too long for a script, or its end wasn't found.
    InputTooLong,
}

impl Refusal {
    ghost use Rattle.std.specs.Prelude.{◌≡◌};
    ghost use Rattle.tcap_cmd.specs.Refusal.{refusal_words};

    /// The words of the line on standard error.
    pub fn words(self) -> &'static str
        ensures { result.now ≡ refusal_words self }
    {
        match self {
            Refusal::BadCommand => "bad command",
            Refusal::BadHex => "bad hex",
            Refusal::OutOfMemory => "out of memory",
            Refusal::WriteFailed => "write failed",
            Refusal::ReadFailed => "read failed",
            Refusal::InputTooLong => "input too long",
        }
    }
}

impl From<OutOfMemory> for Refusal {
    ghost use Rattle.std.specs.Prelude.{◌≡◌};
    ghost use Rattle.tcap_cmd.specs.declared.refusal.Refusal.TheVariants as refusal;

    ghost from_gives = { λ _ r. r ≡ refusal.OutOfMemory };

    fn from(_error: OutOfMemory) -> Refusal {
        Refusal::OutOfMemory
    }
}

impl From<WriteFailed> for Refusal {
    ghost use Rattle.std.specs.Prelude.{◌≡◌};
    ghost use Rattle.tcap_cmd.specs.declared.refusal.Refusal.TheVariants as refusal;

    ghost from_gives = { λ _ r. r ≡ refusal.WriteFailed };

    fn from(_error: WriteFailed) -> Refusal {
        Refusal::WriteFailed
    }
}

impl From<PlayFault> for Refusal {
    ghost use Rattle.std.specs.Prelude.{◌≡◌};
    ghost use Rattle.tcap_cmd.specs.Refusal.{refusal_of};

    ghost from_gives = { λ fault r. r ≡ refusal_of fault };

    fn from(fault: PlayFault) -> Refusal {
        match fault {
            PlayFault::OutOfMemory => Refusal::OutOfMemory,
            PlayFault::Read => Refusal::ReadFailed,
            PlayFault::Write => Refusal::WriteFailed,
            PlayFault::TooLong => Refusal::InputTooLong,
        }
    }
}

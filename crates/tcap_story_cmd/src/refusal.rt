//! Why a run of the program came to no verdict.

use ber_core::OutOfMemory;
use tcap_text::WriteFailed;

/// Why a run of the program came to no verdict: the line on standard error, and status 2.
#[derive(Clone, Copy, Debug, PartialEq, Eq)]
pub enum Refusal {
    /// The words ask for nothing.
    BadCommand,
    /// Memory was refused: nothing was written.
    OutOfMemory,
    /// A write failed, and some of the text was not written.
    WriteFailed,
}

impl Refusal {
    ghost use Rattle.std.specs.Prelude.{◌≡◌};
    ghost use Rattle.tcap_story_cmd.specs.Command.{refusal_words};

    /// The words of the line on standard error.
    pub fn words(self) -> &'static str
        ensures { result.now ≡ refusal_words self }
    {
        match self {
            Refusal::BadCommand => "bad command; --help tells the options",
            Refusal::OutOfMemory => "out of memory",
            Refusal::WriteFailed => "write failed",
        }
    }
}

impl From<OutOfMemory> for Refusal {
    ghost use Rattle.std.specs.Prelude.{◌≡◌};
    ghost use Rattle.tcap_story_cmd.specs.declared.refusal.Refusal.TheVariants as refusal;

    ghost from_gives = { λ _ r. r ≡ refusal.OutOfMemory };

    fn from(_error: OutOfMemory) -> Refusal {
        Refusal::OutOfMemory
    }
}

impl From<WriteFailed> for Refusal {
    ghost use Rattle.std.specs.Prelude.{◌≡◌};
    ghost use Rattle.tcap_story_cmd.specs.declared.refusal.Refusal.TheVariants as refusal;

    ghost from_gives = { λ _ r. r ≡ refusal.WriteFailed };

    fn from(_error: WriteFailed) -> Refusal {
        Refusal::WriteFailed
    }
}

//! Why a run of the command came to no verdict.

use crate::fault::JudgingFault;
use crate::name_list::NamesFault;
use ber_core::OutOfMemory;
use tcap_words::WriteFailed;

/// Why a run of the command came to no verdict: the line on standard error, and status 2.
#[derive(Clone, Copy, Debug, PartialEq, Eq)]
pub enum Refusal {
    /// The words are none of the command's.
    BadCommand,
    /// The list of names can't be opened or read.
    NoNames,
    /// The first line of the list of names that is neither a name nor a comment nor blank, by its number from 1 on.
    BadNames(u64),
    /// Memory was refused, a read or a write failed, or the input is too long.
    Fault(JudgingFault),
}

impl Refusal {
    ghost use Rattle.std.specs.Prelude.{◌≡◌};
    ghost use Rattle.tcap_judging.specs.Refusal.{refusal_line, refusal_words};

    /// The words of the line on standard error.
    pub fn words(self) -> &'static str
        ensures { result.now ≡ refusal_words self }
    {
        match self {
            Refusal::BadCommand => "bad command, --help lists the options",
            Refusal::NoNames => "the list of names can't be read",
            Refusal::BadNames(_) => "the list of names has a bad line",
            Refusal::Fault(JudgingFault::OutOfMemory) => "out of memory",
            Refusal::Fault(JudgingFault::Read) => "read failed",
            Refusal::Fault(JudgingFault::Write) => "write failed",
            Refusal::Fault(JudgingFault::TooLong) => "input too long",
        }
    }

    /// The number of a line that stands behind these words, if one does.
    pub fn line(self) -> Option<u64>
        ensures { result ≡ refusal_line self }
    {
        match self {
            Refusal::BadNames(number) => Some(number),
            Refusal::BadCommand | Refusal::NoNames | Refusal::Fault(_) => None,
        }
    }
}

impl From<OutOfMemory> for Refusal {
    ghost use Rattle.std.specs.Prelude.{◌≡◌};
    ghost use Rattle.tcap_judging.specs.declared.refusal.Refusal.TheVariants as refusal;
    ghost use Rattle.tcap_judging.specs.declared.fault.JudgingFault.TheVariants as fault;

    ghost from_gives = { λ _ r. r ≡ refusal.Fault fault.OutOfMemory };

    fn from(_error: OutOfMemory) -> Refusal {
        Refusal::Fault(JudgingFault::OutOfMemory)
    }
}

impl From<WriteFailed> for Refusal {
    ghost use Rattle.std.specs.Prelude.{◌≡◌};
    ghost use Rattle.tcap_judging.specs.declared.refusal.Refusal.TheVariants as refusal;
    ghost use Rattle.tcap_judging.specs.declared.fault.JudgingFault.TheVariants as fault;

    ghost from_gives = { λ _ r. r ≡ refusal.Fault fault.Write };

    fn from(_error: WriteFailed) -> Refusal {
        Refusal::Fault(JudgingFault::Write)
    }
}

impl From<JudgingFault> for Refusal {
    ghost use Rattle.std.specs.Prelude.{◌≡◌};
    ghost use Rattle.tcap_judging.specs.declared.refusal.Refusal.TheVariants as refusal;

    ghost from_gives = { λ fault r. r ≡ refusal.Fault fault };

    fn from(fault: JudgingFault) -> Refusal {
        Refusal::Fault(fault)
    }
}

impl From<NamesFault> for Refusal {
    ghost use Rattle.std.specs.Prelude.{◌≡◌};
    ghost use Rattle.tcap_judging.specs.Refusal.{names_refusal};

    ghost from_gives = { λ fault r. r ≡ names_refusal fault };

    fn from(fault: NamesFault) -> Refusal {
        match fault {
            NamesFault::OutOfMemory => Refusal::Fault(JudgingFault::OutOfMemory),
            NamesFault::BadLine(number) => Refusal::BadNames(number),
        }
    }
}

//! Causes, problems, diagnostics and identifiers as numbers.

ghost use Rattle.std.specs.Prelude.{◌≡◌};
ghost use Rattle.tcap_component.specs.Views.{problem_parts};
ghost use Rattle.tcap_pdu.specs.DialogueViews.{source};
ghost use Rattle.tcap_primitives.specs.OutputViews.{cause_view, drop_view};
ghost use Rattle.tcap_c.specs.Numbers.{cause_number, diagnostic_number, drop_number, id_number, problem_number};

use crate::output_numbers::NO_ID;
use tcap_component::{Kind, Problem};
use tcap_pdu::Diagnostic;
use tcap_primitives::{DropWhy, Why};

/// The number of a problem.
pub(crate) fn problem_number(problem: Problem) -> u16
    ensures { result ≡ problem_number (problem_parts problem) }
{
    let code = u16::from(problem.code());
    match problem.kind() {
        Kind::General => code,
        Kind::Invoke => 256 + code,
        Kind::Result => 512 + code,
        Kind::Error => 768 + code,
    }
}

/// The number of a cause.
pub(crate) fn cause_number(why: Why) -> u16
    ensures { result ≡ cause_number (cause_view why) }
{
    match why {
        Why::Cause(number) => u16::from(number),
        Why::Abnormal => 256,
        Why::NoCommon => 257,
        Why::Idle => 258,
    }
}

/// Why a message is dropped, as a number.
pub(crate) fn drop_number(why: DropWhy) -> u16
    ensures { result ≡ drop_number (drop_view why) }
{
    match why {
        DropWhy::TooLong => 0,
        DropWhy::BadMessage => 1,
        DropWhy::NoDialogue => 2,
        DropWhy::BadDialogue => 3,
    }
}

/// The number of a diagnostic.
pub(crate) fn diagnostic_number(diagnostic: Diagnostic) -> u16
    ensures { result ≡ diagnostic_number (source diagnostic) }
{
    match diagnostic {
        Diagnostic::User(number) => u16::from(number),
        Diagnostic::Provider(number) => 256 + u16::from(number),
    }
}

/// An identifier, or none.
pub(crate) fn id_number(id: Option<i8>) -> i16
    ensures { result ≡ id_number id }
{
    match id {
        Some(id) => i16::from(id),
        None => NO_ID,
    }
}

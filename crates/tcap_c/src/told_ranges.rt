//! The numbers of an output are those that its types hold. Each function does nothing; its clause is what a caller
//! learns.

ghost use Rattle.std.specs.Prelude.{◌<◌};
ghost use Rattle.std.specs.Option.{option_map};
ghost use Rattle.tcap_component.specs.Views.{problem_parts};
ghost use Rattle.tcap_pdu.specs.DialogueViews.{source};
ghost use Rattle.tcap_primitives.specs.OutboxReading.{output_read, pdu_read};
ghost use Rattle.tcap_primitives.specs.OutputViews.{cause_view};
ghost use Rattle.tcap_c.specs.Shows.{IsCause, IsCoded, IsDiagnostic, IsIdIfAny, IsPdu, IsTold};

use tcap_component::Problem;
use tcap_pdu::Diagnostic;
use tcap_primitives::Why;
use tcap_primitives::kept::{PduRecord, Record};

/// An octet is below 256.
fn octet(number: u8)
    ensures { number < 256 }
{}

/// An invoke identifier is -128 to 127, where there is one.
fn id_if_any(id: Option<i8>)
    ensures { IsIdIfAny id }
{
    if let Some(_id) = id {}
}

/// The code of a problem is one octet.
fn problem(given: Problem)
    ensures { IsCoded (problem_parts given) }
{
    octet(given.code());
}

/// A cause is one octet.
fn cause(why: Why)
    ensures { IsCause (cause_view why) }
{
    if let Why::Cause(number) = why {
        octet(number);
    }
}

/// A diagnostic is one octet.
fn diagnostic(given: Diagnostic)
    ensures { IsDiagnostic (source given) }
{
    match given {
        Diagnostic::User(number) => octet(number),
        Diagnostic::Provider(number) => octet(number),
    }
}

/// That of a dialogue PDU, if there is one, is one octet.
fn pdu(octets: &[u8], given: Option<PduRecord>)
    ensures { IsPdu (option_map (pdu_read octets.now) given) }
{
    if let Some(
        PduRecord::Aare {
            diagnostic: given,
            ..
        },
    ) = given
    {
        diagnostic(given);
    }
}

/// The numbers of an output.
pub(crate) fn output(octets: &[u8], told: &Record)
    ensures { IsTold (output_read octets.now told.now) }
{
    match *told {
        Record::UAbort { pdu: given, .. } => pdu(octets, given),
        Record::PAbort { why, .. } => cause(why),
        Record::Invoked { linked, .. } => id_if_any(linked),
        Record::LocalReject {
            id,
            problem: given,
            ..
        } => {
            id_if_any(id);
            problem(given);
        }
        Record::RemoteReject {
            id,
            problem: given,
            ..
        } => {
            id_if_any(id);
            problem(given);
        }
        Record::Rejected { problem: given, .. } => problem(given),
        Record::Send { .. }
        | Record::Uni { .. }
        | Record::Begin { .. }
        | Record::Continue { .. }
        | Record::End { .. }
        | Record::ResultMore { .. }
        | Record::ResultLast { .. }
        | Record::ErrorBack { .. }
        | Record::Lapsed { .. }
        | Record::Ended { .. }
        | Record::Dropped(_) => {}
    }
}

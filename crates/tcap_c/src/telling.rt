//! An output as numbers in a struct and octets in a room, kind by kind.

ghost use Rattle.std.specs.Prelude.{◌≡◌};
ghost use Rattle.tcap_primitives.specs.OutboxReading.{body_read, context_read, info_read, output_read};
ghost use Rattle.tcap_primitives.specs.OutboxSpans.{BodyFits, PortionFits, RecordFits};
ghost use Rattle.tcap_c.specs.Laying.{IsLaid, IsOutputLaid};
ghost use Rattle.tcap_c.specs.Numbers.{bare, closing_of, with_code, with_context, with_parameter};
ghost use Rattle.tcap_c.specs.Parts.{coded_parts, octets_if_any, portion_parts};

use crate::laying::{lay_alone, lay_body, lay_coded, lay_pdu, lay_portion, lay_sent};
use crate::numbering::{cause_number, drop_number};
use crate::output_kind::OutputKind;
use crate::output_numbers::OutputNumbers;
use tcap_primitives::kept::{
    BodyRecord, PortionRecord, Record, abort_of, body_of, code_of, optional_part, part,
};

/// The numbers of an output of this kind that closes an invocation.
#[inline(always)]
fn closing(kind: OutputKind, dialogue: u32, number: u64, id: i8) -> OutputNumbers
    ensures { result ≡ closing_of dialogue number id (bare kind) }
{
    OutputNumbers::bare(kind).closing(dialogue, number, id)
}

/// An indication with this dialogue portion.
#[inline(always)]
fn lay_kept_portion(
    numbers: &mut OutputNumbers,
    room: &mut [u8],
    told: OutputNumbers,
    octets: &[u8],
    portion: PortionRecord,
) -> bool
    requires { PortionFits octets.now portion }
    ensures { let c = context_read octets.now portion in IsLaid (with_context c told)
        (portion_parts (octets_if_any c) (info_read octets.now portion)) result
        numbers.old numbers.new room.old room.new }
{
    let context = optional_part(octets, portion.context);
    lay_portion(numbers, room, told, context, part(octets, portion.info))
}

/// An indication with this code and parameter.
#[inline(always)]
fn lay_kept_body(
    numbers: &mut OutputNumbers,
    room: &mut [u8],
    told: OutputNumbers,
    octets: &[u8],
    body: BodyRecord,
) -> bool
    requires { BodyFits octets.now body }
    ensures { let b = body_read octets.now body in IsLaid (with_parameter b.parameter (with_code b.code told))
        (coded_parts b.code b.parameter) result numbers.old numbers.new room.old room.new }
{
    let parameter = optional_part(octets, body.parameter);
    lay_coded(numbers, room, told, code_of(octets, body.code), parameter)
}

/// Lays down an output, its event left out, if its octets fit: whether they do.
// One arm for each kind, so that a new one can't be passed over.
#[inline(always)]
pub(crate) fn tell(
    numbers: &mut OutputNumbers,
    room: &mut [u8],
    octets: &[u8],
    kept: &Record,
) -> bool
    requires { RecordFits octets.now kept.now }
    ensures { IsOutputLaid (output_read octets.now kept.now) result numbers.old numbers.new room.old room.new }
{
    match *kept {
        Record::Send { to, bytes } => lay_sent(
            numbers,
            room,
            part(octets, to),
            part(octets, bytes),
        ),
        Record::Uni { portion } => {
            let uni = OutputNumbers::bare(OutputKind::Uni);
            lay_kept_portion(numbers, room, uni, octets, portion)
        }
        Record::Begin { dialogue, portion } => {
            let begin = OutputNumbers::bare(OutputKind::Begin).of_dialogue(dialogue);
            lay_kept_portion(numbers, room, begin, octets, portion)
        }
        Record::Continue { dialogue, portion } => {
            let go_on = OutputNumbers::bare(OutputKind::Continue).of_dialogue(dialogue);
            lay_kept_portion(numbers, room, go_on, octets, portion)
        }
        Record::End { dialogue, portion } => {
            let end = OutputNumbers::bare(OutputKind::End).of_dialogue(dialogue);
            lay_kept_portion(numbers, room, end, octets, portion)
        }
        Record::UAbort { dialogue, pdu } => {
            let abort = OutputNumbers::bare(OutputKind::UserAbort).of_dialogue(dialogue);
            lay_pdu(numbers, room, abort, abort_of(octets, pdu))
        }
        Record::PAbort { dialogue, why } => {
            let abort = OutputNumbers::bare(OutputKind::ProviderAbort).of_dialogue(dialogue);
            lay_alone(numbers, abort.with_cause(cause_number(why)))
        }
        Record::Invoked {
            dialogue,
            id,
            linked,
            body,
        } => {
            let invoke = OutputNumbers::bare(OutputKind::Invoke).of_dialogue_if_any(dialogue);
            let invoke = invoke.with_id(Some(id)).with_linked(linked);
            lay_kept_body(numbers, room, invoke, octets, body)
        }
        Record::ResultMore {
            dialogue,
            number,
            id,
            body,
        } => {
            let result = OutputNumbers::bare(OutputKind::ResultNotLast);
            let result = result.of_invocation(dialogue, number, id);
            lay_body(numbers, room, result, body_of(octets, body))
        }
        Record::ResultLast {
            dialogue,
            number,
            id,
            body,
        } => {
            let result = closing(OutputKind::ResultLast, dialogue, number, id);
            lay_body(numbers, room, result, body_of(octets, body))
        }
        Record::ErrorBack {
            dialogue,
            number,
            id,
            body,
        } => {
            let error = closing(OutputKind::Error, dialogue, number, id);
            lay_kept_body(numbers, room, error, octets, body)
        }
        Record::LocalReject {
            dialogue,
            id,
            problem,
        } => {
            let reject = OutputNumbers::bare(OutputKind::LocalReject).of_dialogue_if_any(dialogue);
            lay_alone(numbers, reject.with_id(id).with_problem(problem))
        }
        Record::RemoteReject {
            dialogue,
            id,
            problem,
            by,
        } => {
            let reject = OutputNumbers::bare(OutputKind::of_remote_reject(by));
            let reject = reject.of_dialogue_if_any(dialogue).with_id(id);
            lay_alone(numbers, reject.with_problem(problem))
        }
        Record::Rejected {
            dialogue,
            number,
            id,
            problem,
            by,
        } => {
            let reject = closing(OutputKind::of_rejected(by), dialogue, number, id);
            lay_alone(numbers, reject.with_problem(problem))
        }
        Record::Lapsed {
            dialogue,
            number,
            id,
        } => lay_alone(numbers, closing(OutputKind::Cancel, dialogue, number, id)),
        Record::Ended {
            dialogue,
            number,
            id,
        } => lay_alone(numbers, closing(OutputKind::Closed, dialogue, number, id)),
        Record::Dropped(why) => {
            let dropped = OutputNumbers::bare(OutputKind::Dropped);
            lay_alone(numbers, dropped.with_cause(drop_number(why)))
        }
    }
}

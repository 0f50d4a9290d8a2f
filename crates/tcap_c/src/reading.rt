//! The outputs that wait are taken, one at a time.

ghost use Rattle.std.specs.Prelude.{◌≡◌, ℕ, true, false, IfSome, IsSomeAnd, List, None, slice_get};
ghost use Rattle.std.specs.Option.{option_map};
ghost use Rattle.tcap_primitives.specs.OutboxReading.{output_read};
ghost use Rattle.tcap_station.specs.WaitingViews.{output_of};
ghost use Rattle.tcap_c.specs.Numbers.{bare, of_dialogue};
ghost use Rattle.tcap_c.specs.Reading.{IsToldBare, TakesFront};
ghost use Rattle.tcap_c.specs.StepForm.{Refuses};

use crate::handle::Handle;
use crate::laying::lay_alone;
use crate::output_kind::OutputKind;
use crate::output_numbers::OutputNumbers;
use crate::status::Status;
use crate::telling::tell;
use crate::told_ranges;
use std::alloc::Global;
use tcap_primitives::kept::{PortionRecord, Record};
use tcap_station::Station;

/// The kind, the dialogue and the dialogue portion of a Begin, a Continue or an End; `None` for all else.
#[inline(always)]
fn portion_of(kept: &Record) -> Option<(OutputKind, u32, &PortionRecord)>
    ensures { (octets : List ℕ) → IfSome result (λ told. told.2.now.context ≡ None → told.2.now.info.len ≡ 0
        → IsToldBare (of_dialogue told.1 (bare told.0)) (output_read octets kept.now)) }
{
    match kept {
        Record::Begin { dialogue, portion } => Some((OutputKind::Begin, *dialogue, portion)),
        Record::Continue { dialogue, portion } => Some((OutputKind::Continue, *dialogue, portion)),
        Record::End { dialogue, portion } => Some((OutputKind::End, *dialogue, portion)),
        Record::Send { .. }
        | Record::Uni { .. }
        | Record::UAbort { .. }
        | Record::PAbort { .. }
        | Record::Invoked { .. }
        | Record::ResultMore { .. }
        | Record::LocalReject { .. }
        | Record::RemoteReject { .. }
        | Record::ResultLast { .. }
        | Record::ErrorBack { .. }
        | Record::Rejected { .. }
        | Record::Lapsed { .. }
        | Record::Ended { .. }
        | Record::Dropped { .. } => None,
    }
}

/// The numbers of a Begin, a Continue or an End without octets, its event left out; `None` for all else.
#[inline(always)]
fn bare_numbers(kept: &Record) -> Option<OutputNumbers>
    ensures { (octets : List ℕ) → IfSome result (λ told. IsToldBare told (output_read octets kept.now)) }
{
    let (kind, dialogue, portion) = portion_of(kept)?;
    if portion.context.is_some() || portion.info.len > 0 {
        return None;
    }
    Some(OutputNumbers::bare(kind).of_dialogue(dialogue))
}

/// The numbers of the output that comes next, its event left out, where it is a Begin, a Continue or an End without a
/// dialogue portion, and so without octets, and the first of the only event whose outputs wait; `None` elsewhere.
#[inline(always)]
fn bare_front(station: &Station<Global>) -> Option<OutputNumbers>
    ensures { IfSome result (λ told. IsSomeAnd (option_map output_of (slice_get station.now.waiting 0))
        (IsToldBare told)) }
{
    let kept = station.kept_of_one_event()?;
    bare_numbers(kept.record)
}

/// Takes the output that comes next, if `bare_front` has its numbers: whether it does.
// Ahead of `take_front`: with no octets to copy and nothing to call one register is saved, where that saves six. The
// output is taken before its numbers are written, so that nothing is read twice. A Continue that is received takes 45
// instructions less, one that is sent 17 more, since what comes next is looked at twice.
#[inline(always)]
fn take_bare(station: &mut Station<Global>, numbers: &mut OutputNumbers) -> bool
    ensures taken { result ≡ true → (room : List ℕ) → TakesFront station.old.waiting 0 station.old station.new
        numbers.old numbers.new room room }
    ensures other { result ≡ false → (station.new ≡ station.old) × (numbers.new ≡ numbers.old) }
{
    let Some(told) = bare_front(station) else {
        return false;
    };
    // Where `bare_front` answers, an output waits, so that one is taken.
    let Some(answering) = station.take_front() else {
        return false;
    };
    let told = OutputNumbers {
        event: answering.event,
        is_last: answering.is_last,
        ..told
    };
    lay_alone(numbers, told)
}

/// Takes the output that comes next, which is laid down, if one waits and fits: the status.
// Out of line, so that a call where nothing waits saves no registers.
#[inline(never)]
fn take_front(station: &mut Station<Global>, numbers: &mut OutputNumbers, room: &mut [u8]) -> u8
    ensures { TakesFront station.old.waiting result station.old station.new numbers.old numbers.new
        room.old room.new }
{
    let Some(output) = station.kept_front() else {
        return Status::Nothing.number();
    };
    told_ranges::output(output.octets, output.record);
    if !tell(numbers, room, output.octets, output.record) {
        return Status::RoomTooSmall.number();
    }
    if let Some(answering) = station.take_front() {
        numbers.event = answering.event;
        numbers.is_last = answering.is_last;
    }
    Status::Done.number()
}

/// Takes the output that comes next: its numbers are written, its octets stand at the front of the room, what lies
/// behind them stays. 65,790 octets of room suffice for each. Answers 0, 17, 18 where nothing waits, or 19 where the
/// room is too small; nothing has changed then.
#[unsafe(no_mangle)]
pub extern "C" fn tcap_c_next(
    handle: &mut Handle,
    numbers: &mut OutputNumbers,
    room: &mut [u8],
) -> u8
    ensures closed { handle.old.is_open ≡ false → Refuses 17 result handle.old handle.new
        × (numbers.new ≡ numbers.old) × (room.new ≡ room.old) }
    ensures open { handle.new.is_open ≡ handle.old.is_open }
    ensures taken { handle.old.is_open ≡ true → TakesFront handle.old.value.waiting result
        handle.old.value handle.new.value numbers.old numbers.new room.old room.new }
{
    if !handle.is_open() {
        return Status::NotOpen.number();
    }
    let station = handle.station();
    if !station.is_waiting() {
        return Status::Nothing.number();
    }
    if take_bare(station, numbers) {
        return Status::Done.number();
    }
    take_front(station, numbers, room)
}

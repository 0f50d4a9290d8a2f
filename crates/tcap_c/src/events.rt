//! What happens to a station: octets that are received, and moments.

ghost use Rattle.std.specs.Prelude.{◌≡◌, ◌<◌, ◌≤◌, true, false, length};
ghost use Rattle.tcap_model.specs.Words.Event.{Event};
ghost use Rattle.tcap_c.specs.StepForm.{Advanced, AtMoment, Received, Refuses};

use crate::handle::Handle;
use crate::status::Status;
use std::alloc::Global;
use tcap_station::Station;

/// The greatest number of octets of an address (our own).
const MAX_ADDRESS: usize = 255;

/// The clock is at a moment, and then octets are received: the status.
#[inline(always)]
fn receive_at(station: &mut Station<Global>, now: u64, from: &[u8], message: &[u8]) -> u8
    requires { length from.now ≤ 255 }
    ensures { AtMoment (Received (Event.received from.now message.now)) now result station.old station.new }
{
    let advanced = Status::of_request(station.advance(now));
    if advanced != 0 {
        return advanced;
    }
    Status::of_reception(station.receive_from(from, message))
}

/// Octets were received at this moment, in milliseconds by the caller's clock, from an address, of 0 to 255 octets: an
/// N-UNITDATA indication. The moment is an event of its own; where it is refused, nothing is received. Answers 0, 1,
/// 14, 16 or 17.
#[unsafe(no_mangle)]
pub extern "C" fn tcap_c_receive(handle: &mut Handle, now: u64, from: &[u8], message: &[u8]) -> u8
    ensures bad { 255 < length from.now → Refuses 16 result handle.old handle.new }
    ensures closed { length from.now ≤ 255 → handle.old.is_open ≡ false
        → Refuses 17 result handle.old handle.new }
    ensures open { handle.new.is_open ≡ handle.old.is_open }
    ensures taken { length from.now ≤ 255 → handle.old.is_open ≡ true → AtMoment
        (Received (Event.received from.now message.now)) now result handle.old.value handle.new.value }
{
    if from.len() > MAX_ADDRESS {
        return Status::BadArgument.number();
    }
    if !handle.is_open() {
        return Status::NotOpen.number();
    }
    receive_at(handle.station(), now, from, message)
}

/// The present moment, in milliseconds by the caller's clock, at most 2^62. Answers 0, 1, 14 or 17.
#[unsafe(no_mangle)]
pub extern "C" fn tcap_c_advance(handle: &mut Handle, now: u64) -> u8
    ensures closed { handle.old.is_open ≡ false → Refuses 17 result handle.old handle.new }
    ensures open { handle.new.is_open ≡ handle.old.is_open }
    ensures taken { handle.old.is_open ≡ true
        → Advanced (Event.moment now) result handle.old.value handle.new.value }
{
    if !handle.is_open() {
        return Status::NotOpen.number();
    }
    let answer = handle.station().advance(now);
    Status::of_request(answer)
}

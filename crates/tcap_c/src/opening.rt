//! A handle is opened, and closed.

ghost use Rattle.std.specs.Prelude.{◌≡◌, ◌⊎◌, true, false};
ghost use Rattle.tcap_c.specs.Opening.{IsOpened, are_accepted, is_count, limits_of};
ghost use Rattle.tcap_c.specs.StepForm.{Refuses};

use crate::handle::Handle;
use crate::status::Status;
use std::alloc::{AllocFailed, Global};
use tcap_engine::Limits;
use tcap_invocation::MAX_MOMENT;
use tcap_primitives::Fault;
use tcap_station::Station;

/// The greatest number of dialogues, and of octets of a message (our own).
const MAX_COUNT: u32 = 65_535;

/// Whether a count is 1 to 65,535.
fn is_count(number: u32) -> bool
    ensures { result ≡ is_count number }
{
    (1..=MAX_COUNT).contains(&number)
}

/// Opens a closed handle, at a station with clock 0 and no dialogues, at which nothing waits. `max_dialogues` and
/// `max_message` are 1 to 65,535, `reject_ms` and `idle_ms` at most 2^62, `first_dialogue` and `first_number` not 0.
/// Answers 0, 1, 16 or 17.
#[unsafe(no_mangle)]
pub extern "C" fn tcap_c_open(
    alloc: Global,
    handle: &mut Handle,
    max_dialogues: u32,
    max_message: u32,
    reject_ms: u64,
    idle_ms: u64,
    first_dialogue: u32,
    first_number: u64,
) -> u8
    ensures bad { are_accepted max_dialogues max_message reject_ms idle_ms first_dialogue first_number ≡ false
        → Refuses 16 result handle.old handle.new }
    ensures opened { are_accepted max_dialogues max_message reject_ms idle_ms first_dialogue first_number ≡ true
        → handle.old.is_open ≡ true → Refuses 17 result handle.old handle.new }
    ensures done { are_accepted max_dialogues max_message reject_ms idle_ms first_dialogue first_number ≡ true
        → handle.old.is_open ≡ false → Refuses 1 result handle.old handle.new
        ⊎ ((result ≡ 0) × IsOpened (limits_of max_dialogues reject_ms idle_ms) max_message first_dialogue first_number
        handle.new) }
{
    if !is_count(max_dialogues) || !is_count(max_message) {
        return Status::BadArgument.number();
    }
    if reject_ms > MAX_MOMENT || idle_ms > MAX_MOMENT || first_dialogue == 0 || first_number == 0 {
        return Status::BadArgument.number();
    }
    if handle.is_open() {
        return Status::NotOpen.number();
    }
    let limits = Limits {
        max_dialogues: max_dialogues as usize,
        reject_ms,
        idle_ms,
    };
    let station = Station::resume(
        alloc,
        limits,
        max_message as usize,
        first_dialogue,
        first_number,
    );
    match Box::new(alloc, station) {
        Ok(station) => {
            handle.put(station);
            Status::Done.number()
        }
        Err(AllocFailed { .. }) => Status::Refused(Fault::OutOfMemory).number(),
    }
}

/// Closes a handle and gives back all its memory; a closed one stays as it is.
#[unsafe(no_mangle)]
pub extern "C" fn tcap_c_close(alloc: Global, handle: &mut Handle)
    ensures closed { handle.new.is_open ≡ false }
    ensures same { handle.old.is_open ≡ false → handle.new ≡ handle.old }
{
    drop(handle.take(alloc));
}

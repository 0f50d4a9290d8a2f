//! What is seen of a station. Nothing here takes memory, or changes anything.

ghost use Rattle.std.specs.Prelude.{◌≡◌, ◌≢◌, ◌≤◌, ◌⊎◌, ◌-◌, ◌^◌, [], true, false, length, MatchOption};
ghost use Rattle.tcap_engine.specs.Running.{outputs_in};
ghost use Rattle.tcap_engine.specs.NextTimer.{next_timer_in};
ghost use Rattle.tcap_engine.specs.StateOf.{state_in};
ghost use Rattle.tcap_model.specs.Table.EngineMove.{engine_move};
ghost use Rattle.tcap_model.specs.Words.Event.{Event};
ghost use Rattle.tcap_c.specs.StateNumbers.{state_number};
ghost use Rattle.tcap_c.specs.StepForm.{Refuses};

use crate::handle::Handle;
use crate::status::Status;
use tcap_reception::State;

/// The number of a state: 0 where no dialogue stands, 1 Idle, 2 Initiation Sent, 3 Initiation Received, 4 Active.
fn state_number(state: Option<State>) -> u8
    ensures { result ≡ state_number state }
{
    match state {
        None => 0,
        Some(State::Fresh) => 1,
        Some(State::Sent) => 2,
        Some(State::Received) => 3,
        Some(State::Active) => 4,
    }
}

/// The least moment, in milliseconds, at which `tcap_c_advance` tells something, frees an identifier or ends a
/// dialogue: it is written. Answers 0, 17, or 18 where no timer runs.
#[unsafe(no_mangle)]
pub extern "C" fn tcap_c_next_timer(handle: &mut Handle, at: &mut u64) -> u8
    ensures closed { handle.old.is_open ≡ false → Refuses 17 result handle.old handle.new × (at.new ≡ at.old) }
    ensures open { handle.new.is_open ≡ handle.old.is_open }
    ensures same { handle.old.is_open ≡ true → handle.new.value ≡ handle.old.value }
    ensures value { handle.old.is_open ≡ true → MatchOption (next_timer_in handle.old.value.engine)
        ((result ≡ 18) × (at.new ≡ at.old)) (λ moment. (result ≡ 0) × (at.new ≡ moment)) }
{
    if !handle.is_open() {
        return Status::NotOpen.number();
    }
    let timer = handle.station().next_timer();
    match timer {
        Some(moment) => {
            *at = moment;
            Status::Done.number()
        }
        None => Status::Nothing.number(),
    }
}

/// The state of a dialogue: 0 where none stands and of a closed handle, 1 Idle, 2 Initiation Sent, 3 Initiation
/// Received, 4 Active (Q.774, Transaction state machine).
#[unsafe(no_mangle)]
pub extern "C" fn tcap_c_state_of(handle: &mut Handle, dialogue: u32) -> u8
    ensures closed { handle.old.is_open ≡ false → Refuses 0 result handle.old handle.new }
    ensures open { handle.new.is_open ≡ handle.old.is_open }
    ensures same { handle.old.is_open ≡ true → handle.new.value ≡ handle.old.value }
    ensures value { handle.old.is_open ≡ true
        → result ≡ state_number (state_in handle.old.value.engine dialogue) }
{
    if !handle.is_open() {
        return 0;
    }
    let state = handle.station().state_of(dialogue);
    state_number(state)
}

/// How many dialogues stand; none of a closed handle.
#[unsafe(no_mangle)]
pub extern "C" fn tcap_c_dialogues(handle: &mut Handle) -> usize
    ensures closed { handle.old.is_open ≡ false → Refuses 0 result handle.old handle.new }
    ensures open { handle.new.is_open ≡ handle.old.is_open }
    ensures same { handle.old.is_open ≡ true → handle.new.value ≡ handle.old.value }
    ensures value { handle.old.is_open ≡ true → result ≡ length handle.old.value.engine.dialogues }
{
    if !handle.is_open() {
        return 0;
    }
    let count = handle.station().dialogues();
    count
}

/// The identifier that the next dialogue gets, and the number that the next invocation gets, are written. Answers 0
/// or 17.
#[unsafe(no_mangle)]
pub extern "C" fn tcap_c_next_identifiers(
    handle: &mut Handle,
    dialogue: &mut u32,
    number: &mut u64,
) -> u8
    ensures closed { handle.old.is_open ≡ false → Refuses 17 result handle.old handle.new
        × (dialogue.new ≡ dialogue.old) × (number.new ≡ number.old) }
    ensures open { handle.new.is_open ≡ handle.old.is_open }
    ensures same { handle.old.is_open ≡ true → handle.new.value ≡ handle.old.value }
    ensures value { handle.old.is_open ≡ true
        → (result ≡ 0) × (dialogue.new ≡ handle.old.value.engine.next_dialogue)
        × (number.new ≡ handle.old.value.engine.next_number) }
{
    if !handle.is_open() {
        return Status::NotOpen.number();
    }
    let station = handle.station();
    let (next_dialogue, next_number) = station.next_identifiers();
    *dialogue = next_dialogue;
    *number = next_number;
    Status::Done.number()
}

/// For how many outputs `tcap_c_advance` finds room at this moment, in milliseconds, is written: none where it tells
/// nothing, and else at least as many as it tells. Answers 0 or 17.
#[unsafe(no_mangle)]
pub extern "C" fn tcap_c_due(handle: &mut Handle, now: u64, count: &mut usize) -> u8
    ensures closed { handle.old.is_open ≡ false
        → Refuses 17 result handle.old handle.new × (count.new ≡ count.old) }
    ensures open { handle.new.is_open ≡ handle.old.is_open }
    ensures same { handle.old.is_open ≡ true → handle.new.value ≡ handle.old.value }
    ensures done { handle.old.is_open ≡ true → result ≡ 0 }
    ensures enough { handle.old.is_open ≡ true
        → (length (outputs_in (engine_move handle.old.value.engine (Event.moment now)).answer) ≤ count.new)
        ⊎ (count.new ≡ 2 ^ 64 - 1) }
    ensures some { handle.old.is_open ≡ true → count.new ≢ 0
        → outputs_in (engine_move handle.old.value.engine (Event.moment now)).answer ≢ [] }
{
    if !handle.is_open() {
        return Status::NotOpen.number();
    }
    let due = handle.station().due(now);
    *count = due;
    Status::Done.number()
}

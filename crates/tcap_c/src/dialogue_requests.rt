//! The requests of dialogue handling (Q.771, Dialogue handling). `context` is the contents octets of the application
//! context name, `info` the user information; octets of length 0 are none. A number out of its range, and an address
//! above 255 octets, answers 16.

ghost use Rattle.std.specs.Prelude.{◌≡◌, ◌<◌, ◌≤◌, true, false, None, IfSome, IsSome, length};
ghost use Rattle.tcap_model.specs.Words.Event.{Event};
ghost use Rattle.tcap_model.specs.Words.Request.{DialogueRequest, Request};
ghost use Rattle.tcap_c.specs.Arguments.{ending_of, octets_of, reason_of};
ghost use Rattle.tcap_c.specs.StepForm.{AskedWithin, Refuses};

use crate::arguments;
use crate::handle::Handle;
use crate::status::Status;
use tcap_address::Address;

/// TC-UNI request: the queue goes out in a Unidirectional, and the dialogue is over. Answers 0 to 3, 7, 11 to 13 or
/// 15 to 17.
#[unsafe(no_mangle)]
pub extern "C" fn tcap_c_uni(
    handle: &mut Handle,
    dialogue: u32,
    to: &[u8],
    context: &[u8],
    info: &[u8],
) -> u8
    ensures bad { 255 < length to.now → Refuses 16 result handle.old handle.new }
    ensures closed { length to.now ≤ 255 → handle.old.is_open ≡ false
        → Refuses 17 result handle.old handle.new }
    ensures open { handle.new.is_open ≡ handle.old.is_open }
    ensures taken { length to.now ≤ 255 → handle.old.is_open ≡ true → AskedWithin (Event.on_dialogue dialogue
        (Request.dialogue (DialogueRequest.uni to.now (octets_of context.now) info.now)))
        result handle.old.value handle.new.value }
{
    let Some(to) = Address::new(to) else {
        return Status::BadArgument.number();
    };
    if !handle.is_open() {
        return Status::NotOpen.number();
    }
    let answer = handle
        .station()
        .uni(dialogue, &to, arguments::octets_of(context), info);
    Status::of_request(answer)
}

/// TC-BEGIN request: the queue goes out in a Begin to this address, which the dialogue keeps. Answers 0 to 3, 7, 11,
/// 12 or 15 to 17.
#[unsafe(no_mangle)]
pub extern "C" fn tcap_c_begin(
    handle: &mut Handle,
    dialogue: u32,
    to: &[u8],
    context: &[u8],
    info: &[u8],
) -> u8
    ensures bad { 255 < length to.now → Refuses 16 result handle.old handle.new }
    ensures closed { length to.now ≤ 255 → handle.old.is_open ≡ false
        → Refuses 17 result handle.old handle.new }
    ensures open { handle.new.is_open ≡ handle.old.is_open }
    ensures taken { length to.now ≤ 255 → handle.old.is_open ≡ true → AskedWithin (Event.on_dialogue dialogue
        (Request.dialogue (DialogueRequest.begin to.now (octets_of context.now) info.now)))
        result handle.old.value handle.new.value }
{
    let Some(to) = Address::new(to) else {
        return Status::BadArgument.number();
    };
    if !handle.is_open() {
        return Status::NotOpen.number();
    }
    let answer = handle
        .station()
        .begin(dialogue, &to, arguments::octets_of(context), info);
    Status::of_request(answer)
}

/// TC-CONTINUE request: the queue goes out in a Continue to the peer's address. Answers 0 to 3, 7, 11, 12, 15 or 17.
#[unsafe(no_mangle)]
pub extern "C" fn tcap_c_continue(
    handle: &mut Handle,
    dialogue: u32,
    context: &[u8],
    info: &[u8],
) -> u8
    ensures closed { handle.old.is_open ≡ false → Refuses 17 result handle.old handle.new }
    ensures open { handle.new.is_open ≡ handle.old.is_open }
    ensures taken { handle.old.is_open ≡ true → AskedWithin (Event.on_dialogue dialogue
        (Request.dialogue (DialogueRequest.go_on (octets_of context.now) info.now)))
        result handle.old.value handle.new.value }
{
    if !handle.is_open() {
        return Status::NotOpen.number();
    }
    let answer = handle
        .station()
        .go_on(dialogue, arguments::octets_of(context), info);
    Status::of_request(answer)
}

/// TC-END request: the dialogue is over; `termination` is 0 for an End to the peer, 1 for a prearranged end. Answers
/// 0 to 3, 7, 11, 12 or 15 to 17.
#[unsafe(no_mangle)]
pub extern "C" fn tcap_c_end(
    handle: &mut Handle,
    dialogue: u32,
    termination: i32,
    context: &[u8],
    info: &[u8],
) -> u8
    ensures bad { ending_of termination ≡ None → Refuses 16 result handle.old handle.new }
    ensures closed { IsSome (ending_of termination) → handle.old.is_open ≡ false
        → Refuses 17 result handle.old handle.new }
    ensures open { handle.new.is_open ≡ handle.old.is_open }
    ensures taken { IfSome (ending_of termination) (λ ending. handle.old.is_open ≡ true → AskedWithin
        (Event.on_dialogue dialogue (Request.dialogue (DialogueRequest.finish ending (octets_of context.now) info.now)))
        result handle.old.value handle.new.value) }
{
    let Some(ending) = arguments::ending_of(termination) else {
        return Status::BadArgument.number();
    };
    if !handle.is_open() {
        return Status::NotOpen.number();
    }
    let answer = handle
        .station()
        .finish(dialogue, ending, arguments::octets_of(context), info);
    Status::of_request(answer)
}

/// TC-U-ABORT request: the dialogue is over; `reason` is 0 for the user's own, 1 where it doesn't support the
/// context. Answers 0 to 3, 7, 12 or 15 to 17.
#[unsafe(no_mangle)]
pub extern "C" fn tcap_c_u_abort(handle: &mut Handle, dialogue: u32, reason: i32, info: &[u8]) -> u8
    ensures bad { reason_of reason ≡ None → Refuses 16 result handle.old handle.new }
    ensures closed { IsSome (reason_of reason) → handle.old.is_open ≡ false
        → Refuses 17 result handle.old handle.new }
    ensures open { handle.new.is_open ≡ handle.old.is_open }
    ensures taken { IfSome (reason_of reason) (λ why. handle.old.is_open ≡ true → AskedWithin
        (Event.on_dialogue dialogue (Request.dialogue (DialogueRequest.u_abort why info.now)))
        result handle.old.value handle.new.value) }
{
    let Some(why) = arguments::reason_of(reason) else {
        return Status::BadArgument.number();
    };
    if !handle.is_open() {
        return Status::NotOpen.number();
    }
    let answer = handle.station().u_abort(dialogue, why, info);
    Status::of_request(answer)
}

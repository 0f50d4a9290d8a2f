//! The requests of component handling (Q.771, Component handling). A code is its kind, 1 local or 2 global, and its
//! number or its octets; a result may have none, of kind 0. Octets of length 0 are none. A number out of its range
//! answers 16.

ghost use Rattle.std.specs.Prelude.{◌≡◌, true, false, None, IfSome, IsSome, ℕ};
ghost use Rattle.tcap_dialogue.specs.RequestForm.{gave_up, numbered, queued_done};
ghost use Rattle.tcap_engine.specs.StepForm.{birth_answer};
ghost use Rattle.tcap_model.specs.Words.Event.{Event};
ghost use Rattle.tcap_model.specs.Words.Request.{Request};
ghost use Rattle.tcap_c.specs.Arguments.{cancel_of, error_of, invoke_of, reject_of, result_last_of, result_more_of};
ghost use Rattle.tcap_c.specs.Status.{taken_number};
ghost use Rattle.tcap_c.specs.StepForm.{Asked, Refuses};
ghost use Rattle.tcap_c.specs.Writes.{NothingWritten, Written};

use crate::arguments;
use crate::handle::Handle;
use crate::status::Status;
use tcap_primitives::Fault;

/// Writes the number that a request answered: its status.
fn write_number(answer: Result<u64, Fault>, number: &mut u64) -> u8
    ensures status { result ≡ taken_number answer }
    ensures written { Written number.old number.new answer }
{
    match answer {
        Ok(drawn) => {
            *number = drawn;
            Status::Done.number()
        }
        Err(fault) => Status::Refused(fault).number(),
    }
}

/// Writes the identifier that a new dialogue has: the status.
fn write_dialogue(answer: Result<u32, Fault>, dialogue: &mut u32) -> u8
    ensures status { result ≡ taken_number answer }
    ensures written { Written dialogue.old dialogue.new answer }
{
    match answer {
        Ok(identifier) => {
            *dialogue = identifier;
            Status::Done.number()
        }
        Err(fault) => Status::Refused(fault).number(),
    }
}

/// A new dialogue, in which nothing has happened: its identifier is written. Answers 0, 1, 8, 9 or 17.
#[unsafe(no_mangle)]
pub extern "C" fn tcap_c_new_dialogue(handle: &mut Handle, dialogue: &mut u32) -> u8
    ensures closed { handle.old.is_open ≡ false → Refuses 17 result handle.old handle.new
        × (dialogue.new ≡ dialogue.old) }
    ensures open { handle.new.is_open ≡ handle.old.is_open }
    ensures taken { handle.old.is_open ≡ true → Asked ℕ birth_answer (Written dialogue.old dialogue.new)
        Event.new_dialogue result handle.old.value handle.new.value }
{
    if !handle.is_open() {
        return Status::NotOpen.number();
    }
    let answer = handle.station().new_dialogue();
    write_dialogue(answer, dialogue)
}

/// TC-INVOKE request: an invocation is queued, and its number written. `op_class` is 1 to 4, `linked_id` -128 to 127
/// or 256 for none. Answers 0 to 2, 4, 6, 7, 10 to 12, 16 or 17.
#[unsafe(no_mangle)]
pub extern "C" fn tcap_c_invoke(
    handle: &mut Handle,
    dialogue: u32,
    invoke_id: i32,
    linked_id: i32,
    op_class: i32,
    code_kind: i32,
    local: i32,
    global: &[u8],
    parameter: &[u8],
    timeout_ms: u64,
    number: &mut u64,
) -> u8
    ensures bad { invoke_of invoke_id linked_id op_class code_kind local global.now parameter.now timeout_ms ≡ None
        → Refuses 16 result handle.old handle.new × (number.new ≡ number.old) }
    ensures closed { IsSome (invoke_of invoke_id linked_id op_class code_kind local global.now parameter.now timeout_ms)
        → handle.old.is_open ≡ false → Refuses 17 result handle.old handle.new × (number.new ≡ number.old) }
    ensures open { handle.new.is_open ≡ handle.old.is_open }
    ensures taken { IfSome (invoke_of invoke_id linked_id op_class code_kind local global.now parameter.now timeout_ms)
        (λ request. handle.old.is_open ≡ true → Asked ℕ numbered (Written number.old number.new)
        (Event.on_dialogue dialogue (Request.component request)) result handle.old.value handle.new.value) }
{
    let Some(asked) = arguments::invoke_of(
        invoke_id, linked_id, op_class, code_kind, local, global, parameter, timeout_ms,
    ) else {
        return Status::BadArgument.number();
    };
    if !handle.is_open() {
        return Status::NotOpen.number();
    }
    let answer = handle.station().invoke(
        dialogue,
        asked.id,
        asked.class,
        asked.code,
        asked.parameter,
        asked.linked,
        asked.timeout_ms,
    );
    write_number(answer, number)
}

/// TC-RESULT-L request: the last or only result of an invocation of the peer is queued. Answers 0 to 3, 7, 11, 12,
/// 16 or 17.
#[unsafe(no_mangle)]
pub extern "C" fn tcap_c_result_l(
    handle: &mut Handle,
    dialogue: u32,
    invoke_id: i32,
    code_kind: i32,
    local: i32,
    global: &[u8],
    parameter: &[u8],
) -> u8
    ensures bad { result_last_of invoke_id code_kind local global.now parameter.now ≡ None
        → Refuses 16 result handle.old handle.new }
    ensures closed { IsSome (result_last_of invoke_id code_kind local global.now parameter.now)
        → handle.old.is_open ≡ false → Refuses 17 result handle.old handle.new }
    ensures open { handle.new.is_open ≡ handle.old.is_open }
    ensures taken { IfSome (result_last_of invoke_id code_kind local global.now parameter.now)
        (λ request. handle.old.is_open ≡ true → Asked (Unit {0}) queued_done NothingWritten
        (Event.on_dialogue dialogue (Request.component request)) result handle.old.value handle.new.value) }
{
    let Some(asked) = arguments::result_of(invoke_id, code_kind, local, global, parameter) else {
        return Status::BadArgument.number();
    };
    if !handle.is_open() {
        return Status::NotOpen.number();
    }
    let answer = handle.station().result_last(dialogue, asked.id, asked.body);
    Status::of_request(answer)
}

/// TC-RESULT-NL request: a result of an invocation of the peer that others follow is queued. Answers as
/// `tcap_c_result_l`.
#[unsafe(no_mangle)]
pub extern "C" fn tcap_c_result_nl(
    handle: &mut Handle,
    dialogue: u32,
    invoke_id: i32,
    code_kind: i32,
    local: i32,
    global: &[u8],
    parameter: &[u8],
) -> u8
    ensures bad { result_more_of invoke_id code_kind local global.now parameter.now ≡ None
        → Refuses 16 result handle.old handle.new }
    ensures closed { IsSome (result_more_of invoke_id code_kind local global.now parameter.now)
        → handle.old.is_open ≡ false → Refuses 17 result handle.old handle.new }
    ensures open { handle.new.is_open ≡ handle.old.is_open }
    ensures taken { IfSome (result_more_of invoke_id code_kind local global.now parameter.now)
        (λ request. handle.old.is_open ≡ true → Asked (Unit {0}) queued_done NothingWritten
        (Event.on_dialogue dialogue (Request.component request)) result handle.old.value handle.new.value) }
{
    let Some(asked) = arguments::result_of(invoke_id, code_kind, local, global, parameter) else {
        return Status::BadArgument.number();
    };
    if !handle.is_open() {
        return Status::NotOpen.number();
    }
    let answer = handle.station().result_more(dialogue, asked.id, asked.body);
    Status::of_request(answer)
}

/// TC-U-ERROR request: the error of an invocation of the peer is queued. Answers as `tcap_c_result_l`.
#[unsafe(no_mangle)]
pub extern "C" fn tcap_c_u_error(
    handle: &mut Handle,
    dialogue: u32,
    invoke_id: i32,
    code_kind: i32,
    local: i32,
    global: &[u8],
    parameter: &[u8],
) -> u8
    ensures bad { error_of invoke_id code_kind local global.now parameter.now ≡ None
        → Refuses 16 result handle.old handle.new }
    ensures closed { IsSome (error_of invoke_id code_kind local global.now parameter.now)
        → handle.old.is_open ≡ false → Refuses 17 result handle.old handle.new }
    ensures open { handle.new.is_open ≡ handle.old.is_open }
    ensures taken { IfSome (error_of invoke_id code_kind local global.now parameter.now)
        (λ request. handle.old.is_open ≡ true → Asked (Unit {0}) queued_done NothingWritten
        (Event.on_dialogue dialogue (Request.component request)) result handle.old.value handle.new.value) }
{
    let Some(asked) = arguments::error_of(invoke_id, code_kind, local, global, parameter) else {
        return Status::BadArgument.number();
    };
    if !handle.is_open() {
        return Status::NotOpen.number();
    }
    let answer = handle
        .station()
        .error_back(dialogue, asked.id, asked.code, asked.parameter);
    Status::of_request(answer)
}

/// TC-U-REJECT request: a Reject of a component is queued, with its identifier, or 256 where that isn't known.
/// `problem` is 256 times its kind and its code, 0 to 127. Answers 0 to 3, 7, 16 or 17.
#[unsafe(no_mangle)]
pub extern "C" fn tcap_c_u_reject(
    handle: &mut Handle,
    dialogue: u32,
    invoke_id: i32,
    problem: i32,
) -> u8
    ensures bad { reject_of invoke_id problem ≡ None → Refuses 16 result handle.old handle.new }
    ensures closed { IsSome (reject_of invoke_id problem) → handle.old.is_open ≡ false
        → Refuses 17 result handle.old handle.new }
    ensures open { handle.new.is_open ≡ handle.old.is_open }
    ensures taken { IfSome (reject_of invoke_id problem) (λ request. handle.old.is_open ≡ true
        → Asked (Unit {0}) queued_done NothingWritten
        (Event.on_dialogue dialogue (Request.component request)) result handle.old.value handle.new.value) }
{
    let Some(asked) = arguments::reject_of(invoke_id, problem) else {
        return Status::BadArgument.number();
    };
    if !handle.is_open() {
        return Status::NotOpen.number();
    }
    let answer = handle.station().u_reject(dialogue, asked.id, asked.problem);
    Status::of_request(answer)
}

/// TC-U-CANCEL request: an invocation is given up, and its number written; no output tells it. Answers 0, 2, 5, 16
/// or 17.
#[unsafe(no_mangle)]
pub extern "C" fn tcap_c_u_cancel(
    handle: &mut Handle,
    dialogue: u32,
    invoke_id: i32,
    number: &mut u64,
) -> u8
    ensures bad { cancel_of invoke_id ≡ None
        → Refuses 16 result handle.old handle.new × (number.new ≡ number.old) }
    ensures closed { IsSome (cancel_of invoke_id) → handle.old.is_open ≡ false
        → Refuses 17 result handle.old handle.new × (number.new ≡ number.old) }
    ensures open { handle.new.is_open ≡ handle.old.is_open }
    ensures taken { IfSome (cancel_of invoke_id) (λ request. handle.old.is_open ≡ true
        → Asked ℕ gave_up (Written number.old number.new)
        (Event.on_dialogue dialogue (Request.component request)) result handle.old.value handle.new.value) }
{
    let Some(asked) = arguments::cancel_of(invoke_id) else {
        return Status::BadArgument.number();
    };
    if !handle.is_open() {
        return Status::NotOpen.number();
    }
    let answer = handle.station().u_cancel(dialogue, asked.id);
    write_number(answer, number)
}

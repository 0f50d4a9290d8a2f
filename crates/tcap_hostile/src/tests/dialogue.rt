//! One dialogue, asked by the names of its calls. The moment is 0 throughout.

use super::answers::{add_line, add_numbered, add_outputs, add_value};
use super::invocations::add_lapses;
use super::subject::Told;
use super::words::{Word, event_of, number, peer, text};
use ber_core::OutOfMemory;
use std::alloc::{Allocator, Global};
use tcap_dialogue::{Dialogue, Fault, InvokeRequest, State, Step};
use tcap_engine::{Address, Event};
use tcap_invocation::Lapse;
use tcap_pdu::read_frame;
use tcap_text::octets_or_dash;

/// Adds the lines of a step.
fn add_step<A: Allocator>(alloc: Global, told: &mut String, step: &Step<'_, A>) -> Option<Told> {
    add_outputs(alloc, told, step.outputs.as_slice())?;
    if step.over {
        add_line(told, "over")?;
    }
    Some(Told::Large)
}

/// Adds the line of a refusal, but for `OutOfMemory`.
pub(super) fn add_fault(told: &mut String, fault: Fault) -> Option<Told> {
    if fault == Fault::OutOfMemory {
        return Some(Told::NoMemory);
    }
    add_numbered(told, "refused", u64::from(fault.number()))?;
    Some(Told::Small)
}

/// A step, or a refusal.
fn add_asked<A: Allocator>(
    alloc: Global,
    told: &mut String,
    step: Result<Step<'_, A>, Fault>,
) -> Option<Told> {
    match step {
        Ok(step) => add_step(alloc, told, &step),
        Err(fault) => add_fault(told, fault),
    }
}

/// A step, or `OutOfMemory`.
fn add_taken<A: Allocator>(
    alloc: Global,
    told: &mut String,
    step: Result<Step<'_, A>, OutOfMemory>,
) -> Option<Told> {
    match step {
        Ok(step) => add_step(alloc, told, &step),
        Err(OutOfMemory) => Some(Told::NoMemory),
    }
}

/// The number of an invocation, or a refusal.
pub(super) fn add_invoked(told: &mut String, invoked: Result<u64, Fault>) -> Option<Told> {
    match invoked {
        Ok(number) => {
            add_numbered(told, "number", number)?;
            Some(Told::Large)
        }
        Err(fault) => add_fault(told, fault),
    }
}

/// The number of an invocation that is given up, or a refusal.
pub(super) fn add_given_up(told: &mut String, given_up: Result<u64, Fault>) -> Option<Told> {
    match given_up {
        Ok(number) => {
            add_numbered(told, "givenup", number)?;
            Some(Told::Small)
        }
        Err(fault) => add_fault(told, fault),
    }
}

/// A component that is queued, or a refusal.
pub(super) fn add_queued(told: &mut String, queued: Result<(), Fault>) -> Option<Told> {
    match queued {
        Ok(()) => {
            add_line(told, "done")?;
            Some(Told::Large)
        }
        Err(fault) => add_fault(told, fault),
    }
}

/// Invokes the first invocation, of the number 1: in a dialogue in which nothing has happened, which
/// stands in place of the one that is given.
fn invoke<A: Allocator + Copy>(
    heap: A,
    dialogue: &mut Dialogue<A>,
    request: InvokeRequest<'_>,
    told: &mut String,
) -> Option<Told> {
    let InvokeRequest {
        id,
        class,
        code,
        parameter,
        linked,
        timeout_ms,
    } = request;
    let mut fresh = Dialogue::fresh(heap, 1, 1000, 0);
    let invoked = fresh.invoke(1, id, class, code, parameter, linked, timeout_ms);
    *dialogue = fresh;
    add_invoked(told, invoked)
}

/// What a dialogue tells of a request.
fn ask<A: Allocator + Copy>(
    alloc: Global,
    heap: A,
    dialogue: &mut Dialogue<A>,
    event: Event<'_>,
    told: &mut String,
) -> Option<Told> {
    match event {
        Event::Invoke(_, invoked) => invoke(heap, dialogue, invoked, told),
        Event::Begin(_, begin) => add_asked(
            alloc,
            told,
            dialogue.begin(begin.to, begin.context, begin.info, 0),
        ),
        Event::Continue(_, go_on) => {
            add_asked(alloc, told, dialogue.go_on(go_on.context, go_on.info, 0))
        }
        Event::Reject(_, reject) => {
            add_queued(told, dialogue.u_reject(reject.id, reject.problem))
        }
        Event::ResultLast(_, result) => {
            add_queued(told, dialogue.result_last(result.id, result.body))
        }
        Event::Cancel(_, cancel) => add_given_up(told, dialogue.u_cancel(cancel.id)),
        _ => None,
    }
}

/// Adds the state, and whether a peer is known.
fn add_state<A: Allocator + Copy>(told: &mut String, dialogue: &Dialogue<A>) -> Option<()> {
    let state: State = dialogue.state();
    let peer = dialogue.peer().is_some();
    write!(told, "  {state:?} peer {peer}\n").ok()
}

/// Adds the octets that are kept.
fn add_kept<A: Allocator + Copy>(
    alloc: Global,
    told: &mut String,
    dialogue: &Dialogue<A>,
) -> Option<()> {
    let kept = octets_or_dash(alloc, dialogue.kept()).ok()?;
    write!(told, "  kept {kept}\n").ok()
}

/// Adds the number of a lapse, if there is one.
fn add_lapse_number(told: &mut String, lapse: Option<Lapse>) -> Option<()> {
    match lapse {
        Some(lapse) => add_value(told, &Some(lapse.number)),
        None => add_value::<Option<u64>>(told, &None),
    }
}

/// What a dialogue tells of a moment: `due MS`, `first MS`, `free MS`.
fn look_at<A: Allocator + Copy>(
    dialogue: &mut Dialogue<A>,
    word: &str,
    clock: u64,
    told: &mut String,
) -> Option<()> {
    match word {
        "due" => add_value(told, &dialogue.due_count(clock)),
        "first" => add_lapse_number(told, dialogue.first_due(clock)),
        "free" => {
            dialogue.free_due(clock);
            Some(())
        }
        _ => None,
    }
}

/// What a dialogue tells of time and of itself: `due MS`, `first MS`, `one ID MS`, `free MS`, `next`, `state`,
/// `kept`.
fn look<A: Allocator + Copy>(
    alloc: Global,
    dialogue: &mut Dialogue<A>,
    words: &[Word<'_>],
    told: &mut String,
) -> Option<()> {
    match text(words, 0) {
        "state" => add_state(told, dialogue),
        "kept" => add_kept(alloc, told, dialogue),
        "next" => add_value(told, &dialogue.next_timer()),
        "one" => {
            let lapse = dialogue.lapse_one(number(words, 1)?, number(words, 2)?);
            add_lapse_number(told, lapse)
        }
        word => look_at(dialogue, word, number(words, 1)?, told),
    }
}

/// What a dialogue tells of a message from this address.
fn take_bytes<A: Allocator + Copy>(
    alloc: Global,
    dialogue: &mut Dialogue<A>,
    from: &Address,
    bytes: &[u8],
    told: &mut String,
) -> Option<Told> {
    let frame = read_frame(bytes).ok()?;
    add_taken(alloc, told, dialogue.take_frame(from, &frame, 0))
}

/// What a dialogue tells of an event.
fn take<A: Allocator + Copy>(
    alloc: Global,
    heap: A,
    dialogue: &mut Dialogue<A>,
    words: &[Word<'_>],
    told: &mut String,
) -> Option<Told> {
    let peer = peer();
    match event_of(words, &peer)? {
        Event::Bytes(from, bytes) => take_bytes(alloc, dialogue, from, bytes, told),
        event => ask(alloc, heap, dialogue, event, told),
    }
}

/// What a dialogue tells of a line: `fault CAUSE`, `lapse MS`, those of `look`, or an event.
pub(super) fn tell<A: Allocator + Copy>(
    alloc: Global,
    heap: A,
    dialogue: &mut Dialogue<A>,
    words: &[Word<'_>],
    told: &mut String,
) -> Option<Told> {
    match text(words, 0) {
        "due" | "first" | "one" | "free" | "next" | "state" | "kept" => {
            look(alloc, dialogue, words, told)?;
            Some(Told::Small)
        }
        "lapse" => add_lapses(told, dialogue.lapse(number(words, 1)?)),
        "fault" => {
            let cause: u8 = number(words, 1)?;
            add_taken(alloc, told, dialogue.take_fault(cause))
        }
        _ => take(alloc, heap, dialogue, words, told),
    }
}

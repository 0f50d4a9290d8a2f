//! An engine, asked by the names of its calls.

use super::answers::{add_numbered, add_outputs, add_value};
use super::dialogue::{add_fault, add_given_up, add_invoked, add_queued};
use super::subject::Told;
use super::words::{Word, event_of, number, peer, text};
use ber_core::OutOfMemory;
use std::alloc::{Allocator, Global};
use tcap_engine::{Address, Engine, Event, Fault, InvokeRequest, Limits, Output};

/// A new engine of at most 4 dialogues, or at `1` of at most one; at `idle` with an idle limit of 500
/// milliseconds.
pub(super) fn new_engine<A: Allocator + Copy>(heap: A, kind: &str) -> Engine<A> {
    let limits = Limits {
        max_dialogues: if kind == "1" { 1 } else { 4 },
        reject_ms: 1000,
        idle_ms: if kind == "idle" { 500 } else { 0 },
    };
    Engine::new(heap, limits)
}

/// An engine that goes on with these counters.
pub(super) fn resumed<A: Allocator + Copy>(
    heap: A,
    next_dialogue: u32,
    next_number: u64,
) -> Engine<A> {
    let limits = Limits {
        max_dialogues: 4,
        reject_ms: 1000,
        idle_ms: 0,
    };
    Engine::resume(heap, limits, next_dialogue, next_number)
}

/// Adds what is told of a call that answers with outputs, or its refusal.
fn add_told<A: Allocator>(
    alloc: Global,
    told: &mut String,
    outputs: Result<Vec<Output<'_, A>, A>, Fault>,
) -> Option<Told> {
    match outputs {
        Ok(outputs) => {
            add_outputs(alloc, told, outputs.as_slice())?;
            Some(if outputs.is_empty() {
                Told::Small
            } else {
                Told::Large
            })
        }
        Err(fault) => add_fault(told, fault),
    }
}

/// An Invoke.
fn invoke<A: Allocator + Copy>(
    engine: &mut Engine<A>,
    d: u32,
    request: InvokeRequest<'_>,
    told: &mut String,
) -> Option<Told> {
    let InvokeRequest {
        id,
        class,
        code,
        parameter,
        linked,
        timeout_ms,
    } = request;
    let invoked = engine.invoke(d, id, class, code, parameter, linked, timeout_ms);
    add_invoked(told, invoked)
}

/// A request of component handling.
fn ask_component<A: Allocator + Copy>(
    engine: &mut Engine<A>,
    event: Event<'_>,
    told: &mut String,
) -> Option<Told> {
    match event {
        Event::Invoke(d, invoked) => invoke(engine, d, invoked, told),
        Event::ResultLast(d, result) => {
            add_queued(told, engine.result_last(d, result.id, result.body))
        }
        Event::ResultMore(d, result) => {
            add_queued(told, engine.result_more(d, result.id, result.body))
        }
        Event::ErrorBack(d, error) => add_queued(
            told,
            engine.error_back(d, error.id, error.code, error.parameter),
        ),
        Event::Reject(d, reject) => {
            add_queued(told, engine.u_reject(d, reject.id, reject.problem))
        }
        Event::Cancel(d, cancel) => add_given_up(told, engine.u_cancel(d, cancel.id)),
        _ => None,
    }
}

/// A request of dialogue handling, or of component handling.
fn ask<A: Allocator + Copy>(
    alloc: Global,
    engine: &mut Engine<A>,
    event: Event<'_>,
    told: &mut String,
) -> Option<Told> {
    match event {
        Event::Uni(d, uni) => {
            add_told(alloc, told, engine.uni(d, uni.to, uni.context, uni.info))
        }
        Event::Begin(d, begin) => add_told(
            alloc,
            told,
            engine.begin(d, begin.to, begin.context, begin.info),
        ),
        Event::Continue(d, go_on) => {
            add_told(alloc, told, engine.go_on(d, go_on.context, go_on.info))
        }
        Event::End(d, end) => add_told(
            alloc,
            told,
            engine.finish(d, end.ending, end.context, end.info),
        ),
        Event::Abort(d, abort) => {
            add_told(alloc, told, engine.u_abort(d, abort.why, abort.info))
        }
        _ => ask_component(engine, event, told),
    }
}

/// Adds the number of a new dialogue, or the refusal.
fn add_new(told: &mut String, born: Result<u32, Fault>) -> Option<Told> {
    match born {
        Ok(dialogue) => {
            add_numbered(told, "new", u64::from(dialogue))?;
            Some(Told::Large)
        }
        Err(fault) => add_fault(told, fault),
    }
}

/// What an engine tells of octets from this address.
fn receive<A: Allocator + Copy>(
    alloc: Global,
    engine: &mut Engine<A>,
    from: &Address,
    bytes: &[u8],
    told: &mut String,
) -> Option<Told> {
    match engine.receive(from, bytes) {
        Ok(outputs) => add_told(alloc, told, Ok(outputs)),
        Err(OutOfMemory) => Some(Told::NoMemory),
    }
}

/// What an engine tells of an event.
pub(super) fn take<A: Allocator + Copy>(
    alloc: Global,
    engine: &mut Engine<A>,
    event: Event<'_>,
    told: &mut String,
) -> Option<Told> {
    match event {
        Event::NewDialogue => add_new(told, engine.new_dialogue()),
        Event::Bytes(from, bytes) => receive(alloc, engine, from, bytes, told),
        Event::Moment(now) => add_told(alloc, told, engine.advance(now)),
        _ => ask(alloc, engine, event, told),
    }
}

/// What an engine tells of itself: `now`, `next`, `state D`.
fn look<A: Allocator + Copy>(
    engine: &Engine<A>,
    words: &[Word<'_>],
    told: &mut String,
) -> Option<()> {
    match text(words, 0) {
        "now" => add_numbered(told, "now", engine.now()),
        "next" => add_value(told, &engine.next_timer()),
        _ => {
            let state = engine.state_of(number(words, 1)?);
            write!(told, "  state {state:?}\n").ok()
        }
    }
}

/// What an engine tells of a line that stands for an event.
fn take_line<A: Allocator + Copy>(
    alloc: Global,
    engine: &mut Engine<A>,
    words: &[Word<'_>],
    told: &mut String,
) -> Option<Told> {
    let peer = peer();
    take(alloc, engine, event_of(words, &peer)?, told)
}

/// What an engine tells of a line: one of those of `look`, or an event.
pub(super) fn tell<A: Allocator + Copy>(
    alloc: Global,
    engine: &mut Engine<A>,
    words: &[Word<'_>],
    told: &mut String,
) -> Option<Told> {
    match text(words, 0) {
        "now" | "next" | "state" => {
            look(engine, words, told)?;
            Some(Told::Small)
        }
        _ => take_line(alloc, engine, words, told),
    }
}

//! A station: what a line of an example sends and tells is taken from its front. The calls of an engine are those of
//! engine.rt.

use super::answers::{add_numbered, add_value};
use super::dialogue::{add_fault, add_given_up, add_invoked, add_queued};
use super::outbox::add_kept;
use super::subject::{Heap, Told};
use super::words::{Word, event_of, number, peer, text};
use std::alloc::Global;
use tcap_engine::{Event, Fault, Limits};
use tcap_station::Station;

/// The station that the words of an example's first line say, as an engine is.
pub(super) fn station_of<'h>(heap: Heap<'h>, words: &[Word<'_>]) -> Option<Station<Heap<'h>>> {
    let kind = text(words, 1);
    let limits = Limits {
        max_dialogues: if kind == "1" { 1 } else { 4 },
        reject_ms: 1000,
        idle_ms: if kind == "idle" { 500 } else { 0 },
    };
    let (dialogue, invocation) = if kind == "from" {
        (number(words, 2)?, number(words, 3)?)
    } else {
        (1, 1)
    };
    Some(Station::resume(heap, limits, 65_535, dialogue, invocation))
}

/// Takes what waits, and adds it. It answers the last event, and the last of it is marked so.
fn add_taken(alloc: Global, station: &mut Station<Heap<'_>>, told: &mut String) -> Option<Told> {
    let mut is_over = true;
    for _ in 0..1_000 {
        let Some(waiting) = station.front() else {
            return is_over.then_some(Told::Large);
        };
        if waiting.event != station.events() {
            return None;
        }
        is_over = waiting.is_last;
        add_kept(alloc, told, waiting.output)?;
        write!(told, "\n").ok()?;
        station.remove_front();
    }
    None
}

/// Adds what is told of a call that answers with outputs, or its refusal, after which nothing waits.
fn add_told(
    alloc: Global,
    station: &mut Station<Heap<'_>>,
    told: &mut String,
    called: Result<(), Fault>,
) -> Option<Told> {
    let waits = station.front().is_some();
    match called {
        Ok(()) if waits => add_taken(alloc, station, told),
        Ok(()) => Some(Told::Small),
        Err(_) if waits => None,
        Err(fault) => add_fault(told, fault),
    }
}

/// A request of component handling, or a new dialogue.
fn ask_component(
    station: &mut Station<Heap<'_>>,
    event: &Event<'_>,
    told: &mut String,
) -> Option<Told> {
    match event {
        Event::NewDialogue => match station.new_dialogue() {
            Ok(dialogue) => {
                add_numbered(told, "new", u64::from(dialogue))?;
                Some(Told::Large)
            }
            Err(fault) => add_fault(told, fault),
        },
        Event::Invoke(d, i) => add_invoked(
            told,
            station.invoke(
                *d,
                i.id,
                i.class,
                i.code,
                i.parameter,
                i.linked,
                i.timeout_ms,
            ),
        ),
        Event::ResultLast(d, result) => {
            add_queued(told, station.result_last(*d, result.id, result.body))
        }
        Event::ResultMore(d, result) => {
            add_queued(told, station.result_more(*d, result.id, result.body))
        }
        Event::ErrorBack(d, error) => add_queued(
            told,
            station.error_back(*d, error.id, error.code, error.parameter),
        ),
        Event::Reject(d, reject) => {
            add_queued(told, station.u_reject(*d, reject.id, reject.problem))
        }
        Event::Cancel(d, cancel) => add_given_up(told, station.u_cancel(*d, cancel.id)),
        _ => None,
    }
}

/// Makes the call of an event that may send or tell; nothing for any other.
fn call(station: &mut Station<Heap<'_>>, event: &Event<'_>) -> Option<Result<(), Fault>> {
    Some(match event {
        Event::Bytes(from, bytes) => station.receive(from, bytes).or(Err(Fault::OutOfMemory)),
        Event::Moment(now) => station.advance(*now),
        Event::Uni(d, uni) => station.uni(*d, uni.to, uni.context, uni.info),
        Event::Begin(d, begin) => station.begin(*d, begin.to, begin.context, begin.info),
        Event::Continue(d, go_on) => station.go_on(*d, go_on.context, go_on.info),
        Event::End(d, end) => station.finish(*d, end.ending, end.context, end.info),
        Event::Abort(d, abort) => station.u_abort(*d, abort.why, abort.info),
        _ => return None,
    })
}

/// What a station tells of an event.
fn take(
    alloc: Global,
    station: &mut Station<Heap<'_>>,
    event: &Event<'_>,
    told: &mut String,
) -> Option<Told> {
    match call(station, event) {
        Some(called) => add_told(alloc, station, told, called),
        None => ask_component(station, event, told),
    }
}

/// What a line tells: `now`, `next`, `state D`, or an event.
pub(super) fn tell(
    alloc: Global,
    station: &mut Station<Heap<'_>>,
    words: &[Word<'_>],
    told: &mut String,
) -> Option<Told> {
    match text(words, 0) {
        "now" => add_numbered(told, "now", station.now())?,
        "next" => add_value(told, &station.next_timer())?,
        "state" => {
            let state = station.state_of(number(words, 1)?);
            write!(told, "  state {state:?}\n").ok()?;
        }
        _ => {
            let peer = peer();
            return take(alloc, station, &event_of(words, &peer)?, told);
        }
    }
    Some(Told::Small)
}

//! An engine that is called with an outbox: what a line of an example appends behind what is there. The calls without
//! an outbox are those of engine.rt.

use super::answers::{add_line, add_numbered, add_output, add_sent};
use super::dialogue::add_fault;
use super::subject::{Heap, Told};
use super::words::{Word, event_of, peer, text};
use refusing::Refusing;
use std::alloc::{Allocator, Global};
use std::test::Fail;
use tcap_component::Code;
use tcap_engine::{
    Address, Answered, Engine, Event, Fault, Indication, Limits, Outbox, Output, OutputRef,
    run_into,
};
use tcap_invocation::Class;

/// From so many outputs on the outbox is cleared behind a call.
const MANY: usize = 5;

/// An engine and the outbox that its outputs are appended to.
#[derive(Debug, Drop)]
pub(super) struct Station<'h> {
    pub(super) engine: Engine<Heap<'h>>,
    pub(super) outbox: Outbox<Heap<'h>>,
}

/// Makes the call of an event whose outputs can go to an outbox; nothing for any other.
pub(super) fn call<A: Allocator + Copy>(
    engine: &mut Engine<A>,
    event: &Event<'_>,
    outbox: &mut Outbox<A>,
) -> Option<Result<(), Fault>> {
    Some(match event {
        Event::Bytes(from, bytes) => engine
            .receive_into(from, bytes, outbox)
            .or(Err(Fault::OutOfMemory)),
        Event::Moment(now) => engine.advance_into(*now, outbox),
        Event::Uni(d, uni) => engine.uni_into(*d, uni.to, uni.context, uni.info, outbox),
        Event::Begin(d, begin) => {
            engine.begin_into(*d, begin.to, begin.context, begin.info, outbox)
        }
        Event::Continue(d, go_on) => engine.go_on_into(*d, go_on.context, go_on.info, outbox),
        Event::End(d, end) => engine.finish_into(*d, end.ending, end.context, end.info, outbox),
        Event::Abort(d, abort) => engine.u_abort_into(*d, abort.why, abort.info, outbox),
        _ => return None,
    })
}

/// Adds an output that an outbox holds.
pub(super) fn add_kept(alloc: Global, told: &mut String, output: OutputRef<'_>) -> Option<()> {
    match output {
        OutputRef::Send { to, bytes } => add_sent(alloc, told, &Address::new(to)?, bytes),
        OutputRef::Indication(indication) => {
            let output: Output<'_, Global> = indication.output();
            add_output(alloc, told, &output)
        }
    }
}

/// Adds the outputs from this one on.
pub(super) fn add_from<A: Allocator + Copy>(
    alloc: Global,
    outbox: &Outbox<A>,
    first: usize,
    told: &mut String,
) -> Option<Told> {
    for index in first..outbox.len() {
        add_kept(alloc, told, outbox.get(index)?)?;
        write!(told, "\n").ok()?;
    }
    Some(if outbox.len() == first {
        Told::Small
    } else {
        Told::Large
    })
}

/// Adds what an event is answered whose call appends nothing.
fn add_answered(told: &mut String, answered: Answered) -> Option<Told> {
    match answered {
        Answered::NewDialogue(dialogue) => add_numbered(told, "new", u64::from(dialogue))?,
        Answered::Number(number) => add_numbered(told, "number", number)?,
        Answered::Done => add_line(told, "done")?,
        Answered::GivenUp(number) => {
            add_numbered(told, "givenup", number)?;
            return Some(Told::Small);
        }
        Answered::Refused(fault) => return add_fault(told, fault),
        Answered::Outputs => return None,
    }
    Some(Told::Large)
}

/// What an event is answered whose call appends nothing.
fn take_answered(station: &mut Station<'_>, event: &Event<'_>, told: &mut String) -> Option<Told> {
    let Station { engine, outbox } = station;
    let first = outbox.len();
    let Ok(answered) = engine.handle_into(event, outbox) else {
        return Some(Told::NoMemory);
    };
    if outbox.len() != first {
        return None;
    }
    add_answered(told, answered)
}

/// What an event appends, or its refusal, which appends nothing.
fn take_into(
    alloc: Global,
    station: &mut Station<'_>,
    event: Event<'_>,
    told: &mut String,
) -> Option<Told> {
    let Station { engine, outbox } = station;
    let first = outbox.len();
    let Some(called) = call(engine, &event, outbox) else {
        return take_answered(station, &event, told);
    };
    if let Err(fault) = called {
        if outbox.len() != first {
            return None;
        }
        return add_fault(told, fault);
    }
    let added = add_from(alloc, outbox, first, told)?;
    if outbox.len() >= MANY {
        outbox.clear();
    }
    Some(added)
}

/// What a line tells: one of those that only look, or an event.
pub(super) fn tell(
    alloc: Global,
    station: &mut Station<'_>,
    words: &[Word<'_>],
    told: &mut String,
) -> Option<Told> {
    match text(words, 0) {
        "now" | "next" | "state" => super::engine::tell(alloc, &mut station.engine, words, told),
        _ => {
            let peer = peer();
            take_into(alloc, station, event_of(words, &peer)?, told)
        }
    }
}

// ---- runs

/// Runs these events and, where memory was refused, once more those that are left: how often memory was refused.
fn run_into_on<'h>(
    engine: &mut Engine<Heap<'h>>,
    events: &[Event<'_>],
    outbox: &mut Outbox<Heap<'h>>,
) -> Option<u64> {
    let done = run_into(engine, events, outbox);
    let rest = events.get(done..)?;
    if rest.is_empty() {
        return Some(0);
    }
    (run_into(engine, rest, outbox) == rest.len()).then_some(1)
}

/// Runs these events on an engine that has told nothing.
pub(super) fn run_told_into<'h>(
    alloc: Global,
    heap: Heap<'h>,
    engine: &mut Engine<Heap<'h>>,
    events: &[Event<'_>],
    wanted: &str,
) -> Option<u64> {
    let mut outbox = Outbox::new(heap);
    let refusals = run_into_on(engine, events, &mut outbox)?;
    let mut told = String::new(alloc);
    add_from(alloc, &outbox, 0, &mut told)?;
    (told.as_str() == wanted).then_some(refusals)
}

// ---- steps that take no memory

/// A Continue to dialogue 1 with the Return Result Last of an operation.
fn result_to(id: u8) -> [u8; 21] {
    [
        0x65, 0x13, 0x48, 4, 0, 0, 0, 7, 0x49, 4, 0, 0, 0, 1, 0x6c, 5, 0xa2, 3, 0x02, 1, id,
    ]
}

/// Whether the outbox has the Continue with its Return Result Last, and then the Continue that is sent.
fn is_step(outbox: &Outbox<Heap<'_>>) -> bool {
    matches!(
        (outbox.get(0), outbox.get(1), outbox.get(2), outbox.get(3)),
        (
            Some(OutputRef::Indication(Indication::Continue { .. })),
            Some(OutputRef::Indication(Indication::ResultLast { .. })),
            Some(OutputRef::Send { .. }),
            None
        )
    )
}

/// Dialogue 1 is begun with an Invoke.
fn begin(station: &mut Station<'_>) -> Option<()> {
    let Station { engine, outbox } = station;
    let dialogue = engine.new_dialogue().ok()?;
    let operation = Code::Local(1);
    engine
        .invoke(dialogue, 0, Class::One, operation, None, None, 1_000)
        .ok()?;
    engine
        .begin_into(dialogue, &Address::empty(), None, &[], outbox)
        .ok()
}

/// Its result comes, and the next Invoke goes out, at the next moment: whether the step is told so.
fn step(station: &mut Station<'_>, id: u8) -> Option<bool> {
    let Station { engine, outbox } = station;
    outbox.clear();
    let moment = engine.now().saturating_add(1);
    engine.advance_into(moment, outbox).ok()?;
    engine
        .receive_into(&Address::empty(), &result_to(id), outbox)
        .ok()?;
    let operation = Code::Local(1);
    let next = if id == 0 { 1 } else { 0 };
    engine
        .invoke(1, next, Class::One, operation, None, None, 1_000)
        .ok()?;
    engine.go_on_into(1, None, &[], outbox).ok()?;
    Some(is_step(outbox))
}

/// So many steps: whether each is told so.
fn steps(station: &mut Station<'_>, count: u32) -> Option<bool> {
    let mut are_told = true;
    for number in 0..count {
        are_told &= step(station, (number % 2) as u8)?;
    }
    Some(are_told)
}

#[test]
fn warm_steps_take_no_memory(rt: HostRuntime) -> Result<(), Fail> {
    let heap = Refusing::new(rt.alloc());
    let limits = Limits {
        max_dialogues: 4,
        reject_ms: 0,
        idle_ms: 0,
    };
    let mut station = Station {
        engine: Engine::new(&heap, limits),
        outbox: Outbox::new(&heap),
    };
    begin(&mut station).ok_or("refused")?;
    assert_eq!(rt; steps(&mut station, 10), Some(true));
    heap.refuse(1);
    assert_eq!(rt; steps(&mut station, 1_000), Some(true));
    assert!(rt; heap.is_armed());
    // Without its room an outbox asks for memory again.
    station.outbox.clear();
    station.outbox.shrink();
    assert_eq!(rt; steps(&mut station, 1), None);
    assert!(rt; station.outbox.is_empty() && !heap.is_armed());
    Ok(())
}

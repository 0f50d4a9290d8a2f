//! The events of an example of an engine, handed to `run` or to `run_into`.

use super::answers::{add_line, add_numbered, add_outputs};
use super::engine::new_engine;
use super::outbox::run_told_into;
use super::played::Unanswered;
use super::subject::Heap;
use super::words::{Word, event_of, peer, words_of};
use std::alloc::Global;
use tcap_engine::{Address, Answer, Engine, Event, run};

/// What is gathered of a run.
#[derive(Clone, Copy)]
pub(super) enum Gathering {
    /// The answers, by `run`.
    Answers,
    /// The outputs alone, by `run_into`.
    Outputs,
}

impl Gathering {
    /// Whether this line of an example is told.
    fn tells(self, line: &str) -> bool {
        let others = ["new ", "number ", "done", "givenup ", "refused "];
        line.starts_with(' ')
            && (matches!(self, Gathering::Answers)
                || !others
                    .iter()
                    .any(|word| line.trim_start().starts_with(word)))
    }
}

/// Adds the words of the lines that stand for events.
fn add_event_lines<'e>(
    alloc: Global,
    lines: &mut Vec<Vec<Word<'e>>>,
    example: &'e str,
) -> Option<()> {
    for line in example.lines() {
        if line.starts_with(' ') || line.starts_with("engine") {
            continue;
        }
        lines.push(words_of(alloc, line)?).ok()?;
    }
    Some(())
}

/// The words of the lines that stand for events.
fn event_lines<'e>(alloc: Global, example: &'e str) -> Option<Vec<Vec<Word<'e>>>> {
    let mut lines = Vec::new(alloc);
    add_event_lines(alloc, &mut lines, example)?;
    Some(lines)
}

/// Adds the events of these lines.
fn add_events<'w>(
    events: &mut Vec<Event<'w>>,
    lines: &'w [Vec<Word<'_>>],
    peer: &'w Address,
) -> Option<()> {
    for words in lines {
        events.push(event_of(words.as_slice(), peer)?).ok()?;
    }
    Some(())
}

/// The events of these lines, this peer's where they name no other; nothing where one stands for none.
fn events_of<'w>(
    alloc: Global,
    lines: &'w [Vec<Word<'_>>],
    peer: &'w Address,
) -> Option<Vec<Event<'w>>> {
    let mut events = Vec::new(alloc);
    add_events(&mut events, lines, peer)?;
    Some(events)
}

/// Adds the lines of an answer.
fn add_answer(alloc: Global, told: &mut String, answer: &Answer<'_, Heap<'_>>) -> Option<()> {
    match answer {
        Answer::NewDialogue(dialogue) => add_numbered(told, "new", u64::from(*dialogue)),
        Answer::Number(number) => add_numbered(told, "number", *number),
        Answer::Done => add_line(told, "done"),
        Answer::GivenUp(number) => add_numbered(told, "givenup", *number),
        Answer::Outputs(outputs) => add_outputs(alloc, told, outputs.as_slice()),
        Answer::Refused(fault) => add_numbered(told, "refused", u64::from(fault.number())),
    }
}

/// Adds the lines of answers.
fn add_answers(alloc: Global, told: &mut String, answers: &[Answer<'_, Heap<'_>>]) -> Option<()> {
    for answer in answers {
        add_answer(alloc, told, answer)?;
    }
    Some(())
}

/// The lines of an example that are told.
fn wanted_of(alloc: Global, gathering: Gathering, example: &str) -> Option<String> {
    let mut text = String::new(alloc);
    for line in example.lines() {
        if gathering.tells(line) {
            write!(text, "{line}\n").ok()?;
        }
    }
    Some(text)
}

/// Runs those of these events that have no answer yet; nothing where memory is refused.
fn run_rest<'h, 'm>(
    engine: &mut Engine<Heap<'h>>,
    events: &[Event<'m>],
    answers: &mut Vec<Answer<'m, Heap<'h>>, Heap<'h>>,
) -> Option<()> {
    let rest = events.get(answers.len()..)?;
    run(engine, rest, answers).ok()
}

/// Runs these events and, where memory was refused, once more those that are left: how often memory was refused.
fn run_on<'h, 'm>(
    engine: &mut Engine<Heap<'h>>,
    events: &[Event<'m>],
    answers: &mut Vec<Answer<'m, Heap<'h>>, Heap<'h>>,
) -> Option<u64> {
    if run_rest(engine, events, answers).is_some() {
        return Some(0);
    }
    run_rest(engine, events, answers)?;
    Some(1)
}

/// Adds the lines of what came of a run and, where memory was refused to it, of a second one over the events that
/// the first left: how often memory was refused.
fn run_twice<'h, 'm>(
    alloc: Global,
    engine: &mut Engine<Heap<'h>>,
    events: &[Event<'m>],
    answers: &mut Vec<Answer<'m, Heap<'h>>, Heap<'h>>,
    told: &mut String,
) -> Option<u64> {
    let refusals = run_on(engine, events, answers)?;
    add_answers(alloc, told, answers.as_slice())?;
    Some(refusals)
}

/// Runs these events, whose answers go to an empty list: how often memory was refused; nothing where the answers
/// aren't those that are wanted.
fn run_told<'h, 'm>(
    alloc: Global,
    engine: &mut Engine<Heap<'h>>,
    events: &[Event<'m>],
    answers: &mut Vec<Answer<'m, Heap<'h>>, Heap<'h>>,
    wanted: &str,
) -> Option<u64> {
    let mut told = String::new(alloc);
    let refusals = run_twice(alloc, engine, events, answers, &mut told)?;
    (told.as_str() == wanted).then_some(refusals)
}

/// Runs these events on an engine that has answered nothing.
fn run_answered<'h>(
    alloc: Global,
    heap: Heap<'h>,
    engine: &mut Engine<Heap<'h>>,
    events: &[Event<'_>],
    wanted: &str,
) -> Option<u64> {
    let mut answers = Vec::new(heap);
    run_told(alloc, engine, events, &mut answers, wanted)
}

/// Runs these events on a new engine: how often memory was refused; nothing where what is gathered isn't what is
/// wanted.
fn run_new(
    alloc: Global,
    heap: Heap<'_>,
    gathering: Gathering,
    kind: &str,
    events: &[Event<'_>],
    wanted: &str,
) -> Option<u64> {
    let mut engine = new_engine(heap, kind);
    match gathering {
        Gathering::Answers => run_answered(alloc, heap, &mut engine, events, wanted),
        Gathering::Outputs => run_told_into(alloc, heap, &mut engine, events, wanted),
    }
}

/// How many growths the run of these events has, where each of them that is refused in turn ends the first run, but
/// for those of places, and all answers are those that are wanted.
fn growths_of(
    alloc: Global,
    heap: Heap<'_>,
    gathering: Gathering,
    kind: &str,
    events: &[Event<'_>],
    wanted: &str,
) -> Option<u64> {
    let mut unanswered = Unanswered::default();
    for number in 1..1_000u64 {
        heap.refuse(number);
        let refusals = run_new(alloc, heap, gathering, kind, events, wanted)?;
        if heap.is_armed() {
            heap.refuse(0);
            return (refusals == 0 && unanswered.are_places()).then_some(number - 1);
        }
        match refusals {
            0 => unanswered.add(number)?,
            1 => {}
            _ => return None,
        }
    }
    None
}

/// What stands behind `engine` in the first line of an example.
fn kind_of(example: &str) -> &str {
    let first = example.lines().next().unwrap_or(example);
    let (_, kind) = first.split_once(' ').unwrap_or((first, "-"));
    kind
}

/// How many growths the run of the events of these lines has, this peer's where they name no other.
fn growths_from(
    alloc: Global,
    heap: Heap<'_>,
    gathering: Gathering,
    kind: &str,
    lines: &[Vec<Word<'_>>],
    peer: &Address,
    wanted: &str,
) -> Option<u64> {
    let events = events_of(alloc, lines, peer)?;
    growths_of(alloc, heap, gathering, kind, events.as_slice(), wanted)
}

/// How many growths the run of the events of these lines has, on an engine of this kind.
fn growths_of_lines(
    alloc: Global,
    heap: Heap<'_>,
    gathering: Gathering,
    kind: &str,
    lines: &[Vec<Word<'_>>],
    wanted: &str,
) -> Option<u64> {
    let peer = peer();
    growths_from(alloc, heap, gathering, kind, lines, &peer, wanted)
}

/// How many growths the run of an example has whose answers are those that are wanted.
fn run_lines(
    alloc: Global,
    heap: Heap<'_>,
    gathering: Gathering,
    example: &str,
    wanted: &str,
) -> Option<u64> {
    let lines = event_lines(alloc, example)?;
    growths_of_lines(
        alloc,
        heap,
        gathering,
        kind_of(example),
        lines.as_slice(),
        wanted,
    )
}

/// How many growths the run of an example has, where each of them that is refused in turn ends the first
/// run, and all that is gathered is the example's.
pub(super) fn run_growths(
    alloc: Global,
    heap: Heap<'_>,
    gathering: Gathering,
    example: &str,
) -> Option<u64> {
    let wanted = wanted_of(alloc, gathering, example)?;
    run_lines(alloc, heap, gathering, example, wanted.as_str())
}

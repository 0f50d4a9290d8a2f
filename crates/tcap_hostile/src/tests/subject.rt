//! What an example's lines are told to.

use super::outbox::Station;
use super::words::{Word, number, text};
use super::{alternatives, codec, dialogue, engine, invocations, outbox, waiting};
use ber_core::Feed;
use refusing::Refusing;
use std::alloc::Global;
use tcap_dialogue::Dialogue;
use tcap_engine::{Engine, Outbox};
use tcap_invocation::Invocations;

/// The memory of a subject.
pub(super) type Heap<'h> = &'h Refusing<Global>;

/// How a line was taken.
#[derive(Clone, Copy)]
pub(super) enum Told {
    /// Memory was refused.
    NoMemory,
    /// With an answer that takes no memory.
    Small,
    /// With one that may.
    Large,
}

/// What an example is about; its first line says which.
#[derive(Debug, Drop)]
pub(super) enum Subject<'h> {
    /// `engine`, of at most 4 dialogues; `engine 1`, of at most one; `engine idle`, whose dialogues may be
    /// idle for 500 milliseconds; `engine from DIALOGUE NUMBER`, by its counters. It waits 1,000 milliseconds
    /// for a Reject.
    Engine(Engine<Heap<'h>>),
    /// `engine` too, where it is called with an outbox.
    Station(Station<'h>),
    /// `engine` too, where it stands in a station.
    Waiting(tcap_station::Station<Heap<'h>>),
    /// `dialogue`, of the identifier 1.
    Dialogue(Dialogue<Heap<'h>>),
    /// `invocations`, which wait 1,000 milliseconds for a Reject.
    Invocations(Invocations<Heap<'h>>),
    /// `feed`.
    Feed(Feed<Heap<'h>>),
    /// `codec`: writers and texts.
    Codec,
    /// `alternatives`: public calls that no engine makes.
    Alternatives,
}

/// An engine that goes on with the counters that stand behind `engine from`.
fn resumed_engine<'h>(heap: Heap<'h>, words: &[Word<'_>]) -> Option<Engine<Heap<'h>>> {
    let next_dialogue = number(words, 2)?;
    let next_number = number(words, 3)?;
    Some(engine::resumed(heap, next_dialogue, next_number))
}

/// The engine that the words behind `engine` say.
fn engine_of<'h>(heap: Heap<'h>, words: &[Word<'_>]) -> Option<Engine<Heap<'h>>> {
    let kind = text(words, 1);
    if kind == "from" {
        return resumed_engine(heap, words);
    }
    Some(engine::new_engine(heap, kind))
}

impl<'h> Subject<'h> {
    /// What one layer alone is asked of; the codec where the word names no other.
    fn of_layer(heap: Heap<'h>, word: &str) -> Subject<'h> {
        match word {
            "dialogue" => Subject::Dialogue(Dialogue::fresh(heap, 1, 1000, 0)),
            "invocations" => Subject::Invocations(Invocations::new(heap, 1000)),
            "feed" => Subject::Feed(Feed::new(heap)),
            "alternatives" => Subject::Alternatives,
            _ => Subject::Codec,
        }
    }

    /// The subject that the words of an example's first line say; the codec, which knows no line of an engine,
    /// where they say none.
    pub(super) fn new(heap: Heap<'h>, words: &[Word<'_>]) -> Subject<'h> {
        let word = text(words, 0);
        if word != "engine" {
            return Subject::of_layer(heap, word);
        }
        match engine_of(heap, words) {
            Some(engine) => Subject::Engine(engine),
            None => Subject::Codec,
        }
    }

    /// An engine is called with an outbox; any other subject stays as it is.
    pub(super) fn with_outbox(self, heap: Heap<'h>) -> Subject<'h> {
        match self {
            Subject::Engine(engine) => Subject::Station(Station {
                engine,
                outbox: Outbox::new(heap),
            }),
            other => other,
        }
    }

    /// A station in place of an engine; any other subject stays as it is.
    pub(super) fn with_station(self, heap: Heap<'h>, words: &[Word<'_>]) -> Subject<'h> {
        match (&self, waiting::station_of(heap, words)) {
            (Subject::Engine(_), Some(station)) => Subject::Waiting(station),
            _ => self,
        }
    }

    /// Tells it a line, and adds the lines of its answer; nothing where it doesn't know the line, or
    /// where memory for the lines is refused.
    pub(super) fn tell(
        &mut self,
        alloc: Global,
        heap: Heap<'h>,
        words: &[Word<'_>],
        told: &mut String,
    ) -> Option<Told> {
        match self {
            Subject::Engine(engine) => engine::tell(alloc, engine, words, told),
            Subject::Station(station) => outbox::tell(alloc, station, words, told),
            Subject::Waiting(station) => waiting::tell(alloc, station, words, told),
            Subject::Dialogue(dialogue) => dialogue::tell(alloc, heap, dialogue, words, told),
            Subject::Invocations(list) => invocations::tell(list, words, told),
            Subject::Feed(feed) => codec::push(alloc, feed, words, told),
            Subject::Codec => codec::tell(alloc, heap, words, told),
            Subject::Alternatives => alternatives::tell(alloc, heap, words, told),
        }
    }
}

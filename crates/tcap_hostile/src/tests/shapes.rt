//! Two engines of equal limits to which the same events come, drawn by lot: one answers vectors, the other appends to
//! an outbox. Memory is refused to each now and then, and a refused call is made again; both have to answer the same.

use super::compared::is_same;
use super::drawn::{Lot, Parts, draw_request};
use super::outbox::call;
use super::subject::Heap;
use refusing::Refusing;
use std::alloc::Global;
use std::mem;
use std::test::Fail;
use tcap_engine::{Answer, Answered, Engine, Event, Fault, Limits, Outbox, Output};

/// How many events come, by each seed.
const TURNS: u32 = 5_000;

/// How many messages are on their way at most.
const UNDER_WAY: usize = 16;

/// From so many outputs on the outbox is cleared before a call.
const MANY: usize = 40;

/// Makes the call of an event whose outputs are appended to an outbox: nothing where memory is refused.
fn appended<'h>(
    engine: &mut Engine<Heap<'h>>,
    event: &Event<'_>,
    outbox: &mut Outbox<Heap<'h>>,
) -> Option<Answered> {
    match call(engine, event, outbox) {
        Some(Ok(())) => Some(Answered::Outputs),
        Some(Err(Fault::OutOfMemory)) => None,
        Some(Err(fault)) => Some(Answered::Refused(fault)),
        None => engine.handle_into(event, outbox).ok(),
    }
}

/// The two engines, and what is on its way from each to itself.
#[derive(Drop)]
struct Pair<'h> {
    lot: Lot,
    vector_heap: Heap<'h>,
    outbox_heap: Heap<'h>,
    by_vector: Engine<Heap<'h>>,
    by_outbox: Engine<Heap<'h>>,
    outbox: Outbox<Heap<'h>>,
    /// Dialogues that were created; some are over.
    dialogues: Vec<u32>,
    under_way: Vec<Vec<u8>>,
    /// How many outputs were compared.
    outputs: u64,
    /// How often memory was refused to each.
    refusals: [u64; 2],
}

impl<'h> Pair<'h> {
    /// Two engines in which nothing has happened.
    fn new(alloc: Global, vector_heap: Heap<'h>, outbox_heap: Heap<'h>, seed: u64) -> Pair<'h> {
        let limits = Limits {
            max_dialogues: 24,
            reject_ms: 60,
            idle_ms: 900,
        };
        Pair {
            lot: Lot(seed),
            vector_heap,
            outbox_heap,
            by_vector: Engine::new(vector_heap, limits),
            by_outbox: Engine::new(outbox_heap, limits),
            outbox: Outbox::new(outbox_heap),
            dialogues: Vec::new(alloc),
            under_way: Vec::new(alloc),
            outputs: 0,
            refusals: [0, 0],
        }
    }

    /// A dialogue that was created, 0 where none was; one that is over is forgotten.
    fn draw_dialogue(&mut self) -> u32 {
        let count = self.dialogues.len();
        let place = self.lot.place(count);
        let Some(dialogue) = self.dialogues.get(place).copied() else {
            return 0;
        };
        if self.by_vector.state_of(dialogue).is_none() {
            if let (Some(last), Some(slot)) = (
                self.dialogues.pop(),
                self.dialogues.get_mut(place),
            ) {
                *slot = last;
            }
        }
        dialogue
    }

    /// A message that was sent, no octets where none is under way. Most arrive once; some twice, some damaged.
    fn draw_message(&mut self, alloc: Global) -> Option<Vec<u8>> {
        let count = self.under_way.len();
        let place = self.lot.place(count);
        let Some(slot) = self.under_way.get_mut(place) else {
            return Some(Vec::new(alloc));
        };
        if self.lot.is_one_in(16) {
            return slot.to_vec(alloc).ok();
        }
        let mut message = mem::replace(slot, Vec::new(alloc));
        if let (Some(last), Some(slot)) = (self.under_way.pop(), self.under_way.get_mut(place)) {
            *slot = last;
        }
        if self.lot.is_one_in(16) {
            let place = self.lot.place(message.len());
            if let Some(octet) = message.get_mut(place) {
                *octet = self.lot.octet();
            }
        }
        Some(message)
    }

    /// A message was sent: it takes the place of another where many are under way.
    fn send(&mut self, alloc: Global, bytes: &[u8]) -> Option<()> {
        let message = bytes.to_vec(alloc).ok()?;
        if self.under_way.len() < UNDER_WAY {
            return self.under_way.push(message).ok();
        }
        let place = self.lot.place(UNDER_WAY);
        *self.under_way.get_mut(place)? = message;
        Some(())
    }

    /// What is sent goes on its way, and what is created can be drawn.
    fn note(&mut self, alloc: Global, answer: &Answer<'_, Heap<'h>>) -> Option<()> {
        match answer {
            Answer::NewDialogue(dialogue) => self.dialogues.push(*dialogue).ok()?,
            Answer::Outputs(outputs) => {
                for output in outputs {
                    self.outputs = self.outputs.saturating_add(1);
                    match output {
                        Output::Send { bytes, .. } => self.send(alloc, bytes)?,
                        Output::Begin { dialogue, .. } => self.dialogues.push(*dialogue).ok()?,
                        _ => {}
                    }
                }
            }
            _ => {}
        }
        Some(())
    }

    /// The number of a growth to refuse, 0 for none.
    fn draw_growth(&mut self) -> u64 {
        match self.lot.below(12) {
            0..=1 => 1,
            2 => 2,
            3 => 3,
            _ => 0,
        }
    }

    /// Hands an event to the engine that answers a vector; where memory was refused, twice.
    fn answer<'m>(&mut self, event: &Event<'m>) -> Option<Answer<'m, Heap<'h>>> {
        let growth = self.draw_growth();
        let heap = self.vector_heap;
        heap.refuse(growth);
        let answer = self.by_vector.handle(event);
        heap.refuse(0);
        if let Ok(answer) = answer {
            return Some(answer);
        }
        let [refusals, _] = &mut self.refusals;
        *refusals = refusals.saturating_add(1);
        self.by_vector.handle(event).ok()
    }

    /// Hands an event to the engine that appends; where memory was refused, and nothing appended, twice.
    fn append(&mut self, event: &Event<'_>) -> Option<Answered> {
        let first = self.outbox.len();
        let growth = self.draw_growth();
        let heap = self.outbox_heap;
        heap.refuse(growth);
        let answered = appended(&mut self.by_outbox, event, &mut self.outbox);
        heap.refuse(0);
        if answered.is_some() {
            return answered;
        }
        let [_, refusals] = &mut self.refusals;
        *refusals = refusals.saturating_add(1);
        if self.outbox.len() != first {
            return None;
        }
        appended(&mut self.by_outbox, event, &mut self.outbox)
    }

    /// Hands an event to both; nothing where they differ.
    fn take(&mut self, alloc: Global, event: &Event<'_>) -> Option<()> {
        let first = self.outbox.len();
        let answer = self.answer(event)?;
        let answered = self.append(event)?;
        let is_same = is_same(alloc, &answer, answered, &self.outbox, first)?
            && self.by_vector.next_timer() == self.by_outbox.next_timer();
        self.note(alloc, &answer)?;
        is_same.then_some(())
    }

    /// An event comes.
    fn turn(&mut self, alloc: Global, parts: &Parts) -> Option<()> {
        if self.outbox.len() >= MANY {
            self.outbox.clear();
            self.outbox.shrink();
        }
        match self.lot.below(16) {
            0 => self.take(alloc, &Event::NewDialogue),
            1..=2 => {
                let wait = u64::from(self.lot.below(60));
                let moment = self.by_vector.now().saturating_add(wait);
                self.take(alloc, &Event::Moment(moment))
            }
            3..=7 if !self.under_way.is_empty() => {
                let message = self.draw_message(alloc)?;
                let from = parts.address(&mut self.lot);
                self.take(alloc, &Event::Bytes(from, message.as_slice()))
            }
            _ => {
                let dialogue = self.draw_dialogue();
                let state = self.by_vector.state_of(dialogue);
                let request = draw_request(&mut self.lot, parts, state);
                self.take(alloc, &Event::of(dialogue, request))
            }
        }
    }
}

#[test]
fn vectors_and_outbox_are_the_same(rt: HostRuntime) -> Result<(), Fail> {
    let alloc = rt.alloc();
    let parts = Parts::new(alloc).ok_or("no memory")?;
    for seed in [1u64, 2] {
        let vector_heap = Refusing::new(alloc);
        let outbox_heap = Refusing::new(alloc);
        let mut pair = Pair::new(alloc, &vector_heap, &outbox_heap, seed);
        for turn in 0..TURNS {
            assert!(rt;
                pair.turn(alloc, &parts).is_some(),
                "seed {seed}, turn {turn}"
            );
        }
        let Pair {
            outputs,
            refusals: [of_vectors, of_outbox],
            ..
        } = &pair;
        assert!(rt;
            *outputs > 2_000 && *of_vectors > 200 && *of_outbox > 100,
            "{outputs} outputs, {of_vectors} and {of_outbox} refusals"
        );
    }
    Ok(())
}

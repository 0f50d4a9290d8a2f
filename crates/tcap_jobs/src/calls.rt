//! Long dialogues between two engines, as call control and interactive services have them: operations both
//! ways, several at a time, with linked ones, errors and rejects; some dialogues have hundreds under way.

mod users;

use crate::digest::Digest;
use crate::lot::Lot;
use crate::network::{Way, addresses, draw_way};
use crate::octets::{context, put, put_head, put_invoke, spoil, whole};
use std::alloc::Global;
use tcap_engine::{Address, Ending, Engine, Limits, Output};

/// How many calls are under way.
const CALLS: usize = 512;

/// How many invocations of the other side wait for an answer at most.
const MOST_WAITING: usize = 256;

/// One end of a call.
#[derive(Drop)]
struct End {
    dialogue: u32,
    /// The invocations of the other end that wait for an answer.
    waiting: Vec<i8>,
    /// The identifier of the next invocation.
    next_id: i8,
}

/// A call, with both its ends.
#[derive(Drop)]
struct Call {
    first: End,
    second: End,
    /// How many messages are still to come.
    left: u32,
    /// Whether it has hundreds of invocations.
    is_large: bool,
}

/// Two engines and their users.
#[derive(Drop)]
struct Network {
    engines: [Engine; 2],
    addresses: Vec<Address>,
    lot: Lot,
    digest: Digest,
    /// The message that is on its way.
    message: Vec<u8>,
    parameter: Vec<u8>,
}

/// The side beyond a side.
fn beyond(side: usize) -> usize {
    1usize.saturating_sub(side)
}

/// An end at which nothing has happened.
fn first_end(alloc: Global) -> End {
    End {
        dialogue: 0,
        waiting: Vec::new(alloc),
        next_id: 1,
    }
}

impl Network {
    /// Keeps the message that a side sends, and adds what it sends and tells to the digest: whether there is one.
    fn keep(&mut self, outputs: &[Output<'_>]) -> Option<bool> {
        self.digest.outputs(outputs);
        for output in outputs {
            if let Output::Send { bytes, .. } = output {
                self.message.clear();
                put(&mut self.message, bytes)?;
                return Some(true);
            }
        }
        Some(false)
    }

    /// The message comes to a side: what waits for an answer there then.
    fn hear(&mut self, side: usize, end: &mut End) -> Option<()> {
        let from = self.addresses.get(beyond(side))?;
        let engine = self.engines.get_mut(side)?;
        let told = engine.receive(from, &self.message).ok()?;
        self.digest.outputs(&told);
        for output in &told {
            if let Output::Begin { dialogue, .. } = output {
                end.dialogue = *dialogue;
            } else if let Output::Invoked { id, .. } = output {
                if end.waiting.len() < MOST_WAITING {
                    end.waiting.push(*id).ok()?;
                }
            }
        }
        Some(())
    }

    /// The message is on its way to a side.
    fn deliver(&mut self, side: usize, end: &mut End) -> Option<()> {
        match draw_way(&mut self.lot) {
            Way::Lost => return Some(()),
            Way::Repeated => self.hear(side, end)?,
            Way::Damaged => spoil(&mut self.message, 0, &mut self.lot),
            Way::Arrives | Way::Late => {}
        }
        self.hear(side, end)
    }

    /// A side sends what it asked for in a Continue, or in an End where that is the last message.
    fn send(
        &mut self,
        side: usize,
        here: &mut End,
        there: &mut End,
        is_last: bool,
        is_large: bool,
    ) -> Option<()> {
        self.ask(side, here, is_large)?;
        let engine = self.engines.get_mut(side)?;
        let answer = if is_last {
            engine.finish(here.dialogue, Ending::Basic, None, &[])
        } else {
            engine.go_on(here.dialogue, None, &[])
        };
        match answer {
            Ok(outputs) => {
                if self.keep(&outputs)? {
                    self.deliver(beyond(side), there)?;
                }
            }
            Err(fault) => self.digest.fault(fault),
        }
        Some(())
    }

    /// A call begins: with a Begin that the second side answers by a Continue.
    fn begin(&mut self, here: &mut End, there: &mut End) -> Option<()> {
        here.waiting.clear();
        there.waiting.clear();
        there.dialogue = 0;
        here.dialogue = self.engines.get_mut(0)?.new_dialogue().ok()?;
        self.invoke(0, here, false)?;
        let context = context(self.lot.octet());
        let to = self.addresses.get(1)?;
        let first = self.engines.get_mut(0)?;
        let sent = first.begin(here.dialogue, to, Some(&context), &[]).ok()?;
        if self.keep(&sent)? {
            self.hear(1, there)?;
        }
        self.ask(1, there, false)?;
        let second = self.engines.get_mut(1)?;
        let sent = second.go_on(there.dialogue, Some(&context), &[]).ok()?;
        if self.keep(&sent)? {
            self.hear(0, here)?;
        }
        Some(())
    }

    /// An end whose other end is gone is ended as arranged.
    fn end(&mut self, side: usize, dialogue: u32) -> Option<()> {
        let engine = self.engines.get_mut(side)?;
        match engine.finish(dialogue, Ending::Prearranged, None, &[]) {
            Ok(outputs) => self.digest.outputs(&outputs),
            Err(fault) => self.digest.fault(fault),
        }
        Some(())
    }

    /// Whether the dialogue of a side stands.
    fn stands(&self, side: usize, dialogue: u32) -> bool {
        match self.engines.get(side) {
            Some(engine) => engine.state_of(dialogue).is_some(),
            None => false,
        }
    }

    /// A message with thousands of Invokes comes to the first end of a call.
    fn flood(&mut self, here: &mut End, there: u32) -> Option<()> {
        let count = self.lot.between(1_000, 3_000) as usize;
        let components = count.saturating_mul(16);
        let message = &mut self.message;
        message.clear();
        put_head(message, 0x65, whole(components).saturating_add(12))?;
        put(message, &[0x48, 0x04])?;
        put(message, &there.to_be_bytes())?;
        put(message, &[0x49, 0x04])?;
        put(message, &here.dialogue.to_be_bytes())?;
        put_head(message, 0x6c, components)?;
        for _ in 0..count {
            let id = self.lot.octet();
            put_invoke(message, &mut self.lot, id, 6)?;
        }
        self.hear(0, here)
    }

    /// A turn of a call: it begins, or goes on by a message of one side, or ends.
    fn turn(&mut self, call: &mut Call) -> Option<()> {
        let (first, second) = (call.first.dialogue, call.second.dialogue);
        if !(self.stands(0, first) && self.stands(1, second)) {
            self.end(0, first)?;
            self.end(1, second)?;
            self.begin(&mut call.first, &mut call.second)?;
            call.left = self.lot.between(20, 60);
            call.is_large = self.lot.is_one_in(64);
        }
        if self.lot.is_one_in(8_192) {
            let there = call.second.dialogue;
            self.flood(&mut call.first, there)?;
        }
        call.left = call.left.saturating_sub(1);
        let (is_last, is_large) = (call.left == 0, call.is_large);
        if self.lot.is_one_in(2) {
            self.send(0, &mut call.first, &mut call.second, is_last, is_large)?;
        } else {
            self.send(1, &mut call.second, &mut call.first, is_last, is_large)?;
        }
        if self.lot.is_one_in(4) {
            self.pass()?;
        }
        Some(())
    }

    /// A millisecond passes at both sides.
    fn pass(&mut self) -> Option<()> {
        for engine in &mut self.engines {
            let moment = engine.now().saturating_add(1);
            self.digest.outputs(&engine.advance(moment).ok()?);
        }
        Some(())
    }
}

/// So many turns: the digest of all that was answered; nothing where memory runs out.
pub(crate) fn run(alloc: Global, seed: u32, turns: u32) -> Option<u64> {
    let limits = Limits {
        max_dialogues: 65_535,
        reject_ms: 200,
        idle_ms: 0,
    };
    let mut lot = Lot::new(alloc, seed)?;
    let addresses = addresses(alloc, &mut lot, 2)?;
    let mut network = Network {
        engines: [Engine::new(alloc, limits), Engine::new(alloc, limits)],
        addresses,
        lot,
        digest: Digest::new(),
        message: Vec::new(alloc),
        parameter: Vec::new(alloc),
    };
    let mut calls = Vec::with_capacity(alloc, CALLS).ok()?;
    for _ in 0..CALLS {
        let call = Call {
            first: first_end(alloc),
            second: first_end(alloc),
            left: 0,
            is_large: false,
        };
        calls.push(call).ok()?;
    }
    for _ in 0..turns {
        let at = network.lot.index(CALLS);
        network.turn(calls.get_mut(at)?)?;
    }
    Some(network.digest.value())
}

//! A node of the network: its engine, the peers that it talks to, and the digest of what it answers.

ghost use Rattle.tcap_engine.specs.Limits.{AreLimits};

use crate::digest::Digest;
use crate::lot::Lot;
use crate::network::{Way, addresses, draw_way};
use crate::octets::spoil;
use std::alloc::Global;
use tcap_engine::{Address, Ending, Engine, Fault, Indication, Limits, Outbox, Output, OutputRef};

/// How many peers there are.
const PEERS: usize = 300;

/// An engine with what comes to it and what it answered.
#[derive(Drop)]
pub(crate) struct Node {
    pub(crate) engine: Engine,
    pub(crate) lot: Lot,
    pub(crate) digest: Digest,
    /// Where the answers of the calls go that can append to one; else each has a vector of its own.
    outbox: Option<Outbox>,
    peers: Vec<Address>,
    /// The message that was late last: it comes where the next one is late.
    late: Vec<u8>,
}

impl Node {
    /// A node in which nothing has happened.
    pub(crate) fn new(alloc: Global, seed: u32, limits: Limits) -> Option<Node>
        requires { AreLimits limits }
    {
        let mut lot = Lot::new(alloc, seed)?;
        let peers = addresses(alloc, &mut lot, PEERS)?;
        Some(Node {
            engine: Engine::new(alloc, limits),
            lot,
            digest: Digest::new(),
            outbox: None,
            peers,
            late: Vec::new(alloc),
        })
    }

    /// From now on the answers go to an outbox.
    pub(crate) fn take_outbox(&mut self, outbox: Outbox) {
        self.outbox = Some(outbox);
    }

    /// A peer drawn by lot.
    pub(crate) fn peer(&mut self) -> Address {
        let at = self.lot.index(self.peers.len());
        match self.peers.get(at) {
            Some(peer) => peer.copied(),
            None => Address::empty(),
        }
    }

    /// A message comes: the dialogue that it begins, 0 where it begins none.
    pub(crate) fn hear(&mut self, octets: &[u8]) -> Option<u32> {
        let at = self.lot.index(self.peers.len());
        let peer = self.peers.get(at)?;
        if let Some(outbox) = &mut self.outbox {
            outbox.clear();
            self.engine.receive_into(peer, octets, outbox).ok()?;
            self.digest.outbox(outbox);
            return Some(begun_in(outbox));
        }
        let told = self.engine.receive(peer, octets).ok()?;
        self.digest.outputs(&told);
        Some(begun(&told))
    }

    /// A message is on its way: the dialogue that it begins, 0 where it begins none.
    pub(crate) fn send(&mut self, message: &mut Vec<u8>) -> Option<u32> {
        match draw_way(&mut self.lot) {
            Way::Arrives => return self.hear(message),
            Way::Lost => {}
            Way::Late => {
                std::mem::swap(&mut self.late, message);
                return self.hear(message);
            }
            Way::Repeated => {
                self.hear(message)?;
                return self.hear(message);
            }
            Way::Damaged => {
                spoil(message, 0, &mut self.lot);
                return self.hear(message);
            }
        }
        Some(0)
    }

    /// What a request that sends was answered.
    pub(crate) fn answered(&mut self, answer: Result<Vec<Output<'_>>, Fault>) {
        match answer {
            Ok(outputs) => self.digest.outputs(&outputs),
            Err(fault) => self.digest.fault(fault),
        }
    }

    /// What a request on a component was answered: whether it was queued.
    pub(crate) fn queued(&mut self, answer: Result<(), Fault>) {
        if let Err(fault) = answer {
            self.digest.fault(fault);
        }
    }

    /// What a request that has a number was answered.
    pub(crate) fn numbered(&mut self, answer: Result<u64, Fault>) {
        match answer {
            Ok(number) => self.digest.number(number),
            Err(fault) => self.digest.fault(fault),
        }
    }

    /// What a request that sends into the outbox was answered.
    fn appended(&mut self, answer: Result<(), Fault>) {
        match (answer, &self.outbox) {
            (Ok(()), Some(outbox)) => self.digest.outbox(outbox),
            (Ok(()), None) => {}
            (Err(fault), _) => self.digest.fault(fault),
        }
    }

    /// A basic end of a dialogue.
    pub(crate) fn finish(&mut self, dialogue: u32, context: &[u8]) {
        let (basic, context) = (Ending::Basic, Some(context));
        if let Some(outbox) = &mut self.outbox {
            outbox.clear();
            let ended = self
                .engine
                .finish_into(dialogue, basic, context, &[], outbox);
            return self.appended(ended);
        }
        let ended = self.engine.finish(dialogue, basic, context, &[]);
        self.answered(ended);
    }

    /// A millisecond passes.
    pub(crate) fn pass(&mut self) {
        let moment = self.engine.now().saturating_add(1);
        if let Some(outbox) = &mut self.outbox {
            outbox.clear();
            let told = self.engine.advance_into(moment, outbox);
            return self.appended(told);
        }
        let told = self.engine.advance(moment);
        self.answered(told);
    }
}

/// The dialogue that a message begins, 0 where it begins none.
pub(crate) fn begun(told: &[Output<'_>]) -> u32 {
    if let Some(Output::Begin { dialogue, .. }) = told.first() {
        return *dialogue;
    }
    0
}

/// The dialogue that begins with what an outbox holds, 0 where none does.
fn begun_in(outbox: &Outbox) -> u32 {
    let Some(output) = outbox.get(0) else {
        return 0;
    };
    let OutputRef::Indication(Indication::Begin { dialogue, .. }) = output else {
        return 0;
    };
    dialogue
}

//! A node of the network, and the one that it talks to.

ghost use Rattle.std.specs.Prelude.{◌≤◌, ◌^◌};

use crate::invocation_steps::invoke;
use std::alloc::Global;
use tcap_engine::{Address, Ending, Engine, Indication, Limits, Outbox, Output, OutputRef};

/// What a step asks of a node, by calls that answer vectors or by calls that append to an outbox: how many
/// outputs each gives.
pub(crate) trait Calls {
    fn engine(&mut self) -> &mut Engine;

    /// TC-BEGIN request to the peer.
    fn begin(&mut self, dialogue: u32) -> Option<u64>;

    /// TC-CONTINUE request.
    fn go_on(&mut self, dialogue: u32) -> Option<u64>;

    /// TC-END request, a basic end.
    fn finish(&mut self, dialogue: u32) -> Option<u64>;

    /// A message of the peer.
    fn receive(&mut self, bytes: &[u8]) -> Option<u64>;

    /// A Begin of the peer: the dialogue too.
    fn receive_begin(&mut self, bytes: &[u8]) -> Option<(u32, u64)>;

    /// A moment, in milliseconds.
    fn advance(&mut self, now: u64) -> Option<u64>;

    /// A moment, and an Invoke and a Continue of each dialogue that lapses.
    fn lapse_and_go_on(&mut self, now: u64, timeout_ms: u64) -> Option<u64>;
}

/// An engine, and the address of its peer, to which all its messages go and from which all messages come.
#[derive(Drop)]
pub(crate) struct Node {
    pub(crate) engine: Engine,
    pub(crate) peer: Address,
}

impl Node {
    /// A node of as many dialogues as there may be, with an idle limit in milliseconds, 0 for none.
    pub(crate) fn new(alloc: Global, idle_ms: u64) -> Node
        requires { idle_ms ≤ 2 ^ 62 }
    {
        let limits = Limits {
            max_dialogues: 65_535,
            reject_ms: 0,
            idle_ms,
        };
        Node {
            engine: Engine::new(alloc, limits),
            peer: peer(),
        }
    }
}

impl Calls for Node {
    fn engine(&mut self) -> &mut Engine {
        &mut self.engine
    }

    fn begin(&mut self, dialogue: u32) -> Option<u64> {
        let sent = self.engine.begin(dialogue, &self.peer, None, &[]).ok()?;
        Some(sent.len() as u64)
    }

    fn go_on(&mut self, dialogue: u32) -> Option<u64> {
        Some(self.engine.go_on(dialogue, None, &[]).ok()?.len() as u64)
    }

    fn finish(&mut self, dialogue: u32) -> Option<u64> {
        let sent = self.engine.finish(dialogue, Ending::Basic, None, &[]).ok()?;
        Some(sent.len() as u64)
    }

    fn receive(&mut self, bytes: &[u8]) -> Option<u64> {
        Some(self.engine.receive(&self.peer, bytes).ok()?.len() as u64)
    }

    fn receive_begin(&mut self, bytes: &[u8]) -> Option<(u32, u64)> {
        let told = self.engine.receive(&self.peer, bytes).ok()?;
        let Output::Begin { dialogue, .. } = *told.first()? else {
            return None;
        };
        Some((dialogue, told.len() as u64))
    }

    fn advance(&mut self, now: u64) -> Option<u64> {
        Some(self.engine.advance(now).ok()?.len() as u64)
    }

    fn lapse_and_go_on(&mut self, now: u64, timeout_ms: u64) -> Option<u64> {
        let told = self.engine.advance(now).ok()?;
        let mut count = told.len() as u64;
        for output in &told {
            if let Output::Lapsed { dialogue, id, .. } = *output {
                invoke(&mut self.engine, dialogue, id, timeout_ms)?;
                count = count.saturating_add(self.go_on(dialogue)?);
            }
        }
        Some(count)
    }
}

/// A node whose calls append their outputs to one outbox, which is cleared before each.
#[derive(Drop)]
pub(crate) struct OutboxNode {
    node: Node,
    outbox: Outbox,
}

impl OutboxNode {
    /// As `Node::new`, with an outbox.
    pub(crate) fn new(alloc: Global, idle_ms: u64) -> OutboxNode
        requires { idle_ms ≤ 2 ^ 62 }
    {
        OutboxNode {
            node: Node::new(alloc, idle_ms),
            outbox: Outbox::new(alloc),
        }
    }

    /// How many outputs a call gave.
    fn given(&self) -> Option<u64> {
        Some(self.outbox.len() as u64)
    }
}

impl Calls for OutboxNode {
    fn engine(&mut self) -> &mut Engine {
        &mut self.node.engine
    }

    fn begin(&mut self, dialogue: u32) -> Option<u64> {
        self.outbox.clear();
        self.node
            .engine
            .begin_into(dialogue, &self.node.peer, None, &[], &mut self.outbox)
            .ok()?;
        self.given()
    }

    fn go_on(&mut self, dialogue: u32) -> Option<u64> {
        self.outbox.clear();
        self.node
            .engine
            .go_on_into(dialogue, None, &[], &mut self.outbox)
            .ok()?;
        self.given()
    }

    fn finish(&mut self, dialogue: u32) -> Option<u64> {
        self.outbox.clear();
        self.node
            .engine
            .finish_into(dialogue, Ending::Basic, None, &[], &mut self.outbox)
            .ok()?;
        self.given()
    }

    fn receive(&mut self, bytes: &[u8]) -> Option<u64> {
        self.outbox.clear();
        self.node
            .engine
            .receive_into(&self.node.peer, bytes, &mut self.outbox)
            .ok()?;
        self.given()
    }

    fn receive_begin(&mut self, bytes: &[u8]) -> Option<(u32, u64)> {
        let told = self.receive(bytes)?;
        let OutputRef::Indication(Indication::Begin { dialogue, .. }) = self.outbox.get(0)? else {
            return None;
        };
        Some((dialogue, told))
    }

    fn advance(&mut self, now: u64) -> Option<u64> {
        self.outbox.clear();
        self.node.engine.advance_into(now, &mut self.outbox).ok()?;
        self.given()
    }

    fn lapse_and_go_on(&mut self, now: u64, timeout_ms: u64) -> Option<u64> {
        let told = self.advance(now)?;
        for index in 0..told as usize {
            if let OutputRef::Indication(Indication::Lapsed { dialogue, id, .. }) = self
                .outbox
                .get(index)?
            {
                invoke(&mut self.node.engine, dialogue, id, timeout_ms)?;
                self.node
                    .engine
                    .go_on_into(dialogue, None, &[], &mut self.outbox)
                    .ok()?;
            }
        }
        self.given()
    }
}

/// The address of the peer: one octet.
pub(crate) fn peer() -> Address {
    address(0x02)
}

/// An address of one octet.
pub(crate) fn address(octet: u8) -> Address {
    match Address::new(&[octet]) {
        Some(address) => address,
        None => unreachable!(),
    }
}

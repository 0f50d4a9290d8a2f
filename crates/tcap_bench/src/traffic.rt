//! Traffic drawn by lot: an engine with many dialogues takes requests, messages and moments, some of them
//! out of place, and all that it answers goes into one number.

mod digest;
mod lot;
mod messages;
mod requests;

ghost use Rattle.std.specs.Prelude.{◌≡◌, IfSome};

use crate::node::address;
use digest::Digest;
use lot::Lot;
use std::alloc::Global;
use tcap_engine::{Address, Answer, Engine, Event, Limits, Output};

/// How long an invoke identifier waits for a Reject, in milliseconds.
const REJECT_MS: u64 = 500;

/// An engine with its traffic: what comes is drawn by the lot, what it answers is in the digest.
#[derive(Drop)]
struct Traffic {
    engine: Engine,
    /// How many dialogues there are at most.
    dialogues: u32,
    lot: Lot,
    digest: Digest,
}

impl Traffic {
    /// An event comes: the dialogue that it makes, if it makes one.
    fn take(&mut self, event: &Event) -> Option<Option<u32>> {
        let answer = self.engine.handle(event).ok()?;
        self.digest.add(&answer)?;
        Some(dialogue_of(&answer))
    }

    /// A dialogue is begun by this side with an Invoke, or by the peer: its identifier, 0 where none is left.
    fn begin(&mut self, peer: &Address) -> Option<u32> {
        if self.lot.below(2) == 0 {
            let born = self.take(&Event::Bytes(peer, &messages::BEGIN))?;
            return Some(born.unwrap_or(0));
        }
        let dialogue = self.take(&Event::NewDialogue)?.unwrap_or(0);
        for request in [
            requests::invoke(&mut self.lot, self.dialogues),
            requests::begin(peer),
        ] {
            self.take(&Event::of(dialogue, request))?;
        }
        Some(dialogue)
    }

    /// Something comes to a dialogue that stands: a moment, a message or a request.
    fn go_on(&mut self, peer: &Address, dialogue: u32) -> Option<()> {
        match self.lot.below(16) {
            0 => {
                let moment = self.engine.now().saturating_add(self.lot.below(32) as u64);
                self.take(&Event::Moment(moment))?;
            }
            1..=5 => self.hear(peer, dialogue)?,
            _ => {
                let request = requests::any(&mut self.lot, self.dialogues, peer);
                self.take(&Event::of(dialogue, request))?;
            }
        }
        Some(())
    }

    /// A message comes to a dialogue, or one that is spoiled.
    fn hear(&mut self, peer: &Address, dialogue: u32) -> Option<()> {
        let id = self.lot.id();
        match self.lot.below(9) {
            0..=2 => self.take(&Event::Bytes(peer, &messages::result_to(dialogue, id)))?,
            3 => self.take(&Event::Bytes(peer, &messages::end_to(dialogue, id)))?,
            4..=6 => {
                let component = messages::component(self.lot.below(3), id);
                self.take(&Event::Bytes(peer, &messages::continue_to(dialogue, component)))?
            }
            7 => self.take(&Event::Bytes(peer, &messages::abort_to(dialogue)))?,
            _ => {
                let spoiled = messages::spoiled(&mut self.lot, dialogue, id);
                self.take(&Event::Bytes(peer, &spoiled))?
            }
        };
        Some(())
    }

    /// One event, or those that create a dialogue, at a place drawn by lot. A place has the dialogue that was created there
    /// last; where it is over, another is created.
    fn go_on_somewhere(&mut self, peer: &Address, places: &mut [u32]) -> Option<()> {
        let at = self.lot.below(self.dialogues) as usize;
        let place = places.get_mut(at)?;
        match self.engine.state_of(*place) {
            None => *place = self.begin(peer)?,
            Some(_) => self.go_on(peer, *place)?,
        }
        Some(())
    }
}

/// The dialogue that an answer tells of as new.
fn dialogue_of(answer: &Answer) -> Option<u32> {
    if let Answer::NewDialogue(dialogue) = answer {
        return Some(*dialogue);
    }
    let Answer::Outputs(outputs) = answer else {
        return None;
    };
    let Output::Begin { dialogue, .. } = outputs.first()? else {
        return None;
    };
    Some(*dialogue)
}

/// So many turns over these places: the digest of all that was answered.
fn digest_of(traffic: &mut Traffic, places: &mut [u32], turns: u32) -> Option<u64>
    requires { traffic.old.digest.value ≡ 0 }
    ensures { (turns ≡ 0) → IfSome result (λ digest. digest ≡ 0) }
{
    let peers = [address(0x02), address(0x03), address(0x04)];
    for _ in 0..turns {
        let peer = peers.get(traffic.lot.below(3) as usize)?;
        traffic.go_on_somewhere(peer, places)?;
    }
    Some(traffic.digest.value())
}

/// The digest of the answers; 0 where memory runs out.
pub fn traffic_digest(alloc: Global, seed: u64, dialogues: u16, turns: u32) -> u64
    ensures { (turns ≡ 0) → (result ≡ 0) }
{
    let mut lot = Lot::new(seed);
    // A turn takes a millisecond in the mean, so a dialogue is drawn some 16 times at most until it has been
    // idle too long.
    let longest = (dialogues as u32).saturating_mul(16);
    let limits = Limits {
        max_dialogues: 65_535,
        reject_ms: REJECT_MS,
        idle_ms: lot.below(longest) as u64 + 1,
    };
    let Ok(mut places) = vec![in alloc; 0u32; dialogues as usize] else {
        return 0;
    };
    let mut traffic = Traffic {
        engine: Engine::new(alloc, limits),
        dialogues: dialogues as u32,
        lot,
        digest: Digest::new(),
    };
    match digest_of(&mut traffic, &mut places, turns) {
        Some(digest) => digest,
        None => 0,
    }
}

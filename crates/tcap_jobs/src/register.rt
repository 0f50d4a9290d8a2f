//! A register under load: peers begin dialogues with an operation or two, and it answers and ends them.

use crate::lot::Lot;
use crate::node::Node;
use crate::octets::{context, invoke_len, put, put_drawn, put_head, put_invoke, request, whole};
use std::alloc::Global;
use tcap_component::{Body, Code};
use tcap_engine::{Limits, Outbox};

/// At so many places a dialogue stands or is about to be begun: some 20,000 stand at a time.
const PLACES: usize = 40_000;

/// Writes a Begin with an AARQ and one or two Invokes.
fn write_begin(out: &mut Vec<u8>, lot: &mut Lot) -> Option<()> {
    let first = lot.between(10, 120) as usize;
    let second = if lot.is_one_in(4) {
        Some(lot.between(10, 40) as usize)
    } else {
        None
    };
    let more = match second {
        Some(len) => invoke_len(len),
        None => 0,
    };
    let components = invoke_len(first).saturating_add(more);
    out.clear();
    put_head(out, 0x62, whole(components).saturating_add(38))?;
    put(out, &[0x48, 0x04])?;
    put(out, &lot.number().to_be_bytes())?;
    put(out, &request(context(lot.octet())))?;
    put_head(out, 0x6c, components)?;
    put_invoke(out, lot, 1, first)?;
    match second {
        Some(len) => put_invoke(out, lot, 2, len),
        None => Some(()),
    }
}

/// The dialogue is answered by a result, and ended.
fn answer(node: &mut Node, dialogue: u32, parameter: &mut Vec<u8>) -> Option<()> {
    parameter.clear();
    let len = node.lot.between(10, 120) as usize;
    put_drawn(parameter, &mut node.lot, 0x04, len)?;
    let body = Body {
        code: Code::Local(2),
        parameter: Some(parameter.as_slice()),
    };
    let queued = node.engine.result_last(dialogue, 1, Some(body));
    node.queued(queued);
    let context = context(node.lot.octet());
    node.finish(dialogue, &context);
    Some(())
}

/// A turn at a place: a dialogue is begun there, or the one that stands there is answered.
fn turn(node: &mut Node, places: &mut [u32], octets: &mut Vec<u8>) -> Option<()> {
    let at = node.lot.index(places.len());
    let place = places.get_mut(at)?;
    if node.engine.state_of(*place).is_some() {
        answer(node, *place, octets)?;
    } else {
        write_begin(octets, &mut node.lot)?;
        *place = node.send(octets)?;
    }
    if node.lot.is_one_in(4) {
        node.pass();
    }
    Some(())
}

/// So many turns, with the answers in an outbox if one is given: the digest of all that was answered; nothing where
/// memory runs out.
pub(crate) fn run(alloc: Global, seed: u32, turns: u32, outbox: Option<Outbox>) -> Option<u64> {
    let limits = Limits {
        max_dialogues: 65_535,
        reject_ms: 1_000,
        idle_ms: 0,
    };
    let mut node = Node::new(alloc, seed, limits)?;
    if let Some(outbox) = outbox {
        node.take_outbox(outbox);
    }
    let mut places = vec![in alloc; 0u32; PLACES].ok()?;
    let mut octets = Vec::new(alloc);
    for _ in 0..turns {
        turn(&mut node, &mut places, &mut octets)?;
    }
    Some(node.digest.value())
}

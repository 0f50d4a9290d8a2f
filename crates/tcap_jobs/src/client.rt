//! A client of a register: it begins dialogues with an operation, and the register answers and ends them.

use crate::lot::Lot;
use crate::node::Node;
use crate::octets::{context, put, put_drawn, put_head, put_result, response, result_len, whole};
use std::alloc::Global;
use tcap_component::Code;
use tcap_engine::{Ending, Limits};
use tcap_invocation::Class;

/// At so many places a dialogue stands or is about to be begun.
const PLACES: usize = 10_000;

/// No dialogue stands at a place.
const NOWHERE: Place = Place {
    dialogue: 0,
    id: 1,
    is_active: false,
};

/// A dialogue at its place.
#[derive(Clone, Copy)]
struct Place {
    dialogue: u32,
    /// The identifier of the invocation that is under way, 1 to 127.
    id: u8,
    /// Whether the peer went on before, so that no dialogue portion comes any more.
    is_active: bool,
}

/// Writes an End to a dialogue, or a Continue, with the result of its first invocation, and with an AARE
/// where the peer hasn't answered before.
fn write_answer(out: &mut Vec<u8>, lot: &mut Lot, place: &Place, goes_on: bool) -> Option<()> {
    let len = lot.between(10, 120) as usize;
    let components = result_len(len);
    let portion = if place.is_active { 0 } else { 44 };
    let origin = if goes_on { 6 } else { 0 };
    let contents = whole(components).saturating_add(6 + portion + origin);
    out.clear();
    if goes_on {
        put_head(out, 0x65, contents)?;
        put(out, &[0x48, 0x04])?;
        put(out, &lot.number().to_be_bytes())?;
    } else {
        put_head(out, 0x64, contents)?;
    }
    put(out, &[0x49, 0x04])?;
    put(out, &place.dialogue.to_be_bytes())?;
    if !place.is_active {
        put(out, &response(context(lot.octet())))?;
    }
    put_head(out, 0x6c, components)?;
    put_result(out, lot, place.id, len)
}

/// An operation is invoked.
fn invoke(node: &mut Node, dialogue: u32, id: u8, octets: &mut Vec<u8>) -> Option<()> {
    octets.clear();
    let len = node.lot.between(10, 120) as usize;
    put_drawn(octets, &mut node.lot, 0x04, len)?;
    let class = match node.lot.below(8) {
        0 => Class::Two,
        _ => Class::One,
    };
    let timeout_ms = u64::from(node.lot.between(15_000, 30_000));
    let parameter = Some(octets.as_slice());
    let code = Code::Local(2);
    let number = node.engine.invoke(
        dialogue,
        id.cast_signed(),
        class,
        code,
        parameter,
        None,
        timeout_ms,
    );
    node.numbered(number);
    Some(())
}

/// A dialogue is begun.
fn begin(node: &mut Node, octets: &mut Vec<u8>) -> Option<Place> {
    let Ok(dialogue) = node.engine.new_dialogue() else {
        return Some(NOWHERE);
    };
    invoke(node, dialogue, 1, octets)?;
    let peer = node.peer();
    let context = context(node.lot.octet());
    let sent = node.engine.begin(dialogue, &peer, Some(&context), &[]);
    node.answered(sent);
    Some(Place {
        dialogue,
        ..NOWHERE
    })
}

/// The user gives the invocation up, and ends the dialogue as it was arranged before.
fn give_up(node: &mut Node, place: Place) {
    let given_up = node.engine.u_cancel(place.dialogue, place.id.cast_signed());
    node.numbered(given_up);
    let ended = node
        .engine
        .finish(place.dialogue, Ending::Prearranged, None, &[]);
    node.answered(ended);
}

/// A dialogue that stands is answered: what stands at its place then. One in a hundred is given up, and one in
/// a hundred forgotten, so that its invocation lapses and its dialogue is idle too long.
fn go_on(node: &mut Node, place: Place, octets: &mut Vec<u8>) -> Option<Place> {
    match node.lot.below(100) {
        0 => give_up(node, place),
        1 => {
            return Some(NOWHERE);
        }
        2..20 => {
            write_answer(octets, &mut node.lot, &place, true)?;
            node.send(octets)?;
            let id = place.id % 127 + 1;
            invoke(node, place.dialogue, id, octets)?;
            let sent = node.engine.go_on(place.dialogue, None, &[]);
            node.answered(sent);
            return Some(Place {
                id,
                is_active: true,
                ..place
            });
        }
        _ => {
            write_answer(octets, &mut node.lot, &place, false)?;
            node.send(octets)?;
        }
    }
    Some(place)
}

/// A turn at a place: a dialogue is begun there, or something comes to the one that stands there.
fn turn(node: &mut Node, places: &mut [Place], octets: &mut Vec<u8>) -> Option<()> {
    let at = node.lot.index(places.len());
    let place = places.get_mut(at)?;
    *place = if node.engine.state_of(place.dialogue).is_some() {
        go_on(node, *place, octets)?
    } else {
        begin(node, octets)?
    };
    if node.lot.is_one_in(4) {
        node.pass();
    }
    Some(())
}

/// So many turns: the digest of all that was answered; nothing where memory runs out.
pub(crate) fn run(alloc: Global, seed: u32, turns: u32) -> Option<u64> {
    let limits = Limits {
        max_dialogues: 65_535,
        reject_ms: 1_000,
        idle_ms: 60_000,
    };
    let mut node = Node::new(alloc, seed, limits)?;
    let mut places = vec![in alloc; NOWHERE; PLACES].ok()?;
    let mut octets = Vec::new(alloc);
    for _ in 0..turns {
        turn(&mut node, &mut places, &mut octets)?;
    }
    Some(node.digest.value())
}

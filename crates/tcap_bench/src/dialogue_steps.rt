//! A dialogue taken so many steps far.

ghost use Rattle.std.specs.Prelude.{◌≡◌, ◌<◌, IfSome};

use crate::node::peer;
use std::alloc::Global;
use tcap_component::Code;
use tcap_dialogue::{Address, Dialogue};
use tcap_invocation::Class;
use tcap_pdu::read_frame;

/// The message to a dialogue that was begun, an answer, and the Continue with it: how many outputs these
/// steps give, on top of so many.
fn count_received(
    dialogue: &mut Dialogue,
    peer: &Address,
    count: u64,
    steps: u8,
    message: &[u8],
) -> Option<u64> {
    let frame = read_frame(message).ok()?;
    let told = dialogue.take_frame(peer, &frame, 1).ok()?;
    let count = count.saturating_add(told.outputs.len() as u64);
    if steps == 3 || told.over {
        return Some(count);
    }
    dialogue.result_last(1, None).ok()?;
    if steps == 4 {
        return Some(count);
    }
    let sent = dialogue.go_on(None, &[], 1).ok()?;
    Some(count.saturating_add(sent.outputs.len() as u64))
}

/// The Begin, and what follows it.
fn count_begun(dialogue: &mut Dialogue, peer: &Address, steps: u8, message: &[u8]) -> Option<u64> {
    let sent = dialogue.begin(peer, None, &[], 0).ok()?;
    let count = sent.outputs.len() as u64;
    if steps == 2 {
        return Some(count);
    }
    count_received(dialogue, peer, count, steps, message)
}

/// A new dialogue and all its steps; nothing where memory runs out or the message can't be read.
fn count_steps(alloc: Global, steps: u8, message: &[u8]) -> Option<u64>
    ensures { (steps < 2) → IfSome result (λ count. count ≡ 0) }
{
    let peer = peer();
    let mut dialogue = Dialogue::fresh(alloc, 1, 1000, 0);
    if steps == 0 {
        return Some(0);
    }
    dialogue
        .invoke(1, 1, Class::One, Code::Local(10), None, None, 1000)
        .ok()?;
    if steps == 1 {
        return Some(0);
    }
    count_begun(&mut dialogue, &peer, steps, message)
}

/// How many outputs the steps give; 0 where memory runs out or the message can't be read.
pub fn count_outputs(alloc: Global, steps: u8, message: &[u8]) -> u64
    ensures { (steps < 2) → (result ≡ 0) }
{
    match count_steps(alloc, steps, message) {
        Some(count) => count,
        None => 0,
    }
}

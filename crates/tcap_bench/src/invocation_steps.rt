//! A dialogue with many invocations under way, taken through one step over and over.

ghost use Rattle.std.specs.Prelude.{◌≡◌, IfSome};

use crate::engine_steps::{continue_to, next_seed, result_to};
use crate::node::Node;
use std::alloc::Global;
use tcap_component::Code;
use tcap_engine::Engine;
use tcap_invocation::Class;

/// How long an invocation may take, in milliseconds, where none is to lapse: longer than any run.
const TIMEOUT_MS: u64 = 1 << 40;

/// The identifier of this place, from 0 on.
fn id_at(place: u64) -> i8 {
    place.to_be_bytes()[7].cast_signed()
}

/// An invocation is queued.
pub(crate) fn invoke(engine: &mut Engine, dialogue: u32, id: i8, timeout_ms: u64) -> Option<u64> {
    let operation = Code::Local(10);
    engine
        .invoke(dialogue, id, Class::One, operation, None, None, timeout_ms)
        .ok()
}

/// An Active dialogue with so many invocations Sent. For the second kind of step one lapses at each
/// moment from 1 on, in order of their identifiers' places.
fn open_dialogue(node: &mut Node, step: u8, invocations: u16) -> Option<u32> {
    let dialogue = node.engine.new_dialogue().ok()?;
    for place in 0..invocations as u64 {
        let timeout_ms = if step == 2 {
            place.saturating_add(1)
        } else {
            TIMEOUT_MS
        };
        invoke(&mut node.engine, dialogue, id_at(place), timeout_ms)?;
    }
    node.engine.begin(dialogue, &node.peer, None, &[]).ok()?;
    node.engine
        .receive(&node.peer, &continue_to(dialogue))
        .ok()?;
    Some(dialogue)
}

/// The invocation of this identifier lapsed or got its result and is free: it is made again.
fn invoke_again(engine: &mut Engine, dialogue: u32, id: i8, timeout_ms: u64) -> Option<u64> {
    invoke(engine, dialogue, id, timeout_ms)?;
    let sent = engine.go_on(dialogue, None, &[]).ok()?;
    Some(sent.len() as u64)
}

/// The result of an invocation is received, a moment frees its identifier, and it is made again.
fn answer_one(node: &mut Node, dialogue: u32, id: i8, moment: u64) -> Option<u64> {
    let told = node
        .engine
        .receive(&node.peer, &result_to(dialogue, id))
        .ok()?
        .len() as u64;
    node.engine.advance(moment).ok()?;
    let sent = invoke_again(&mut node.engine, dialogue, id, TIMEOUT_MS)?;
    Some(told.saturating_add(sent))
}

/// An invocation lapses, and is made again with so long a timeout.
fn lapse_one(
    engine: &mut Engine,
    dialogue: u32,
    id: i8,
    moment: u64,
    timeout_ms: u64,
) -> Option<u64> {
    let told = engine.advance(moment).ok()?.len() as u64;
    let sent = invoke_again(engine, dialogue, id, timeout_ms)?;
    Some(told.saturating_add(sent))
}

/// One step, at the moment after the last: how many outputs it gives.
fn step_once(node: &mut Node, step: u8, dialogue: u32, invocations: u16, seed: u32) -> Option<u64> {
    let moment = node.engine.now().saturating_add(1);
    let all = invocations as u64;
    match step {
        1 => {
            let drawn = (seed as u64 >> 16).wrapping_mul(all) >> 16;
            answer_one(node, dialogue, id_at(drawn), moment)
        }
        2 => {
            let due = (moment.saturating_sub(1)).checked_rem(all)?;
            lapse_one(&mut node.engine, dialogue, id_at(due), moment, all)
        }
        _ => Some(node.engine.advance(moment).ok()?.len() as u64),
    }
}

/// As many steps as there are invocations: how many outputs they give.
fn count_lap(
    node: &mut Node,
    step: u8,
    dialogue: u32,
    invocations: u16,
    seed: &mut u32,
) -> Option<u64> {
    let mut count = 0u64;
    for _ in 0..invocations {
        *seed = next_seed(*seed);
        let given = step_once(node, step, dialogue, invocations, *seed)?;
        count = count.saturating_add(given);
    }
    Some(count)
}

/// So many laps on a dialogue with so many invocations: how many outputs the steps give.
fn count_laps(node: &mut Node, step: u8, dialogue: u32, invocations: u16, laps: u32) -> Option<u64>
    ensures { (laps ≡ 0) → IfSome result (λ count. count ≡ 0) }
{
    let mut seed = 1u32;
    let mut count = 0u64;
    for _ in 0..laps {
        let given = count_lap(node, step, dialogue, invocations, &mut seed)?;
        count = count.saturating_add(given);
    }
    Some(count)
}

/// A dialogue with so many invocations is opened, and then taken through so many laps: how many outputs the
/// laps give.
fn open_and_count(node: &mut Node, step: u8, invocations: u16, laps: u32) -> Option<u64>
    ensures { (laps ≡ 0) → IfSome result (λ count. count ≡ 0) }
{
    let dialogue = open_dialogue(node, step, invocations)?;
    count_laps(node, step, dialogue, invocations, laps)
}

/// How many outputs the laps give; 0 where memory runs out.
pub fn count_invocations(alloc: Global, step: u8, invocations: u16, laps: u32) -> u64
    ensures { (laps ≡ 0) → (result ≡ 0) }
{
    let mut node = Node::new(alloc, 0);
    match open_and_count(&mut node, step, invocations, laps) {
        Some(count) => count,
        None => 0,
    }
}

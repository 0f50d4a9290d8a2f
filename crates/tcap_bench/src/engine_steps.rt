//! An engine with many dialogues open, taken through one step over and over.

ghost use Rattle.std.specs.Prelude.{◌≡◌, ◌≤◌, ◌^◌, IfSome};

use crate::invocation_steps::invoke;
use crate::node::{Calls, Node, OutboxNode};
use std::alloc::Global;

/// A dialogue that stands, and the identifier of the invocation that is under way in it.
#[derive(Clone, Copy)]
struct Open {
    dialogue: u32,
    id: i8,
}

/// A Begin of the peer with Invoke 1.
pub(crate) const BEGIN: [u8; 18] = [
    0x62, 0x10, 0x48, 0x04, 0x00, 0x00, 0x00, 0x05, 0x6c, 0x08, 0xa1, 0x06, 0x02, 0x01, 0x01, 0x02,
    0x01, 0x0a,
];

/// How long an invocation may take, in milliseconds: longer than any run.
const TIMEOUT_MS: u64 = 1 << 40;

/// The idle limit of the fifth kind of step, in milliseconds: longer than any run.
const IDLE_MS: u64 = 1 << 40;

/// An End to a dialogue with the result of an invocation.
pub(crate) fn end_to(dialogue: u32, id: i8) -> [u8; 15] {
    let [a, b, c, d] = dialogue.to_be_bytes();
    let [id] = id.to_be_bytes();
    [
        0x64, 0x0d, 0x49, 0x04, a, b, c, d, 0x6c, 0x05, 0xa2, 0x03, 0x02, 0x01, id,
    ]
}

/// A Continue to a dialogue with the result of an invocation.
pub(crate) fn result_to(dialogue: u32, id: i8) -> [u8; 21] {
    let [a, b, c, d] = dialogue.to_be_bytes();
    let [id] = id.to_be_bytes();
    [
        0x65, 0x13, 0x48, 0x04, 0x00, 0x00, 0x00, 0x05, 0x49, 0x04, a, b, c, d, 0x6c, 0x05, 0xa2,
        0x03, 0x02, 0x01, id,
    ]
}

/// A Continue to a dialogue, without components.
pub(crate) fn continue_to(dialogue: u32) -> [u8; 14] {
    let [a, b, c, d] = dialogue.to_be_bytes();
    [
        0x65, 0x0c, 0x48, 0x04, 0x00, 0x00, 0x00, 0x05, 0x49, 0x04, a, b, c, d,
    ]
}

/// A dialogue is begun with an Invoke: the dialogue, and how many outputs that gives.
fn begin_one<N: Calls>(node: &mut N) -> Option<(Open, u64)> {
    let dialogue = node.engine().new_dialogue().ok()?;
    invoke(node.engine(), dialogue, 1, TIMEOUT_MS)?;
    let sent = node.begin(dialogue)?;
    Some((Open { dialogue, id: 1 }, sent))
}

/// A Begin with an Invoke is received: the dialogue, and how many outputs that gives.
fn receive_one<N: Calls>(node: &mut N) -> Option<(Open, u64)> {
    let (dialogue, told) = node.receive_begin(&BEGIN)?;
    Some((Open { dialogue, id: 1 }, told))
}

/// One dialogue is begun, and another one ended by the peer with its result.
fn begin_and_end<N: Calls>(node: &mut N, open: &mut Open) -> Option<u64> {
    let (begun, sent) = begin_one(node)?;
    let told = node.receive(&end_to(open.dialogue, open.id))?;
    *open = begun;
    Some(sent.saturating_add(told))
}

/// One dialogue is begun by the peer, and another one answered by a result and a basic end.
fn receive_and_answer<N: Calls>(node: &mut N, open: &mut Open) -> Option<u64> {
    let (begun, told) = receive_one(node)?;
    node.engine()
        .result_last(open.dialogue, open.id, None)
        .ok()?;
    let sent = node.finish(open.dialogue)?;
    *open = begun;
    Some(told.saturating_add(sent))
}

/// The peer goes on with a result, and so does this side with the next invocation.
fn go_on<N: Calls>(node: &mut N, open: &mut Open) -> Option<u64> {
    let told = node.receive(&result_to(open.dialogue, open.id))?;
    let id = open.id.wrapping_add(1);
    invoke(node.engine(), open.dialogue, id, TIMEOUT_MS)?;
    let sent = node.go_on(open.dialogue)?;
    open.id = id;
    Some(told.saturating_add(sent))
}

/// The clock moves on by one: how many outputs that gives, none where nothing is due.
fn pass<N: Calls>(node: &mut N) -> Option<u64> {
    let moment = node.engine().now().saturating_add(1);
    node.advance(moment)
}

/// The clock moves on by one, and then the peer goes on: how many outputs that gives.
fn touch<N: Calls>(node: &mut N, dialogue: u32) -> Option<u64> {
    let passed = pass(node)?;
    let told = node.receive(&continue_to(dialogue))?;
    Some(passed.saturating_add(told))
}

/// A dialogue is begun without components, and the peer goes on.
fn begin_bare<N: Calls>(node: &mut N) -> Option<Open> {
    let dialogue = node.engine().new_dialogue().ok()?;
    node.begin(dialogue)?;
    touch(node, dialogue)?;
    Some(Open { dialogue, id: 1 })
}

/// The idle limit under which a kind of step is taken, 0 for none.
fn idle_of(step: u8) -> u64
    ensures { result ≤ 2 ^ 62 }
{
    if step == 5 { IDLE_MS } else { 0 }
}

/// One step on a dialogue: how many outputs it gives.
fn step_once<N: Calls>(node: &mut N, step: u8, open: &mut Open) -> Option<u64> {
    match step {
        1 => begin_and_end(node, open),
        2 => receive_and_answer(node, open),
        3 => go_on(node, open),
        4 => pass(node),
        _ => touch(node, open.dialogue),
    }
}

/// A dialogue as the step finds it: for the third and from the fifth on it is Active.
fn open_one<N: Calls>(node: &mut N, step: u8) -> Option<Open> {
    if step > 4 {
        return begin_bare(node);
    }
    if step == 2 {
        return Some(receive_one(node)?.0);
    }
    let (mut open, _) = begin_one(node)?;
    if step == 3 {
        go_on(node, &mut open)?;
    }
    Some(open)
}

/// Opens so many dialogues.
fn open_all<N: Calls>(node: &mut N, step: u8, dialogues: u16, all: &mut Vec<Open>) -> Option<()> {
    for _ in 0..dialogues {
        all.push(open_one(node, step)?).ok()?;
    }
    Some(())
}

/// The next of a row of numbers that look drawn by lot.
pub(crate) fn next_seed(seed: u32) -> u32 {
    seed.wrapping_mul(1_664_525).wrapping_add(1_013_904_223)
}

/// The dialogue that a number draws.
fn drawn(all: &mut [Open], seed: u32) -> Option<&mut Open> {
    let at = ((seed >> 16) as usize).wrapping_mul(all.len()) >> 16;
    all.get_mut(at)
}

/// The dialogue that a step takes: from the fifth kind on the one whose turn it is, else the one that a number
/// draws.
fn taken(all: &mut [Open], step: u8, turn: usize, seed: u32) -> Option<&mut Open> {
    if step > 4 {
        all.get_mut(turn)
    } else {
        drawn(all, seed)
    }
}

/// As many steps as there are dialogues, each on one drawn by lot, but from the fifth kind on in turn; those
/// of the third kind with a moment behind them, at which each identifier that waited is free: how many
/// outputs the steps give.
fn count_lap<N: Calls>(node: &mut N, step: u8, all: &mut [Open], seed: &mut u32) -> Option<u64> {
    let mut count = 0u64;
    for turn in 0..all.len() {
        *seed = next_seed(*seed);
        let given = step_once(node, step, taken(all, step, turn, *seed)?)?;
        count = count.saturating_add(given);
    }
    if step == 3 {
        pass(node)?;
    }
    Some(count)
}

/// So many laps over these dialogues: how many outputs the steps give.
fn count_laps<N: Calls>(node: &mut N, step: u8, all: &mut [Open], laps: u32) -> Option<u64>
    ensures { (laps ≡ 0) → IfSome result (λ count. count ≡ 0) }
{
    let mut seed = 1u32;
    let mut count = 0u64;
    for _ in 0..laps {
        let given = count_lap(node, step, all, &mut seed)?;
        count = count.saturating_add(given);
    }
    Some(count)
}

/// So many dialogues are opened, and then taken through so many laps: how many outputs the laps give.
fn open_and_count<N: Calls>(
    node: &mut N,
    all: &mut Vec<Open>,
    step: u8,
    dialogues: u16,
    laps: u32,
) -> Option<u64>
    ensures { (laps ≡ 0) → IfSome result (λ count. count ≡ 0) }
{
    open_all(node, step, dialogues, all)?;
    count_laps(node, step, all, laps)
}

/// How many outputs the laps give; 0 where memory runs out.
pub fn count_engine(alloc: Global, step: u8, dialogues: u16, laps: u32) -> u64
    ensures { (laps ≡ 0) → (result ≡ 0) }
{
    let mut node = Node::new(alloc, idle_of(step));
    let mut all = Vec::new(alloc);
    match open_and_count(&mut node, &mut all, step, dialogues, laps) {
        Some(count) => count,
        None => 0,
    }
}

/// `count_engine`, by calls that append their outputs to one outbox: how many outputs the laps give; 0 where memory
/// runs out.
pub fn count_outbox(alloc: Global, step: u8, dialogues: u16, laps: u32) -> u64
    ensures { (laps ≡ 0) → (result ≡ 0) }
{
    let mut node = OutboxNode::new(alloc, idle_of(step));
    let mut all = Vec::new(alloc);
    match open_and_count(&mut node, &mut all, step, dialogues, laps) {
        Some(count) => count,
        None => 0,
    }
}

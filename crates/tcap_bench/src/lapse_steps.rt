//! An engine whose dialogues lapse, so many at each moment, and go on with another Invoke.

ghost use Rattle.std.specs.Prelude.{◌≡◌, IfSome};

use crate::engine_steps::continue_to;
use crate::invocation_steps::invoke;
use crate::node::{Calls, Node, OutboxNode};
use std::alloc::Global;

/// An Active dialogue with an invocation Sent.
fn open_one<N: Calls>(node: &mut N, timeout_ms: u64) -> Option<()> {
    let dialogue = node.engine().new_dialogue().ok()?;
    invoke(node.engine(), dialogue, 1, timeout_ms)?;
    node.begin(dialogue)?;
    node.receive(&continue_to(dialogue))?;
    Some(())
}

/// So many dialogues, of which so many lapse at each moment from 1 on: how many moments that makes.
fn open_all<N: Calls>(node: &mut N, dialogues: u16, together: u16) -> Option<u64> {
    let mut moments = 0u64;
    for place in 0..dialogues as u64 {
        moments = place.checked_div(together as u64)?.saturating_add(1);
        open_one(node, moments)?;
    }
    Some(moments)
}

/// So many moments, in which each dialogue lapses once and is invoked again with so long a timeout: how many
/// outputs they give.
fn count_lap<N: Calls>(node: &mut N, moments: u64) -> Option<u64> {
    let mut count = 0u64;
    for _ in 0..moments {
        let moment = node.engine().now().saturating_add(1);
        let given = node.lapse_and_go_on(moment, moments)?;
        count = count.saturating_add(given);
    }
    Some(count)
}

/// So many laps: how many outputs they give.
fn count_laps<N: Calls>(node: &mut N, moments: u64, laps: u32) -> Option<u64>
    ensures { (laps ≡ 0) → IfSome result (λ count. count ≡ 0) }
{
    let mut count = 0u64;
    for _ in 0..laps {
        let given = count_lap(node, moments)?;
        count = count.saturating_add(given);
    }
    Some(count)
}

/// So many dialogues are opened, of which so many lapse at each moment, and then taken through so many laps:
/// how many outputs the laps give.
fn open_and_count<N: Calls>(node: &mut N, dialogues: u16, together: u16, laps: u32) -> Option<u64>
    ensures { (laps ≡ 0) → IfSome result (λ count. count ≡ 0) }
{
    let moments = open_all(node, dialogues, together)?;
    count_laps(node, moments, laps)
}

/// How many outputs the laps give; 0 where memory runs out.
pub fn count_lapses(alloc: Global, dialogues: u16, together: u16, laps: u32) -> u64
    ensures { (laps ≡ 0) → (result ≡ 0) }
{
    let mut node = Node::new(alloc, 0);
    match open_and_count(&mut node, dialogues, together, laps) {
        Some(count) => count,
        None => 0,
    }
}

/// `count_lapses`, by calls that append their outputs to one outbox: how many outputs the laps give; 0 where memory
/// runs out.
pub fn count_outbox_lapses(alloc: Global, dialogues: u16, together: u16, laps: u32) -> u64
    ensures { (laps ≡ 0) → (result ≡ 0) }
{
    let mut node = OutboxNode::new(alloc, 0);
    match open_and_count(&mut node, dialogues, together, laps) {
        Some(count) => count,
        None => 0,
    }
}

//! The component portion of a message: its components, one by one, and room for what they come to.

// Hints to inline: each step of an engine runs through it; docs/PERF.md says what the whole of it inlined gains.

ghost use Rattle.std.specs.Option.{option_map};
ghost use Rattle.std.specs.Prelude.{◌≡◌, ◌+◌, ◌≤◌, ◌++◌, ◌⊎◌, ℕ, true, Option, Some, IfSome, OnOk, length};
ghost use Rattle.ber_core.specs.ListReading.{items_of};
ghost use Rattle.ber_core.specs.Place.{Slice};
ghost use Rattle.tcap_component.specs.ComponentReading.{components_of};
ghost use Rattle.tcap_dialogue.specs.HandledViews.{reject_parts};
ghost use Rattle.tcap_dialogue.specs.RejectRoom.{FindRejectRoom, HasRejectRoom};
ghost use Rattle.tcap_primitives.specs.QueueViews.{queue_view};
ghost use Rattle.tcap_dialogue.specs.Walking.{done_from, told_from, with_reject};
ghost use Rattle.tcap_invocation.specs.Closing.{ended_at};
ghost use Rattle.tcap_model.specs.Procedures.ComponentHandling.{uni_told};
ghost use Rattle.tcap_invocation.specs.Stage.{moment_limit};
ghost use Rattle.tcap_primitives.specs.Slices.{LieInPlace};
ghost use Rattle.tcap_primitives.specs.IndicationViews.{indicated_octets};

use crate::component_handling::Reject;
use crate::component_handling::in_dialogue::{Left, take_first};
use crate::component_handling::in_unidirectional::tell_first;
use crate::dialogue::spares::Spares;
use ber_core::{OutOfMemory, take_short};
use std::alloc::{AllocError, Allocator};
use tcap_component::{Components, MAX_REJECT};
use tcap_invocation::Invocations;
use tcap_primitives::{Indication, Queue, Sink, SinkKind};

/// The most elements for which room is taken, whatever they are.
const FEW: usize = 8;

/// For how many components there has to be room, with the fault at which they end.
// Each is an element. A few short elements are passed over by their heads, at a fifth of what reading takes; room is
// taken for those behind a fault too. Else the components are counted: then neither room nor work goes beyond the
// first fault.
#[tactic(auto, using(crate::proofs::ItemLemmas::components_within))]
#[inline(always)]
pub(crate) fn room_for(components: &[u8]) -> usize
    ensures enough { length (components_of components.now) ≤ result }
    // No more than the components up to the first fault, or than the elements, where these are at most eight.
    ensures most { (result ≡ length (components_of components.now))
        ⊎ ((result ≡ length (items_of components.now)) × (result ≤ 8)) }
{
    match short_count(components) {
        Some(count) => count,
        None => count_items(components),
    }
}

/// How many elements there are, where they are few, and each has a tag and a length of one octet.
#[inline(always)]
fn short_count(components: &[u8]) -> Option<usize>
    ensures { IfSome result (λ count. (count ≡ length (items_of components.now)) × (count ≤ 8)) }
{
    let mut rest = components;
    let mut count = 0;
    while let [tag, ..] = rest {
        if count == FEW || *tag == 0 || *tag & 0x1f == 0x1f {
            return None;
        }
        let (_, behind) = take_short(rest, *tag)?;
        count += 1;
        rest = behind;
    }
    Some(count)
}

/// How many components there are, with the fault at which they end.
// It is long, and seldom needed.
#[inline(never)]
fn count_items(components: &[u8]) -> usize
    ensures { result ≡ length (components_of components.now) }
{
    Components::new(components).count()
}

/// Makes room for the Rejects that answer the components of a message, for which `room_for` gave `items`.
// Mostly there is room, or there are no components: neither costs a call, which took 25 instructions a message. Where
// what would be lent to the queue has room for all, it is lent with the first Reject: lent here, it took 32 to 82
// instructions a step.
#[tactic(auto, using(crate::proofs::RejectLemmas::fewer))]
#[inline(always)]
pub(crate) fn reserve_rejects<A: Allocator + Copy>(
    spares: &mut Spares<A>,
    queue: &mut Queue<A>,
    components: &[u8],
    items: usize,
) -> Result<(), AllocError>
    requires { length (components_of components.now) ≤ items }
    ensures same { queue_view queue.new ≡ queue_view queue.old }
    ensures room { OnOk result (FindRejectRoom spares.new queue.new (length (components_of components.now))) }
{
    if items == 0 || spares.can_lend(queue, items) || has_reject_room(queue, items) {
        return Ok(());
    }
    reserve_some(spares, queue, components, items)
}

/// `reserve_rejects`, where there are elements and not room for all of them.
// What would be lent to the queue is too small, is lent at once, and grows. There is mostly room for none. Where there
// is some, the components up to the first fault may need no more: to tell that, a few are read once more.
#[tactic(auto, using(crate::proofs::RejectLemmas::fewer))]
#[inline(never)]
fn reserve_some<A: Allocator + Copy>(
    spares: &mut Spares<A>,
    queue: &mut Queue<A>,
    components: &[u8],
    items: usize,
) -> Result<(), AllocError>
    requires { length (components_of components.now) ≤ items }
    ensures same { queue_view queue.new ≡ queue_view queue.old }
    ensures room { OnOk result (FindRejectRoom spares.new queue.new (length (components_of components.now))) }
{
    spares.lend_queue(queue);
    if items > FEW || is_full(queue) {
        return queue.reserve_rejects(items);
    }
    queue.reserve_rejects(count_items(components))
}

/// Whether the queue has room for no Reject: neither for its octets nor for its place.
fn is_full<A: Allocator + Copy>(queue: &Queue<A>) -> bool {
    queue.octets.capacity() - queue.octets.len() < MAX_REJECT
        && queue.parts.len() == queue.parts.capacity()
}

/// Whether the queue has room for so many Rejects.
#[inline(always)]
fn has_reject_room<A: Allocator + Copy>(queue: &Queue<A>, count: usize) -> bool
    ensures { result ≡ true → HasRejectRoom queue.now count }
{
    queue.has_room(count.saturating_mul(MAX_REJECT))
        && count <= queue.parts.capacity() - queue.parts.len()
}

/// Makes room for a message that is told so, with its components and the Rejects that answer them.
#[inline(always)]
pub(crate) fn reserve_message<'m, A: Allocator + Copy, K: SinkKind>(
    spares: &mut Spares<A>,
    queue: &mut Queue<A>,
    told: &Indication<'m>,
    components: &[u8],
    sink: &mut Sink<'m, A, K>,
) -> Result<(), OutOfMemory>
    ensures same { queue_view queue.new ≡ queue_view queue.old }
    ensures rejects { OnOk result (FindRejectRoom spares.new queue.new (length (components_of components.now))) }
    ensures still { sink.new.outputs ≡ sink.old.outputs }
    ensures places { OnOk result (1 + length (components_of components.now) ≤ sink.new.places) }
    ensures room { OnOk result (indicated_octets told.now + length components.now ≤ sink.new.octets) }
    ensures place { (portion : Option Slice) (other : Slice) → LieInPlace portion other sink.old.slices
        → LieInPlace portion other sink.new.slices }
{
    let items = room_for(components);
    let octets = told.octet_count().saturating_add(components.len());
    sink.reserve(items.saturating_add(1), octets)?;
    reserve_rejects(spares, queue, components, items)?;
    Ok(())
}

/// Queues a Reject, if there is one and it fits; there is room for it.
#[tactic(auto, using(crate::proofs::RejectLemmas::fewer))]
#[inline(always)]
fn queue_reject<A: Allocator + Copy>(
    spares: &mut Spares<A>,
    queue: &mut Queue<A>,
    reject: Option<Reject>,
)
    requires { FindRejectRoom spares.old queue.old 1 }
    ensures queue { queue_view queue.new ≡ with_reject (queue_view queue.old) (option_map reject_parts reject) }
    ensures room { (count : ℕ) → FindRejectRoom spares.old queue.old (count + 1)
        → FindRejectRoom spares.new queue.new count }
{
    if let Some(reject) = reject {
        lend_and_queue(spares, queue, reject);
    }
}

/// Queues a Reject, if it fits, in a queue that is lent memory if it has none; there is room for it.
// Rejects are rare, and stand apart.
#[inline(never)]
fn lend_and_queue<A: Allocator + Copy>(spares: &mut Spares<A>, queue: &mut Queue<A>, reject: Reject)
    requires { FindRejectRoom spares.old queue.old 1 }
    ensures queue { queue_view queue.new ≡ with_reject (queue_view queue.old) (Some (reject_parts reject)) }
    ensures room { (count : ℕ) → FindRejectRoom spares.old queue.old (count + 1)
        → FindRejectRoom spares.new queue.new count }
{
    spares.lend_queue(queue);
    queue.append_reject(reject.id, reject.problem);
}

/// Takes the components of a message, tells them and queues the Rejects that answer them; there is room
/// for all that (Q.774, Component handling).
// Two callers share it, and it has all of `take_first` in it.
#[inline(never)]
pub(crate) fn handle_components<'m, A: Allocator + Copy, K: SinkKind>(
    dialogue: u32,
    clock: u64,
    components: &'m [u8],
    spares: &mut Spares<A>,
    invocations: &mut Invocations<A>,
    queue: &mut Queue<A>,
    sink: &mut Sink<'m, A, K>,
)
    requires clock { clock ≤ moment_limit }
    requires places { length (components_of components.now) ≤ sink.old.places }
    requires room { length components.now ≤ sink.old.octets }
    requires rejects { FindRejectRoom spares.old queue.old (length (components_of components.now)) }
    ensures done { record { told = sink.new.outputs; list = invocations.new; queue = queue_view queue.new }
        ≡ done_from dialogue clock (record {
          told = sink.old.outputs;
          list = invocations.old;
          queue = queue_view queue.old;
        }) (components_of components.now) }
    ensures place { (portion : Option Slice) → LieInPlace portion components.entry sink.old.slices
        → LieInPlace portion components.entry sink.new.slices }
{
    let mut left = Left { octets: components };
    while !left.octets.is_empty() {
        let reject = take_first(invocations, dialogue, clock, &mut left, sink);
        queue_reject(spares, queue, reject);
    }
}

/// Takes the components of an End and tells them: the Rejects don't go out, and aren't queued (Q.774,
/// Dialogue end).
pub(crate) fn handle_in_end<'m, A: Allocator + Copy, K: SinkKind>(
    dialogue: u32,
    clock: u64,
    components: &'m [u8],
    invocations: &mut Invocations<A>,
    sink: &mut Sink<'m, A, K>,
)
    requires clock { clock ≤ moment_limit }
    requires places { length (components_of components.now) ≤ sink.old.places }
    requires room { length components.now ≤ sink.old.octets }
    ensures told { record { told = sink.new.outputs; list = invocations.new }
        ≡ told_from dialogue clock (record { told = sink.old.outputs; list = invocations.old })
        (components_of components.now) }
    ensures places { sink.old.places ≤ sink.new.places
        + length (components_of components.now) }
    ensures left { length (ended_at invocations.new.rows) ≤ length (ended_at invocations.old.rows) }
    ensures place { (portion : Option Slice) → LieInPlace portion components.entry sink.old.slices
        → LieInPlace portion components.entry sink.new.slices }
{
    let mut left = Left { octets: components };
    while !left.octets.is_empty() {
        let _reject = take_first(invocations, dialogue, clock, &mut left, sink);
    }
}

/// Tells the components of a Unidirectional; there is room for them (Q.774, Unstructured dialogue).
pub(crate) fn handle_in_unidirectional<'m, A: Allocator + Copy, K: SinkKind>(
    components: &'m [u8],
    sink: &mut Sink<'m, A, K>,
)
    requires places { length (components_of components.now) ≤ sink.old.places }
    requires room { length components.now ≤ sink.old.octets }
    ensures told { sink.new.outputs ≡ sink.old.outputs
        ++ uni_told (components_of components.now) }
    ensures place { (portion : Option Slice) → LieInPlace portion components.entry sink.old.slices
        → LieInPlace portion components.entry sink.new.slices }
{
    let mut left = Left { octets: components };
    while !left.octets.is_empty() {
        tell_first(&mut left, sink);
    }
}

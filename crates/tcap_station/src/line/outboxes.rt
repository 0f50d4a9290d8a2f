//! The two outboxes: of the one in front the outputs are taken, while the one behind is filled.

ghost use Rattle.std.specs.Prelude.{[], IfSome, ◌≡◌, ◌<◌, ◌+◌, ◌++◌, drop, length, slice_get};
ghost use Rattle.std.specs.Option.{option_map};
ghost use Rattle.tcap_primitives.specs.KeptViews.{FitsKept, kept_view};
ghost use Rattle.tcap_primitives.specs.OutboxViews.{output_ref_view};
ghost use Rattle.tcap_station.specs.Line.{IsLeft};

use std::alloc::Allocator;
use std::mem;
use tcap_engine::{Outbox, OutputRef};
use tcap_primitives::kept::KeptOutput;

/// For how many outputs an outbox keeps its room at most once they are taken (our own).
const KEPT_OUTPUTS: usize = 64;

/// Where the output that comes next stands, if there is one: in which outbox, and at which index.
#[inline(always)]
fn place_of_first<'o, A: Allocator + Copy>(
    front: &'o Outbox<A>,
    taken: usize,
    back: &'o Outbox<A>,
) -> (&'o Outbox<A>, usize)
    requires { IsLeft taken front.now.outputs }
    ensures { slice_get result.0.now.outputs result.1
        ≡ slice_get (drop taken front.now.outputs ++ back.now.outputs) 0 }
{
    if taken < front.len() {
        (front, taken)
    } else {
        (back, 0)
    }
}

/// The output that comes next.
#[inline(always)]
pub(crate) fn read_first<'o, A: Allocator + Copy>(
    front: &'o Outbox<A>,
    taken: usize,
    back: &'o Outbox<A>,
) -> Option<OutputRef<'o>>
    requires { IsLeft taken front.now.outputs }
    ensures { option_map output_ref_view result
        ≡ slice_get (drop taken front.now.outputs ++ back.now.outputs) 0 }
{
    let (outbox, index) = place_of_first(front, taken, back);
    outbox.get(index)
}

/// The output that comes next, as it is kept.
#[inline(always)]
pub(crate) fn kept_first<'o, A: Allocator + Copy>(
    front: &'o Outbox<A>,
    taken: usize,
    back: &'o Outbox<A>,
) -> Option<KeptOutput<'o>>
    requires { IsLeft taken front.now.outputs }
    ensures output { option_map kept_view result
        ≡ slice_get (drop taken front.now.outputs ++ back.now.outputs) 0 }
    ensures fits { IfSome result FitsKept }
{
    if taken < front.len() {
        front.kept(taken)
    } else {
        back.kept(0)
    }
}

/// Takes the output that comes next.
#[inline(always)]
pub(crate) fn pass_first<A: Allocator + Copy>(
    front: &mut Outbox<A>,
    taken: &mut usize,
    back: &mut Outbox<A>,
)
    requires { IsLeft taken.old front.old.outputs }
    ensures rest { drop taken.new front.new.outputs ++ back.new.outputs
        ≡ drop 1 (drop taken.old front.old.outputs ++ back.old.outputs) }
    ensures left { IsLeft taken.new front.new.outputs }
{
    if *taken < front.len() {
        pass_in_front(front, taken);
    } else {
        pass_behind(front, taken, back);
    }
}

/// Takes the output that comes next, of which there is one in front.
#[inline(always)]
fn pass_in_front<A: Allocator + Copy>(front: &mut Outbox<A>, taken: &mut usize)
    requires { taken.old < length front.old.outputs }
    ensures rest { drop taken.new front.new.outputs ≡ drop (taken.old + 1) front.old.outputs }
    ensures left { IsLeft taken.new front.new.outputs }
{
    let count = front.len();
    *taken += 1;
    if *taken == count {
        clear(front);
    }
}

/// Takes the output that comes next, where none is in front: the others behind come to the front, if there are any.
#[inline(always)]
fn pass_behind<A: Allocator + Copy>(front: &mut Outbox<A>, taken: &mut usize, back: &mut Outbox<A>)
    requires { front.old.outputs ≡ [] }
    ensures rest { drop taken.new front.new.outputs ++ back.new.outputs ≡ drop 1 back.old.outputs }
    ensures left { IsLeft taken.new front.new.outputs }
{
    if back.len() > 1 {
        mem::swap(front, back);
        *taken = 1;
    } else {
        back.clear();
    }
}

/// Forgets the outputs of an outbox; where it held many, their room goes too.
#[inline(always)]
fn clear<A: Allocator + Copy>(outbox: &mut Outbox<A>)
    ensures { outbox.new.outputs ≡ [] }
{
    let held_many = outbox.len() > KEPT_OUTPUTS;
    outbox.clear();
    if held_many {
        outbox.shrink();
    }
}

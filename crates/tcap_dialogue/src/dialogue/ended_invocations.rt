//! Each invocation that is left when a dialogue ends is told as ended.

ghost use Rattle.std.specs.Prelude.{◌≡◌, ◌+◌, ◌≤◌, ◌++◌, Option, length};
ghost use Rattle.ber_core.specs.Place.{Slice};
ghost use Rattle.tcap_invocation.specs.Closing.{ended_at};
ghost use Rattle.tcap_model.specs.Table.TableMove.{ended_told};
ghost use Rattle.tcap_primitives.specs.Slices.{LieInPlace};

use std::alloc::Allocator;
use tcap_invocation::Invocations;
use tcap_primitives::{Indication, Sink, SinkKind};

/// The dialogue is over: tells each of its invocations that is Queued or Sent as ended, by number, and
/// takes it out; there is room for all of them.
// Inlined: each end of a dialogue runs through it; docs/PERF.md says what the whole of a step inlined gains.
#[inline(always)]
pub(super) fn tell_ended<'m, A: Allocator + Copy, K: SinkKind>(
    dialogue: u32,
    invocations: &mut Invocations<A>,
    sink: &mut Sink<'m, A, K>,
)
    requires { length (ended_at invocations.old.rows) ≤ sink.old.places }
    ensures told { sink.new.outputs ≡ sink.old.outputs
        ++ ended_told dialogue invocations.old }
    // What is told so has no slices.
    ensures place { (portion : Option Slice) (components : Slice) → LieInPlace portion components sink.old.slices
        → LieInPlace portion components sink.new.slices }
    ensures places { sink.old.places ≤ sink.new.places
        + length (ended_at invocations.old.rows) }
{
    while let Some((number, id)) = invocations.close_one() {
        sink.tell(Indication::Ended {
            dialogue,
            number,
            id,
        });
    }
}

//! Room for outputs and their octets.

// Hints to inline: each step of an engine runs through it; docs/PERF.md says what the whole of it inlined gains.

ghost use Rattle.std.specs.Prelude.{◌≡◌, ◌+◌, ◌≤◌, ◌<◌, OnOk, OnErr, vec_len, vec_capacity};
ghost use Rattle.tcap_primitives.specs.OutboxSpans.{HasRoom, most_octets};

use super::records::Record;
use std::alloc::{AllocError, Allocator};

/// The most octets that an outbox keeps: a part of them is named by numbers of 32 bits (our own).
const MOST_OCTETS: usize = 4_294_967_295;

/// Makes room for so many records.
// A vector's own growth stands out of line: here is the test alone.
#[inline(always)]
pub(super) fn make_places<A: Allocator + Copy>(
    records: &mut Vec<Record, A>,
    count: usize,
) -> Result<(), AllocError>
    ensures items { records.new.items ≡ records.old.items }
    ensures len { vec_len records.new ≡ vec_len records.old }
    ensures ok { OnOk result (vec_len records.new + count ≤ vec_capacity records.new) }
    ensures capacity { vec_capacity records.old ≤ vec_capacity records.new }
    ensures err { OnErr result (0 < count) }
{
    if count <= records.capacity() - records.len() {
        return Ok(());
    }
    grow_places(records, count)
}

/// Grows the block of records.
#[inline(never)]
fn grow_places<A: Allocator + Copy>(
    records: &mut Vec<Record, A>,
    count: usize,
) -> Result<(), AllocError>
    ensures items { records.new.items ≡ records.old.items }
    ensures len { vec_len records.new ≡ vec_len records.old }
    ensures ok { OnOk result (vec_len records.new + count ≤ vec_capacity records.new) }
    ensures capacity { vec_capacity records.old ≤ vec_capacity records.new }
    ensures err { OnErr result (vec_capacity records.old < vec_len records.old + count) }
{
    records.reserve(count)
}

/// Makes room for so many octets, within the limit.
#[inline(always)]
pub(super) fn make_room<A: Allocator + Copy>(
    octets: &mut Vec<u8, A>,
    count: usize,
) -> Result<(), AllocError>
    requires { vec_len octets.old ≤ most_octets }
    ensures items { octets.new.items ≡ octets.old.items }
    ensures len { vec_len octets.new ≡ vec_len octets.old }
    ensures ok { OnOk result (HasRoom (vec_capacity octets.new) (vec_len octets.new) count) }
    ensures capacity { vec_capacity octets.old ≤ vec_capacity octets.new }
    ensures err { OnErr result (0 < count) }
{
    let left = octets.capacity().min(MOST_OCTETS) - octets.len();
    if count <= left {
        return Ok(());
    }
    grow_room(octets, count)
}

/// Grows the block of octets, unless there would be more of them than the limit.
#[inline(never)]
fn grow_room<A: Allocator + Copy>(octets: &mut Vec<u8, A>, count: usize) -> Result<(), AllocError>
    requires { vec_len octets.old ≤ most_octets }
    ensures items { octets.new.items ≡ octets.old.items }
    ensures len { vec_len octets.new ≡ vec_len octets.old }
    ensures ok { OnOk result (HasRoom (vec_capacity octets.new) (vec_len octets.new) count) }
    ensures capacity { vec_capacity octets.old ≤ vec_capacity octets.new }
{
    if count > MOST_OCTETS - octets.len() {
        return Err(AllocError);
    }
    octets.reserve(count)
}

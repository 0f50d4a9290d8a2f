//! The place of a row that is put into a table: room for it, its key and its timer.

// Hints to inline: each dialogue that is created goes in by it; docs/PERF.md says what the whole of it inlined gains.

ghost use Rattle.std.specs.Prelude.{◌≡◌, ◌<◌, None, length, OnOk, OnErr, IfOk};
ghost use Rattle.slab.specs.Slab.{get, HasRoomFor};
ghost use Rattle.timed_table.specs.Row.{AllBelow};
ghost use Rattle.timed_table.specs.Tied.{IsSound, IsExtended, IsPlace, all_rows};

use crate::keys::Keys;
use crate::table::timer_named;
use slab::Slab;
use std::alloc::{AllocError, Allocator};
use timer_queue::TimerQueue;

/// Adds items to the timers until there is one of this number.
#[inline(always)]
fn cover<A: Allocator + Copy>(timers: &mut TimerQueue<A>, key: usize) -> Result<(), AllocError>
    ensures extended { IsExtended timers.old timers.new }
    ensures ok { OnOk result (key < length timers.new) }
{
    while timers.len() <= key {
        timers.add_item()?;
    }
    Ok(())
}

/// Makes room for one value more, and answers the key that it will have.
#[inline(always)]
fn make_room<T: Drop, A: Allocator + Copy>(
    values: &mut Slab<T, A>,
    timers: &mut TimerQueue<A>,
) -> Result<usize, AllocError>
    ensures values { values.new ≡ record values.old { capacity = values.new.capacity } }
    ensures extended { IsExtended timers.old timers.new }
    ensures room { OnOk result (HasRoomFor values.new 1) }
    ensures covered { IfOk result (λ key. key < length timers.new) }
    ensures key { IfOk result (λ key. key ≡ values.new.vacant_key) }
    ensures vacant { IfOk result (λ key. get values.new key ≡ None) }
{
    values.reserve(1)?;
    let key = values.vacant_key();
    cover(timers, key)?;
    Ok(key)
}

/// Makes all room that a row takes, and puts its key and its timer behind the others: the value that is stored next is
/// that of the row.
// Inlined into `Table::insert` and `Table::insert_with`, for the reason that stands at `insert`.
#[inline(always)]
pub(crate) fn make_place<T: Drop, A: Allocator + Copy>(
    values: &mut Slab<T, A>,
    keys: &mut Keys<A>,
    timers: &mut TimerQueue<A>,
    id: u32,
    time: Option<u64>,
) -> Result<(), AllocError>
    requires sound { IsSound keys.old values.old timers.old }
    requires below { AllBelow id (all_rows keys.old values.old timers.old) }
    ensures room { OnOk result (HasRoomFor values.new 1) }
    ensures place { OnOk result (IsPlace (all_rows keys.old values.old timers.old) id time
        keys.new values.new timers.new) }
    ensures sound { OnErr result (IsSound keys.new values.new timers.new) }
    ensures err { OnErr result (all_rows keys.new values.new timers.new
        ≡ all_rows keys.old values.old timers.old) }
{
    let key = make_room(values, timers)?;
    keys.insert(id, key)?;
    timers.set(key, timer_named(id, time));
    Ok(())
}

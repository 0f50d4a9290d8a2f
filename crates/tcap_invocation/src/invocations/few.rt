//! Few invocations: they stand one after the other, in one block of memory, and all are looked through for what time
//! does next.

// Hints to inline: each step of an engine runs through it; docs/PERF.md says what the whole of it inlined gains.

ghost use Rattle.std.specs.Prelude.{◌≡◌, ◌↔◌, ◌≤◌, ◌≢◌, ◌++◌, ◌∷◌, [], length, option_copied, IsTrue, IfOk, OnOk, OnErr, Some, filter, ◌<◌, vec_len, vec_capacity};
ghost use Rattle.std.specs.List.{position_from};
ghost use Rattle.std.specs.Ordering.{int_eq};
ghost use Rattle.tcap_invocation.specs.Closing.{ended_at, first_ended_at};
ghost use Rattle.tcap_invocation.specs.Invocations.{AllBelow, AreInOrder, entry_at, without, at_stage, sent_rows};
ghost use Rattle.tcap_invocation.specs.Stage.{moment_limit};
ghost use Rattle.tcap_invocation.specs.Lapses.{due_at, is_held};
ghost use Rattle.tcap_invocation.specs.TimerList.{nearer_at, IsFirst, timers_at, lapse_at_time};
ghost use Rattle.tcap_invocation.specs.Order.{first_of};
ghost use Rattle.std.specs.Option.{option_map};
ghost use Rattle.tcap_invocation.specs.Rows.{AreSorted};
ghost use Rattle.tcap_invocation.specs.Expiries.{first_expiry_at, rows_after};

use super::closing::ended_of;
use super::lapse::{Expiry, Lapse};
use super::{Invocation, Row};
use crate::stage::Stage;
use ber_core::OutOfMemory;
use std::alloc::{AllocError, Allocator};

/// The first block has room for so many.
// `Vec` by itself begins with four. A row takes 40 octets, so a dialogue that never has more than two at a time, as
// most, keeps 80 octets less.
const FIRST_ROOM: usize = 2;

/// The invocation that has the identifier.
#[inline(always)]
pub(super) fn get<'a>(rows: &'a [Row], id: &i8) -> Option<&'a Invocation>
    ensures { option_copied result ≡ entry_at rows.now id.now }
{
    for row in rows {
        if row.0 == *id {
            return Some(&row.1);
        }
    }
    None
}

/// Makes room for one more.
// Rare, and kept out of what takes one in: so that is small enough to be inlined, 30 instructions an Invoke.
#[inline(never)]
fn grow<A: Allocator + Copy>(rows: &mut Vec<Row, A>) -> Result<(), AllocError>
    ensures items { rows.new.items ≡ rows.old.items }
    ensures ok { OnOk result (vec_len rows.new < vec_capacity rows.new) }
{
    if rows.capacity() == 0 {
        rows.reserve_exact(FIRST_ROOM)
    } else {
        rows.reserve(1)
    }
}

/// Takes an invocation in, behind the others.
#[inline(always)]
pub(super) fn push<A: Allocator + Copy>(
    rows: &mut Vec<Row, A>,
    id: i8,
    entry: Invocation,
) -> Result<(), AllocError>
    ensures ok { OnOk result (rows.new.items ≡ rows.old.items ++ (id, entry) ∷ []) }
    ensures err { OnErr result (rows.new.items ≡ rows.old.items) }
{
    if rows.len() == rows.capacity() {
        grow(rows)?;
    }
    rows.push_reserved((id, entry));
    Ok(())
}

/// The place of the identifier.
#[inline(always)]
fn place_of(rows: &[Row], id: &i8) -> Option<usize>
    ensures { result ≡ position_from (λ r. int_eq id.now r.0) 0 rows.now }
{
    rows.iter().position(|row| row.0 == *id)
}

/// Takes an invocation out.
pub(super) fn take_out<A: Allocator + Copy>(rows: &mut Vec<Row, A>, id: &i8)
    ensures { rows.new.items ≡ without rows.old.items id.now }
{
    if let Some(place) = place_of(rows, id) {
        rows.remove(place);
    }
}

/// The invocation of the identifier is at this stage from now on.
#[inline(always)]
pub(super) fn set_stage<A: Allocator + Copy>(
    rows: &mut Vec<Row, A>,
    id: &i8,
    entry: &Invocation,
    stage: Stage,
)
    requires { entry_at rows.old.items id.now ≡ Some entry.now }
    ensures { rows.new.items ≡ at_stage rows.old.items id.now entry.now stage }
{
    if let Some(place) = place_of(rows, id) {
        rows[place].1.stage = stage;
    }
}

/// The message with the queued Invokes goes out at this moment: each gets its deadline.
#[inline(always)]
pub(super) fn send_queued<A: Allocator + Copy>(rows: &mut Vec<Row, A>, clock: u64)
    requires clock { clock ≤ moment_limit }
    requires order { AreInOrder rows.old.items }
    ensures { rows.new.items ≡ sent_rows clock rows.old.items }
{
    for place in 0..rows.len() {
        if let Stage::Queued(timeout) = rows[place].1.stage {
            rows[place].1.stage = Stage::Sent(clock + timeout);
        }
    }
}

/// Whether each number is below this one.
#[inline(always)]
pub(super) fn are_below(rows: &[Row], number: u64) -> bool
    ensures { IsTrue result ↔ AllBelow number rows.now }
{
    rows.iter().all(|row| row.1.number < number)
}

/// What is told first at the end of the dialogue.
#[inline(always)]
pub(super) fn first_ended(rows: &[Row]) -> Option<(u64, i8)>
    ensures { result ≡ first_ended_at rows.now }
{
    for row in rows {
        if let Some(one) = ended_of(&row.0, &row.1) {
            return Some(one);
        }
    }
    None
}

/// How many invocations are Queued or Sent.
#[inline(always)]
pub(super) fn ended_count(rows: &[Row]) -> usize
    ensures { result ≡ length (ended_at rows.now) }
{
    let mut count = 0;
    for row in rows {
        if ended_of(&row.0, &row.1).is_some() {
            count += 1;
        }
    }
    count
}

/// What is told of each invocation at the end of the dialogue, with all room found first.
pub(super) fn ended<A: Allocator + Copy>(
    alloc: A,
    rows: &[Row],
) -> Result<Vec<(u64, i8), A>, OutOfMemory>
    ensures told { IfOk result (λ v. v.items ≡ ended_at rows.now) }
    ensures memory { OnErr result (ended_at rows.now ≢ []) }
{
    let mut ended = Vec::with_capacity(alloc, ended_count(rows))?;
    for row in rows {
        if let Some(one) = ended_of(&row.0, &row.1) {
            ended.push_reserved(one);
        }
    }
    Ok(ended)
}

/// How many Sent invocations have a deadline at most the clock.
#[inline(always)]
pub(super) fn due_count(rows: &[Row], clock: u64) -> usize
    ensures { result ≡ length (due_at clock rows.now) }
{
    let mut count = 0;
    for row in rows {
        if row.1.stage.due_deadline(clock).is_some() {
            count += 1;
        }
    }
    count
}

/// The first timer of some rows, and the place of its row.
// Whether it lapses then is asked of the row: kept here, it took 12 instructions more for each row that is looked at.
#[derive(Clone, Copy)]
struct First {
    time: u64,
    place: usize,
}

/// The first of those found so far and of that of an invocation at this place.
#[inline(always)]
fn nearer(first: Option<First>, place: usize, entry: &Invocation) -> Option<First>
    ensures { result ≡ nearer_at first place entry.now.stage }
{
    let time = match entry.stage {
        Stage::Queued(_) => return first,
        Stage::Sent(time) | Stage::Waiting(time) => time,
    };
    match first {
        Some(first) if first.time <= time => Some(first),
        _ => Some(First { time, place }),
    }
}

/// The first timer, by its moment, then number.
#[inline(always)]
fn first_timer<A: Allocator + Copy>(rows: &Vec<Row, A>) -> Option<First>
    requires { AreInOrder rows.now.items }
    ensures { IsFirst rows.now.items result (first_of (timers_at rows.now.items)) }
{
    let mut first: Option<First> = None;
    for place in 0..rows.len() {
        first = nearer(first, place, &rows[place].1);
    }
    first
}

/// Takes out the invocation of the first timer, which lapses.
#[inline(always)]
fn take_first<A: Allocator + Copy>(rows: &mut Vec<Row, A>, first: First) -> Lapse
    requires first { IsFirst rows.old.items (Some first) (first_of (timers_at rows.old.items)) }
    requires sorted { AreSorted rows.old.items }
    ensures lapse { Some result ≡ option_map lapse_at_time (first_of (timers_at rows.old.items)) }
    ensures rows { rows.new.items ≡ without rows.old.items result.id }
{
    let (id, entry) = rows[first.place];
    if first.place + 1 == rows.len() {
        rows.truncate(first.place);
    } else {
        rows.remove(first.place);
    }
    Lapse {
        deadline: first.time,
        number: entry.number,
        id,
    }
}

/// The first timer runs out, if its moment is at most the clock.
#[inline(always)]
pub(super) fn expire_first<A: Allocator + Copy>(
    rows: &mut Vec<Row, A>,
    clock: u64,
) -> Option<Expiry>
    requires { AreSorted rows.old.items }
    ensures expiry { result ≡ first_expiry_at clock rows.old.items }
    ensures rows { rows.new.items ≡ rows_after clock rows.old.items result }
{
    let first = first_timer(rows)?;
    if clock < first.time {
        return None;
    }
    if let Stage::Waiting(_) = rows[first.place].1.stage {
        free_due(rows, clock);
        return Some(Expiry::Wait);
    }
    Some(Expiry::Lapse(take_first(rows, first)))
}

/// Takes out each identifier whose wait is over at the clock.
#[inline(always)]
pub(super) fn free_due<A: Allocator + Copy>(rows: &mut Vec<Row, A>, clock: u64)
    ensures { rows.new.items ≡ filter (λ r. is_held clock r.1.stage) rows.old.items }
{
    rows.retain(
        |row: &Row| -> bool
            ensures { result ≡ is_held clock row.now.1.stage }
        { row.1.stage.is_held(clock) },
    );
}

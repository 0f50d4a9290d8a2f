//! Lapses of few invocations: the first that is due, and all that are due at once.

ghost use Rattle.std.specs.Prelude.{◌≡◌, ◌≢◌, [], filter, IfOk, OnOk, OnErr};
ghost use Rattle.tcap_invocation.specs.Invocations.{AreInOrder};
ghost use Rattle.tcap_invocation.specs.Lapses.{due_at, told_at, first_due_at, stays};

use super::Row;
use super::few::due_count;
use super::lapse::{Lapse, lapse_of};
use ber_core::OutOfMemory;
use std::alloc::Allocator;

/// The Sent invocation whose deadline comes first, by deadline, then number, if it is at most the clock.
pub(super) fn first_due(rows: &[Row], clock: u64) -> Option<Lapse>
    requires { AreInOrder rows.now }
    ensures { result ≡ first_due_at clock rows.now }
{
    let mut first: Option<Lapse> = None;
    for row in rows {
        let Some(lapse) = lapse_of(&row.0, &row.1, clock) else {
            continue;
        };
        match first {
            Some(found) if found.deadline <= lapse.deadline => {}
            _ => first = Some(lapse),
        }
    }
    first
}

/// Takes out each invocation whose deadline, and each identifier whose wait, is over at the clock, and tells the
/// former by deadline, then number, with all room found first.
pub(super) fn lapse<A: Allocator + Copy>(
    rows: &mut Vec<Row, A>,
    clock: u64,
) -> Result<Vec<Lapse, A>, OutOfMemory>
    requires { AreInOrder rows.old.items }
    ensures told { IfOk result (λ v. v.items ≡ told_at clock rows.old.items) }
    ensures rows { OnOk result (rows.new.items ≡ filter (λ r. stays clock r.1.stage) rows.old.items) }
    ensures err { OnErr result (rows.new.items ≡ rows.old.items) }
    ensures memory { OnErr result (told_at clock rows.old.items ≢ []) }
{
    let mut told = due(*rows.allocator(), rows, clock)?;
    told.sort_unstable();
    rows.retain(
        |row: &Row| -> bool
            ensures { result ≡ stays clock row.now.1.stage }
        { row.1.stage.stays(clock) },
    );
    Ok(told)
}

/// What is told of each invocation whose deadline is over at the clock, by number, with all room found first.
fn due<A: Allocator + Copy>(
    alloc: A,
    rows: &[Row],
    clock: u64,
) -> Result<Vec<Lapse, A>, OutOfMemory>
    ensures due { IfOk result (λ v. v.items ≡ due_at clock rows.now) }
    ensures memory { OnErr result (due_at clock rows.now ≢ []) }
{
    let mut lapses = Vec::with_capacity(alloc, due_count(rows, clock))?;
    for row in rows {
        if let Some(lapse) = lapse_of(&row.0, &row.1, clock) {
            lapses.push_reserved(lapse);
        }
    }
    Ok(lapses)
}

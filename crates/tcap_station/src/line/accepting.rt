//! An event is accepted: it is counted, and what it sends and tells is marked with its number.

ghost use Rattle.std.specs.Prelude.{◌≡◌, ◌<◌, ◌-◌, OnOk, OnErr, length};
ghost use Rattle.tcap_station.specs.Marks.{HasPlace, IsOrdered, marks_in, with_mark};
ghost use Rattle.tcap_station.specs.Station.{following};

use super::marks::{Marks, add_mark};
use std::alloc::Allocator;
use tcap_engine::Outbox;

/// An event that sends and tells nothing is counted, if it was accepted.
#[inline(always)]
pub(crate) fn count_event<T, E>(events: &mut u64, answer: Result<T, E>) -> Result<T, E>
    ensures answer { result ≡ answer }
    ensures ok { OnOk answer (events.new ≡ following events.old) }
    ensures err { OnErr answer (events.new ≡ events.old) }
{
    if answer.is_ok() {
        *events = events.saturating_add(1);
    }
    answer
}

/// An event is counted, if it was accepted; its outputs are those behind the first so many of the outbox, and are
/// marked with its number. There is a place for it, if it has any.
#[inline(always)]
pub(crate) fn mark_event<A: Allocator + Copy, E>(
    events: &mut u64,
    marks: &mut Marks<A>,
    outbox: &Outbox<A>,
    before: usize,
    answer: Result<(), E>,
) -> Result<(), E>
    requires place { OnOk answer (0 < length outbox.now.outputs - before → HasPlace marks.old) }
    requires ordered { IsOrdered marks.old }
    ensures answer { result ≡ answer }
    ensures events { OnOk answer (events.new ≡ following events.old) }
    ensures marks { OnOk answer (marks_in marks.new ≡ with_mark (marks_in marks.old) events.new
        (length outbox.now.outputs - before)) }
    ensures err { OnErr answer ((events.new ≡ events.old) × (marks_in marks.new ≡ marks_in marks.old)) }
    ensures ordered { IsOrdered marks.new }
{
    let answer = count_event(events, answer);
    let count = outbox.len();
    if answer.is_ok() && count > before {
        add_mark(marks, *events, count - before);
    }
    answer
}

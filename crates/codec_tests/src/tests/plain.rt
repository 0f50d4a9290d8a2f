//! The invocations of one dialogue as a plain list, to compare `Invocations` with: each call looks the
//! rows through one by one, and nothing is kept beside them.

use std::alloc::Global;
use tcap_component::Kind;
use tcap_invocation::{AddFault, Class, Lapse, MAX_MOMENT, Stage, Verdict};

/// An invocation, or an identifier that waits for a Reject.
#[derive(Clone, Copy)]
struct Row {
    number: u64,
    id: i8,
    class: Class,
    stage: Stage,
}

/// The rows by rising number, and how long an identifier waits.
#[derive(Drop)]
pub(super) struct Plain {
    rows: Vec<Row>,
    reject_ms: u64,
}

impl Plain {
    pub(super) fn new(alloc: Global, reject_ms: u64) -> Plain {
        let rows = Vec::new(alloc);
        Plain { rows, reject_ms }
    }

    /// The row of an identifier.
    fn row(&self, id: i8) -> Option<Row> {
        for row in self.rows.iter() {
            if row.id == id {
                return Some(*row);
            }
        }
        None
    }

    /// The class of an invocation.
    pub(super) fn class_of(&self, id: i8) -> Option<Class> {
        Some(self.row(id)?.class)
    }

    /// The row of an identifier, if it is Sent.
    fn sent_row(&self, id: i8) -> Option<Row> {
        let row = self.row(id)?;
        matches!(row.stage, Stage::Sent(_)).then_some(row)
    }

    /// The identifier in a row.
    pub(super) fn id_at(&self, place: usize) -> Option<i8> {
        Some(self.rows.get(place)?.id)
    }

    pub(super) fn len(&self) -> usize {
        self.rows.len()
    }

    pub(super) fn is_open(&self, id: i8) -> bool {
        self.sent_row(id).is_some()
    }

    pub(super) fn in_use(&self, id: i8) -> bool {
        self.row(id).is_some()
    }

    pub(super) fn is_above_all(&self, number: u64) -> bool {
        self.rows.iter().all(|row| row.number < number)
    }

    pub(super) fn open_count(&self) -> usize {
        self.rows.iter().filter(|row| is_to_end(row)).count()
    }

    pub(super) fn next_timer(&self) -> Option<u64> {
        let mut least: Option<u64> = None;
        for row in self.rows.iter() {
            if let Stage::Sent(time) | Stage::Waiting(time) = row.stage {
                least = Some(least.unwrap_or(time).min(time));
            }
        }
        least
    }

    pub(super) fn due_count(&self, clock: u64) -> usize {
        self.rows
            .iter()
            .filter_map(|row| lapse_of(row, clock))
            .count()
    }

    pub(super) fn first_due(&self, clock: u64) -> Option<Lapse> {
        let mut first: Option<Lapse> = None;
        for row in self.rows.iter() {
            if let Some(lapse) = lapse_of(row, clock) {
                first = Some(earlier(first.unwrap_or(lapse), lapse));
            }
        }
        first
    }

    /// The number is above all.
    pub(super) fn add(
        &mut self,
        id: i8,
        number: u64,
        class: Class,
        timeout: u64,
    ) -> Result<(), AddFault> {
        if timeout == 0 || timeout > MAX_MOMENT {
            return Err(AddFault::BadTimeout);
        }
        if self.in_use(id) {
            return Err(AddFault::InUse);
        }
        let stage = Stage::Queued(timeout);
        let row = Row {
            number,
            id,
            class,
            stage,
        };
        Ok(self.rows.push(row)?)
    }

    pub(super) fn sent(&mut self, clock: u64) {
        for row in self.rows.iter_mut() {
            if let Stage::Queued(timeout) = row.stage {
                row.stage = Stage::Sent(clock.saturating_add(timeout));
            }
        }
    }

    pub(super) fn on_result(&mut self, id: i8, last: bool, clock: u64) -> Verdict {
        let Some(row) = self.sent_row(id) else {
            return Verdict::Unknown;
        };
        match row.class {
            Class::One | Class::Three => {
                if last {
                    self.wait(id, clock);
                }
                Verdict::Good(row.number)
            }
            Class::Two | Class::Four => {
                self.take_out(id);
                Verdict::Unexpected(row.number)
            }
        }
    }

    pub(super) fn on_error(&mut self, id: i8, clock: u64) -> Verdict {
        let Some(row) = self.sent_row(id) else {
            return Verdict::Unknown;
        };
        match row.class {
            Class::One | Class::Two => {
                self.wait(id, clock);
                Verdict::Good(row.number)
            }
            Class::Three | Class::Four => {
                self.take_out(id);
                Verdict::Unexpected(row.number)
            }
        }
    }

    pub(super) fn on_reject(&mut self, id: i8, kind: Kind) -> Option<u64> {
        let row = self.sent_row(id)?;
        if matches!(kind, Kind::Result | Kind::Error) {
            return None;
        }
        self.take_out(id);
        Some(row.number)
    }

    pub(super) fn give_up(&mut self, id: i8) -> Option<u64> {
        let row = self.row(id)?;
        if !is_to_end(&row) {
            return None;
        }
        self.take_out(id);
        Some(row.number)
    }

    pub(super) fn free_wait(&mut self, id: i8) -> bool {
        let Some(row) = self.row(id) else {
            return false;
        };
        let waits = !is_to_end(&row);
        if waits {
            self.take_out(id);
        }
        waits
    }

    pub(super) fn lapse(&mut self, clock: u64) -> Option<Vec<Lapse>> {
        let mut told = Vec::new(*self.rows.allocator());
        for row in self.rows.iter() {
            if let Some(lapse) = lapse_of(row, clock) {
                told.push(lapse).ok()?;
            }
        }
        told.sort_unstable();
        self.rows.retain(|row| lapse_of(row, clock).is_none());
        self.free_due(clock);
        Some(told)
    }

    pub(super) fn lapse_one(&mut self, id: i8, clock: u64) -> Option<Lapse> {
        let lapse = lapse_of(&self.row(id)?, clock)?;
        self.take_out(id);
        Some(lapse)
    }

    pub(super) fn free_due(&mut self, clock: u64) {
        self.rows.retain(|row| !matches!(row.stage, Stage::Waiting(until) if until <= clock));
    }

    pub(super) fn close_one(&mut self) -> Option<(u64, i8)> {
        let row = self.rows.iter().find(|row| is_to_end(row)).copied()?;
        self.take_out(row.id);
        Some((row.number, row.id))
    }

    pub(super) fn close_all(&mut self) -> Option<Vec<(u64, i8)>> {
        let mut ended = Vec::new(*self.rows.allocator());
        for row in self.rows.iter() {
            if is_to_end(row) {
                ended.push((row.number, row.id)).ok()?;
            }
        }
        self.rows.clear();
        Some(ended)
    }

    fn take_out(&mut self, id: i8) {
        self.rows.retain(|row| row.id != id);
    }

    /// The identifier waits for a Reject from this moment on.
    fn wait(&mut self, id: i8, clock: u64) {
        for row in self.rows.iter_mut() {
            if row.id == id {
                row.stage = Stage::Waiting(clock.saturating_add(self.reject_ms));
            }
        }
    }
}

/// Whether the end of the dialogue tells the row.
fn is_to_end(row: &Row) -> bool {
    matches!(row.stage, Stage::Queued(_) | Stage::Sent(_))
}

/// What is told of a row that is Sent, if its deadline has come.
fn lapse_of(row: &Row, clock: u64) -> Option<Lapse> {
    match row.stage {
        Stage::Sent(deadline) if deadline <= clock => Some(Lapse {
            deadline,
            number: row.number,
            id: row.id,
        }),
        Stage::Queued(_) | Stage::Sent(_) | Stage::Waiting(_) => None,
    }
}

/// Of two lapses the one with the lesser deadline, then number.
fn earlier(a: Lapse, b: Lapse) -> Lapse {
    if (a.deadline, a.number) < (b.deadline, b.number) {
        a
    } else {
        b
    }
}

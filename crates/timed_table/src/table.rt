//! The table: values under rising identifiers, with a time beside each.

// Hints to inline: each step of an engine runs through it; docs/PERF.md says what the whole of it inlined gains.

ghost use Rattle.std.specs.Prelude.{◌≡◌, ◌++◌, ◌∷◌, [], ℕ, nat_eq, length, option_copied, OnOk, OnErr, OnSome, IfSome, IfNone, IfErr, MatchOption};
ghost use Rattle.std.specs.Map.{lookup, remove_entry};
ghost use Rattle.timed_table.specs.Row.{AllBelow, IsRising, HasNoTime, IsFirst, entries_of, row_of, time_in, with_time, without, due_values};
ghost use Rattle.timed_table.specs.Tied.{timer_named, IsSound, all_rows};

use crate::due::DueRows;
use crate::insertion::make_place;
use crate::keys::Keys;
use slab::Slab;
use std::alloc::{AllocFailed, Allocator, Global};
use std::fmt;
use std::marker::Model;
use timer_queue::{Timer, TimerQueue};

/// Values under identifiers, which rise as they are inserted; beside each value a time, if it has one.
#[derive(Drop)]
pub struct Table<T: Drop, A: Allocator + Copy = Global> {
    values: Slab<T, A>,
    keys: Keys<A>,
    /// Of each key that was ever in use.
    timers: TimerQueue<A>,
}

impl<T: Drop, A: Allocator + Copy> Model for Table<T, A> {
    ghost use Rattle.std.specs.Prelude.{List};
    ghost use Rattle.std.specs.Coded.{coded_list};
    ghost use Rattle.timed_table.specs.Row.{Row, row_code};

    ghost Value = { List (Row T) };

    ghost coded = { coded_list (row_code T.code) };

    ghost use Rattle.timed_table.specs.Tied.{IsSound, all_rows};

    ghost view = { λ t. all_rows t.keys t.values t.timers };

    ghost invariant = { λ t. IsSound t.keys t.values t.timers };
}

impl<T: Drop, A: Allocator + Copy> Table<T, A> {
    ghost use Rattle.std.specs.List.{sum_by};
    ghost use Rattle.std.specs.Borrow.{LendsSo, sem};
    ghost use Rattle.std.specs.Option.{option_copied_mut};
    ghost use Rattle.timed_table.specs.Due.{due_rows_left};
    ghost use Rattle.timed_table.specs.contracts.table.Table.{the_row};
    ghost use Rattle.timed_table.specs.Row.{IsWritten};

    /// No rows; takes no memory.
    #[inline(always)]
    pub fn new(alloc: A) -> Self
        ensures { result ≡ [] }
    {
        Table {
            values: Slab::new(alloc),
            keys: Keys::new(alloc),
            timers: TimerQueue::new(alloc),
        }
    }

    /// What finds the memory for the rows.
    pub fn allocator(&self) -> &A {
        self.keys.allocator()
    }

    /// How many rows there are.
    pub fn len(&self) -> usize
        ensures value { result ≡ length self.now }
        // What every table keeps.
        ensures rising { IsRising 0 self.now }
    {
        self.keys.len()
    }

    /// The value under an identifier.
    pub fn get(&self, id: u32) -> Option<&T>
        ensures { option_copied result ≡ lookup (nat_eq id) (entries_of self.now) }
    {
        let key = self.keys.get(id)?;
        self.values.get(key)
    }

    /// The value under an identifier, to be written; its row keeps its identifier and its time.
    #[inline(always)]
    pub fn get_mut(&mut self, id: u32) -> Option<&mut T>
        ensures* writes_back { sem 𝓛 (LendsSo (the_row T.row A.row A.Allocator) T.row self.entry result
            (λ new w. IsWritten id w self.old new) (λ new. new ≡ self.old)) }
        ensures value { option_copied_mut result ≡ lookup (nat_eq id) (entries_of self.old) }
    {
        let key = self.keys.find(id)?;
        self.values.get_mut(key)
    }

    /// The time beside the value of an identifier, if there is one.
    pub fn time_of(&self, id: u32) -> Option<u64>
        ensures { result ≡ time_in (row_of id self.now) }
    {
        let key = self.keys.get(id)?;
        let timer = self.timers.get(key)?;
        Some(timer.time)
    }

    /// Puts a value and its time, if it has one, behind the others. All memory that the row will need is taken
    /// here; an `Err` has the value back.
    // In its callers, with all that it calls: each call on a value's way copied it whole and cleared where it had been.
    #[inline(always)]
    pub fn insert(&mut self, id: u32, value: T, time: Option<u64>) -> Result<(), AllocFailed<T>>
        requires { AllBelow id self.old }
        ensures ok { OnOk result (self.new ≡ self.old ++ record { identifier = id; value = value; time = time }
            ∷ []) }
        ensures err { OnErr result (self.new ≡ self.old) }
        ensures value_returned { IfErr result (λ failed. failed.value ≡ value) }
    {
        let Ok(()) = make_place(&mut self.values, &mut self.keys, &mut self.timers, id, time) else {
            return Err(AllocFailed { value });
        };
        self.values.insert_reserved(value);
        Ok(())
    }

    /// `insert` of the value that is made once all memory is found, which lends it where it then stands. Nothing
    /// where memory was refused, and no value is made.
    // In its callers, as `insert` is. A value that is made before has its place on the stack cleared, since a refusal
    // drops it: 13 instructions more for a Begin's dialogue, which is 192 octets.
    #[inline(always)]
    pub fn insert_with<F: FnOnce() -> T>(
        &mut self,
        id: u32,
        time: Option<u64>,
        make: F,
    ) -> Option<&mut T>
        requires below { AllBelow id self.old }
        requires make { F.pre make }
        ensures* writes_back { sem 𝓛 (LendsSo (the_row T.row A.row A.Allocator) T.row self.entry result
            (λ new w. OnSome result (new ≡ self.old ++ record { identifier = id; value = w; time = time } ∷ []))
            (λ new. IfNone result (new ≡ self.old))) }
        ensures value { IfSome result (λ place. F.post make place.now) }
    {
        make_place(&mut self.values, &mut self.keys, &mut self.timers, id, time).ok()?;
        let key = self.values.insert_reserved(make());
        self.values.get_mut(key)
    }

    /// Takes out the row of an identifier, and answers its value; takes no memory.
    // In its callers, with all that it calls: each call on a value's way copied it whole and cleared where it had been.
    #[inline(always)]
    pub fn remove(&mut self, id: u32) -> Option<T>
        ensures value { result ≡ lookup (nat_eq id) (entries_of self.old) }
        ensures rows { self.new ≡ without id self.old }
        ensures entries { entries_of self.new ≡ remove_entry (nat_eq id) (entries_of self.old) }
    {
        remove_row(&mut self.values, &mut self.keys, &mut self.timers, id)
    }

    /// Writes the time beside the value of an identifier, if there is one; takes no memory.
    #[inline(always)]
    pub fn set_time(&mut self, id: u32, time: Option<u64>)
        ensures rows { self.new ≡ with_time id time self.old }
        ensures entries { entries_of self.new ≡ entries_of self.old }
    {
        time_row(&self.values, &mut self.keys, &mut self.timers, id, time);
    }

    /// The least time, and of those who share it the least identifier.
    #[inline(always)]
    pub fn first(&self) -> Option<(u64, u32)>
        ensures first { MatchOption result (HasNoTime self.now) (IsFirst self.now) }
        // What every table keeps.
        ensures rising { IsRising 0 self.now }
    {
        let key = self.timers.first()?;
        let timer = self.timers.get(key)?;
        Some((timer.time, timer.name))
    }

    /// Makes the next call for the identifier of `first` find it at once; takes no memory.
    // A timer stands under its row's key, so the index isn't asked: that takes some 45 instructions.
    #[inline(always)]
    pub fn find_first(&mut self)
        ensures { self.new ≡ self.old }
    {
        let Some(key) = self.timers.first() else {
            return;
        };
        if let Some(timer) = self.timers.get(key) {
            self.keys.remember(timer.name, key);
        }
    }

    /// The values whose time is at or before a moment, each once, in no order; takes no memory.
    #[inline(always)]
    pub fn due(&self, moment: u64) -> DueRows<'_, T, A>
        ensures { (weight : T → ℕ) → sum_by weight (due_rows_left result)
            ≡ sum_by weight (due_values moment self.now) }
    {
        DueRows::new(self.timers.due(moment), &self.values)
    }
}

// By hand, since the room that there is, and the keys, say nothing of the rows.
impl<T: Drop + fmt::Debug, A: Allocator + Copy> fmt::Debug for Table<T, A> {
    fn fmt<W: fmt::Write>(&self, f: &mut fmt::Formatter<W>) -> fmt::Result {
        let mut rows = f.debug_map();
        for (id, key) in self.keys.iter() {
            rows.entry(id, &self.values.get(*key));
        }
        rows.finish()
    }
}

/// The timer that stands for a time.
#[inline(always)]
pub(crate) fn timer_named(id: u32, time: Option<u64>) -> Option<Timer>
    ensures { result ≡ timer_named id time }
{
    match time {
        None => None,
        Some(time) => Some(Timer { time, name: id }),
    }
}

/// Takes out the row of an identifier.
// In `Table::remove`, for the same reason.
#[inline(always)]
fn remove_row<T: Drop, A: Allocator + Copy>(
    values: &mut Slab<T, A>,
    keys: &mut Keys<A>,
    timers: &mut TimerQueue<A>,
    id: u32,
) -> Option<T>
    requires { IsSound keys.old values.old timers.old }
    ensures sound { IsSound keys.new values.new timers.new }
    ensures value { result ≡ lookup (nat_eq id) (entries_of (all_rows keys.old values.old timers.old)) }
    ensures rows { all_rows keys.new values.new timers.new
        ≡ without id (all_rows keys.old values.old timers.old) }
{
    let key = keys.remove(id)?;
    timers.set(key, None);
    values.try_remove(key)
}

/// Writes the time of an identifier, if it has a row.
#[inline(always)]
fn time_row<T: Drop, A: Allocator + Copy>(
    values: &Slab<T, A>,
    keys: &mut Keys<A>,
    timers: &mut TimerQueue<A>,
    id: u32,
    time: Option<u64>,
)
    requires { IsSound keys.old values.now timers.old }
    ensures sound { IsSound keys.new values.now timers.new }
    ensures rows { all_rows keys.new values.now timers.new
        ≡ with_time id time (all_rows keys.old values.now timers.old) }
{
    if let Some(key) = keys.find(id) {
        timers.set(key, timer_named(id, time));
    }
}

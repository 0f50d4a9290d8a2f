//! The dialogues that stand, and of each the moment at which time next changes it.

// Hints to inline: each step of an engine runs through it; docs/PERF.md says what the whole of it inlined gains.

ghost use Rattle.std.specs.Prelude.{◌≡◌, ◌≤◌, ◌+◌, ◌++◌, ◌∷◌, [], nat_eq, length};
ghost use Rattle.std.specs.Prelude.{None, false, option_copied, OnErr, OnOk, if◌then◌else◌};
ghost use Rattle.std.specs.List.{flat_map};
ghost use Rattle.std.specs.Map.{lookup, remove_entry};
ghost use Rattle.tcap_engine.specs.DialogueEntries.{AreDrawn, AreFrom};
ghost use Rattle.tcap_engine.specs.IdleDialogues.{AreDistinct, idle_end_in, without_all};
ghost use Rattle.tcap_engine.specs.Lapsing.{timer_of};
ghost use Rattle.timed_table.specs.Row.{entries_of, with_time, without};

use ber_core::OutOfMemory;
use std::alloc::{AllocFailed, Allocator, Global};
use std::fmt;
use std::marker::Model;
use tcap_dialogue::{Dialogue, Sink, SinkKind, Spares};
use timed_table::Table;

/// The dialogues by their identifiers, in order of creation; beside each its next timer.
///
/// A contract sees the identifiers and their dialogues, and forgets the timers, which follow from them.
#[derive(Drop)]
pub(crate) struct Dialogues<A: Allocator + Copy = Global> {
    pub(crate) rows: Table<Dialogue<A>, A>,
    /// What dialogues that are over left, for those that come.
    pub(crate) spares: Spares<A>,
}

impl<A: Allocator + Copy> Model for Dialogues<A> {
    ghost use Rattle.std.specs.Prelude.{List};
    ghost use Rattle.tcap_engine.specs.DialogueEntries.{TableEntry};
    ghost use Rattle.tcap_engine.specs.Timed.{AreTimed};
    ghost use Rattle.timed_table.specs.Row.{entries_of};

    ghost Value = { List TableEntry };

    ghost view = { λ t. entries_of t.rows };

    ghost invariant = { λ t. AreTimed t.rows };
}

impl<A: Allocator + Copy> Dialogues<A> {
    /// No dialogues; takes no memory.
    #[inline(always)]
    pub(crate) fn new(alloc: A) -> Self
        ensures { result ≡ [] }
    {
        Dialogues {
            rows: Table::new(alloc),
            spares: Spares::new(alloc),
        }
    }

    /// What finds the memory for the dialogues.
    pub(crate) fn allocator(&self) -> A {
        *self.rows.allocator()
    }

    /// How many dialogues stand.
    pub(crate) fn len(&self) -> usize
        ensures { result ≡ length self.now }
    {
        self.rows.len()
    }

    /// The dialogue with an identifier, if it stands.
    pub(crate) fn get(&self, identifier: u32) -> Option<&Dialogue<A>>
        ensures { option_copied result ≡ lookup (nat_eq identifier) self.now }
    {
        self.rows.get(identifier)
    }

    /// Takes in a dialogue that has no timer yet, under an identifier above all others. All memory that its
    /// place will need is taken here.
    // Inlined as `Table::insert` is: a dialogue is 192 octets. `insert_with` takes 8 instructions more, since it looks
    // up the value that it lends. A Begin goes by it all the same: its dialogue takes the message where it then stands.
    #[inline(always)]
    pub(crate) fn insert(
        &mut self,
        identifier: u32,
        dialogue: Dialogue<A>,
    ) -> Result<(), OutOfMemory>
        requires drawn { AreDrawn identifier self.old }
        requires untimed { timer_of dialogue ≡ None }
        ensures ok { OnOk result (self.new ≡ self.old ++ (identifier, dialogue) ∷ []) }
        ensures err { OnErr result (self.new ≡ self.old) }
    {
        match self.rows.insert(identifier, dialogue, None) {
            Ok(()) => Ok(()),
            Err(AllocFailed { .. }) => Err(OutOfMemory),
        }
    }
}

// By hand, since the memory that dialogues left says nothing of those that stand.
impl<A: Allocator + Copy + fmt::Debug> fmt::Debug for Dialogues<A> {
    fn fmt<W: fmt::Write>(&self, f: &mut fmt::Formatter<W>) -> fmt::Result {
        f.debug_struct("Dialogues")
            .field("rows", &self.rows)
            .finish()
    }
}

/// The memory of the dialogue of an identifier, which is over, is kept.
// It leaves it where it stands: taken out before, its 192 octets were copied five times.
#[inline(always)]
fn leave_memory<A: Allocator + Copy>(
    rows: &mut Table<Dialogue<A>, A>,
    spares: &mut Spares<A>,
    identifier: u32,
)
    ensures rows { without identifier rows.new ≡ without identifier rows.old }
    ensures entries { remove_entry (nat_eq identifier) (entries_of rows.new)
        ≡ remove_entry (nat_eq identifier) (entries_of rows.old) }
{
    let Some(dialogue) = rows.get_mut(identifier) else {
        return;
    };
    dialogue.leave_memory(spares);
}

/// The next timer of a dialogue after a step; one that is over needs none.
#[inline(always)]
pub(crate) fn timer_after<A: Allocator + Copy>(dialogue: &Dialogue<A>, is_over: bool) -> Option<u64>
    ensures { is_over ≡ false → result ≡ timer_of dialogue.now }
{
    if is_over { None } else { dialogue.next_timer() }
}

/// Writes the next timer of the dialogue of an identifier.
// One copy serves all calls: a copy in each would fill the cache of instructions, which costs more than the call. That
// took a tenth to a quarter off its misses. Apart from `take_out`, for which a call saves six registers.
#[inline(never)]
pub(crate) fn write_timer<A: Allocator + Copy>(
    rows: &mut Table<Dialogue<A>, A>,
    identifier: u32,
    timer: Option<u64>,
)
    ensures rows { rows.new ≡ with_time identifier timer rows.old }
    ensures entries { entries_of rows.new ≡ entries_of rows.old }
{
    rows.set_time(identifier, timer);
}

/// Takes out the dialogue of an identifier, which is over; the memory that it leaves is kept.
#[inline(never)]
pub(crate) fn take_out<A: Allocator + Copy>(
    rows: &mut Table<Dialogue<A>, A>,
    spares: &mut Spares<A>,
    identifier: u32,
)
    ensures rows { rows.new ≡ without identifier rows.old }
    ensures entries { entries_of rows.new ≡ remove_entry (nat_eq identifier) (entries_of rows.old) }
{
    leave_memory(rows, spares, identifier);
    rows.remove(identifier);
}

/// After the dialogue of an identifier took a step: where it is over it is taken out, and the memory that it leaves
/// is kept; else this is its next timer.
#[inline(always)]
pub(crate) fn settle<A: Allocator + Copy>(
    rows: &mut Table<Dialogue<A>, A>,
    spares: &mut Spares<A>,
    identifier: u32,
    is_over: bool,
    timer: Option<u64>,
)
    ensures rows { rows.new ≡ (if is_over then without identifier rows.old else with_time identifier timer rows.old) }
    ensures entries { entries_of rows.new
        ≡ (if is_over then remove_entry (nat_eq identifier) (entries_of rows.old) else entries_of rows.old) }
{
    if is_over {
        take_out(rows, spares, identifier);
    } else {
        write_timer(rows, identifier, timer);
    }
}

/// The dialogue of an identifier is over (TC-P-ABORT indication); there is room for all that is told.
// Its memory is given back. Were it left to others, `Dialogue::leave_memory` would have two callers, and not be inlined:
// 11 instructions more for each dialogue that ends.
fn end_one<'m, A: Allocator + Copy, K: SinkKind>(
    table: &mut Dialogues<A>,
    identifier: u32,
    sink: &mut Sink<'m, A, K>,
)
    requires from { AreFrom 0 table.old }
    requires places { length (idle_end_in table.old identifier) ≤ sink.old.places }
    ensures told { sink.new.outputs ≡ sink.old.outputs
        ++ idle_end_in table.old identifier }
    ensures places { sink.old.places ≤ sink.new.places
        + length (idle_end_in table.old identifier) }
    ensures table { table.new ≡ remove_entry (nat_eq identifier) table.old }
{
    let Some(mut dialogue) = table.rows.remove(identifier) else {
        return;
    };
    dialogue.abort_idle(sink);
}

/// The dialogues of these identifiers are over, earliest first; there is room for all that is told.
#[inline(always)]
pub(crate) fn end_all<'m, A: Allocator + Copy, K: SinkKind>(
    table: &mut Dialogues<A>,
    ids: &[u32],
    sink: &mut Sink<'m, A, K>,
)
    requires from { AreFrom 0 table.old }
    requires apart { AreDistinct ids.now }
    requires places { length (flat_map (idle_end_in table.old) ids.now) ≤ sink.old.places }
    ensures told { sink.new.outputs ≡ sink.old.outputs
        ++ flat_map (idle_end_in table.old) ids.now }
    ensures table { table.new ≡ without_all ids.now table.old }
{
    for identifier in ids {
        end_one(table, *identifier, sink);
    }
}

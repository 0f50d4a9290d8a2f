//! The invocations of a dialogue, by rising number: few one after the other, many by their identifiers. What answers,
//! closings and time ask of either stands in answers.rt, closing.rt and lapse.rt.

// Hints to inline: each step of an engine runs through it; docs/PERF.md says what the whole of it inlined gains.

ghost use Rattle.std.specs.Prelude.{◌≡◌, ◌↔◌, ◌≤◌, ◌++◌, ◌∷◌, [], Some, IsTrue, length, min, IfOk, OnOk, OnErr};
ghost use Rattle.tcap_invocation.specs.Invocations.{AllBelow, entry_at, without};
ghost use Rattle.tcap_invocation.specs.Rows.{AreSorted, IsNew};

use super::indexed::Indexed;
use super::{Invocation, Row, few};
use std::alloc::{AllocError, Allocator};
use std::marker::Model;

/// So many stand one after the other at most.
// All of these are looked through for an identifier and for the next timer, which takes no memory but their own.
// A step that receives a result and sends an Invoke takes 4,143 instructions with 8 Sent, 4,559 with 12 and 4,974
// with 16; by a map and a list of timers 4,747 with 12 and 4,802 with 16. A lapse turns at 10.
const FEW: usize = 8;

/// The invocations of a dialogue. A contract sees the rows.
#[derive(Debug, Drop)]
pub(super) struct Rows<A: Allocator + Copy> {
    /// All of them, while there were never more than a few; else none.
    pub(super) few: Vec<Row, A>,
    /// All of them, once there were more.
    pub(super) many: Option<Box<Indexed<A>, A>>,
}

impl<A: Allocator + Copy> Model for Rows<A> {
    ghost use Rattle.std.specs.Option.{option_map};
    ghost use Rattle.std.specs.Prelude.{List};
    ghost use Rattle.tcap_invocation.specs.Invocations.{Row};
    ghost use Rattle.tcap_invocation.specs.Rows.{AreSorted, AreApart, rows_of};

    ghost Value = { List Row };

    ghost view = { λ v. rows_of v.few.items (option_map (λ b. b.value) v.many) };

    ghost invariant = { λ v. AreSorted (rows_of v.few.items (option_map (λ b. b.value) v.many))
        × AreApart v.few.items (option_map (λ b. b.value) v.many) };
}

impl<A: Allocator + Copy> Rows<A> {
    /// No invocation.
    #[inline(always)]
    pub(super) fn new(alloc: A) -> Self
        ensures { result ≡ [] }
    {
        Rows {
            few: Vec::new(alloc),
            many: None,
        }
    }

    /// What finds the memory for them.
    pub(super) fn allocator(&self) -> A {
        *self.few.allocator()
    }

    /// Takes all out; the room stays.
    #[inline(always)]
    pub(super) fn clear(&mut self)
        ensures { self.new ≡ [] }
    {
        match &mut self.many {
            None => self.few.clear(),
            Some(many) => many.clear(),
        }
    }

    /// For how many there is memory.
    #[inline(always)]
    pub(super) fn capacity(&self) -> usize
        ensures { min (length self.now) 256 ≤ result }
    {
        match &self.many {
            None => self.few.capacity(),
            Some(many) => many.capacity(),
        }
    }

    /// Takes an invocation in that is Queued, under an identifier that is free and a number above all.
    #[inline(always)]
    pub(super) fn push(&mut self, id: i8, entry: Invocation) -> Result<(), AllocError>
        requires { IsNew self.old id entry }
        ensures ok { OnOk result (self.new ≡ self.old ++ (id, entry) ∷ []) }
        ensures err { OnErr result (self.new ≡ self.old) }
    {
        match &mut self.many {
            Some(many) => many.push(id, entry),
            None if self.few.len() < FEW => few::push(&mut self.few, id, entry),
            None => {
                let alloc = *self.few.allocator();
                self.many = Some(indexed_with(alloc, &self.few, id, entry)?);
                self.few = Vec::new(alloc);
                Ok(())
            }
        }
    }

    /// Takes an invocation out.
    // Apart: so a received result, which mostly takes none out, is small enough for the toolchain to inline, 10 to 30
    // instructions a step.
    #[inline(never)]
    pub(super) fn take_out(&mut self, id: &i8, entry: &Invocation)
        requires { entry_at self.old id.now ≡ Some entry.now }
        ensures { self.new ≡ without self.old id.now }
    {
        match &mut self.many {
            None => few::take_out(&mut self.few, id),
            Some(many) => many.take_out(id, entry),
        }
    }

    /// Whether each number is below this one.
    #[inline(always)]
    pub(super) fn are_below(&self, number: u64) -> bool
        ensures { IsTrue result ↔ AllBelow number self.now }
    {
        match &self.many {
            None => few::are_below(&self.few, number),
            Some(many) => many.are_below(number),
        }
    }
}

/// These rows and one more, by their identifiers.
// Not inlined: each invocation goes through `push`, and few dialogues ever come here.
#[inline(never)]
fn indexed_with<A: Allocator + Copy>(
    alloc: A,
    rows: &[Row],
    id: i8,
    entry: Invocation,
) -> Result<Box<Indexed<A>, A>, AllocError>
    requires sorted { AreSorted rows.now }
    requires new { IsNew rows.now id entry }
    ensures { IfOk result (λ many. many.value ≡ rows.now ++ (id, entry) ∷ []) }
{
    let mut many = Indexed::of_few(alloc, rows)?;
    many.push(id, entry)?;
    Ok(Box::new(alloc, many)?)
}

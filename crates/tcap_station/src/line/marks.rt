//! The events of which outputs wait: their numbers, and how many outputs of each are left.

ghost use Rattle.std.specs.Prelude.{[], ◌≡◌, ◌<◌, IsTrue, OnOk};
ghost use Rattle.tcap_station.specs.Marks.{HasPlace, IsOrdered, less_one, marks_in, with_mark};

use std::alloc::{AllocError, Allocator, Global};
use std::collections::VecDeque;

/// For how many events room is kept where fewer wait (our own).
const KEPT_MARKS: usize = 64;

/// An event of which outputs wait.
#[derive(Clone, Copy, Debug)]
pub(crate) struct Mark {
    /// Its number.
    pub(crate) event: u64,
    /// How many of its outputs are left, 1 at least.
    pub(crate) left: usize,
}

/// The events of which outputs wait, in order. The first stands apart: where one waits at a time, as behind most
/// calls, the queue isn't touched.
#[derive(Debug, Drop)]
pub(crate) struct Marks<A: Allocator + Copy = Global> {
    pub(crate) first: Option<Mark>,
    /// Those behind it.
    pub(crate) others: VecDeque<Mark, A>,
}

impl<A: Allocator + Copy> Marks<A> {
    /// No outputs wait; takes no memory.
    pub(crate) fn new(alloc: A) -> Marks<A>
        ensures marks { marks_in result ≡ [] }
        ensures ordered { IsOrdered result }
    {
        Marks {
            first: None,
            others: VecDeque::new(alloc),
        }
    }
}

/// Whether there is a place for an event more.
#[inline(always)]
pub(crate) fn has_place<A: Allocator + Copy>(marks: &Marks<A>) -> bool
    ensures { IsTrue result → HasPlace marks.now }
{
    marks.first.is_none() || marks.others.len() < marks.others.capacity()
}

/// Makes a place for an event more.
// A queue's own growth stands out of line: in each call of a station is the test alone.
#[inline(never)]
pub(crate) fn make_place<A: Allocator + Copy>(marks: &mut Marks<A>) -> Result<(), AllocError>
    ensures marks { marks_in marks.new ≡ marks_in marks.old }
    ensures ordered { IsOrdered marks.old → IsOrdered marks.new }
    ensures ok { OnOk result (HasPlace marks.new) }
{
    marks.others.reserve(1)
}

/// Makes a place for an event more, where there is none.
#[inline(always)]
pub(crate) fn find_place<A: Allocator + Copy>(marks: &mut Marks<A>) -> Result<(), AllocError>
    ensures marks { marks_in marks.new ≡ marks_in marks.old }
    ensures ordered { IsOrdered marks.old → IsOrdered marks.new }
    ensures ok { OnOk result (HasPlace marks.new) }
{
    if has_place(marks) {
        return Ok(());
    }
    make_place(marks)
}

/// An event of this number has so many outputs: it is marked where it has any.
#[inline(always)]
pub(crate) fn add_mark<A: Allocator + Copy>(marks: &mut Marks<A>, event: u64, count: usize)
    requires place { 0 < count → HasPlace marks.old }
    requires ordered { IsOrdered marks.old }
    ensures marks { marks_in marks.new ≡ with_mark (marks_in marks.old) event count }
    ensures ordered { IsOrdered marks.new }
{
    if count == 0 {
        return;
    }
    let mark = Mark { event, left: count };
    if marks.first.is_some() {
        marks.others.push_back_reserved(mark);
    } else {
        marks.first = Some(mark);
    }
}

/// An output of the first event is taken; the event goes with its last one.
#[inline(always)]
pub(crate) fn count_down<A: Allocator + Copy>(marks: &mut Marks<A>)
    requires { IsOrdered marks.old }
    ensures marks { marks_in marks.new ≡ less_one (marks_in marks.old) }
    ensures ordered { IsOrdered marks.new }
{
    let Some(mark) = marks.first else {
        return;
    };
    if mark.left > 1 {
        marks.first = Some(Mark {
            left: mark.left - 1,
            ..mark
        });
        return;
    }
    if marks.others.is_empty() {
        marks.first = None;
    } else {
        next_mark(marks);
    }
}

/// The event behind the first comes to the front, if there is one.
// Out of line: behind most calls one event waits.
#[inline(never)]
fn next_mark<A: Allocator + Copy>(marks: &mut Marks<A>)
    ensures marks { marks_in marks.new ≡ marks.old.others.items }
    ensures ordered { IsOrdered marks.new }
{
    marks.first = marks.others.pop_front();
    if marks.others.capacity() > KEPT_MARKS {
        give_back(&mut marks.others);
    }
}

/// Gives back most of the room where less than a quarter of it is in use.
#[inline(never)]
fn give_back<A: Allocator + Copy>(marks: &mut VecDeque<Mark, A>)
    ensures { marks.new.items ≡ marks.old.items }
{
    if marks.len() < marks.capacity() / 4 {
        marks.shrink_to(marks.capacity() / 2);
    }
}

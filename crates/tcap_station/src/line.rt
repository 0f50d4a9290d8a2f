//! What waits: outputs in two outboxes, and the events that they answer.

pub(crate) mod accepting;
pub(crate) mod marks;
pub(crate) mod outboxes;

ghost use Rattle.std.specs.Prelude.{◌≡◌, [], IfSome, Some, drop, slice_get};
ghost use Rattle.std.specs.Option.{option_map};
ghost use Rattle.tcap_primitives.specs.KeptViews.{FitsKept, kept_view};
ghost use Rattle.tcap_station.specs.Line.{IsInLine, waiting_in};
ghost use Rattle.tcap_station.specs.WaitingOutput.{is_any};
ghost use Rattle.tcap_station.specs.WaitingViews.{answering, output_of, waiting_view};

use crate::waiting::{Answering, Waiting};
use marks::{Mark, Marks, count_down};
use outboxes::{kept_first, pass_first, read_first};
use std::alloc::{Allocator, Global};
use tcap_engine::Outbox;
use tcap_primitives::kept::KeptOutput;

/// What waits. Of the outputs in front so many have been taken; those behind come after them.
#[derive(Debug, Drop)]
pub(crate) struct Line<A: Allocator + Copy = Global> {
    pub(crate) front: Outbox<A>,
    pub(crate) taken: usize,
    pub(crate) back: Outbox<A>,
    /// The events of which outputs wait, in order.
    pub(crate) marks: Marks<A>,
}

impl<A: Allocator + Copy> Line<A> {
    /// Nothing waits; takes no memory.
    pub(crate) fn new(alloc: A) -> Line<A>
        ensures waiting { waiting_in result ≡ [] }
        ensures in_line { IsInLine result }
    {
        Line {
            front: Outbox::new(alloc),
            taken: 0,
            back: Outbox::new(alloc),
            marks: Marks::new(alloc),
        }
    }

    /// Whether an output waits.
    #[inline(always)]
    pub(crate) fn is_any(&self) -> bool
        requires { IsInLine self.now }
        ensures { result ≡ is_any (waiting_in self.now) }
    {
        self.marks.first.is_some()
    }

    /// The output that comes next, if one waits. It copies no octets.
    #[inline]
    pub(crate) fn first(&self) -> Option<Waiting<'_>>
        requires { IsInLine self.now }
        ensures { option_map waiting_view result ≡ slice_get (waiting_in self.now) 0 }
    {
        let mark = self.marks.first?;
        let output = read_first(&self.front, self.taken, &self.back)?;
        Some(Waiting {
            output,
            event: mark.event,
            is_last: mark.left == 1,
        })
    }

    /// The output that comes next, as it is kept, if one waits.
    #[inline(always)]
    pub(crate) fn kept_first(&self) -> Option<KeptOutput<'_>>
        requires { IsInLine self.now }
        ensures output { option_map kept_view result ≡ option_map output_of (slice_get (waiting_in self.now) 0) }
        ensures fits { IfSome result FitsKept }
    {
        kept_first(&self.front, self.taken, &self.back)
    }

    /// `kept_first`, where the outputs of one event wait, of which none was taken; `None` elsewhere.
    // Where it answers one, `remove_first` calls nothing: who asks for it first saves one register.
    #[inline(always)]
    pub(crate) fn kept_of_one_event(&self) -> Option<KeptOutput<'_>>
        requires { IsInLine self.now }
        ensures output { IfSome result (λ kept. Some (kept_view kept)
            ≡ option_map output_of (slice_get (waiting_in self.now) 0)) }
        ensures fits { IfSome result FitsKept }
    {
        if self.taken < self.front.len() || !self.marks.others.is_empty() {
            return None;
        }
        self.back.kept(0)
    }

    /// Takes away the output that comes next, if one waits: which event it answers.
    #[inline(always)]
    pub(crate) fn remove_first(&mut self) -> Option<Answering>
        requires { IsInLine self.old }
        ensures found { result ≡ option_map answering (slice_get (waiting_in self.old) 0) }
        ensures rest { waiting_in self.new ≡ drop 1 (waiting_in self.old) }
        ensures in_line { IsInLine self.new }
    {
        let Mark { event, left } = self.marks.first?;
        count_down(&mut self.marks);
        pass_first(&mut self.front, &mut self.taken, &mut self.back);
        Some(Answering {
            event,
            is_last: left == 1,
        })
    }
}

//! The memory that dialogues leave to others, and how one leaves its own.

ghost use Rattle.std.specs.Prelude.{◌≡◌, ◌<◌, ◌≤◌, ◌↔◌, [], ℕ, true, IsTrue, vec_len, vec_capacity};
ghost use Rattle.tcap_dialogue.specs.RejectRoom.{FindRejectRoom, HasRejectRoom, IsBare};
ghost use Rattle.tcap_invocation.specs.Invocations.{AllBelow};
ghost use Rattle.tcap_invocation.specs.Stage.{moment_limit};
ghost use Rattle.tcap_model.specs.Table.Dialogue.{with_queue};
ghost use Rattle.tcap_primitives.specs.QueueViews.{queue_view};

use super::Dialogue;
use std::alloc::{Allocator, Global};
use std::mem;
use tcap_component::MAX_REJECT;
use tcap_invocation::Invocations;
use tcap_primitives::Queue;

/// So many queues are kept at most, and so many lists of invocations.
const MOST_KEPT: usize = 16;

/// The greatest queue that is kept, in octets.
const MOST_OCTETS: usize = 1_024;

/// Its most components.
const MOST_PARTS: usize = 16;

/// The most invocations of a list that is kept.
const MOST_INVOCATIONS: usize = 4;

/// The memory that dialogues left to others: of queues that are empty, and of the lists of invocations of those that
/// are over, 16 of each at most, and none that is large. A dialogue takes it with a component, in place of memory of
/// its own (our own).
// A queue is mostly empty: so few serve all dialogues, and stay in the processor's cache. What is in it says nothing:
// who takes it clears it first. No `Debug`, which would print the octets of other dialogues.
// What is lent and kept at each request is inlined into it: a few instructions, of which a call of its own would take
// fifteen more.
#[derive(Drop)]
pub struct Spares<A: Allocator + Copy = Global> {
    queues: Vec<Queue<A>, A>,
    lists: Vec<Invocations<A>, A>,
}

impl<A: Allocator + Copy> Spares<A> {
    /// No memory.
    #[inline(always)]
    pub fn new(alloc: A) -> Spares<A> {
        Spares {
            queues: Vec::new(alloc),
            lists: Vec::new(alloc),
        }
    }

    /// Whether a queue has neither components nor memory for them, and what would be lent to it has room for so many
    /// Rejects.
    #[inline(always)]
    pub(crate) fn can_lend(&self, queue: &Queue<A>, count: usize) -> bool
        ensures { result ≡ true → FindRejectRoom self.now queue.now count }
    {
        if !is_bare(queue) {
            return false;
        }
        let Some(last) = self.queues.last() else {
            return false;
        };
        count.saturating_mul(MAX_REJECT) <= last.octets.capacity() && count <= last.parts.capacity()
    }

    /// Lends the memory that another queue left to one that has none. It takes no memory.
    #[inline(always)]
    pub(crate) fn lend_queue(&mut self, queue: &mut Queue<A>)
        ensures same { queue_view queue.new ≡ queue_view queue.old }
        ensures room { (count : ℕ) → FindRejectRoom self.old queue.old count → HasRejectRoom queue.new count }
    {
        if !is_bare(queue) {
            return;
        }
        if let Some(found) = self.queues.pop() {
            // What stood there has no memory to give back: to look for it took 4 to 18 instructions a step.
            mem::forget(mem::replace(queue, found));
            queue.clear();
        }
    }

    /// Lends the memory of another list of invocations to one that has none, whose wait is `reject_ms`. It takes no
    /// memory.
    #[tactic(auto, using(crate::proofs::SpareLemmas::emptied))]
    #[inline(always)]
    pub(crate) fn lend_list(&mut self, list: &mut Invocations<A>, reject_ms: u64)
        requires limited { reject_ms ≤ moment_limit }
        requires wait { list.old.reject_ms ≡ reject_ms }
        ensures { list.new ≡ list.old }
    {
        if list.capacity() > 0 || !list.is_above_all(0) {
            return;
        }
        if let Some(found) = self.lists.pop() {
            *list = found;
            list.renew(reject_ms);
        }
    }

    /// Makes the places for what is kept, once, where memory for them is given.
    #[inline(always)]
    pub(crate) fn make_places(&mut self) {
        if self.queues.capacity() == 0 || self.lists.capacity() == 0 {
            self.reserve_places();
        }
    }

    /// `make_places`, where there are none.
    #[inline(never)]
    fn reserve_places(&mut self) {
        let _ = self.queues.reserve_exact(MOST_KEPT);
        let _ = self.lists.reserve_exact(MOST_KEPT);
    }

    /// Keeps the memory of a queue that is empty, or that nobody reads any more, where it is small and there is a
    /// place for it; else gives the memory back. It takes none.
    #[inline(always)]
    pub(crate) fn keep_queue(&mut self, queue: &mut Queue<A>)
        ensures { queue_view queue.new ≡ [] }
    {
        let alloc = *queue.octets.allocator();
        let empty = Queue {
            octets: Vec::new(alloc),
            parts: Vec::new(alloc),
        };
        if has_place(&self.queues) && is_small(queue) {
            self.queues.push_reserved(mem::replace(queue, empty));
        } else {
            free_queue(mem::replace(queue, empty));
        }
    }

    /// Keeps the memory of a list of invocations, where it has some and is small and there is a place; an empty list
    /// of this wait takes its place. It takes no memory.
    #[tactic(auto, using(crate::proofs::SpareLemmas::emptied))]
    #[inline(always)]
    pub(crate) fn keep_list(&mut self, list: &mut Invocations<A>, reject_ms: u64)
        requires limited { reject_ms ≤ moment_limit }
        ensures { AllBelow 0 list.old.rows → list.old.reject_ms ≡ reject_ms → list.new ≡ list.old }
    {
        let room = list.capacity();
        if room == 0 || room > MOST_INVOCATIONS || !has_place(&self.lists) {
            return;
        }
        let empty = Invocations::new(*self.lists.allocator(), reject_ms);
        self.lists.push_reserved(mem::replace(list, empty));
    }
}

/// The memory of a queue is freed.
// It is rare, and kept out of what each request runs through.
#[inline(never)]
fn free_queue<A: Allocator + Copy>(_queue: Queue<A>) {}

/// Whether a queue has neither components nor memory for them.
#[inline(always)]
fn is_bare<A: Allocator + Copy>(queue: &Queue<A>) -> bool
    ensures { IsTrue result ↔ IsBare queue.now }
{
    queue.octets.capacity() == 0 && queue.parts.capacity() == 0
}

/// Whether a queue is none that is large.
#[inline(always)]
fn is_small<A: Allocator + Copy>(queue: &Queue<A>) -> bool {
    queue.octets.capacity() <= MOST_OCTETS && queue.parts.capacity() <= MOST_PARTS
}

/// Whether there is a place for one more.
#[inline(always)]
fn has_place<T, A: Allocator + Copy>(places: &Vec<T, A>) -> bool
    ensures { result ≡ true → vec_len places.now < vec_capacity places.now }
{
    places.len() < places.capacity()
}

impl<A: Allocator + Copy> Dialogue<A> {
    /// Leaves the memory of the queue to others, where it is empty. It takes none.
    #[inline(always)]
    pub(super) fn leave_queue(&mut self, spares: &mut Spares<A>)
        ensures { self.new ≡ self.old }
    {
        if self.queue.octets.capacity() > 0 && self.queue.parts.is_empty() {
            spares.keep_queue(&mut self.queue);
        }
    }

    /// Its empty queue becomes this one, of the Rejects that answer the Begin which creates it; where there are none,
    /// the memory of that one is left to others. It takes none.
    #[inline(always)]
    pub(super) fn take_queue(&mut self, spares: &mut Spares<A>, queue: &mut Queue<A>)
        requires { self.old.standing.queue ≡ [] }
        ensures dialogue { self.new ≡ with_queue self.old (queue_view queue.old) }
        ensures queue { queue_view queue.new ≡ [] }
    {
        if !queue.parts.is_empty() {
            mem::swap(&mut self.queue, queue);
        } else if queue.octets.capacity() > 0 {
            spares.keep_queue(queue);
        }
    }

    /// Leaves its memory to those that come: it is over, and not to be used any more.
    pub fn leave_memory(&mut self, spares: &mut Spares<A>)
        ensures { self.new.standing.identifier ≡ self.old.standing.identifier }
    {
        if self.queue.octets.capacity() > 0 || self.invocations.capacity() > 0 {
            spares.make_places();
        }
        if self.queue.octets.capacity() > 0 {
            spares.keep_queue(&mut self.queue);
        }
        spares.keep_list(&mut self.invocations, 0);
    }

    /// Takes a queue for a component.
    #[inline(always)]
    pub(super) fn borrow_queue(&mut self, spares: &mut Spares<A>)
        ensures { self.new ≡ self.old }
    {
        spares.lend_queue(&mut self.queue);
    }

    /// Takes what an Invoke needs: a queue and a list of invocations.
    #[inline(always)]
    pub(super) fn borrow_for_invoke(&mut self, spares: &mut Spares<A>, reject_ms: u64)
        requires wait { self.old.invocations.reject_ms ≡ reject_ms }
        requires limited { reject_ms ≤ moment_limit }
        ensures { self.new ≡ self.old }
    {
        spares.lend_queue(&mut self.queue);
        spares.lend_list(&mut self.invocations, reject_ms);
    }

    /// Gives back what was taken for a request that is refused: an empty queue, and of an Invoke an empty list.
    #[inline(never)]
    pub(super) fn give_back(&mut self, spares: &mut Spares<A>, reject_ms: u64, is_invoke: bool)
        requires wait { self.old.invocations.reject_ms ≡ reject_ms }
        requires limited { reject_ms ≤ moment_limit }
        ensures { self.new ≡ self.old }
    {
        self.leave_queue(spares);
        if is_invoke && self.invocations.is_above_all(0) {
            spares.keep_list(&mut self.invocations, reject_ms);
        }
    }

    /// Leaves the memory of an empty queue to others, after a request; after a Begin or a Continue it makes places for
    /// what is left first.
    #[inline(always)]
    pub(super) fn leave_empty_queue(&mut self, spares: &mut Spares<A>, makes_places: bool)
        ensures { self.new ≡ self.old }
    {
        if makes_places {
            spares.make_places();
        }
        self.leave_queue(spares);
    }
}

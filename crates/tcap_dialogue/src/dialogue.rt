//! The dialogue, what it keeps, and what a call on it gives.

mod abort;
pub(crate) mod begin_memory;
mod ended_invocations;
mod kept_address;
mod message_length;
mod messages;
mod portion_parts;
mod received_begin;
mod received_end;
pub(crate) mod requests;
pub(crate) mod spares;
pub(crate) mod timers;
pub(crate) mod unstructured;

ghost use Rattle.std.specs.Prelude.{◌≡◌, ◌≤◌};
ghost use Rattle.tcap_invocation.specs.Stage.{moment_limit};
ghost use Rattle.tcap_model.specs.Table.Dialogue.{fresh_dialogue};
ghost use Rattle.tcap_reception.specs.StateViews.{state_of};
ghost use Rattle.tcap_model.specs.Words.State.{peer_of};

use kept_address::KeptAddress;
use std::alloc::{Allocator, Global};
use std::marker::Model;
use tcap_invocation::Invocations;
use tcap_pdu::TransId;
use tcap_primitives::{Context, Output, Queue};
use tcap_reception::{Phase, State};

/// What a call gives: what is sent and told, in order, and whether the dialogue is over.
#[derive(Debug, Drop, PartialEq, Eq)]
pub struct Step<'m, A: Allocator = Global> {
    /// What is sent and told.
    pub outputs: Vec<Output<'m, A>, A>,
    /// Whether the dialogue is over, so that it is not to be used any more.
    pub over: bool,
}

/// One dialogue (Q.774, Transaction state machine; Q.774, Component handling).
///
/// - Requests of the TC-user: `invoke`, `result_last`, `result_more`, `error_back`, `u_reject`,
///   `u_cancel`; `uni`, `begin`, `go_on`, `finish`, `u_abort`; or any of them by `ask`.
/// - Events from outside: `accept`, which makes the dialogue of a Begin, `take_frame`, `take_fault`;
///   time: `lapse`; or timer by timer `expire_first`; or one by one `due_count`, `first_due`, `lapse_one`
///   and `free_due`; the end of one that was idle too long: `abort_idle`, or one by one `open_count`,
///   `close_one`; or it is postponed by `touch`.
/// - With the memory that other dialogues left (`Spares`): `invoke_with`, `result_last_with`, `cancel_with`; into a
///   sink `begin_with`, `go_on_with`, `finish_with`, or any request by `ask_with`; `take_begin_with` and
///   `take_frame_with`. `BeginMemory` finds the memory that a Begin takes. `leave_memory` leaves its own memory to
///   others.
/// - Into a sink, without `Spares`: `take_faulty`, and `expire_first` and `abort_idle` of those above.
/// - Getters: `identifier`, `state`, `is_live`, `peer`, `kept`, `check_invoke`, `message_length`, `next_timer`,
///   `idle_at`.
///
/// Moments are in milliseconds by the caller's clock, at most 2^62. A contract sees the identifier,
/// state, context, queue, invocations, idle limit, last activity and the peer's address, and forgets
/// how much room there is.
#[derive(Debug, Drop)]
pub struct Dialogue<A: Allocator + Copy = Global> {
    // What each step and each moment reads comes first, so that it lies in two lines of the cache.
    identifier: u32,
    phase: Phase,
    /// The clock at its last activity, 0 if there was none.
    touched: u64,
    /// Its idle limit in milliseconds, 0 for none, at most 2^62.
    idle_ms: u64,
    invocations: Invocations<A>,
    queue: Queue<A>,
    /// The address to which its messages go, empty before there is one.
    kept: KeptAddress<A>,
    context: Option<Context<A>>,
}

impl<A: Allocator + Copy> Model for Dialogue<A> {
    ghost use Rattle.std.specs.Prelude.{◌≤◌};
    ghost use Rattle.tcap_invocation.specs.Stage.{moment_limit};
    ghost use Rattle.tcap_model.specs.Table.Dialogue as model;
    ghost use Rattle.tcap_primitives.specs.ContextViews.{context_view};
    ghost use Rattle.tcap_reception.specs.StateViews.{phase_view};
    ghost use Rattle.tcap_primitives.specs.QueueViews.{queue_view};

    ghost Value = { model.Dialogue };

    ghost view = { λ d. record {
      standing = record {
        identifier = d.identifier;
        state = phase_view d.phase;
        context = context_view d.context;
        queue = queue_view d.queue;
      };
      invocations = d.invocations;
      idle_ms = d.idle_ms;
      touched = d.touched;
      kept = d.kept;
    } };

    ghost invariant = { λ d. (d.idle_ms ≤ moment_limit) × (d.touched ≤ moment_limit) };
}

impl<A: Allocator + Copy> Dialogue<A> {
    /// A new dialogue with this identifier, in which nothing has happened. `reject_ms` is how long an
    /// invoke identifier waits for a Reject of its result or error, and `idle_ms` how long the dialogue
    /// may stay idle, 0 for no limit: 0 to 2^62 milliseconds (Q.774, Transaction state machine; the
    /// idle limit is our own).
    // Built in place, in each caller: a dialogue is 192 octets.
    #[inline(always)]
    pub fn fresh(alloc: A, identifier: u32, reject_ms: u64, idle_ms: u64) -> Dialogue<A>
        requires reject { reject_ms ≤ moment_limit }
        requires idle { idle_ms ≤ moment_limit }
        ensures { result ≡ fresh_dialogue identifier reject_ms idle_ms }
    {
        Dialogue {
            identifier,
            phase: Phase::Fresh,
            context: None,
            queue: Queue {
                octets: Vec::new(alloc),
                parts: Vec::new(alloc),
            },
            invocations: Invocations::new(alloc, reject_ms),
            idle_ms,
            touched: 0,
            kept: KeptAddress::empty(),
        }
    }

    /// Its identifier, which is its local transaction identifier.
    pub fn identifier(&self) -> u32
        ensures { result ≡ self.now.standing.identifier }
    {
        self.identifier
    }

    /// Its state.
    pub fn state(&self) -> State
        ensures { result ≡ state_of self.now.standing.state }
    {
        self.phase.state()
    }

    /// The peer's transaction identifier, which is known in Received and in Active.
    pub fn peer(&self) -> Option<TransId>
        ensures { result ≡ peer_of self.now.standing.state }
    {
        self.phase.peer()
    }

    /// The address to which its messages go: that to which it began, or from which the Begin came that
    /// made it, or the first Continue to it, if it began: its octets, 0 to 255, none before there is one. It
    /// takes no memory (own).
    // One call of another, and called from other crates.
    #[inline]
    pub fn kept(&self) -> &[u8]
        ensures { result.now ≡ self.now.kept }
    {
        self.kept.octets()
    }
}

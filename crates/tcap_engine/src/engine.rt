//! The engine and what it keeps.

// Hints to inline: each step of an engine runs through it; docs/PERF.md says what the whole of it inlined gains.

pub(crate) mod advance;
pub(crate) mod component_requests;
pub(crate) mod creation;
pub(crate) mod dialogue_requests;
pub(crate) mod events;
pub(crate) mod faulty_message;
pub(crate) mod getters;
pub(crate) mod message_length;
pub(crate) mod outbox_calls;
mod outbox_events;
pub(crate) mod receive;
pub(crate) mod requests;
pub(crate) mod uni_and_abort;

ghost use Rattle.std.specs.Prelude.{◌≡◌};
ghost use Rattle.tcap_engine.specs.Limits.{AreLimits, empty_history};
ghost use Rattle.tcap_model.specs.Table.World.{StandsAt, first_world};

use crate::dialogues::Dialogues;
use crate::limits::Limits;
use std::alloc::{Allocator, Global};
use std::marker::Model;
use tcap_primitives::ranges;

/// The engine (Q.774, Transaction sublayer procedures; Q.774, Component handling).
///
/// - Requests of the TC-user: `new_dialogue`; `invoke`, `result_last`, `result_more`, `error_back`,
///   `u_reject` and `u_cancel` of component handling; `uni`, `begin`, `go_on`, `finish` and
///   `u_abort` of dialogue handling; `request`, any of these eleven as a value.
/// - Events from outside: `receive`, for messages; `advance`, for time; `handle`, any event as a value.
/// - Into an outbox: `uni_into`, `begin_into`, `go_on_into`, `finish_into`, `u_abort_into`, or any of them by
///   `request_into`; `receive_into`, `advance_into`; `handle_into`.
/// - Getters: `now`, `state_of`, `next_timer`; `dialogues`, `next_identifiers`; `due`, how many outputs a moment needs
///   room for; `message_length` and `ended_by`, of a message that a request would send.
///
/// Moments are in milliseconds by the caller's clock, at most 2^62. A contract sees the limits, the
/// counters, the clock and the dialogues that stand by rising identifier, which is the order of
/// creation, and forgets the capacity.
#[derive(Debug, Drop)]
pub struct Engine<A: Allocator + Copy = Global> {
    limits: Limits,
    next_dialogue: u32,
    next_number: u64,
    clock: u64,
    table: Dialogues<A>,
}

impl<A: Allocator + Copy> Model for Engine<A> {
    ghost use Rattle.tcap_model.specs.Table.World.{World};
    ghost use Rattle.tcap_engine.specs.DialogueEntries.{IsSound, dialogues_of};

    ghost Value = { World };

    ghost view = { λ e. record {
      max_dialogues = e.limits.max_dialogues;
      reject_ms = e.limits.reject_ms;
      idle_ms = e.limits.idle_ms;
      next_dialogue = e.next_dialogue;
      next_number = e.next_number;
      clock = e.clock;
      dialogues = dialogues_of e.table;
    } };

    ghost invariant = { λ e. IsSound e.limits e.next_dialogue e.next_number e.clock e.table };
}

impl<A: Allocator + Copy> Engine<A> {
    /// An engine with clock 0 and no dialogues, whose first dialogue and first invocation are 1.
    #[inline(always)]
    pub fn new(alloc: A, limits: Limits) -> Engine<A>
        requires { AreLimits limits }
        ensures value { result ≡ first_world (empty_history limits 1 1).start }
        // Nothing has happened.
        ensures stands { StandsAt (empty_history limits 1 1) result }
    {
        Engine::resume(alloc, limits, 1, 1)
    }

    /// An engine with clock 0 and no dialogues that goes on with these counters: the identifier of its
    /// first dialogue and the number of its first invocation.
    #[inline(always)]
    pub fn resume(alloc: A, limits: Limits, next_dialogue: u32, next_number: u64) -> Engine<A>
        requires { AreLimits limits }
        ensures value { result ≡ first_world (empty_history limits next_dialogue next_number).start }
        ensures stands { StandsAt (empty_history limits next_dialogue next_number) result }
    {
        ranges::short(next_dialogue);
        ranges::long(next_number);
        Engine {
            limits,
            next_dialogue,
            next_number,
            clock: 0,
            table: Dialogues::new(alloc),
        }
    }
}

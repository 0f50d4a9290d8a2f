//! What is seen of a station, and of its engine.

ghost use Rattle.std.specs.Prelude.{◌≡◌, ◌≢◌, ◌≤◌, ◌⊎◌, ◌-◌, ◌^◌, [], length};
ghost use Rattle.tcap_engine.specs.MessageLength.{sent_length};
ghost use Rattle.tcap_engine.specs.Running.{outputs_in};
ghost use Rattle.tcap_engine.specs.NextTimer.{next_timer_in};
ghost use Rattle.tcap_engine.specs.StateOf.{state_in};
ghost use Rattle.tcap_model.specs.Table.EngineMove.{engine_move};
ghost use Rattle.tcap_model.specs.Words.Event.{Event};
ghost use Rattle.tcap_primitives.specs.RequestViews.{request_view};

use super::Station;
use std::alloc::Allocator;
use tcap_engine::{Request, State};

impl<A: Allocator + Copy> Station<A> {
    /// The clock: the last moment that was accepted, in milliseconds, 0 to 2^62.
    pub fn now(&self) -> u64
        ensures { result ≡ self.now.engine.clock }
    {
        self.engine.now()
    }

    /// The state of the dialogue with this identifier, `None` where none stands (Q.774, Transaction state machine).
    pub fn state_of(&self, dialogue: u32) -> Option<State>
        ensures { result ≡ state_in self.now.engine dialogue }
    {
        self.engine.state_of(dialogue)
    }

    /// The least moment, in milliseconds, at which `advance` tells something, frees an identifier or ends a dialogue;
    /// `None` where none is (our own).
    pub fn next_timer(&self) -> Option<u64>
        ensures { result ≡ next_timer_in self.now.engine }
    {
        self.engine.next_timer()
    }

    /// How many events were accepted, 2^64 - 1 at most: the last of them has this number.
    pub fn events(&self) -> u64
        ensures { result ≡ self.now.events }
    {
        self.events
    }

    /// How many octets a message of the user may have, 1 to 65,535.
    pub fn max_message(&self) -> usize
        ensures { result ≡ self.now.max_message }
    {
        self.max_message
    }

    /// How many octets the message has that this request would send now, `None` where it sends none, since it is one of
    /// component handling, or is refused. Nothing changes (our own).
    pub fn message_length(&self, dialogue: u32, request: &Request<'_>) -> Option<usize>
        ensures { result ≡ sent_length
            (engine_move self.now.engine (Event.on_dialogue dialogue (request_view request.now))).answer }
    {
        self.engine
            .message_length(dialogue, request)
            .unwrap_or(None)
    }

    /// The identifier that the next dialogue gets, and the number that the next invocation gets.
    pub fn next_identifiers(&self) -> (u32, u64)
        ensures dialogue { result.0 ≡ self.now.engine.next_dialogue }
        ensures number { result.1 ≡ self.now.engine.next_number }
    {
        self.engine.next_identifiers()
    }

    /// How many dialogues stand.
    pub fn dialogues(&self) -> usize
        ensures { result ≡ length self.now.engine.dialogues }
    {
        self.engine.dialogues()
    }

    /// For how many outputs `advance` finds room at this moment, in milliseconds: none where it tells nothing, and else
    /// at least as many as it tells (our own).
    pub fn due(&self, now: u64) -> usize
        ensures enough { (length (outputs_in (engine_move self.now.engine (Event.moment now)).answer) ≤ result)
            ⊎ (result ≡ 2 ^ 64 - 1) }
        ensures some { result ≢ 0
            → outputs_in (engine_move self.now.engine (Event.moment now)).answer ≢ [] }
    {
        self.engine.due(now)
    }
}

//! What is seen of an engine, and what is counted in it.

ghost use Rattle.std.specs.Prelude.{◌≡◌, ◌≢◌, ◌≤◌, ◌⊎◌, ◌-◌, ◌^◌, [], length, option_copied};
ghost use Rattle.tcap_engine.specs.Running.{outputs_in};
ghost use Rattle.tcap_engine.specs.StateOf.{state_in, state_in_life};
ghost use Rattle.tcap_model.specs.Histories.Clock.{clock};
ghost use Rattle.tcap_model.specs.Histories.History.{History};
ghost use Rattle.tcap_model.specs.Histories.Life.{life};
ghost use Rattle.tcap_model.specs.Table.EngineMove.{dialogue_in, engine_move};
ghost use Rattle.tcap_model.specs.Table.World.{StandsAt};
ghost use Rattle.tcap_model.specs.Words.Event.{Event};

use super::Engine;
use std::alloc::Allocator;
use tcap_dialogue::{Dialogue, State};
use tcap_invocation::MAX_MOMENT;

impl<A: Allocator + Copy> Engine<A> {
    /// The clock: the last moment that was accepted, in milliseconds, 0 to 2^62.
    pub fn now(&self) -> u64
        ensures value { result ≡ self.now.clock }
        ensures stands { (h : History) → StandsAt h self.now → result ≡ clock h.pairs }
    {
        self.clock
    }

    /// The state of the dialogue with this identifier, `None` where none stands (Q.774, Transaction state
    /// machine).
    pub fn state_of(&self, dialogue: u32) -> Option<State>
        ensures value { result ≡ state_in self.now dialogue }
        // That of its life: none before it is created, and none once it is over.
        ensures stands { (h : History) → StandsAt h self.now → result ≡ state_in_life (life dialogue h.pairs) }
    {
        self.dialogue_at(dialogue).map(Dialogue::state)
    }

    /// The dialogue with this identifier, if it stands.
    pub(super) fn dialogue_at(&self, dialogue: u32) -> Option<&Dialogue<A>>
        ensures { option_copied result ≡ dialogue_in dialogue self.now.dialogues }
    {
        self.table.get(dialogue)
    }

    /// The identifier that the next dialogue gets, and the number that the next invocation gets.
    pub fn next_identifiers(&self) -> (u32, u64)
        ensures dialogue { result.0 ≡ self.now.next_dialogue }
        ensures number { result.1 ≡ self.now.next_number }
    {
        (self.next_dialogue, self.next_number)
    }

    /// How many dialogues stand.
    pub fn dialogues(&self) -> usize
        ensures { result ≡ length self.now.dialogues }
    {
        self.table.len()
    }

    /// For how many outputs `advance` finds room at this moment, in milliseconds: none where it tells nothing, and
    /// else at least as many as it tells. It takes no memory (our own).
    pub fn due(&self, now: u64) -> usize
        ensures enough { (length (outputs_in (engine_move self.now (Event.moment now)).answer) ≤ result)
            ⊎ (result ≡ 2 ^ 64 - 1) }
        ensures some { result ≢ 0 → outputs_in (engine_move self.now (Event.moment now)).answer ≢ [] }
    {
        if now < self.clock || now > MAX_MOMENT {
            return 0;
        }
        self.table.capacity_at(now).told
    }
}

//! Events that are no request on a dialogue: bytes, moments, and dialogues that are created.

ghost use Rattle.std.specs.Prelude.{◌≡◌, ◌≢◌, ◌≤◌, [], IfErr, OnErr, OnOk, length};
ghost use Rattle.tcap_engine.specs.HistoryForm.{StandsReceived};
ghost use Rattle.tcap_engine.specs.Running.{outputs_in};
ghost use Rattle.tcap_engine.specs.StepForm.{EngineReceives, birth_answer, since_answer};
ghost use Rattle.tcap_model.specs.Table.EngineMove.{engine_move};
ghost use Rattle.tcap_model.specs.Words.Event.{Event};
ghost use Rattle.tcap_primitives.specs.FaultViews.{fault_view};
ghost use Rattle.tcap_primitives.specs.SinkViews.{KeepsOutputs};
ghost use Rattle.tcap_station.specs.Marks.{HasPlace, IsOrdered, marks_in};
ghost use Rattle.tcap_station.specs.HistoryForm.{StandsTaken, StandsTold};
ghost use Rattle.tcap_station.specs.StepForm.{IsRefusal, Takes, TakesReceived, outputs_of};

use super::Station;
use crate::line::accepting::{count_event, mark_event};
use crate::line::marks::{Marks, find_place, has_place, make_place};
use ber_core::OutOfMemory;
use std::alloc::Allocator;
use tcap_engine::{Address, Engine, Fault, Outbox};

impl<A: Allocator + Copy> Station<A> {
    /// Bytes were received from an address (Q.774, Transaction sublayer procedures). They are never refused, and
    /// something is always told of them; those above 65,535 are dropped. The only error is that memory was refused.
    pub fn receive(&mut self, from: &Address, message: &[u8]) -> Result<(), OutOfMemory>
        ensures moves { TakesReceived result
            (engine_move self.old.engine (Event.received from.now message.now)) self.old self.new }
        ensures err { OnErr result (self.new ≡ self.old) }
        // Whatever legal history the engine stood at: the reply, and the history that it stands at then.
        ensures stands { StandsTold result (Event.received from.now message.now) self.old self.new }
    {
        self.receive_from(from.octets(), message)
    }

    /// `receive`, from the address of these octets, at most 255: for who has no `Address`.
    #[inline(always)]
    pub fn receive_from(&mut self, from: &[u8], message: &[u8]) -> Result<(), OutOfMemory>
        requires { length from.now ≤ 255 }
        ensures moves { TakesReceived result
            (engine_move self.old.engine (Event.received from.now message.now)) self.old self.new }
        ensures err { OnErr result (self.new ≡ self.old) }
        ensures stands { StandsTold result (Event.received from.now message.now) self.old self.new }
    {
        // Something is always told.
        find_place(&mut self.line.marks)?;
        let before = self.line.back.len();
        let received = receive_held(
            &mut self.engine,
            &mut self.sender,
            from,
            message,
            &mut self.line.back,
        );
        mark_event(
            &mut self.events,
            &mut self.line.marks,
            &self.line.back,
            before,
            received,
        )
    }

    /// The clock is at this moment, in milliseconds, at most 2^62: what is due lapses or ends (Q.774, Invocation
    /// timer; Q.774, Reject timer). A moment below the clock does nothing. Faults: `MomentTooLate`, `OutOfMemory`.
    #[inline(always)]
    pub fn advance(&mut self, now: u64) -> Result<(), Fault>
        ensures moves { let m = engine_move self.old.engine (Event.moment now) in
            Takes (outputs_of m) result m self.old self.new }
        ensures err { OnErr result (self.new ≡ self.old) }
        ensures stands { StandsTold result (Event.moment now) self.old self.new }
    {
        prepare_moment(&self.engine, &mut self.line.marks, now)?;
        let before = self.line.back.len();
        let advanced = self.engine.advance_into(now, &mut self.line.back);
        mark_event(
            &mut self.events,
            &mut self.line.marks,
            &self.line.back,
            before,
            advanced,
        )
    }

    /// A new dialogue, in which nothing has happened: its identifier. Faults: `DialoguesFull`, `DialogueIdsSpent`,
    /// `OutOfMemory` (Q.774, Transaction state machine).
    pub fn new_dialogue(&mut self) -> Result<u32, Fault>
        ensures moves { Takes birth_answer result (engine_move self.old.engine Event.new_dialogue) self.old self.new }
        ensures err { OnErr result (self.new ≡ self.old) }
        ensures stands { StandsTaken birth_answer result Event.new_dialogue self.old self.new }
    {
        let created = self.engine.new_dialogue();
        count_event(&mut self.events, created)
    }
}

/// The engine receives bytes from the address of these octets, which is held in this place.
// An address made for the call would be filled with 255 octets first.
#[inline(always)]
fn receive_held<A: Allocator + Copy>(
    engine: &mut Engine<A>,
    sender: &mut Address,
    from: &[u8],
    message: &[u8],
    outbox: &mut Outbox<A>,
) -> Result<(), OutOfMemory>
    requires { length from.now ≤ 255 }
    ensures moves { EngineReceives (since_answer outbox.old.outputs outbox.new.outputs) result
        (engine_move engine.old (Event.received from.now message.now)) engine.old engine.new }
    ensures kept { KeepsOutputs outbox.old.outputs outbox.new.outputs }
    ensures still { OnErr result (outbox.new.outputs ≡ outbox.old.outputs) }
    ensures stands { StandsReceived (since_answer outbox.old.outputs outbox.new.outputs) result
        (Event.received from.now message.now) engine.old engine.new }
{
    sender.hold(from);
    engine.receive_into(sender, message, outbox)
}

/// Makes a place for a moment at which anything is told.
#[inline(always)]
fn prepare_moment<A: Allocator + Copy>(
    engine: &Engine<A>,
    marks: &mut Marks<A>,
    now: u64,
) -> Result<(), Fault>
    ensures marks { marks_in marks.new ≡ marks_in marks.old }
    ensures ordered { IsOrdered marks.old → IsOrdered marks.new }
    ensures place { let a = (engine_move engine.now (Event.moment now)).answer in
        OnOk result (outputs_in a ≢ [] → HasPlace marks.new) }
    ensures err { let a = (engine_move engine.now (Event.moment now)).answer in
        IfErr result (λ f. IsRefusal (fault_view f) a) }
{
    if !has_place(marks) && engine.due(now) > 0 {
        make_place(marks)?;
    }
    Ok(())
}

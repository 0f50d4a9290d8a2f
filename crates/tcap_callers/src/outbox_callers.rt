//! A caller of an engine that uses one outbox again and again.

ghost use Rattle.std.specs.Prelude.{IfOk};
ghost use Rattle.tcap_engine.specs.HistoryForm.{StandsOn};
ghost use Rattle.tcap_model.specs.Histories.History.{History};
ghost use Rattle.tcap_model.specs.Table.World.{StandsAt};
ghost use Rattle.tcap_model.specs.Words.Answer.{Answer};
ghost use Rattle.tcap_model.specs.Words.Event.{Event};

use ber_core::OutOfMemory;
use std::alloc::Allocator;
use tcap_engine::{Address, Engine, Outbox};

/// Bytes were received from an address: what is sent and told of them, and nothing else, stands in the outbox, whose
/// room is used again. Whatever legal history the engine stood at: unless memory was refused, that is the reply, the
/// engine stands at the history with this event, and the headline holds there.
pub fn hear_again<A: Allocator + Copy>(
    engine: &mut Engine<A>,
    from: &Address,
    bytes: &[u8],
    outbox: &mut Outbox<A>,
) -> Result<(), OutOfMemory>
    ensures { (h : History) → StandsAt h engine.old → IfOk result (λ _. StandsOn h
        (Event.received from.now bytes.now) (Answer.outputs outbox.new.outputs) engine.new) }
{
    outbox.clear();
    engine.receive_into(from, bytes, outbox)
}

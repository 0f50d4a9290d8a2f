//! Two callers of an engine: one that names no history, and one that hands its history on.

ghost use Rattle.std.specs.Prelude.{◌≡◌, ◌≤◌, IfOk};
ghost use Rattle.tcap_engine.specs.StepForm.{outputs_answer};
ghost use Rattle.tcap_engine.specs.HistoryForm.{StandsOn};
ghost use Rattle.tcap_model.specs.Histories.History.{History};
ghost use Rattle.tcap_model.specs.Statements.EngineMoves.{with_pair};
ghost use Rattle.tcap_model.specs.Table.World.{StandsAt};
ghost use Rattle.tcap_model.specs.Words.Event.{Event};

use ber_core::OutOfMemory;
use std::alloc::Allocator;
use tcap_engine::{Address, Engine, Fault, Output};

/// What one call of an engine tells, or why it refuses.
type Told<'m, A, F> = Result<Vec<Output<'m, A>, A>, F>;

/// The clock after a moment was handed in: this moment, where it is not before the clock.
#[tactic(auto, unfolding(tcap_model::specs::Table::EngineMove::engine_move))]
pub fn clock_after<A: Allocator + Copy>(engine: &mut Engine<A>, now: u64) -> Result<u64, Fault>
    ensures seen { IfOk result (λ clock. clock ≡ engine.new.clock) }
    ensures moved { engine.old.clock ≤ now → IfOk result (λ clock. clock ≡ now) }
{
    engine.advance(now)?;
    Ok(engine.now())
}

/// Bytes were received from an address, and then the clock is at this moment: what is sent and told of
/// each. Whatever legal history the engine stood at: where neither is refused, what the moment tells is the
/// reply, the engine stands at the history with both events, and the headline holds there.
pub fn hear_at<'m, A: Allocator + Copy>(
    engine: &mut Engine<A>,
    from: &Address,
    bytes: &'m [u8],
    now: u64,
) -> (Told<'m, A, OutOfMemory>, Told<'m, A, Fault>)
    ensures { (h : History) → StandsAt h engine.old → IfOk result.0 (λ _. IfOk result.1 (λ lapsed. StandsOn
        (with_pair h (Event.received from.now bytes.now)) (Event.moment now) (outputs_answer lapsed) engine.new)) }
{
    let heard = engine.receive(from, bytes);
    let lapsed = engine.advance(now);
    (heard, lapsed)
}

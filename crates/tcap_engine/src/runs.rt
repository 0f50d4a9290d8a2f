//! Events, one after the other.

ghost use Rattle.std.specs.Prelude.{◌≡◌, ◌≤◌, ◌<◌, ◌+◌, ◌∷◌, [], length, slice_get, take, IfSome, OnErr, OnOk};
ghost use Rattle.tcap_engine.specs.EventViews.{answers_view, event_view, events_view};
ghost use Rattle.tcap_engine.specs.HistoryForm.{Headline};
ghost use Rattle.tcap_engine.specs.Running.{MayWant, Runs, RunsInto, StandsThrough, StandsThroughInto, after_events, done};
ghost use Rattle.tcap_model.specs.Histories.History.{History};
ghost use Rattle.tcap_model.specs.Table.EngineMove.{engine_move};
ghost use Rattle.tcap_model.specs.Table.World.{StandsAt};

use crate::engine::Engine;
use crate::event::{Answer, Event};
use ber_core::OutOfMemory;
use std::alloc::Allocator;
use tcap_dialogue::Outbox;

/// Hands the events to the engine, one after the other, and appends their answers: one for each event,
/// whose place is made before the event. At the first event to which memory was refused it ends, with the
/// engine and the answers as they were before that event.
pub fn run<'m, A: Allocator + Copy>(
    engine: &mut Engine<A>,
    events: &[Event<'m>],
    answers: &mut Vec<Answer<'m, A>, A>,
) -> Result<(), OutOfMemory>
    // How many events were done: all of them, or not the one to which memory was refused.
    ensures ok { OnOk result (length answers.new.items ≡ length answers.old.items + length events.now) }
    ensures err { OnErr result (length answers.new.items < length answers.old.items + length events.now) }
    ensures moves { Runs engine.old (done answers.old.items answers.new.items (events_view events.now)) engine.new
        (answers_view answers.old.items) (answers_view answers.new.items) }
    // Whatever legal history the engine stood at: the replies, and the history that it stands at then.
    ensures stands { (h : History) → StandsAt h engine.old
        → StandsThrough h (done answers.old.items answers.new.items (events_view events.now)) engine.new
        (answers_view answers.old.items) (answers_view answers.new.items) }
    // And of every number the headline holds there, whether all events were done or not: its closing
    // indications are those that its decision asks for, with the outcome's contents, at most one, and
    // exactly one after its deadline or the end of its dialogue.
    ensures headline { (h : History) → StandsAt h engine.old
        → Headline (after_events h (done answers.old.items answers.new.items (events_view events.now))) }
{
    run_each(engine, events, answers)
}

/// `run`, event by event.
fn run_each<'m, A: Allocator + Copy>(
    engine: &mut Engine<A>,
    events: &[Event<'m>],
    answers: &mut Vec<Answer<'m, A>, A>,
) -> Result<(), OutOfMemory>
    // How many events were done: all of them, or not the one to which memory was refused.
    ensures ok { OnOk result (length answers.new.items ≡ length answers.old.items + length events.now) }
    ensures err { OnErr result (length answers.new.items < length answers.old.items + length events.now) }
    ensures moves { Runs engine.old (done answers.old.items answers.new.items (events_view events.now)) engine.new
        (answers_view answers.old.items) (answers_view answers.new.items) }
    // Whatever legal history the engine stood at: the replies, and the history that it stands at then.
    ensures stands { (h : History) → StandsAt h engine.old
        → StandsThrough h (done answers.old.items answers.new.items (events_view events.now)) engine.new
        (answers_view answers.old.items) (answers_view answers.new.items) }
{
    for event in events {
        answer_one(engine, event, answers)?;
    }
    Ok(())
}

/// Hands one event to the engine and appends its answer, whose place is made first.
fn answer_one<'m, A: Allocator + Copy>(
    engine: &mut Engine<A>,
    event: &Event<'m>,
    answers: &mut Vec<Answer<'m, A>, A>,
) -> Result<(), OutOfMemory>
    ensures ok { OnOk result (length answers.new.items ≡ length answers.old.items + 1) }
    ensures moves { OnOk result (Runs engine.old (event_view event.now ∷ []) engine.new
        (answers_view answers.old.items) (answers_view answers.new.items)) }
    ensures stands { OnOk result ((h : History) → StandsAt h engine.old → StandsThrough h (event_view event.now
        ∷ []) engine.new (answers_view answers.old.items) (answers_view answers.new.items)) }
    ensures engine { OnErr result (engine.new ≡ engine.old) }
    ensures answers { OnErr result (answers.new.items ≡ answers.old.items) }
{
    answers.reserve(1)?;
    let answer = engine.handle(event)?;
    answers.push_reserved(answer);
    Ok(())
}

/// Hands the events to the engine, one after the other, and appends what it sends and tells to an outbox: how many
/// events were done. They are fewer than all only where memory was refused to the next one, and then the engine and
/// the outbox are as they were before that one. What else is answered is dropped: `handle_into` gives it.
pub fn run_into<A: Allocator + Copy>(
    engine: &mut Engine<A>,
    events: &[Event<'_>],
    outbox: &mut Outbox<A>,
) -> usize
    ensures within { result ≤ length events.now }
    // Where events are left, memory may be refused to the next one: it is no refusal, and something is kept or told.
    ensures memory { IfSome (slice_get (events_view events.now) result)
        (λ event. MayWant event (engine_move engine.new event).answer) }
    ensures moves { RunsInto engine.old (take result (events_view events.now)) engine.new
        outbox.old.outputs outbox.new.outputs }
    // Whatever legal history the engine stood at: what the replies tell, and the history that it stands at then.
    ensures stands { (h : History) → StandsAt h engine.old
        → StandsThroughInto h (take result (events_view events.now)) engine.new
        outbox.old.outputs outbox.new.outputs }
    // And of every number the headline holds there, as `run` says it.
    ensures headline { (h : History) → StandsAt h engine.old
        → Headline (after_events h (take result (events_view events.now))) }
{
    run_each_into(engine, events, outbox)
}

/// `run_into`, event by event.
fn run_each_into<A: Allocator + Copy>(
    engine: &mut Engine<A>,
    events: &[Event<'_>],
    outbox: &mut Outbox<A>,
) -> usize
    ensures within { result ≤ length events.now }
    // Where events are left, memory may be refused to the next one: it is no refusal, and something is kept or told.
    ensures memory { IfSome (slice_get (events_view events.now) result)
        (λ event. MayWant event (engine_move engine.new event).answer) }
    ensures moves { RunsInto engine.old (take result (events_view events.now)) engine.new
        outbox.old.outputs outbox.new.outputs }
    ensures stands { (h : History) → StandsAt h engine.old
        → StandsThroughInto h (take result (events_view events.now)) engine.new
        outbox.old.outputs outbox.new.outputs }
{
    for (done, event) in events.iter().enumerate() {
        if engine.handle_into(event, outbox).is_err() {
            return done;
        }
    }
    events.len()
}

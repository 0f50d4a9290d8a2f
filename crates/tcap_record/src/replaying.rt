//! A log of events handed to an engine.

ghost use Rattle.std.specs.Prelude.{◌≡◌, [], List, IfErr, IfOk, OnOk, OnErr};
ghost use Rattle.tcap_engine.specs.EventViews.{event_view};
ghost use Rattle.tcap_engine.specs.Running.{MayWant, Runs};
ghost use Rattle.tcap_model.specs.Table.EngineMove.{engine_move};
ghost use Rattle.tcap_model.specs.Table.World.{World};
ghost use Rattle.tcap_model.specs.Words.Answer.{Answer};
ghost use Rattle.tcap_model.specs.Words.Event as model;
ghost use Rattle.tcap_record.specs.Records.{AllHaveRecords, log_of};
ghost use Rattle.tcap_record.specs.Replaying.{HandedOn, PlaceFits, Replayed, ReplayedOne, StopsReplay, StopsStep, fault_from};

use crate::fault::{RecordFault, ReplayFault};
use crate::reading::read_first;
use ber_core::OutOfMemory;
use std::alloc::Allocator;
use tcap_engine::{Engine, Event};

/// Why the first record of a log was not replayed.
enum Stop {
    /// Memory was refused to its event.
    OutOfMemory,
    /// The octets stop beginning a record at this place.
    Damaged(usize),
}

impl From<OutOfMemory> for Stop {
    ghost use Rattle.tcap_record.specs.declared.replaying.Stop.TheVariants as stops;

    ghost from_gives = { λ _ stop. stop ≡ stops.OutOfMemory };

    fn from(_refused: OutOfMemory) -> Stop {
        Stop::OutOfMemory
    }
}

impl From<RecordFault> for Stop {
    ghost use Rattle.tcap_record.specs.declared.replaying.Stop.TheVariants as stops;

    ghost from_gives = { λ fault stop. stop ≡ stops.Damaged fault.place };

    fn from(fault: RecordFault) -> Stop {
        Stop::Damaged(fault.place)
    }
}

/// Hands an event to the engine, whose answer is dropped.
fn hand_on<A: Allocator + Copy>(
    engine: &mut Engine<A>,
    event: &Event<'_>,
) -> Result<(), OutOfMemory>
    ensures ok { OnOk result (HandedOn (event_view event.now) engine.old engine.new) }
    ensures err { OnErr result (engine.new ≡ engine.old) }
    ensures memory { OnErr result (MayWant (event_view event.now)
        (engine_move engine.old (event_view event.now)).answer) }
{
    engine.handle(event)?;
    Ok(())
}

/// Replays the first record of a log, and gives what follows it.
fn replay_first<'m, A: Allocator + Copy>(
    engine: &mut Engine<A>,
    log: &'m [u8],
) -> Result<&'m [u8], Stop>
    ensures ok { IfOk result (λ rest. ReplayedOne log.now rest.now engine.old engine.new) }
    ensures err { IfErr result (λ stop. StopsStep stop log.now engine.old engine.new) }
{
    let (recorded, rest) = read_first(log)?;
    hand_on(engine, &recorded.event())?;
    Ok(rest)
}

/// Hands the events of a log to an engine, one after the other, and says how many they are. A log is the
/// records of events one after the other. The answers are dropped: their messages were sent, and their
/// indications were told, when the events were recorded.
///
/// An engine that is what the first engine was before the events were recorded, as a new one with the same
/// limits, is then what the first was after them. Where memory is refused at an event, or octets follow that
/// are no record, it is what it is after the events before.
pub fn replay<A: Allocator + Copy>(engine: &mut Engine<A>, log: &[u8]) -> Result<usize, ReplayFault>
    // The log is the records of events: so many, and the engine is what it is after them.
    ensures ok { IfOk result (λ count. Replayed log.now count [] engine.old engine.new) }
    // It begins with the records of so many events, and the engine is what it is after them; what follows is
    // the record of an event to which memory was refused, or no record, from that place on.
    ensures err { IfErr result (λ fault. StopsReplay fault log.now engine.old engine.new) }
    // Where the events of the log were run by an engine that was then what this one was, this one is then what
    // that one is.
    ensures same { (events : List model.Event) (first after : World) (before answers : List Answer)
        → AllHaveRecords events → log.now ≡ log_of events → Runs first events after before answers
        → engine.old ≡ first → OnOk result (engine.new ≡ after) }
{
    replay_each(engine, log)
}

/// `replay`, record by record.
fn replay_each<A: Allocator + Copy>(
    engine: &mut Engine<A>,
    log: &[u8],
) -> Result<usize, ReplayFault>
    ensures ok { IfOk result (λ count. Replayed log.now count [] engine.old engine.new) }
    ensures err { IfErr result (λ fault. StopsReplay fault log.now engine.old engine.new) }
{
    let total = log.len();
    let mut rest = log;
    let mut done = 0;
    while !rest.is_empty() {
        match replay_first(engine, rest) {
            Ok(after) => rest = after,
            Err(stop) => return Err(fault_of(stop, done, total - rest.len())),
        }
        done += 1;
    }
    Ok(done)
}

/// Why a replay stopped behind so many events, where the octets behind them begin at this place.
fn fault_of(stop: Stop, done: usize, begin: usize) -> ReplayFault
    requires { PlaceFits stop begin }
    ensures { result ≡ fault_from stop done begin }
{
    match stop {
        Stop::OutOfMemory => ReplayFault::OutOfMemory { done },
        Stop::Damaged(offset) => ReplayFault::Damaged {
            done,
            place: begin + offset,
        },
    }
}

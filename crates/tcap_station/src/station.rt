//! The station and what it keeps.

pub(crate) mod component_requests;
pub(crate) mod dialogue_requests;
pub(crate) mod events;
pub(crate) mod getters;
pub(crate) mod reading;

ghost use Rattle.std.specs.Prelude.{◌≡◌, ◌≤◌, []};
ghost use Rattle.tcap_engine.specs.Limits.{AreLimits, empty_history};
ghost use Rattle.tcap_model.specs.Table.World.{StandsAt, first_world};

use crate::line::Line;
use std::alloc::{Allocator, Global};
use std::fmt;
use std::marker::Model;
use tcap_address::Address;
use tcap_engine::{Engine, Limits};

/// An engine, and what it sends and tells, which waits until it is taken (our own).
///
/// - Events: `receive`, for messages; `advance`, for time; the requests of the TC-user, by the names that they have at
///   an engine. What an event sends and tells waits behind what waited, and events are taken while outputs wait.
/// - Taking: `front` is the output that comes next, and `remove_front` takes it away.
/// - Getters: `message_length`, `next_identifiers`, `dialogues`, `due`, `next_timer`, `now`, `state_of`.
///
/// Events that are accepted are counted from 1 on, up to 2^64 - 1, and each output that waits has the number of its
/// event. A refused event isn't counted, and changes nothing.
#[derive(Drop)]
pub struct Station<A: Allocator + Copy = Global> {
    engine: Engine<A>,
    line: Line<A>,
    /// How many events were accepted.
    events: u64,
    /// How many octets a message of the user may have, 1 to 65,535.
    max_message: usize,
    /// The address from which octets came last, in a place of its own: they are copied there, and not into a new one.
    sender: Address,
}

impl<A: Allocator + Copy> Model for Station<A> {
    ghost use Rattle.std.specs.Prelude.{◌≤◌};
    ghost use Rattle.tcap_station.specs.Station.{StationState};

    ghost Value = { StationState };

    ghost use Rattle.tcap_station.specs.Line.{IsInLine, waiting_in};

    ghost view = { λ s. record {
      engine = s.engine;
      waiting = waiting_in s.line;
      events = s.events;
      max_message = s.max_message;
    } };

    ghost invariant = { λ s. IsInLine s.line };
}

impl<A: Allocator + Copy> Station<A> {
    /// A station at which nothing waits, with an engine as `Engine::resume` makes it: with clock 0 and no dialogues,
    /// whose first dialogue and first invocation have this identifier and this number. A request whose message has
    /// more than `max_message` octets, 1 to 65,535, is refused. It takes no memory.
    pub fn resume(
        alloc: A,
        limits: Limits,
        max_message: usize,
        first_dialogue: u32,
        first_number: u64,
    ) -> Station<A>
        requires limits { AreLimits limits }
        requires message { (1 ≤ max_message) × (max_message ≤ 65535) }
        ensures value { result ≡ record {
          engine = first_world (empty_history limits first_dialogue first_number).start;
          waiting = [];
          events = 0;
          max_message = max_message;
        } }
        // Nothing has happened.
        ensures stands { StandsAt (empty_history limits first_dialogue first_number) result.engine }
    {
        Station {
            engine: Engine::resume(alloc, limits, first_dialogue, first_number),
            line: Line::new(alloc),
            events: 0,
            max_message,
            sender: Address::empty(),
        }
    }
}

// By hand, since the address from which octets came last says nothing of what the station is.
impl<A: Allocator + Copy + fmt::Debug> fmt::Debug for Station<A> {
    fn fmt<W: fmt::Write>(&self, f: &mut fmt::Formatter<W>) -> fmt::Result {
        f.debug_struct("Station")
            .field("engine", &self.engine)
            .field("line", &self.line)
            .field("events", &self.events)
            .field("max_message", &self.max_message)
            .finish()
    }
}

//! What memory and input do that are no friends.

mod addresses;
mod alternatives;
mod answers;
mod codec;
mod compared;
mod damage;
mod dialogue;
mod drawn;
mod engine;
mod examples;
mod growths;
mod invocations;
mod kept;
mod outbox;
mod played;
mod refused_begin;
mod room;
mod runs;
mod shapes;
mod sinks;
mod spares;
mod subject;
mod vectors;
mod waiting;
mod words;

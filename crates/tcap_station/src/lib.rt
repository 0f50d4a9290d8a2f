//! A station: an engine, and what it sends and tells, which waits until it is taken, one output at a time.
//!
//! Stands on `tcap_engine` and the crates below it. Begin at `Station`; what waits stands in two outboxes, of which
//! one is read while the other is filled (src/line.rt).
#![tactic(auto)]

pub mod laws;
mod line;
mod station;
mod waiting;

pub use station::Station;
pub use waiting::{Answering, Waiting};

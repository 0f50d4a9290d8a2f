//! What no clause of the three crates says, run.

mod growths;
mod queues;
mod tables;

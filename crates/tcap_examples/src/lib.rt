//! Worked examples of the model: dialogues, whole histories, nets of two engines, and answers that are
//! wrong. Each is a function that does nothing, whose clauses state the example whole and are proved by
//! computing it.
//!
//! Stands on `tcap_model` and the crates below it. Begin at `histories`. The expected values are the standard's or
//! were worked out by hand before the model was written; none is the model's own output.
#![tactic(auto)]

pub mod dialogue;
pub mod histories;
pub mod statements;

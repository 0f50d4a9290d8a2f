//! What one dialogue answers: the events, with received messages by their octets, and every answer, with
//! sent messages by theirs.

pub mod aborts;
pub mod components;
pub mod dialogues;
pub mod faults;
pub mod identifiers;
pub mod receptions;
pub mod refusals;

//! The statements over histories, each on a worked history: its premises and its conclusion; and lists
//! that break them.

pub mod components;
pub mod grammar;
pub mod headline;
pub mod idle;
pub mod isolation;
pub mod sending;
pub mod three_engines;
pub mod two_ends;
pub mod wrong_nets;

//! A table of values under rising identifiers, with a time beside each, the least of them first.
//!
//! Stands on `timer_queue` for the times, on `slab` for the values and on `indexmap` for the identifiers.
//! Begin at `Table`.
#![tactic(auto)]

mod due;
mod insertion;
mod keys;
mod table;

pub use due::DueRows;
pub use table::Table;

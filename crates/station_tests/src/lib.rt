//! Tests of the memory of a station, of which no clause speaks.
//!
//! Stands on `tcap_station` and `refusing`. There is nothing in it but tests.
#![tactic(auto)]

#[cfg(test)]
mod tests;

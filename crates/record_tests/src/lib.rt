//! The tests of `tcap_record`: the record of an event of each kind, octets that are none, and replays.
//!
//! Stands on `tcap_record` and `tcap_engine`. It has no function but the tests.
#![tactic(auto)]

#[cfg(test)]
mod tests;

//! The tests of an engine that is spoken to by lines, and of its command.
//!
//! Stands on `tcap_living` and `tcap_live_cmd`, and on `refusing`. There is nothing in it but tests.
#![tactic(auto)]

#[cfg(test)]
mod tests;

//! The tests of `tcap_judging`: devices that fail, growths that are refused, long lines, and the words of the command.
//!
//! Stands on `tcap_judging` and `refusing`. It has no function but the tests.
#![tactic(auto)]

#[cfg(test)]
mod tests;

//! The tests of `tcap_explain`: tables of faulty messages, with the place of each fault and what was expected
//! there.
//!
//! Stands on `tcap_explain` and `tcap_words`. It has no function but the tests.
#![tactic(auto)]

#[cfg(test)]
mod tests;

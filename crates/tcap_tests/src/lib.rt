//! The tests of the command `tcap` and of the worked callers.
//!
//! Stands on `tcap_cmd`, `tcap_callers`, `tcap_engine` and all below them, on `hex`, and on `refusing`. There is
//! nothing in it but tests.
#![tactic(auto)]

#[cfg(test)]
mod tests;

//! Hostile use, run: each growth of each worked example refused in turn, and damaged messages.
//!
//! Stands on `tcap_engine`, `tcap_text` and all below them, on `hex` and on `refusing`. There is nothing here
//! but tests; begin at `played` (src/tests/played.rt), which plays an example.
#![tactic(auto)]

#[cfg(test)]
mod tests;

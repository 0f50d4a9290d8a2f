//! The tests of the allocator that refuses, of timers and of tables: of `refusing`, `timer_queue` and `timed_table`.
//!
//! Stands on these three. There is nothing in it but tests.
#![tactic(auto)]

#[cfg(test)]
mod tests;

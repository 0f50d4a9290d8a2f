//! An allocator for tests that refuses exactly one growth, the Nth from now, and passes on every other call.
//!
//! Stands on no other crate of this repository. Begin at `Refusing::new`.
#![tactic(auto)]

mod allocator;

pub use allocator::Refusing;

//! Where messages come from and go to.
//!
//! Stands on no other crate. Begin at `Address`.
#![tactic(auto)]

mod address;
pub mod laws;

pub use address::Address;

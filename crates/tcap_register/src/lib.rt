//! A register: it answers the operations that others invoke, and invokes none itself.
//!
//! Stands on `tcap_engine` and all below it. Begin at `Register`; what it does with an operation is its user's,
//! by the trait `Operations`.
#![tactic(auto)]

mod answering;
mod invoke;
mod operations;
mod register;

pub use operations::{Operations, Reply};
pub use register::{Register, Served};

//! Worked callers of the library: each proves what it says by what the clauses of the calls say.
//!
//! Stands on `tcap_engine` and all below it. Begin at `first_operation`.
#![tactic(auto)]

mod engine_callers;
mod operation;
mod outbox_callers;
mod two_engines;

pub use engine_callers::{clock_after, hear_at};
pub use operation::{first_operation, local_number};
pub use outbox_callers::hear_again;
pub use two_engines::operate;

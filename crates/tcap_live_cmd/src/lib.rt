//! The command `tcap_live`: its options, what it prints, and its status.
//!
//! Stands on `tcap_living`, which answers the lines, and on `clap`. Begin at `run_command`.
#![tactic(auto)]

mod command;
mod refusal;
mod request;
mod texts;
mod words;

pub use command::{report, run_command};
pub use refusal::Refusal;
pub use request::{Request, Settings};

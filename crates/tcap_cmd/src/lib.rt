//! The command `tcap`: its words, what it prints, and its status.
//!
//! Stands on `tcap_text` and `tcap_play`, which have the texts, and on `clap`. Begin at `run_command`.
#![tactic(auto)]

mod command;
pub mod laws;
mod refusal;
mod request;
mod words;

pub use command::{answer, report, run_command};
pub use refusal::Refusal;
pub use request::Request;
pub use tcap_play::{PlayFault, play_text, run_play, run_stream};
pub use tcap_text::{Shown, canon_text, check_text, show_text};

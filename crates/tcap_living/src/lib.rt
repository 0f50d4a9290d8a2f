//! An engine that is spoken to by lines: each is a request, received octets, a moment or a question, and is
//! answered as it comes.
//!
//! Stands on `tcap_engine` and all below it, on `tcap_play` for the words of lines and answers, on
//! `tcap_lines` for what is wrong with a line, on `object_identifiers` for dotted contexts, and on `tcap_text` and
//! `tcap_words` for texts. Begin at `run_live`.
#![tactic(auto)]

mod answer_text;
mod answers;
mod by_words;
mod context;
mod format;
mod json_output;
mod json_text;
mod json_values;
pub mod laws;
mod line;
mod output_text;
mod requests;
mod run;
mod session;
mod table;

pub use format::Format;
pub use run::run_live;
pub use tcap_engine::Limits;
pub use tcap_text::PlayFault;

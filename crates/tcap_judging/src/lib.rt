//! Verdicts on the messages of a list or of a stream, each with the place of its fault and what was expected there:
//! what the program `tcap_judge` prints, and its status.
//!
//! Stands on `tcap_explain`, which has the places, on `tcap_words`, which has the verdicts, on `tcap_pdu`,
//! `tcap_component` and `object_identifiers`, by which it reads what a message names, and on `clap`, `hex`, `itoa` and
//! `thiserror`. Begin at `judge_lines` and `judge_stream`; what is printed stands in specs/EntryText.antt.
#![tactic(auto)]

mod bad_line;
mod by_element;
mod code_text;
mod command;
mod cut;
mod fault;
mod form;
mod front;
mod help_text;
mod json_names;
mod json_text;
mod judged;
mod judging;
mod label;
mod line_parts;
mod line_run;
mod line_text;
mod marked_text;
mod message_items;
mod message_names;
mod message_text;
mod name_line;
mod name_list;
mod naming;
mod passed_text;
mod place;
mod refusal;
mod request;
mod resync;
mod resync_run;
mod search;
mod stream_cut;
mod stream_run;
mod under_way;
mod words;

pub use bad_line::BadLine;
pub use command::{report, run_judge};
pub use fault::JudgingFault;
pub use form::{Form, Layout};
pub use line_run::judge_lines;
pub use message_names::names_text;
pub use name_list::{NameKind, Named, NamesFault, name_for, read_names};
pub use naming::Naming;
pub use refusal::Refusal;
pub use request::Request;
pub use resync_run::judge_resynced;
pub use stream_run::judge_stream;
pub use words::names_file;

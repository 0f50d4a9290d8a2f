//! The program `tcap_story` but for its `main`: its words, the inputs that they name, the report on the stories in
//! them, and its status.
//!
//! Stands on `tcap_stories`, which tells a story, on `tcap_play` and `tcap_text` for its text, and on `itoa`. Begin at
//! `run_stories`; what it writes stands in specs/Stories.antt and Report.antt.
#![tactic(auto)]

mod command;
mod input;
mod refusal;
mod report_text;
mod sources;
mod stories;
mod tally;
mod texts;
mod unread;
mod verdict;
mod words;

pub use command::{report, run_stories};
pub use refusal::Refusal;
pub use report_text::Report;
pub use sources::Sources;
pub use unread::Unread;
pub use verdict::Verdict;
pub use words::{Request, read_words};

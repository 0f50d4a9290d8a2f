//! Stories: scripts of a play that say what they expect.
//!
//! Stands on `tcap_play`, which plays the lines, on `tcap_lines`, which tells what is wrong with one, and on
//! `tcap_text` for what is shown. Begin at `story_text`.
#![tactic(auto)]

mod bad_line;
mod comparing;
mod expected_text;
pub mod laws;
mod outputs;
mod story;
mod story_line;
mod table;
mod text;

pub use story::story_text;
pub use table::story_table;

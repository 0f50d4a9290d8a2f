//! Play: two engines, and the messages between them. Streams are judged by `tcap_text`, whose calls are
//! handed on.
//!
//! Stands on `tcap_engine` and all below it, on `tcap_words` and `tcap_text` for the words of its texts, and
//! on `hex` and `itoa`. Begin at `play_text`.
#![tactic(auto)]

mod by_line;
mod by_words;
pub mod examples;
pub mod laws;
mod message;
mod numbers;
mod opening;
pub mod output_text;
pub mod pieces;
mod play;
pub mod script;
mod side;
mod station;

pub use by_line::Engines;
pub use numbers::{number, signed};
pub use opening::{Opening, opening_of};
pub use pieces::{first_piece, is_skipped};
pub use play::{play_text, run_play};
pub use tcap_text::{PlayFault, run_stream};

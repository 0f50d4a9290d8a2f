//! What the command `tcap` prints of a message and of a stream of messages, and whether its verdict is good;
//! the script that it reads, the status of a verdict, why a run came to none, and what becomes of a message
//! of a play.
//!
//! Stands on `tcap_words`, which has the words of its texts, and on the codec, `hex` and `thiserror`. Begin at
//! `show_text` and `run_stream`.
#![tactic(auto)]

mod canon;
mod fate;
mod fault;
mod input;
pub mod laws;
mod show;
mod status;
mod stream;
mod stream_text;

pub use canon::canon_text;
pub use fate::Fate;
pub use fault::PlayFault;
pub use input::read_script;
pub use show::{check_text, show_text};
pub use status::verdict_status;
pub use stream::run_stream;
pub use tcap_words::{
    Shown, WriteFailed, add_body, add_coded, add_decimal, add_hex, add_identifier,
    add_octets_or_dash, add_optional_octets, add_pdu, add_problem, add_signed, body_text,
    coded_text, decode_hex, hex_octets, identifier_text, is_hex, octets_or_dash,
    optional_octets_or_dash, pdu_text, problem_text, write_text,
};

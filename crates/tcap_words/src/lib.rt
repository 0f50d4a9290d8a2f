//! The words of which the command's texts are made: of the parts of a message, of its verdict, and of its
//! canonical form; octets read from hexadecimal and text written.
//!
//! Stands on `ber_core`, `tcap_pdu`, `tcap_component`, `hex` and `itoa`. Begin at `verdict_on`.
#![tactic(auto)]

mod component_text;
mod dialogue_text;
mod hexadecimal;
mod judge;
pub mod laws;
mod portions;
mod rewrite;
mod shown;
mod spelling;
mod text;
mod verdict;
mod writing;

pub use component_text::{
    add_body, add_coded, add_identifier, add_problem, body_text, coded_text, identifier_text,
    problem_text,
};
pub use dialogue_text::{add_pdu, pdu_text};
pub use hexadecimal::add_hex;
pub use judge::{
    add_verdict, has_good_reason, judge_message, read_message, verdict_line, verdict_on,
    verdict_text,
};
pub use portions::{add_destination, add_dialogue, add_origin, add_portions};
pub use rewrite::{CanonFault, assemble, rewrite_components, rewrite_portion, spell_frame};
pub use shown::Shown;
pub use spelling::{decode_hex, hex_octets, is_hex};
pub use text::{
    add_decimal, add_line, add_number, add_octets_or_dash, add_optional_octets, add_signed,
    octets_or_dash, optional_octets_or_dash,
};
pub use verdict::Verdict;
pub use writing::{WriteFailed, write_text};

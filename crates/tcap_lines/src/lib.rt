//! What is wrong with a line of words: the first word that isn't what a table of forms says, and what was
//! expected there.
//!
//! Stands on `tcap_play`, which has the lines, words and numbers of a script, on `tcap_words` for hexadecimal and
//! text, and on `object_identifiers`. Begin at `line_fault`.
#![tactic(auto)]

mod expected;
mod fault;
mod fault_names;
mod fault_text;
mod fits;
pub mod laws;
mod misfit;
mod reading;
mod table;

pub use expected::Expected;
pub use fault::{LineFault, WordFault};
pub use fault_names::fault_name;
pub use fault_text::{add_expected, add_line_fault};
pub use reading::line_fault;
pub use table::{Form, Table};

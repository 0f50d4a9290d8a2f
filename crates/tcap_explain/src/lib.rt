//! Where the fault of a message is, and what was expected there: the place of an octet, and the line of the
//! tables of Q.773 that wasn't met.
//!
//! Stands on `tcap_words` for the verdict, and on the codec. Begin at `explain`; what the place of a fault is
//! stands in specs/FaultAt.antt, the tables in specs/Table.antt. `explain` takes no memory.
#![tactic(auto)]

mod by_message;
mod by_verdict;
mod component_tag;
mod contents;
mod cut_element;
mod encoding;
mod fault_text;
pub mod laws;
mod line;
mod table;
mod walk;
mod way;
mod words;

pub use by_message::explain_message;
pub use by_verdict::{explain, explain_verdict};
pub use contents::Contents;
pub use fault_text::{add_explained, add_found, add_wanted, explain_text};
pub use line::{ComponentLine, Explained, Line, ListLine, MessageLine, PduLine, PortionLine, Rule};

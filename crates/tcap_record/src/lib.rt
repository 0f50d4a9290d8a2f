//! Events of an engine as octets and back: one string of octets for each, its record.
//!
//! Stands on `tcap_engine` and the crates below it. Begin at `write` and `read_first`; the layout stands in
//! specs/Records.antt and, as a table, in docs/FORMATS.md.
#![tactic(auto)]

mod fault;
mod kept;
mod kind;
pub mod laws;
mod reading;
mod recorded;
mod replaying;
mod writing;

pub use fault::{RecordFault, ReplayFault, WriteFault};
pub use reading::{read, read_first};
pub use recorded::Recorded;
pub use replaying::replay;
pub use writing::{record_len, write};

//! Outputs as an outbox keeps them: records, which name parts of its octets, and how a part is read.

pub use crate::outbox::kept_output::KeptOutput;
pub use crate::outbox::output_ref::{abort_of, body_of, code_of, optional_part, part};
pub use crate::outbox::records::{BodyRecord, CodeRecord, PduRecord, PortionRecord, Record, Span};

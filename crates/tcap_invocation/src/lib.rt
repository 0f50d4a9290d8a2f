//! The class machines of one dialogue (Q.771, Q.774): which invoke identifiers are in use, how far each
//! invocation is, what a received result, error or Reject means for it, and when it lapses.
//!
//! Stands on `ber_core`, `tcap_component` and `indexmap`. Begin at `Invocations`; which answer each
//! operation class has stands in specs/Class.antt, what a call does to the list in the other files of
//! specs/. Only `add`, `add_free`, `lapse` and `close_all` take memory.
#![tactic(auto)]

mod class;
mod fault;
mod invocations;
mod stage;

pub use class::Class;
pub use fault::AddFault;
pub use invocations::Invocations;
pub use invocations::answers::Verdict;
pub use invocations::lapse::{Expiry, Lapse};
pub use stage::{MAX_MOMENT, Stage};

//! How far a dialogue is, and what the dialogue portion of a received message comes to by that.
//!
//! Stands on `ber_core`, `tcap_pdu`, `tcap_component`, `tcap_primitives` and the definitions of `tcap_model`. Begin at
//! `State`, which has the state diagram.
#![tactic(auto)]

mod portion;
mod state;

pub use portion::{AarqParts, BeginVerdict, PortionVerdict, judge_begin, judge_portion, judge_uni};
pub use state::{After, Phase, State};

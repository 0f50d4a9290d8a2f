//! The engine for C: calls that take a handle to a station.
//!
//! Stands on `tcap_station`, `tcap_text`, `object_identifiers` and the crates below them; c/tcap.c stands over it.
//! Begin at `tcap_c_open`, which makes a handle. src/handle.rt has the handle and its station, src/telling.rt how C is
//! told an output.
#![tactic(auto)]

mod arguments;
mod box_parts;
mod codec;
mod component_requests;
mod dialogue_requests;
mod events;
mod getters;
mod handle;
pub mod laws;
mod laying;
mod numbering;
mod opening;
mod output_facts;
mod output_kind;
mod output_numbers;
mod reading;
mod room;
mod status;
mod telling;
mod told_ranges;

pub use codec::{
    tcap_c_canon, tcap_c_check, tcap_c_front, tcap_c_oid_of_text, tcap_c_show, tcap_c_text_of_oid,
};
pub use component_requests::{
    tcap_c_invoke, tcap_c_new_dialogue, tcap_c_result_l, tcap_c_result_nl, tcap_c_u_cancel,
    tcap_c_u_error, tcap_c_u_reject,
};
pub use dialogue_requests::{
    tcap_c_begin, tcap_c_continue, tcap_c_end, tcap_c_u_abort, tcap_c_uni,
};
pub use events::{tcap_c_advance, tcap_c_receive};
pub use getters::{
    tcap_c_dialogues, tcap_c_due, tcap_c_next_identifiers, tcap_c_next_timer, tcap_c_state_of,
};
pub use handle::Handle;
pub use opening::{tcap_c_close, tcap_c_open};
pub use output_numbers::{OutputNumbers, PartLengths};
pub use reading::tcap_c_next;

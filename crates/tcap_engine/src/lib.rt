//! The engine (Q.771, Q.774): the dialogues that stand, the counters that name them and their
//! invocations, and the clock.
//!
//! Stands on the codec crates, `tcap_invocation`, `tcap_primitives`, `tcap_reception`, `tcap_dialogue`,
//! `timed_table`, the definitions of `tcap_model` and the laws of `tcap_laws`. Begin at `Engine`; each call does
//! what `engine_move` says (tcap_model/specs/Table/EngineMove.antt) and what every history says
//! (specs/HistoryForm.antt).
#![tactic(auto)]

mod dialogues;
mod engine;
mod event;
pub mod laws;
mod limits;
mod runs;

pub use engine::Engine;
pub use event::{Answer, Answered, Event};
pub use limits::Limits;
pub use runs::{run, run_into};
pub use tcap_dialogue::{
    AbortRequest, AbortWhy, Address, Asked, BeginRequest, By, CancelRequest, ContinueRequest,
    DropWhy, EndRequest, Ending, ErrorRequest, Fault, Indication, InvokeRequest, Outbox,
    OutboxIter, Output, OutputRef, RejectRequest, Request, ResultRequest, State, UniRequest, Why,
};

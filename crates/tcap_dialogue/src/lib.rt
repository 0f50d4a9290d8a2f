//! One dialogue (Q.771, Q.774): its state, its queue of components and its invocations; what it answers
//! to each request, to each message and to time.
//!
//! Stands on `ber_core`, `tcap_pdu`, `tcap_component`, `tcap_invocation`, `tcap_address`, `tcap_primitives`,
//! `tcap_reception` and the definitions of `tcap_model`. Begin at `Dialogue`; each call does what `table_move`
//! says (tcap_model/specs/Table/TableMove.antt), and what a contract sees of a value stands in specs/.
#![tactic(auto)]

mod component_handling;
mod dialogue;

pub use dialogue::begin_memory::BeginMemory;
pub use dialogue::requests::{Accepted, Asked};
pub use dialogue::spares::Spares;
pub use dialogue::timers::Timer;
pub use dialogue::unstructured::{take_uni, take_uni_into};
pub use dialogue::{Dialogue, Step};
pub use tcap_address::Address;
pub use tcap_primitives::{
    Abort, AbortRequest, AbortWhy, BeginRequest, By, CancelRequest, Cause, ContinueRequest,
    DropWhy, EndRequest, Ending, ErrorRequest, Fault, Indication, InvokeRequest, Outbox,
    OutboxIter, Output, OutputRef, RejectRequest, Request, ResultRequest, Sink, SinkKind,
    UniRequest, Why, write_abort,
};
pub use tcap_reception::{After, BeginVerdict, PortionVerdict, State, judge_begin, judge_uni};

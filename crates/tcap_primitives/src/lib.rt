//! The primitives between a user and one dialogue (Q.771), and what goes out with them: requests and their
//! faults, what is sent and told, the components that wait in the queue, and the messages that carry them.
//!
//! Stands on `ber_core`, `tcap_pdu`, `tcap_component`, `tcap_invocation`, `tcap_address` and the definitions of
//! `tcap_model`. Begin at `Request` and `Output`; what a contract sees of a value stands in specs/.
#![tactic(auto)]

mod context;
mod fault;
mod indication;
pub mod kept;
mod outbox;
mod output;
mod provider_abort;
mod queue;
pub mod ranges;
mod request;
mod sending;
mod sink;

pub use context::Context;
pub use fault::Fault;
pub use indication::Indication;
pub use outbox::{Outbox, OutboxIter, OutputRef};
pub use output::{By, DropWhy, Output, Why};
pub use provider_abort::{Abort, Cause, write_abort};
pub use queue::{Invoking, MAX_QUEUE, Part, Queue};
pub use request::{
    AbortRequest, AbortWhy, BeginRequest, CancelRequest, ContinueRequest, EndRequest, Ending,
    ErrorRequest, InvokeRequest, RejectRequest, Request, ResultRequest, UniRequest,
};
pub use sending::outgoing::Outgoing;
pub use sending::portions::{abort_pdu, answering_pdu, begin_pdu, refusing_pdu, uni_pdu};
pub use sending::{MessageParts, Sending};
// The name that it had before: who names it so has nothing to change.
pub use sending::MessageParts as Bearer;
pub use sink::{Sink, SinkKind, ToOutbox, ToVector};

//! What comes to an engine, and what it answers.

ghost use Rattle.std.specs.Prelude.{◌≡◌};
ghost use Rattle.tcap_engine.specs.EventViews.{event_view};
ghost use Rattle.tcap_model.specs.Words.Event as model;
ghost use Rattle.tcap_primitives.specs.RequestViews.{request_view};

use std::alloc::{Allocator, Global};
use tcap_dialogue::{
    AbortRequest, Address, BeginRequest, CancelRequest, ContinueRequest, EndRequest, ErrorRequest,
    Fault, InvokeRequest, Output, RejectRequest, Request, ResultRequest, UniRequest,
};

/// What comes to an engine: a request of the TC-user, a message, or time (own). A request on a dialogue names
/// this by its identifier.
#[derive(Clone, Copy, Debug, PartialEq, Eq)]
pub enum Event<'m> {
    /// A new dialogue is asked for.
    NewDialogue,
    /// TC-INVOKE request on the dialogue with this identifier.
    Invoke(u32, InvokeRequest<'m>),
    /// TC-RESULT-L request on the dialogue with this identifier.
    ResultLast(u32, ResultRequest<'m>),
    /// TC-RESULT-NL request on the dialogue with this identifier.
    ResultMore(u32, ResultRequest<'m>),
    /// TC-U-ERROR request on the dialogue with this identifier.
    ErrorBack(u32, ErrorRequest<'m>),
    /// TC-U-REJECT request on the dialogue with this identifier.
    Reject(u32, RejectRequest),
    /// TC-U-CANCEL request on the dialogue with this identifier.
    Cancel(u32, CancelRequest),
    /// TC-UNI request on the dialogue with this identifier.
    Uni(u32, UniRequest<'m>),
    /// TC-BEGIN request on the dialogue with this identifier.
    Begin(u32, BeginRequest<'m>),
    /// TC-CONTINUE request on the dialogue with this identifier.
    Continue(u32, ContinueRequest<'m>),
    /// TC-END request on the dialogue with this identifier.
    End(u32, EndRequest<'m>),
    /// TC-U-ABORT request on the dialogue with this identifier.
    Abort(u32, AbortRequest<'m>),
    /// From this address these bytes were received.
    Bytes(&'m Address, &'m [u8]),
    /// The clock is at this moment, in milliseconds, at most 2^62.
    Moment(u64),
}

impl<'m> Event<'m> {
    /// This request on the dialogue with this identifier.
    pub fn of(dialogue: u32, request: Request<'m>) -> Event<'m>
        ensures { event_view result ≡ model.Event.on_dialogue dialogue (request_view request.entry) }
    {
        match request {
            Request::Invoke(invoke) => Event::Invoke(dialogue, invoke),
            Request::ResultLast(result) => Event::ResultLast(dialogue, result),
            Request::ResultMore(result) => Event::ResultMore(dialogue, result),
            Request::ErrorBack(error) => Event::ErrorBack(dialogue, error),
            Request::Reject(reject) => Event::Reject(dialogue, reject),
            Request::Cancel(cancel) => Event::Cancel(dialogue, cancel),
            Request::Uni(uni) => Event::Uni(dialogue, uni),
            Request::Begin(begin) => Event::Begin(dialogue, begin),
            Request::Continue(go_on) => Event::Continue(dialogue, go_on),
            Request::End(end) => Event::End(dialogue, end),
            Request::Abort(abort) => Event::Abort(dialogue, abort),
        }
    }
}

/// What the engine answers to an event (own).
#[derive(Debug, Drop, PartialEq, Eq)]
pub enum Answer<'m, A: Allocator = Global> {
    /// The identifier of a new dialogue.
    NewDialogue(u32),
    /// The number of a new invocation.
    Number(u64),
    /// A component was queued.
    Done,
    /// The invocation with this number was given up.
    GivenUp(u64),
    /// What is sent and told, in this order.
    Outputs(Vec<Output<'m, A>, A>),
    /// The request was refused for this cause, which is never `OutOfMemory`.
    Refused(Fault),
}

/// What the engine answers to an event whose outputs are appended to an outbox (own).
#[derive(Clone, Copy, Debug, PartialEq, Eq)]
pub enum Answered {
    /// The identifier of a new dialogue.
    NewDialogue(u32),
    /// The number of a new invocation.
    Number(u64),
    /// A component was queued.
    Done,
    /// The invocation with this number was given up.
    GivenUp(u64),
    /// What is sent and told was appended, in this order.
    Outputs,
    /// The request was refused for this cause, which is never `OutOfMemory`.
    Refused(Fault),
}

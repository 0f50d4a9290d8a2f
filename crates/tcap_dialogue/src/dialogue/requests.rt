//! The requests of the TC-user on a dialogue (Q.771): any of them by `ask`, and each by its own call.

// Hints to inline, here and in requests/: what only hands on is copied to its caller, where the kind of request is
// known and the matches on it fold away, 190 to 350 instructions a step. What does a request stands once: copied to
// each call that takes any it would fill the cache of instructions. The five that most steps make stand once more: the
// toolchain counts all kinds of request before those that don't come fold away, so one alone is small enough to be
// inlined into the engine's call of its name (`invoke_with`, `result_last_with`, `begin_with`, `go_on_with`,
// `finish_with`), which takes 80 instructions off steps 1 and 3 and off a lapse; by an outbox a Begin takes 40 less
// besides, and an End 50. `ask_into` goes by their calls that end in `_apart`: all of them would be copied with it.
// A message with a dialogue PDU and a prearranged end are rarer, and stand apart: so the rest of a request is small
// enough for the toolchain to inline what writes it, 110 to 210 instructions a step.

pub(crate) mod aborting;
pub(crate) mod closing;
pub(crate) mod continuing;
pub(crate) mod invoke;
pub(crate) mod opening;
pub(crate) mod results;
pub(crate) mod sending;
pub(crate) mod unidirectional;

ghost use Rattle.std.specs.Prelude.{◌≡◌, ◌≤◌, List};
ghost use Rattle.tcap_dialogue.specs.AskViews.{Asks, AsksInto, IsNumbered, accepted_outcome, asked_view};
ghost use Rattle.tcap_dialogue.specs.RequestForm.{Answers, StepsInto, numbered, queued_done, gave_up};
ghost use Rattle.tcap_model.specs.Words.Output as told;
ghost use Rattle.tcap_primitives.specs.OutputViews.{all_shown};
ghost use Rattle.tcap_primitives.specs.RequestViews.{request_view};
ghost use Rattle.tcap_dialogue.specs.StepViews.{Outcome, outcome, asked};
ghost use Rattle.tcap_invocation.specs.Stage.{moment_limit};
ghost use Rattle.tcap_model.specs.Table.Dialogue as model;
ghost use Rattle.tcap_model.specs.Table.TableMove.{DialogueEvent, table_move};

use super::spares::Spares;
use super::{Dialogue, Step};
use std::alloc::{Allocator, Global};
use tcap_primitives::{Fault, Output, Request, Sink, SinkKind};
use tcap_reception::After;

/// What is answered to a request.
#[derive(Debug, Drop, PartialEq, Eq)]
pub enum Asked<'m, A: Allocator = Global> {
    /// TC-INVOKE: the number of the invocation.
    Number(u64),
    /// A component was queued.
    Done,
    /// TC-U-CANCEL: the number of the invocation that was given up.
    GivenUp(u64),
    /// A request of dialogue handling: what is sent and told.
    Step(Step<'m, A>),
}

/// What is answered to a request whose outputs go elsewhere.
#[derive(Clone, Copy, Debug, PartialEq, Eq)]
pub enum Accepted {
    /// TC-INVOKE: the number of the invocation.
    Number(u64),
    /// A component was queued.
    Done,
    /// TC-U-CANCEL: the number of the invocation that was given up.
    GivenUp(u64),
    /// A request of dialogue handling: whether the dialogue is over.
    Step(bool),
}

impl Accepted {
    /// What `ask` answers, with what is sent and told.
    #[inline(always)]
    pub fn asked<'m, A: Allocator + Copy>(self, outputs: Vec<Output<'m, A>, A>) -> Asked<'m, A>
        ensures { (d : model.Dialogue)
            → asked_view result d ≡ accepted_outcome (all_shown outputs.entry.items) self d }
    {
        match self {
            Accepted::Number(number) => Asked::Number(number),
            Accepted::Done => Asked::Done,
            Accepted::GivenUp(number) => Asked::GivenUp(number),
            Accepted::Step(over) => Asked::Step(Step { outputs, over }),
        }
    }
}

impl<A: Allocator + Copy> Dialogue<A> {
    /// Any request, at this moment of the caller's clock, in milliseconds, at most 2^62. `number` is what
    /// an Invoke gets.
    #[inline(always)]
    pub fn ask<'m>(
        &mut self,
        clock: u64,
        number: u64,
        request: &Request<'_>,
    ) -> Result<Asked<'m, A>, Fault>
        requires clock { clock ≤ moment_limit }
        requires number { IsNumbered number self.old.invocations.rows (request_view request.now) }
        ensures answer { Asks result (outcome (table_move (asked clock number) self.old
            (DialogueEvent.request (request_view request.now)))) self.old self.new }
        ensures kept { self.new.standing.identifier ≡ self.old.standing.identifier }
    {
        let mut sink = Sink::vector(*self.queue.octets.allocator());
        let accepted = self.ask_into(clock, number, request, &mut sink)?;
        Ok(accepted.asked(sink.into_vector()))
    }

    /// `ask`, whose outputs are appended to what a sink holds, where a component takes memory that other dialogues
    /// left. `reject_ms` is what the dialogue was made with. A queue that is empty afterwards leaves its memory to
    /// others, and so does an empty list of invocations where an Invoke is refused.
    #[inline(always)]
    pub fn ask_with<'m, K: SinkKind>(
        &mut self,
        spares: &mut Spares<A>,
        reject_ms: u64,
        clock: u64,
        number: u64,
        request: &Request<'_>,
        sink: &mut Sink<'m, A, K>,
    ) -> Result<Accepted, Fault>
        requires wait { self.old.invocations.reject_ms ≡ reject_ms }
        requires limited { reject_ms ≤ moment_limit }
        requires clock { clock ≤ moment_limit }
        requires number { IsNumbered number self.old.invocations.rows (request_view request.now) }
        ensures answer { AsksInto sink.old.outputs sink.new.outputs result
            (outcome (table_move (asked clock number) self.old (DialogueEvent.request (request_view request.now))))
            self.old self.new }
        ensures kept { self.new.standing.identifier ≡ self.old.standing.identifier }
    {
        self.borrow(spares, reject_ms, request);
        match self.ask_into(clock, number, request, sink) {
            Ok(accepted) => {
                let makes_places = matches!(request, Request::Begin(_) | Request::Continue(_));
                self.leave_empty_queue(spares, makes_places);
                Ok(accepted)
            }
            Err(fault) => {
                self.give_back(spares, reject_ms, matches!(request, Request::Invoke(_)));
                Err(fault)
            }
        }
    }

    /// Takes what a component needs: a queue, and for an Invoke a list of invocations.
    // Where the request is known, what is asked of it folds away.
    #[inline(always)]
    fn borrow(&mut self, spares: &mut Spares<A>, reject_ms: u64, request: &Request<'_>)
        requires wait { self.old.invocations.reject_ms ≡ reject_ms }
        requires limited { reject_ms ≤ moment_limit }
        ensures { self.new ≡ self.old }
    {
        if matches!(request, Request::Invoke(_)) {
            self.borrow_for_invoke(spares, reject_ms);
        } else if queues_component(request) {
            self.borrow_queue(spares);
        }
    }

    /// `ask`, whose outputs are appended to what a sink holds.
    // Where the request is known, the match on it folds away, and no `Request` and no `Accepted` is built in
    // memory. Each struct is copied out of it: by reference it took more instructions.
    #[inline(always)]
    fn ask_into<'m, K: SinkKind>(
        &mut self,
        clock: u64,
        number: u64,
        request: &Request<'_>,
        sink: &mut Sink<'m, A, K>,
    ) -> Result<Accepted, Fault>
        requires clock { clock ≤ moment_limit }
        requires number { IsNumbered number self.old.invocations.rows (request_view request.now) }
        ensures answer { AsksInto sink.old.outputs sink.new.outputs result
            (outcome (table_move (asked clock number) self.old (DialogueEvent.request (request_view request.now))))
            self.old self.new }
        ensures kept { self.new.standing.identifier ≡ self.old.standing.identifier }
    {
        match *request {
            Request::Invoke(invoke) => of_number(self.queue_invoke_apart(number, &invoke)),
            Request::ResultLast(result) => of_queued(self.queue_result_last_apart(&result)),
            Request::ResultMore(result) => of_queued(self.queue_result_more(&result)),
            Request::ErrorBack(error) => of_queued(self.queue_error(&error)),
            Request::Reject(reject) => of_queued(self.queue_reject(&reject)),
            Request::Cancel(cancel) => of_cancel(self.give_up_invocation(&cancel)),
            Request::Uni(uni) => of_step(self.send_uni(&uni, sink)),
            Request::Begin(begin) => of_step(self.send_begin_apart(&begin, clock, sink)),
            Request::Continue(go_on) => of_step(self.send_continue_apart(&go_on, clock, sink)),
            Request::End(end) => of_step(self.send_end_apart(&end, sink)),
            Request::Abort(abort) => of_step(self.send_abort(&abort, sink)),
        }
    }
}

/// Whether a request queues a component.
#[inline(always)]
fn queues_component(request: &Request<'_>) -> bool {
    match request {
        Request::Invoke(_)
        | Request::ResultLast(_)
        | Request::ResultMore(_)
        | Request::ErrorBack(_)
        | Request::Reject(_) => true,
        Request::Cancel(_)
        | Request::Uni(_)
        | Request::Begin(_)
        | Request::Continue(_)
        | Request::End(_)
        | Request::Abort(_) => false,
    }
}

/// The answer to TC-INVOKE.
#[inline(always)]
fn of_number(answer: Result<u64, Fault>) -> Result<Accepted, Fault>
    ensures { (outputs : List told.Output) (o : Outcome) (old new : model.Dialogue)
        → Answers numbered answer o old new
        → AsksInto outputs outputs result o old new }
{
    Ok(Accepted::Number(answer?))
}

/// The answer where a component is queued.
#[inline(always)]
fn of_queued(answer: Result<(), Fault>) -> Result<Accepted, Fault>
    ensures { (outputs : List told.Output) (o : Outcome) (old new : model.Dialogue)
        → Answers queued_done answer o old new
        → AsksInto outputs outputs result o old new }
{
    answer?;
    Ok(Accepted::Done)
}

/// The answer to TC-U-CANCEL.
#[inline(always)]
fn of_cancel(answer: Result<u64, Fault>) -> Result<Accepted, Fault>
    ensures { (outputs : List told.Output) (o : Outcome) (old new : model.Dialogue) → Answers gave_up answer o old new
        → AsksInto outputs outputs result o old new }
{
    Ok(Accepted::GivenUp(answer?))
}

/// The answer to a request of dialogue handling.
#[inline(always)]
fn of_step(answer: Result<After, Fault>) -> Result<Accepted, Fault>
    ensures { (before after : List told.Output) (o : Outcome) (old new : model.Dialogue)
        → StepsInto before after answer o old new → AsksInto before after result o old new }
{
    Ok(Accepted::Step(answer?.is_over()))
}

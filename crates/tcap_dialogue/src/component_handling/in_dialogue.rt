//! One component of a message to a dialogue: an Invoke or a result; of all others see failures.rt.

// The handlers of Invokes and results are inlined where a component of theirs is read, that of a short last result into
// the two loops over components: as calls of their own they took what they tell through memory, 270 to 420 instructions
// a step. Those of errors, Rejects and faults are rarer, and stand apart: with them the toolchain would inline none, 80
// to 170 a step.

ghost use Rattle.std.specs.Option.{option_map};
ghost use Rattle.std.specs.Prelude.{◌≡◌, ◌+◌, ◌<◌, ◌≤◌, length, Some, option_copied, ◌++◌, ◌∷◌, [], Option};
ghost use Rattle.tcap_component.specs.Views.{body_parts, code_parts};
ghost use Rattle.tcap_component.specs.declared.component.Component.TheVariants as component;
ghost use Rattle.tcap_dialogue.specs.HandledViews.{IsHandled};
ghost use Rattle.tcap_primitives.specs.IndicationViews.{body_octets, code_octets, optional_octets, indicated, indicated_slices};
ghost use Rattle.tcap_primitives.specs.Slices.{AreOf, result_of, LieIn, LieInPlace};
ghost use Rattle.tcap_dialogue.specs.FirstComponent.{IsFirstTaken};
ghost use Rattle.tcap_dialogue.specs.Verdicts.{result_handled, result_judged};
ghost use Rattle.tcap_invocation.specs.Answers.{after_received};
ghost use Rattle.tcap_invocation.specs.Class.{return_result};
ghost use Rattle.tcap_invocation.specs.Stage.{moment_limit};
ghost use Rattle.tcap_model.specs.Procedures.ComponentHandling.{invoke_handled};
ghost use Rattle.tcap_model.specs.Table.Dialogue.{sent_by_rows};
ghost use Rattle.ber_core.specs.Place.{Slice};
ghost use Rattle.tcap_primitives.specs.declared.indication.Indication.TheVariants as indication;

use super::failures::{take_error, take_reject_back, take_unreadable};
use super::{Reject, rejecting, unexpected};
use std::alloc::Allocator;
use tcap_component::{
    Body, Code, Component, Problem, read_component, read_short_invoke, read_short_result,
};
use tcap_invocation::{Invocations, Verdict};
use tcap_primitives::{Indication, Sink, SinkKind};

/// An Invoke.
#[inline(always)]
fn take_invoke<'m, A: Allocator + Copy, K: SinkKind>(
    invocations: &Invocations<A>,
    dialogue: u32,
    id: i8,
    linked: Option<i8>,
    code: Code<'m>,
    parameter: Option<&'m [u8]>,
    sink: &mut Sink<'m, A, K>,
) -> Option<Reject>
    requires room { 1 ≤ sink.old.places }
    requires octets { code_octets code + optional_octets parameter ≤ sink.old.octets }
    ensures handled { IsHandled sink.old sink.new result
        (AreOf (component.Invoke id linked code.entry parameter.entry))
        (code_octets code.entry + optional_octets parameter.entry)
        (invoke_handled (Some dialogue) (sent_by_rows dialogue invocations.now linked) id linked
        (code_parts code.entry) (option_copied parameter.entry)) }
{
    if let Some(linked) = linked {
        if !invocations.is_open(linked) {
            return rejecting(dialogue, id, Problem::unrecognized_linked_id(), sink);
        }
    }
    sink.tell_invoked(Some(dialogue), id, linked, code, parameter);
    None
}

/// TC-RESULT-NL indication.
// It is rarer than TC-RESULT-L, and stands apart.
#[inline(never)]
fn tell_result_more<'m, A: Allocator + Copy, K: SinkKind>(
    dialogue: u32,
    number: u64,
    id: i8,
    body: Option<Body<'m>>,
    sink: &mut Sink<'m, A, K>,
)
    requires place { 1 ≤ sink.old.places }
    requires octets { body_octets body ≤ sink.old.octets }
    ensures told { sink.new.outputs ≡ sink.old.outputs
        ++ indicated (indication.ResultMore dialogue number id body.entry) ∷ [] }
    ensures places { sink.old.places ≤ sink.new.places + 1 }
    ensures octets { sink.old.octets ≤ sink.new.octets + body_octets body.entry }
    ensures place { (portion : Option Slice) (components : Slice) → LieIn portion components
        (indicated_slices (indication.ResultMore dialogue number id body.entry))
        → LieInPlace portion components sink.old.slices → LieInPlace portion components sink.new.slices }
{
    sink.tell(Indication::ResultMore {
        dialogue,
        number,
        id,
        body,
    });
}

/// A Return Result, Last or not, by the verdict on it (Q.774, Component handling).
#[inline(always)]
fn result_judged<'m, A: Allocator + Copy, K: SinkKind>(
    dialogue: u32,
    id: i8,
    body: Option<Body<'m>>,
    last: bool,
    verdict: Verdict,
    sink: &mut Sink<'m, A, K>,
) -> Option<Reject>
    requires room { 1 ≤ sink.old.places }
    requires octets { body_octets body ≤ sink.old.octets }
    ensures handled { IsHandled sink.old sink.new result (AreOf (result_of last id body.entry)) (body_octets body.entry)
        (result_judged dialogue id (option_map body_parts body.entry) last verdict) }
{
    match verdict {
        Verdict::Good(number) => {
            if last {
                sink.tell_result_last(dialogue, number, id, body);
            } else {
                tell_result_more(dialogue, number, id, body, sink);
            }
            None
        }
        Verdict::Unexpected(number) => {
            unexpected(dialogue, number, id, Problem::unexpected_result(), sink)
        }
        Verdict::Unknown => rejecting(dialogue, id, Problem::unrecognized_result(), sink),
    }
}

/// A Return Result, Last or not.
#[inline(always)]
fn take_result<'m, A: Allocator + Copy, K: SinkKind>(
    invocations: &mut Invocations<A>,
    dialogue: u32,
    clock: u64,
    id: i8,
    body: Option<Body<'m>>,
    last: bool,
    sink: &mut Sink<'m, A, K>,
) -> Option<Reject>
    requires clock { clock ≤ moment_limit }
    requires room { 1 ≤ sink.old.places }
    requires octets { body_octets body ≤ sink.old.octets }
    ensures handled { IsHandled sink.old sink.new result (AreOf (result_of last id body.entry))
        (body_octets body.entry)
        (result_handled (Some dialogue) (sent_by_rows dialogue invocations.old (Some id)) id
        (option_map body_parts body.entry) last) }
    ensures list { invocations.new ≡ after_received invocations.old id (return_result last) clock }
{
    let verdict = invocations.on_result(id, last, clock);
    result_judged(dialogue, id, body, last, verdict, sink)
}

/// The octets of a component portion that are left.
// A struct, and not a slice: of the slice that a loop changes an invariant doesn't see where it lies.
#[derive(Clone, Copy)]
pub(crate) struct Left<'m> {
    pub(crate) octets: &'m [u8],
}

/// The first component of what is left: what it comes to. Behind a faulty one nothing is left
/// (Q.774, Component handling).
// Each handler tells by itself, so that an `Output`, which is 288 octets, is built in the vector and not moved there.
// The component is read here, and taken apart where it is read: an item of `Components` is copied five times more on
// its way, which took 40 to 95 instructions a message, and a component once more, 10 to 20. A short result is read
// first, a short Invoke in a call, and all others in one more: with one reader of all, places for what it answers were
// cleared for each component, 22 to 62 a step.
#[inline(always)]
pub(crate) fn take_first<'m, A: Allocator + Copy, K: SinkKind>(
    invocations: &mut Invocations<A>,
    dialogue: u32,
    clock: u64,
    left: &mut Left<'m>,
    sink: &mut Sink<'m, A, K>,
) -> Option<Reject>
    requires clock { clock ≤ moment_limit }
    requires room { 1 ≤ sink.old.places }
    requires octets { length left.old.octets.now ≤ sink.old.octets }
    requires left { 0 < length left.old.octets.now }
    ensures { IsFirstTaken dialogue clock left.old.octets left.new.octets sink.old sink.new
        invocations.old invocations.new result }
{
    match read_short_result(left.octets) {
        Some((id, body, rest)) => {
            left.octets = rest;
            take_result(invocations, dialogue, clock, id, body, true, sink)
        }
        None => take_unlike_result(invocations, dialogue, clock, left, sink),
    }
}

/// `take_first`, where no short Return Result Last stands first: mostly a short Invoke.
#[inline(never)]
fn take_unlike_result<'m, A: Allocator + Copy, K: SinkKind>(
    invocations: &mut Invocations<A>,
    dialogue: u32,
    clock: u64,
    left: &mut Left<'m>,
    sink: &mut Sink<'m, A, K>,
) -> Option<Reject>
    requires clock { clock ≤ moment_limit }
    requires room { 1 ≤ sink.old.places }
    requires octets { length left.old.octets.now ≤ sink.old.octets }
    requires left { 0 < length left.old.octets.now }
    ensures { IsFirstTaken dialogue clock left.old.octets left.new.octets sink.old sink.new
        invocations.old invocations.new result }
{
    match read_short_invoke(left.octets) {
        Some((id, linked, body, rest)) => {
            left.octets = rest;
            take_invoke(
                invocations,
                dialogue,
                id,
                linked,
                body.code,
                body.parameter,
                sink,
            )
        }
        None => take_of_any_form(invocations, dialogue, clock, left, sink),
    }
}

/// `take_first`, of a component of any form.
#[inline(never)]
fn take_of_any_form<'m, A: Allocator + Copy, K: SinkKind>(
    invocations: &mut Invocations<A>,
    dialogue: u32,
    clock: u64,
    left: &mut Left<'m>,
    sink: &mut Sink<'m, A, K>,
) -> Option<Reject>
    requires clock { clock ≤ moment_limit }
    requires room { 1 ≤ sink.old.places }
    requires octets { length left.old.octets.now ≤ sink.old.octets }
    requires left { 0 < length left.old.octets.now }
    ensures { IsFirstTaken dialogue clock left.old.octets left.new.octets sink.old sink.new
        invocations.old invocations.new result }
{
    match read_component(left.octets) {
        Ok(
            (
                Component::Invoke {
                    id,
                    linked,
                    code,
                    parameter,
                },
                rest,
            ),
        ) => {
            left.octets = rest;
            take_invoke(invocations, dialogue, id, linked, code, parameter, sink)
        }
        Ok((Component::ResultLast { id, body }, rest)) => {
            left.octets = rest;
            take_result(invocations, dialogue, clock, id, body, true, sink)
        }
        Ok((Component::ResultMore { id, body }, rest)) => {
            left.octets = rest;
            take_result(invocations, dialogue, clock, id, body, false, sink)
        }
        Ok(
            (
                Component::ErrorBack {
                    id,
                    code,
                    parameter,
                },
                rest,
            ),
        ) => {
            left.octets = rest;
            take_error(invocations, dialogue, clock, id, code, parameter, sink)
        }
        Ok((Component::RejectBack { id, problem }, rest)) => {
            left.octets = rest;
            take_reject_back(invocations, dialogue, id, problem, sink)
        }
        Err(fault) => {
            left.octets = &left.octets[left.octets.len()..];
            take_unreadable(dialogue, fault, sink)
        }
    }
}

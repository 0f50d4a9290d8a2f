//! One component of a message to a dialogue: an error, a Reject, or one that can't be read.

// Hints to inline have the reason that in_dialogue.rt gives.

ghost use Rattle.std.specs.Prelude.{◌≡◌, ◌+◌, ◌≤◌, Some, None, option_copied, Ok, Err};
ghost use Rattle.tcap_component.specs.Views.{problem_parts, code_parts, fault_parts};
ghost use Rattle.tcap_component.specs.declared.component.Component.TheVariants as component;
ghost use Rattle.tcap_dialogue.specs.HandledViews.{IsHandled, AreNone};
ghost use Rattle.tcap_primitives.specs.IndicationViews.{code_octets, optional_octets};
ghost use Rattle.tcap_primitives.specs.Slices.{AreOf};
ghost use Rattle.tcap_dialogue.specs.Verdicts.{error_judged, reject_judged};
ghost use Rattle.tcap_invocation.specs.Answers.{after_received, after_reject};
ghost use Rattle.tcap_invocation.specs.Class.Received.{return_error};
ghost use Rattle.tcap_invocation.specs.Stage.{moment_limit};
ghost use Rattle.tcap_model.specs.Procedures.ComponentHandling.{handled, error_handled, reject_handled, remote};
ghost use Rattle.tcap_model.specs.Table.Dialogue.{sent_by_rows};
ghost use Rattle.tcap_component.specs.Component.ComponentParts.{reject_back};
ghost use Rattle.tcap_model.specs.Table.TableMove.{after_item};

use super::{Reject, rejecting, remote_rejector, unexpected};
use std::alloc::Allocator;
use tcap_component::{Code, ComponentFault, Problem};
use tcap_invocation::{Invocations, Verdict};
use tcap_primitives::{Indication, Sink, SinkKind};

/// A Return Error.
#[inline(never)]
pub(super) fn take_error<'m, A: Allocator + Copy, K: SinkKind>(
    invocations: &mut Invocations<A>,
    dialogue: u32,
    clock: u64,
    id: i8,
    code: Code<'m>,
    parameter: Option<&'m [u8]>,
    sink: &mut Sink<'m, A, K>,
) -> Option<Reject>
    requires clock { clock ≤ moment_limit }
    requires room { 1 ≤ sink.old.places }
    requires octets { code_octets code + optional_octets parameter ≤ sink.old.octets }
    ensures handled { IsHandled sink.old sink.new result
        (AreOf (component.ErrorBack id code.entry parameter.entry))
        (code_octets code.entry + optional_octets parameter.entry)
        (error_handled (Some dialogue) (sent_by_rows dialogue invocations.old (Some id)) id
        (code_parts code.entry) (option_copied parameter.entry)) }
    ensures list { invocations.new ≡ after_received invocations.old id return_error clock }
{
    let verdict = invocations.on_error(id, clock);
    error_judged(dialogue, id, code, parameter, verdict, sink)
}

/// A Return Error, by the verdict on it (Q.774, Component handling).
#[inline(always)]
fn error_judged<'m, A: Allocator + Copy, K: SinkKind>(
    dialogue: u32,
    id: i8,
    code: Code<'m>,
    parameter: Option<&'m [u8]>,
    verdict: Verdict,
    sink: &mut Sink<'m, A, K>,
) -> Option<Reject>
    requires room { 1 ≤ sink.old.places }
    requires octets { code_octets code + optional_octets parameter ≤ sink.old.octets }
    ensures handled { IsHandled sink.old sink.new result
        (AreOf (component.ErrorBack id code.entry parameter.entry))
        (code_octets code.entry + optional_octets parameter.entry)
        (error_judged dialogue id (code_parts code.entry) (option_copied parameter.entry) verdict) }
{
    match verdict {
        Verdict::Good(number) => {
            sink.tell(Indication::ErrorBack {
                dialogue,
                number,
                id,
                code,
                parameter,
            });
            None
        }
        Verdict::Unexpected(number) => {
            unexpected(dialogue, number, id, Problem::unexpected_error(), sink)
        }
        Verdict::Unknown => rejecting(dialogue, id, Problem::unrecognized_error(), sink),
    }
}

/// A Reject with an identifier.
#[inline(always)]
fn take_reject<'m, A: Allocator + Copy, K: SinkKind>(
    invocations: &mut Invocations<A>,
    dialogue: u32,
    id: i8,
    problem: Problem,
    sink: &mut Sink<'m, A, K>,
) -> Option<Reject>
    requires room { 1 ≤ sink.old.places }
    ensures handled { IsHandled sink.old sink.new result AreNone 0 (reject_handled (Some dialogue)
        (sent_by_rows dialogue invocations.old (Some id)) (Some id) (problem_parts problem)) }
    ensures list { invocations.new ≡ after_reject invocations.old id (problem_parts problem).kind }
{
    let closed = invocations.on_reject(id, problem.kind());
    reject_judged(dialogue, id, problem, closed, sink)
}

/// A Reject with an identifier, by the number of the invocation that it closes
/// (Q.774, Component handling).
#[inline(always)]
fn reject_judged<'m, A: Allocator + Copy, K: SinkKind>(
    dialogue: u32,
    id: i8,
    problem: Problem,
    closed: Option<u64>,
    sink: &mut Sink<'m, A, K>,
) -> Option<Reject>
    requires room { 1 ≤ sink.old.places }
    ensures handled { IsHandled sink.old sink.new result AreNone 0
        (reject_judged dialogue id (problem_parts problem) closed) }
{
    let by = remote_rejector(problem);
    match closed {
        Some(number) => sink.tell(Indication::Rejected {
            dialogue,
            number,
            id,
            problem,
            by,
        }),
        None => sink.tell(Indication::RemoteReject {
            dialogue: Some(dialogue),
            id: Some(id),
            problem,
            by,
        }),
    }
    None
}

/// A Reject without identifier.
#[inline(always)]
fn take_unmatched_reject<'m, A: Allocator + Copy, K: SinkKind>(
    dialogue: u32,
    problem: Problem,
    sink: &mut Sink<'m, A, K>,
) -> Option<Reject>
    requires room { 1 ≤ sink.old.places }
    ensures handled { IsHandled sink.old sink.new result AreNone 0
        (remote (Some dialogue) None (problem_parts problem)) }
{
    sink.tell(Indication::RemoteReject {
        dialogue: Some(dialogue),
        id: None,
        problem,
        by: remote_rejector(problem),
    });
    None
}

/// A Reject, which may be without identifier.
#[inline(never)]
pub(super) fn take_reject_back<'m, A: Allocator + Copy, K: SinkKind>(
    invocations: &mut Invocations<A>,
    dialogue: u32,
    id: Option<i8>,
    problem: Problem,
    sink: &mut Sink<'m, A, K>,
) -> Option<Reject>
    requires room { 1 ≤ sink.old.places }
    ensures handled { IsHandled sink.old sink.new result AreNone 0 (handled (Some dialogue)
        (sent_by_rows dialogue invocations.old id) (Ok (reject_back id (problem_parts problem)))) }
    ensures list { invocations.new ≡ after_item 0 invocations.old (Ok (reject_back id (problem_parts problem))) }
{
    match id {
        Some(id) => take_reject(invocations, dialogue, id, problem, sink),
        None => take_unmatched_reject(dialogue, problem, sink),
    }
}

/// A component that can't be read.
#[inline(never)]
pub(super) fn take_unreadable<'m, A: Allocator + Copy, K: SinkKind>(
    dialogue: u32,
    fault: ComponentFault,
    sink: &mut Sink<'m, A, K>,
) -> Option<Reject>
    requires room { 1 ≤ sink.old.places }
    ensures handled { IsHandled sink.old sink.new result AreNone 0
        (handled (Some dialogue) None (Err (fault_parts fault))) }
{
    sink.tell(Indication::LocalReject {
        dialogue: Some(dialogue),
        id: fault.id,
        problem: fault.problem,
    });
    if fault.was_reject {
        None
    } else {
        Some(Reject {
            id: fault.id,
            problem: fault.problem,
        })
    }
}

//! The answer to an Invoke.

ghost use Rattle.std.specs.Prelude.{◌≡◌, option_copied, option_map};
ghost use Rattle.tcap_component.specs.Views.{body_parts, code_parts, problem_parts};
ghost use Rattle.tcap_register.specs.Answering.{AsksFor, HandsOver, ServesInvoke, body_for, reply_request, octets_of, unrecognized_operation};
ghost use Rattle.tcap_register.specs.Invokes.{invoke_view};

use crate::invoke::Invoke;
use crate::operations::{Operations, Reply};
use std::alloc::Allocator;
use tcap_component::{Body, Code, Kind, Problem, invoke_problem};
use tcap_engine::{Engine, Fault};
use tcap_invocation::Class;

/// The problem of an Invoke whose operation the register doesn't have (Q.773, Invoke Problem).
fn unrecognized_operation() -> Problem
    ensures { problem_parts result ≡ unrecognized_operation }
{
    Problem::new(Kind::Invoke, invoke_problem::UNRECOGNIZED_OPERATION).unwrap()
}

/// The octets of a parameter, if there is one.
fn octets_of<A: Allocator>(parameter: &Option<Vec<u8, A>>) -> Option<&[u8]>
    ensures { option_copied result ≡ octets_of parameter.now }
{
    match parameter {
        Some(octets) => Some(octets.as_slice()),
        None => None,
    }
}

/// What a Return Result holds: the code of its operation and a parameter; nothing where there is no parameter.
fn body_of<'a>(code: Code<'a>, parameter: Option<&'a [u8]>) -> Option<Body<'a>>
    ensures { option_map body_parts result ≡ body_for (code_parts code.entry) (option_copied parameter.entry) }
{
    let octets = parameter?;
    Some(Body {
        code,
        parameter: Some(octets),
    })
}

/// Queues what an operation came to, where its class reports that (Q.771, Operation classes). The fault of the
/// request, where the engine refuses it.
fn queue_reply<A: Allocator + Copy>(
    engine: &mut Engine<A>,
    invoke: &Invoke<'_>,
    class: Class,
    reply: &Reply<A>,
) -> Result<(), Fault>
    ensures { AsksFor (reply_request class (invoke_view invoke.now) reply.now) invoke.now.dialogue
        result engine.old engine.new }
{
    match reply {
        Reply::Success(parameter) if class.reports_success() => {
            let body = body_of(invoke.code, octets_of(parameter));
            engine.result_last(invoke.dialogue, invoke.id, body)
        }
        Reply::Failure { error, parameter } if class.reports_failure() => {
            let parameter = octets_of(parameter);
            engine.error_back(invoke.dialogue, invoke.id, *error, parameter)
        }
        Reply::Reject(problem) => engine.u_reject(invoke.dialogue, Some(invoke.id), *problem),
        Reply::Success(_) | Reply::Failure { .. } => Ok(()),
    }
}

/// Hands a refusal over to the operations, if there is one.
fn hand_over<O: Operations<A>, A: Allocator + Copy>(
    operations: &mut O,
    dialogue: u32,
    id: Option<i8>,
    asked: Result<(), Fault>,
)
    ensures { HandsOver O.refused_gives dialogue id asked operations.old operations.new }
{
    if let Err(fault) = asked {
        operations.refused(dialogue, id, fault);
    }
}

/// Answers an Invoke: by what its operation comes to, or by a Reject where there is no such operation.
pub(crate) fn serve_invoke<O: Operations<A>, A: Allocator + Copy>(
    engine: &mut Engine<A>,
    operations: &mut O,
    invoke: &Invoke<'_>,
)
    ensures { ServesInvoke O.class_of_gives O.answer_gives O.refused_gives (invoke_view invoke.now)
        engine.old operations.old engine.new operations.new }
{
    let (dialogue, id) = (invoke.dialogue, Some(invoke.id));
    match operations.class_of(&invoke.code) {
        Some(class) => {
            let reply = operations.answer(&invoke.code, invoke.parameter);
            let asked = queue_reply(engine, invoke, class, &reply);
            hand_over(operations, dialogue, id, asked);
        }
        None => {
            let asked = engine.u_reject(dialogue, id, unrecognized_operation());
            hand_over(operations, dialogue, id, asked);
        }
    }
}

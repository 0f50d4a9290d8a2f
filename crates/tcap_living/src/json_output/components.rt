//! The members of an indication of component handling that closes no invocation.

ghost use Rattle.std.specs.Prelude.{◌≡◌, ◌++◌, OnOk, codes, string_bytes};
ghost use Rattle.tcap_component.specs.Views.{problem_parts};
ghost use Rattle.tcap_play.specs.Indications.{invoked_indication, more_indication, reject_indication};
ghost use Rattle.tcap_primitives.specs.OutputViews.{rejector, shown};
ghost use Rattle.tcap_living.specs.JsonText.{json_by, json_component, json_identifier, json_problem};
ghost use Rattle.tcap_living.specs.OutputKinds.{json_component_part};
ghost use Rattle.tcap_model.specs.Words.Output.{ComponentIndication};

use crate::json_values::{
    add_between, add_body, add_coded, add_identifier, add_invocation, add_problem_member,
    add_unnumbered,
};
use ber_core::OutOfMemory;
use std::alloc::Allocator;
use tcap_component::{Body, Code, Problem};
use tcap_engine::{By, Output};

/// Adds the identifier that an Invoke is linked to.
fn add_linked<A: Allocator + Copy>(
    text: &mut String<A>,
    linked: Option<i8>,
) -> Result<(), OutOfMemory>
    ensures { OnOk result (string_bytes text.new ≡ string_bytes text.old
        ++ (codes ",\"linked\":" ++ json_identifier linked)) }
{
    text.push_str(",\"linked\":")?;
    add_identifier(text, linked)
}

/// Adds an Invoke.
fn add_invoked<A: Allocator + Copy>(
    text: &mut String<A>,
    dialogue: Option<u32>,
    id: i8,
    linked: Option<i8>,
    code: &Code<'_>,
    parameter: Option<&[u8]>,
) -> Result<(), OutOfMemory>
    ensures { OnOk result (string_bytes text.new ≡ string_bytes text.old
        ++ json_component (invoked_indication dialogue id linked code.now parameter.entry)) }
{
    add_unnumbered(text, "invoked", dialogue, Some(id))?;
    add_linked(text, linked)?;
    add_coded(text, code, parameter)
}

/// Adds a part of a result.
fn add_result_more<A: Allocator + Copy>(
    text: &mut String<A>,
    dialogue: u32,
    number: u64,
    id: i8,
    body: &Option<Body<'_>>,
) -> Result<(), OutOfMemory>
    ensures { OnOk result (string_bytes text.new ≡ string_bytes text.old
        ++ json_component (more_indication dialogue number id body.now)) }
{
    add_invocation(text, "more", dialogue, number, id)?;
    add_body(text, body)
}

/// Adds who rejects.
fn add_by<A: Allocator + Copy>(text: &mut String<A>, by: By) -> Result<(), OutOfMemory>
    ensures { OnOk result (string_bytes text.new ≡ string_bytes text.old ++ json_by (rejector by)) }
{
    let words = match by {
        By::Local => "local",
        By::RemoteProvider => "provider",
        By::RemoteUser => "user",
    };
    add_between(text, ",\"by\":\"", words, "\"")
}

/// Adds a problem, and who rejects for it.
pub(super) fn add_rejection<A: Allocator + Copy>(
    text: &mut String<A>,
    problem: Problem,
    by: By,
) -> Result<(), OutOfMemory>
    ensures { OnOk result (string_bytes text.new ≡ string_bytes text.old
        ++ (json_problem (problem_parts problem) ++ json_by (rejector by))) }
{
    add_problem_member(text, problem)?;
    add_by(text, by)
}

/// Adds a Reject by this side.
fn add_local_reject<A: Allocator + Copy>(
    text: &mut String<A>,
    dialogue: Option<u32>,
    id: Option<i8>,
    problem: Problem,
) -> Result<(), OutOfMemory>
    ensures { OnOk result (string_bytes text.new ≡ string_bytes text.old
        ++ json_component (ComponentIndication.local_reject dialogue id (problem_parts problem))) }
{
    add_unnumbered(text, "localreject", dialogue, id)?;
    add_problem_member(text, problem)
}

/// Adds a Reject by the other side.
fn add_remote_reject<A: Allocator + Copy>(
    text: &mut String<A>,
    dialogue: Option<u32>,
    id: Option<i8>,
    problem: Problem,
    by: By,
) -> Result<(), OutOfMemory>
    ensures { OnOk result (string_bytes text.new ≡ string_bytes text.old
        ++ json_component (reject_indication dialogue id problem by)) }
{
    add_unnumbered(text, "remotereject", dialogue, id)?;
    add_rejection(text, problem, by)
}

/// Adds the members of an indication of component handling that closes no invocation, nothing of another output.
pub(super) fn add_component<A: Allocator + Copy>(
    text: &mut String<A>,
    output: &Output<'_, A>,
) -> Result<(), OutOfMemory>
    ensures { OnOk result (string_bytes text.new ≡ string_bytes text.old
        ++ json_component_part (shown output.now)) }
{
    match output {
        Output::Invoked {
            dialogue,
            id,
            linked,
            code,
            parameter,
        } => add_invoked(text, *dialogue, *id, *linked, code, *parameter),
        Output::ResultMore {
            dialogue,
            number,
            id,
            body,
        } => add_result_more(text, *dialogue, *number, *id, body),
        Output::LocalReject {
            dialogue,
            id,
            problem,
        } => add_local_reject(text, *dialogue, *id, *problem),
        Output::RemoteReject {
            dialogue,
            id,
            problem,
            by,
        } => add_remote_reject(text, *dialogue, *id, *problem, *by),
        Output::Send { .. } | Output::Dropped(_) => Ok(()),
        Output::Uni { .. } | Output::Begin { .. } => Ok(()),
        Output::Continue { .. } | Output::End { .. } => Ok(()),
        Output::UAbort { .. } | Output::PAbort { .. } => Ok(()),
        Output::ResultLast { .. } | Output::ErrorBack { .. } => Ok(()),
        Output::Rejected { .. } | Output::Lapsed { .. } | Output::Ended { .. } => Ok(()),
    }
}

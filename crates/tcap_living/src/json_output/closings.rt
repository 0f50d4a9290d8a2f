//! The members of an indication that closes an invocation.

ghost use Rattle.std.specs.Prelude.{◌≡◌, ◌++◌, OnOk, option_map, string_bytes};
ghost use Rattle.tcap_component.specs.Views.{body_parts, problem_parts};
ghost use Rattle.tcap_model.specs.Words.Output.{Closing};
ghost use Rattle.tcap_play.specs.Indications.{error_closing};
ghost use Rattle.tcap_primitives.specs.OutputViews.{rejector, shown};
ghost use Rattle.tcap_living.specs.JsonText.{json_closed};
ghost use Rattle.tcap_living.specs.OutputKinds.{json_closing_part};

use super::components::add_rejection;
use crate::json_values::{add_body, add_coded, add_invocation};
use ber_core::OutOfMemory;
use std::alloc::Allocator;
use tcap_component::{Body, Code, Problem};
use tcap_engine::{By, Output};

/// Adds the last part of a result.
fn add_result_last<A: Allocator + Copy>(
    text: &mut String<A>,
    dialogue: u32,
    number: u64,
    id: i8,
    body: &Option<Body<'_>>,
) -> Result<(), OutOfMemory>
    ensures { OnOk result (string_bytes text.new ≡ string_bytes text.old
        ++ json_closed dialogue number id (Closing.result_last (option_map body_parts body.now))) }
{
    add_invocation(text, "last", dialogue, number, id)?;
    add_body(text, body)
}

/// Adds an error.
fn add_error<A: Allocator + Copy>(
    text: &mut String<A>,
    dialogue: u32,
    number: u64,
    id: i8,
    code: &Code<'_>,
    parameter: Option<&[u8]>,
) -> Result<(), OutOfMemory>
    ensures { OnOk result (string_bytes text.new ≡ string_bytes text.old
        ++ json_closed dialogue number id (error_closing code.now parameter.entry)) }
{
    add_invocation(text, "error", dialogue, number, id)?;
    add_coded(text, code, parameter)
}

/// Adds a Reject of either side.
fn add_rejected<A: Allocator + Copy>(
    text: &mut String<A>,
    dialogue: u32,
    number: u64,
    id: i8,
    problem: Problem,
    by: By,
) -> Result<(), OutOfMemory>
    ensures { OnOk result (string_bytes text.new ≡ string_bytes text.old
        ++ json_closed dialogue number id (Closing.rejected (problem_parts problem) (rejector by))) }
{
    add_invocation(text, "rejected", dialogue, number, id)?;
    add_rejection(text, problem, by)
}

/// Adds the members of an output that closes an invocation, nothing of another.
pub(super) fn add_closing<A: Allocator + Copy>(
    text: &mut String<A>,
    output: &Output<'_, A>,
) -> Result<(), OutOfMemory>
    ensures { OnOk result (string_bytes text.new ≡ string_bytes text.old ++ json_closing_part (shown output.now)) }
{
    match output {
        Output::ResultLast {
            dialogue,
            number,
            id,
            body,
        } => add_result_last(text, *dialogue, *number, *id, body),
        Output::ErrorBack {
            dialogue,
            number,
            id,
            code,
            parameter,
        } => add_error(text, *dialogue, *number, *id, code, *parameter),
        Output::Rejected {
            dialogue,
            number,
            id,
            problem,
            by,
        } => add_rejected(text, *dialogue, *number, *id, *problem, *by),
        Output::Lapsed {
            dialogue,
            number,
            id,
        } => add_invocation(text, "lapsed", *dialogue, *number, *id),
        Output::Ended {
            dialogue,
            number,
            id,
        } => add_invocation(text, "ended", *dialogue, *number, *id),
        Output::Send { .. } | Output::Dropped(_) => Ok(()),
        Output::Uni { .. } | Output::Begin { .. } => Ok(()),
        Output::Continue { .. } | Output::End { .. } => Ok(()),
        Output::UAbort { .. } | Output::PAbort { .. } => Ok(()),
        Output::Invoked { .. } | Output::ResultMore { .. } => Ok(()),
        Output::LocalReject { .. } | Output::RemoteReject { .. } => Ok(()),
    }
}

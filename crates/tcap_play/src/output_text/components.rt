//! The words of an indication of component handling that closes no invocation.

ghost use Rattle.std.specs.Prelude.{◌≡◌, ◌++◌, codes, OnOk, string_bytes};
ghost use Rattle.std.specs.Fmt.{decimal, signed_decimal};
ghost use Rattle.tcap_component.specs.Views.{problem_parts};
ghost use Rattle.tcap_primitives.specs.OutputViews.{rejector, shown};
ghost use Rattle.tcap_model.specs.Words.Output.{ComponentIndication};
ghost use Rattle.tcap_play.specs.Indications.{invoked_indication, more_indication, reject_indication};
ghost use Rattle.tcap_play.specs.OutputParts.{component_part};
ghost use Rattle.tcap_play.specs.OutputText.{place_words, rejector_words, invocation_words, component_words};
ghost use Rattle.tcap_words.specs.ComponentText.{identifier_words, problem_words};

use ber_core::OutOfMemory;
use std::alloc::Allocator;
use tcap_component::{Body, Code, Problem};
use tcap_engine::{By, Output};
use tcap_text::{add_body, add_coded, add_decimal, add_identifier, add_problem, add_signed};

/// Adds a dialogue, `-` where there is none.
fn add_place<A: Allocator + Copy>(
    text: &mut String<A>,
    dialogue: Option<u32>,
) -> Result<(), OutOfMemory>
    ensures { OnOk result (string_bytes text.new ≡ string_bytes text.old ++ place_words dialogue) }
{
    match dialogue {
        Some(dialogue) => add_decimal(text, u64::from(dialogue)),
        None => Ok(text.push_str("-")?),
    }
}

/// Who rejects.
fn rejector_text(by: By) -> &'static str
    ensures { result.now ≡ rejector_words (rejector by) }
{
    match by {
        By::Local => "local",
        By::RemoteProvider => "provider",
        By::RemoteUser => "user",
    }
}

/// Adds the name of an indication and its dialogue.
fn add_named<A: Allocator + Copy>(
    text: &mut String<A>,
    name: &str,
    dialogue: u32,
) -> Result<(), OutOfMemory>
    ensures { OnOk result (string_bytes text.new ≡ string_bytes text.old
        ++ (name.now ++ (codes " " ++ decimal dialogue))) }
{
    text.push_str(name)?;
    text.push_str(" ")?;
    add_decimal(text, u64::from(dialogue))
}

/// Adds an indication for an invocation, by its name.
pub(super) fn add_invocation<A: Allocator + Copy>(
    text: &mut String<A>,
    name: &str,
    dialogue: u32,
    number: u64,
    id: i8,
) -> Result<(), OutOfMemory>
    ensures { OnOk result (string_bytes text.new ≡ string_bytes text.old
        ++ invocation_words name.now dialogue number id) }
{
    add_named(text, name, dialogue)?;
    text.push_str(" id ")?;
    add_signed(text, i64::from(id))?;
    text.push_str(" number ")?;
    add_decimal(text, number)
}

/// Adds an invoke identifier and the one that it is linked to.
fn add_linked<A: Allocator + Copy>(
    text: &mut String<A>,
    id: i8,
    linked: Option<i8>,
) -> Result<(), OutOfMemory>
    ensures { OnOk result (string_bytes text.new ≡ string_bytes text.old
        ++ (codes " id " ++ (signed_decimal id ++ (codes " linked " ++ identifier_words linked)))) }
{
    text.push_str(" id ")?;
    add_signed(text, i64::from(id))?;
    text.push_str(" linked ")?;
    add_identifier(text, linked)
}

/// Adds an Invoke.
fn add_invoked<A: Allocator + Copy>(
    text: &mut String<A>,
    dialogue: Option<u32>,
    id: i8,
    linked: Option<i8>,
    code: &Code<'_>,
    parameter: Option<&[u8]>,
) -> Result<(), OutOfMemory>
    ensures { OnOk result (string_bytes text.new ≡ string_bytes text.old
        ++ component_words (invoked_indication dialogue id linked code.now parameter.entry)) }
{
    text.push_str("invoked ")?;
    add_place(text, dialogue)?;
    add_linked(text, id, linked)?;
    text.push_str(" op ")?;
    add_coded(text, code, parameter)
}

/// Adds a part of a result.
fn add_result_more<A: Allocator + Copy>(
    text: &mut String<A>,
    dialogue: u32,
    number: u64,
    id: i8,
    body: &Option<Body<'_>>,
) -> Result<(), OutOfMemory>
    ensures { OnOk result (string_bytes text.new ≡ string_bytes text.old
        ++ component_words (more_indication dialogue number id body.now)) }
{
    add_invocation(text, "more", dialogue, number, id)?;
    text.push_str(" op ")?;
    add_body(text, body)
}

/// Adds an indication of this name for a component that is known by its identifier at most.
fn add_unnumbered<A: Allocator + Copy>(
    text: &mut String<A>,
    name: &str,
    dialogue: Option<u32>,
    id: Option<i8>,
) -> Result<(), OutOfMemory>
    ensures { OnOk result (string_bytes text.new ≡ string_bytes text.old ++ (name.now
        ++ (codes " " ++ (place_words dialogue ++ (codes " id " ++ identifier_words id))))) }
{
    text.push_str(name)?;
    text.push_str(" ")?;
    add_place(text, dialogue)?;
    text.push_str(" id ")?;
    add_identifier(text, id)
}

/// Adds a problem and who rejects for it.
pub(super) fn add_rejection<A: Allocator + Copy>(
    text: &mut String<A>,
    problem: Problem,
    by: By,
) -> Result<(), OutOfMemory>
    ensures { OnOk result (string_bytes text.new ≡ string_bytes text.old
        ++ (problem_words (problem_parts problem) ++ (codes " by " ++ rejector_words (rejector by)))) }
{
    add_problem(text, problem)?;
    text.push_str(" by ")?;
    Ok(text.push_str(rejector_text(by))?)
}

/// Adds a component that is rejected here.
fn add_local_reject<A: Allocator + Copy>(
    text: &mut String<A>,
    dialogue: Option<u32>,
    id: Option<i8>,
    problem: Problem,
) -> Result<(), OutOfMemory>
    ensures { OnOk result (string_bytes text.new ≡ string_bytes text.old
        ++ component_words (ComponentIndication.local_reject dialogue id (problem_parts problem))) }
{
    add_unnumbered(text, "localreject", dialogue, id)?;
    text.push_str(" ")?;
    add_problem(text, problem)
}

/// Adds a Reject that closes no invocation.
fn add_remote_reject<A: Allocator + Copy>(
    text: &mut String<A>,
    dialogue: Option<u32>,
    id: Option<i8>,
    problem: Problem,
    by: By,
) -> Result<(), OutOfMemory>
    ensures { OnOk result (string_bytes text.new ≡ string_bytes text.old
        ++ component_words (reject_indication dialogue id problem by)) }
{
    add_unnumbered(text, "remotereject", dialogue, id)?;
    text.push_str(" ")?;
    add_rejection(text, problem, by)
}

/// Adds the words of an indication that closes no invocation, nothing of another output.
pub fn add_component<A: Allocator + Copy>(
    text: &mut String<A>,
    output: &Output<'_, A>,
) -> Result<(), OutOfMemory>
    ensures { OnOk result (string_bytes text.new ≡ string_bytes text.old ++ component_part (shown output.now)) }
{
    match output {
        Output::Invoked {
            dialogue,
            id,
            linked,
            code,
            parameter,
        } => add_invoked(text, *dialogue, *id, *linked, code, *parameter),
        Output::ResultMore {
            dialogue,
            number,
            id,
            body,
        } => add_result_more(text, *dialogue, *number, *id, body),
        Output::LocalReject {
            dialogue,
            id,
            problem,
        } => add_local_reject(text, *dialogue, *id, *problem),
        Output::RemoteReject {
            dialogue,
            id,
            problem,
            by,
        } => add_remote_reject(text, *dialogue, *id, *problem, *by),
        Output::Send { .. } | Output::Dropped(_) => Ok(()),
        Output::Uni { .. } | Output::Begin { .. } | Output::Continue { .. } => Ok(()),
        Output::End { .. } | Output::UAbort { .. } | Output::PAbort { .. } => Ok(()),
        Output::ResultLast { .. } | Output::ErrorBack { .. } => Ok(()),
        Output::Rejected { .. } | Output::Lapsed { .. } | Output::Ended { .. } => Ok(()),
    }
}

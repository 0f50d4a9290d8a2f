//! The outputs of a line.

ghost use Rattle.std.specs.Prelude.{◌≡◌, ◌++◌, ◌<◌, length, OnOk, IfOk, IfSome, option_map};
ghost use Rattle.std.specs.Option.{option_and_then};
ghost use Rattle.tcap_lines.specs.FaultNames.{fault_name_of};
ghost use Rattle.tcap_stories.specs.Outputs.{is_refusal, numbered, outputs_in, refusal_in, told};
ghost use Rattle.tcap_stories.specs.Views.{outputs_left, texts_of};

use crate::text::add_number;
use ber_core::OutOfMemory;
use std::alloc::Allocator;
use tcap_lines::fault_name;
use tcap_play::{first_piece, number};

/// Whether an output tells a refusal: `S refused ..`.
pub(crate) fn is_refusal(output: &[u8]) -> bool
    ensures { result ≡ is_refusal output.now }
{
    matches!(
        output.split_at_checked(10),
        Some((b"A refused " | b"B refused ", _))
    )
}

/// The number of the fault by which an output tells a refusal: `S refused N`.
fn refusal_in(output: &[u8]) -> Option<u64>
    ensures { result ≡ refusal_in output.now }
{
    match output.split_at_checked(10) {
        Some((b"A refused " | b"B refused ", digits)) => number(digits),
        _ => None,
    }
}

/// The name of the fault by which an output tells a refusal.
fn name_in(output: &[u8]) -> Option<&'static str>
    ensures { option_map (λ name. name.now) result ≡ option_and_then fault_name_of (refusal_in output.now) }
{
    fault_name(refusal_in(output)?)
}

/// An output as it is told: a refusal has the name of its fault.
fn told<A: Allocator + Copy>(alloc: A, output: &[u8]) -> Result<Vec<u8, A>, OutOfMemory>
    ensures { IfOk result (λ line. line.items ≡ told output.now) }
{
    let mut line = Vec::from_slice(alloc, output)?;
    if let Some(name) = name_in(output) {
        line.extend_from_slice(b" ")?;
        line.extend_from_slice(name.as_bytes())?;
    }
    Ok(line)
}

/// Keeps the first output of these lines, if there is one, and gives the lines behind it.
fn keep_output<'t, A: Allocator + Copy>(
    alloc: A,
    outputs: &mut Vec<Vec<u8, A>, A>,
    lines: &'t [u8],
) -> Result<Option<&'t [u8]>, OutOfMemory>
    ensures kept { IfOk result (λ rest. texts_of outputs.new.items ++ outputs_left rest
        ≡ texts_of outputs.old.items ++ outputs_in lines.entry.now) }
    ensures shorter { IfOk result (λ rest. IfSome rest (λ more. length more.now < length lines.entry.now)) }
{
    let (output, more) = first_piece(lines, b'\n');
    let Some(more) = more else {
        return Ok(None);
    };
    outputs.reserve(1)?;
    outputs.push_reserved(told(alloc, output)?);
    Ok(Some(more))
}

/// The outputs of a line of a play, by what the play prints for it.
pub(crate) fn outputs_in<A: Allocator + Copy>(
    alloc: A,
    text: &[u8],
) -> Result<Vec<Vec<u8, A>, A>, OutOfMemory>
    ensures { IfOk result (λ outputs. texts_of outputs.items ≡ outputs_in text.now) }
{
    let mut outputs = Vec::new(alloc);
    let mut rest = Some(text);
    while let Some(lines) = rest {
        rest = keep_output(alloc, &mut outputs, lines)?;
    }
    Ok(outputs)
}

/// Adds outputs with the number of the line that they come from.
pub(crate) fn add_numbered<A: Allocator + Copy>(
    text: &mut Vec<u8, A>,
    line: u64,
    outputs: &[Vec<u8, A>],
) -> Result<(), OutOfMemory>
    ensures { OnOk result (text.new.items ≡ text.old.items ++ numbered line (texts_of outputs.now)) }
{
    for output in outputs {
        add_number(text, line)?;
        text.extend_from_slice(b" ")?;
        text.extend_from_slice(output)?;
        text.extend_from_slice(b"\n")?;
    }
    Ok(())
}

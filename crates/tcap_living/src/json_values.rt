//! Values and members of JSON.

ghost use Rattle.std.specs.Prelude.{◌≡◌, ◌++◌, OnOk, codes, option_copied, option_map, string_bytes};
ghost use Rattle.std.specs.Fmt.{decimal, signed_decimal};
ghost use Rattle.tcap_component.specs.Views.{body_parts, code_parts, problem_parts};
ghost use Rattle.tcap_words.specs.ComponentText.{problem_words};
ghost use Rattle.tcap_living.specs.JsonText.{json_body, json_code, json_coded, json_identifier, json_invocation, json_number, json_octets, json_optional, json_placed, json_portion, json_problem, json_unnumbered};

use ber_core::OutOfMemory;
use std::alloc::Allocator;
use tcap_component::{Body, Code, Problem};
use tcap_text::{add_decimal, add_hex, add_problem, add_signed};

/// Adds what stands before words, the words, and what stands behind them.
pub(crate) fn add_between<A: Allocator + Copy>(
    text: &mut String<A>,
    before: &str,
    words: &str,
    behind: &str,
) -> Result<(), OutOfMemory>
    ensures { OnOk result (string_bytes text.new ≡ string_bytes text.old
        ++ (before.now ++ (words.now ++ behind.now))) }
{
    text.push_str(before)?;
    text.push_str(words)?;
    Ok(text.push_str(behind)?)
}

/// Adds a member's name, and a number.
pub(crate) fn add_member<A: Allocator + Copy>(
    text: &mut String<A>,
    name: &str,
    number: u64,
) -> Result<(), OutOfMemory>
    ensures { OnOk result (string_bytes text.new ≡ string_bytes text.old ++ (name.now ++ decimal number)) }
{
    text.push_str(name)?;
    add_decimal(text, number)
}

/// Adds a number that may be absent.
pub(crate) fn add_number<A: Allocator + Copy>(
    text: &mut String<A>,
    number: Option<u64>,
) -> Result<(), OutOfMemory>
    ensures { OnOk result (string_bytes text.new ≡ string_bytes text.old ++ json_number number) }
{
    match number {
        Some(number) => add_decimal(text, number),
        None => Ok(text.push_str("null")?),
    }
}

/// Adds octets.
pub(crate) fn add_octets<A: Allocator + Copy>(
    text: &mut String<A>,
    octets: &[u8],
) -> Result<(), OutOfMemory>
    ensures { OnOk result (string_bytes text.new ≡ string_bytes text.old ++ json_octets octets.now) }
{
    text.push_str("\"")?;
    add_hex(text, octets)?;
    Ok(text.push_str("\"")?)
}

/// Adds octets that may be absent.
fn add_optional<A: Allocator + Copy>(
    text: &mut String<A>,
    octets: Option<&[u8]>,
) -> Result<(), OutOfMemory>
    ensures { OnOk result (string_bytes text.new ≡ string_bytes text.old
        ++ json_optional (option_copied octets.entry)) }
{
    match octets {
        Some(octets) => add_octets(text, octets),
        None => Ok(text.push_str("null")?),
    }
}

/// Adds an invoke identifier that may be absent.
pub(crate) fn add_identifier<A: Allocator + Copy>(
    text: &mut String<A>,
    id: Option<i8>,
) -> Result<(), OutOfMemory>
    ensures { OnOk result (string_bytes text.new ≡ string_bytes text.old ++ json_identifier id) }
{
    match id {
        Some(id) => add_signed(text, i64::from(id)),
        None => Ok(text.push_str("null")?),
    }
}

/// Adds a code.
fn add_code<A: Allocator + Copy>(text: &mut String<A>, code: &Code<'_>) -> Result<(), OutOfMemory>
    ensures { OnOk result (string_bytes text.new ≡ string_bytes text.old ++ json_code (code_parts code.now)) }
{
    match code {
        Code::Local(number) => add_signed(text, i64::from(*number)),
        Code::Global(octets) => add_octets(text, *octets),
    }
}

/// Adds a member's name, and octets.
pub(crate) fn add_octets_member<A: Allocator + Copy>(
    text: &mut String<A>,
    name: &str,
    octets: &[u8],
) -> Result<(), OutOfMemory>
    ensures { OnOk result (string_bytes text.new ≡ string_bytes text.old ++ (name.now ++ json_octets octets.now)) }
{
    text.push_str(name)?;
    add_octets(text, octets)
}

/// Adds a member's name, and octets that may be absent.
fn add_optional_member<A: Allocator + Copy>(
    text: &mut String<A>,
    name: &str,
    octets: Option<&[u8]>,
) -> Result<(), OutOfMemory>
    ensures { OnOk result (string_bytes text.new ≡ string_bytes text.old
        ++ (name.now ++ json_optional (option_copied octets.entry))) }
{
    text.push_str(name)?;
    add_optional(text, octets)
}

/// Adds an application context name and user information.
pub(crate) fn add_portion<A: Allocator + Copy>(
    text: &mut String<A>,
    context: Option<&[u8]>,
    info: &[u8],
) -> Result<(), OutOfMemory>
    ensures { OnOk result (string_bytes text.new ≡ string_bytes text.old
        ++ json_portion (option_copied context.entry) info.now) }
{
    add_optional_member(text, ",\"context\":", context)?;
    add_octets_member(text, ",\"info\":", info)
}

/// Adds a code and a parameter.
pub(crate) fn add_coded<A: Allocator + Copy>(
    text: &mut String<A>,
    code: &Code<'_>,
    parameter: Option<&[u8]>,
) -> Result<(), OutOfMemory>
    ensures { OnOk result (string_bytes text.new ≡ string_bytes text.old
        ++ json_coded (code_parts code.now) (option_copied parameter.entry)) }
{
    text.push_str(",\"code\":")?;
    add_code(text, code)?;
    text.push_str(",\"parameter\":")?;
    add_optional(text, parameter)
}

/// Adds the body of a result.
pub(crate) fn add_body<A: Allocator + Copy>(
    text: &mut String<A>,
    body: &Option<Body<'_>>,
) -> Result<(), OutOfMemory>
    ensures { OnOk result (string_bytes text.new ≡ string_bytes text.old
        ++ json_body (option_map body_parts body.now)) }
{
    match body {
        Some(body) => add_coded(text, &body.code, body.parameter),
        None => Ok(text.push_str(",\"code\":null,\"parameter\":null")?),
    }
}

/// Adds what stands before a problem, the problem, and what stands behind it.
fn add_problem_between<A: Allocator + Copy>(
    text: &mut String<A>,
    before: &str,
    problem: Problem,
    behind: &str,
) -> Result<(), OutOfMemory>
    ensures { OnOk result (string_bytes text.new ≡ string_bytes text.old
        ++ (before.now ++ (problem_words (problem_parts problem) ++ behind.now))) }
{
    text.push_str(before)?;
    add_problem(text, problem)?;
    Ok(text.push_str(behind)?)
}

/// Adds a problem.
pub(crate) fn add_problem_member<A: Allocator + Copy>(
    text: &mut String<A>,
    problem: Problem,
) -> Result<(), OutOfMemory>
    ensures { OnOk result (string_bytes text.new ≡ string_bytes text.old ++ json_problem (problem_parts problem)) }
{
    add_problem_between(text, ",\"problem\":\"", problem, "\"")
}

/// Adds a member's name, and a number that may be absent.
fn add_number_member<A: Allocator + Copy>(
    text: &mut String<A>,
    name: &str,
    number: Option<u64>,
) -> Result<(), OutOfMemory>
    ensures { OnOk result (string_bytes text.new ≡ string_bytes text.old ++ (name.now ++ json_number number)) }
{
    text.push_str(name)?;
    add_number(text, number)
}

/// Adds the name of an output, and its dialogue if it has one.
pub(crate) fn add_placed<A: Allocator + Copy>(
    text: &mut String<A>,
    name: &str,
    dialogue: Option<u64>,
) -> Result<(), OutOfMemory>
    ensures { OnOk result (string_bytes text.new ≡ string_bytes text.old ++ json_placed name.now dialogue) }
{
    text.push_str(name)?;
    add_number_member(text, "\",\"dialogue\":", dialogue)
}

/// Adds a member's name, and a number that may be below zero.
fn add_signed_member<A: Allocator + Copy>(
    text: &mut String<A>,
    name: &str,
    id: Option<i8>,
) -> Result<(), OutOfMemory>
    ensures { OnOk result (string_bytes text.new ≡ string_bytes text.old ++ (name.now ++ json_identifier id)) }
{
    text.push_str(name)?;
    add_identifier(text, id)
}

/// Adds the members of an invocation: its invoke identifier and its number.
fn add_numbers<A: Allocator + Copy>(
    text: &mut String<A>,
    id: i8,
    number: u64,
) -> Result<(), OutOfMemory>
    ensures { OnOk result (string_bytes text.new ≡ string_bytes text.old
        ++ ((codes ",\"id\":" ++ signed_decimal id) ++ (codes ",\"number\":" ++ decimal number))) }
{
    add_signed_member(text, ",\"id\":", Some(id))?;
    add_member(text, ",\"number\":", number)
}

/// Adds the name of an output for an invocation, its dialogue, its invoke identifier and its number.
pub(crate) fn add_invocation<A: Allocator + Copy>(
    text: &mut String<A>,
    name: &str,
    dialogue: u32,
    number: u64,
    id: i8,
) -> Result<(), OutOfMemory>
    ensures { OnOk result (string_bytes text.new ≡ string_bytes text.old
        ++ json_invocation name.now dialogue number id) }
{
    add_placed(text, name, Some(u64::from(dialogue)))?;
    add_numbers(text, id, number)
}

/// The number of a dialogue that may be absent.
fn placed_at(dialogue: Option<u32>) -> Option<u64>
    ensures { result ≡ dialogue }
{
    match dialogue {
        Some(dialogue) => Some(u64::from(dialogue)),
        None => None,
    }
}

/// Adds the name of an output for a component that is known by its identifier at most, its dialogue and the
/// identifier.
pub(crate) fn add_unnumbered<A: Allocator + Copy>(
    text: &mut String<A>,
    name: &str,
    dialogue: Option<u32>,
    id: Option<i8>,
) -> Result<(), OutOfMemory>
    ensures { OnOk result (string_bytes text.new ≡ string_bytes text.old ++ json_unnumbered name.now dialogue id) }
{
    add_placed(text, name, placed_at(dialogue))?;
    add_signed_member(text, ",\"id\":", id)
}

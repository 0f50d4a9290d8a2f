//! The words of a component.
//!
//! A private function that is refused memory leaves some of its words behind the text that was there, and the
//! public one that calls it cuts them off.

ghost use Rattle.std.specs.Prelude.{◌≡◌, ◌++◌, codes, OnOk, OnErr, IfOk, string_bytes, option_copied, option_map};
ghost use Rattle.std.specs.Fmt.{signed_decimal};
ghost use Rattle.tcap_component.specs.Views.{code_parts, body_parts, problem_parts, fault_parts, component_parts};
ghost use Rattle.tcap_component.specs.Component.CodeParts.{global};
ghost use Rattle.tcap_component.specs.Component.ComponentParts.{invoke, error_back, reject_back};
ghost use Rattle.tcap_words.specs.Text.{BeginsWith};
ghost use Rattle.tcap_words.specs.ComponentText.{identifier_words, code_words, coded_words, body_words, kind_words, problem_words, component_words, fault_words};

use crate::hexadecimal::add_hex;
use crate::text::{add_optional_octets, add_signed, cut_back};
use ber_core::OutOfMemory;
use itoa::Buffer;
use std::alloc::Allocator;
use tcap_component::{Body, Code, Component, ComponentFault, Kind, Problem};

/// Adds an identifier, or `-` where there is none. Where memory is refused, the text is as before.
pub fn add_identifier<A: Allocator + Copy>(
    text: &mut String<A>,
    id: Option<i8>,
) -> Result<(), OutOfMemory>
    ensures ok { OnOk result (string_bytes text.new ≡ string_bytes text.old ++ identifier_words id) }
    ensures err { OnErr result (string_bytes text.new ≡ string_bytes text.old) }
{
    match id {
        Some(id) => add_signed(text, i64::from(id)),
        None => Ok(text.push_str("-")?),
    }
}

/// An identifier, or `-` where there is none.
pub fn identifier_text<A: Allocator + Copy>(
    alloc: A,
    id: Option<i8>,
) -> Result<String<A>, OutOfMemory>
    ensures { IfOk result (λ words. string_bytes words ≡ identifier_words id) }
{
    match id {
        Some(id) => Ok(format!(in alloc; "{id}")?),
        None => Ok(format!(in alloc; "-")?),
    }
}

/// Adds the words of a global code.
fn add_global<A: Allocator + Copy>(text: &mut String<A>, octets: &[u8]) -> Result<(), OutOfMemory>
    ensures ok { OnOk result (string_bytes text.new ≡ string_bytes text.old ++ code_words (global octets.now)) }
    ensures kept { OnErr result (BeginsWith (string_bytes text.old) (string_bytes text.new)) }
{
    text.push_str("global ")?;
    add_hex(text, octets)
}

/// Adds the words of a code.
fn add_code<A: Allocator + Copy>(text: &mut String<A>, code: &Code<'_>) -> Result<(), OutOfMemory>
    ensures ok { OnOk result (string_bytes text.new ≡ string_bytes text.old ++ code_words (code_parts code.now)) }
    ensures kept { OnErr result (BeginsWith (string_bytes text.old) (string_bytes text.new)) }
{
    match code {
        Code::Local(number) => {
            text.push_str("local ")?;
            add_signed(text, i64::from(*number))
        }
        Code::Global(octets) => add_global(text, *octets),
    }
}

/// Adds the words of a code and a parameter, behind the name of the code, piece by piece.
fn add_code_and_parameter<A: Allocator + Copy>(
    text: &mut String<A>,
    code: &Code<'_>,
    parameter: Option<&[u8]>,
) -> Result<(), OutOfMemory>
    ensures ok { OnOk result (string_bytes text.new ≡ string_bytes text.old
        ++ coded_words (code_parts code.now) (option_copied parameter.entry)) }
    ensures kept { OnErr result (BeginsWith (string_bytes text.old) (string_bytes text.new)) }
{
    add_code(text, code)?;
    text.push_str(" param ")?;
    add_optional_octets(text, parameter)
}

/// Adds the words of a code and a parameter, behind the name of the code. Where memory is refused, the text is
/// as before.
pub fn add_coded<A: Allocator + Copy>(
    text: &mut String<A>,
    code: &Code<'_>,
    parameter: Option<&[u8]>,
) -> Result<(), OutOfMemory>
    ensures ok { OnOk result (string_bytes text.new ≡ string_bytes text.old
        ++ coded_words (code_parts code.now) (option_copied parameter.entry)) }
    ensures err { OnErr result (string_bytes text.new ≡ string_bytes text.old) }
{
    let len = text.len();
    let added = add_code_and_parameter(text, code, parameter);
    if added.is_err() {
        cut_back(text, len);
    }
    added
}

/// The words of a code and a parameter, behind the name of the code.
pub fn coded_text<A: Allocator + Copy>(
    alloc: A,
    code: &Code<'_>,
    parameter: Option<&[u8]>,
) -> Result<String<A>, OutOfMemory>
    ensures { IfOk result (λ words. string_bytes words
        ≡ coded_words (code_parts code.now) (option_copied parameter.entry)) }
{
    let mut words = String::new(alloc);
    add_coded(&mut words, code, parameter)?;
    Ok(words)
}

/// Adds the words of a result's body, `-` twice where there is none. Where memory is refused, the text is as before.
pub fn add_body<A: Allocator + Copy>(
    text: &mut String<A>,
    body: &Option<Body<'_>>,
) -> Result<(), OutOfMemory>
    ensures ok { OnOk result (string_bytes text.new ≡ string_bytes text.old
        ++ body_words (option_map body_parts body.now)) }
    ensures err { OnErr result (string_bytes text.new ≡ string_bytes text.old) }
{
    match body {
        Some(body) => add_coded(text, &body.code, body.parameter),
        None => Ok(text.push_str("- param -")?),
    }
}

/// The words of a result's body, `-` twice where there is none.
pub fn body_text<A: Allocator + Copy>(
    alloc: A,
    body: &Option<Body<'_>>,
) -> Result<String<A>, OutOfMemory>
    ensures { IfOk result (λ words. string_bytes words ≡ body_words (option_map body_parts body.now)) }
{
    let mut words = String::new(alloc);
    add_body(&mut words, body)?;
    Ok(words)
}

/// The kind of a problem.
fn kind_text(kind: Kind) -> &'static str
    ensures { result.now ≡ kind_words kind }
{
    match kind {
        Kind::General => "general",
        Kind::Invoke => "invoke",
        Kind::Result => "result",
        Kind::Error => "error",
    }
}

/// Adds the words of a problem: its kind and its code. Where memory is refused, the text is as before.
pub fn add_problem<A: Allocator + Copy>(
    text: &mut String<A>,
    problem: Problem,
) -> Result<(), OutOfMemory>
    ensures ok { OnOk result (string_bytes text.new ≡ string_bytes text.old
        ++ problem_words (problem_parts problem)) }
    ensures err { OnErr result (string_bytes text.new ≡ string_bytes text.old) }
{
    let kind = kind_text(problem.kind());
    let mut buffer = Buffer::new();
    let code = buffer.format(problem.code());
    text.reserve(kind.len() + code.len() + 1)?;
    text.push_str(kind).unwrap();
    text.push_str(" ").unwrap();
    text.push_str(code).unwrap();
    Ok(())
}

/// The words of a problem: its kind and its code.
pub fn problem_text<A: Allocator + Copy>(
    alloc: A,
    problem: Problem,
) -> Result<String<A>, OutOfMemory>
    ensures { IfOk result (λ words. string_bytes words ≡ problem_words (problem_parts problem)) }
{
    let mut words = String::new(alloc);
    add_problem(&mut words, problem)?;
    Ok(words)
}

/// Adds the words of an Invoke.
fn add_invoke<A: Allocator + Copy>(
    text: &mut String<A>,
    id: i8,
    linked: Option<i8>,
    code: &Code<'_>,
    parameter: Option<&[u8]>,
) -> Result<(), OutOfMemory>
    ensures ok { OnOk result (string_bytes text.new ≡ string_bytes text.old
        ++ component_words (invoke id linked (code_parts code.now) (option_copied parameter.entry))) }
    ensures kept { OnErr result (BeginsWith (string_bytes text.old) (string_bytes text.new)) }
{
    text.push_str("invoke ")?;
    add_signed(text, i64::from(id))?;
    text.push_str(" linked ")?;
    add_identifier(text, linked)?;
    text.push_str(" op ")?;
    add_code_and_parameter(text, code, parameter)
}

/// Adds the words of a result, by its name.
fn add_result<A: Allocator + Copy>(
    text: &mut String<A>,
    name: &str,
    id: i8,
    body: &Option<Body<'_>>,
) -> Result<(), OutOfMemory>
    ensures ok { OnOk result (string_bytes text.new ≡ string_bytes text.old ++ (name.now
        ++ (codes " " ++ (signed_decimal id ++ (codes " op " ++ body_words (option_map body_parts body.now)))))) }
    ensures kept { OnErr result (BeginsWith (string_bytes text.old) (string_bytes text.new)) }
{
    text.push_str(name)?;
    text.push_str(" ")?;
    add_signed(text, i64::from(id))?;
    text.push_str(" op ")?;
    add_body(text, body)
}

/// Adds the words of an error.
fn add_error<A: Allocator + Copy>(
    text: &mut String<A>,
    id: i8,
    code: &Code<'_>,
    parameter: Option<&[u8]>,
) -> Result<(), OutOfMemory>
    ensures ok { OnOk result (string_bytes text.new ≡ string_bytes text.old
        ++ component_words (error_back id (code_parts code.now) (option_copied parameter.entry))) }
    ensures kept { OnErr result (BeginsWith (string_bytes text.old) (string_bytes text.new)) }
{
    text.push_str("error ")?;
    add_signed(text, i64::from(id))?;
    text.push_str(" code ")?;
    add_code_and_parameter(text, code, parameter)
}

/// Adds the words of a Reject.
fn add_reject<A: Allocator + Copy>(
    text: &mut String<A>,
    id: Option<i8>,
    problem: Problem,
) -> Result<(), OutOfMemory>
    ensures ok { OnOk result (string_bytes text.new ≡ string_bytes text.old
        ++ component_words (reject_back id (problem_parts problem))) }
    ensures kept { OnErr result (BeginsWith (string_bytes text.old) (string_bytes text.new)) }
{
    text.push_str("reject ")?;
    add_identifier(text, id)?;
    text.push_str(" ")?;
    add_problem(text, problem)
}

/// Adds the words of a component.
pub(crate) fn add_component<A: Allocator + Copy>(
    text: &mut String<A>,
    component: &Component<'_>,
) -> Result<(), OutOfMemory>
    ensures ok { OnOk result (string_bytes text.new ≡ string_bytes text.old
        ++ component_words (component_parts component.now)) }
    ensures kept { OnErr result (BeginsWith (string_bytes text.old) (string_bytes text.new)) }
{
    match component {
        Component::Invoke {
            id,
            linked,
            code,
            parameter,
        } => add_invoke(text, *id, *linked, code, *parameter),
        Component::ResultLast { id, body } => add_result(text, "result last", *id, body),
        Component::ResultMore { id, body } => add_result(text, "result more", *id, body),
        Component::ErrorBack {
            id,
            code,
            parameter,
        } => add_error(text, *id, code, *parameter),
        Component::RejectBack { id, problem } => add_reject(text, *id, *problem),
    }
}

/// Adds the words of a faulty component.
pub(crate) fn add_fault<A: Allocator + Copy>(
    text: &mut String<A>,
    fault: ComponentFault,
) -> Result<(), OutOfMemory>
    ensures ok { OnOk result (string_bytes text.new ≡ string_bytes text.old ++ fault_words (fault_parts fault)) }
    ensures kept { OnErr result (BeginsWith (string_bytes text.old) (string_bytes text.new)) }
{
    text.push_str("faulty ")?;
    add_identifier(text, fault.id)?;
    text.push_str(" ")?;
    add_problem(text, fault.problem)
}

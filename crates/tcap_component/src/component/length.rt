//! Why a component can't be written, and how long it is written; no memory is taken.

ghost use Rattle.std.specs.Prelude.{◌≡◌, ◌+◌, ◌<◌, ◌≤◌, ◌^◌, length, ◌↔◌, option_copied, None, Some, IsNone, IfSome, IfNone, IfOk, OnOk, IfErr};
ghost use Rattle.ber_core.specs.Length.{length_limit};
ghost use Rattle.std.specs.Option.{option_map};
ghost use Rattle.ber_core.specs.Sequence.Field.{may, any};
ghost use Rattle.ber_core.specs.Written.{written_field, written_fields};
ghost use Rattle.tcap_component.specs.Component.{code_field, body_fields};
ghost use Rattle.tcap_component.specs.Views.{code_parts, body_parts, component_parts};
ghost use Rattle.tcap_component.specs.Written.{written_body, written_contents, written_component, coded_part, CanCode, HasCode, CanWriteComponent, IsWriteFault, can_code, can_hold, has_code, has_parameter, write_fault, length_if_any};
ghost use Rattle.tcap_component.specs.declared.fault.WriteFault.{WriteFault};

use crate::component::{Body, Code, Component};
use crate::fault::WriteFault;
use ber_core::{MAX_LENGTH, element_len, int_len, is_oid, read_alone};

/// The code and the parameter of a component; a Reject and a result without a body have none.
#[inline(always)]
fn coded<'a>(component: &Component<'a>) -> Option<Body<'a>>
    ensures { option_map body_parts result ≡ coded_part (component_parts component.now) }
{
    match *component {
        Component::Invoke {
            code,
            parameter,
            ..
        } => Some(Body { code, parameter }),
        Component::ResultLast { body, .. } => body,
        Component::ErrorBack {
            code,
            parameter,
            ..
        } => Some(Body { code, parameter }),
        Component::RejectBack { .. } => None,
        Component::ResultMore { body, .. } => body,
    }
}

/// Whether a global code is an object identifier.
#[inline(always)]
fn is_code(code: &Code<'_>) -> bool
    ensures { result ≡ can_code (code_parts code.now) }
{
    match code {
        Code::Local(_) => true,
        Code::Global(octets) => is_oid(octets),
    }
}

/// Whether these octets are one element and nothing after it.
// Called: with all that reads an element in it, a request that queues a component is too large to be inlined into the
// engine's call of its name, which took 80 instructions a step.
#[inline(never)]
fn is_alone(octets: &[u8]) -> bool
    ensures { result ≡ can_hold (Some octets.now) }
{
    read_alone(octets).is_some()
}

/// Whether a parameter, if there is one, is one element and nothing after it.
#[inline(always)]
fn is_parameter(parameter: Option<&[u8]>) -> bool
    ensures { result ≡ can_hold (option_copied parameter.entry) }
{
    match parameter {
        Some(octets) => is_alone(octets),
        None => true,
    }
}

// ---- lengths

/// The length of a written code, in octets.
#[inline(always)]
fn code_len(code: &Code<'_>) -> usize
    requires { CanCode (code_parts code.now) }
    ensures value { result ≡ length (written_field (code_field (code_parts code.now))) }
    ensures within { result < 512 }
{
    match code {
        Code::Local(number) => 2 + int_len(*number),
        Code::Global(octets) => element_len(octets.len()),
    }
}

/// The length of a parameter, in octets, 0 if it is missing.
#[inline(always)]
fn parameter_len(parameter: Option<&[u8]>) -> usize
    ensures value { result ≡ length (written_field (any (option_copied parameter.entry))) }
    ensures within { result < 2 ^ 63 }
{
    match parameter {
        Some(octets) => octets.len(),
        None => 0,
    }
}

/// The length of a written code and parameter, in octets.
#[inline(always)]
pub(crate) fn body_len(body: &Body<'_>) -> usize
    requires { CanCode (code_parts body.now.code) }
    ensures value { result ≡ length (written_fields (body_fields (body_parts body.now))) }
    ensures within { result < 2 ^ 63 + 2 ^ 9 }
{
    code_len(&body.code) + parameter_len(body.parameter)
}

/// The length of a written identifier, in octets.
const IDENTIFIER_LEN: usize = 3;

/// The length of the written 30 of a result, in octets, 0 without a body.
#[tactic(auto, using(crate::proofs::WrittenGrammar::written_rules))]
#[inline(always)]
fn result_len(body: Option<Body<'_>>) -> usize
    requires { HasCode (option_map body_parts body) }
    ensures value { result ≡ length (written_field (may 0x30 (written_body (option_map body_parts body.entry)))) }
    ensures within { result < 2 ^ 63 + 2 ^ 10 }
{
    match body {
        Some(body) => element_len(body_len(&body)),
        None => 0,
    }
}

/// The length of the written contents of a component, in octets.
#[inline(always)]
pub(crate) fn contents_len(component: &Component<'_>) -> usize
    requires { HasCode (coded_part (component_parts component.now)) }
    ensures value { result ≡ length (written_contents (component_parts component.now)) }
    ensures within { result < 2 ^ 63 + 2 ^ 11 }
{
    match *component {
        Component::Invoke {
            linked,
            code,
            parameter,
            ..
        } => {
            let linked = if linked.is_some() { IDENTIFIER_LEN } else { 0 };
            IDENTIFIER_LEN + linked + code_len(&code) + parameter_len(parameter)
        }
        Component::ResultLast { body, .. } => IDENTIFIER_LEN + result_len(body),
        Component::ErrorBack {
            code,
            parameter,
            ..
        } => IDENTIFIER_LEN + code_len(&code) + parameter_len(parameter),
        Component::RejectBack { id, .. } => {
            let id = if id.is_some() { IDENTIFIER_LEN } else { 2 };
            id + IDENTIFIER_LEN
        }
        Component::ResultMore { body, .. } => IDENTIFIER_LEN + result_len(body),
    }
}

// ---- why not

/// Whether the code of a component, if it has one, can be written.
#[inline(always)]
fn has_good_code(component: &Component<'_>) -> bool
    ensures { result ≡ has_code (coded_part (component_parts component.now)) }
{
    match coded(component) {
        Some(body) => is_code(&body.code),
        None => true,
    }
}

/// Whether the parameter of a component, if it has one, can be written.
#[inline(always)]
fn has_good_parameter(component: &Component<'_>) -> bool
    ensures { result ≡ has_parameter (coded_part (component_parts component.now)) }
{
    match coded(component) {
        Some(body) => is_parameter(body.parameter),
        None => true,
    }
}

/// The length of the written contents of a component, in octets, or why the component can't be
/// written: its code, its parameter, its length.
#[inline(always)]
pub(crate) fn checked_len(component: &Component<'_>) -> Result<usize, WriteFault>
    ensures ok { IfOk result (λ len. CanWriteComponent (component_parts component.now)
        × (len ≡ length (written_contents (component_parts component.now)))) }
    ensures within { IfOk result (λ len. len ≤ length_limit) }
    ensures err { IfErr result (λ f. IsWriteFault (component_parts component.now) f) }
{
    if !has_good_code(component) {
        return Err(WriteFault::BadOid);
    }
    if !has_good_parameter(component) {
        return Err(WriteFault::BadParameter);
    }
    let len = contents_len(component);
    if element_len(len) > MAX_LENGTH {
        return Err(WriteFault::TooLong);
    }
    Ok(len)
}

/// Why `write_component` refuses the component for another cause than memory, if it does. It takes no
/// memory.
// Where the kind of component is known, as in a request, the match on it folds away.
#[tactic(auto, using(crate::proofs::WrittenGrammar::fault_rules))]
#[inline(always)]
pub fn component_fault(component: &Component<'_>) -> Option<WriteFault>
    // The fault that is due, or none where the component can be written.
    ensures is { IfSome result (λ f. IsWriteFault (component_parts component.now) f) }
    ensures none { IfNone result (CanWriteComponent (component_parts component.now)) }
    // The same, computed.
    ensures exact { result ≡ write_fault (component_parts component.now) }
{
    checked_len(component).err()
}

/// The length of the written component in octets, up to 65,535; `None` exactly where
/// `write_component` refuses for another cause than memory. It takes no memory.
#[tactic(auto, using(crate::proofs::WrittenGrammar::length_rules))]
pub fn component_len(component: &Component<'_>) -> Option<usize>
    // The length of what is written, or nothing where there is a fault.
    ensures exact { result ≡ length_if_any (written_component (component_parts component.now))
        (write_fault (component_parts component.now)) }
    ensures refused { IsNone result ↔ ((f : WriteFault) × IsWriteFault (component_parts component.now) f) }
    ensures value { IfSome result (λ n. CanWriteComponent (component_parts component.now)
        × (n ≡ length (written_component (component_parts component.now)))) }
{
    match checked_len(component) {
        Ok(len) => Some(element_len(len)),
        Err(_) => None,
    }
}

/// The length of the written component in octets, or why `write_component` refuses it for another cause
/// than memory: BadOid, BadParameter, TooLong. It judges code and parameter once, and takes no memory.
#[tactic(auto, using(crate::proofs::WrittenGrammar::fault_rules))]
#[inline(always)]
pub fn judge_component(component: &Component<'_>) -> Result<usize, WriteFault>
    // The length of what is written, and that it can be.
    ensures value { IfOk result (λ n. n ≡ length (written_component (component_parts component.now))) }
    ensures ok { OnOk result (CanWriteComponent (component_parts component.now)) }
    ensures within { IfOk result (λ n. n ≤ length_limit) }
    // The fault that is due.
    ensures err { IfErr result (λ f. IsWriteFault (component_parts component.now) f) }
    // The same, computed.
    ensures exact { IfErr result (λ f. write_fault (component_parts component.now) ≡ Some f) }
    ensures none { OnOk result (write_fault (component_parts component.now) ≡ None) }
{
    let contents = checked_len(component)?;
    Ok(element_len(contents))
}

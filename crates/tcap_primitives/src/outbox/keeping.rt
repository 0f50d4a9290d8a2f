//! Octets that are copied behind those that an outbox keeps, and what names them there.

// All but the copying is inlined: where the indication is known, the matches on its parts fold away.

ghost use Rattle.std.specs.Prelude.{◌≡◌, ◌≤◌, ◌+◌, ◌++◌, Some, length, option_map, option_copied, vec_len, vec_capacity};
ghost use Rattle.tcap_component.specs.Views.{code_parts, body_parts};
ghost use Rattle.tcap_pdu.specs.DialogueViews.{pdu_value};
ghost use Rattle.tcap_primitives.specs.IndicationViews.{optional_octets, code_octets, body_octets, pdu_octets};
ghost use Rattle.tcap_primitives.specs.OutboxOctets.{optional_named, code_named, operation_named, body_named, portion_named, pdu_named, abort_named};
ghost use Rattle.tcap_primitives.specs.OutboxReading.{part, code_read, body_read, context_read, info_read, pdu_read};
ghost use Rattle.tcap_primitives.specs.OutboxSpans.{HasRoom, Fits, OptionFits, CodeFits, BodyFits, ResultFits, PortionFits, PduFits, AbortFits};

use super::records::{BodyRecord, CodeRecord, PduRecord, PortionRecord, Span};
use std::alloc::Allocator;
use tcap_component::{Body, Code};
use tcap_pdu::DialoguePdu;

/// Copies a slice.
#[inline(always)]
pub(super) fn keep<A: Allocator + Copy>(octets: &mut Vec<u8, A>, slice: &[u8]) -> Span
    requires { HasRoom (vec_capacity octets.old) (vec_len octets.old) (length slice.now) }
    ensures items { octets.new.items ≡ octets.old.items ++ slice.now }
    ensures len { vec_len octets.new ≡ vec_len octets.old + length slice.now }
    ensures capacity { vec_capacity octets.old ≤ vec_capacity octets.new }
    ensures fits { Fits octets.new.items result }
    ensures reads { part octets.new.items result ≡ slice.now }
{
    let at = octets.len() as u32;
    if !slice.is_empty() {
        append(octets, slice);
    }
    Span {
        at,
        len: slice.len() as u32,
    }
}

/// Appends a slice.
// Out of line: in its place it is some 110 instructions of code for each slice that is told, and saves ten of 35.
#[inline(never)]
fn append<A: Allocator + Copy>(octets: &mut Vec<u8, A>, slice: &[u8])
    requires { vec_len octets.old + length slice.now ≤ vec_capacity octets.old }
    ensures items { octets.new.items ≡ octets.old.items ++ slice.now }
    ensures len { vec_len octets.new ≡ vec_len octets.old + length slice.now }
    ensures capacity { vec_capacity octets.old ≤ vec_capacity octets.new }
{
    octets.extend_from_slice(slice).unwrap();
}

/// Copies a slice, if there is one.
#[inline(always)]
fn keep_optional<A: Allocator + Copy>(octets: &mut Vec<u8, A>, slice: Option<&[u8]>) -> Option<Span>
    requires { HasRoom (vec_capacity octets.old) (vec_len octets.old) (optional_octets slice) }
    ensures items { octets.new.items ≡ octets.old.items ++ optional_named slice.entry }
    ensures len { vec_len octets.new ≡ vec_len octets.old + optional_octets slice.entry }
    ensures capacity { vec_capacity octets.old ≤ vec_capacity octets.new }
    ensures fits { OptionFits octets.new.items result }
    ensures reads { option_map (part octets.new.items) result ≡ option_copied slice.entry }
{
    match slice {
        None => None,
        Some(slice) => Some(keep(octets, slice)),
    }
}

/// Copies the octets of a code.
#[inline(always)]
pub(super) fn keep_code<A: Allocator + Copy>(octets: &mut Vec<u8, A>, code: Code<'_>) -> CodeRecord
    requires { HasRoom (vec_capacity octets.old) (vec_len octets.old) (code_octets code) }
    ensures items { octets.new.items ≡ octets.old.items ++ code_named code.entry }
    ensures len { vec_len octets.new ≡ vec_len octets.old + code_octets code.entry }
    ensures capacity { vec_capacity octets.old ≤ vec_capacity octets.new }
    ensures fits { CodeFits octets.new.items result }
    ensures reads { code_read octets.new.items result ≡ code_parts code.entry }
{
    match code {
        Code::Local(number) => CodeRecord::Local(number),
        Code::Global(code) => CodeRecord::Global(keep(octets, code)),
    }
}

/// Copies the octets of a code and of a parameter.
#[inline(always)]
pub(super) fn keep_operation<A: Allocator + Copy>(
    octets: &mut Vec<u8, A>,
    code: Code<'_>,
    parameter: Option<&[u8]>,
) -> BodyRecord
    requires { HasRoom (vec_capacity octets.old) (vec_len octets.old) (code_octets code + optional_octets parameter) }
    ensures items { octets.new.items ≡ octets.old.items ++ operation_named code.entry parameter.entry }
    ensures len { vec_len octets.new
        ≡ vec_len octets.old + (code_octets code.entry + optional_octets parameter.entry) }
    ensures capacity { vec_capacity octets.old ≤ vec_capacity octets.new }
    ensures fits { BodyFits octets.new.items result }
    ensures code { code_read octets.new.items result.code ≡ code_parts code.entry }
    ensures parameter { option_map (part octets.new.items) result.parameter ≡ option_copied parameter.entry }
{
    let code = keep_code(octets, code);
    let parameter = keep_optional(octets, parameter);
    BodyRecord { code, parameter }
}

/// Copies the octets of the body of a result, if it has one.
#[inline(always)]
pub(super) fn keep_body<A: Allocator + Copy>(
    octets: &mut Vec<u8, A>,
    body: Option<Body<'_>>,
) -> Option<BodyRecord>
    requires { HasRoom (vec_capacity octets.old) (vec_len octets.old) (body_octets body) }
    ensures items { octets.new.items ≡ octets.old.items ++ body_named body.entry }
    ensures len { vec_len octets.new ≡ vec_len octets.old + body_octets body.entry }
    ensures capacity { vec_capacity octets.old ≤ vec_capacity octets.new }
    ensures fits { ResultFits octets.new.items result }
    ensures reads { option_map (body_read octets.new.items) result ≡ option_map body_parts body.entry }
{
    match body {
        None => None,
        Some(body) => Some(keep_operation(octets, body.code, body.parameter)),
    }
}

/// Copies the octets of a dialogue portion.
#[inline(always)]
pub(super) fn keep_portion<A: Allocator + Copy>(
    octets: &mut Vec<u8, A>,
    context: Option<&[u8]>,
    info: &[u8],
) -> PortionRecord
    requires { HasRoom (vec_capacity octets.old) (vec_len octets.old) (optional_octets context + length info.now) }
    ensures items { octets.new.items ≡ octets.old.items ++ portion_named context.entry info.entry }
    ensures len { vec_len octets.new ≡ vec_len octets.old + (optional_octets context.entry + length info.now) }
    ensures capacity { vec_capacity octets.old ≤ vec_capacity octets.new }
    ensures fits { PortionFits octets.new.items result }
    ensures context { context_read octets.new.items result ≡ option_copied context.entry }
    ensures info { info_read octets.new.items result ≡ info.now }
{
    let context = keep_optional(octets, context);
    let info = keep(octets, info);
    PortionRecord { context, info }
}

/// Copies two slices, one behind the other.
#[inline(always)]
pub(super) fn keep_both<A: Allocator + Copy>(
    octets: &mut Vec<u8, A>,
    first: &[u8],
    second: &[u8],
) -> (Span, Span)
    requires { HasRoom (vec_capacity octets.old) (vec_len octets.old) (length first.now + length second.now) }
    ensures items { octets.new.items ≡ octets.old.items ++ (first.now ++ second.now) }
    ensures len { vec_len octets.new ≡ vec_len octets.old + (length first.now + length second.now) }
    ensures capacity { vec_capacity octets.old ≤ vec_capacity octets.new }
    ensures first_fits { Fits octets.new.items result.0 }
    ensures second_fits { Fits octets.new.items result.1 }
    ensures first { part octets.new.items result.0 ≡ first.now }
    ensures second { part octets.new.items result.1 ≡ second.now }
{
    let first = keep(octets, first);
    let second = keep(octets, second);
    (first, second)
}

/// Copies the octets of a dialogue PDU.
#[inline(always)]
fn keep_pdu<A: Allocator + Copy>(octets: &mut Vec<u8, A>, pdu: DialoguePdu<'_>) -> PduRecord
    requires { HasRoom (vec_capacity octets.old) (vec_len octets.old) (pdu_octets (Some pdu)) }
    ensures items { octets.new.items ≡ octets.old.items ++ pdu_named pdu.entry }
    ensures len { vec_len octets.new ≡ vec_len octets.old + pdu_octets (Some pdu.entry) }
    ensures capacity { vec_capacity octets.old ≤ vec_capacity octets.new }
    ensures fits { PduFits octets.new.items result }
    ensures reads { pdu_read octets.new.items result ≡ pdu_value pdu.entry }
{
    match pdu {
        DialoguePdu::Aarq {
            version1,
            context,
            info,
        } => {
            let (context, info) = keep_both(octets, context, info);
            PduRecord::Aarq {
                version1,
                context,
                info,
            }
        }
        DialoguePdu::Audt {
            version1,
            context,
            info,
        } => {
            let (context, info) = keep_both(octets, context, info);
            PduRecord::Audt {
                version1,
                context,
                info,
            }
        }
        DialoguePdu::Aare {
            version1,
            context,
            accepted,
            diagnostic,
            info,
        } => {
            let (context, info) = keep_both(octets, context, info);
            PduRecord::Aare {
                version1,
                context,
                accepted,
                diagnostic,
                info,
            }
        }
        DialoguePdu::Abrt { by_provider, info } => PduRecord::Abrt {
            by_provider,
            info: keep(octets, info),
        },
        DialoguePdu::Foreign { external } => PduRecord::Foreign {
            external: keep(octets, external),
        },
    }
}

/// Copies the octets of the dialogue PDU of an Abort, if there is one.
#[inline(always)]
pub(super) fn keep_abort<A: Allocator + Copy>(
    octets: &mut Vec<u8, A>,
    pdu: Option<DialoguePdu<'_>>,
) -> Option<PduRecord>
    requires { HasRoom (vec_capacity octets.old) (vec_len octets.old) (pdu_octets pdu) }
    ensures items { octets.new.items ≡ octets.old.items ++ abort_named pdu.entry }
    ensures len { vec_len octets.new ≡ vec_len octets.old + pdu_octets pdu.entry }
    ensures capacity { vec_capacity octets.old ≤ vec_capacity octets.new }
    ensures fits { AbortFits octets.new.items result }
    ensures reads { option_map (pdu_read octets.new.items) result ≡ option_map pdu_value pdu.entry }
{
    match pdu {
        None => None,
        Some(pdu) => Some(keep_pdu(octets, pdu)),
    }
}

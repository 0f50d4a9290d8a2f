//! An output as it is read in an outbox.

// Hints to inline: each step of an engine runs through it; docs/PERF.md says what the whole of it inlined gains.

ghost use Rattle.std.specs.Prelude.{◌≡◌, option_map, option_copied};
ghost use Rattle.tcap_component.specs.Views.{code_parts, body_parts};
ghost use Rattle.tcap_pdu.specs.DialogueViews.{pdu_value};
ghost use Rattle.tcap_primitives.specs.OutboxReading.{part, code_read, body_read, pdu_read, output_read};
ghost use Rattle.tcap_primitives.specs.OutboxSpans.{Fits, OptionFits, CodeFits, ResultFits, PduFits, AbortFits, RecordFits};
ghost use Rattle.tcap_primitives.specs.OutboxViews.{output_ref_view};

use super::records::{BodyRecord, CodeRecord, PduRecord, Record, Span};
use crate::indication::Indication;
use tcap_component::{Body, Code};
use tcap_pdu::DialoguePdu;

/// An output as it is read in an outbox: what `Output` says, with slices that are parts of the outbox's octets.
#[derive(Clone, Copy, Debug, PartialEq, Eq)]
pub enum OutputRef<'o> {
    /// A message goes to this address: its octets.
    Send { to: &'o [u8], bytes: &'o [u8] },
    /// The user is told this.
    Indication(Indication<'o>),
}

/// A part of the octets.
#[inline(always)]
pub fn part(octets: &[u8], span: Span) -> &[u8]
    requires { Fits octets.now span }
    ensures { result.now ≡ part octets.now span }
{
    let from = &octets[span.at as usize..];
    &from[..span.len as usize]
}

/// A part of the octets, if there is one.
#[inline(always)]
pub fn optional_part(octets: &[u8], span: Option<Span>) -> Option<&[u8]>
    requires { OptionFits octets.now span }
    ensures { option_copied result ≡ option_map (part octets.now) span }
{
    match span {
        None => None,
        Some(span) => Some(part(octets, span)),
    }
}

/// A code.
#[inline(always)]
pub fn code_of(octets: &[u8], code: CodeRecord) -> Code<'_>
    requires { CodeFits octets.now code }
    ensures { code_parts result ≡ code_read octets.now code }
{
    match code {
        CodeRecord::Local(number) => Code::Local(number),
        CodeRecord::Global(span) => Code::Global(part(octets, span)),
    }
}

/// The body of a result, if it has one.
#[inline(always)]
pub fn body_of(octets: &[u8], body: Option<BodyRecord>) -> Option<Body<'_>>
    requires { ResultFits octets.now body }
    ensures { option_map body_parts result ≡ option_map (body_read octets.now) body }
{
    match body {
        None => None,
        Some(body) => Some(Body {
            code: code_of(octets, body.code),
            parameter: optional_part(octets, body.parameter),
        }),
    }
}

/// A dialogue PDU.
#[inline(always)]
fn pdu_of(octets: &[u8], pdu: PduRecord) -> DialoguePdu<'_>
    requires { PduFits octets.now pdu }
    ensures { pdu_value result ≡ pdu_read octets.now pdu }
{
    match pdu {
        PduRecord::Aarq {
            version1,
            context,
            info,
        } => DialoguePdu::Aarq {
            version1,
            context: part(octets, context),
            info: part(octets, info),
        },
        PduRecord::Audt {
            version1,
            context,
            info,
        } => DialoguePdu::Audt {
            version1,
            context: part(octets, context),
            info: part(octets, info),
        },
        PduRecord::Aare {
            version1,
            context,
            accepted,
            diagnostic,
            info,
        } => DialoguePdu::Aare {
            version1,
            context: part(octets, context),
            accepted,
            diagnostic,
            info: part(octets, info),
        },
        PduRecord::Abrt { by_provider, info } => DialoguePdu::Abrt {
            by_provider,
            info: part(octets, info),
        },
        PduRecord::Foreign { external } => DialoguePdu::Foreign {
            external: part(octets, external),
        },
    }
}

/// The dialogue PDU of an Abort, if there is one.
#[inline(always)]
pub fn abort_of(octets: &[u8], pdu: Option<PduRecord>) -> Option<DialoguePdu<'_>>
    requires { AbortFits octets.now pdu }
    ensures { option_map pdu_value result ≡ option_map (pdu_read octets.now) pdu }
{
    match pdu {
        None => None,
        Some(pdu) => Some(pdu_of(octets, pdu)),
    }
}

/// The output of a record.
#[inline(always)]
pub(super) fn output_of<'o>(octets: &'o [u8], kept: &Record) -> OutputRef<'o>
    requires { RecordFits octets.now kept.now }
    ensures { output_ref_view result ≡ output_read octets.now kept.now }
{
    match *kept {
        Record::Send { to, bytes } => OutputRef::Send {
            to: part(octets, to),
            bytes: part(octets, bytes),
        },
        Record::Uni { portion } => OutputRef::Indication(Indication::Uni {
            context: optional_part(octets, portion.context),
            info: part(octets, portion.info),
        }),
        Record::Begin { dialogue, portion } => OutputRef::Indication(Indication::Begin {
            dialogue,
            context: optional_part(octets, portion.context),
            info: part(octets, portion.info),
        }),
        Record::Continue { dialogue, portion } => OutputRef::Indication(Indication::Continue {
            dialogue,
            context: optional_part(octets, portion.context),
            info: part(octets, portion.info),
        }),
        Record::End { dialogue, portion } => OutputRef::Indication(Indication::End {
            dialogue,
            context: optional_part(octets, portion.context),
            info: part(octets, portion.info),
        }),
        Record::UAbort { dialogue, pdu } => OutputRef::Indication(Indication::UAbort {
            dialogue,
            pdu: abort_of(octets, pdu),
        }),
        Record::PAbort { dialogue, why } => {
            OutputRef::Indication(Indication::PAbort { dialogue, why })
        }
        Record::Invoked {
            dialogue,
            id,
            linked,
            body,
        } => OutputRef::Indication(Indication::Invoked {
            dialogue,
            id,
            linked,
            code: code_of(octets, body.code),
            parameter: optional_part(octets, body.parameter),
        }),
        Record::ResultMore {
            dialogue,
            number,
            id,
            body,
        } => OutputRef::Indication(Indication::ResultMore {
            dialogue,
            number,
            id,
            body: body_of(octets, body),
        }),
        Record::LocalReject {
            dialogue,
            id,
            problem,
        } => OutputRef::Indication(Indication::LocalReject {
            dialogue,
            id,
            problem,
        }),
        Record::RemoteReject {
            dialogue,
            id,
            problem,
            by,
        } => OutputRef::Indication(Indication::RemoteReject {
            dialogue,
            id,
            problem,
            by,
        }),
        Record::ResultLast {
            dialogue,
            number,
            id,
            body,
        } => OutputRef::Indication(Indication::ResultLast {
            dialogue,
            number,
            id,
            body: body_of(octets, body),
        }),
        Record::ErrorBack {
            dialogue,
            number,
            id,
            body,
        } => OutputRef::Indication(Indication::ErrorBack {
            dialogue,
            number,
            id,
            code: code_of(octets, body.code),
            parameter: optional_part(octets, body.parameter),
        }),
        Record::Rejected {
            dialogue,
            number,
            id,
            problem,
            by,
        } => OutputRef::Indication(Indication::Rejected {
            dialogue,
            number,
            id,
            problem,
            by,
        }),
        Record::Lapsed {
            dialogue,
            number,
            id,
        } => OutputRef::Indication(Indication::Lapsed {
            dialogue,
            number,
            id,
        }),
        Record::Ended {
            dialogue,
            number,
            id,
        } => OutputRef::Indication(Indication::Ended {
            dialogue,
            number,
            id,
        }),
        Record::Dropped(why) => OutputRef::Indication(Indication::Dropped(why)),
    }
}

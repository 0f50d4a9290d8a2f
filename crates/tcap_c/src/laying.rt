//! Numbers that are written in a struct, and octets that are copied to the front of a room, if they fit.

// All is inlined where the kind of the output is known: its numbers are then written straight into the struct, and
// what its kind doesn't have costs nothing.

ghost use Rattle.std.specs.Prelude.{◌≡◌, true, option_copied};
ghost use Rattle.std.specs.Option.{option_map};
ghost use Rattle.tcap_component.specs.Views.{body_parts, code_parts};
ghost use Rattle.tcap_pdu.specs.DialogueViews.{pdu_value};
ghost use Rattle.tcap_c.specs.Laying.{AreLaid, IsLaid, IsOutputLaid, with_parts};
ghost use Rattle.tcap_c.specs.Numbers.{with_body, with_code, with_context, with_parameter, with_pdu};
ghost use Rattle.tcap_c.specs.Parts.{body_octets, code_octets, coded_parts, no_parts, octets_if_any, pdu_parts, portion_parts};
ghost use Rattle.tcap_model.specs.Words.Output.{Output};

use crate::output_kind::OutputKind;
use crate::output_numbers::{OutputNumbers, PartLengths};
use crate::room::copy_part;
use tcap_component::{Body, Code};
use tcap_pdu::DialoguePdu;

/// The octets, none where there are none.
#[inline(always)]
fn octets_if_any(octets: Option<&[u8]>) -> &[u8]
    ensures { result.now ≡ octets_if_any (option_copied octets.entry) }
{
    match octets {
        Some(octets) => octets,
        None => &[],
    }
}

/// The octets of a global code.
#[inline(always)]
fn code_octets(code: Code<'_>) -> &[u8]
    ensures { result.now ≡ code_octets (code_parts code.entry) }
{
    match code {
        Code::Local(_) => &[],
        Code::Global(octets) => octets,
    }
}

/// Writes numbers, and copies two parts to the front of the room, if they fit: whether they do.
#[inline(always)]
fn lay(
    numbers: &mut OutputNumbers,
    room: &mut [u8],
    told: OutputNumbers,
    first: &[u8],
    second: &[u8],
) -> bool
    ensures { AreLaid told first.now second.now result numbers.old numbers.new room.old room.new }
{
    if first.len() > room.len() || second.len() > room.len() - first.len() {
        return false;
    }
    let end = copy_part(room, 0, first);
    copy_part(room, end, second);
    *numbers = told;
    true
}

/// An output without octets.
#[inline(always)]
pub(crate) fn lay_alone(numbers: &mut OutputNumbers, told: OutputNumbers) -> bool
    ensures { (result ≡ true) × (numbers.new ≡ with_parts no_parts told) }
{
    *numbers = told.with_lengths(PartLengths::none());
    true
}

/// A message that is sent.
#[inline(always)]
pub(crate) fn lay_sent(
    numbers: &mut OutputNumbers,
    room: &mut [u8],
    to: &[u8],
    message: &[u8],
) -> bool
    ensures { IsOutputLaid (Output.send to.now message.now) result numbers.old numbers.new room.old room.new }
{
    let lengths = PartLengths {
        address: to.len(),
        message: message.len(),
        ..PartLengths::none()
    };
    let sent = OutputNumbers::bare(OutputKind::Send).with_lengths(lengths);
    lay(numbers, room, sent, to, message)
}

/// The context and the user information of a dialogue portion.
#[inline(always)]
fn lay_named(
    numbers: &mut OutputNumbers,
    room: &mut [u8],
    told: OutputNumbers,
    context: &[u8],
    info: &[u8],
) -> bool
    ensures { IsLaid told (portion_parts context.now info.now) result numbers.old numbers.new room.old room.new }
{
    let lengths = PartLengths {
        context: context.len(),
        info: info.len(),
        ..PartLengths::none()
    };
    lay(numbers, room, told.with_lengths(lengths), context, info)
}

/// An indication with a dialogue portion.
#[inline(always)]
pub(crate) fn lay_portion(
    numbers: &mut OutputNumbers,
    room: &mut [u8],
    told: OutputNumbers,
    context: Option<&[u8]>,
    info: &[u8],
) -> bool
    ensures { let c = option_copied context.entry in IsLaid (with_context c told)
        (portion_parts (octets_if_any c) info.now) result numbers.old numbers.new room.old room.new }
{
    let told = told.with_context(context);
    lay_named(numbers, room, told, octets_if_any(context), info)
}

/// The contents octets of a global code, and a parameter.
#[inline(always)]
fn lay_code(
    numbers: &mut OutputNumbers,
    room: &mut [u8],
    told: OutputNumbers,
    global: &[u8],
    parameter: &[u8],
) -> bool
    ensures { IsLaid told (record no_parts { global = global.now; parameter = parameter.now })
        result numbers.old numbers.new room.old room.new }
{
    let lengths = PartLengths {
        global: global.len(),
        parameter: parameter.len(),
        ..PartLengths::none()
    };
    lay(numbers, room, told.with_lengths(lengths), global, parameter)
}

/// An indication with a code and a parameter.
#[inline(always)]
pub(crate) fn lay_coded(
    numbers: &mut OutputNumbers,
    room: &mut [u8],
    told: OutputNumbers,
    code: Code<'_>,
    parameter: Option<&[u8]>,
) -> bool
    ensures { let c = code_parts code.entry in let p = option_copied parameter.entry in
        IsLaid (with_parameter p (with_code c told)) (coded_parts c p) result numbers.old numbers.new room.old room.new }
{
    let told = told.with_code(code).with_parameter(parameter);
    lay_code(
        numbers,
        room,
        told,
        code_octets(code),
        octets_if_any(parameter),
    )
}

/// An indication with the body of a result, if it has one.
#[inline(always)]
pub(crate) fn lay_body(
    numbers: &mut OutputNumbers,
    room: &mut [u8],
    told: OutputNumbers,
    body: Option<Body<'_>>,
) -> bool
    ensures { let b = option_map body_parts body.entry in IsLaid (with_body b told) (body_octets b)
        result numbers.old numbers.new room.old room.new }
{
    match body {
        Some(body) => lay_coded(numbers, room, told, body.code, body.parameter),
        None => lay_alone(numbers, told),
    }
}

/// An indication with the dialogue PDU of an Abort, if it has one.
#[inline(always)]
pub(crate) fn lay_pdu(
    numbers: &mut OutputNumbers,
    room: &mut [u8],
    told: OutputNumbers,
    pdu: Option<DialoguePdu<'_>>,
) -> bool
    ensures { let p = option_map pdu_value pdu.entry in IsLaid (with_pdu p told) (pdu_parts p)
        result numbers.old numbers.new room.old room.new }
{
    let told = told.with_pdu(pdu);
    let Some(pdu) = pdu else {
        return lay_alone(numbers, told);
    };
    let (context, info) = pdu_octets(pdu);
    lay_named(numbers, room, told, context, info)
}

/// The context and the user information of a dialogue PDU; an EXTERNAL of another syntax stands as the latter.
#[inline(always)]
fn pdu_octets(pdu: DialoguePdu<'_>) -> (&[u8], &[u8])
    ensures { portion_parts result.0.now result.1.now ≡ pdu_parts (Some (pdu_value pdu.entry)) }
{
    match pdu {
        DialoguePdu::Aarq { context, info, .. }
        | DialoguePdu::Audt { context, info, .. }
        | DialoguePdu::Aare { context, info, .. } => (context, info),
        DialoguePdu::Abrt { info, .. } => (&[], info),
        DialoguePdu::Foreign { external } => (&[], external),
    }
}

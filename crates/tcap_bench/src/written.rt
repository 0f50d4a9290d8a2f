//! Messages written from values, into the memory of the C library, and then copied out.

ghost use Rattle.std.specs.Prelude.{◌≡◌, ◌++◌, None, IfSome, option_copied, option_map};
ghost use Rattle.std.specs.Int.{w32, to_be_bytes};
ghost use Rattle.tcap_pdu.specs.FrameSpelling.Message.{begin};
ghost use Rattle.tcap_pdu.specs.FrameWritten.{written_frame};
ghost use Rattle.tcap_component.specs.Component.ComponentParts.{result_last};
ghost use Rattle.tcap_component.specs.Written.{written_component};
ghost use Rattle.tcap_bench.specs.Messages.{part_of, written_invoke, written_invokes, request_of, begin_of, response_of, continue_of, IsPut};

use crate::values::Invocation;
use std::alloc::Global;
use tcap_component::{Code, Component, write_component};
use tcap_pdu::{Diagnostic, DialoguePdu, Frame, TransId, write_dialogue, write_frame};

/// The octets of a pool from a start to an end, if it has any there.
fn part_of<'a>(pool: &'a [u8], start: u32, end: u32) -> Option<&'a [u8]>
    ensures { option_copied result ≡ part_of pool.now start end }
{
    let (start, end) = (start as usize, end as usize);
    if start >= end || pool.len() < end {
        return None;
    }
    Some(&pool[start..end])
}

/// An Invoke.
fn write_invoke(alloc: Global, invocation: &Invocation, pool: &[u8]) -> Option<Vec<u8>>
    ensures { IfSome result (λ octets. octets.items ≡ written_invoke pool.now invocation.now) }
{
    let component = Component::Invoke {
        id: invocation.id,
        linked: None,
        code: Code::Local(invocation.operation),
        parameter: part_of(pool, invocation.start, invocation.end),
    };
    write_component(alloc, &component).ok()
}

/// Appends an Invoke.
fn append_invoke(
    alloc: Global,
    octets: &mut Vec<u8>,
    invocation: &Invocation,
    pool: &[u8],
) -> Option<()>
    ensures { IfSome result (λ _. octets.new.items ≡ octets.old.items ++ written_invoke pool.now invocation.now) }
{
    let written = write_invoke(alloc, invocation, pool)?;
    octets.extend_from_slice(written.as_slice()).ok()
}

/// The contents of a component portion of Invokes: the first as it is written, and the others behind
/// it.
fn write_invokes(alloc: Global, invocations: &[Invocation], pool: &[u8]) -> Option<Vec<u8>>
    ensures { IfSome result (λ octets. octets.items ≡ written_invokes pool.now invocations.now) }
{
    let [first, others @ ..] = invocations else {
        return Some(Vec::new(alloc));
    };
    let mut octets = write_invoke(alloc, first, pool)?;
    for invocation in others {
        append_invoke(alloc, &mut octets, invocation, pool)?;
    }
    Some(octets)
}

/// The contents of a dialogue portion with a dialogue request, of none where the context has no octets.
fn write_request(alloc: Global, context: &[u8]) -> Option<Option<Vec<u8>>>
    ensures { IfSome result (λ portion. option_map (λ octets. octets.items) portion ≡ request_of context.now) }
{
    if context.is_empty() {
        return Some(None);
    }
    let pdu = DialoguePdu::Aarq {
        version1: true,
        context,
        info: &[],
    };
    Some(Some(write_dialogue(alloc, &pdu).ok()?))
}

/// A Begin with these contents of its portions.
fn spell_begin(
    alloc: Global,
    otid: u32,
    dialogue: Option<&[u8]>,
    components: &[u8],
) -> Option<Vec<u8>>
    ensures { IfSome result (λ octets. octets.items
        ≡ written_frame (begin (to_be_bytes w32 otid) (option_copied dialogue.entry) components.now)) }
{
    let frame = Frame::Begin {
        otid: TransId::of(otid),
        dialogue,
        components,
    };
    write_frame(alloc, &frame).ok()
}

/// A Begin, with a dialogue request where the context has octets, and Invokes.
fn write_begin(
    alloc: Global,
    otid: u32,
    context: &[u8],
    invocations: &[Invocation],
    pool: &[u8],
) -> Option<Vec<u8>>
    ensures { IfSome result (λ octets. octets.items ≡ begin_of otid context.now pool.now invocations.now) }
{
    let components = write_invokes(alloc, invocations, pool)?;
    match write_request(alloc, context)? {
        Some(dialogue) => spell_begin(
            alloc,
            otid,
            Some(dialogue.as_slice()),
            components.as_slice(),
        ),
        None => spell_begin(alloc, otid, None, components.as_slice()),
    }
}

/// The contents of a dialogue portion with a dialogue response that accepts.
fn write_response(alloc: Global, context: &[u8]) -> Option<Vec<u8>>
    ensures { IfSome result (λ octets. octets.items ≡ response_of context.now) }
{
    let pdu = DialoguePdu::Aare {
        version1: true,
        context,
        accepted: true,
        diagnostic: Diagnostic::User(0),
        info: &[],
    };
    write_dialogue(alloc, &pdu).ok()
}

/// A Return Result Last without a body.
fn write_result(alloc: Global, id: i8) -> Option<Vec<u8>>
    ensures { IfSome result (λ octets. octets.items ≡ written_component (result_last id None)) }
{
    let component = Component::ResultLast { id, body: None };
    write_component(alloc, &component).ok()
}

/// A Continue that accepts a dialogue and has one result without a body.
fn write_continue(alloc: Global, otid: u32, dtid: u32, context: &[u8], id: i8) -> Option<Vec<u8>>
    ensures { IfSome result (λ octets. octets.items ≡ continue_of otid dtid context.now id) }
{
    let dialogue = write_response(alloc, context)?;
    let components = write_result(alloc, id)?;
    let frame = Frame::Continue {
        otid: TransId::of(otid),
        dtid: TransId::of(dtid),
        dialogue: Some(dialogue.as_slice()),
        components: components.as_slice(),
    };
    write_frame(alloc, &frame).ok()
}

/// Copies octets to the beginning of a room, if it has so much, and tells how many.
pub(crate) fn put(octets: &[u8], room: &mut [u8]) -> usize
    ensures { IsPut octets.now result room.new }
{
    if octets.len() > room.len() {
        return 0;
    }
    room[..octets.len()].copy_from_slice(octets);
    octets.len()
}

/// Puts a Begin to the beginning of a room.
pub fn put_begin(
    alloc: Global,
    otid: u32,
    context: &[u8],
    invocations: &[Invocation],
    pool: &[u8],
    room: &mut [u8],
) -> usize
    ensures { IsPut (begin_of otid context.now pool.now invocations.now) result room.new }
{
    match write_begin(alloc, otid, context, invocations, pool) {
        Some(octets) => put(octets.as_slice(), room),
        None => 0,
    }
}

/// Puts a Continue to the beginning of a room.
pub fn put_continue(
    alloc: Global,
    otid: u32,
    dtid: u32,
    context: &[u8],
    id: i8,
    room: &mut [u8],
) -> usize
    ensures { IsPut (continue_of otid dtid context.now id) result room.new }
{
    match write_continue(alloc, otid, dtid, context, id) {
        Some(octets) => put(octets.as_slice(), room),
        None => 0,
    }
}

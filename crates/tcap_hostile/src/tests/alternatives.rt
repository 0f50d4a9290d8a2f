//! Public calls for which the engine makes others: most are held against these on the same input.

ghost use Rattle.std.specs.Prelude.{◌≡◌, None, IfSome};
ghost use Rattle.ber_core.specs.ObjectIdentifier.{IsObjectIdentifier};
ghost use Rattle.tcap_pdu.specs.DialogueDue.{content_fault};
ghost use Rattle.tcap_pdu.specs.DialogueViews.{pdu_value};
ghost use Rattle.tcap_pdu.specs.DialogueWritten.{HasDiagnostic};
ghost use Rattle.tcap_pdu.specs.FrameSpelling.{HasCause};
ghost use Rattle.tcap_pdu.specs.FrameViews.{message};

use super::answers::{add_line, add_outputs};
use super::codec::add_octets;
use super::subject::{Heap, Told};
use super::words::{Word, code, info, number, octets, peer, text};
use ber_core::is_oid;
use std::alloc::Global;
use std::fmt::Debug;
use tcap_component::{Component, write_component};
use tcap_dialogue::{BeginVerdict, Dialogue, judge_begin};
use tcap_pdu::{
    AbortPart, DialoguePdu, Frame, PduFault, TransId, is_user_information, read_frame,
    write_dialogue, write_frame,
};
use tcap_primitives::{MessageParts, Queue, Sending, begin_pdu, uni_pdu};

/// Whether both print the same for debugging.
pub(super) fn are_alike<T: Debug, U: Debug>(alloc: Global, one: &T, other: &U) -> Option<bool> {
    let one = format!(in alloc; "{one:?}").ok()?;
    let other = format!(in alloc; "{other:?}").ok()?;
    Some(one.as_str() == other.as_str())
}

// ---- `Dialogue::accept`, which makes the calls that an engine makes, but in no table

/// Adds what is told of the Begin that creates a dialogue.
fn add_accepted(
    alloc: Global,
    heap: Heap<'_>,
    otid: &TransId,
    aarq: Option<(&[u8], &[u8])>,
    components: &[u8],
    told: &mut String,
) -> Option<Told>
    requires { IfSome aarq (λ a. IsObjectIdentifier a.0.now) }
{
    let accepted = Dialogue::accept(heap, 1, 1000, 0, &peer(), otid, aarq, components, 0);
    let Ok((_dialogue, outputs)) = accepted else {
        return Some(Told::NoMemory);
    };
    add_outputs(alloc, told, outputs.as_slice())?;
    Some(Told::Large)
}

/// `accept HEX`: a Begin, with an AARQ or without a dialogue portion.
fn accept(alloc: Global, heap: Heap<'_>, bytes: &[u8], told: &mut String) -> Option<Told> {
    let Frame::Begin {
        otid,
        dialogue,
        components,
    } = read_frame(bytes).ok()?
    else {
        return None;
    };
    match judge_begin(dialogue) {
        BeginVerdict::Plain => add_accepted(alloc, heap, &otid, None, components, told),
        BeginVerdict::Context { context, info } => {
            let aarq = Some((context, info));
            add_accepted(alloc, heap, &otid, aarq, components, told)
        }
        BeginVerdict::WrongVersion { .. } | BeginVerdict::Abnormal => None,
    }
}

// ---- `write_component` and `Queue::append`, beside `append_component`

/// Queues a component by `judge`, `reserve` and `append_component`.
fn queue_at_once(queue: &mut Queue, component: &Component<'_>) -> Option<()> {
    let Ok(len) = queue.judge(component) else {
        return None;
    };
    let Ok(()) = queue.reserve(len) else {
        return None;
    };
    queue.append_component(component, len, None);
    Some(())
}

/// Queues a component by `write_component`, `reserve` and `append`: whether memory was found.
fn queue_apart(heap: Heap<'_>, queue: &mut Queue<Heap<'_>>, component: &Component<'_>) -> bool {
    let Ok(octets) = write_component(heap, component) else {
        return false;
    };
    let Ok(()) = queue.reserve(octets.len()) else {
        return false;
    };
    queue.append(&octets, None);
    true
}

/// Adds the octets of a queue that has this component twice, where both leave the same queue.
fn add_queued(
    alloc: Global,
    heap: Heap<'_>,
    component: &Component<'_>,
    told: &mut String,
) -> Option<Told> {
    let mut queue = Queue {
        octets: Vec::new(heap),
        parts: Vec::new(heap),
    };
    if !queue_apart(heap, &mut queue, component) || !queue_apart(heap, &mut queue, component) {
        return Some(Told::NoMemory);
    }
    let mut other = Queue {
        octets: Vec::new(alloc),
        parts: Vec::new(alloc),
    };
    queue_at_once(&mut other, component)?;
    queue_at_once(&mut other, component)?;
    if !are_alike(alloc, &queue, &other)? {
        return None;
    }
    add_octets(alloc, told, queue.all_octets())
}

/// `queue ID CODE PARAM`: an Invoke, twice.
fn queue_invoke(
    alloc: Global,
    heap: Heap<'_>,
    words: &[Word<'_>],
    told: &mut String,
) -> Option<Told> {
    let invoke = Component::Invoke {
        id: number(words, 1)?,
        linked: None,
        code: code(words, 2)?,
        parameter: octets(words, 3),
    };
    add_queued(alloc, heap, &invoke, told)
}

// ---- `write_dialogue` and `write_frame`, beside `Sending::spelled`

/// The AUDT or the AARQ of this context and information, where both are good.
fn pdu_of<'w>(word: &str, context: Option<&'w [u8]>, info: &'w [u8]) -> Option<DialoguePdu<'w>>
    ensures { IfSome result (λ p. HasDiagnostic (pdu_value p) × (content_fault (pdu_value p) ≡ None)) }
{
    let context = context?;
    if !is_oid(context) || !is_user_information(info) {
        return None;
    }
    if word == "uni" {
        uni_pdu(Some(context), info)
    } else {
        begin_pdu(Some(context), info)
    }
}

/// The message of this name but for its dialogue portion: both transaction identifiers are 00000001.
fn parts_of<'w>(word: &str, peer: &'w TransId, components: &'w [u8]) -> Option<MessageParts<'w>> {
    match word {
        "uni" => Some(MessageParts::Uni { components }),
        "begin" => Some(MessageParts::Begin {
            origin: 1,
            components,
        }),
        "continue" => Some(MessageParts::Continue {
            origin: 1,
            peer,
            components,
        }),
        "end" => Some(MessageParts::End { peer, components }),
        "abort" => Some(MessageParts::Abort { peer }),
        _ => None,
    }
}

/// The message of this name with this dialogue portion, if there is one.
fn frame_of<'w>(
    word: &str,
    peer: &TransId,
    dialogue: Option<&'w [u8]>,
    components: &'w [u8],
) -> Option<Frame<'w>>
    ensures { IfSome result (λ f. HasCause (message f)) }
{
    match word {
        "uni" => Some(Frame::Uni {
            dialogue,
            components,
        }),
        "begin" => Some(Frame::Begin {
            otid: TransId::of(1),
            dialogue,
            components,
        }),
        "continue" => Some(Frame::Continue {
            otid: TransId::of(1),
            dtid: peer.copied(),
            dialogue,
            components,
        }),
        "end" => Some(Frame::End {
            dtid: peer.copied(),
            dialogue,
            components,
        }),
        "abort" => Some(Frame::Abort {
            dtid: peer.copied(),
            reason: AbortPart::Nothing,
        }),
        _ => None,
    }
}

/// The octets of this message with this dialogue PDU, if there is one.
fn write_apart<'h>(
    heap: Heap<'h>,
    word: &str,
    pdu: &Option<DialoguePdu<'_>>,
    components: &[u8],
) -> Option<Result<Vec<u8, Heap<'h>>, PduFault>>
    requires { IfSome pdu.now (λ p. HasDiagnostic (pdu_value p)) }
{
    let peer = TransId::of(1);
    let Some(pdu) = pdu else {
        return Some(write_frame(heap, &frame_of(word, &peer, None, components)?));
    };
    match write_dialogue(heap, pdu) {
        Ok(portion) => {
            let frame = frame_of(word, &peer, Some(&portion), components)?;
            Some(write_frame(heap, &frame))
        }
        Err(fault) => Some(Err(fault)),
    }
}

/// Adds the octets of a message, where both write the same, or that it is too long.
fn add_message(
    alloc: Global,
    heap: Heap<'_>,
    word: &str,
    sending: &Sending<'_>,
    components: &[u8],
    told: &mut String,
) -> Option<Told>
    requires { IfSome sending.now.pdu (λ p. HasDiagnostic (pdu_value p) × (content_fault (pdu_value p) ≡ None)) }
{
    let spelled = sending.spelled(alloc);
    if matches!(&spelled, Err(PduFault::TooLong)) {
        add_line(told, "too long")?;
        return Some(Told::Small);
    }
    let Ok(written) = write_apart(heap, word, &sending.pdu, components)? else {
        return Some(Told::NoMemory);
    };
    if written.as_slice() != spelled.ok()?.as_slice() {
        return None;
    }
    add_octets(alloc, told, written.as_slice())
}

/// `uni CONTEXT INFO COMPONENTS`, `begin`, and `continue`, `end` and `abort`, which have no dialogue portion here.
fn send(alloc: Global, heap: Heap<'_>, words: &[Word<'_>], told: &mut String) -> Option<Told> {
    let word = text(words, 0);
    let peer = TransId::of(1);
    let sending = Sending {
        bearer: parts_of(word, &peer, info(words, 3))?,
        pdu: pdu_of(word, octets(words, 1), info(words, 2)),
    };
    add_message(alloc, heap, word, &sending, info(words, 3), told)
}

/// What a line tells of two calls.
pub(super) fn tell(
    alloc: Global,
    heap: Heap<'_>,
    words: &[Word<'_>],
    told: &mut String,
) -> Option<Told> {
    match text(words, 0) {
        "accept" => accept(alloc, heap, info(words, 1), told),
        "queue" => queue_invoke(alloc, heap, words, told),
        _ => send(alloc, heap, words, told),
    }
}

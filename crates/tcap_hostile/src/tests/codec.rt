//! A feed, the writers and the texts.

use super::answers::{add_line, add_value};
use super::subject::Told;
use super::words::{Word, code, info, number, octets, text};
use ber_core::{Feed, FeedFault, OutOfMemory, write_element, write_head, write_int};
use std::alloc::{Allocator, Global};
use std::str;
use tcap_component::{Component, Components, WriteFault, write_component};
use tcap_pdu::{DialoguePdu, PduFault, read_frame, write_dialogue, write_frame};
use tcap_text::{Shown, canon_text, check_text, show_text};

/// Adds octets: in hexadecimal, or how many they are where they are more than 200.
pub(super) fn add_octets(alloc: Global, told: &mut String, octets: &[u8]) -> Option<Told> {
    let length = octets.len();
    if length > 200 {
        write!(told, "  {length} octets\n").ok()?;
        return Some(Told::Large);
    }
    let hex = hex::encode(alloc, octets).ok()?;
    add_line(told, &hex)?;
    Some(Told::Large)
}

/// Adds the fault of a feed.
fn add_fault(told: &mut String, fault: FeedFault) -> Option<Told> {
    match fault {
        FeedFault::OutOfMemory => return Some(Told::NoMemory),
        FeedFault::Ber(fault) => {
            let number = fault as u8;
            write!(told, "  fault ber {number}\n").ok()?;
        }
        FeedFault::TooLong => add_line(told, "fault too long")?,
    }
    Some(Told::Small)
}

/// What a feed tells of a line: `push HEX`, `rest`, `fault`.
pub(super) fn push<A: Allocator + Copy>(
    alloc: Global,
    feed: &mut Feed<A>,
    words: &[Word<'_>],
    told: &mut String,
) -> Option<Told> {
    match text(words, 0) {
        "push" => match feed.push(info(words, 1)) {
            Ok(messages) => {
                for message in messages {
                    add_octets(alloc, told, message.as_slice())?;
                }
                Some(Told::Large)
            }
            Err(fault) => add_fault(told, fault),
        },
        "rest" => {
            add_value(told, &feed.rest_len())?;
            Some(Told::Small)
        }
        "fault" => match feed.fault() {
            Some(fault) => add_fault(told, fault),
            None => Some(Told::Small),
        },
        _ => None,
    }
}

/// Adds the lines of a text.
fn add_text<A: Allocator>(told: &mut String, shown: Result<Shown<A>, OutOfMemory>) -> Option<Told> {
    let Ok(shown) = shown else {
        return Some(Told::NoMemory);
    };
    for line in str::from_utf8(shown.text.as_slice()).ok()?.lines() {
        add_line(told, line)?;
    }
    Some(Told::Large)
}

/// Adds what a writer of `tcap_pdu` wrote.
fn add_written<A: Allocator>(
    alloc: Global,
    told: &mut String,
    written: Result<Vec<u8, A>, PduFault>,
) -> Option<Told> {
    match written {
        Ok(octets) => add_octets(alloc, told, octets.as_slice()),
        Err(PduFault::OutOfMemory) => Some(Told::NoMemory),
        Err(fault) => {
            let number = fault as u8;
            write!(told, "  fault {number}\n").ok()?;
            Some(Told::Small)
        }
    }
}

/// Adds what the writer of components wrote.
fn add_component<A: Allocator>(
    alloc: Global,
    told: &mut String,
    written: Result<Vec<u8, A>, WriteFault>,
) -> Option<Told> {
    match written {
        Ok(octets) => add_octets(alloc, told, octets.as_slice()),
        Err(WriteFault::OutOfMemory) => Some(Told::NoMemory),
        Err(fault) => {
            let number = fault.number();
            write!(told, "  fault {number}\n").ok()?;
            Some(Told::Small)
        }
    }
}

/// Adds what a writer of elements appended; where memory was refused, that has to be nothing.
fn add_appended<A: Allocator>(
    alloc: Global,
    told: &mut String,
    octets: &Vec<u8, A>,
    written: Result<(), OutOfMemory>,
) -> Option<Told> {
    match written {
        Ok(()) => add_octets(alloc, told, octets.as_slice()),
        Err(OutOfMemory) => octets.is_empty().then_some(Told::NoMemory),
    }
}

/// Adds a message, written again.
fn add_frame<A: Allocator + Copy>(
    alloc: Global,
    heap: A,
    bytes: &[u8],
    told: &mut String,
) -> Option<Told> {
    let frame = read_frame(bytes).ok()?;
    add_written(alloc, told, write_frame(heap, &frame))
}

/// Adds an AARQ of this context and information.
fn add_request<A: Allocator + Copy>(
    alloc: Global,
    heap: A,
    context: &[u8],
    info: &[u8],
    told: &mut String,
) -> Option<Told> {
    let pdu = DialoguePdu::Aarq {
        version1: true,
        context,
        info,
    };
    add_written(alloc, told, write_dialogue(heap, &pdu))
}

/// Adds the first of these components, written again.
fn add_component_again<A: Allocator + Copy>(
    alloc: Global,
    heap: A,
    bytes: &[u8],
    told: &mut String,
) -> Option<Told> {
    let component = Components::new(bytes).next()?.ok()?;
    add_component(alloc, told, write_component(heap, &component))
}

/// Adds an Invoke: `invoke ID CODE PARAM`.
fn add_invoke<A: Allocator + Copy>(
    alloc: Global,
    heap: A,
    words: &[Word<'_>],
    told: &mut String,
) -> Option<Told> {
    let component = Component::Invoke {
        id: number(words, 1)?,
        linked: None,
        code: code(words, 2)?,
        parameter: octets(words, 3),
    };
    add_component(alloc, told, write_component(heap, &component))
}

/// What is written again: `frame HEX` a message, `component HEX` a component; `aarq CONTEXT INFO`,
/// `invoke ID CODE PARAM` what is written new.
fn write<A: Allocator + Copy>(
    alloc: Global,
    heap: A,
    words: &[Word<'_>],
    told: &mut String,
) -> Option<Told> {
    match text(words, 0) {
        "frame" => add_frame(alloc, heap, info(words, 1), told),
        "aarq" => add_request(alloc, heap, info(words, 1), info(words, 2), told),
        "component" => add_component_again(alloc, heap, info(words, 1), told),
        "invoke" => add_invoke(alloc, heap, words, told),
        _ => None,
    }
}

/// What is appended: `head` the head of an element 6C of 200 octets, `element` an element 04 of the octet AA,
/// `longhead` and `longelement` those of the tags 7F22 and 5F22, the head of 300 octets, `int N` an integer 02.
fn append<A: Allocator + Copy>(
    alloc: Global,
    heap: A,
    words: &[Word<'_>],
    told: &mut String,
) -> Option<Told> {
    let mut out = Vec::new(heap);
    let written = match text(words, 0) {
        "head" => write_head(&mut out, &[0x6c], 200),
        "element" => write_element(&mut out, &[0x04], &[0xaa]),
        "longhead" => write_head(&mut out, &[0x7f, 0x22], 300),
        "longelement" => write_element(&mut out, &[0x5f, 0x22], &[0xaa]),
        "int" => write_int(&mut out, 0x02, number(words, 1)?),
        _ => return None,
    };
    add_appended(alloc, told, &out, written)
}

/// What a line writes or shows: `show HEX`, `check HEX`, `canon HEX`, and those of `write` and `append`.
pub(super) fn tell<A: Allocator + Copy>(
    alloc: Global,
    heap: A,
    words: &[Word<'_>],
    told: &mut String,
) -> Option<Told> {
    let bytes = info(words, 1);
    match text(words, 0) {
        "show" => add_text(told, show_text(heap, bytes)),
        "check" => add_text(told, check_text(heap, bytes)),
        "canon" => add_text(told, canon_text(heap, bytes)),
        "head" | "element" | "longhead" | "longelement" | "int" => append(alloc, heap, words, told),
        _ => write(alloc, heap, words, told),
    }
}

//! Damaged messages: each prefix of each message, and each octet of it set to each value.

use super::engine::new_engine;
use super::vectors::VECTORS;
use super::words::address_of;
use ber_core::{Feed, FeedFault, read_alone};
use std::alloc::Global;
use std::test::Fail;
use tcap_component::{Code, Components};
use tcap_engine::{Address, Engine, Output, State};
use tcap_invocation::Class;
use tcap_pdu::{read_dialogue, read_frame};
use tcap_text::{canon_text, check_text, show_text};

/// The verdicts on a message, but for that on a component, behind which its number stands.
const VERDICTS: &str =
    "good\nfault unknown type\nfault badly formatted\nfault incorrect\nfault dialogue\n";

/// Whether this is one of the lines that a verdict has.
fn is_verdict(text: &[u8]) -> bool {
    let Some((b'\n', line)) = text.split_last() else {
        return false;
    };
    line.starts_with(b"fault component ")
        || VERDICTS.lines().any(|verdict| verdict.as_bytes() == line)
}

/// Whether the canonical form of these octets, in hexadecimal, is its own.
fn is_canonical(alloc: Global, text: &[u8]) -> Option<bool> {
    let (_, hex) = text.split_last()?;
    let octets = hex::decode(alloc, hex).ok()?;
    Some(canon_text(alloc, octets.as_slice()).ok()?.text.as_slice() == text)
}

/// Whether these octets have a canonical form, or else this verdict in its place.
fn is_rewritten(alloc: Global, octets: &[u8], verdict: &[u8], is_good: bool) -> Option<bool> {
    let rewritten = canon_text(alloc, octets).ok()?;
    if rewritten.good != is_good {
        return Some(false);
    }
    if is_good {
        is_canonical(alloc, rewritten.text.as_slice())
    } else {
        Some(rewritten.text.as_slice() == verdict)
    }
}

/// Whether the three texts of these octets agree on this verdict.
fn is_agreed(alloc: Global, octets: &[u8], verdict: &[u8], is_good: bool) -> Option<bool> {
    let is_shown = show_text(alloc, octets).ok()?.good == is_good;
    let is_rewritten = is_rewritten(alloc, octets, verdict, is_good)?;
    let is_named = (verdict == b"good\n".as_slice()) == is_good;
    Some(is_shown & is_rewritten & is_named & is_verdict(verdict))
}

/// Whether the three texts of these octets agree.
fn is_judged(alloc: Global, octets: &[u8]) -> Option<bool> {
    let checked = check_text(alloc, octets).ok()?;
    is_agreed(alloc, octets, checked.text.as_slice(), checked.good)
}

/// How many messages a feed gives for a piece; a fault that it answers is the one that stands.
fn given(feed: &mut Feed, piece: &[u8]) -> Option<usize> {
    match feed.push(piece) {
        Ok(messages) => Some(messages.len()),
        Err(FeedFault::OutOfMemory) => None,
        Err(fault) => (feed.fault() == Some(fault)).then_some(0),
    }
}

/// Whether a feed cuts these octets alike, given one by one or at once.
fn is_cut(alloc: Global, octets: &[u8]) -> Option<bool> {
    let mut whole = Feed::new(alloc);
    let at_once = given(&mut whole, octets)?;
    let mut feed = Feed::new(alloc);
    let mut count = 0usize;
    for octet in octets {
        count = count.saturating_add(given(&mut feed, &[*octet])?);
    }
    Some(count == at_once && feed.fault() == whole.fault() && feed.rest_len() == whole.rest_len())
}

/// Whether a message that is sent can be read, with its dialogue portion and its components.
fn reads_back(octets: &[u8]) -> bool {
    let Ok(frame) = read_frame(octets) else {
        return false;
    };
    let is_dialogue = match frame.dialogue() {
        Some(content) => read_dialogue(content).is_ok(),
        None => true,
    };
    is_dialogue && Components::new(frame.components()).all(|item| item.is_ok())
}

/// How many outputs send a message, each of which can be read and goes to this address; nothing where one doesn't.
fn sends(outputs: &[Output<'_>], peer: &Address) -> Option<u64> {
    let mut count = 0u64;
    for output in outputs {
        if let Output::Send { to, bytes } = output {
            count = count.saturating_add(1);
            if to != peer || !reads_back(bytes.as_slice()) {
                return None;
            }
        }
    }
    Some(count)
}

/// How many outputs close the invocation 1; nothing where one closes another.
fn closings(outputs: &[Output<'_>]) -> Option<u64> {
    let mut count = 0u64;
    for output in outputs {
        match output {
            Output::ResultLast { number, .. }
            | Output::ErrorBack { number, .. }
            | Output::Rejected { number, .. }
            | Output::Lapsed { number, .. }
            | Output::Ended { number, .. } => {
                count = count.saturating_add(1);
                if *number != 1 {
                    return None;
                }
            }
            _ => {}
        }
    }
    Some(count)
}

/// Whether what a dialogue has to say goes out to this address, where it may speak.
fn speaks(engine: &mut Engine, d: u32, peer: &Address) -> Option<bool> {
    match engine.state_of(d) {
        Some(State::Active | State::Received) => {
            let told = engine.go_on(d, None, &[]).ok()?;
            Some(sends(told.as_slice(), peer)? == 1)
        }
        Some(State::Fresh | State::Sent) | None => Some(true),
    }
}

/// Asks an engine for an Invoke in its first dialogue, whose deadline is 1,000.
fn ask_invoke(engine: &mut Engine) -> Option<u64> {
    let code = Code::Local(10);
    engine.invoke(1, 1, Class::One, code, None, None, 1000).ok()
}

/// Has an engine send the Begin of its first dialogue to this address.
fn send_begin(engine: &mut Engine, to: &Address) -> Option<()> {
    engine.begin(1, to, None, &[]).ok()?;
    Some(())
}

/// Has an engine send an Invoke.
fn send_invoke(engine: &mut Engine) -> Option<()> {
    engine.new_dialogue().ok()?;
    ask_invoke(engine)?;
    let to = address_of(0x0a);
    send_begin(engine, &to)
}

/// Whether what the engine told of so many octets from this address is within its bounds: at most one message
/// goes out, and there; and a second dialogue stands where a Begin is told. The first is over only where its
/// invocation was closed.
fn is_bounded(engine: &Engine, from: &Address, octets: usize, told: &[Output<'_>]) -> Option<bool> {
    let is_born = told
        .iter()
        .any(|output| matches!(output, Output::Begin { .. }));
    let is_closed = closings(told)? > 0;
    let has_sent = sends(told, from)? <= 1;
    let is_short = told.len() <= octets.saturating_add(2);
    let has_second = engine.state_of(2).is_some();
    let has_third = engine.state_of(3).is_some();
    let is_over = engine.state_of(1).is_none();
    Some(has_sent & is_short & (has_second == is_born) & !has_third & (is_closed | !is_over))
}

/// Whether the invocation 1 of an engine, of which this was told, has one closing indication once its deadline
/// has come. By then no dialogue stands, since none may stay idle for so long.
fn is_closed_once(engine: &mut Engine, told: &[Output<'_>]) -> Option<bool> {
    let lapsed = engine.advance(1000).ok()?;
    let closed = closings(told)?.saturating_add(closings(lapsed.as_slice())?);
    let is_over = engine.state_of(1).is_none() & engine.state_of(2).is_none();
    Some((closed == 1) & is_over)
}

/// Whether what an engine told of so many octets from this address is within its bounds, and so is what it says
/// and tells later.
fn goes_on_well(
    engine: &mut Engine,
    from: &Address,
    octets: usize,
    told: &[Output<'_>],
) -> Option<bool> {
    let in_bounds = is_bounded(engine, from, octets, told)?;
    let first_speaks = speaks(engine, 1, from)?;
    let second_speaks = speaks(engine, 2, from)?;
    Some(in_bounds & first_speaks & second_speaks & is_closed_once(engine, told)?)
}

/// Whether an engine that sent an Invoke takes these octets from this address within its bounds.
fn takes(engine: &mut Engine, from: &Address, octets: &[u8]) -> Option<bool> {
    send_invoke(engine)?;
    let told = engine.receive(from, octets).ok()?;
    goes_on_well(engine, from, octets.len(), told.as_slice())
}

/// Whether an engine that waits for a result, and whose dialogues may stay idle for 500 milliseconds, takes these
/// octets within its bounds. They come from an address of the same octets, the first 255 of them, and all that is
/// sent, then and later, goes there and can be read.
fn is_heard(alloc: Global, octets: &[u8]) -> Option<bool> {
    let from = Address::new(octets.get(..octets.len().min(255))?)?;
    let mut engine = new_engine(alloc, "idle");
    takes(&mut engine, &from, octets)
}

/// Whether these octets do no harm, whatever they are given to.
fn is_harmless(alloc: Global, octets: &[u8]) -> bool {
    let judged = is_judged(alloc, octets).unwrap_or(false);
    let cut = is_cut(alloc, octets).unwrap_or(false);
    let heard = is_heard(alloc, octets).unwrap_or(false);
    judged & cut & heard
}

/// Whether these octets are badly formatted.
fn is_badly_formatted(alloc: Global, octets: &[u8]) -> Option<bool> {
    let checked = check_text(alloc, octets).ok()?;
    Some(checked.text.as_slice() == b"fault badly formatted\n".as_slice())
}

/// How many fronts a message has that aren't all of it; nothing where one does harm, or where the message
/// is one element and one isn't badly formatted.
fn fronts(alloc: Global, message: &[u8]) -> Option<u64> {
    let is_element = read_alone(message).is_some();
    let mut count = 0u64;
    for length in 0..message.len() {
        let front = message.get(..length)?;
        let is_bad = is_badly_formatted(alloc, front)?;
        if (is_element & !is_bad) | !is_harmless(alloc, front) {
            return None;
        }
        count = count.saturating_add(1);
    }
    Some(count)
}

/// How many messages come of one by setting an octet of this copy of it; nothing where one does harm.
fn settings_in(alloc: Global, message: &[u8], damaged: &mut [u8]) -> Option<u64> {
    let mut count = 0u64;
    for (place, octet) in message.iter().enumerate() {
        for value in 0..=255u8 {
            *damaged.get_mut(place)? = value;
            if !is_harmless(alloc, damaged) {
                return None;
            }
            count = count.saturating_add(1);
        }
        *damaged.get_mut(place)? = *octet;
    }
    Some(count)
}

/// How many messages come of one by setting an octet of it; nothing where one does harm.
fn settings(alloc: Global, message: &[u8]) -> Option<u64> {
    let mut damaged = message.to_vec(alloc).ok()?;
    settings_in(alloc, message, damaged.as_mut_slice())
}

#[test]
fn damaged_messages(rt: HostRuntime) -> Result<(), Fail> {
    let alloc = rt.alloc();
    let mut total = 0u64;
    for hex in VECTORS.lines() {
        let message = hex::decode(alloc, hex)?;
        let front_count = fronts(alloc, message.as_slice()).ok_or(hex)?;
        let set_count = settings(alloc, message.as_slice()).ok_or(hex)?;
        total = total.saturating_add(front_count).saturating_add(set_count);
    }
    // The messages have 1,739 octets, and each has 256 values, and begins a front.
    assert!(rt; total == 1_739 * 257, "{total} messages");
    Ok(())
}

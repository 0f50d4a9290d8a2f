//! Addresses of each length, of octets drawn by lot: where what is sent goes.

use super::engine::new_engine;
use std::alloc::Global;
use std::test::Fail;
use tcap_component::Code;
use tcap_engine::{AbortWhy, Address, Ending, Engine, Fault, Output};
use tcap_invocation::Class;

/// A Continue to dialogue 1, a faulty one, one to a dialogue that doesn't stand, and a Begin.
const CONTINUE: &str = "650c480400000005490400000001";

const FAULTY: &str = "650d4804000000064904000000016c";

const STRAY: &str = "650c4804000000094904000000ff";

const BEGIN: &str = "6206480400000007";

/// The next of a row of numbers that look drawn by lot.
fn next_seed(seed: u64) -> u64 {
    seed.wrapping_mul(6_364_136_223_846_793_005)
        .wrapping_add(1_442_695_040_888_963_407)
}

/// An address of so many octets, drawn by lot; nothing where they are too many.
fn drawn(alloc: Global, seed: &mut u64, length: usize) -> Option<Address> {
    let mut octets = Vec::new(alloc);
    for _ in 0..length {
        *seed = next_seed(*seed);
        let [octet, ..] = seed.to_be_bytes();
        octets.push(octet).ok()?;
    }
    let address = Address::new(octets.as_slice())?;
    (address.octets() == octets.as_slice()).then_some(address)
}

/// Whether the first of some outputs, and no other, is a message to this address.
fn goes_to(outputs: &[Output<'_>], address: &Address) -> bool {
    let count = outputs
        .iter()
        .filter(|output| matches!(output, Output::Send { .. }))
        .count();
    match outputs.first() {
        Some(Output::Send { to, .. }) => count == 1 && to.octets() == address.octets(),
        _ => false,
    }
}

/// Whether what is told of a request is first, and no other, a message to this address.
fn is_to(told: Result<Vec<Output<'_>>, Fault>, address: &Address) -> Option<bool> {
    Some(goes_to(told.ok()?.as_slice(), address))
}

/// Whether what comes from an address is answered to it. Nothing where memory runs out.
fn answers(alloc: Global, engine: &mut Engine, from: &Address, hex: &str) -> Option<bool> {
    let bytes = hex::decode(alloc, hex).ok()?;
    let told = engine.receive(from, bytes.as_slice()).ok()?;
    Some(goes_to(told.as_slice(), from))
}

/// Whether the dialogue 1 answers nothing to a Continue from one address, and goes on to another.
fn goes_on_to(alloc: Global, engine: &mut Engine, from: &Address, to: &Address) -> Option<bool> {
    let hears = !answers(alloc, engine, from, CONTINUE)?;
    Some(hears & is_to(engine.go_on(1, None, &[]), to)?)
}

/// Whether a dialogue that is begun sends to its destination first, then to the sender of the first Continue,
/// whoever else it hears.
fn learns_once(
    alloc: Global,
    engine: &mut Engine,
    to: &Address,
    from: &Address,
    other: &Address,
) -> Option<bool> {
    engine.new_dialogue().ok()?;
    let begins = is_to(engine.begin(1, to, None, &[]), to)?;
    let learns = goes_on_to(alloc, engine, from, from)?;
    let keeps = goes_on_to(alloc, engine, other, from)?;
    let strays = answers(alloc, engine, other, STRAY)?;
    Some(begins & learns & keeps & strays)
}

/// Whether that dialogue ends with a message to the peer's address, or else to the sender of the faulty message
/// that ends it.
fn ends(
    alloc: Global,
    engine: &mut Engine,
    from: &Address,
    other: &Address,
    by_user: bool,
) -> Option<bool> {
    if by_user {
        return is_to(engine.u_abort(1, AbortWhy::User, &[]), from);
    }
    answers(alloc, engine, other, FAULTY)
}

/// Whether a Unidirectional with an Invoke, in the new dialogue 3, goes to its destination.
fn is_told(engine: &mut Engine, to: &Address) -> Option<bool> {
    engine.new_dialogue().ok()?;
    engine
        .invoke(3, 1, Class::Four, Code::Local(7), None, None, 1000)
        .ok()?;
    is_to(engine.uni(3, to, None, &[]), to)
}

/// Whether a dialogue that the peer begins sends to the sender of the Begin, and a Unidirectional goes to
/// its own destination.
fn is_born(alloc: Global, engine: &mut Engine, from: &Address, to: &Address) -> Option<bool> {
    let hears = !answers(alloc, engine, from, BEGIN)?;
    let goes_on = is_to(engine.go_on(2, None, &[]), from)?;
    let tells = is_told(engine, to)?;
    let ends = is_to(engine.finish(2, Ending::Basic, None, &[]), from)?;
    Some(hears & goes_on & tells & ends)
}

/// Whether an engine sends where it has to, with these addresses.
fn is_sent(
    alloc: Global,
    engine: &mut Engine,
    to: &Address,
    from: &Address,
    other: &Address,
    by_user: bool,
) -> Option<bool> {
    let learned = learns_once(alloc, engine, to, from, other)?;
    let born = is_born(alloc, engine, other, to)?;
    let ended = ends(alloc, engine, from, other, by_user)?;
    Some(learned & born & ended)
}

/// Whether an engine sends where it has to, with addresses of these lengths.
fn is_carried(alloc: Global, seed: &mut u64, lengths: [usize; 3], by_user: bool) -> Option<bool> {
    let [to, from, other] = lengths;
    let to = drawn(alloc, seed, to)?;
    let from = drawn(alloc, seed, from)?;
    let other = drawn(alloc, seed, other)?;
    let mut engine = new_engine(alloc, "");
    is_sent(alloc, &mut engine, &to, &from, &other, by_user)
}

#[test]
fn addresses_drawn_by_lot(rt: HostRuntime) -> Result<(), Fail> {
    let alloc = rt.alloc();
    let mut seed = 1u64;
    for length in 0..256usize {
        for lengths in [
            [length, 255usize.saturating_sub(length), 7],
            [length, length, length],
            [255, length, 0],
            [0, 1, length],
        ] {
            for by_user in [false, true] {
                let carried = is_carried(alloc, &mut seed, lengths, by_user).unwrap_or(false);
                assert!(rt; carried, "at {lengths:?}");
            }
        }
    }
    Ok(())
}

//! How often an engine asks for memory, by the length of the address that a dialogue keeps: up to 30 octets stand in
//! the dialogue, and more take a block.

use super::subject::Heap;
use refusing::Refusing;
use std::test::Fail;
use tcap_engine::{Address, Engine, Limits};

/// How an address comes.
#[derive(Clone, Copy, Debug)]
enum Way {
    /// A dialogue is begun to it.
    Begun,
    /// A Begin comes from it.
    Received,
    /// The first Continue comes from it, to a dialogue that was begun to another.
    First,
    /// The second Continue comes from it.
    Second,
}

/// A Begin.
const BEGIN: [u8; 8] = [0x62, 0x06, 0x48, 0x04, 0, 0, 0, 1];

/// A Continue to dialogue 1.
const CONTINUE: [u8; 14] = [0x65, 0x0c, 0x48, 0x04, 0, 0, 0, 1, 0x49, 0x04, 0, 0, 0, 1];

/// Begins dialogue 1 to an address.
fn begin(engine: &mut Engine<Heap<'_>>, to: &Address) -> Option<()> {
    let dialogue = engine.new_dialogue().ok()?;
    engine.begin(dialogue, to, None, &[]).ok()?;
    Some(())
}

/// Receives a message from an address.
fn receive(engine: &mut Engine<Heap<'_>>, from: &Address, message: &[u8]) -> Option<()> {
    engine.receive(from, message).ok()?;
    Some(())
}

/// What was before.
fn prepare(engine: &mut Engine<Heap<'_>>, way: Way) -> Option<()> {
    let none = Address::empty();
    match way {
        Way::Begun | Way::Received => Some(()),
        Way::First => begin(engine, &none),
        Way::Second => {
            begin(engine, &none)?;
            receive(engine, &none, &CONTINUE)
        }
    }
}

/// What comes.
fn come(engine: &mut Engine<Heap<'_>>, way: Way, address: &Address) -> Option<()> {
    match way {
        Way::Begun => begin(engine, address),
        Way::Received => receive(engine, address, &BEGIN),
        Way::First | Way::Second => receive(engine, address, &CONTINUE),
    }
}

/// How many growths there are where an address of so many octets comes.
fn growths(heap: Heap<'_>, way: Way, octets: usize) -> Option<u64> {
    let all = [7; 255];
    let address = Address::new(all.get(..octets)?)?;
    let limits = Limits {
        max_dialogues: 32,
        reject_ms: 1000,
        idle_ms: 0,
    };
    for number in 1..200u64 {
        heap.refuse(0);
        let mut engine = Engine::new(heap, limits);
        prepare(&mut engine, way)?;
        heap.refuse(number);
        let done = come(&mut engine, way, &address);
        if heap.is_armed() {
            heap.refuse(0);
            return done.map(|_| number - 1);
        }
    }
    None
}

/// How an address comes, how many octets it has, and how many growths more there are than where it has none.
const ROWS: [(Way, usize, u64); 10] = [
    (Way::Begun, 30, 0),
    (Way::Begun, 31, 1),
    (Way::Begun, 255, 1),
    (Way::Received, 30, 0),
    (Way::Received, 31, 1),
    (Way::Received, 255, 1),
    (Way::First, 30, 0),
    (Way::First, 31, 1),
    (Way::First, 255, 1),
    (Way::Second, 255, 0),
];

#[test]
fn address_takes_memory_above_thirty_octets(rt: HostRuntime) -> Result<(), Fail> {
    let heap = Refusing::new(rt.alloc());
    for (way, octets, more) in ROWS {
        let none = growths(&heap, way, 0).ok_or("refused")?;
        let found = growths(&heap, way, octets);
        assert!(rt;
            found == Some(none.saturating_add(more)),
            "{way:?} {octets}: {found:?} of {none}"
        );
    }
    Ok(())
}

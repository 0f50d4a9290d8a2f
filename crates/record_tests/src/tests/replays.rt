//! Logs that are replayed, whole, damaged and with little memory.

use super::records::octets_of;
use refusing::Refusing;
use std::alloc::Global;
use std::test::Fail;
use tcap_engine::{Engine, Event, Limits, State};
use tcap_record::{ReplayFault, WriteFault, replay, write};

/// A new dialogue, an Invoke and a Begin on it, a moment.
const LOG: &str =
    "01 01 01 02 00000001 01 01 00 00000038 00 00 0000000000001388 01 09 00000001 01 42 00 00000000 01 0e 0000000000000bb8";

/// The limits of an engine with few dialogues.
const LIMITS: Limits = Limits {
    max_dialogues: 4,
    reject_ms: 1000,
    idle_ms: 0,
};

#[test]
fn a_log(rt: HostRuntime) -> Result<(), Fail> {
    let log = octets_of(rt.alloc(), LOG).ok_or("hexadecimal")?;
    let mut engine = Engine::new(rt.alloc(), LIMITS);
    assert_eq!(rt; replay(&mut engine, log.as_slice()), Ok(4));
    assert_eq!(rt; engine.now(), 3000);
    assert_eq!(rt; engine.state_of(1), Some(State::Sent));
    assert_eq!(rt; engine.next_timer(), Some(5000));
    Ok(())
}

#[test]
fn a_damaged_log(rt: HostRuntime) -> Result<(), Fail> {
    let log = octets_of(rt.alloc(), "01 01 01 0f 01 01").ok_or("hexadecimal")?;
    let mut engine = Engine::new(rt.alloc(), LIMITS);
    assert_eq!(rt;
        replay(&mut engine, log.as_slice()),
        Err(ReplayFault::Damaged { done: 1, place: 3 })
    );
    assert_eq!(rt; engine.state_of(1), Some(State::Fresh));
    Ok(())
}

#[test]
fn refused_growths(rt: HostRuntime) -> Result<(), Fail> {
    let heap = Refusing::new(rt.alloc());
    let mut octets = Vec::<u8, &Refusing<Global>>::new(&heap);
    heap.refuse(1);
    assert_eq!(rt;
        write(&Event::NewDialogue, &mut octets),
        Err(WriteFault::OutOfMemory)
    );
    assert!(rt; octets.is_empty());
    assert_eq!(rt; write(&Event::NewDialogue, &mut octets), Ok(()));
    let mut engine = Engine::new(&heap, LIMITS);
    heap.refuse(1);
    assert_eq!(rt;
        replay(&mut engine, octets.as_slice()),
        Err(ReplayFault::OutOfMemory { done: 0 })
    );
    assert_eq!(rt; replay(&mut engine, octets.as_slice()), Ok(1));
    Ok(())
}

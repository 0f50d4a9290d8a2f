//! A Begin for which memory is refused leaves to other dialogues what it was lent.

use super::spares::{SMALL, hear, queued, two_over};
use super::subject::Heap;
use refusing::Refusing;
use std::test::Fail;
use tcap_engine::{Engine, Limits};

/// A Begin with eight Invokes: the room that a small queue leaves doesn't hold their Rejects, and grows.
const EIGHT: [u8; 74] = [
    0x62, 0x48, 0x48, 0x04, 0, 0, 0, 1, 0x6c, 0x40, 0xa1, 0x06, 0x02, 0x01, 1, 0x02, 0x01, 2, 0xa1,
    0x06, 0x02, 0x01, 2, 0x02, 0x01, 2, 0xa1, 0x06, 0x02, 0x01, 3, 0x02, 0x01, 2, 0xa1, 0x06, 0x02,
    0x01, 4, 0x02, 0x01, 2, 0xa1, 0x06, 0x02, 0x01, 5, 0x02, 0x01, 2, 0xa1, 0x06, 0x02, 0x01, 6,
    0x02, 0x01, 2, 0xa1, 0x06, 0x02, 0x01, 7, 0x02, 0x01, 2, 0xa1, 0x06, 0x02, 0x01, 8, 0x02, 0x01,
    2,
];

/// How many growths a new dialogue has with a small Invoke, where one such was over and a Begin was refused at this
/// growth.
fn growths_after(heap: Heap<'_>, refused: u64) -> Option<u64> {
    let limits = Limits {
        max_dialogues: 32,
        reject_ms: 1000,
        idle_ms: 0,
    };
    for number in 1..20u64 {
        heap.refuse(0);
        let mut engine = Engine::new(heap, limits);
        two_over(&mut engine, SMALL)?;
        heap.refuse(refused);
        if hear(&mut engine, &EIGHT).is_some() {
            return None;
        }
        heap.refuse(number);
        let done = queued(&mut engine, SMALL);
        if heap.is_armed() {
            heap.refuse(0);
            return done.map(|_| number - 1);
        }
    }
    None
}

#[test]
fn refused_begin_leaves_what_it_was_lent(rt: HostRuntime) -> Result<(), Fail> {
    let heap = Refusing::new(rt.alloc());
    // Its outputs, the octets of its Rejects, their places.
    for refused in 1..4u64 {
        assert_eq!(rt; growths_after(&heap, refused), Some(0));
    }
    Ok(())
}

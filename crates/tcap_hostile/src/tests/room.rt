//! How often a list of invocations asks for memory, where answers come while others are Queued, and how much room
//! it tells.

use super::subject::Heap;
use refusing::Refusing;
use std::test::Fail;
use tcap_invocation::{Class, Invocations};

/// So many invocations Sent, and so many Queued behind them.
#[derive(Clone, Copy)]
struct Load {
    sent: u8,
    queued: u8,
}

/// Takes in, Queued, the invocations from this one to before that one, by the identifiers of their numbers.
fn add(list: &mut Invocations<Heap<'_>>, from: u8, to: u8) {
    for number in from..to {
        let number = number as u64;
        if list.is_above_all(number) {
            let id = number.to_be_bytes()[7].cast_signed();
            let _ = list.add(id, number, Class::One, 1000);
        }
    }
}

/// How many growths there are while in turn the first Sent one gets its result, after which its identifier
/// waits for a Reject, and one more is Queued.
fn growths(heap: Heap<'_>, load: Load) -> Option<u64> {
    let Load { sent, queued } = load;
    let all = sent.saturating_add(queued);
    for number in 1..100u64 {
        heap.refuse(0);
        let mut list = Invocations::new(heap, 1000);
        add(&mut list, 0, sent);
        list.sent(0);
        add(&mut list, sent, all);
        heap.refuse(number);
        for turn in 0..sent {
            let _ = list.on_result(turn.cast_signed(), true, 1);
            let next = all.saturating_add(turn);
            add(&mut list, next, next.saturating_add(1));
        }
        if heap.is_armed() {
            return Some(number - 1);
        }
    }
    None
}

/// The ring of the timers doubles once, which takes one block, and the map once, which takes four.
const GROWTHS: u64 = 5;

const LOADS: [Load; 2] = [
    Load {
        sent: 40,
        queued: 17,
    },
    Load {
        sent: 60,
        queued: 53,
    },
];

#[test]
fn room_doubles_while_invocations_are_queued(rt: HostRuntime) -> Result<(), Fail> {
    let heap = Refusing::new(rt.alloc());
    for load in LOADS {
        assert_eq!(rt; growths(&heap, load), Some(GROWTHS));
    }
    Ok(())
}

#[test]
fn capacity_is_what_the_list_has_room_for(rt: HostRuntime) -> Result<(), Fail> {
    let heap = Refusing::new(rt.alloc());
    let mut list = Invocations::new(&heap, 1000);
    assert_eq!(rt; list.capacity(), 0);
    add(&mut list, 0, 200);
    let room = list.capacity();
    assert!(rt; room >= 200);
    list.renew(1000);
    assert_eq!(rt; list.capacity(), room);
    heap.refuse(1);
    add(&mut list, 0, 200);
    assert!(rt; heap.is_armed());
    Ok(())
}

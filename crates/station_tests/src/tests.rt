//! When a station asks for memory: what waits is messages of one octet that are dropped.

use refusing::Refusing;
use std::alloc::Global;
use std::test::Fail;
use tcap_engine::{Address, Limits};
use tcap_station::Station;

/// The memory of a station.
type Heap<'h> = &'h Refusing<Global>;

/// A station at which nothing waits.
fn station(heap: Heap<'_>) -> Station<Heap<'_>> {
    let limits = Limits {
        max_dialogues: 4,
        reject_ms: 0,
        idle_ms: 0,
    };
    Station::resume(heap, limits, 65_535, 1, 1)
}

/// So many messages are received; whether memory was there for all.
fn receive(station: &mut Station<Heap<'_>>, count: u32) -> bool {
    for _ in 0..count {
        if station.receive(&Address::empty(), &[0]).is_err() {
            return false;
        }
    }
    true
}

/// Takes so many outputs at most; how many there were.
fn take(station: &mut Station<Heap<'_>>, count: u32) -> u32 {
    let mut taken = 0u32;
    for _ in 0..count {
        if !station.remove_front() {
            return taken;
        }
        taken = taken.saturating_add(1);
    }
    taken
}

/// Whether a station at which so many messages have come, and gone, takes no memory for as many more.
fn keeps_room(alloc: Global, count: u32) -> bool {
    let heap = Refusing::new(alloc);
    let mut station = station(&heap);
    // Each of the two outboxes is filled once.
    for _ in 0..2 {
        if !receive(&mut station, count) || take(&mut station, count) != count {
            return false;
        }
    }
    heap.refuse(1);
    receive(&mut station, count) && heap.is_armed()
}

#[test]
fn room_for_few_stays_and_for_many_goes(rt: HostRuntime) -> Result<(), Fail> {
    for (count, keeps) in [
        (1, true),
        (5, true),
        (64, true),
        (65, false),
        (1_000, false),
    ] {
        assert_eq!(rt; keeps_room(rt.alloc(), count), keeps, "{count} messages");
    }
    Ok(())
}

#[test]
fn what_waits_on_and_on_takes_no_more(rt: HostRuntime) -> Result<(), Fail> {
    let heap = Refusing::new(rt.alloc());
    let mut station = station(&heap);
    assert!(rt; receive(&mut station, 40));
    for number in 0..5_000u32 {
        // Once it has gone round.
        if number == 200 {
            heap.refuse(1);
        }
        assert!(rt; receive(&mut station, 1) && take(&mut station, 1) == 1);
    }
    assert!(rt; heap.is_armed());
    assert_eq!(rt; take(&mut station, 1_000), 40);
    Ok(())
}

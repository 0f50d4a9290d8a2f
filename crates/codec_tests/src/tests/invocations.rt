//! All 256 identifiers of a dialogue's invocations in use at once, and many that wait for a Reject.
use std::alloc::Allocator;
use std::test::Fail;
use tcap_invocation::{AddFault, Class, Invocations};

/// An invocation of class 1 is taken in, where its number is above all.
fn add<A: Allocator + Copy>(
    list: &mut Invocations<A>,
    id: i8,
    number: u64,
    timeout: u64,
) -> Option<Result<(), AddFault>> {
    if !list.is_above_all(number) {
        return None;
    }
    Some(list.add(id, number, Class::One, timeout))
}

/// Whether an identifier is taken in, and then no second time.
fn is_taken_once(list: &mut Invocations, id: i8, number: u64) -> bool {
    add(list, id, number, number) == Some(Ok(()))
        && add(list, id, u64::MAX, 1) == Some(Err(AddFault::InUse))
}

/// Whether all but one are due a moment before the last deadline, and all at it; and all are open.
fn are_all_due(list: &mut Invocations) -> bool {
    list.sent(0);
    list.due_count(255) == 255 && list.due_count(256) == 256 && list.open_count() == 256
}

#[test]
fn every_identifier_in_use(rt: HostRuntime) -> Result<(), Fail> {
    let mut list = Invocations::new(rt.alloc(), 0);
    let mut number = 0u64;
    for id in i8::MIN..=i8::MAX {
        number = number.saturating_add(1);
        assert!(rt; is_taken_once(&mut list, id, number), "{id}");
    }
    assert!(rt; are_all_due(&mut list));
    Ok(())
}

/// Whether of twenty whose results come a moment apart just those are free whose wait is over at this one.
fn are_freed_by(list: &mut Invocations, moment: u64) -> bool {
    list.sent(0);
    for id in 0..20i8 {
        list.on_result(id, true, u64::from(id.unsigned_abs()));
    }
    list.free_due(moment);
    for id in 0..20i8 {
        if list.in_use(id) != (moment < u64::from(id.unsigned_abs())) {
            return false;
        }
    }
    true
}

#[test]
fn waits_that_end(rt: HostRuntime) -> Result<(), Fail> {
    for moment in [0u64, 3, 4, 5, 12, 19] {
        let mut list = Invocations::new(rt.alloc(), 0);
        let mut number = 0u64;
        for id in 0..20i8 {
            number = number.saturating_add(1);
            assert!(rt; add(&mut list, id, number, 100) == Some(Ok(())), "{id}");
        }
        assert!(rt; are_freed_by(&mut list, moment), "{moment}");
    }
    Ok(())
}

//! `Invocations` beside the plain list, over calls drawn by lot: each answer, and after each call all that
//! can be asked, has to be the same.

use super::draws::{Call, Draws, Request, id_at};
use super::plain::Plain;
use std::alloc::Global;
use std::test::Fail;
use tcap_invocation::{AddFault, Class, Invocations, MAX_MOMENT, Verdict};

/// Whether both tell the same of so many identifiers, and where they are asked around this call.
fn is_alike(list: &Invocations, plain: &Plain, ids: u64, call: Call) -> bool {
    for place in 0..ids {
        let id = id_at(place);
        if list.is_open(id) != plain.is_open(id) || list.in_use(id) != plain.in_use(id) {
            return false;
        }
    }
    for clock in [call.clock.saturating_sub(1), call.clock, u64::MAX] {
        if list.due_count(clock) != plain.due_count(clock)
            || list.first_due(clock) != plain.first_due(clock)
        {
            return false;
        }
    }
    list.next_timer() == plain.next_timer()
        && list.open_count() == plain.open_count()
        && list.is_above_all(call.number) == plain.is_above_all(call.number)
}

/// How many kinds of answers there are: 4 to `Add`, 1 to `Sent`, 5 each to `Result` and `Error`, 3 to `Lapse`, 2 to
/// each of the others.
const ANSWERS: usize = 32;

/// Both take an invocation in: whether it was, is in use or is refused for another cause; last, that it may not be
/// asked for.
fn added(list: &mut Invocations, plain: &mut Plain, call: Call) -> Option<usize> {
    let is_above = list.is_above_all(call.number);
    if is_above != plain.is_above_all(call.number) {
        return None;
    }
    if !is_above {
        return Some(3);
    }
    let answer = list.add(call.id, call.number, call.class, call.timeout);
    let wanted = plain.add(call.id, call.number, call.class, call.timeout);
    if answer != wanted {
        return None;
    }
    match answer {
        Ok(()) => Some(0),
        Err(AddFault::InUse) => Some(1),
        Err(_) => Some(2),
    }
}

/// The kind of a verdict: the class of the invocation or, last, that there is none.
fn same_verdict(class: Option<Class>, answer: Verdict, wanted: Verdict) -> Option<usize> {
    if answer != wanted {
        return None;
    }
    match (answer, class) {
        (Verdict::Good(_) | Verdict::Unexpected(_), Some(class)) => Some(class as usize),
        _ => Some(4),
    }
}

/// The kind of a number: whether there is one.
fn same_number(answer: Option<u64>, wanted: Option<u64>) -> Option<usize> {
    (answer == wanted).then_some(answer.is_some() as usize)
}

/// Both tell a lapse of an identifier, or none.
fn lapsed_one(list: &mut Invocations, plain: &mut Plain, call: Call) -> Option<usize> {
    let answer = list.lapse_one(call.id, call.clock);
    (answer == plain.lapse_one(call.id, call.clock)).then_some(answer.is_some() as usize)
}

/// Both tell all lapses: none, one or many.
fn lapsed(list: &mut Invocations, plain: &mut Plain, clock: u64) -> Option<usize> {
    let wanted = plain.lapse(clock)?;
    let answer = list.lapse(clock).ok()?;
    (answer == wanted).then_some(answer.len().min(2))
}

/// Both free what is due: whether there was any.
fn freed_due(list: &mut Invocations, plain: &mut Plain, clock: u64) -> usize {
    let before = plain.len();
    list.free_due(clock);
    plain.free_due(clock);
    (plain.len() < before) as usize
}

/// Both end one invocation, if there is one.
fn closed_one(list: &mut Invocations, plain: &mut Plain) -> Option<usize> {
    let answer = list.close_one();
    (answer == plain.close_one()).then_some(answer.is_some() as usize)
}

/// Both end all invocations, if there are any.
fn closed_all(list: &mut Invocations, plain: &mut Plain) -> Option<usize> {
    let wanted = plain.close_all()?;
    let answer = list.close_all().ok()?;
    (answer == wanted).then_some(!answer.is_empty() as usize)
}

/// What both answer to what is received: the kind of the answer, if it is the same.
fn received(list: &mut Invocations, plain: &mut Plain, call: Call) -> Option<usize> {
    let now = call.clock.min(MAX_MOMENT);
    let id = call.id;
    let class = plain.class_of(id);
    let (answer, wanted) = if matches!(call.request, Request::Result) {
        (
            list.on_result(id, call.last, now),
            plain.on_result(id, call.last, now),
        )
    } else {
        (list.on_error(id, now), plain.on_error(id, now))
    };
    same_verdict(class, answer, wanted)
}

/// What both answer to a call: the kind of the answer, if it is the same; nothing where memory was refused.
fn answered(list: &mut Invocations, plain: &mut Plain, call: Call) -> Option<usize> {
    let id = call.id;
    match call.request {
        Request::Add => added(list, plain, call),
        Request::Sent => {
            let now = call.clock.min(MAX_MOMENT);
            list.sent(now);
            plain.sent(now);
            Some(0)
        }
        Request::Result | Request::Error => received(list, plain, call),
        Request::Reject => same_number(
            list.on_reject(id, call.kind),
            plain.on_reject(id, call.kind),
        ),
        Request::GiveUp => same_number(list.give_up(id), plain.give_up(id)),
        Request::FreeWait => {
            let is_freed = list.free_wait(id);
            (is_freed == plain.free_wait(id)).then_some(is_freed as usize)
        }
        Request::Lapse => lapsed(list, plain, call.clock),
        Request::LapseOne => lapsed_one(list, plain, call),
        Request::FreeDue => Some(freed_due(list, plain, call.clock)),
        Request::CloseOne => closed_one(list, plain),
        Request::CloseAll => closed_all(list, plain),
    }
}

/// Makes a call on both: five times its request and the kind of its answer, if both are alike in all.
fn common_kind(list: &mut Invocations, plain: &mut Plain, ids: u64, call: Call) -> Option<usize> {
    let kind = answered(list, plain, call)?;
    let first = (call.request as usize).saturating_mul(5);
    is_alike(list, plain, ids, call).then_some(first.saturating_add(kind))
}

/// Makes so many calls on both and counts the kinds of answers: the first call at which they differ. The last 300
/// end one invocation each.
fn differs_at(
    list: &mut Invocations,
    plain: &mut Plain,
    draws: &mut Draws,
    calls: u64,
    counts: &mut [u64],
) -> Option<u64> {
    for place in 0..calls {
        let mut call = draws.call(plain);
        if place.saturating_add(300) >= calls {
            call.request = Request::CloseOne;
        }
        let Some(kind) = common_kind(list, plain, draws.ids, call) else {
            return Some(place);
        };
        if let Some(count) = counts.get_mut(kind) {
            *count = count.saturating_add(1);
        }
    }
    None
}

/// Makes so many calls on both, of one seed, from new ones on.
fn differs_from_new(
    alloc: Global,
    draws: &mut Draws,
    calls: u64,
    reject_ms: u64,
    counts: &mut [u64],
) -> Option<u64> {
    let mut list = Invocations::new(alloc, reject_ms.min(MAX_MOMENT));
    let mut plain = Plain::new(alloc, reject_ms);
    differs_at(&mut list, &mut plain, draws, calls, counts)
}

#[test]
fn calls_drawn_by_lot(rt: HostRuntime) -> Result<(), Fail> {
    let mut counts = [0u64; 60];
    for (seed, ids, calls, clock, reject_ms) in [
        (1, 1, 3000u64, 0, 10),
        (2, 3, 3000, 0, 10),
        (3, 3, 3000, MAX_MOMENT - 1000, MAX_MOMENT),
        (4, 200, 1500, 0, 100),
        (5, 256, 600, 0, 0),
        // Around the number from which on there is a map.
        (6, 8, 3000, 0, 10),
        (7, 10, 2000, 0, 100),
    ] {
        let mut draws = Draws {
            seed,
            ids,
            clock,
            number: 0,
        };
        let differs = differs_from_new(rt.alloc(), &mut draws, calls, reject_ms, &mut counts);
        assert!(rt; differs.is_none(), "call {differs:?} of {seed}");
    }
    let kinds = counts.iter().filter(|count| **count > 0).count();
    assert!(rt; kinds == ANSWERS, "{counts:?}");
    Ok(())
}

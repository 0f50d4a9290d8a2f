//! Queues of timers beside a plain list.

use std::test::Fail;
use timer_queue::{Timer, TimerQueue};

/// The least timer of a plain list.
fn least(timers: &[Option<Timer>]) -> Option<Timer> {
    let mut least: Option<Timer> = None;
    for timer in timers {
        if let Some(timer) = *timer {
            let earlier = match least {
                None => true,
                Some(best) => timer.time < best.time
                    || (timer.time == best.time && timer.name < best.name),
            };
            if earlier {
                least = Some(timer);
            }
        }
    }
    least
}

/// The least timer of a queue.
fn first_of(queue: &TimerQueue) -> Option<Timer> {
    queue.get(queue.first()?)
}

/// Sets the timer of an item in a queue and in a plain list; whether the same is the least.
fn set_both(
    queue: &mut TimerQueue,
    plain: &mut [Option<Timer>],
    item: usize,
    timer: Option<Timer>,
) -> bool {
    if item < queue.len() && item < plain.len() {
        queue.set(item, timer);
        plain[item] = timer;
    }
    first_of(queue) == least(plain)
}

/// Adds so many items without a timer.
fn add_items(queue: &mut TimerQueue, count: u8) -> Result<(), Fail> {
    for _ in 0..count {
        queue.add_item()?;
    }
    Ok(())
}

/// Rows of an item, the time that it gets, 0 for none, and its name; the names fall as the items rise.
const ROWS: [(usize, u64, u32); 24] = [
    (0, 50, 9),
    (1, 40, 8),
    (2, 40, 7),
    (3, 60, 6),
    (4, 10, 5),
    (5, 70, 4),
    (6, 10, 3),
    (4, 0, 5),
    (6, 90, 3),
    (2, 0, 7),
    (1, 80, 8),
    (0, 0, 9),
    (3, 5, 6),
    (5, 5, 4),
    (3, 0, 6),
    (7, 1, 2),
    (7, 100, 2),
    (5, 0, 4),
    (1, 0, 8),
    (6, 0, 3),
    (7, 0, 2),
    (2, 3, 7),
    (2, 0, 7),
    (0, 9, 9),
];

#[test]
fn follows_a_plain_list(rt: HostRuntime) -> Result<(), Fail> {
    let mut queue = TimerQueue::new(rt.alloc());
    let mut plain: [Option<Timer>; 8] = [None; 8];
    add_items(&mut queue, 8)?;
    for (item, time, name) in ROWS {
        let timer = if time == 0 {
            None
        } else {
            Some(Timer { time, name })
        };
        assert!(rt;
            set_both(&mut queue, &mut plain, item, timer),
            "{item} {time}"
        );
    }
    assert!(rt; queue.len() == 8);
    Ok(())
}

#[test]
fn an_empty_queue_has_no_first(rt: HostRuntime) {
    let queue = TimerQueue::new(rt.alloc());
    assert!(rt; queue.first().is_none() & queue.get(0).is_none() & (queue.len() == 0));
}

/// The items that are due, in the order of the walk, with their number.
fn due_sum(queue: &TimerQueue, moment: u64) -> (usize, usize) {
    let mut count: usize = 0;
    let mut sum: usize = 0;
    for item in queue.due(moment) {
        count = count.saturating_add(1);
        sum = sum.saturating_add(item);
    }
    (count, sum)
}

/// Sets the timers of nine items, but for the fifth; the times fall as the items rise.
fn set_all(queue: &mut TimerQueue) {
    for item in 0..9usize {
        let time = (9 - item) as u64 * 10;
        if item < queue.len() && item != 4 {
            queue.set(item, Some(Timer { time, name: 0 }));
        }
    }
}

#[test]
fn walks_over_what_is_due(rt: HostRuntime) -> Result<(), Fail> {
    let mut queue = TimerQueue::new(rt.alloc());
    assert!(rt; due_sum(&queue, 100) == (0, 0));
    add_items(&mut queue, 9)?;
    set_all(&mut queue);
    // The moment, and how many items are due then and their sum.
    for (moment, due) in [
        (9, (0, 0)),
        (10, (1, 8)),
        (40, (4, 26)),
        (50, (4, 26)),
        (100, (8, 32)),
    ] {
        assert!(rt; due_sum(&queue, moment) == due, "at {moment}");
    }
    Ok(())
}

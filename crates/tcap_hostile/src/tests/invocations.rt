//! A list of invocations, asked by the names of its calls.

use super::answers::{add_line, add_numbered, add_value};
use super::subject::Told;
use super::words::{Word, class, kind, number, text};
use ber_core::OutOfMemory;
use std::alloc::Allocator;
use tcap_invocation::{AddFault, Class, Invocations, Lapse, MAX_MOMENT, Verdict};

/// Adds a lapse: its deadline, number and identifier.
fn add_lapse(told: &mut String, lapse: Lapse) -> Option<()> {
    let Lapse {
        deadline,
        number,
        id,
    } = lapse;
    write!(told, "  ({deadline}, {number}, {id})\n").ok()
}

/// Adds a lapse that may be none.
fn add_one(told: &mut String, lapse: Option<Lapse>) -> Option<()> {
    match lapse {
        Some(lapse) => add_lapse(told, lapse),
        None => write!(told, "  -\n").ok(),
    }
}

/// Adds a verdict.
fn add_verdict(told: &mut String, verdict: Verdict) -> Option<()> {
    match verdict {
        Verdict::Good(number) => add_numbered(told, "good", number),
        Verdict::Unexpected(number) => add_numbered(told, "unexpected", number),
        Verdict::Unknown => add_line(told, "unknown"),
    }
}

/// Adds a number that may be none.
fn add_number(told: &mut String, number: Option<u64>) -> Option<()> {
    match number {
        Some(number) => write!(told, "  {number}\n").ok(),
        None => write!(told, "  -\n").ok(),
    }
}

/// An invocation is taken in, where its number is above all.
fn added<A: Allocator + Copy>(
    list: &mut Invocations<A>,
    id: i8,
    number: u64,
    class: Class,
    timeout: u64,
) -> Option<Result<(), AddFault>> {
    if !list.is_above_all(number) {
        return None;
    }
    Some(list.add(id, number, class, timeout))
}

/// Adds how an invocation was taken in.
fn add_added(told: &mut String, added: Result<(), AddFault>) -> Option<Told> {
    match added {
        Ok(()) => Some(Told::Large),
        Err(AddFault::OutOfMemory) => Some(Told::NoMemory),
        Err(fault) => {
            add_numbered(told, "fault", u64::from(fault.number()))?;
            Some(Told::Small)
        }
    }
}

/// `add ID NUMBER CLASS TIMEOUT`.
fn add<A: Allocator + Copy>(
    list: &mut Invocations<A>,
    words: &[Word<'_>],
    told: &mut String,
) -> Option<Told> {
    let id = number(words, 1)?;
    let class = class(text(words, 3))?;
    let timeout = number(words, 4)?;
    add_added(told, added(list, id, number(words, 2)?, class, timeout)?)
}

/// Adds lapses, or tells that memory was refused.
pub(super) fn add_lapses<A: Allocator>(
    told: &mut String,
    lapses: Result<Vec<Lapse, A>, OutOfMemory>,
) -> Option<Told> {
    let Ok(lapses) = lapses else {
        return Some(Told::NoMemory);
    };
    if lapses.is_empty() {
        return Some(Told::Small);
    }
    for lapse in lapses {
        add_lapse(told, lapse)?;
    }
    Some(Told::Large)
}

/// `close`.
fn close<A: Allocator + Copy>(list: &mut Invocations<A>, told: &mut String) -> Option<Told> {
    let Ok(closed) = list.close_all() else {
        return Some(Told::NoMemory);
    };
    if closed.is_empty() {
        return Some(Told::Small);
    }
    for (number, id) in closed {
        write!(told, "  {number} {id}\n").ok()?;
    }
    Some(Told::Large)
}

/// What is received: `result ID last MS`, `result ID more MS`, `error ID MS`.
fn receive<A: Allocator + Copy>(
    list: &mut Invocations<A>,
    id: i8,
    words: &[Word<'_>],
) -> Option<Verdict> {
    if text(words, 0) == "error" {
        let clock: u64 = number(words, 2)?;
        return Some(list.on_error(id, clock.min(MAX_MOMENT)));
    }
    let clock: u64 = number(words, 3)?;
    Some(list.on_result(id, text(words, 2) == "last", clock.min(MAX_MOMENT)))
}

/// Adds whether an identifier is open and in use.
fn add_open<A: Allocator + Copy>(told: &mut String, list: &Invocations<A>, id: i8) -> Option<()> {
    let (open, used) = (list.is_open(id), list.in_use(id));
    write!(told, "  open {open} used {used}\n").ok()
}

/// What is said of one identifier: those of `receive`, `reject ID KIND`, `giveup ID`, `freewait ID`, `open ID`,
/// `one ID MS`.
fn tell_one<A: Allocator + Copy>(
    list: &mut Invocations<A>,
    words: &[Word<'_>],
    told: &mut String,
) -> Option<()> {
    let id = number(words, 1)?;
    match text(words, 0) {
        "result" | "error" => add_verdict(told, receive(list, id, words)?),
        "reject" => add_number(told, list.on_reject(id, kind(text(words, 2))?)),
        "giveup" => add_number(told, list.give_up(id)),
        "freewait" => add_value(told, &list.free_wait(id)),
        "open" => add_open(told, list, id),
        "one" => add_one(told, list.lapse_one(id, number(words, 2)?)),
        _ => None,
    }
}

/// Time: `sent MS`, `due MS`, `first MS`, `free MS`, `next`.
fn look<A: Allocator + Copy>(
    list: &mut Invocations<A>,
    words: &[Word<'_>],
    told: &mut String,
) -> Option<()> {
    if text(words, 0) == "next" {
        return add_number(told, list.next_timer());
    }
    let clock: u64 = number(words, 1)?;
    match text(words, 0) {
        "sent" => list.sent(clock.min(MAX_MOMENT)),
        "free" => list.free_due(clock),
        "due" => return add_value(told, &list.due_count(clock)),
        "first" => return add_one(told, list.first_due(clock)),
        _ => return None,
    }
    Some(())
}

/// What a list tells of a line.
pub(super) fn tell<A: Allocator + Copy>(
    list: &mut Invocations<A>,
    words: &[Word<'_>],
    told: &mut String,
) -> Option<Told> {
    match text(words, 0) {
        "add" => return add(list, words, told),
        "lapse" => return add_lapses(told, list.lapse(number(words, 1)?)),
        "close" => return close(list, told),
        "next" | "sent" | "free" | "due" | "first" => look(list, words, told)?,
        _ => tell_one(list, words, told)?,
    }
    Some(Told::Small)
}

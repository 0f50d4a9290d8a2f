//! Plays an example: a line at the margin is told to its subject, and the lines of the answer stand below
//! it, two spaces in. What comes out is the example again, if the subject answers as it says.

use super::subject::{Heap, Subject, Told};
use super::words::{Word, text, words_of};
use std::alloc::Global;

/// Which growths are refused.
#[derive(Clone, Copy)]
pub(super) enum Refusal {
    /// Those that the heap was told to.
    AsTold,
    /// The first of each call: a call that asks for any memory is refused once.
    FirstOfEachCall,
}

/// How an engine is called.
#[derive(Clone, Copy)]
pub(super) enum Calls {
    /// By the calls that answer their outputs.
    Answered,
    /// With an outbox.
    Appended,
    /// In a station, from whose front its outputs are taken.
    Waiting,
}

/// What tells the lines of an example: the memory for what it keeps, that of the subject, and which growths of the
/// latter are refused.
#[derive(Clone, Copy)]
pub(super) struct Player<'h> {
    pub(super) alloc: Global,
    pub(super) heap: Heap<'h>,
    pub(super) refusal: Refusal,
    /// How an engine is called.
    pub(super) calls: Calls,
}

/// Tells a line: how it was taken, and whether memory was refused.
fn tell_once<'h>(
    player: Player<'h>,
    subject: &mut Subject<'h>,
    words: &[Word<'_>],
    told: &mut String,
) -> Option<(Told, bool)> {
    let heap = player.heap;
    let is_first_refused = matches!(player.refusal, Refusal::FirstOfEachCall);
    if is_first_refused {
        heap.refuse(1);
    }
    let was_armed = heap.is_armed();
    let taken = subject.tell(player.alloc, heap, words, told)?;
    let was_refused = was_armed && !heap.is_armed();
    if is_first_refused {
        heap.refuse(0);
    }
    Some((taken, was_refused))
}

/// Whether this is what a subject prints for debugging.
fn is_printed(alloc: Global, subject: &Subject<'_>, before: &str) -> Option<bool> {
    let after = format!(in alloc; "{subject:?}").ok()?;
    Some(after.as_str() == before)
}

/// The growths of an example that are refused with no answer, by their numbers.
#[derive(Clone, Copy, Default)]
pub(super) struct Unanswered {
    first: u64,
    count: u64,
}

impl Unanswered {
    /// One more, of this number; nothing where it doesn't follow the one before.
    pub(super) fn add(&mut self, number: u64) -> Option<()> {
        if self.count == 0 {
            self.first = number;
        }
        let follows = number == self.first.saturating_add(self.count);
        self.count = self.count.saturating_add(1);
        follows.then_some(())
    }

    /// Whether they are none or two: of the places in which an engine keeps queues and lists of invocations that
    /// are left.
    pub(super) fn are_places(self) -> bool {
        matches!(self.count, 0 | 2)
    }
}

/// Whether a growth may be refused here with no answer: an engine makes places for the memory that a dialogue leaves
/// whose queue this call sends, or which it ends. The first growth of a call without an outbox is of its outputs or its
/// message, but in a prearranged end.
fn may_leave_memory(player: Player<'_>, subject: &Subject<'_>, words: &[Word<'_>]) -> bool {
    let word = text(words, 0);
    let is_first_of_outputs = match subject {
        Subject::Engine(_) => matches!(player.refusal, Refusal::FirstOfEachCall),
        Subject::Station(_) | Subject::Waiting(_) => false,
        _ => return false,
    };
    if is_first_of_outputs {
        return word == "prearranged";
    }
    matches!(
        word,
        "raw"
            | "rawfrom"
            | "uni"
            | "unito"
            | "begin"
            | "beginto"
            | "continue"
            | "end"
            | "prearranged"
            | "abort"
    )
}

/// Tells a line to a subject that printed this before, and again where memory was refused, and counts how often
/// that was: once at most. `OutOfMemory` is answered where a growth was refused in this call, and only there, it
/// leaves the subject as it was, and it comes in place of an answer that may take memory. So where the first growth
/// of each call is refused, an answer that is no `OutOfMemory` took none, but for places of what is left.
fn tell_again<'h>(
    player: Player<'h>,
    subject: &mut Subject<'h>,
    before: &str,
    words: &[Word<'_>],
    told: &mut String,
) -> Option<u64> {
    let (taken, was_refused) = tell_once(player, subject, words, told)?;
    if !matches!(taken, Told::NoMemory) {
        return (!was_refused || may_leave_memory(player, subject, words)).then_some(0);
    }
    let is_same = is_printed(player.alloc, subject, before)?;
    let again = subject.tell(player.alloc, player.heap, words, told)?;
    (is_same && was_refused && matches!(again, Told::Large)).then_some(1)
}

/// Tells a line by its words, and again where memory was refused.
fn tell_words<'h>(
    player: Player<'h>,
    subject: &mut Subject<'h>,
    words: &[Word<'_>],
    told: &mut String,
) -> Option<u64> {
    let before = format!(in player.alloc; "{subject:?}").ok()?;
    tell_again(player, subject, before.as_str(), words, told)
}

/// Tells a line, and again where memory was refused.
fn tell_line<'h>(
    player: Player<'h>,
    subject: &mut Subject<'h>,
    line: &str,
    told: &mut String,
) -> Option<u64> {
    let words = words_of(player.alloc, line)?;
    tell_words(player, subject, words.as_slice(), told)
}

/// Tells the lines of an example behind its first, and adds them with their answers: how often memory was refused.
fn tell_lines<'h>(
    player: Player<'h>,
    subject: &mut Subject<'h>,
    example: &str,
    told: &mut String,
) -> Option<u64> {
    let mut refusals = 0u64;
    let mut is_first = true;
    for line in example.lines() {
        if line.starts_with(' ') {
            continue;
        }
        write!(told, "{line}\n").ok()?;
        if is_first {
            is_first = false;
            continue;
        }
        refusals = refusals.saturating_add(tell_line(player, subject, line, told)?);
    }
    Some(refusals)
}

/// Adds the lines of an example, whose first has these words, as they come out: how often memory was refused.
fn add_played_to(
    player: Player<'_>,
    first: &[Word<'_>],
    example: &str,
    told: &mut String,
) -> Option<u64> {
    let subject = Subject::new(player.heap, first);
    let mut subject = match player.calls {
        Calls::Answered => subject,
        Calls::Appended => subject.with_outbox(player.heap),
        Calls::Waiting => subject.with_station(player.heap, first),
    };
    tell_lines(player, &mut subject, example, told)
}

/// Adds the lines of an example as they come out: how often memory was refused.
fn add_played(player: Player<'_>, example: &str, told: &mut String) -> Option<u64> {
    let first = words_of(player.alloc, example.lines().next()?)?;
    add_played_to(player, first.as_slice(), example, told)
}

/// Plays an example: how often memory was refused. Nothing where it doesn't come out as it stands, a line isn't
/// understood, a refusal changes something, or memory is refused for a call that takes none.
pub(super) fn play(player: Player<'_>, example: &str) -> Option<u64> {
    let mut told = String::new(player.alloc);
    let refusals = add_played(player, example, &mut told);
    if told.as_str() == example {
        refusals
    } else {
        None
    }
}

/// How many growths an example has, where each of them that is refused in turn is answered by want of memory, once,
/// but for those of places, and leaves all other answers those of the example.
pub(super) fn growths(player: Player<'_>, example: &str) -> Option<u64> {
    let heap = player.heap;
    let player = Player {
        refusal: Refusal::AsTold,
        ..player
    };
    let mut unanswered = Unanswered::default();
    for number in 1..1_000u64 {
        heap.refuse(number);
        let refusals = play(player, example)?;
        if heap.is_armed() {
            heap.refuse(0);
            return (refusals == 0 && unanswered.are_places()).then_some(number - 1);
        }
        match refusals {
            0 => unanswered.add(number)?,
            1 => {}
            _ => return None,
        }
    }
    None
}

//! What an engine answers and what one appended to an outbox, compared.

use super::subject::Heap;
use std::alloc::Global;
use tcap_engine::{Answer, Answered, Outbox, Output, OutputRef};

/// Whether an output of an outbox is this one; what is told, by its text.
fn is_same_output(
    alloc: Global,
    kept: OutputRef<'_>,
    output: &Output<'_, Heap<'_>>,
) -> Option<bool> {
    match (kept, output) {
        (
            OutputRef::Send { to, bytes },
            Output::Send {
                to: other,
                bytes: octets,
            },
        ) => { Some(to == other.octets() && bytes == octets.as_slice()) }
        (OutputRef::Indication(indication), _) => {
            let told: Output<'_, Global> = indication.output();
            let mut text = String::new(alloc);
            let mut other = String::new(alloc);
            write!(text, "{told:?}").ok()?;
            write!(other, "{output:?}").ok()?;
            Some(text == other)
        }
        _ => Some(false),
    }
}

/// Whether an outbox has these outputs, from this place on, and no more.
fn are_same(
    alloc: Global,
    outputs: &[Output<'_, Heap<'_>>],
    outbox: &Outbox<Heap<'_>>,
    first: usize,
) -> Option<bool> {
    let mut are_same = outbox.len() == first.saturating_add(outputs.len());
    for (place, output) in outputs.iter().enumerate() {
        let kept = outbox.get(first.saturating_add(place))?;
        are_same &= is_same_output(alloc, kept, output)?;
    }
    Some(are_same)
}

/// Whether an answer and what was appended from this place on are the same.
pub(super) fn is_same(
    alloc: Global,
    answer: &Answer<'_, Heap<'_>>,
    answered: Answered,
    outbox: &Outbox<Heap<'_>>,
    first: usize,
) -> Option<bool> {
    let is_same = match (answer, answered) {
        (Answer::Outputs(outputs), Answered::Outputs) => {
            return are_same(alloc, outputs.as_slice(), outbox, first);
        }
        (Answer::NewDialogue(one), Answered::NewDialogue(other)) => *one == other,
        (Answer::Number(one), Answered::Number(other)) => *one == other,
        (Answer::GivenUp(one), Answered::GivenUp(other)) => *one == other,
        (Answer::Refused(one), Answered::Refused(other)) => *one == other,
        (Answer::Done, Answered::Done) => true,
        _ => false,
    };
    Some(is_same && outbox.len() == first)
}

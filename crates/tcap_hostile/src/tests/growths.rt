//! Each example with each growth refused in turn, at last with none, and with the first growth of each call
//! refused; those of an engine by `run` and by `run_into` too.

use super::examples::{
    ADDRESSES, ALTERNATIVES, CALLS, CODEC, DIALOGUES, FEEDS, IDLE, INVOCATIONS, MESSAGES, OUTCOMES,
    REQUESTS,
};
use super::played::{Calls, Player, Refusal, growths, play};
use super::runs::{Gathering, run_growths};
use super::subject::Heap;
use refusing::Refusing;
use std::alloc::Global;
use std::test::Fail;

/// How many examples were played, and how many growths they have.
#[derive(Clone, Copy, Default)]
struct Total {
    examples: u64,
    growths: u64,
}

impl Total {
    /// One example more, of so many growths.
    fn add(&mut self, growths: u64) {
        self.examples = self.examples.saturating_add(1);
        self.growths = self.growths.saturating_add(growths);
    }
}

/// The lines of an example, behind those that its title ends with.
fn behind_title(part: &str) -> Option<&str> {
    let (_, example) = part.split_once('\n')?;
    Some(example)
}

/// How an example is handed to its subject.
#[derive(Clone, Copy)]
enum Way {
    /// Line by line, also with the first growth of each call refused.
    Told,
    /// Line by line too, of an engine that is called with an outbox.
    Appended,
    /// Line by line too, of a station.
    Waiting,
    /// Its events by `run`.
    Handed,
    /// Its events by `run_into`.
    HandedInto,
}

/// How many growths an example has; nothing where it doesn't come out as it stands.
fn growths_by(alloc: Global, heap: Heap<'_>, way: Way, example: &str) -> Option<u64> {
    let calls = match way {
        Way::Handed => return run_growths(alloc, heap, Gathering::Answers, example),
        Way::HandedInto => return run_growths(alloc, heap, Gathering::Outputs, example),
        Way::Told => Calls::Answered,
        Way::Appended => Calls::Appended,
        Way::Waiting => Calls::Waiting,
    };
    let player = Player {
        alloc,
        heap,
        refusal: Refusal::FirstOfEachCall,
        calls,
    };
    play(player, example)?;
    growths(player, example)
}

/// Plays the examples of a text, or tells the first that doesn't come out as it stands.
fn add_examples<'e>(
    alloc: Global,
    heap: Heap<'_>,
    way: Way,
    total: &mut Total,
    text: &'e str,
) -> Result<(), &'e str> {
    for example in text.split('#').filter_map(behind_title) {
        total.add(growths_by(alloc, heap, way, example).ok_or(example)?);
    }
    Ok(())
}

/// Plays the examples of a text, by memory of its own.
fn add_text<'e>(alloc: Global, way: Way, total: &mut Total, text: &'e str) -> Result<(), &'e str> {
    let heap = Refusing::new(alloc);
    add_examples(alloc, &heap, way, total, text)
}

/// Plays the examples of these texts.
fn total_of<'e>(alloc: Global, way: Way, texts: &[&'e str]) -> Result<Total, &'e str> {
    let mut total = Total::default();
    for text in texts {
        add_text(alloc, way, &mut total, text)?;
    }
    Ok(total)
}

#[test]
fn examples_with_each_growth_refused(rt: HostRuntime) -> Result<(), Fail> {
    let alloc = rt.alloc();
    let texts = [
        MESSAGES,
        OUTCOMES,
        REQUESTS,
        IDLE,
        ADDRESSES,
        CALLS,
        DIALOGUES,
        INVOCATIONS,
        FEEDS,
        CODEC,
        ALTERNATIVES,
    ];
    let Total { examples, growths } = total_of(alloc, Way::Told, texts.as_slice())?;
    assert!(rt;
        examples == 98 && growths > 900,
        "{examples} examples, {growths} growths"
    );
    Ok(())
}

#[test]
fn outboxes_with_each_growth_refused(rt: HostRuntime) -> Result<(), Fail> {
    let alloc = rt.alloc();
    let texts = [MESSAGES, OUTCOMES, REQUESTS, IDLE, ADDRESSES];
    let Total { examples, growths } = total_of(alloc, Way::Appended, texts.as_slice())?;
    assert!(rt;
        examples == 53 && growths > 400,
        "{examples} examples, {growths} growths"
    );
    Ok(())
}

#[test]
fn stations_with_each_growth_refused(rt: HostRuntime) -> Result<(), Fail> {
    let alloc = rt.alloc();
    let texts = [MESSAGES, OUTCOMES, REQUESTS, IDLE, ADDRESSES];
    let Total { examples, growths } = total_of(alloc, Way::Waiting, texts.as_slice())?;
    assert!(rt;
        examples == 53 && growths > 400,
        "{examples} examples, {growths} growths"
    );
    Ok(())
}

#[test]
fn runs_with_each_growth_refused(rt: HostRuntime) -> Result<(), Fail> {
    let alloc = rt.alloc();
    let texts = [MESSAGES, OUTCOMES, REQUESTS, IDLE, ADDRESSES];
    let Total { examples, growths } = total_of(alloc, Way::Handed, texts.as_slice())?;
    assert!(rt;
        examples == 53 && growths > 750,
        "{examples} examples, {growths} growths"
    );
    Ok(())
}

#[test]
fn outbox_runs_with_each_growth_refused(rt: HostRuntime) -> Result<(), Fail> {
    let alloc = rt.alloc();
    let texts = [MESSAGES, OUTCOMES, REQUESTS, IDLE, ADDRESSES];
    let Total { examples, growths } = total_of(alloc, Way::HandedInto, texts.as_slice())?;
    assert!(rt;
        examples == 53 && growths > 400,
        "{examples} examples, {growths} growths"
    );
    Ok(())
}

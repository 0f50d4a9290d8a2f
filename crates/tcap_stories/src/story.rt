//! What is told of a story.

ghost use Rattle.std.specs.Prelude.{◌≡◌, ◌≤◌, ◌+◌, ◌++◌, false, IfOk, OnOk};
ghost use Rattle.tcap_play.specs.Pieces.{left, pieces_left};
ghost use Rattle.tcap_stories.specs.Outputs.{numbered, outputs_in};
ghost use Rattle.tcap_stories.specs.Story.{plays_any, told_if_played, told_story};
ghost use Rattle.tcap_stories.specs.Views.{Adds, Compares, Expects, PlaysOn, Tells, TellsAll};
ghost use Rattle.tcap_stories.specs.StoryLine.{kind_of, wanted_by, StoryLine as Kind};

use crate::bad_line::add_bad_line;
use crate::comparing::Comparing;
use crate::outputs::{add_numbered, outputs_in};
use crate::story_line::{StoryLine, kind_of, wanted_by};
use ber_core::OutOfMemory;
use std::alloc::Allocator;
use tcap_play::{Engines, Opening, first_piece, opening_of};
use tcap_text::Shown;

/// Whether what a line tells agrees with what is expected, and whether the story ends with it.
#[derive(Clone, Copy)]
pub(crate) struct Told {
    pub(crate) good: bool,
    pub(crate) ends: bool,
}

/// Tells the outputs of a line, whose number this is, by what the play prints for it.
fn tell_outputs<A: Allocator + Copy>(
    alloc: A,
    number: u64,
    printed: &[u8],
    text: &mut Vec<u8, A>,
) -> Result<Comparing<A>, OutOfMemory>
    ensures told { OnOk result (text.new.items ≡ text.old.items ++ numbered number (outputs_in printed.now)) }
    ensures left { IfOk result (λ next. Compares number (outputs_in printed.now) next) }
{
    let outputs = outputs_in(alloc, printed)?;
    add_numbered(text, number, &outputs)?;
    Ok(Comparing::new(number, outputs))
}

/// Plays a line, whose number this is, and tells its outputs; None where it is bad, which is told.
fn play_line<A: Allocator + Copy>(
    alloc: A,
    engines: &mut Engines<A>,
    number: u64,
    line: &[u8],
    text: &mut Vec<u8, A>,
) -> Result<Option<Comparing<A>>, OutOfMemory>
    ensures { IfOk result (λ next. PlaysOn number line.now next engines.old engines.new
        text.old.items text.new.items) }
{
    let mut printed = String::new(alloc);
    if engines.play_line(alloc, line, &mut printed)? {
        let next = tell_outputs(alloc, number, printed.as_bytes(), text)?;
        Ok(Some(next))
    } else {
        add_bad_line(alloc, text, number, line)?;
        Ok(None)
    }
}

/// Tells the outputs that are left of the line before, and plays a line, whose number this is.
fn play<A: Allocator + Copy>(
    alloc: A,
    engines: &mut Engines<A>,
    comparing: &mut Comparing<A>,
    number: u64,
    line: &[u8],
    text: &mut Vec<u8, A>,
) -> Result<Told, OutOfMemory>
    requires { kind_of line.now ≡ Kind.plays }
    ensures { IfOk result (λ told. Tells number line.now told comparing.old comparing.new engines.old engines.new
        text.old.items text.new.items) }
{
    let good = comparing.end(text)?;
    let played = play_line(alloc, engines, number, line, text)?;
    match played {
        Some(next) => {
            *comparing = next;
            Ok(Told { good, ends: false })
        }
        None => Ok(Told {
            good: false,
            ends: true,
        }),
    }
}

/// Holds the next output against what a line expects, whose number this is.
fn expect<A: Allocator + Copy>(
    comparing: &mut Comparing<A>,
    number: u64,
    wanted: &[u8],
    text: &mut Vec<u8, A>,
) -> Result<Told, OutOfMemory>
    ensures held { IfOk result (λ told. Expects (record { line = number; wanted = wanted_by wanted.now }) told.good
        comparing.old comparing.new text.old.items text.new.items) }
    ensures goes_on { IfOk result (λ told. told.ends ≡ false) }
{
    let good = comparing.expect(text, number, wanted_by(wanted))?;
    Ok(Told { good, ends: false })
}

/// Tells what a line does, whose number this is.
fn tell_line<A: Allocator + Copy>(
    alloc: A,
    engines: &mut Engines<A>,
    comparing: &mut Comparing<A>,
    number: u64,
    line: &[u8],
    text: &mut Vec<u8, A>,
) -> Result<Told, OutOfMemory>
    ensures { IfOk result (λ told. Tells number line.now told comparing.old comparing.new engines.old engines.new
        text.old.items text.new.items) }
{
    match kind_of(line) {
        StoryLine::Skipped => Ok(Told {
            good: true,
            ends: false,
        }),
        StoryLine::Expects(wanted) => expect(comparing, number, wanted, text),
        StoryLine::Plays => play(alloc, engines, comparing, number, line, text),
    }
}

/// Tells what the lines of a story do, and whether it has passed.
fn tell_lines<A: Allocator + Copy>(
    alloc: A,
    opening: Opening<'_>,
    engines: &mut Engines<A>,
    text: &mut Vec<u8, A>,
) -> Result<bool, OutOfMemory>
    requires { opening.passed + left opening.rest ≤ 18446744073709551615 }
    ensures { IfOk result (λ good. TellsAll opening.entry good engines.old text.old.items text.new.items) }
{
    let mut good = true;
    let mut comparing = Comparing::new(0, Vec::new(alloc));
    let mut number = opening.passed;
    let mut rest = opening.rest;
    while let Some(lines) = rest {
        let (line, more) = first_piece(lines, b'\n');
        number += 1;
        let told = tell_line(alloc, engines, &mut comparing, number, line, text)?;
        if told.ends {
            return Ok(false);
        }
        good &= told.good;
        rest = more;
    }
    good &= comparing.end(text)?;
    Ok(good)
}

/// Whether one of the lines that are left is one of a play, or bad.
fn plays_any(rest: Option<&[u8]>) -> bool
    ensures { result ≡ plays_any (pieces_left 10 rest.entry) }
{
    let mut rest = rest;
    while let Some(lines) = rest {
        let (line, more) = first_piece(lines, b'\n');
        if matches!(kind_of(line), StoryLine::Plays) {
            return true;
        }
        rest = more;
    }
    false
}

/// Tells that none of these lines is played, where none is, and whether one is.
fn tell_if_played<A: Allocator>(
    text: &mut Vec<u8, A>,
    rest: Option<&[u8]>,
) -> Result<bool, OutOfMemory>
    ensures { IfOk result (λ good. Adds (told_if_played (plays_any (pieces_left 10 rest.entry))) good
        text.old.items text.new.items) }
{
    if plays_any(rest) {
        return Ok(true);
    }
    text.extend_from_slice(b"no line to play\n")?;
    Ok(false)
}

/// What is told of a story, and whether it has passed: the lines of a play are played, and their outputs told with
/// the numbers of the lines that they come from; outputs that aren't those that `expect` lines say are told too, and
/// refusals that none names, and a bad line with why it is bad, which ends the story; and where no line is played,
/// that.
///
/// ```rust
/// let story = story_text(rt.alloc(), b"A new\nexpect A new 2\n")?;
/// let text = b"1 A new 1\nline 2 failed: expected A new 2, found A new 1\n";
/// assert_eq!(rt; story.text.as_slice(), text.as_slice());
/// assert!(rt; !story.good);
/// ```
pub fn story_text<A: Allocator + Copy>(alloc: A, script: &[u8]) -> Result<Shown<A>, OutOfMemory>
    ensures text { IfOk result (λ shown. shown.text.items ≡ (told_story script.now).text) }
    ensures good { IfOk result (λ shown. shown.good ≡ (told_story script.now).good) }
{
    let opening = opening_of(alloc, script)?;
    let mut engines = Engines::new(alloc, opening.idle_ms);
    let mut text = Vec::new(alloc);
    let good = tell_lines(alloc, opening, &mut engines, &mut text)?;
    let played = tell_if_played(&mut text, opening.rest)?;
    Ok(Shown {
        text,
        good: good & played,
    })
}

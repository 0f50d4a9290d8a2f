//! Stories one after the other.

ghost use Rattle.std.specs.Prelude.{◌≡◌, ◌++◌, [], IfOk, MatchResult, OnOk, map};
ghost use Rattle.tcap_story_cmd.specs.Reading.{AreHalted, IsGiven, input_view};
ghost use Rattle.tcap_story_cmd.specs.Run.{AreTold, IsTaken, IsText, IsTold, IsUntold};
ghost use Rattle.tcap_story_cmd.specs.Stories.{report_by, verdict_by};

use crate::input::read_story;
use crate::refusal::Refusal;
use crate::report_text::{Report, add_end, add_report, front_of};
use crate::sources::Sources;
use crate::tally::Tally;
use crate::unread::Unread;
use crate::verdict::Verdict;
use ber_core::OutOfMemory;
use std::alloc::{Allocator, Global};
use std::io::{Read, Write};
use tcap_stories::story_text;
use tcap_text::write_text;

/// What is told of stories, and the verdict on all.
#[derive(Drop)]
struct Told<A: Allocator = Global> {
    text: Vec<u8, A>,
    verdict: Verdict,
}

/// Adds the report on a story of this name, by its text or why that was not read, and gives the verdict on it.
fn tell_story<A: Allocator + Copy>(
    alloc: A,
    text: &mut Vec<u8, A>,
    report: Report,
    name: &str,
    input: &Result<Vec<u8, A>, Unread>,
) -> Result<Verdict, OutOfMemory>
    ensures text { OnOk result (text.new.items ≡ text.old.items ++ report_by report name.now (input_view input.now)) }
    ensures verdict { IfOk result (λ verdict. verdict ≡ verdict_by (input_view input.now)) }
{
    match input {
        Ok(script) => {
            let story = story_text(alloc, script.as_slice())?;
            let verdict = Verdict::of(story.good);
            let told = story.text.as_slice();
            add_report(alloc, text, report, name.as_bytes(), verdict, told)?;
            Ok(verdict)
        }
        Err(why) => {
            let told = why.words().as_bytes();
            add_report(alloc, text, report, name.as_bytes(), Verdict::NotRead, told)?;
            Ok(Verdict::NotRead)
        }
    }
}

/// Reads the story of a name, adds the report on it, and gives the verdict on it.
fn take_story<A: Allocator + Copy, S: Sources, R: Read>(
    alloc: A,
    text: &mut Vec<u8, A>,
    report: Report,
    name: &str,
    sources: &S,
    reader: &mut R,
) -> Result<Verdict, OutOfMemory>
    ensures { MatchResult result
        (λ verdict. IsTaken report (S.octets_of sources.now) name.now (R.remaining reader.old) (R.remaining reader.new)
        text.old.items text.new.items verdict)
        (λ _. IsGiven (R.remaining reader.old) (R.remaining reader.new)) }
{
    let input = read_story(alloc, sources, reader, name)?;
    tell_story(alloc, text, report, name, &input)
}

/// Reads the stories of these names, adds the reports on them, in their order, and counts them.
fn tell_all<A: Allocator + Copy, S: Sources, R: Read>(
    alloc: A,
    text: &mut Vec<u8, A>,
    report: Report,
    names: &[&str],
    sources: &S,
    reader: &mut R,
) -> Result<Tally, OutOfMemory>
    ensures { MatchResult result
        (λ tally. AreTold report (S.octets_of sources.now) (map (λ name. name.now) names.now) []
        (R.remaining reader.old) (R.remaining reader.new) text.old.items text.new.items tally)
        (λ _. AreHalted (S.octets_of sources.now) (map (λ name. name.now) names.now)
        (R.remaining reader.old) (R.remaining reader.new)) }
{
    let mut tally = Tally::none();
    for name in names {
        let verdict = take_story(alloc, text, report, name, sources, reader)?;
        tally = tally.with(verdict);
    }
    Ok(tally)
}

/// Reads the stories of these names, and gives what is told of them and the verdict on all.
fn told_stories<A: Allocator + Copy, S: Sources, R: Read>(
    alloc: A,
    report: Report,
    names: &[&str],
    sources: &S,
    reader: &mut R,
) -> Result<Told<A>, OutOfMemory>
    ensures { MatchResult result
        (λ told. IsText report (S.octets_of sources.now) (map (λ name. name.now) names.now)
        (R.remaining reader.old) (R.remaining reader.new) told.text.items told.verdict)
        (λ _. AreHalted (S.octets_of sources.now) (map (λ name. name.now) names.now)
        (R.remaining reader.old) (R.remaining reader.new)) }
{
    let mut text = Vec::from_slice(alloc, front_of(report).as_bytes())?;
    let tally = tell_all(alloc, &mut text, report, names, sources, reader)?;
    add_end(&mut text, report, tally)?;
    Ok(Told {
        text,
        verdict: tally.verdict(),
    })
}

/// Reads the stories of these names, writes what is told of them, all of it or nothing unless a write fails, and gives
/// the verdict on all.
pub(crate) fn write_stories<A: Allocator + Copy, S: Sources, R: Read, W: Write>(
    alloc: A,
    report: Report,
    names: &[&str],
    sources: &S,
    reader: &mut R,
    out: &mut W,
) -> Result<Verdict, Refusal>
    ensures { MatchResult result
        (λ verdict. IsTold report (S.octets_of sources.now) (map (λ name. name.now) names.now)
        (R.remaining reader.old) (R.remaining reader.new) (W.contents out.old) (W.contents out.new) verdict)
        (λ refusal. IsUntold report (S.octets_of sources.now) (map (λ name. name.now) names.now)
        (R.remaining reader.old) (R.remaining reader.new) (W.contents out.old) (W.contents out.new) refusal) }
{
    let told = told_stories(alloc, report, names, sources, reader)?;
    write_text(out, told.text.as_slice())?;
    Ok(told.verdict)
}

//! A run of the program: its words, its inputs, what it writes, its status.

ghost use Rattle.std.specs.Prelude.{◌≡◌, MatchResult, Result, map};
ghost use Rattle.tcap_story_cmd.specs.Command.{Gave, IsAnswered, IsUnanswered, status_of};
ghost use Rattle.tcap_story_cmd.specs.CommandLine.{asked, inputs_of};

use crate::refusal::Refusal;
use crate::sources::Sources;
use crate::stories::write_stories;
use crate::texts::{help_text, version_text};
use crate::verdict::Verdict;
use crate::words::{Request, read_words};
use std::alloc::Allocator;
use std::io::{Read, Write};
use tcap_text::write_text;

/// The status of a run whose stories have all passed.
const PASSED: u8 = 0;
/// The status of a run with a story that has failed.
const FAILED: u8 = 1;
/// The status of a run with a story that was not read, and of one that came to no verdict.
const REFUSED: u8 = 2;

/// The names of inputs: that of standard input where no other is given.
fn inputs_of<'w>(names: &'w [&'w str]) -> &'w [&'w str]
    ensures { map (λ name. name.now) result.now ≡ inputs_of (map (λ name. name.now) names.entry.now) }
{
    if names.is_empty() { &["-"] } else { names }
}

/// Does what is asked for, and gives the verdict.
fn answer<A: Allocator + Copy, S: Sources, R: Read, W: Write>(
    alloc: A,
    request: Request<'_>,
    sources: &S,
    reader: &mut R,
    out: &mut W,
) -> Result<Verdict, Refusal>
    ensures { MatchResult result
        (λ verdict. IsAnswered (S.octets_of sources.now) (asked request.entry)
        (R.remaining reader.old) (R.remaining reader.new) (W.contents out.old) (W.contents out.new) verdict)
        (λ refusal. IsUnanswered (S.octets_of sources.now) (asked request.entry)
        (R.remaining reader.old) (R.remaining reader.new) (W.contents out.old) (W.contents out.new) refusal) }
{
    let text = match request {
        Request::Help => help_text(),
        Request::Version => version_text(),
        Request::Stories(told, names) => {
            return write_stories(alloc, told, inputs_of(names), sources, reader, out);
        }
    };
    write_text(out, text.as_bytes())?;
    Ok(Verdict::Passed)
}

/// The status of a verdict.
fn verdict_status(verdict: Verdict) -> u8
    ensures { result ≡ status_of (Result.Ok verdict) }
{
    match verdict {
        Verdict::Passed => PASSED,
        Verdict::Failed => FAILED,
        Verdict::NotRead => REFUSED,
    }
}

/// Tells a refusal on standard error, a failing write passed over, and gives the status.
pub fn report<E: Write>(err: &mut E, refusal: Refusal) -> u8
    ensures { result ≡ 2 }
{
    let _ = writeln!(err, "tcap_story: {}", refusal.words());
    REFUSED
}

/// The whole program for the words after its name: tells the stories of the inputs that they name, each read of
/// `sources`, or of `reader` where its name is `-`, and writes the report on them to `out`; gives the status, 0 where
/// all have passed, 1 where one has failed, 2 where one was not read or the run came to no end; why it didn't is told
/// on `err`.
pub fn run_stories<A: Allocator + Copy, S: Sources, R: Read, W: Write, E: Write>(
    alloc: A,
    words: &[&str],
    sources: &S,
    reader: &mut R,
    out: &mut W,
    err: &mut E,
) -> u8
    ensures { (answer : Result Verdict Refusal) × (result ≡ status_of answer)
        × Gave (map (λ word. word.now) words.now) (S.octets_of sources.now)
        (R.remaining reader.old) (R.remaining reader.new) (W.contents out.old) (W.contents out.new) answer }
{
    let Some(request) = read_words(words) else {
        return report(err, Refusal::BadCommand);
    };
    match answer(alloc, request, sources, reader, out) {
        Ok(verdict) => verdict_status(verdict),
        Err(refusal) => report(err, refusal),
    }
}

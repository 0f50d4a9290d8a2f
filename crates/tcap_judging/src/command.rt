//! A run of the command: its words, its standard input, what it writes, its status.

ghost use Rattle.std.specs.Prelude.{◌≡◌, Bool, Result, map, MatchResult};
ghost use Rattle.tcap_judging.specs.NameViews.{names_view};
ghost use Rattle.tcap_judging.specs.Command.{IsAnswered, IsUnanswered, Reads, Gave, status_of};

use crate::fault::JudgingFault;
use crate::form::Form;
use crate::help_text::{help_text, version_text};
use crate::line_run::judge_lines;
use crate::name_list::Named;
use crate::refusal::Refusal;
use crate::request::Request;
use crate::resync_run::judge_resynced;
use crate::stream_run::judge_stream;
use crate::words::read_words;
use std::alloc::{Allocator, Global};
use std::io::{Read, Write};
use tcap_words::write_text;

/// The status of a run whose messages are all good.
const GOOD: u8 = 0;
/// The status of a run with a faulty message or line.
const FAULTY: u8 = 1;
/// The status of a run that came to no verdict.
const REFUSED: u8 = 2;

/// Writes what is asked for, and tells its verdict.
pub(crate) fn answer<A: Allocator + Copy, R: Read, W: Write>(
    heap: A,
    request: Request,
    names: Option<&[Named<'_>]>,
    reader: &mut R,
    out: &mut W,
) -> Result<bool, JudgingFault>
    ensures answered { MatchResult result
        (λ good. IsAnswered (names_view names.entry) request (R.remaining reader.old) (R.remaining reader.new)
        (W.contents out.old) (W.contents out.new) good)
        (λ fault. IsUnanswered (names_view names.entry) request (R.remaining reader.old) (R.remaining reader.new)
        (W.contents out.old) (W.contents out.new) fault) }
    ensures reader { ¬ (Reads request) → reader.new ≡ reader.old }
{
    match request {
        Request::Help => write_text(out, help_text().as_bytes())?,
        Request::Version => write_text(out, version_text().as_bytes())?,
        Request::Lines(layout, naming) => {
            return judge_lines(heap, Form { layout, names }, naming, reader, out);
        }
        Request::Stream(layout) => return judge_stream(heap, Form { layout, names }, reader, out),
        Request::Resync(layout) => return judge_resynced(heap, Form { layout, names }, reader, out),
    }
    Ok(true)
}

/// Answers the words after the program's name.
fn respond<A: Allocator + Copy, R: Read, W: Write>(
    alloc: Global,
    heap: A,
    words: &[&str],
    names: Option<&[Named<'_>]>,
    reader: &mut R,
    out: &mut W,
) -> Result<bool, Refusal>
    ensures gave { Gave (names_view names.entry) (map (λ w. w.now) words.now) (R.remaining reader.old)
        (R.remaining reader.new) (W.contents out.old) (W.contents out.new) result }
{
    let asked = match read_words(alloc, words) {
        Ok(asked) => asked,
        Err(refusal) => return Err(refusal),
    };
    Ok(answer(heap, asked.request, names, reader, out)?)
}

/// The status of a verdict.
fn verdict_status(good: bool) -> u8
    ensures { result ≡ status_of (Result.Ok good) }
{
    if good { GOOD } else { FAULTY }
}

/// Tells a refusal on standard error, a failing write passed over, and gives the status.
pub fn report<E: Write>(err: &mut E, refusal: Refusal) -> u8
    ensures { result ≡ 2 }
{
    let words = refusal.words();
    let _ = match refusal.line() {
        Some(number) => writeln!(err, "tcap_judge: {words}: {number}"),
        None => writeln!(err, "tcap_judge: {words}"),
    };
    REFUSED
}

/// The whole program for the words after its name: writes to `out` what they ask for, and gives the status, 0 where
/// every message is good and there is no other line, 1 where that isn't so, 2 where the run came to no end; why it
/// didn't is told on `err`. `names` are those of the file that `names_file` tells. `clap` takes its memory from
/// `alloc`, all else from `heap`.
///
/// ```rust
/// let mut lines: &[u8] = b"6203480107\n";
/// let status = run_judge(alloc, alloc, &[], None, &mut lines, &mut out, &mut err);
/// assert_eq!(rt; status, 0);
/// assert_eq!(rt; out.as_slice(), b"1 good\n".as_slice());
/// ```
pub fn run_judge<A: Allocator + Copy, R: Read, W: Write, E: Write>(
    alloc: Global,
    heap: A,
    words: &[&str],
    names: Option<&[Named<'_>]>,
    reader: &mut R,
    out: &mut W,
    err: &mut E,
) -> u8
    ensures { (answer : Result Bool Refusal) × (result ≡ status_of answer)
        × Gave (names_view names.entry) (map (λ w. w.now) words.now)
        (R.remaining reader.old) (R.remaining reader.new) (W.contents out.old) (W.contents out.new) answer }
{
    match respond(alloc, heap, words, names, reader, out) {
        Ok(good) => verdict_status(good),
        Err(refusal) => report(err, refusal),
    }
}

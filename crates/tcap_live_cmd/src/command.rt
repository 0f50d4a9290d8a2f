//! A run of the command: its words, its standard input, what it writes, its status.

ghost use Rattle.std.specs.Prelude.{◌≡◌, Bool, Result, map, MatchResult};
ghost use Rattle.tcap_live_cmd.specs.Command.{Gave, IsAnswered, IsUndone, status_of};
ghost use Rattle.tcap_live_cmd.specs.CommandLine.{AskToRun, IsStarted, Runs, asked};

use crate::refusal::Refusal;
use crate::request::{Request, Settings};
use crate::texts::{help_text, version_text};
use crate::words::read_words;
use std::alloc::{Allocator, Global};
use std::io::{Read, Write};
use tcap_living::run_live;
use tcap_text::{verdict_status, write_text};

/// The status of a run that came to no verdict.
const REFUSED: u8 = 2;

/// Does what the words ask for, and tells whether no line was bad. Only a run reads.
fn answer<A: Allocator + Copy, R: Read, W: Write>(
    heap: A,
    request: Request,
    reader: &mut R,
    out: &mut W,
) -> Result<bool, Refusal>
    requires { IsStarted request }
    ensures answered { MatchResult result
        (λ good. IsAnswered (asked request) (R.remaining reader.old) (R.remaining reader.new) (W.contents out.old) (W.contents out.new) good)
        (λ refusal. IsUndone (asked request) refusal (R.remaining reader.old) (R.remaining reader.new) (W.contents out.old) (W.contents out.new)) }
    ensures reader { ¬ (Runs (asked request)) → reader.new ≡ reader.old }
{
    let text = match request {
        Request::Run(format, settings) => {
            let Settings {
                limits,
                first_dialogue,
                first_number,
            } = settings;
            return Ok(run_live(
                heap,
                format,
                limits,
                first_dialogue,
                first_number,
                reader,
                out,
            )?);
        }
        Request::Help => help_text(),
        Request::Version => version_text(),
    };
    write_text(out, text.as_bytes())?;
    Ok(true)
}

/// Tells a refusal on standard error, a failing write passed over, and gives the status.
pub fn report<E: Write>(err: &mut E, refusal: Refusal) -> u8
    ensures { result ≡ 2 }
{
    let _ = writeln!(err, "tcap_live: {}", refusal.words());
    REFUSED
}

/// The whole program for the words after its name: answers the lines of `reader` on `out`, or writes what
/// `--help` or `--version` prints, and gives the status, 0 where no line is bad, 1 where one is, 2 where the
/// run came to no end; why is told on `err`. `clap` takes its memory from `alloc`, all else from `heap`.
pub fn run_command<A: Allocator + Copy, R: Read, W: Write, E: Write>(
    alloc: Global,
    heap: A,
    words: &[&str],
    reader: &mut R,
    out: &mut W,
    err: &mut E,
) -> u8
    ensures reader { ¬ (AskToRun (map (λ w. w.now) words.now)) → reader.new ≡ reader.old }
    ensures gave { (answer : Result Bool Refusal) × (result ≡ status_of answer)
        × Gave (map (λ w. w.now) words.now) (R.remaining reader.old) (R.remaining reader.new) (W.contents out.old) (W.contents out.new) answer }
{
    match read_words(alloc, words) {
        Ok(request) => match answer(heap, request, reader, out) {
            Ok(good) => verdict_status(good),
            Err(refusal) => report(err, refusal),
        },
        Err(refusal) => report(err, refusal),
    }
}

//! A run of the command: its words, its standard input, what it writes, its status.

ghost use Rattle.std.specs.Prelude.{◌≡◌, Bool, Some, Result, map, MatchResult};
ghost use Rattle.tcap_words.specs.Spelling.{spelled_by};
ghost use Rattle.tcap_cmd.specs.CommandLine.{asked, Asked, AskToRead, Reads};
ghost use Rattle.tcap_cmd.specs.Command.{IsUnspelled, IsAnswered, IsRefused, Gave, status_of};

use crate::refusal::Refusal;
use crate::request::Request;
use crate::words::read_words;
use std::alloc::{Allocator, Global};
use std::io::{Read, Write};
use tcap_play::{run_play, run_stream};
use tcap_text::{canon_text, check_text, decode_hex, show_text, verdict_status, write_text};

/// The status of a run that came to no verdict.
const REFUSED: u8 = 2;

/// The bytes that HEX spells. Where they can't be had its digits are judged, so that bad HEX is told as such
/// with little memory too.
fn bytes_of<A: Allocator>(heap: A, hex: &str) -> Result<Vec<u8, A>, Refusal>
    ensures { MatchResult result (λ bytes. spelled_by hex.now
        ≡ Some bytes.items) (λ refusal. IsUnspelled hex.now refusal) }
{
    decode_hex(heap, hex.as_bytes())?.ok_or(Refusal::BadHex)
}

/// Plays the script on standard input.
fn play<A: Allocator + Copy, R: Read, W: Write>(
    heap: A,
    reader: &mut R,
    out: &mut W,
) -> Result<bool, Refusal>
    ensures { MatchResult result
        (λ good. IsAnswered Asked.play (R.remaining reader.old) (R.remaining reader.new) (W.contents out.old) (W.contents out.new) good)
        (λ refusal. IsRefused Asked.play refusal (R.remaining reader.old) (R.remaining reader.new) (W.contents out.old) (W.contents out.new)) }
{
    let good = run_play(heap, reader, out)?;
    Ok(good)
}

/// Judges the messages of the stream on standard input.
fn stream<A: Allocator + Copy, R: Read, W: Write>(
    heap: A,
    reader: &mut R,
    out: &mut W,
) -> Result<bool, Refusal>
    ensures { MatchResult result
        (λ good. IsAnswered Asked.stream (R.remaining reader.old) (R.remaining reader.new) (W.contents out.old) (W.contents out.new) good)
        (λ refusal. IsRefused Asked.stream refusal (R.remaining reader.old) (R.remaining reader.new) (W.contents out.old) (W.contents out.new)) }
{
    let good = run_stream(heap, reader, out)?;
    Ok(good)
}

/// Writes the text that is asked for, and tells its verdict. Only a play and a stream read.
pub fn answer<A: Allocator + Copy, R: Read, W: Write>(
    heap: A,
    request: Request<'_>,
    reader: &mut R,
    out: &mut W,
) -> Result<bool, Refusal>
    ensures answered { MatchResult result
        (λ good. IsAnswered (asked request.entry) (R.remaining reader.old) (R.remaining reader.new) (W.contents out.old) (W.contents out.new) good)
        (λ refusal. IsRefused (asked request.entry) refusal (R.remaining reader.old) (R.remaining reader.new) (W.contents out.old) (W.contents out.new)) }
    ensures reader { ¬ (Reads (asked request.entry)) → reader.new ≡ reader.old }
{
    let shown = match request {
        Request::Show(hex) => show_text(heap, bytes_of(heap, hex)?.as_slice())?,
        Request::Check(hex) => check_text(heap, bytes_of(heap, hex)?.as_slice())?,
        Request::Canon(hex) => canon_text(heap, bytes_of(heap, hex)?.as_slice())?,
        Request::Play => return play(heap, reader, out),
        Request::Stream => return stream(heap, reader, out),
    };
    write_text(out, shown.text.as_slice())?;
    Ok(shown.good)
}

/// Answers the words after the program's name.
fn respond<A: Allocator + Copy, R: Read, W: Write>(
    alloc: Global,
    heap: A,
    words: &[&str],
    reader: &mut R,
    out: &mut W,
) -> Result<bool, Refusal>
    ensures gave { Gave (map (λ w. w.now) words.now) (R.remaining reader.old)
        (R.remaining reader.new) (W.contents out.old) (W.contents out.new) result }
    ensures reader { ¬ (AskToRead (map (λ w. w.now) words.now)) → reader.new ≡ reader.old }
{
    let request = read_words(alloc, words)?;
    answer(heap, request, reader, out)
}

/// Tells a refusal on standard error, a failing write passed over, and gives the status.
pub fn report<E: Write>(err: &mut E, refusal: Refusal) -> u8
    ensures { result ≡ 2 }
{
    let _ = writeln!(err, "tcap: {}", refusal.words());
    REFUSED
}

/// The whole program for the words after its name: writes to `out` what they ask for, and gives the
/// status, 0 where the verdict is good, 1 where it isn't, 2 where there is none; why there is none is
/// told on `err`. `clap` takes its memory from `alloc`, all else from `heap`. Only `play` and `stream` read
/// from `reader`.
///
/// ```rust
/// let status = run_command(alloc, alloc, &["check", "6203480107"], &mut input, &mut out, &mut err);
/// assert_eq!(rt; status, 0);
/// assert_eq!(rt; out.as_slice(), b"good\n".as_slice());
/// ```
pub fn run_command<A: Allocator + Copy, R: Read, W: Write, E: Write>(
    alloc: Global,
    heap: A,
    words: &[&str],
    reader: &mut R,
    out: &mut W,
    err: &mut E,
) -> u8
    ensures reader { ¬ (AskToRead (map (λ w. w.now) words.now)) → reader.new ≡ reader.old }
    ensures gave { (answer : Result Bool Refusal) × (result ≡ status_of answer)
        × Gave (map (λ w. w.now) words.now) (R.remaining reader.old) (R.remaining reader.new) (W.contents out.old) (W.contents out.new) answer }
{
    match respond(alloc, heap, words, reader, out) {
        Ok(good) => verdict_status(good),
        Err(refusal) => report(err, refusal),
    }
}

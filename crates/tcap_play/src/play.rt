//! The play of a script, as a text, and over a reader and a writer.

ghost use Rattle.std.specs.Prelude.{◌≡◌, ◌≤◌, ◌+◌, [], IfOk, string_bytes, MatchResult};
ghost use Rattle.tcap_invocation.specs.Stage.{moment_limit};
ghost use Rattle.tcap_model.specs.Table.World.{StandsAt};
ghost use Rattle.tcap_play.specs.Pieces.{left};
ghost use Rattle.tcap_play.specs.Play.{history_of, not_begun, play_is_good, play_text_of, step_by};
ghost use Rattle.tcap_play.specs.PlayViews.{ActsBy, GoesOnAt, PrintsAll};
ghost use Rattle.tcap_play.specs.Sides.{Engine as Which};
ghost use Rattle.tcap_play.specs.Run.{IsPlayed, IsFaulty};

use crate::by_words::act_on;
use crate::opening::{Opening, opening_of};
use crate::pieces::{first_piece, is_skipped};
use crate::script::words::cut_words;
use crate::side::Addresses;
use crate::station::Station;
use ber_core::OutOfMemory;
use std::alloc::Allocator;
use std::io::{Read, Write};
use tcap_engine::{Engine, Limits};
use tcap_text::{PlayFault, Shown, read_script, write_text};

/// Does what the line of these octets asks for, and tells whether it could be done.
pub(crate) fn act_by<'s, A: Allocator + Copy>(
    alloc: A,
    addresses: &Addresses,
    words: &mut Vec<&'s [u8], A>,
    line: &'s [u8],
    a: &mut Station<A>,
    b: &mut Station<A>,
    text: &mut String<A>,
) -> Result<bool, OutOfMemory>
    ensures { IfOk result (λ done. ActsBy (λ p. step_by p line.entry.now) done a.old b.old a.new b.new
        (string_bytes text.old) (string_bytes text.new)) }
{
    cut_words(words, line)?;
    act_on(alloc, addresses, words.as_slice(), a, b, text)
}

/// A side before the first line, with this idle limit.
pub(crate) fn begun<A: Allocator + Copy>(alloc: A, idle_ms: u64) -> Station<A>
    requires { idle_ms ≤ moment_limit }
    ensures stands { (which : Which) → StandsAt (history_of which (not_begun idle_ms)) result.engine }
    ensures sent { result.sent.items ≡ [] }
{
    let limits = Limits {
        max_dialogues: 16,
        reject_ms: 1_000,
        idle_ms,
    };
    Station {
        engine: Engine::new(alloc, limits),
        sent: Vec::new(alloc),
    }
}

/// Does what a line asks for, whose number this is, and tells whether the play goes on: a bad line is
/// told of and ends it.
fn go_on<'s, A: Allocator + Copy>(
    alloc: A,
    addresses: &Addresses,
    words: &mut Vec<&'s [u8], A>,
    number: u64,
    line: &'s [u8],
    a: &mut Station<A>,
    b: &mut Station<A>,
    text: &mut String<A>,
) -> Result<bool, OutOfMemory>
    ensures { IfOk result (λ going. GoesOnAt number line.entry.now going a.old b.old a.new b.new
        (string_bytes text.old) (string_bytes text.new)) }
{
    if is_skipped(line) {
        return Ok(true);
    }
    if act_by(alloc, addresses, words, line, a, b, text)? {
        return Ok(true);
    }
    write!(text, "line {number} bad\n")?;
    Ok(false)
}

/// Does what the lines of a play ask for, and tells whether all of them could be done.
fn play_lines<A: Allocator + Copy>(
    alloc: A,
    opening: Opening<'_>,
    a: &mut Station<A>,
    b: &mut Station<A>,
    text: &mut String<A>,
) -> Result<bool, OutOfMemory>
    requires { opening.passed + left opening.rest ≤ 18446744073709551615 }
    ensures { IfOk result (λ good. PrintsAll opening.entry good a.old b.old
        (string_bytes text.old) (string_bytes text.new)) }
{
    let addresses = Addresses::new();
    // The words of one line after the other.
    let mut words = Vec::new(alloc);
    let mut number = opening.passed;
    let mut rest = opening.rest;
    while let Some(lines) = rest {
        let (line, more) = first_piece(lines, b'\n');
        number += 1;
        if !go_on(alloc, &addresses, &mut words, number, line, a, b, text)? {
            return Ok(false);
        }
        rest = more;
    }
    Ok(true)
}

/// The text of a script, and whether it is good: two engines, A and B, are handed what its lines ask for,
/// and their answers are printed. A line that has no form of a script, or that names a message which
/// can't be so treated, ends the play, which isn't good then. A first line may set the idle limit of both.
///
/// ```rust
/// let played = tcap_play::play_text(rt.alloc(), b"A new\nA new 1\n")?;
/// assert_eq!(rt; played.text.as_slice(), b"A new 1\nline 2 bad\n".as_slice());
/// assert!(rt; !played.good);
/// ```
pub fn play_text<A: Allocator + Copy>(alloc: A, script: &[u8]) -> Result<Shown<A>, OutOfMemory>
    ensures text { IfOk result (λ shown. shown.text.items ≡ play_text_of script.now) }
    ensures good { IfOk result (λ shown. shown.good ≡ play_is_good script.now) }
{
    let opening = opening_of(alloc, script)?;
    let mut a = begun(alloc, opening.idle_ms);
    let mut b = begun(alloc, opening.idle_ms);
    let mut text = String::new(alloc);
    let good = play_lines(alloc, opening, &mut a, &mut b, &mut text)?;
    Ok(Shown {
        text: text.into_bytes(),
        good,
    })
}

/// Plays the script that the reader gives: reads it all, writes what its play prints, and tells whether
/// it is good. With another fault than Write nothing was written; with that one a prefix of the text,
/// never all of it. The read that finds the end counts as one.
///
/// ```rust
/// let mut script: &[u8] = b"# no line";
/// let mut out = Vec::new(alloc);
/// assert_eq!(rt; run_play(alloc, &mut script, &mut out), Ok(true));
/// assert_eq!(rt; out.len(), 0);
/// ```
///
/// # Errors
///
/// `Read` where a read failed, or was interrupted; `TooLong` at the read that passes 1,048,576 octets, and
/// where 1,000,000 reads didn't find the end; `OutOfMemory` where memory was refused; `Write` where a write
/// failed.
pub fn run_play<A: Allocator + Copy, R: Read, W: Write>(
    alloc: A,
    reader: &mut R,
    writer: &mut W,
) -> Result<bool, PlayFault>
    ensures { MatchResult result
        (λ good. IsPlayed (R.remaining reader.old) (R.remaining reader.new) (W.contents writer.old) (W.contents writer.new) good)
        (λ fault. IsFaulty (R.remaining reader.old) (R.remaining reader.new) (W.contents writer.old) (W.contents writer.new) fault) }
{
    let script = read_script(alloc, reader)?;
    let shown = play_text(alloc, script.as_slice())?;
    write_text(writer, shown.text.as_slice())?;
    Ok(shown.good)
}

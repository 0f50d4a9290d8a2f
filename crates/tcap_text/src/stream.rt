//! A run over a stream of messages.

ghost use Rattle.std.specs.Prelude.{◌≡◌, List, [], ◌∷◌, ℕ, map, MatchResult, None};
ghost use Rattle.std.specs.Io.KnownBytes.{Appends};
ghost use Rattle.ber_core.specs.Feeding.{StandsBehind};
ghost use Rattle.tcap_words.specs.Show.{check_text_of, show_is_good};
ghost use Rattle.tcap_text.specs.StreamText.{verdict_lines, all_good};
ghost use Rattle.tcap_text.specs.StreamSteps.{IsUntold, IsTaken, IsUntaken, IsFinished, IsUnended};
ghost use Rattle.tcap_text.specs.StreamRun.{IsStreamed, IsUnstreamed};

use crate::fault::PlayFault;
use crate::input::{MOST_READS, PIECE};
use crate::stream_text::last_text;
use ber_core::{Feed, FeedFault};
use std::alloc::Allocator;
use std::io::{Read, Write};
use tcap_words::{verdict_line, verdict_on, verdict_text, write_text};

/// Writes the line of a message's verdict, and tells whether it is good. No text is made of a line that is
/// known beforehand.
fn write_verdict<A: Allocator + Copy, W: Write>(
    alloc: A,
    message: &[u8],
    writer: &mut W,
) -> Result<bool, PlayFault>
    ensures { MatchResult result
        (λ good. Appends (W.contents writer.old) (W.contents writer.new) (check_text_of message.now) × (good ≡ show_is_good message.now))
        (λ fault. IsUntold (message.now ∷ []) (W.contents writer.old) (W.contents writer.new) fault) }
{
    let verdict = verdict_on(message);
    match verdict_line(verdict) {
        Some(line) => write_text(writer, line.as_bytes())?,
        None => {
            let checked = verdict_text(alloc, verdict)?;
            write_text(writer, checked.text.as_slice())?
        }
    }
    Ok(verdict.is_good())
}

/// Writes the line of each message's verdict, and tells whether all are good.
fn write_verdicts<A: Allocator + Copy, W: Write>(
    alloc: A,
    messages: &[Vec<u8, A>],
    writer: &mut W,
) -> Result<bool, PlayFault>
    ensures { MatchResult result
        (λ good. Appends (W.contents writer.old) (W.contents writer.new) (verdict_lines (map (λ m. m.items) messages.now))
        × (good ≡ all_good (map (λ m. m.items) messages.now)))
        (λ fault. IsUntold (map (λ m. m.items) messages.now) (W.contents writer.old) (W.contents writer.new) fault) }
{
    let mut good = true;
    for message in messages {
        good &= write_verdict(alloc, message.as_slice(), writer)?;
    }
    Ok(good)
}

/// Takes a piece of the stream, writes the line of each message that it completes, and tells whether all
/// of these are good.
fn take_piece<A: Allocator + Copy, W: Write>(
    alloc: A,
    feed: &mut Feed<A>,
    piece: &[u8],
    writer: &mut W,
) -> Result<bool, PlayFault>
    ensures { (stream : List ℕ) → StandsBehind stream feed.old → feed.old.fault ≡ None → MatchResult result
        (λ good. IsTaken stream piece.now feed.new (W.contents writer.old) (W.contents writer.new) good)
        (λ fault. IsUntaken stream piece.now (W.contents writer.old) (W.contents writer.new) fault) }
{
    match feed.push(piece) {
        Ok(messages) => write_verdicts(alloc, messages.as_slice(), writer),
        Err(FeedFault::OutOfMemory) => Err(PlayFault::OutOfMemory),
        Err(FeedFault::Ber(_) | FeedFault::TooLong) => Ok(true),
    }
}

/// Writes the last line, if any, and tells whether the stream is good, where so much of its messages is
/// known.
fn end_stream<A: Allocator + Copy, W: Write>(
    alloc: A,
    feed: &Feed<A>,
    good: bool,
    writer: &mut W,
) -> Result<bool, PlayFault>
    ensures { MatchResult result
        (λ ends. IsFinished feed.now good (W.contents writer.old) (W.contents writer.new) ends)
        (λ fault. IsUnended feed.now (W.contents writer.old) (W.contents writer.new) fault) }
{
    let last = last_text(alloc, feed)?;
    write_text(writer, last.as_bytes())?;
    Ok(good && feed.fault().is_none() && feed.rest_len() == 0)
}

/// Judges the messages of the stream that the reader gives, cut anywhere: writes the line of each message's
/// verdict by itself, those of all messages read so far before it reads again, and a last line where a fault
/// stands, behind which no more is read, or where the input ends within an element; and tells whether every
/// message is good and there is no such line. What was written before a fault stays written.
///
/// ```rust
/// let mut stream: &[u8] = &[0x62, 0x06, 0x48, 0x04, 0x00, 0x00, 0x00, 0x01, 0x62];
/// let mut out = Vec::new(alloc);
/// assert_eq!(rt; run_stream(alloc, &mut stream, &mut out), Ok(false));
/// assert_eq!(rt; out.as_slice(), b"good\nrest 1\n".as_slice());
/// ```
///
/// # Errors
///
/// `Read` where a read failed, or was interrupted; `TooLong` where 1,000,000 reads didn't find the end;
/// `OutOfMemory` where memory was refused; `Write` where a write failed.
pub fn run_stream<A: Allocator + Copy, R: Read, W: Write>(
    alloc: A,
    reader: &mut R,
    writer: &mut W,
) -> Result<bool, PlayFault>
    ensures { MatchResult result
        (λ good. IsStreamed (R.remaining reader.old) (R.remaining reader.new) (W.contents writer.old) (W.contents writer.new) good)
        (λ fault. IsUnstreamed (R.remaining reader.old) (R.remaining reader.new) (W.contents writer.old) (W.contents writer.new) fault) }
{
    let mut feed = Feed::new(alloc);
    let mut good = true;
    let mut piece = [0u8; PIECE];
    for _ in 0..MOST_READS {
        let Ok(count) = reader.read(&mut piece) else {
            return Err(PlayFault::Read);
        };
        if count == 0 {
            return end_stream(alloc, &feed, good, writer);
        }
        good &= take_piece(alloc, &mut feed, &piece[..count], writer)?;
        if feed.fault().is_some() {
            return end_stream(alloc, &feed, good, writer);
        }
    }
    Err(PlayFault::TooLong)
}

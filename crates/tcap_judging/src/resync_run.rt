//! A run over a stream of messages that goes on behind its faults.

ghost use Rattle.std.specs.Prelude.{◌≡◌, ◌<◌, ◌+◌, ◌^◌, ◌++◌, ◌||◌, nat_lt, length, true, false, MatchResult, IfOk, OnOk, string_bytes};
ghost use Rattle.tcap_judging.specs.Resync.{ResyncTells, passed_in};
ghost use Rattle.tcap_judging.specs.ResyncSteps.{AddsSteps, WritesSteps, AreStepsUntaken, WritesEnd, IsEndUntold, StandsBehind, has_more, offset_at};
ghost use Rattle.tcap_judging.specs.Run.{IsJudged, IsUnjudged};
ghost use Rattle.tcap_judging.specs.NameViews.{form_view};

use crate::fault::JudgingFault;
use crate::form::Form;
use crate::line_run::{MOST_READS, PIECE};
use crate::place::Place;
use crate::resync::advance;
use crate::search::pass_over;
use ber_core::OutOfMemory;
use std::alloc::Allocator;
use std::io::{Read, Write};
use tcap_words::write_text;

/// What is kept of a stream: where the run stands in it, and the octets from there on.
#[derive(Drop)]
struct Left<A: Allocator + Copy> {
    kept: Vec<u8, A>,
    place: Place,
}

/// Takes a piece of the stream, adds what it makes known, and keeps the octets behind that. Tells whether all of it is
/// good.
fn take_more<A: Allocator + Copy>(
    alloc: A,
    form: Form<'_>,
    text: &mut String<A>,
    left: &mut Left<A>,
    piece: &[u8],
) -> Result<bool, OutOfMemory>
    requires { offset_at left.old.place + length left.old.kept.items + length piece.now < 2 ^ 64 }
    ensures adds { IfOk result (λ good. AddsSteps (form_view form.entry) false left.old.place
        (left.old.kept.items ++ piece.now) left.new.place left.new.kept.items true
        (string_bytes text.old) (string_bytes text.new) good) }
    ensures offset { OnOk result (offset_at left.new.place + length left.new.kept.items
        ≡ offset_at left.old.place + length left.old.kept.items + length piece.now) }
{
    left.kept.extend_from_slice(piece)?;
    let done = advance(form, text, false, left.place, left.kept.as_slice())?;
    let mut kept = Vec::new(alloc);
    kept.extend_from_slice(done.rest)?;
    let (place, good) = (done.place, done.good);
    left.kept = kept;
    left.place = place;
    Ok(good)
}

/// Takes a piece of the stream, and writes what it makes known. Tells whether all of it is good.
fn write_more<A: Allocator + Copy, W: Write>(
    alloc: A,
    form: Form<'_>,
    left: &mut Left<A>,
    piece: &[u8],
    writer: &mut W,
) -> Result<bool, JudgingFault>
    requires { offset_at left.old.place + length left.old.kept.items + length piece.now < 2 ^ 64 }
    ensures writes { MatchResult result
        (λ good. WritesSteps (form_view form.entry) left.old.place (left.old.kept.items ++ piece.now) left.new.place
        left.new.kept.items (W.contents writer.old) (W.contents writer.new) good)
        (λ fault. AreStepsUntaken (form_view form.entry) left.old.place (left.old.kept.items ++ piece.now)
        (W.contents writer.old) (W.contents writer.new) fault) }
    ensures offset { OnOk result (offset_at left.new.place + length left.new.kept.items
        ≡ offset_at left.old.place + length left.old.kept.items + length piece.now) }
{
    let mut text = String::new(alloc);
    let good = take_more(alloc, form, &mut text, left, piece)?;
    write_text(writer, text.as_bytes())?;
    Ok(good)
}

/// Where a stream ends within a faulty message: behind those of its octets at which no good one begins. So what follows
/// doesn't search them again.
fn pass_over_end(place: Place, octets: &[u8]) -> (Place, &[u8])
    requires { offset_at place + length octets.now < 2 ^ 64 }
    ensures behind { StandsBehind place octets.now result.0 result.1.now }
    ensures within { offset_at result.0 + length result.1.now ≡ offset_at place + length octets.now }
{
    match place {
        Place::Within(first, count, left) => {
            let passed = pass_over(true, octets, left).count;
            let later = Place::Within(first, count + passed as u64, left - passed);
            (later, &octets[passed..])
        }
        Place::Reading(_) | Place::Searching(_, _) => (place, octets),
    }
}

/// Whether a stream that ends with these octets, of which so many belong to a faulty message, has more to tell.
fn has_more_within(octets: &[u8], left: usize) -> bool
    ensures { result ≡ (nat_lt left (length octets.now) || nat_lt (passed_in true octets.now) left) }
{
    left < octets.len() || pass_over(true, octets, left).count < left
}

/// Whether a stream that ends with these octets behind a place has more to tell.
fn has_more(place: Place, octets: &[u8]) -> bool
    ensures { result ≡ has_more place octets.now }
{
    match place {
        Place::Reading(_) => !octets.is_empty(),
        Place::Searching(_, _) => true,
        Place::Within(_, _, left) => has_more_within(octets, left),
    }
}

/// Writes what the end of the stream makes known behind a place. Tells whether the stream is good, where so much of
/// what stands before is known.
fn end_at<A: Allocator + Copy, W: Write>(
    alloc: A,
    form: Form<'_>,
    place: Place,
    octets: &[u8],
    good: bool,
    writer: &mut W,
) -> Result<bool, JudgingFault>
    requires { offset_at place + length octets.now < 2 ^ 64 }
    ensures { MatchResult result
        (λ ends. WritesEnd (form_view form.entry) place octets.now (W.contents writer.old) (W.contents writer.new)
        good ends)
        (λ fault. IsEndUntold (form_view form.entry) place octets.now (W.contents writer.old) (W.contents writer.new)
        fault) }
{
    if !has_more(place, octets) {
        return Ok(good);
    }
    let mut text = String::new(alloc);
    let done = advance(form, &mut text, true, place, octets)?;
    write_text(writer, text.as_bytes())?;
    Ok(good & done.good)
}

/// Writes what the end of the stream makes known. Tells whether the stream is good, where so much of what stands before
/// is known.
fn end_more<A: Allocator + Copy, W: Write>(
    alloc: A,
    form: Form<'_>,
    left: &Left<A>,
    good: bool,
    writer: &mut W,
) -> Result<bool, JudgingFault>
    requires { offset_at left.now.place + length left.now.kept.items < 2 ^ 64 }
    ensures { MatchResult result
        (λ ends. WritesEnd (form_view form.entry) left.now.place left.now.kept.items (W.contents writer.old)
        (W.contents writer.new) good ends)
        (λ fault. IsEndUntold (form_view form.entry) left.now.place left.now.kept.items (W.contents writer.old)
        (W.contents writer.new) fault) }
{
    let (place, octets) = pass_over_end(left.place, left.kept.as_slice());
    end_at(alloc, form, place, octets, good, writer)
}

/// Judges the messages of the stream that the reader gives, as `judge_stream` does, and goes on behind a fault.
/// Where no message can begin, or the stream ends within one, a line tells the fault as there. The octets from
/// there on are passed over up to the next at which a good message begins, or to the end, and a line tells how many
/// they are. Where a message isn't good, and a good one begins at one of its octets behind the first, the run goes on
/// at the first such octet, and a line tells how many octets are passed over, from the message's first on; where none
/// does, the run goes on behind the message. Tells whether every message is good and nothing was passed over. What is
/// written is the same however the stream is cut into reads. A fault of the stream is told once 65,536 octets from the
/// first octet of its message on have come, or the end.
///
/// ```rust
/// let mut stream: &[u8] = &[0x00, 0x01, 0x62, 0x03, 0x48, 0x01, 0x07];
/// let mut out = Vec::new(alloc);
/// let form = Form { layout: Layout::Plain, names: None };
/// assert_eq!(rt; judge_resynced(alloc, form, &mut stream, &mut out), Ok(false));
/// assert_eq!(rt; out.as_slice(), b"0 fault badly formatted place 0 element 0: expected a tag, found 0x00\n0 passed over 2 octets\n2 good\n".as_slice());
/// ```
///
/// # Errors
///
/// As `judge_lines`.
pub fn judge_resynced<A: Allocator + Copy, R: Read, W: Write>(
    alloc: A,
    form: Form<'_>,
    reader: &mut R,
    writer: &mut W,
) -> Result<bool, JudgingFault>
    ensures { MatchResult result
        (λ good. IsJudged (form_view form.entry) ResyncTells (R.remaining reader.old) (R.remaining reader.new)
        (W.contents writer.old) (W.contents writer.new) good)
        (λ fault. IsUnjudged (form_view form.entry) ResyncTells (R.remaining reader.old) (R.remaining reader.new)
        (W.contents writer.old) (W.contents writer.new) fault) }
{
    let mut left = Left {
        kept: Vec::new(alloc),
        place: Place::Reading(0),
    };
    let mut good = true;
    let mut piece = [0u8; PIECE];
    for _ in 0..MOST_READS {
        let Ok(count) = reader.read(&mut piece) else {
            return Err(JudgingFault::Read);
        };
        if count == 0 {
            return end_more(alloc, form, &left, good, writer);
        }
        good &= write_more(alloc, form, &mut left, &piece[..count], writer)?;
    }
    Err(JudgingFault::TooLong)
}

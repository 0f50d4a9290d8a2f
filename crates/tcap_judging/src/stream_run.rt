//! A run over a stream of messages.

ghost use Rattle.std.specs.Prelude.{◌≡◌, ◌<◌, ◌+◌, ◌^◌, ◌++◌, ◌&&◌, length, MatchResult, None, OnOk};
ghost use Rattle.std.specs.Io.KnownBytes.{Appends};
ghost use Rattle.tcap_judging.specs.Entry.{StreamTells, unfinished_entries};
ghost use Rattle.tcap_judging.specs.EntryText.{entries_text, are_good};
ghost use Rattle.tcap_judging.specs.StreamSteps.{WritesOctets, AreOctetsUntaken, IsRestUntold};
ghost use Rattle.tcap_judging.specs.Run.{IsJudged, IsUnjudged};
ghost use Rattle.tcap_judging.specs.NameViews.{form_view};

use crate::fault::JudgingFault;
use crate::form::Form;
use crate::judging::judge;
use crate::label::Label;
use crate::line_run::{MOST_READS, PIECE};
use crate::message_text::add_message;
use crate::stream_cut::{Behind, take_octets};
use std::alloc::Allocator;
use std::io::{Read, Write};
use tcap_words::write_text;

/// Takes a piece of the stream, and writes the line of each message that it makes whole, and of the octets behind them
/// where a fault stands there. Tells whether all of these are good.
fn write_octets<A: Allocator + Copy, W: Write>(
    alloc: A,
    form: Form<'_>,
    behind: &mut Behind<A>,
    piece: &[u8],
    writer: &mut W,
) -> Result<bool, JudgingFault>
    requires { behind.old.offset + length behind.old.kept.items + length piece.now < 2 ^ 64 }
    ensures writes { MatchResult result
        (λ good. WritesOctets (form_view form.entry) (behind.old.kept.items ++ piece.now) behind.old.offset
        behind.new.kept.items behind.new.offset behind.new.fault (W.contents writer.old) (W.contents writer.new) good)
        (λ fault. AreOctetsUntaken (form_view form.entry) (behind.old.kept.items ++ piece.now) behind.old.offset
        (W.contents writer.old) (W.contents writer.new) fault) }
    ensures offset { OnOk result (behind.new.offset + length behind.new.kept.items
        ≡ behind.old.offset + length behind.old.kept.items + length piece.now) }
{
    let mut text = String::new(alloc);
    let good = take_octets(alloc, form, &mut text, behind, piece)?;
    write_text(writer, text.as_bytes())?;
    Ok(good)
}

/// Writes the line of the octets behind the last message, if there are any, where the stream ends. Tells whether the
/// stream is good, where so much of its messages is known.
fn end_stream<A: Allocator + Copy, W: Write>(
    alloc: A,
    form: Form<'_>,
    behind: &Behind<A>,
    good: bool,
    writer: &mut W,
) -> Result<bool, JudgingFault>
    ensures { MatchResult result
        (λ ends. Appends (W.contents writer.old) (W.contents writer.new)
        (entries_text (form_view form.entry) (unfinished_entries behind.now.offset behind.now.kept.items None))
        × (ends ≡ (good && are_good (unfinished_entries behind.now.offset behind.now.kept.items None))))
        (λ fault. IsRestUntold (form_view form.entry) behind.now.kept.items behind.now.offset (W.contents writer.old)
        (W.contents writer.new) fault) }
{
    if behind.kept.is_empty() {
        return Ok(good);
    }
    let mut text = String::new(alloc);
    let label = Label::Offset(behind.offset);
    let last = add_message(form, &mut text, label, &judge(behind.kept.as_slice()))?;
    write_text(writer, text.as_bytes())?;
    Ok(good & last)
}

/// Judges the messages of the stream that the reader gives, cut anywhere, and writes a line for each: the offset of its
/// first octet, the verdict, and where that isn't good the place of the fault, counted from that octet, and the rule
/// that isn't met there. Where no message can begin behind them, or the stream ends within one, these octets are judged
/// too; behind the former no more is read, and a line says so. Tells whether every message is good and nothing stands
/// behind the last. What can be written is written before the next read.
///
/// ```rust
/// let mut stream: &[u8] = &[0x62, 0x03, 0x48, 0x01, 0x07, 0x62, 0x03];
/// let mut out = Vec::new(alloc);
/// let form = Form { layout: Layout::Plain, names: None };
/// assert_eq!(rt; judge_stream(alloc, form, &mut stream, &mut out), Ok(false));
/// assert_eq!(rt; out.as_slice(), b"0 good\n5 fault badly formatted place 2 element 0: expected 3 more octets, found the end\n".as_slice());
/// ```
///
/// # Errors
///
/// As `judge_lines`.
pub fn judge_stream<A: Allocator + Copy, R: Read, W: Write>(
    alloc: A,
    form: Form<'_>,
    reader: &mut R,
    writer: &mut W,
) -> Result<bool, JudgingFault>
    ensures { MatchResult result
        (λ good. IsJudged (form_view form.entry) StreamTells (R.remaining reader.old) (R.remaining reader.new)
        (W.contents writer.old) (W.contents writer.new) good)
        (λ fault. IsUnjudged (form_view form.entry) StreamTells (R.remaining reader.old) (R.remaining reader.new)
        (W.contents writer.old) (W.contents writer.new) fault) }
{
    let mut behind = Behind {
        kept: Vec::new(alloc),
        offset: 0,
        fault: None,
    };
    let mut good = true;
    let mut piece = [0u8; PIECE];
    for _ in 0..MOST_READS {
        let Ok(count) = reader.read(&mut piece) else {
            return Err(JudgingFault::Read);
        };
        if count == 0 {
            return end_stream(alloc, form, &behind, good, writer);
        }
        good &= write_octets(alloc, form, &mut behind, &piece[..count], writer)?;
        if behind.fault.is_some() {
            return Ok(good);
        }
    }
    Err(JudgingFault::TooLong)
}

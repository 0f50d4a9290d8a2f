//! A run over lines of hexadecimal.

ghost use Rattle.std.specs.Prelude.{◌≡◌, ◌<◌, ◌≤◌, ◌+◌, ◌^◌, ◌&&◌, List, ℕ, length, MatchResult, OnOk};
ghost use Rattle.std.specs.Io.KnownBytes.{Appends};
ghost use Rattle.tcap_judging.specs.Entry.{LinesTell, line};
ghost use Rattle.tcap_judging.specs.EntryText.{entry_text, is_good_entry};
ghost use Rattle.tcap_judging.specs.LineViews.{IsUnderWay, IsWithin};
ghost use Rattle.tcap_judging.specs.LineSteps.{Writes, IsUntaken, IsUnended};
ghost use Rattle.tcap_judging.specs.Run.{IsJudged, IsUnjudged};
ghost use Rattle.tcap_judging.specs.NameViews.{form_view};

use crate::cut::{Begun, take_piece};
use crate::fault::JudgingFault;
use crate::form::Form;
use crate::naming::Naming;
use crate::under_way::add_kept;
use std::alloc::Allocator;
use std::io::{Read, Write};
use tcap_words::write_text;

/// The most reads of a run.
pub(crate) const MOST_READS: u64 = 1 << 40;
/// The octets that a read asks for.
pub(crate) const PIECE: usize = 4_096;

/// Takes a piece of the input, and writes what is printed for each line that ends in it. Tells whether all of these
/// lines are good.
fn write_piece<A: Allocator + Copy, W: Write>(
    alloc: A,
    form: Form<'_>,
    naming: Naming,
    begun: &mut Begun<A>,
    piece: &[u8],
    writer: &mut W,
) -> Result<bool, JudgingFault>
    requires { begun.old.number + length piece.now < 2 ^ 64 }
    ensures writes { (before : List ℕ) → IsUnderWay before begun.old.kept.items begun.old.is_long
        → MatchResult result
        (λ good. Writes (form_view form.entry) naming before piece.now begun.old.number begun.new.kept.items
        begun.new.is_long begun.new.number (W.contents writer.old) (W.contents writer.new) good)
        (λ fault. IsUntaken (form_view form.entry) naming before piece.now begun.old.number (W.contents writer.old)
        (W.contents writer.new) fault) }
    ensures number { OnOk result (begun.new.number ≤ begun.old.number + length piece.now) }
{
    let mut text = String::new(alloc);
    let good = take_piece(alloc, form, naming, &mut text, begun, piece)?;
    write_text(writer, text.as_bytes())?;
    Ok(good)
}

/// Writes what is printed for the last line, and tells whether the input is good, where so much of its other lines is
/// known.
fn end_input<A: Allocator + Copy, W: Write>(
    alloc: A,
    form: Form<'_>,
    naming: Naming,
    begun: &Begun<A>,
    good: bool,
    writer: &mut W,
) -> Result<bool, JudgingFault>
    requires { IsWithin begun.now.kept.items begun.now.is_long }
    ensures { (before : List ℕ) → IsUnderWay before begun.now.kept.items begun.now.is_long → MatchResult result
        (λ ends. Appends (W.contents writer.old) (W.contents writer.new)
        (entry_text (form_view form.entry) (line naming begun.now.number before))
        × (ends ≡ (good && is_good_entry (line naming begun.now.number before))))
        (λ fault. IsUnended (form_view form.entry) naming before begun.now.number (W.contents writer.old)
        (W.contents writer.new) fault) }
{
    let mut text = String::new(alloc);
    let kept = begun.kept.as_slice();
    let last = add_kept(
        alloc,
        form,
        naming,
        &mut text,
        begun.number,
        kept,
        begun.is_long,
    )?;
    write_text(writer, text.as_bytes())?;
    Ok(good & last)
}

/// Judges the messages that the reader gives in lines of hexadecimal, each `HEX` or `NAME HEX`, and writes a line for
/// each: its name, or the number of its line, the verdict, and where that isn't good the place of the fault and the
/// rule that isn't met there. Of a line that is neither it writes what is wrong, and goes on; blank lines are passed
/// over. Tells whether every message is good and there is no other line. What can be written is written before the
/// next read. A line of more than 200,000 octets isn't kept.
///
/// ```rust
/// let mut lines: &[u8] = b"a: 62 03 48 01 07\n6203490107\n";
/// let mut out = Vec::new(alloc);
/// let form = Form { layout: Layout::Plain, names: None };
/// assert_eq!(rt; judge_lines(alloc, form, Naming::Marked, &mut lines, &mut out), Ok(false));
/// assert_eq!(rt; out.as_slice(), b"a good\n2 fault incorrect place 2 element 2: expected the originating transaction identifier 0x48, found 0x49\n".as_slice());
/// ```
///
/// # Errors
///
/// `Read` where a read failed, or was interrupted; `TooLong` where 1,099,511,627,776 reads didn't find the end;
/// `OutOfMemory` where memory was refused; `Write` where a write failed.
pub fn judge_lines<A: Allocator + Copy, R: Read, W: Write>(
    alloc: A,
    form: Form<'_>,
    naming: Naming,
    reader: &mut R,
    writer: &mut W,
) -> Result<bool, JudgingFault>
    ensures { MatchResult result
        (λ good. IsJudged (form_view form.entry) (LinesTell naming) (R.remaining reader.old) (R.remaining reader.new)
        (W.contents writer.old) (W.contents writer.new) good)
        (λ fault. IsUnjudged (form_view form.entry) (LinesTell naming) (R.remaining reader.old) (R.remaining reader.new)
        (W.contents writer.old) (W.contents writer.new) fault) }
{
    let mut begun = Begun {
        kept: Vec::new(alloc),
        is_long: false,
        number: 1,
    };
    let mut good = true;
    let mut piece = [0u8; PIECE];
    for _ in 0..MOST_READS {
        let Ok(count) = reader.read(&mut piece) else {
            return Err(JudgingFault::Read);
        };
        if count == 0 {
            return end_input(alloc, form, naming, &begun, good, writer);
        }
        good &= write_piece(alloc, form, naming, &mut begun, &piece[..count], writer)?;
    }
    Err(JudgingFault::TooLong)
}

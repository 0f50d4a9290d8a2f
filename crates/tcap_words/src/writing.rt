//! Writing a text to a writer.

ghost use Rattle.std.specs.Prelude.{◌≤◌, length, take, unwrap_or, IfSome, MatchResult};
ghost use Rattle.std.specs.Io.KnownBytes.{Appends};
ghost use Rattle.tcap_words.specs.Writing.{IsFront};

use std::io::{ErrorKind, Write};

/// A write failed, and some of the text was not written.
#[derive(Clone, Copy, Debug, PartialEq, Eq)]
pub struct WriteFailed;

/// Writes a prefix of the text by one write, and tells its length, 0 where the write was interrupted;
/// None where it failed.
fn write_front<W: Write>(out: &mut W, text: &[u8]) -> Option<usize>
    ensures bound { IfSome result (λ count. count ≤ length text.now) }
    ensures written { Appends (W.contents out.old) (W.contents out.new) (take (unwrap_or result 0) text.now) }
{
    match out.write(text) {
        Ok(0) => None,
        Ok(count) => Some(count),
        Err(error) if error.kind() == ErrorKind::Interrupted => Some(0),
        Err(_) => None,
    }
}

/// Writes the text; where a write fails, a prefix of it was written, and never all of it. An empty text
/// is written without a call of the writer.
pub fn write_text<W: Write>(out: &mut W, text: &[u8]) -> Result<(), WriteFailed>
    ensures { MatchResult result
        (λ _. Appends (W.contents out.old) (W.contents out.new) text.now)
        (λ _. IsFront text.now (W.contents out.old) (W.contents out.new)) }
{
    let mut rest = text;
    for _ in 0..u64::MAX {
        if rest.is_empty() {
            break;
        }
        let Some(count) = write_front(out, rest) else {
            break;
        };
        rest = &rest[count..];
    }
    if rest.is_empty() {
        Ok(())
    } else {
        Err(WriteFailed)
    }
}

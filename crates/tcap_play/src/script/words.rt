//! The words of a line.

ghost use Rattle.std.specs.Prelude.{◌≡◌, OnOk};
ghost use Rattle.tcap_play.specs.LineViews.{texts_of};
ghost use Rattle.tcap_play.specs.Pieces.{words_of};

use crate::pieces::first_piece;
use ber_core::OutOfMemory;
use std::alloc::Allocator;

/// Cuts a line into its words, in place of those that were there: the vector of one line serves the next. A line
/// of more words than a form has is the last, so that no room is kept for more.
/// A word is a part of the line, and what it stands for is read where a form of line asks for it.
pub fn cut_words<'s, A: Allocator + Copy>(
    words: &mut Vec<&'s [u8], A>,
    line: &'s [u8],
) -> Result<(), OutOfMemory>
    ensures { OnOk result (texts_of words.new.items ≡ words_of line.entry.now) }
{
    words.clear();
    let mut rest = Some(line);
    while let Some(octets) = rest {
        let (word, more) = first_piece(octets, b' ');
        words.reserve(1)?;
        words.push_reserved(word);
        rest = more;
    }
    Ok(())
}

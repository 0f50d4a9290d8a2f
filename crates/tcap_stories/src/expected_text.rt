//! The text of an expectation: words of visible characters of ASCII, one space between them.

ghost use Rattle.std.specs.Prelude.{◌≡◌};
ghost use Rattle.tcap_lines.specs.Misfit.{unwritten};
ghost use Rattle.tcap_stories.specs.ExpectedText.{text_fault};

use tcap_lines::{LineFault, WordFault};
use tcap_play::first_piece;

/// What makes octets no word: that there are none, or a character that no word has.
fn unwritten(word: &[u8]) -> Option<WordFault>
    ensures { result ≡ unwritten word.now }
{
    if word.is_empty() {
        return Some(WordFault::Empty);
    }
    for octet in word {
        if !octet.is_ascii_graphic() {
            return Some(WordFault::Character(*octet));
        }
    }
    None
}

/// What is wrong first with the words of a text, if anything: `expect` before it is word 1.
pub(crate) fn text_fault(text: &[u8]) -> Option<LineFault>
    ensures { result ≡ text_fault text.now }
{
    let mut number = 2usize;
    let mut rest = Some(text);
    while let Some(words) = rest {
        let (word, more) = first_piece(words, b' ');
        if let Some(fault) = unwritten(word) {
            return Some(LineFault {
                word: number,
                fault,
            });
        }
        number += 1;
        rest = more;
    }
    None
}

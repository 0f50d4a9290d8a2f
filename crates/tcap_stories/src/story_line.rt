//! The lines of a story.

ghost use Rattle.std.specs.Prelude.{◌≡◌, Some, None, drop, option_copied, if◌then◌else◌};
ghost use Rattle.tcap_stories.specs.ExpectedText.{text_fault};
ghost use Rattle.tcap_stories.specs.StoryLine.{expects_if, is_expectation, kind_of, wanted_by};
ghost use Rattle.tcap_stories.specs.Views.{line_view};

use crate::expected_text::text_fault;
use crate::text::is;
use tcap_play::is_skipped;

/// What a line of a story is.
#[derive(Clone, Copy)]
pub(crate) enum StoryLine<'s> {
    /// It is skipped.
    Skipped,
    /// It says what is expected.
    Expects(&'s [u8]),
    /// It is any other: a line of a play, or bad.
    Plays,
}

/// The text behind `expect` and a space, where they stand first.
pub(crate) fn expectation(line: &[u8]) -> Option<&[u8]>
    ensures { option_copied result ≡ (if is_expectation line.now then Some (drop 7 line.now) else None) }
{
    match line.split_at_checked(7) {
        Some((b"expect ", text)) => Some(text),
        _ => None,
    }
}

/// What a line with this text is: it says what is expected where nothing is wrong with a word of it.
fn expects_if(text: &[u8]) -> StoryLine<'_>
    ensures { line_view result ≡ expects_if (text_fault text.now) text.now }
{
    match text_fault(text) {
        None => StoryLine::Expects(text),
        Some(_) => StoryLine::Plays,
    }
}

/// What a line is: `expect` and a space stand before what is expected.
pub(crate) fn kind_of(line: &[u8]) -> StoryLine<'_>
    ensures { line_view result ≡ kind_of line.now }
{
    if is_skipped(line) {
        return StoryLine::Skipped;
    }
    match expectation(line) {
        Some(text) => expects_if(text),
        None => StoryLine::Plays,
    }
}

/// What is expected: the line of an output, or None, that there is none.
pub(crate) fn wanted_by(text: &[u8]) -> Option<&[u8]>
    ensures { option_copied result ≡ wanted_by text.now }
{
    if is(text, "nothing") {
        None
    } else {
        Some(text)
    }
}

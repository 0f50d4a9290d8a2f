//! What a message is called.

ghost use Rattle.std.specs.Prelude.{◌≡◌, ◌++◌, OnOk, option_map, string_bytes};
ghost use Rattle.tcap_judging.specs.Label.{label_of, label_words};
ghost use Rattle.tcap_judging.specs.LineViews.{label_view};

use ber_core::OutOfMemory;
use std::alloc::Allocator;
use tcap_words::add_decimal;

/// What a message is called in the output.
#[derive(Clone, Copy)]
pub(crate) enum Label<'a> {
    /// The name that stands before it.
    Name(&'a str),
    /// The number of its line, counted from 1.
    Line(u64),
    /// The offset of its first octet in the stream.
    Offset(u64),
}

/// What the message of a line is called: its name, or the number of the line where it has none.
pub(crate) fn label_of<'a>(number: u64, name: Option<&'a str>) -> Label<'a>
    ensures { label_view result ≡ label_of number (option_map (λ n. n.now) name.entry) }
{
    match name {
        Some(words) => Label::Name(words),
        None => Label::Line(number),
    }
}

/// Adds the words for what a message is called.
pub(crate) fn add_label<A: Allocator + Copy>(
    text: &mut String<A>,
    called: Label<'_>,
) -> Result<(), OutOfMemory>
    ensures { OnOk result (string_bytes text.new ≡ string_bytes text.old ++ label_words (label_view called.entry)) }
{
    match called {
        Label::Name(words) => Ok(text.push_str(words)?),
        Label::Line(number) | Label::Offset(number) => add_decimal(text, number),
    }
}

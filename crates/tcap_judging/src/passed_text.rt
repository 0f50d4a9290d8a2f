//! What is printed for octets that are passed over.

ghost use Rattle.std.specs.Prelude.{◌≡◌, ◌++◌, OnOk, string_bytes};
ghost use Rattle.tcap_judging.specs.EntryText.{passed_text, plain_passed_text};

use crate::form::Layout;
use crate::json_text::add_passed_object;
use ber_core::OutOfMemory;
use std::alloc::Allocator;
use tcap_words::add_decimal;

/// Adds what is printed for octets that are passed over.
pub(crate) fn add_passed<A: Allocator + Copy>(
    layout: Layout,
    text: &mut String<A>,
    first: u64,
    count: u64,
) -> Result<(), OutOfMemory>
    ensures { OnOk result (string_bytes text.new ≡ string_bytes text.old ++ passed_text layout first count) }
{
    match layout {
        Layout::Json => add_passed_object(text, first, count),
        Layout::Plain | Layout::Marked => add_plain_passed(text, first, count),
    }
}

/// Adds the line of octets that are passed over.
fn add_plain_passed<A: Allocator + Copy>(
    text: &mut String<A>,
    first: u64,
    count: u64,
) -> Result<(), OutOfMemory>
    ensures { OnOk result (string_bytes text.new ≡ string_bytes text.old ++ plain_passed_text first count) }
{
    add_decimal(text, first)?;
    text.push_str(" passed over ")?;
    add_decimal(text, count)?;
    Ok(text.push_str(" octets\n")?)
}

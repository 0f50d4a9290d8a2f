//! What is printed for a line.

ghost use Rattle.std.specs.Prelude.{◌≡◌, ◌≤◌, ◌++◌, length, IfOk, OnOk, option_map, string_bytes};
ghost use Rattle.std.specs.List.{filter};
ghost use Rattle.hex.specs.Hex.{is_hex_digit};
ghost use Rattle.tcap_judging.specs.Entry.{line};
ghost use Rattle.tcap_judging.specs.EntryText.{plain_bad_text, bad_text, hex_text, entry_text, is_good_entry, is_good_hex};
ghost use Rattle.tcap_judging.specs.LineParts.{line_limit, octets_of};
ghost use Rattle.tcap_judging.specs.LineViews.{label_view};
ghost use Rattle.tcap_judging.specs.NameViews.{form_view};

use crate::bad_line::{BadLine, add_bad};
use crate::form::{Form, Layout};
use crate::json_text::add_bad_object;
use crate::judging::judge;
use crate::label::{Label, label_of};
use crate::line_parts::{LineParts, is_digit, parts_within};
use crate::message_text::add_message;
use crate::naming::Naming;
use ber_core::OutOfMemory;
use std::alloc::Allocator;
use tcap_words::{add_decimal, hex_octets};

/// Adds the line of a line that is neither blank nor a message.
fn add_plain_bad<A: Allocator + Copy>(
    text: &mut String<A>,
    number: u64,
    why: BadLine,
) -> Result<(), OutOfMemory>
    ensures { OnOk result (string_bytes text.new ≡ string_bytes text.old ++ plain_bad_text number why) }
{
    text.push_str("line ")?;
    add_decimal(text, number)?;
    text.push_str(" bad: ")?;
    add_bad(text, why)?;
    Ok(text.push_str("\n")?)
}

/// Adds what is printed for such a line.
pub(crate) fn add_bad_line<A: Allocator + Copy>(
    layout: Layout,
    text: &mut String<A>,
    number: u64,
    why: BadLine,
) -> Result<(), OutOfMemory>
    ensures { OnOk result (string_bytes text.new ≡ string_bytes text.old ++ bad_text layout number why) }
{
    match layout {
        Layout::Plain | Layout::Marked => add_plain_bad(text, number, why),
        Layout::Json => add_bad_object(text, number, why),
    }
}

/// The digits of hexadecimal, without what stands between them.
fn digits_of<A: Allocator + Copy>(alloc: A, hex: &[u8]) -> Result<Vec<u8, A>, OutOfMemory>
    ensures { IfOk result (λ digits. digits.items ≡ filter is_hex_digit hex.now) }
{
    let digits = hex.iter().copied().filter(|octet| is_digit(*octet));
    Ok(digits.collect(alloc)?)
}

/// The octets that hexadecimal spells, None where its digits are an odd number.
fn octets_of<A: Allocator + Copy>(alloc: A, hex: &[u8]) -> Result<Option<Vec<u8, A>>, OutOfMemory>
    ensures { IfOk result (λ octets. option_map (λ o. o.items) octets ≡ octets_of hex.now) }
{
    let digits = digits_of(alloc, hex)?;
    hex_octets(alloc, digits.as_slice())
}

/// Adds what is printed for hexadecimal, and tells whether it is a good message.
fn add_hex_line<A: Allocator + Copy>(
    alloc: A,
    form: Form<'_>,
    text: &mut String<A>,
    number: u64,
    called: Label<'_>,
    hex: &[u8],
) -> Result<bool, OutOfMemory>
    ensures text { OnOk result (string_bytes text.new ≡ string_bytes text.old
        ++ hex_text (form_view form.entry) number (label_view called.entry) (octets_of hex.now)) }
    ensures good { IfOk result (λ good. good ≡ is_good_hex (octets_of hex.now)) }
{
    match octets_of(alloc, hex)? {
        Some(octets) => add_message(form, text, called, &judge(octets.as_slice())),
        None => {
            add_bad_line(form.layout, text, number, BadLine::OddDigits)?;
            Ok(false)
        }
    }
}

/// Adds what is printed for a line of this number that isn't too long, and tells whether it is good.
pub(crate) fn add_line<A: Allocator + Copy>(
    alloc: A,
    form: Form<'_>,
    naming: Naming,
    text: &mut String<A>,
    number: u64,
    octets: &[u8],
) -> Result<bool, OutOfMemory>
    requires { length octets.now ≤ line_limit }
    ensures text { OnOk result (string_bytes text.new ≡ string_bytes text.old
        ++ entry_text (form_view form.entry) (line naming number octets.now)) }
    ensures good { IfOk result (λ good. good ≡ is_good_entry (line naming number octets.now)) }
{
    match parts_within(naming, octets) {
        LineParts::Blank => Ok(true),
        LineParts::Hex(name, hex) => {
            add_hex_line(alloc, form, text, number, label_of(number, name), hex)
        }
        LineParts::Bad(why) => {
            add_bad_line(form.layout, text, number, why)?;
            Ok(false)
        }
    }
}

//! What is wrong in a line.

ghost use Rattle.std.specs.Prelude.{◌≡◌, ◌++◌, OnOk, string_bytes};
ghost use Rattle.tcap_judging.specs.BadLine.{column_words, bad_words};

use ber_core::OutOfMemory;
use std::alloc::Allocator;
use tcap_words::{add_decimal, add_hex};

/// What is wrong in a line that is neither blank nor a message in hexadecimal, the first from the left (our own).
/// Columns are counted from 1.
#[derive(Clone, Copy, Debug, PartialEq, Eq)]
pub enum BadLine {
    /// It has more than 200,000 octets.
    TooLong,
    /// The name has at this column an octet that no name has: no visible ASCII, or a quotation mark or a backslash.
    Name(usize, u8),
    /// The hexadecimal has neither a digit nor a blank nor a colon at this column, but this octet.
    Digit(usize, u8),
    /// There is no digit of hexadecimal, and no name.
    NoDigits,
    /// There is no digit of hexadecimal behind the name.
    NoDigitsBehind,
    /// The digits are an odd number.
    OddDigits,
}

/// Adds a column, what was expected there, and the octet that was found.
fn add_column<A: Allocator + Copy>(
    text: &mut String<A>,
    column: usize,
    expected: &str,
    octet: u8,
) -> Result<(), OutOfMemory>
    ensures { OnOk result (string_bytes text.new ≡ string_bytes text.old ++ column_words column expected.now octet) }
{
    text.push_str("column ")?;
    add_decimal(text, column as u64)?;
    text.push_str(expected)?;
    add_hex(text, &[octet])
}

/// Adds the words for what is wrong in a line.
pub(crate) fn add_bad<A: Allocator + Copy>(
    text: &mut String<A>,
    why: BadLine,
) -> Result<(), OutOfMemory>
    ensures { OnOk result (string_bytes text.new ≡ string_bytes text.old ++ bad_words why) }
{
    match why {
        BadLine::TooLong => Ok(text.push_str("more than 200000 octets")?),
        BadLine::Name(column, octet) => add_column(
            text,
            column,
            ": expected a name of visible ASCII without quotation marks and backslashes, found 0x",
            octet,
        ),
        BadLine::Digit(column, octet) => add_column(
            text,
            column,
            ": expected a hexadecimal digit, found 0x",
            octet,
        ),
        BadLine::NoDigits => Ok(text.push_str("no hexadecimal digits")?),
        BadLine::NoDigitsBehind => Ok(text.push_str("no hexadecimal digits behind the name")?),
        BadLine::OddDigits => Ok(text.push_str("an odd number of hexadecimal digits")?),
    }
}

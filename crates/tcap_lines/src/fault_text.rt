//! The words of what is wrong with a line.

ghost use Rattle.std.specs.Prelude.{◌≡◌, ◌++◌, [], ◌∷◌, codes, OnOk, string_bytes, map};
ghost use Rattle.std.specs.Fmt.{signed_decimal};
ghost use Rattle.hex.specs.Hex.{encode_lower};
ghost use Rattle.tcap_lines.specs.FaultText.{expected_words, fault_words, line_fault_words, name_words, names_at, one_of, range_words, signed_range_words};
ghost use Rattle.tcap_lines.specs.Table.{names_of};
ghost use Rattle.tcap_lines.specs.TableViews.{forms_view, table_view};

use crate::expected::Expected;
use crate::fault::{LineFault, WordFault};
use crate::table::{Form, Table};
use ber_core::OutOfMemory;
use std::alloc::Allocator;
use tcap_words::{add_decimal, add_hex, add_signed};

/// Adds the range of a number.
fn add_range<A: Allocator + Copy>(
    text: &mut String<A>,
    least: u64,
    most: u64,
) -> Result<(), OutOfMemory>
    ensures { OnOk result (string_bytes text.new ≡ string_bytes text.old ++ range_words least most) }
{
    text.push_str("a number from ")?;
    add_decimal(text, least)?;
    text.push_str(" to ")?;
    add_decimal(text, most)
}

/// Adds a number that may be below zero.
fn add_limit<A: Allocator + Copy>(text: &mut String<A>, limit: i32) -> Result<(), OutOfMemory>
    ensures { OnOk result (string_bytes text.new ≡ string_bytes text.old ++ signed_decimal limit) }
{
    add_signed(text, i64::from(limit))
}

/// Adds the range of a number that may be below zero.
fn add_signed_range<A: Allocator + Copy>(
    text: &mut String<A>,
    least: i32,
    most: i32,
) -> Result<(), OutOfMemory>
    ensures { OnOk result (string_bytes text.new ≡ string_bytes text.old ++ signed_range_words least most) }
{
    text.push_str("a number from ")?;
    add_limit(text, least)?;
    text.push_str(" to ")?;
    add_limit(text, most)
}

/// Adds the words of what is expected, as `a number from 1 to 4`. Where memory is refused, a beginning of
/// them may have been added.
pub fn add_expected<A: Allocator + Copy>(
    text: &mut String<A>,
    expected: Expected,
) -> Result<(), OutOfMemory>
    ensures { OnOk result (string_bytes text.new ≡ string_bytes text.old ++ expected_words expected) }
{
    match expected {
        Expected::Number(least, most) => add_range(text, least, most),
        Expected::Signed(least, most) => add_signed_range(text, least, most),
        Expected::OptionalSigned(least, most) => {
            add_signed_range(text, least, most)?;
            Ok(text.push_str(", or -")?)
        }
        Expected::Octets => Ok(text.push_str("octets in hexadecimal, or -")?),
        Expected::OctetsBehindCode => Ok(text.push_str("octets in hexadecimal, or -")?),
        Expected::Address => {
            Ok(text.push_str("an address in hexadecimal, of at most 255 octets, or -")?)
        }
        Expected::Context => Ok(text.push_str("an application context in hexadecimal, or -")?),
        Expected::DottedContext => {
            Ok(text.push_str("an application context in dotted form or in hexadecimal, or -")?)
        }
        Expected::ProblemKind => Ok(text.push_str("general, invoke, result or error")?),
        Expected::AbortReason => Ok(text.push_str("user or unsupported")?),
        Expected::Message => Ok(text.push_str("a message, as A1")?),
    }
}

/// Adds words, a space before each.
fn add_listed<A: Allocator + Copy>(text: &mut String<A>, words: &[&str]) -> Result<(), OutOfMemory>
    ensures { OnOk result (string_bytes text.new ≡ string_bytes text.old
        ++ name_words (map (λ w. w.now) words.now)) }
{
    for word in words {
        text.push_str(" ")?;
        text.push_str(word)?;
    }
    Ok(())
}

/// Adds the names of forms, a space before each.
fn add_names<A: Allocator + Copy>(
    text: &mut String<A>,
    forms: &[Form<'_>],
) -> Result<(), OutOfMemory>
    ensures { OnOk result (string_bytes text.new ≡ string_bytes text.old
        ++ name_words (names_of (forms_view forms.now))) }
{
    for form in forms {
        text.push_str(" ")?;
        text.push_str(form.name)?;
    }
    Ok(())
}

/// Adds the names that the first word may be.
fn add_first_names<A: Allocator + Copy>(
    text: &mut String<A>,
    table: &Table<'_>,
) -> Result<(), OutOfMemory>
    ensures { OnOk result (string_bytes text.new ≡ string_bytes text.old
        ++ name_words (names_at (table_view table.now) 1)) }
{
    add_listed(text, table.sides)?;
    add_names(text, table.alone)
}

/// Adds the names that the word with this number may be.
fn add_names_at<A: Allocator + Copy>(
    text: &mut String<A>,
    table: &Table<'_>,
    word: usize,
) -> Result<(), OutOfMemory>
    ensures { OnOk result (string_bytes text.new ≡ string_bytes text.old
        ++ one_of (names_at (table_view table.now) word)) }
{
    text.push_str("one of")?;
    if word == 1 {
        add_first_names(text, table)
    } else {
        add_names(text, table.on_side)
    }
}

/// Adds words, and what is expected.
fn add_expectation<A: Allocator + Copy>(
    text: &mut String<A>,
    words: &str,
    expected: Expected,
) -> Result<(), OutOfMemory>
    ensures { OnOk result (string_bytes text.new ≡ string_bytes text.old
        ++ (words.now ++ expected_words expected)) }
{
    text.push_str(words)?;
    add_expected(text, expected)
}

/// Adds words, and the names that the word with this number may be.
fn add_choice<A: Allocator + Copy>(
    text: &mut String<A>,
    words: &str,
    table: &Table<'_>,
    word: usize,
) -> Result<(), OutOfMemory>
    ensures { OnOk result (string_bytes text.new ≡ string_bytes text.old
        ++ (words.now ++ one_of (names_at (table_view table.now) word))) }
{
    text.push_str(words)?;
    add_names_at(text, table, word)
}

/// Adds that a word has this octet.
fn add_character<A: Allocator + Copy>(text: &mut String<A>, octet: u8) -> Result<(), OutOfMemory>
    ensures { OnOk result (string_bytes text.new ≡ string_bytes text.old
        ++ (codes ", no character " ++ encode_lower (octet ∷ []))) }
{
    text.push_str(", no character ")?;
    add_hex(text, &[octet])
}

/// Adds the words of what is wrong with the word of this number, behind those of the word.
fn add_fault<A: Allocator + Copy>(
    text: &mut String<A>,
    table: &Table<'_>,
    word: usize,
    fault: WordFault,
) -> Result<(), OutOfMemory>
    ensures { OnOk result (string_bytes text.new ≡ string_bytes text.old
        ++ fault_words (names_at (table_view table.now) word) fault) }
{
    match fault {
        WordFault::Empty => Ok(text.push_str(", one space between words")?),
        WordFault::Character(octet) => add_character(text, octet),
        WordFault::Name => add_choice(text, ", ", table, word),
        WordFault::NoName => add_choice(text, " is missing, ", table, word),
        WordFault::LeadingZeros => Ok(text.push_str(", a number without leading zeros")?),
        WordFault::OddDigits => Ok(text.push_str(", an even number of hexadecimal digits")?),
        WordFault::NoCode => Ok(text.push_str(", - behind a code that is -")?),
        WordFault::Other(expected) => add_expectation(text, ", ", expected),
        WordFault::Missing(expected) => add_expectation(text, " is missing, ", expected),
        WordFault::Surplus => Ok(text.push_str(", nothing more")?),
    }
}

/// Adds the words of what is wrong with a line, as `word 3, a number without leading zeros`: the number of the
/// word, and what is expected there by the table. Where memory is refused, a beginning of them may have been
/// added.
///
/// ```rust
/// let mut text = String::new(rt.alloc());
/// let fault = WordFault::Missing(Expected::Number(1, 4));
/// add_line_fault(&mut text, &table, LineFault { word: 5, fault })?;
/// assert_eq!(rt; text.as_str(), "word 5 is missing, a number from 1 to 4");
/// ```
pub fn add_line_fault<A: Allocator + Copy>(
    text: &mut String<A>,
    table: &Table<'_>,
    fault: LineFault,
) -> Result<(), OutOfMemory>
    ensures { OnOk result (string_bytes text.new ≡ string_bytes text.old
        ++ line_fault_words (table_view table.now) fault) }
{
    text.push_str("word ")?;
    add_decimal(text, fault.word as u64)?;
    add_fault(text, table, fault.word, fault.fault)
}

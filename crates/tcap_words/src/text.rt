//! Lines of a text.

ghost use Rattle.std.specs.Prelude.{◌≡◌, ◌≤◌, ◌++◌, length, take, OnOk, OnErr, IfOk, string_bytes, option_copied};
ghost use Rattle.std.specs.Fmt.{decimal, signed_decimal};
ghost use Rattle.std.specs.Str.{IsUtf8};
ghost use Rattle.tcap_words.specs.Text.{line, octets_line, number_line, octets_words, optional_octets_words, answer_words};

use crate::hexadecimal::{add_hex, push_hex};
use ber_core::OutOfMemory;
use itoa::Buffer;
use std::alloc::Allocator;

/// Cuts a text back to its first octets, so many, where no more could be added.
pub(crate) fn cut_back<A: Allocator + Copy>(text: &mut String<A>, len: usize)
    requires within { len ≤ length (string_bytes text.old) }
    requires whole { IsUtf8 (take len (string_bytes text.old)) }
    ensures { string_bytes text.new ≡ take len (string_bytes text.old) }
{
    text.truncate(len);
}

/// Adds a line of some words. Where memory is refused, the text is as before.
pub fn add_line<A: Allocator + Copy>(text: &mut String<A>, words: &str) -> Result<(), OutOfMemory>
    ensures ok { OnOk result (string_bytes text.new ≡ string_bytes text.old ++ line words.now) }
    ensures err { OnErr result (string_bytes text.new ≡ string_bytes text.old) }
{
    text.reserve(words.len() + 1)?;
    text.push_str(words).unwrap();
    text.push_str("\n").unwrap();
    Ok(())
}

/// Adds a number in decimal. Its digits are made on the stack, at a third of what `write!` takes. Where
/// memory is refused, the text is as before.
pub fn add_decimal<A: Allocator + Copy>(
    text: &mut String<A>,
    number: u64,
) -> Result<(), OutOfMemory>
    ensures ok { OnOk result (string_bytes text.new ≡ string_bytes text.old ++ decimal number) }
    ensures err { OnErr result (string_bytes text.new ≡ string_bytes text.old) }
{
    let mut buffer = Buffer::new();
    Ok(text.push_str(buffer.format(number))?)
}

/// Adds a number in decimal, which may be negative. Where memory is refused, the text is as before.
pub fn add_signed<A: Allocator + Copy>(text: &mut String<A>, number: i64) -> Result<(), OutOfMemory>
    ensures ok { OnOk result (string_bytes text.new ≡ string_bytes text.old ++ signed_decimal number) }
    ensures err { OnErr result (string_bytes text.new ≡ string_bytes text.old) }
{
    Ok(text.push_str(Buffer::new().format(number))?)
}

/// Adds a line of a name and octets in hexadecimal. Where memory is refused, the text is as before.
pub(crate) fn add_octets<A: Allocator + Copy>(
    text: &mut String<A>,
    name: &str,
    octets: &[u8],
) -> Result<(), OutOfMemory>
    requires { length octets.now ≤ 4 }
    ensures ok { OnOk result (string_bytes text.new ≡ string_bytes text.old ++ octets_line name.now octets.now) }
    ensures err { OnErr result (string_bytes text.new ≡ string_bytes text.old) }
{
    text.reserve(name.len() + 2 * octets.len() + 2)?;
    text.push_str(name).unwrap();
    text.push_str(" ").unwrap();
    push_hex(text, octets);
    text.push_str("\n").unwrap();
    Ok(())
}

/// Adds a line of a name and a decimal number. Where memory is refused, the text is as before.
pub fn add_number<A: Allocator + Copy>(
    text: &mut String<A>,
    name: &str,
    number: usize,
) -> Result<(), OutOfMemory>
    ensures ok { OnOk result (string_bytes text.new ≡ string_bytes text.old ++ number_line name.now number) }
    ensures err { OnErr result (string_bytes text.new ≡ string_bytes text.old) }
{
    let mut buffer = Buffer::new();
    let digits = buffer.format(number);
    text.reserve(name.len() + digits.len() + 2)?;
    text.push_str(name).unwrap();
    text.push_str(" ").unwrap();
    text.push_str(digits).unwrap();
    text.push_str("\n").unwrap();
    Ok(())
}

/// Octets in hexadecimal, `-` where there are none.
pub fn octets_or_dash<A: Allocator + Copy>(
    alloc: A,
    octets: &[u8],
) -> Result<String<A>, OutOfMemory>
    ensures { IfOk result (λ words. string_bytes words ≡ octets_words octets.now) }
{
    if octets.is_empty() {
        return Ok(format!(in alloc; "-")?);
    }
    Ok(hex::encode(alloc, octets)?)
}

/// Adds octets in hexadecimal, `-` where there are none. Where memory is refused, the text is as before.
pub fn add_octets_or_dash<A: Allocator + Copy>(
    text: &mut String<A>,
    octets: &[u8],
) -> Result<(), OutOfMemory>
    ensures ok { OnOk result (string_bytes text.new ≡ string_bytes text.old ++ octets_words octets.now) }
    ensures err { OnErr result (string_bytes text.new ≡ string_bytes text.old) }
{
    if octets.is_empty() {
        return Ok(text.push_str("-")?);
    }
    add_hex(text, octets)
}

/// Adds octets in hexadecimal, `-` where there are none or they are absent. Where memory is refused, the
/// text is as before.
pub fn add_optional_octets<A: Allocator + Copy>(
    text: &mut String<A>,
    octets: Option<&[u8]>,
) -> Result<(), OutOfMemory>
    ensures ok { OnOk result (string_bytes text.new ≡ string_bytes text.old
        ++ optional_octets_words (option_copied octets.entry)) }
    ensures err { OnErr result (string_bytes text.new ≡ string_bytes text.old) }
{
    match octets {
        Some(octets) => add_octets_or_dash(text, octets),
        None => Ok(text.push_str("-")?),
    }
}

/// Octets in hexadecimal, `-` where there are none or they are absent.
pub fn optional_octets_or_dash<A: Allocator + Copy>(
    alloc: A,
    octets: Option<&[u8]>,
) -> Result<String<A>, OutOfMemory>
    ensures { IfOk result (λ words. string_bytes words ≡ optional_octets_words (option_copied octets.entry)) }
{
    match octets {
        Some(octets) => octets_or_dash(alloc, octets),
        None => Ok(format!(in alloc; "-")?),
    }
}

/// `yes` or `no`.
pub(crate) fn yes_or_no(answer: bool) -> &'static str
    ensures { result.now ≡ answer_words answer }
{
    if answer { "yes" } else { "no" }
}

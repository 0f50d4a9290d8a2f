//! What is told of a word that isn't what it has to be.

ghost use Rattle.std.specs.Prelude.{◌≡◌, ◌↔◌, IsTrue};
ghost use Rattle.std.specs.Char.{is_ascii_digit, is_ascii_hexdigit};
ghost use Rattle.std.specs.List.{AllPass};
ghost use Rattle.tcap_lines.specs.declared.fault.WordFault.TheVariants as fault;
ghost use Rattle.tcap_lines.specs.LineFaults.{surplus};
ghost use Rattle.tcap_lines.specs.Misfit.{are_padded, begins_with_zero, is_led_by_zeros, is_odd, or_else, told, told_of_number, told_of_octets, unwritten};

use crate::expected::Expected;
use crate::fault::WordFault;
use crate::fits::is_dash;

/// What makes octets no word: that there are none, or a character that no word has.
fn unwritten(word: &[u8]) -> Option<WordFault>
    ensures { result ≡ unwritten word.now }
{
    if word.is_empty() {
        return Some(WordFault::Empty);
    }
    for octet in word {
        if !octet.is_ascii_graphic() {
            return Some(WordFault::Character(*octet));
        }
    }
    None
}

/// Whether all octets are decimal digits.
fn are_digits(word: &[u8]) -> bool
    ensures { IsTrue result ↔ AllPass is_ascii_digit word.now }
{
    word.iter().all(|octet| octet.is_ascii_digit())
}

/// Whether all octets are hexadecimal digits.
fn are_hexadecimal(word: &[u8]) -> bool
    ensures { IsTrue result ↔ AllPass is_ascii_hexdigit word.now }
{
    word.iter().all(|octet| octet.is_ascii_hexdigit())
}

/// Whether a zero stands before more.
fn begins_with_zero(word: &[u8]) -> bool
    ensures { result ≡ begins_with_zero word.now }
{
    matches!(word, [b'0', _, ..])
}

/// Whether the word is digits with a zero before them.
fn are_padded(word: &[u8]) -> bool
    ensures { result ≡ are_padded word.now }
{
    begins_with_zero(word) && are_digits(word)
}

/// Whether the word is a number with zeros before it.
fn is_led_by_zeros(word: &[u8]) -> bool
    ensures { result ≡ is_led_by_zeros word.now }
{
    match word.split_at_checked(1) {
        Some((b"-", digits)) => are_padded(digits),
        _ => are_padded(word),
    }
}

/// Whether the word is an odd number of hexadecimal digits.
fn is_odd(word: &[u8]) -> bool
    ensures { result ≡ is_odd word.now }
{
    word.len() % 2 == 1 && are_hexadecimal(word)
}

/// What is told where a number is expected.
fn told_of_number(expected: Expected, word: &[u8]) -> WordFault
    ensures { result ≡ told_of_number expected word.now }
{
    if is_led_by_zeros(word) {
        WordFault::LeadingZeros
    } else {
        WordFault::Other(expected)
    }
}

/// What is told where octets are expected.
fn told_of_octets(expected: Expected, word: &[u8]) -> WordFault
    ensures { result ≡ told_of_octets expected word.now }
{
    if is_odd(word) {
        WordFault::OddDigits
    } else {
        WordFault::Other(expected)
    }
}

/// What is told of a word that is written, but none of what is expected, behind this one.
fn told(expected: Expected, before: &[u8], word: &[u8]) -> WordFault
    ensures { result ≡ told expected before.now word.now }
{
    match expected {
        Expected::Number(_, _) | Expected::Signed(_, _) | Expected::OptionalSigned(_, _) => {
            told_of_number(expected, word)
        }
        Expected::OctetsBehindCode if is_dash(before) => WordFault::NoCode,
        Expected::Octets | Expected::OctetsBehindCode => told_of_octets(expected, word),
        Expected::Address | Expected::Context | Expected::DottedContext => {
            told_of_octets(expected, word)
        }
        Expected::ProblemKind | Expected::AbortReason | Expected::Message => {
            WordFault::Other(expected)
        }
    }
}

/// What is wrong with a word that is none of what is expected, behind this one.
pub(crate) fn misfit(expected: Expected, before: &[u8], word: &[u8]) -> WordFault
    ensures { result ≡ or_else (unwritten word.now) (told expected before.now word.now) }
{
    match unwritten(word) {
        Some(fault) => fault,
        None => told(expected, before, word),
    }
}

/// What is wrong with a word that is no name.
pub(crate) fn unnamed(word: &[u8]) -> WordFault
    ensures { result ≡ or_else (unwritten word.now) fault.Name }
{
    unwritten(word).unwrap_or(WordFault::Name)
}

/// What is wrong with a word that is one too many.
pub(crate) fn surplus(word: &[u8]) -> WordFault
    ensures { result ≡ surplus word.now }
{
    unwritten(word).unwrap_or(WordFault::Surplus)
}

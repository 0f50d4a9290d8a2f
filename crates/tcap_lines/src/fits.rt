//! Whether a word is what it has to be.

ghost use Rattle.std.specs.Prelude.{◌≡◌, ◌&&◌, bytes_eq, int_le};
ghost use Rattle.tcap_lines.specs.Fits.{fits, is_dash, is_octets, is_address, is_dotted, is_number_within, is_signed_within, is_problem_kind, is_abort_reason, is_message};

use crate::expected::Expected;
use object_identifiers::object_identifier;
use tcap_play::{number, signed};
use tcap_words::is_hex;

/// The most octets of an address.
const MOST_OF_AN_ADDRESS: usize = 255;

/// Whether the word is a number of this range.
fn is_number_within(least: u64, most: u64, word: &[u8]) -> bool
    ensures { result ≡ is_number_within least most word.now }
{
    match number(word) {
        Some(n) => least <= n && n <= most,
        None => false,
    }
}

/// Whether a number is no less and no more than so much.
fn is_between(least: i32, most: i32, n: i32) -> bool
    ensures { result ≡ (int_le least n && int_le n most) }
{
    least <= n && n <= most
}

/// Whether the word is a number of this range, with `-` before one below zero.
fn is_signed_within(least: i32, most: i32, word: &[u8]) -> bool
    ensures { result ≡ is_signed_within least most word.now }
{
    match signed(word) {
        Some(n) => is_between(least, most, n),
        None => false,
    }
}

/// Whether the word stands for what is absent.
pub(crate) fn is_dash(word: &[u8]) -> bool
    ensures { result ≡ is_dash word.now }
{
    matches!(word, b"-")
}

/// Whether the word spells octets, or is `-`.
fn is_octets(word: &[u8]) -> bool
    ensures { result ≡ is_octets word.now }
{
    match word {
        b"-" => true,
        [] => false,
        _ => is_hex(word),
    }
}

/// Whether the word spells at most 255 octets, or is `-`.
fn is_address(word: &[u8]) -> bool
    ensures { result ≡ is_address word.now }
{
    is_octets(word) && word.len() <= 2 * MOST_OF_AN_ADDRESS
}

/// Whether the word is an object identifier in dotted form.
fn is_dotted(word: &[u8]) -> bool
    ensures { result ≡ is_dotted word.now }
{
    match str::from_utf8(word) {
        Ok(text) => object_identifier(text).is_ok(),
        Err(_) => false,
    }
}

/// Whether the word names a message: a letter and a number.
fn is_message(word: &[u8]) -> bool
    ensures { result ≡ is_message word.now }
{
    match word {
        [b'A' | b'B', digits @ ..] => number(digits).is_some(),
        _ => false,
    }
}

/// Whether the word is this one.
fn is(word: &[u8], name: &str) -> bool
    ensures { result ≡ bytes_eq word.now name.now }
{
    word == name.as_bytes()
}

/// Whether the word is the kind of a problem.
fn is_problem_kind(word: &[u8]) -> bool
    ensures { result ≡ is_problem_kind word.now }
{
    is(word, "general") || is(word, "invoke") || is(word, "result") || is(word, "error")
}

/// Whether the word says why a user aborts.
fn is_abort_reason(word: &[u8]) -> bool
    ensures { result ≡ is_abort_reason word.now }
{
    is(word, "user") || is(word, "unsupported")
}

/// Whether a word, behind this one, is what it has to be.
pub(crate) fn fits(expected: Expected, before: &[u8], word: &[u8]) -> bool
    ensures { result ≡ fits expected before.now word.now }
{
    match expected {
        Expected::Number(least, most) => is_number_within(least, most, word),
        Expected::Signed(least, most) => is_signed_within(least, most, word),
        Expected::OptionalSigned(least, most) => {
            is_dash(word) || is_signed_within(least, most, word)
        }
        Expected::Octets | Expected::Context => is_octets(word),
        Expected::OctetsBehindCode => is_dash(word) || (!is_dash(before) && is_octets(word)),
        Expected::Address => is_address(word),
        Expected::DottedContext => is_octets(word) || is_dotted(word),
        Expected::ProblemKind => is_problem_kind(word),
        Expected::AbortReason => is_abort_reason(word),
        Expected::Message => is_message(word),
    }
}

//! What stands in a line: nothing, a message in hexadecimal that may have a name, or neither.

ghost use Rattle.std.specs.Prelude.{◌≡◌, ◌<◌, ◌≤◌, length, option_map, Some};
ghost use Rattle.std.specs.List.{position_or_len};
ghost use Rattle.hex.specs.Hex.{is_hex_digit};
ghost use Rattle.tcap_judging.specs.LineParts.{is_blank, is_in_name, is_unnamed, is_foreign, is_dark, column, ends_in_colon, is_name, name_of, no_digits, hex_parts, named_parts, parts_within};
ghost use Rattle.tcap_judging.specs.LineViews.{parts_view};

use crate::bad_line::BadLine;
use crate::naming::Naming;

/// What stands in a line.
#[derive(Clone, Copy)]
pub(crate) enum LineParts<'l> {
    /// Nothing but blanks.
    Blank,
    /// Hexadecimal, with the name before it, if it has one.
    Hex(Option<&'l str>, &'l [u8]),
    /// Neither.
    Bad(BadLine),
}

/// Whether this octet is a blank: a space, a tab or a carriage return.
fn is_blank(octet: u8) -> bool
    ensures { result ≡ is_blank octet }
{
    matches!(octet, b' ' | b'\t' | b'\r')
}

/// Whether this octet is a hexadecimal digit, of either case.
pub(crate) fn is_digit(octet: u8) -> bool
    ensures { result ≡ is_hex_digit octet }
{
    matches!(octet, b'0'..=b'9' | b'A'..=b'F' | b'a'..=b'f')
}

/// Whether this octet makes a word a name: it is neither a digit of hexadecimal nor a colon.
fn is_in_name(octet: u8) -> bool
    ensures { result ≡ is_in_name octet }
{
    !is_digit(octet) && octet != b':'
}

/// Whether no hexadecimal has this octet.
fn is_foreign(octet: u8) -> bool
    ensures { result ≡ is_foreign octet }
{
    !(is_digit(octet) || is_blank(octet) || octet == b':')
}

/// Whether no name has this octet: it is no visible character of ASCII, or a quotation mark or a backslash.
fn is_unnamed(octet: u8) -> bool
    ensures { result ≡ is_unnamed octet }
{
    !matches!(octet, b'!'..=b'~') || matches!(octet, b'"' | b'\\')
}

/// How many blanks stand at the front.
pub(crate) fn blank_count(octets: &[u8]) -> usize
    ensures value { result ≡ position_or_len is_dark octets.now }
    ensures within { result ≤ length octets.now }
{
    let dark = octets.iter().position(|&octet| !is_blank(octet));
    dark.unwrap_or(octets.len())
}

/// How many octets stand before the first blank.
pub(crate) fn word_len(octets: &[u8]) -> usize
    ensures value { result ≡ position_or_len is_blank octets.now }
    ensures within { result ≤ length octets.now }
{
    let blank = octets.iter().position(|&octet| is_blank(octet));
    blank.unwrap_or(octets.len())
}

/// How many octets stand before the first that no name has.
pub(crate) fn name_len(octets: &[u8]) -> usize
    ensures value { result ≡ position_or_len is_unnamed octets.now }
    ensures within { result ≤ length octets.now }
{
    let unnamed = octets.iter().position(|&octet| is_unnamed(octet));
    unnamed.unwrap_or(octets.len())
}

/// How many octets stand before the first that no hexadecimal has.
fn hex_len(octets: &[u8]) -> usize
    ensures value { result ≡ position_or_len is_foreign octets.now }
    ensures within { result ≤ length octets.now }
{
    let foreign = octets.iter().position(|&octet| is_foreign(octet));
    foreign.unwrap_or(octets.len())
}

/// Whether a word ends in a colon, behind another octet.
fn ends_in_colon(word: &[u8]) -> bool
    ensures { result ≡ ends_in_colon word.now }
{
    word.len() > 1 && word[word.len() - 1] == b':'
}

/// Whether a first word that ends in no colon is a name.
fn is_name(naming: Naming, word: &[u8]) -> bool
    ensures { result ≡ is_name naming word.now }
{
    match naming {
        Naming::Marked => word.iter().any(|&octet| is_in_name(octet)),
        Naming::All => true,
    }
}

/// The name that a first word is, without the colon at its end; None where it is hexadecimal.
fn name_of(naming: Naming, word: &[u8]) -> Option<&[u8]>
    ensures { option_map (λ n. n.now) result ≡ name_of naming word.now }
{
    if ends_in_colon(word) {
        Some(&word[..word.len() - 1])
    } else if is_name(naming, word) {
        Some(word)
    } else {
        None
    }
}

/// The column of the octet that stands so many octets behind the front of the rest of a line.
fn column(line: &[u8], rest: &[u8], place: usize) -> usize
    requires within { length rest.now ≤ length line.now }
    requires there { place < length rest.now }
    ensures { result ≡ column line.now rest.now place }
{
    line.len() - rest.len() + place + 1
}

/// What is wrong in a line with a name or none that has no digit of hexadecimal.
fn no_digits(name: Option<&str>) -> BadLine
    ensures { result ≡ no_digits (option_map (λ n. n.now) name.entry) }
{
    match name {
        Some(_) => BadLine::NoDigitsBehind,
        None => BadLine::NoDigits,
    }
}

/// The parts of a line with a name or none, of which the rest is hexadecimal.
fn hex_parts<'l>(line: &'l [u8], name: Option<&'l str>, rest: &'l [u8]) -> LineParts<'l>
    requires { length rest.now ≤ length line.now }
    ensures { parts_view result ≡ hex_parts line.now (option_map (λ n. n.now) name.entry) rest.now }
{
    let place = hex_len(rest);
    if place < rest.len() {
        LineParts::Bad(BadLine::Digit(column(line, rest, place), rest[place]))
    } else if rest.iter().any(|&octet| is_digit(octet)) {
        LineParts::Hex(name, rest)
    } else {
        LineParts::Bad(no_digits(name))
    }
}

/// A name as text: a name may have each of its octets.
pub(crate) fn name_text(name: &[u8]) -> &str
    requires { position_or_len is_unnamed name.now ≡ length name.now }
    ensures { result.now ≡ name.now }
{
    str::from_utf8(name).unwrap()
}

/// The parts of a line from its first octet on that is no blank, of which the first word is this name.
fn named_parts<'l>(line: &'l [u8], text: &'l [u8], name: &'l [u8], word: usize) -> LineParts<'l>
    requires text { length text.now ≤ length line.now }
    requires name { length name.now ≤ length text.now }
    requires word { word ≡ position_or_len is_blank text.now }
    requires within { word ≤ length text.now }
    ensures { parts_view result ≡ named_parts line.now text.now (Some name.now) }
{
    let place = name_len(name);
    if place < name.len() {
        LineParts::Bad(BadLine::Name(column(line, text, place), name[place]))
    } else {
        hex_parts(line, Some(name_text(name)), &text[word..])
    }
}

/// The parts of a line that isn't too long.
pub(crate) fn parts_within(naming: Naming, line: &[u8]) -> LineParts<'_>
    ensures { parts_view result ≡ parts_within naming line.now }
{
    let text = &line[blank_count(line)..];
    if text.is_empty() {
        return LineParts::Blank;
    }
    let word = word_len(text);
    match name_of(naming, &text[..word]) {
        Some(name) => named_parts(line, text, name, word),
        None => hex_parts(line, None, text),
    }
}

//! A line of a list of names.

ghost use Rattle.std.specs.Prelude.{◌≡◌, option_map};
ghost use Rattle.tcap_judging.specs.LineParts.{first_word, trimmed};
ghost use Rattle.tcap_judging.specs.Names.{behind, is_over, kind_of, is_unkeyed, key_of, name_word, line_by, line_of};
ghost use Rattle.tcap_judging.specs.NameViews.{line_view};

use crate::line_parts::{blank_count, name_len, name_text, word_len};
use crate::name_list::{NameKind, Named};

/// What a line of a list of names gives.
#[derive(Clone, Copy)]
pub(crate) enum NameLine<'a> {
    /// Nothing: it is blank, or a comment.
    Nothing,
    /// A name.
    Name(Named<'a>),
    /// It is none of these.
    Bad,
}

/// Whether nothing more stands in a line: it is over, or a number sign begins a comment.
fn is_over(text: &[u8]) -> bool
    ensures { result ≡ is_over text.now }
{
    match text.first() {
        Some(&octet) => octet == b'#',
        None => true,
    }
}

/// A text from its first octet on that is no blank.
fn trimmed(text: &[u8]) -> &[u8]
    ensures { result.now ≡ trimmed text.now }
{
    &text[blank_count(text)..]
}

/// The octets before the first blank.
fn first_word(text: &[u8]) -> &[u8]
    ensures { result.now ≡ first_word text.now }
{
    &text[..word_len(text)]
}

/// What stands behind the first word, from its first octet on that is no blank.
fn behind(text: &[u8]) -> &[u8]
    ensures { result.now ≡ behind text.now }
{
    trimmed(&text[word_len(text)..])
}

/// What a name is of, by the first word of its line.
fn kind_of(word: &[u8]) -> Option<NameKind>
    ensures { result ≡ kind_of word.now }
{
    if word == b"operation".as_slice() {
        Some(NameKind::Operation)
    } else if word == b"error".as_slice() {
        Some(NameKind::Error)
    } else if word == b"context".as_slice() {
        Some(NameKind::Context)
    } else {
        None
    }
}

/// Whether this octet stands in no number and not between numbers with dots.
fn is_unkeyed(octet: u8) -> bool
    ensures { result ≡ is_unkeyed octet }
{
    !matches!(octet, b'0'..=b'9' | b'.' | b'-')
}

/// A word that may be a name, as text.
fn word_text(word: &[u8]) -> Option<&str>
    ensures { option_map (λ n. n.now) result ≡ name_word word.now }
{
    if !word.is_empty() && name_len(word) == word.len() {
        Some(name_text(word))
    } else {
        None
    }
}

/// A number, or numbers with dots between them, as text.
fn key_text(word: &[u8]) -> Option<&str>
    ensures { option_map (λ k. k.now) result ≡ key_of word.now }
{
    if word.iter().any(|&octet| is_unkeyed(octet)) {
        None
    } else {
        word_text(word)
    }
}

/// What a line gives by its three words.
fn line_by<'a>(kind: Option<NameKind>, key: &'a [u8], name: &'a [u8]) -> NameLine<'a>
    ensures { line_view result ≡ line_by kind (key_of key.now) (name_word name.now) }
{
    let Some(kind) = kind else {
        return NameLine::Bad;
    };
    let Some(key) = key_text(key) else {
        return NameLine::Bad;
    };
    match word_text(name) {
        Some(name) => NameLine::Name(Named { kind, key, name }),
        None => NameLine::Bad,
    }
}

/// What a line of a list of names gives.
pub(crate) fn name_line(line: &[u8]) -> NameLine<'_>
    ensures { line_view result ≡ line_of (trimmed line.now) }
{
    let text = trimmed(line);
    if is_over(text) {
        return NameLine::Nothing;
    }
    let rest = behind(text);
    let last = behind(rest);
    if !is_over(behind(last)) {
        return NameLine::Bad;
    }
    line_by(
        kind_of(first_word(text)),
        first_word(rest),
        first_word(last),
    )
}

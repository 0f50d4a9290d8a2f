//! What words stand for.

ghost use Rattle.std.specs.Prelude.{◌≡◌, ◌≤◌, IfSome, bytes_eq, option_map, option_copied};
ghost use Rattle.tcap_component.specs.Views.{body_parts, code_parts, problem_parts};
ghost use Rattle.tcap_primitives.specs.RequestViews.{reason_view};
ghost use Rattle.tcap_invocation.specs.Stage.{moment_limit};
ghost use Rattle.tcap_play.specs.LineViews.{name_view, text_of};
ghost use Rattle.tcap_play.specs.ScriptWords.{engine_of, name_of, milliseconds_of, idle_limit_of, dialogue_of, identifier_of, optional_identifier_of, class_of, code_of, octets_of, optional_octets_of, body_with, body_of, kind_of, problem_of, reason_of};
ghost use Rattle.tcap_play.specs.SideView.{side_view};

use crate::numbers::{number, number_of_32_bits, signed, signed_of_8_bits};
use crate::script::word::Word;
use crate::side::Side;
use std::alloc::Allocator;
use tcap_component::{Body, Code, Kind, Problem};
use tcap_dialogue::AbortWhy;
use tcap_invocation::{Class, MAX_MOMENT};

/// What a message is called: the side that sent it, and its number among those that this side sent,
/// from 1.
#[derive(Clone, Copy)]
pub(crate) struct Name {
    pub(crate) side: Side,
    pub(crate) number: u64,
}

/// Whether the word is this one.
pub fn is(word: &[u8], name: &str) -> bool
    ensures { result ≡ bytes_eq word.now name.now }
{
    word == name.as_bytes()
}

/// The side of a letter.
pub(crate) fn side(word: &[u8]) -> Option<Side>
    ensures { option_map side_view result ≡ engine_of word.now }
{
    match word {
        b"A" => Some(Side::A),
        b"B" => Some(Side::B),
        _ => None,
    }
}

/// The name of a message: its side's letter and its number.
pub(crate) fn message_name(word: &[u8]) -> Option<Name>
    ensures { option_map name_view result ≡ name_of word.now }
{
    let (letter, digits) = word.split_at_checked(1)?;
    Some(Name {
        side: side(letter)?,
        number: number(digits)?,
    })
}

/// A moment or a timeout, in milliseconds.
pub fn milliseconds(word: &[u8]) -> Option<u64>
    ensures { result ≡ milliseconds_of word.now }
{
    number(word)
}

/// An idle limit, in milliseconds, at most 2^62.
pub(crate) fn idle_limit(word: &[u8]) -> Option<u64>
    ensures value { result ≡ idle_limit_of word.now }
    ensures limited { IfSome result (λ limit. limit ≤ moment_limit) }
{
    let limit = number(word)?;
    if limit > MAX_MOMENT {
        return None;
    }
    Some(limit)
}

/// The identifier of a dialogue.
pub fn dialogue(word: &[u8]) -> Option<u32>
    ensures { result ≡ dialogue_of word.now }
{
    number_of_32_bits(word)
}

/// An invoke identifier.
pub(crate) fn identifier(word: &[u8]) -> Option<i8>
    ensures { result ≡ identifier_of word.now }
{
    signed_of_8_bits(word)
}

/// An invoke identifier that may be left out, with `-`.
pub(crate) fn optional_identifier(word: &[u8]) -> Option<Option<i8>>
    ensures { result ≡ optional_identifier_of word.now }
{
    match word {
        b"-" => Some(None),
        _ => Some(Some(identifier(word)?)),
    }
}

/// An operation class.
pub(crate) fn class(word: &[u8]) -> Option<Class>
    ensures { result ≡ class_of word.now }
{
    match word {
        b"1" => Some(Class::One),
        b"2" => Some(Class::Two),
        b"3" => Some(Class::Three),
        b"4" => Some(Class::Four),
        _ => None,
    }
}

/// A local code.
pub(crate) fn code<'w>(word: &[u8]) -> Option<Code<'w>>
    ensures { option_map code_parts result ≡ code_of word.now }
{
    Some(Code::Local(signed(word)?))
}

/// The octets that a word spells; `-` spells none.
pub fn octets<'w, A: Allocator>(word: &'w Word<'_, A>) -> Option<&'w [u8]>
    ensures { option_copied result ≡ octets_of (text_of word.entry.now) }
{
    match word.text {
        b"-" => Some(&[]),
        _ => word.octets(),
    }
}

/// Octets that may be left out, with `-`.
pub fn optional_octets<'w, A: Allocator>(word: &'w Word<'_, A>) -> Option<Option<&'w [u8]>>
    ensures { option_map option_copied result ≡ optional_octets_of (text_of word.entry.now) }
{
    match word.text {
        b"-" => Some(None),
        _ => Some(Some(word.octets()?)),
    }
}

/// The body that a code and a parameter make.
fn body_with<'w, A: Allocator>(
    code_word: &[u8],
    parameter: &'w Word<'_, A>,
) -> Option<Option<Body<'w>>>
    ensures { option_map (option_map body_parts) result
        ≡ body_with code_word.now (text_of parameter.entry.now) }
{
    let code = code(code_word)?;
    let parameter = optional_octets(parameter)?;
    Some(Some(Body { code, parameter }))
}

/// The body of a result; `-` twice leaves it out.
pub(crate) fn body<'w, A: Allocator>(
    code: &[u8],
    parameter: &'w Word<'_, A>,
) -> Option<Option<Body<'w>>>
    ensures { option_map (option_map body_parts) result
        ≡ body_of code.now (text_of parameter.entry.now) }
{
    match (code, parameter.text) {
        (b"-", b"-") => Some(None),
        (b"-", _) => None,
        _ => body_with(code, parameter),
    }
}

/// The kind of a problem.
fn kind(word: &[u8]) -> Option<Kind>
    ensures { result ≡ kind_of word.now }
{
    if is(word, "general") {
        Some(Kind::General)
    } else if is(word, "invoke") {
        Some(Kind::Invoke)
    } else if is(word, "result") {
        Some(Kind::Result)
    } else if is(word, "error") {
        Some(Kind::Error)
    } else {
        None
    }
}

/// A problem: its kind and its code.
pub(crate) fn problem(kind_word: &[u8], code: &[u8]) -> Option<Problem>
    ensures { option_map problem_parts result ≡ problem_of kind_word.now code.now }
{
    let kind = kind(kind_word)?;
    Problem::new(kind, u8::try_from(number(code)?).ok()?)
}

/// Why the user aborts.
pub(crate) fn reason(word: &[u8]) -> Option<AbortWhy>
    ensures { option_map reason_view result ≡ reason_of word.now }
{
    if is(word, "user") {
        Some(AbortWhy::User)
    } else if is(word, "unsupported") {
        Some(AbortWhy::NotSupported)
    } else {
        None
    }
}

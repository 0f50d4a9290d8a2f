//! What the words of a line ask for, done.
//!
//! How many words there are says which of them may stand for octets: only these are read from hexadecimal,
//! and kept for as long as the line takes.

ghost use Rattle.std.specs.Prelude.{◌≡◌, IfOk, length, option_map, string_bytes};
ghost use Rattle.tcap_play.specs.LineViews.{line_view, texts_of};
ghost use Rattle.tcap_play.specs.PlayViews.{ActsOn};
ghost use Rattle.tcap_play.specs.ScriptLine.{line_of};

use crate::script::line::{
    Line, line_of_beginto, line_of_five, line_of_four, line_of_nine, line_of_six, line_of_three,
    line_of_two,
};
use crate::script::requests::invoke_request;
use crate::script::values::is;
use crate::script::word::{Word, address_named};
use crate::side::Addresses;
use crate::station::{Station, act};
use ber_core::OutOfMemory;
use std::alloc::Allocator;

/// Does what a line asks for, if it is one, and tells whether it could be done.
fn act_if<A: Allocator + Copy>(
    addresses: &Addresses,
    line: Option<Line<'_>>,
    a: &mut Station<A>,
    b: &mut Station<A>,
    text: &mut String<A>,
) -> Result<bool, OutOfMemory>
    ensures { IfOk result (λ done. ActsOn (option_map line_view line.entry) done a.old b.old a.new b.new
        (string_bytes text.old) (string_bytes text.new)) }
{
    match line {
        Some(line) => act(addresses, line, a, b, text),
        None => Ok(false),
    }
}

/// Does what two words ask for.
fn act_on_two<A: Allocator + Copy>(
    addresses: &Addresses,
    words: &[&[u8]],
    a: &mut Station<A>,
    b: &mut Station<A>,
    text: &mut String<A>,
) -> Result<bool, OutOfMemory>
    requires { length words.now ≡ 2 }
    ensures { IfOk result (λ done. ActsOn (line_of (texts_of words.now)) done a.old b.old a.new b.new
        (string_bytes text.old) (string_bytes text.new)) }
{
    let line = line_of_two(words[0], words[1]);
    act_if(addresses, line, a, b, text)
}

/// Does what three words ask for, the last of which may be octets.
fn act_on_three<A: Allocator + Copy>(
    alloc: A,
    addresses: &Addresses,
    words: &[&[u8]],
    a: &mut Station<A>,
    b: &mut Station<A>,
    text: &mut String<A>,
) -> Result<bool, OutOfMemory>
    requires { length words.now ≡ 3 }
    ensures { IfOk result (λ done. ActsOn (line_of (texts_of words.now)) done a.old b.old a.new b.new
        (string_bytes text.old) (string_bytes text.new)) }
{
    let word = Word::new(alloc, words[2])?;
    let line = line_of_three(addresses, words[0], words[1], &word);
    act_if(addresses, line, a, b, text)
}

/// Does what four words ask for, the last of which may be octets, and the one before it an address.
fn act_on_four<A: Allocator + Copy>(
    alloc: A,
    addresses: &Addresses,
    words: &[&[u8]],
    a: &mut Station<A>,
    b: &mut Station<A>,
    text: &mut String<A>,
) -> Result<bool, OutOfMemory>
    requires { length words.now ≡ 4 }
    ensures { IfOk result (λ done. ActsOn (line_of (texts_of words.now)) done a.old b.old a.new b.new
        (string_bytes text.old) (string_bytes text.new)) }
{
    let from = address_named(alloc, words[2])?;
    let last = Word::new(alloc, words[3])?;
    let line = line_of_four(words[0], words[1], words[2], &from, &last);
    act_if(addresses, line, a, b, text)
}

/// Does what five words ask for, the last two of which may be octets.
fn act_on_five<A: Allocator + Copy>(
    alloc: A,
    addresses: &Addresses,
    words: &[&[u8]],
    a: &mut Station<A>,
    b: &mut Station<A>,
    text: &mut String<A>,
) -> Result<bool, OutOfMemory>
    requires { length words.now ≡ 5 }
    ensures { IfOk result (λ done. ActsOn (line_of (texts_of words.now)) done a.old b.old a.new b.new
        (string_bytes text.old) (string_bytes text.new)) }
{
    let word = Word::new(alloc, words[3])?;
    let last = Word::new(alloc, words[4])?;
    let line = line_of_five(addresses, words[0], words[1], words[2], &word, &last);
    act_if(addresses, line, a, b, text)
}

/// Does what six words ask for: the last may be octets, and behind `beginto` so may the one before it,
/// and the fourth is an address.
fn act_on_six<A: Allocator + Copy>(
    alloc: A,
    addresses: &Addresses,
    words: &[&[u8]],
    a: &mut Station<A>,
    b: &mut Station<A>,
    text: &mut String<A>,
) -> Result<bool, OutOfMemory>
    requires { length words.now ≡ 6 }
    ensures { IfOk result (λ done. ActsOn (line_of (texts_of words.now)) done a.old b.old a.new b.new
        (string_bytes text.old) (string_bytes text.new)) }
{
    let last = Word::new(alloc, words[5])?;
    if is(words[1], "beginto") {
        let to = address_named(alloc, words[3])?;
        let word = Word::new(alloc, words[4])?;
        let line = line_of_beginto(words[0], words[2], &to, &word, &last);
        act_if(addresses, line, a, b, text)
    } else {
        let line = line_of_six(words[0], words[1], words[2], words[3], words[4], &last);
        act_if(addresses, line, a, b, text)
    }
}

/// Does what nine words ask for, the last of which may be octets.
fn act_on_nine<A: Allocator + Copy>(
    alloc: A,
    addresses: &Addresses,
    words: &[&[u8]],
    a: &mut Station<A>,
    b: &mut Station<A>,
    text: &mut String<A>,
) -> Result<bool, OutOfMemory>
    requires { length words.now ≡ 9 }
    ensures { IfOk result (λ done. ActsOn (line_of (texts_of words.now)) done a.old b.old a.new b.new
        (string_bytes text.old) (string_bytes text.new)) }
{
    let last = Word::new(alloc, words[8])?;
    let request = invoke_request(words[3], words[4], words[5], words[6], words[7], &last);
    let line = line_of_nine(words[0], words[1], words[2], request);
    act_if(addresses, line, a, b, text)
}

/// Does what the words of a line ask for, and tells whether it could be done.
pub(crate) fn act_on<A: Allocator + Copy>(
    alloc: A,
    addresses: &Addresses,
    words: &[&[u8]],
    a: &mut Station<A>,
    b: &mut Station<A>,
    text: &mut String<A>,
) -> Result<bool, OutOfMemory>
    ensures { IfOk result (λ done. ActsOn (line_of (texts_of words.now)) done a.old b.old a.new b.new
        (string_bytes text.old) (string_bytes text.new)) }
{
    let count = words.len();
    if count == 2 {
        act_on_two(addresses, words, a, b, text)
    } else if count == 3 {
        act_on_three(alloc, addresses, words, a, b, text)
    } else if count == 4 {
        act_on_four(alloc, addresses, words, a, b, text)
    } else if count == 5 {
        act_on_five(alloc, addresses, words, a, b, text)
    } else if count == 6 {
        act_on_six(alloc, addresses, words, a, b, text)
    } else if count == 9 {
        act_on_nine(alloc, addresses, words, a, b, text)
    } else {
        Ok(false)
    }
}

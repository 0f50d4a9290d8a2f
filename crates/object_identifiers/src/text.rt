//! The dotted text of arcs, read and written.

ghost use Rattle.std.specs.Prelude.{◌≡◌, ◌<◌, ◌≤◌, ◌*◌, ◌+◌, ◌++◌, ◌∷◌, length};
ghost use Rattle.arrayvec.specs.ArrayString.{array_string_len};
ghost use Rattle.std.specs.List.{flat_map};
ghost use Rattle.ber_core.specs.Results.{Gives};
ghost use Rattle.object_identifiers.specs.Arcs.{dotted_text, tail_text};
ghost use Rattle.object_identifiers.specs.Contents.{arcs_of_numbers};
ghost use Rattle.object_identifiers.specs.TextReading.{arcs_at, character_after, digit_after, with_arc};

use crate::contents::first_arc;
use crate::fault::ObjectIdentifierFault;
use arrayvec::{ArrayString, ArrayVec};
use itoa::Buffer;
use std::marker::Model;

/// The greatest number of arcs: one more than contents octets (our own).
pub(crate) const MAX_ARCS: usize = 256;

/// The greatest number of characters of a dotted text: ten digits and a full stop for each arc.
const MAX_TEXT: usize = 2816;

/// The arcs of an object identifier.
pub(crate) type Arcs = ArrayVec<u32, MAX_ARCS>;

/// The dotted text of an object identifier, at most 2,816 characters, held without memory.
#[derive(Drop, Debug)]
pub struct Dotted {
    text: ArrayString<MAX_TEXT>,
}

impl Model for Dotted {
    ghost use Rattle.std.specs.Prelude.{List, ℕ};

    ghost Value = { List ℕ };

    ghost view = { λ d. d.text.bytes };
}

impl Dotted {
    /// The text: decimal numbers with full stops between them.
    pub fn as_str(&self) -> &str
        ensures { result.now ≡ self.now }
    {
        self.text.as_str()
    }
}

/// The number so far, if there is one, with one digit more behind it.
fn with_digit(number: Option<u32>, digit: u32) -> Result<u32, ObjectIdentifierFault>
    requires { digit < 10 }
    ensures { Gives (λ n. n) result (digit_after number digit) }
{
    match number {
        None => Ok(digit),
        Some(0) => Err(ObjectIdentifierFault::NotANumber),
        Some(number) => u32::try_from(u64::from(number) * 10 + u64::from(digit)).map_err(
            |_| ObjectIdentifierFault::ArcTooLarge,
        ),
    }
}

/// The number so far with one character more behind it.
fn with_character(number: Option<u32>, character: u8) -> Result<u32, ObjectIdentifierFault>
    ensures { Gives (λ n. n) result (character_after number character) }
{
    if !character.is_ascii_digit() {
        return Err(ObjectIdentifierFault::NotANumber);
    }
    with_digit(number, u32::from(character - b'0'))
}

/// Adds the number that ends here to the arcs.
fn add_arc(arcs: &mut Arcs, number: Option<u32>) -> Result<(), ObjectIdentifierFault>
    ensures { Gives (λ _. arcs.new.items) result (with_arc arcs.old.items number) }
{
    let Some(number) = number else {
        return Err(ObjectIdentifierFault::NotANumber);
    };
    arcs.try_push(number)
        .map_err(|_| ObjectIdentifierFault::TooLong)
}

/// The arcs of a dotted text.
pub(crate) fn read_arcs(text: &[u8]) -> Result<Arcs, ObjectIdentifierFault>
    ensures { Gives (λ arcs. arcs.items) result (arcs_at text.now) }
{
    let mut arcs = Arcs::new();
    let mut number = None;
    for character in text {
        if *character == b'.' {
            add_arc(&mut arcs, number)?;
            number = None;
        } else {
            number = Some(with_character(number, *character)?);
        }
    }
    add_arc(&mut arcs, number)?;
    Ok(arcs)
}

/// Adds a full stop and an arc to a text.
fn add_text(text: &mut ArrayString<MAX_TEXT>, arc: u32)
    requires { array_string_len text.old + 11 ≤ 2816 }
    ensures bytes { text.new.bytes ≡ text.old.bytes ++ tail_text arc }
    ensures len { array_string_len text.new ≤ array_string_len text.old + 11 }
{
    text.push_str(".");
    text.push_str(Buffer::new().format(arc));
}

/// Adds each of these arcs to a text, with a full stop before it.
fn add_texts(text: &mut ArrayString<MAX_TEXT>, arcs: &[u32])
    requires { array_string_len text.old + 11 * length arcs.now ≤ 2816 }
    ensures { text.new.bytes ≡ text.old.bytes ++ flat_map tail_text arcs.now }
{
    for arc in arcs {
        add_text(text, *arc);
    }
}

/// The dotted text of the arcs of the numbers of subidentifiers: the first, and those behind it.
fn text_of_numbers(number: u32, more: &[u32]) -> Dotted
    requires { length more.now ≤ 254 }
    ensures { result ≡ dotted_text (arcs_of_numbers (number ∷ more.now)) }
{
    let mut text = ArrayString::new();
    let first = first_arc(number);
    text.push_str(Buffer::new().format(first));
    add_text(&mut text, number - first * 40);
    add_texts(&mut text, more);
    Dotted { text }
}

/// The dotted text of the arcs of the numbers of subidentifiers.
pub(crate) fn written_text(numbers: &[u32]) -> Dotted
    requires { length numbers.now ≤ 255 }
    ensures { result ≡ dotted_text (arcs_of_numbers numbers.now) }
{
    match numbers.split_first() {
        Some((number, more)) => text_of_numbers(*number, more),
        None => Dotted {
            text: ArrayString::new(),
        },
    }
}

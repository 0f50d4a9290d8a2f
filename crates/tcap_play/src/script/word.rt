//! A word, and the octets that it spells.

ghost use Rattle.std.specs.Prelude.{◌≡◌, option_map, option_copied, IfOk};
ghost use Rattle.tcap_play.specs.ScriptWords.{named_address, spelled_in};
ghost use Rattle.tcap_words.specs.Spelling.{spelled_by};

use ber_core::OutOfMemory;
use std::alloc::{Allocator, Global};
use tcap_engine::Address;
use tcap_text::{decode_hex, is_hex};

/// The longest word that is decoded at once, in characters.
const SHORT: usize = 256;

/// The octets that a word spells. A long one is looked through before memory is taken for them.
fn octets_spelled<A: Allocator>(alloc: A, text: &[u8]) -> Result<Option<Vec<u8, A>>, OutOfMemory>
    ensures { IfOk result (λ octets. option_map (λ o. o.items) octets ≡ spelled_by text.now) }
{
    if text.len() > SHORT && !is_hex(text) {
        return Ok(None);
    }
    decode_hex(alloc, text)
}

/// A word of a line that may stand for octets, with those that it spells where it is hexadecimal.
#[derive(Drop)]
pub struct Word<'s, A: Allocator = Global> {
    pub text: &'s [u8],
    octets: Option<Vec<u8, A>>,
    ghost spelled: { option_map (λ o. o.items) octets ≡ spelled_by text.now },
}

impl<'s, A: Allocator> Word<'s, A> {
    /// The word of these characters.
    pub fn new(alloc: A, text: &'s [u8]) -> Result<Word<'s, A>, OutOfMemory>
        ensures { IfOk result (λ word. word.text.now ≡ text.entry.now) }
    {
        let octets = octets_spelled(alloc, text)?;
        Ok(Word { text, octets })
    }

    /// The octets that it spells, None where it isn't hexadecimal, or empty.
    pub fn octets(&self) -> Option<&[u8]>
        ensures { option_copied result ≡ spelled_in self.now.text.now }
    {
        if self.text.is_empty() {
            return None;
        }
        match &self.octets {
            Some(octets) => Some(octets.as_slice()),
            None => None,
        }
    }

    /// The address that it names, None where it is neither `-` nor spells 1 to 255 octets.
    pub fn address(&self) -> Option<Address>
        ensures { result ≡ named_address self.now.text.now }
    {
        match self.text {
            b"-" => Address::new(&[]),
            _ => Address::new(self.octets()?),
        }
    }
}

/// The address that a word names.
pub fn address_named<A: Allocator>(alloc: A, text: &[u8]) -> Result<Option<Address>, OutOfMemory>
    ensures { IfOk result (λ address. address ≡ named_address text.now) }
{
    let word = Word::new(alloc, text)?;
    Ok(word.address())
}

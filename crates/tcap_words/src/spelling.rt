//! Hexadecimal that is read: whether a word is octets, and which.

ghost use Rattle.std.specs.Prelude.{◌≡◌, ◌↔◌, is_some, true, option_map, IsTrue, IfOk, OnErr};
ghost use Rattle.hex.specs.Hex.{is_hex_digit};
ghost use Rattle.tcap_words.specs.Spelling.{IsHex, spelled_by};

use ber_core::OutOfMemory;
use std::alloc::Allocator;

/// Whether this octet is a hexadecimal digit, of either case.
fn is_digit(octet: u8) -> bool
    ensures { result ≡ is_hex_digit octet }
{
    matches!(octet, b'0'..=b'9' | b'A'..=b'F' | b'a'..=b'f')
}

/// Whether the word spells octets: an even number of hexadecimal digits. It takes no memory.
pub fn is_hex(hex: &[u8]) -> bool
    ensures { IsTrue result ↔ IsHex hex.now }
{
    hex.len() % 2 == 0 && hex.iter().copied().all(is_digit)
}

/// The octets that a word of hexadecimal spells, None where it spells none: where it has another
/// character than the digits, of either case, or an odd number of them. Its digits are judged before
/// memory is asked for, so `OutOfMemory` is answered only for a word that spells octets.
pub fn hex_octets<A: Allocator>(alloc: A, hex: &[u8]) -> Result<Option<Vec<u8, A>>, OutOfMemory>
    ensures value { IfOk result (λ octets. option_map (λ o. o.items) octets ≡ spelled_by hex.now) }
    ensures err { OnErr result (is_some (spelled_by hex.now) ≡ true) }
{
    if !is_hex(hex) {
        return Ok(None);
    }
    match hex::decode(alloc, hex) {
        Ok(octets) => Ok(Some(octets)),
        Err(_) => Err(OutOfMemory),
    }
}

/// The octets of a word that most likely spells some: where its first character is a digit it is decoded, and
/// its digits are looked through only where it can't be.
pub fn decode_hex<A: Allocator>(alloc: A, hex: &[u8]) -> Result<Option<Vec<u8, A>>, OutOfMemory>
    ensures value { IfOk result (λ octets. option_map (λ o. o.items) octets ≡ spelled_by hex.now) }
    ensures err { OnErr result (is_some (spelled_by hex.now) ≡ true) }
{
    if !hex.is_empty() && !is_digit(hex[0]) {
        return Ok(None);
    }
    match hex::decode(alloc, hex) {
        Ok(octets) => Ok(Some(octets)),
        Err(_) if is_hex(hex) => Err(OutOfMemory),
        Err(_) => Ok(None),
    }
}

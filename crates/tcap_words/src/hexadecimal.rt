//! Hexadecimal that is written: the digits of octets, appended to a text.

ghost use Rattle.std.specs.Prelude.{◌≡◌, ◌<◌, ◌≤◌, ◌+◌, ◌*◌, ◌++◌, length, map, slice_index, IsAscii, OnOk, OnErr, string_bytes, string_capacity, string_len};
ghost use Rattle.std.specs.Simd.Lanes.{Each1};
ghost use Rattle.hex.specs.Hex.{encode_lower, lower_digits};

use ber_core::OutOfMemory;
use std::alloc::Allocator;
use std::simd::prelude::*;

/// So many octets are turned into digits at once.
const STEP: usize = 16;

/// The digit of each of 16 numbers below 16, in lower case.
#[inline(always)]
fn digits_of(values: u8x16) -> u8x16
    requires values { Each1 (λ value. value < 16) values }
    requires sixteen { length values ≡ 16 }
    ensures { result ≡ map (slice_index lower_digits) values }
{
    values.simd_lt(u8x16::splat(10)).select(
        values + u8x16::splat(b'0'),
        values + u8x16::splat(b'a' - 10),
    )
}

/// The digits of 16 octets, two of each: those of the upper halves and those of the lower ones, by turns.
#[inline(always)]
fn digits(octets: &[u8; STEP]) -> [u8; 32]
    ensures digits { result ≡ encode_lower octets.now }
    ensures ascii { IsAscii result }
{
    let octets = u8x16::from_array(*octets);
    let high = digits_of(octets >> u8x16::splat(4));
    let low = digits_of(octets & u8x16::splat(15));
    let (front, back) = high.interleave(low);
    let mut digits = [0; 32];
    front.copy_to_slice(&mut digits);
    back.copy_to_slice(&mut digits[STEP..]);
    digits
}

/// Adds digits, which are ASCII and so a text, where there is room.
#[inline(always)]
fn push_digits<A: Allocator + Copy>(text: &mut String<A>, digits: &[u8])
    requires ascii { IsAscii digits.now }
    requires room { string_len text.old + length digits.now ≤ string_capacity text.old }
    ensures bytes { string_bytes text.new ≡ string_bytes text.old ++ digits.now }
    ensures len { string_len text.new ≡ string_len text.old + length digits.now }
    ensures capacity { string_capacity text.old ≤ string_capacity text.new }
{
    text.push_str(unsafe { std::str::from_utf8_unchecked(digits) })
        .unwrap();
}

/// Adds fewer than 16 octets in hexadecimal, where there is room. Zeros fill them up to 16, and the digits of
/// these are left out.
#[inline(always)]
fn push_last<A: Allocator + Copy>(text: &mut String<A>, octets: &[u8])
    requires few { length octets.now < 16 }
    requires room { string_len text.old + 2 * length octets.now ≤ string_capacity text.old }
    ensures bytes { string_bytes text.new ≡ string_bytes text.old ++ encode_lower octets.now }
    ensures len { string_len text.new ≡ string_len text.old + 2 * length octets.now }
    ensures capacity { string_capacity text.old ≤ string_capacity text.new }
{
    let mut filled = [0; STEP];
    filled[..octets.len()].copy_from_slice(octets);
    push_digits(text, &digits(&filled)[..2 * octets.len()]);
}

/// Adds octets in hexadecimal, where there is room.
#[inline(always)]
pub(crate) fn push_hex<A: Allocator + Copy>(text: &mut String<A>, octets: &[u8])
    requires { string_len text.old + 2 * length octets.now ≤ string_capacity text.old }
    ensures bytes { string_bytes text.new ≡ string_bytes text.old ++ encode_lower octets.now }
    ensures len { string_len text.new ≡ string_len text.old + 2 * length octets.now }
    ensures capacity { string_capacity text.old ≤ string_capacity text.new }
{
    let mut rest = octets;
    while let Some((sixteen, more)) = rest.split_first_chunk::<STEP>() {
        push_digits(text, digits(sixteen).as_slice());
        rest = more;
    }
    if !rest.is_empty() {
        push_last(text, rest);
    }
}

/// Adds octets in hexadecimal, lower case, two digits an octet. The digits of 16 octets are computed at once
/// and on the stack, at some three instructions an octet. Digit by digit it took 28 an octet, and in a block
/// of memory of their own 10 an octet and some 200 for the block. Where memory is refused, the text is as
/// before.
pub fn add_hex<A: Allocator + Copy>(text: &mut String<A>, octets: &[u8]) -> Result<(), OutOfMemory>
    ensures ok { OnOk result (string_bytes text.new ≡ string_bytes text.old ++ encode_lower octets.now) }
    ensures err { OnErr result (string_bytes text.new ≡ string_bytes text.old) }
{
    text.reserve(2 * octets.len())?;
    push_hex(text, octets);
    Ok(())
}

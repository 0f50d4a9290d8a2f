//! Integers, read and written (X.690, Encoding of an integer value).

ghost use Rattle.std.specs.Prelude.{◌≡◌, ◌+◌, ◌<◌, ◌≤◌, ◌++◌, [], ◌∷◌, ℤ, Some, IfSome, OnOk, OnErr, length, vec_len, vec_capacity};
ghost use Rattle.std.specs.Int.{w32, cast_signed};
ghost use Rattle.ber_core.specs.Tag.{IsTag};
ghost use Rattle.ber_core.specs.Integer.{IsInteger, is_padded, sign_octet, word_of, integer_at, integer_octets};
ghost use Rattle.ber_core.specs.Written.{written};

use crate::fault::OutOfMemory;
use crate::put::{put_element, put_octet};
use std::alloc::Allocator;

/// Whether the first octet and bit 8 of the second are nine equal bits, so that one octet less would do.
fn starts_padded(first: u8, second: u8) -> bool
    ensures { result ≡ is_padded first second }
{
    if first == 0x00 {
        second < 0x80
    } else {
        first == 0xff && second >= 0x80
    }
}

/// The octet of eight bits equal to bit 8 of the first octet.
fn sign_of(first: u8) -> u8
    ensures { result ≡ sign_octet first }
{
    if first < 0x80 { 0x00 } else { 0xff }
}

/// The number of four octets in two's complement, most significant first.
fn signed_word(a: u8, b: u8, c: u8, d: u8) -> i32
    ensures { result ≡ cast_signed w32 (word_of a b c d) }
{
    let word = ((u32::from(a) * 0x100 + u32::from(b)) * 0x100 + u32::from(c)) * 0x100
        + u32::from(d);
    word.cast_signed()
}

/// The number that contents octets are, in exact form: fewer than four are filled up by their sign.
fn integer(content: &[u8]) -> Option<i32>
    ensures { result ≡ integer_at content.now }
{
    match *content {
        [a] => Some(i32::from(a.cast_signed())),
        [a, b] if !starts_padded(a, b) => {
            let sign = sign_of(a);
            Some(signed_word(sign, sign, a, b))
        }
        [a, b, c] if !starts_padded(a, b) => Some(signed_word(sign_of(a), a, b, c)),
        [a, b, c, d] if !starts_padded(a, b) => Some(signed_word(a, b, c, d)),
        _ => None,
    }
}

/// The number that contents octets are: one to four octets, two's complement, in the fewest octets
/// (X.690, Encoding of an integer value; the limit is our own).
///
/// ```rust
/// assert_eq!(rt; ber_core::read_int(&[0x00, 0x80]), Some(128));
/// assert_eq!(rt; ber_core::read_int(&[0x00, 0x7f]), None); // not the fewest octets
/// ```
pub fn read_int(content: &[u8]) -> Option<i32>
    // What is read is the number of the octets, and these are the ones that are written for it.
    ensures found { IfSome result (λ z. IsInteger z content.now) }
    ensures fewest { IfSome result (λ z. content.now ≡ integer_octets z) }
    // Each integer is read.
    ensures only { (z : ℤ) → IsInteger z content.now → result ≡ Some z }
    // The same, computed: what the layers above cite.
    ensures exact { result ≡ integer_at content.now }
{
    integer(content)
}

/// How many contents octets an integer has, 1 to 4 (X.690, Encoding of an integer value).
#[inline(always)]
pub fn int_len(value: i32) -> usize
    ensures { result ≡ length (integer_octets value) }
{
    if -0x80 <= value && value < 0x80 {
        1
    } else if -0x8000 <= value && value < 0x8000 {
        2
    } else if -0x80_0000 <= value && value < 0x80_0000 {
        3
    } else {
        4
    }
}

/// `put_int`, for an integer of more than one octet: rare, so that it isn't built into each caller.
#[inline(never)]
fn put_long<A: Allocator + Copy>(out: &mut Vec<u8, A>, tag: u8, value: i32)
    requires { vec_len out.old + length (written (tag ∷ []) (integer_octets value)) ≤ vec_capacity out.old }
    ensures items { out.new.items ≡ out.old.items ++ written (tag ∷ []) (integer_octets value) }
    ensures capacity { vec_capacity out.old ≤ vec_capacity out.new }
{
    let word = value.cast_unsigned();
    let a = (word / 0x100_0000) as u8;
    let b = (word / 0x1_0000 % 0x100) as u8;
    let c = (word / 0x100 % 0x100) as u8;
    let d = (word % 0x100) as u8;
    if -0x80 <= value && value < 0x80 {
        put_element(out, tag, &[d]);
    } else if -0x8000 <= value && value < 0x8000 {
        put_element(out, tag, &[c, d]);
    } else if -0x80_0000 <= value && value < 0x80_0000 {
        put_element(out, tag, &[b, c, d]);
    } else {
        put_element(out, tag, &[a, b, c, d]);
    }
}

/// Appends an integer in the shortest definite form, for which there is room. `tag` is its one octet
/// (X.690, Encoding of an integer value).
///
/// ```rust
/// let mut out = Vec::with_capacity(alloc, 2 + ber_core::int_len(128))?;
/// ber_core::put_int(&mut out, 0x02, 128);
/// assert_eq!(rt; out.as_slice(), [0x02, 0x02, 0x00, 0x80].as_slice());
/// ```
#[inline(always)]
pub fn put_int<A: Allocator + Copy>(out: &mut Vec<u8, A>, tag: u8, value: i32)
    requires { vec_len out.old + length (written (tag ∷ []) (integer_octets value)) ≤ vec_capacity out.old }
    ensures items { out.new.items ≡ out.old.items ++ written (tag ∷ []) (integer_octets value) }
    ensures capacity { vec_capacity out.old ≤ vec_capacity out.new }
{
    if -0x80 <= value && value < 0x80 {
        put_octet(out, tag, (value.cast_unsigned() % 0x100) as u8);
    } else {
        put_long(out, tag, value);
    }
}

/// Appends an integer in the shortest definite form, or nothing. `tag` is one octet that `read_head`
/// reads as a tag (X.690, Encoding of an integer value).
#[inline(always)]
pub fn write_int<A: Allocator + Copy>(
    out: &mut Vec<u8, A>,
    tag: u8,
    value: i32,
) -> Result<(), OutOfMemory>
    requires { IsTag (tag ∷ []) }
    ensures ok { OnOk result (out.new.items ≡ out.old.items ++ written (tag ∷ []) (integer_octets value)) }
    ensures err { OnErr result (out.new.items ≡ out.old.items) }
    ensures full { OnErr result (vec_capacity out.old < vec_len out.old + length
        (written (tag ∷ []) (integer_octets value))) }
    // What is written is the number.
    ensures spelled { IsInteger value (integer_octets value) }
{
    out.reserve(2 + int_len(value))?;
    put_int(out, tag, value);
    Ok(())
}

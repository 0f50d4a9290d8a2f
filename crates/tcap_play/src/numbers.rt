//! Numbers in a script.

ghost use Rattle.std.specs.Prelude.{◌≡◌, neg_ℤ, pos, option_and_then};
ghost use Rattle.tcap_play.specs.Numbers.{is_padded, next_number, number_up_to, number_between, between, negative};

/// Whether a zero or a plus sign stands before the rest of a number.
fn is_padded(word: &[u8]) -> bool
    ensures { result ≡ is_padded word.now }
{
    matches!(word, [b'+', ..] | [b'0', _, ..])
}

/// A number with one digit more behind it, None where the octet is no digit or 64 bits don't hold it.
#[inline(always)]
fn with_digit(n: u64, octet: u8) -> Option<u64>
    ensures { result ≡ next_number n octet }
{
    if octet < b'0' || octet > b'9' {
        return None;
    }
    n.checked_mul(10)?.checked_add(u64::from(octet - b'0'))
}

/// The number that a word writes, up to the largest of 64 bits. Its octets are digits as they are read, so
/// they needn't be text first.
pub fn number(word: &[u8]) -> Option<u64>
    ensures { result ≡ number_up_to 18446744073709551615 word.now }
{
    if word.is_empty() || is_padded(word) {
        return None;
    }
    let mut n = 0u64;
    for octet in word {
        n = with_digit(n, *octet)?;
    }
    Some(n)
}

/// The number that a word writes, up to the largest of 32 bits.
pub(crate) fn number_of_32_bits(word: &[u8]) -> Option<u32>
    ensures { result ≡ number_up_to 4294967295 word.now }
{
    u32::try_from(number(word)?).ok()
}

/// The number below zero of so much, in the range of 32 bits; 0 has none.
fn below_zero(n: u64) -> Option<i32>
    ensures { result ≡ option_and_then (between (neg_ℤ (pos 2147483648)) (pos 2147483647)) (negative n) }
{
    if n == 0 {
        return None;
    }
    let n = i64::try_from(n).ok()?;
    i32::try_from(-n).ok()
}

/// The number that a word writes, with `-` before one below zero, in the range of 32 bits.
pub fn signed(word: &[u8]) -> Option<i32>
    ensures { result ≡ number_between (neg_ℤ (pos 2147483648)) (pos 2147483647) word.now }
{
    match word {
        [b'-', digits @ ..] => below_zero(number(digits)?),
        _ => i32::try_from(number(word)?).ok(),
    }
}

/// The number that a word writes, with `-` before one below zero, in the range of 8 bits.
pub(crate) fn signed_of_8_bits(word: &[u8]) -> Option<i8>
    ensures { result ≡ number_between (neg_ℤ (pos 128)) (pos 127) word.now }
{
    i8::try_from(signed(word)?).ok()
}

//! Identifier octets and length octets (X.690, Structure of an encoding).

ghost use Rattle.std.specs.Prelude.{◌≡◌, ◌≢◌, ◌↔◌, ◌==◌, ℕ, bit_and, false, List, ◌<◌, ◌≤◌, length, Option, IfOk, IfErr, IsOkAnd, IsTrue};
ghost use Rattle.ber_core.specs.Results.{Gives};
ghost use Rattle.ber_core.specs.Tag.{is_constructor};
ghost use Rattle.ber_core.specs.Head.{BeginsWithHead};
ghost use Rattle.ber_core.specs.Fault.{HeadFault};
ghost use Rattle.ber_core.specs.HeadReading.{further_at, tag_at, number_at, length_at, head_at};
ghost use Rattle.ber_core.specs.Views.{head_fields};
ghost use Rattle.ber_core.specs.Place.{AtFront, AtEnd};

use crate::fault::BerFault;

/// The greatest length that is read or written, in octets: 65,535 (our own).
pub const MAX_LENGTH: usize = 65_535;

/// How many octets a tag may have behind its first: 4 (our own).
pub const MAX_FURTHER: usize = 4;

/// The tag and the length of an element, and all that follows them (X.690, Structure of an encoding).
#[derive(Clone, Copy, Debug, PartialEq, Eq)]
pub struct Head<'a> {
    /// The tag's octets, 1 to 5.
    pub tag: &'a [u8],
    /// Whether the encoding is constructed: bit 6 of the tag's first octet.
    pub constructed: bool,
    /// The content's length in octets, 0 to 65,535; `None` in the indefinite form.
    pub length: Option<usize>,
    /// All that follows the length octets.
    pub rest: &'a [u8],
}

/// How many further octets a tag has, at the beginning of what follows its first octet.
#[inline(always)]
fn count_further(bytes: &[u8]) -> Result<usize, BerFault>
    ensures value { Gives (λ n. n) result (further_at 4 bytes.now) }
    ensures within { IfOk result (λ n. n ≤ length bytes.now) }
{
    for i in 0..MAX_FURTHER {
        if i >= bytes.len() {
            return Err(BerFault::Short);
        }
        if bytes[i] < 0x80 {
            return Ok(i + 1);
        }
    }
    Err(BerFault::BadTag)
}

/// The octets of the tag at the front, and what follows them.
#[tactic(auto, unfolding(crate::specs::HeadReading::tag_at))]
#[inline(always)]
fn split_tag(bytes: &[u8]) -> Result<(&[u8], &[u8]), BerFault>
    ensures value { Gives (λ x. (x.0.now, x.1.now)) result (tag_at bytes.now) }
    ensures shorter { IfOk result (λ x. length x.1.now < length bytes.now) }
    ensures filled { IfOk result (λ x. 0 < length x.0.now) }
    ensures place { IfOk result (λ x. AtFront x.0 bytes.entry × AtEnd x.1 bytes.entry) }
{
    match bytes {
        [] => Err(BerFault::Short),
        [0, ..] => Err(BerFault::BadTag),
        [first, ..] if *first & 0x1f != 0x1f => Ok((&bytes[..1], &bytes[1..])),
        [_, 0x80, ..] => Err(BerFault::BadTag),
        [_, further @ ..] => {
            let count = count_further(further)?;
            Ok((&bytes[..1 + count], &bytes[1 + count..]))
        }
    }
}

/// The number that the octets spell, most significant first.
#[inline(always)]
fn number(octets: &[u8]) -> Result<usize, BerFault>
    ensures { Gives (λ n. n) result (number_at octets.now) }
{
    let mut value: usize = 0;
    for octet in octets {
        value = value * 256 + *octet as usize;
        if value > MAX_LENGTH {
            return Err(BerFault::BadLength);
        }
    }
    Ok(value)
}

/// The length at the front, `None` if it is indefinite, and what follows its octets.
#[tactic(auto, unfolding(crate::specs::HeadReading::length_at))]
#[inline(always)]
fn split_length(constructed: bool, bytes: &[u8]) -> Result<(Option<usize>, &[u8]), BerFault>
    ensures value { Gives (λ x. (x.0, x.1.now)) result (length_at constructed bytes.now) }
    ensures shorter { IfOk result (λ x. length x.1.now < length bytes.now) }
    ensures place { IfOk result (λ x. AtEnd x.1 bytes.entry) }
{
    match bytes {
        [] => Err(BerFault::Short),
        [0x80, rest @ ..] => {
            if constructed {
                Ok((None, rest))
            } else {
                Err(BerFault::IndefinitePrimitive)
            }
        }
        [0xff, ..] => Err(BerFault::BadLength),
        [octet, rest @ ..] if *octet < 0x80 => Ok((Some(*octet as usize), rest)),
        [octet, rest @ ..] => {
            let count = *octet as usize - 0x80;
            if rest.len() < count {
                return Err(BerFault::Short);
            }
            Ok((Some(number(&rest[..count])?), &rest[count..]))
        }
    }
}

/// Reads tag and length, in exact form.
#[tactic(auto, unfolding(crate::specs::HeadReading::head_at))]
#[inline(always)]
fn split_head<'a>(bytes: &'a [u8]) -> Result<Head<'a>, BerFault>
    ensures value { Gives head_fields result (head_at bytes.now) }
    ensures shorter { IfOk result (λ h. length h.rest.now < length bytes.now) }
    ensures place { IfOk result (λ h. AtFront h.tag bytes.entry × AtEnd h.rest bytes.entry) }
{
    let (tag, rest) = split_tag(bytes)?;
    let constructed = tag[0] & 0x20 != 0;
    let (length, rest) = split_length(constructed, rest)?;
    Ok(Head {
        tag,
        constructed,
        length,
        rest,
    })
}

/// Reads the head of the first element. It never answers `TooDeep`.
#[inline(always)]
pub fn read_head<'a>(bytes: &'a [u8]) -> Result<Head<'a>, BerFault>
    // What is read is a head, and what follows it.
    ensures found { IfOk result (λ h. BeginsWithHead h.tag.now h.length h.rest.now bytes.now) }
    ensures constructed { IfOk result (λ h. h.constructed ≡ is_constructor h.tag.now) }
    ensures shorter { IfOk result (λ h. length h.rest.now < length bytes.now) }
    // Both are parts of the bytes: the tag begins where they begin, what follows ends where they end.
    ensures place { IfOk result (λ h. AtFront h.tag bytes.entry × AtEnd h.rest bytes.entry) }
    // Each head is read.
    ensures only { (tag rest : List ℕ) (len : Option ℕ) → BeginsWithHead tag len rest bytes.now →
        IsOkAnd result (λ h. (h.tag.now ≡ tag) × (h.length ≡ len) × (h.rest.now ≡ rest)) }
    // Which fault, the first from the left.
    ensures fault { IfErr result (λ f. HeadFault bytes.now f) }
    // The same, computed.
    ensures exact { Gives head_fields result (head_at bytes.now) }
{
    split_head(bytes)
}

/// Whether an element begins with a tag of this one octet and a length of this one octet.
#[inline(always)]
pub(crate) fn is_plain(tag: u8, length: u8) -> bool
    ensures { IsTrue result ↔ ((tag ≢ 0x00) × (bit_and tag 0x1f == 0x1f ≡ false) × (length < 0x80)) }
{
    tag != 0x00 && tag & 0x1f != 0x1f && length < 0x80
}

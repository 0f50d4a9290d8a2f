//! The elements of a sequence, in the order of the standard's table.

ghost use Rattle.std.specs.Prelude.{◌≡◌, ◌≢◌, ◌↔◌, ◌==◌, ◌+◌, ◌<◌, ◌≤◌, ℕ, [], ◌∷◌, bit_and, false, get_or, is_some, length, option_copied, option_map, IfSome, IsTrue, Some};
ghost use Rattle.ber_core.specs.SequenceReading.{tagged, content_at, first_whole, only_at, alone_at};
ghost use Rattle.ber_core.specs.Place.{AtFront, IsAt, AtEnd, head_length};
ghost use Rattle.ber_core.specs.Views.{parts, InPlace};
ghost use Rattle.ber_core.specs.Way.{IsInside, GoesOn};

use crate::element::{Element, read_element};
use crate::head::is_plain;

/// `take_tagged`, where the first octet is the tag.
#[tactic(auto, unfolding(crate::specs::SequenceReading::tagged))]
#[inline(always)]
fn read_tagged<'a>(bytes: &'a [u8], tag: u8) -> (Option<&'a [u8]>, &'a [u8])
    ensures value { (option_copied result.0, result.1.now) ≡ tagged tag bytes.now }
    ensures place { IfSome result.0 (λ c. IsAt (head_length bytes.now) c bytes.entry) × AtEnd result.1 bytes.entry }
{
    match read_element(bytes) {
        Ok((element, rest)) => match element.tag {
            [only] if *only == tag => (Some(element.content), rest),
            _ => (None, bytes),
        },
        Err(_) => (None, bytes),
    }
}

/// `take_tagged`, where any octet stands first: no element is read behind another tag.
#[tactic(auto, using(crate::proofs::SequenceGrammar::tagged_none, crate::proofs::SequenceGrammar::tagged_other))]
#[inline(always)]
fn split_tagged<'a>(bytes: &'a [u8], tag: u8) -> (Option<&'a [u8]>, &'a [u8])
    ensures value { (option_copied result.0, result.1.now) ≡ tagged tag bytes.now }
    ensures place { IfSome result.0 (λ c. IsAt (head_length bytes.now) c bytes.entry) × AtEnd result.1 bytes.entry }
{
    match bytes {
        [] => (None, bytes),
        [first, ..] if *first != tag => (None, bytes),
        [_, ..] => read_tagged(bytes, tag),
    }
}

/// The content of the first element, if it has this tag of one octet, and what follows it; else
/// nothing and all bytes.
#[inline(always)]
pub fn take_tagged<'a>(bytes: &'a [u8], tag: u8) -> (Option<&'a [u8]>, &'a [u8])
    ensures value { (option_copied result.0, result.1.now) ≡ tagged tag bytes.now }
    // Both are parts of the bytes, at their places.
    ensures place { IfSome result.0 (λ c. IsAt (head_length bytes.now) c bytes.entry) × AtEnd result.1 bytes.entry }
    // The same by tags: the content is this tag's, and other tags are looked for in what follows.
    ensures inside { IfSome result.0 (λ c. IsInside tag c bytes.entry) }
    ensures goes_on { (other : ℕ) → (tag == other) ≡ false → GoesOn other result.1 bytes.entry }
{
    split_tagged(bytes, tag)
}

/// The content of the first element, which has to have this tag, and what follows it.
#[inline(always)]
pub fn take_content<'a>(bytes: &'a [u8], tag: u8) -> Option<(&'a [u8], &'a [u8])>
    ensures value { option_map (λ r. (r.0.now, r.1.now)) result ≡ content_at tag bytes.now }
    ensures place { IfSome result (λ r. IsAt (head_length bytes.now) r.0 bytes.entry × AtEnd r.1 bytes.entry) }
    ensures inside { IfSome result (λ r. IsInside tag r.0 bytes.entry) }
    ensures goes_on { (other : ℕ) → (tag == other) ≡ false
        → IfSome result (λ r. GoesOn other r.1 bytes.entry) }
{
    match take_tagged(bytes, tag) {
        (Some(content), rest) => Some((content, rest)),
        (None, _) => None,
    }
}

/// The octets of the first element, whatever its tag, and what follows it; else nothing and all bytes.
#[tactic(auto, unfolding(crate::specs::SequenceReading::first_whole))]
#[inline(always)]
pub fn take_any<'a>(bytes: &'a [u8]) -> (Option<&'a [u8]>, &'a [u8])
    ensures value { (option_copied result.0, result.1.now) ≡ first_whole bytes.now }
    ensures place { IfSome result.0 (λ w. AtFront w bytes.entry) × AtEnd result.1 bytes.entry }
{
    match read_element(bytes) {
        Ok((element, rest)) => (Some(element.whole), rest),
        Err(_) => (None, bytes),
    }
}

/// The content of the one element that the bytes are, which has to have this tag.
#[tactic(auto, unfolding(crate::specs::SequenceReading::only_at))]
#[inline(always)]
pub fn take_only<'a>(bytes: &'a [u8], tag: u8) -> Option<&'a [u8]>
    ensures value { option_copied result ≡ only_at tag bytes.now }
    ensures place { IfSome result (λ c. IsAt (head_length bytes.now) c bytes.entry) }
    ensures inside { IfSome result (λ c. IsInside tag c bytes.entry) }
{
    let (content, rest) = take_content(bytes, tag)?;
    if !rest.is_empty() {
        return None;
    }
    Some(content)
}

/// The element, if the bytes are one element and nothing after it.
#[tactic(auto, unfolding(crate::specs::SequenceReading::alone_at))]
#[inline(always)]
pub fn read_alone<'a>(bytes: &'a [u8]) -> Option<Element<'a>>
    ensures value { option_map parts result ≡ alone_at bytes.now }
    ensures place { IfSome result (λ e. InPlace e bytes.entry) }
    ensures inside { (tag : ℕ) → IfSome result (λ e. e.tag.now ≡ tag ∷ []
        → IsInside tag e.content bytes.entry) }
{
    match read_element(bytes) {
        Ok((element, [])) => Some(element),
        _ => None,
    }
}

/// `take_content` of an element whose length is one octet below 128; nothing where the first is another,
/// though it may have this tag (X.690, Length octets).
#[inline(always)]
pub fn take_short<'a>(bytes: &'a [u8], tag: u8) -> Option<(&'a [u8], &'a [u8])>
    // The tag is of one octet.
    requires { (tag ≢ 0x00) × (bit_and tag 0x1f == 0x1f ≡ false) }
    // Exactly where the tag and such a length stand first, and the content is whole.
    ensures found { IsTrue (is_some result) ↔ ((get_or bytes.now 0 0 ≡ tag)
        × (get_or bytes.now 1 0 < 0x80) × (2 + get_or bytes.now 1 0 ≤ length bytes.now)) }
    ensures value { IfSome result (λ r. content_at tag bytes.now ≡ Some (r.0.now, r.1.now)) }
    // Both lie where `take_content` finds them.
    ensures inside { IfSome result (λ r. IsInside tag r.0 bytes.entry) }
    ensures goes_on { (other : ℕ) → (tag == other) ≡ false
        → IfSome result (λ r. GoesOn other r.1 bytes.entry) }
{
    match bytes {
        [first, length, body @ ..]
            if *first == tag && is_plain(tag, *length) && *length as usize <= body.len() => {
            let length = *length as usize;
            Some((&body[..length], &body[length..]))
        }
        _ => None,
    }
}

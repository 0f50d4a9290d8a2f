//! One octet of a head, or of an end.

ghost use Rattle.std.specs.Prelude.{◌≡◌, ◌<◌, ◌≤◌, ◌+◌, ◌*◌, ◌∷◌, List, ℕ, Some, None};
ghost use Rattle.ber_core.specs.Scanning.{Leads, goes_on, goes_on_or, outer_at, at_tag, at_element, at_end, at_body, at_length, at_long, behind_further, at_due};
ghost use Rattle.ber_core.specs.HeadReading.{all_further_at, further_at};
ghost use Rattle.ber_core.specs.Length.{length_limit};
ghost use Rattle.ber_core.specs.Element.{depth_limit};
ghost use Rattle.ber_core.specs.Due.{CanBeDue};

use super::Scanner;
use super::due::Due;
use crate::element::MAX_DEPTH;
use crate::fault::BerFault;
use crate::head::{MAX_FURTHER, MAX_LENGTH};

/// The scanner where this is due and so many indefinite elements are open.
#[inline(always)]
pub(crate) fn due_at(due: Due, nested: u8) -> Option<Scanner>
    requires { CanBeDue due nested }
    ensures { (rest : List ℕ) → goes_on_or result rest ≡ at_due due nested rest }
{
    Some(Scanner { due, nested })
}

/// Behind an element: the contents of the one around it go on; `None` where none is open.
#[inline(always)]
pub(crate) fn behind_element(nested: u8) -> Option<Scanner>
    requires { nested ≤ depth_limit }
    ensures { (rest : List ℕ) → goes_on_or result rest ≡ outer_at nested rest }
{
    if nested == 0 {
        return None;
    }
    due_at(Due::Tag, nested)
}

/// Behind a head with a definite length.
#[inline(always)]
fn behind_definite(nested: u8, len: u16) -> Option<Scanner>
    requires { nested ≤ depth_limit }
    ensures { (rest : List ℕ) → goes_on_or result rest ≡ at_body nested (Some len, rest) }
{
    if len == 0 {
        return behind_element(nested);
    }
    due_at(Due::Content(len), nested)
}

/// Behind the head of an indefinite element: one more is open.
#[inline(always)]
fn behind_indefinite(nested: u8) -> Result<Option<Scanner>, BerFault>
    requires { nested ≤ depth_limit }
    ensures { Leads (λ rest. at_body nested (None, rest)) result }
{
    if nested >= MAX_DEPTH {
        return Err(BerFault::TooDeep);
    }
    Ok(due_at(Due::Tag, nested + 1))
}

/// The first octet of a tag.
#[inline(always)]
fn take_first(nested: u8, octet: u8) -> Result<Option<Scanner>, BerFault>
    requires { nested ≤ depth_limit }
    ensures { Leads (λ rest. at_element nested (octet ∷ rest)) result }
{
    if octet == 0 {
        return Err(BerFault::BadTag);
    }
    let constructed = octet & 0x20 != 0;
    if octet & 0x1f == 0x1f {
        return Ok(due_at(Due::FirstFurther(constructed), nested));
    }
    Ok(due_at(Due::Length(constructed), nested))
}

/// The first octet of a tag; inside an indefinite element also that of an end.
#[inline(always)]
fn take_tag(nested: u8, octet: u8) -> Result<Option<Scanner>, BerFault>
    requires { nested ≤ depth_limit }
    ensures { Leads (λ rest. at_tag nested (octet ∷ rest)) result }
{
    if octet == 0 && nested > 0 {
        return Ok(due_at(Due::End, nested));
    }
    take_first(nested, octet)
}

/// The second octet of an end.
#[inline(always)]
fn take_end(nested: u8, octet: u8) -> Result<Option<Scanner>, BerFault>
    requires least { 0 < nested }
    requires most { nested ≤ depth_limit }
    ensures { Leads (λ rest. at_end nested (octet ∷ rest)) result }
{
    if octet != 0 {
        return Err(BerFault::BadTag);
    }
    Ok(behind_element(nested - 1))
}

/// An octet of a tag behind its first, of which so many are allowed.
#[inline(always)]
fn take_further(
    nested: u8,
    constructed: bool,
    left: u8,
    octet: u8,
) -> Result<Option<Scanner>, BerFault>
    requires left { 0 < left }
    requires nested { nested ≤ depth_limit }
    ensures { Leads (λ rest. behind_further constructed nested
        (octet ∷ rest) (further_at left (octet ∷ rest))) result }
{
    if octet < 0x80 {
        return Ok(due_at(Due::Length(constructed), nested));
    }
    if left == 1 {
        return Err(BerFault::BadTag);
    }
    Ok(due_at(Due::Further(constructed, left - 1), nested))
}

/// The second octet of a tag.
#[inline(always)]
fn take_first_further(nested: u8, constructed: bool, octet: u8) -> Result<Option<Scanner>, BerFault>
    requires { nested ≤ depth_limit }
    ensures { Leads (λ rest. behind_further constructed nested
        (octet ∷ rest) (all_further_at (octet ∷ rest))) result }
{
    if octet == 0x80 {
        return Err(BerFault::BadTag);
    }
    take_further(nested, constructed, MAX_FURTHER as u8, octet)
}

/// The first octet of a length.
#[inline(always)]
fn take_length(nested: u8, constructed: bool, octet: u8) -> Result<Option<Scanner>, BerFault>
    requires { nested ≤ depth_limit }
    ensures { Leads (λ rest. at_length constructed nested (octet ∷ rest)) result }
{
    if octet == 0x80 {
        if !constructed {
            return Err(BerFault::IndefinitePrimitive);
        }
        return behind_indefinite(nested);
    }
    if octet == 0xff {
        return Err(BerFault::BadLength);
    }
    if octet < 0x80 {
        return Ok(behind_definite(nested, octet as u16));
    }
    Ok(due_at(Due::LongLength(octet - 0x80, 0), nested))
}

/// The number that an octet more spells, most significant first.
#[inline(always)]
fn with_octet(value: u32, octet: u8) -> u32
    requires { value ≤ length_limit + 1 }
    ensures { result ≡ value * 256 + octet }
{
    value * 256 + octet as u32
}

/// One of so many octets of a long length; those before it spell `value`, or a number above the limit.
#[inline(always)]
fn take_long_length(
    nested: u8,
    left: u8,
    value: u32,
    octet: u8,
) -> Result<Option<Scanner>, BerFault>
    requires left { 0 < left }
    requires value { value ≤ length_limit + 1 }
    requires nested { nested ≤ depth_limit }
    ensures { Leads (λ rest. at_long nested left value (octet ∷ rest)) result }
{
    let value = with_octet(value, octet);
    let above = value > MAX_LENGTH as u32;
    if left > 1 {
        let value = if above { MAX_LENGTH as u32 + 1 } else { value };
        return Ok(due_at(Due::LongLength(left - 1, value), nested));
    }
    if above {
        return Err(BerFault::BadLength);
    }
    Ok(behind_definite(nested, value as u16))
}

/// One of so many octets of a content.
#[inline(always)]
fn take_content(nested: u8, left: u16) -> Option<Scanner>
    requires left { 0 < left }
    requires nested { nested ≤ depth_limit }
    ensures { (octet : ℕ) (rest : List ℕ) → goes_on_or result rest
        ≡ at_due (Due.Content left) nested (octet ∷ rest) }
{
    if left == 1 {
        return behind_element(nested);
    }
    due_at(Due::Content(left - 1), nested)
}

impl Scanner {
    /// Takes the next octet; `None` where the element ends with it.
    #[inline(always)]
    pub fn take(self, octet: u8) -> Result<Option<Scanner>, BerFault>
        ensures { Leads (λ rest. goes_on self (octet ∷ rest)) result }
    {
        let nested = self.nested;
        match self.due {
            Due::Tag => take_tag(nested, octet),
            Due::End => take_end(nested, octet),
            Due::FirstFurther(constructed) => take_first_further(nested, constructed, octet),
            Due::Further(constructed, left) => take_further(nested, constructed, left, octet),
            Due::Length(constructed) => take_length(nested, constructed, octet),
            Due::LongLength(left, value) => take_long_length(nested, left, value, octet),
            Due::Content(left) => Ok(take_content(nested, left)),
        }
    }
}

//! Reading the first element of some octets. The contents of one of indefinite form are scanned octet by octet, to find
//! where it ends; at most `MAX_DEPTH` of them are open.

ghost use Rattle.std.specs.Prelude.{◌≡◌, ℕ, ◌++◌, List, IsOkAnd, IfOk, IfErr, ◌+◌, ◌≤◌, length};
ghost use Rattle.ber_core.specs.Results.{Gives};
ghost use Rattle.ber_core.specs.Tag.{is_constructor};
ghost use Rattle.ber_core.specs.Element.{IsElement, Parts, depth_limit};
ghost use Rattle.ber_core.specs.Fault.{ElementFault};
ghost use Rattle.ber_core.specs.ElementReading.{element_at, inner_at, body_at, content_of};
ghost use Rattle.ber_core.specs.Place.{AtEnd, AtFront};
ghost use Rattle.ber_core.specs.Views.{parts, InPlace};

use crate::element::Element;
use crate::fault::BerFault;
use crate::head::read_head;
use crate::scanner::Scanner;

/// How many indefinite elements may stand one in another: 32 (our own).
pub const MAX_DEPTH: u8 = 32;

/// What follows the elements of an indefinite element and their end.
#[inline(never)]
fn skip_contents(bytes: &[u8]) -> Result<&[u8], BerFault>
    ensures value { Gives (λ rest. rest.now) result (inner_at depth_limit bytes.now) }
    ensures shorter { IfOk result (λ rest. length rest.now + 2 ≤ length bytes.now) }
{
    match Scanner::inside().scan(bytes)? {
        (None, rest) => Ok(rest),
        (Some(_), _) => Err(BerFault::Short),
    }
}

/// The content of an element whose head says `len`, and what follows the element.
#[inline(always)]
fn split_body(len: Option<usize>, body: &[u8]) -> Result<(&[u8], &[u8]), BerFault>
    ensures value { Gives (λ x. x.1.now) result (body_at depth_limit len body.now) }
    ensures content { IfOk result (λ x. x.0.now ≡ content_of len body.now x.1.now) }
    ensures shorter { IfOk result (λ x. length x.1.now ≤ length body.now) }
    ensures place { IfOk result (λ x. AtFront x.0 body.entry) }
{
    match len {
        Some(len) => {
            if body.len() < len {
                return Err(BerFault::Short);
            }
            Ok((&body[..len], &body[len..]))
        }
        None => {
            let rest = skip_contents(body)?;
            Ok((&body[..body.len() - (rest.len() + 2)], rest))
        }
    }
}

/// The first element, part by part, and what follows it.
#[inline(always)]
fn split_parts<'a>(bytes: &'a [u8]) -> Result<(Element<'a>, &'a [u8]), BerFault>
    ensures value { Gives (λ r. (parts r.0, r.1.now)) result (element_at depth_limit bytes.now) }
    ensures place { IfOk result (λ r. InPlace r.0 bytes.entry × AtEnd r.1 bytes.entry) }
{
    let head = read_head(bytes)?;
    let (content, rest) = split_body(head.length, head.rest)?;
    let end = bytes.len() - rest.len();
    let element = Element {
        tag: head.tag,
        constructed: head.constructed,
        content,
        whole: &bytes[..end],
    };
    Ok((element, &bytes[end..]))
}

/// The first element and what follows it, in exact form.
#[inline(always)]
fn split_element<'a>(bytes: &'a [u8]) -> Result<(Element<'a>, &'a [u8]), BerFault>
    ensures value { Gives (λ r. (parts r.0, r.1.now)) result (element_at depth_limit bytes.now) }
    ensures place { IfOk result (λ r. InPlace r.0 bytes.entry × AtEnd r.1 bytes.entry) }
{
    split_parts(bytes)
}

/// Reads the first element, and gives what follows it.
///
/// ```rust
/// let (element, rest) = ber_core::read_element(&[0x04, 0x01, 0xaa, 0x05])?;
/// assert_eq!(rt; element.content, [0xaa].as_slice());
/// assert_eq!(rt; rest, [0x05].as_slice());
/// assert!(rt; matches!(ber_core::read_element(&[0x04, 0x02, 0xaa]), Err(BerFault::Short)));
/// ```
#[inline(always)]
pub fn read_element<'a>(bytes: &'a [u8]) -> Result<(Element<'a>, &'a [u8]), BerFault>
    // What is read is an element, and what follows it.
    ensures found { IfOk result (λ r. IsElement depth_limit (parts r.0) × (bytes.now ≡ r.0.whole.now ++ r.1.now)) }
    ensures constructed { IfOk result (λ r. r.0.constructed ≡ is_constructor r.0.tag.now) }
    // Each slice is a part of the bytes, at its place.
    ensures place { IfOk result (λ r. InPlace r.0 bytes.entry × AtEnd r.1 bytes.entry) }
    // Each element is read.
    ensures only { (e : Parts) (rest : List ℕ) → IsElement depth_limit e → bytes.now ≡ e.whole ++ rest →
        IsOkAnd result (λ r. (parts r.0 ≡ e) × (r.1.now ≡ rest)) }
    // Which fault, the first from the left.
    ensures fault { IfErr result (λ f. ElementFault depth_limit bytes.now f) }
    // The same, computed: what the layers above cite.
    ensures exact { Gives (λ r. (parts r.0, r.1.now)) result (element_at depth_limit bytes.now) }
{
    split_element(bytes)
}

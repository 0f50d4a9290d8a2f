//! Where the portions of a message begin in its octets.

ghost use Rattle.std.specs.Prelude.{◌≡◌, ◌+◌, ◌≤◌, true, [], ◌∷◌, is_ok, length};
ghost use Rattle.std.specs.List.{list_all};
ghost use Rattle.ber_core.specs.Element.{IsElement, depth_limit};
ghost use Rattle.ber_core.specs.ListReading.{items_of};
ghost use Rattle.ber_core.specs.Place.{head_length};
ghost use Rattle.ber_core.specs.SequenceReading.{is_tag};
ghost use Rattle.ber_core.specs.Views.{parts};
ghost use Rattle.ber_core.specs.Way.{inside, way_to};

use ber_core::{Element, read_element, read_head};

/// How many octets the head of the first element has.
#[tactic(auto, unfolding(ber_core::specs::Place::head_length))]
pub(crate) fn head_len(bytes: &[u8]) -> usize
    ensures value { result ≡ head_length bytes.now }
    ensures within { result ≤ length bytes.now }
{
    match read_head(bytes) {
        Ok(head) => bytes.len() - head.rest.len(),
        Err(_) => 0,
    }
}

/// Whether a tag is this one octet.
fn is_tag(tag: u8, octets: &[u8]) -> bool
    ensures { result ≡ is_tag tag octets.now }
{
    match octets {
        [only] => *only == tag,
        _ => false,
    }
}

/// The content of the first element with this tag in a list, and how many octets stand before it.
fn find(tag: u8, bytes: &[u8]) -> (usize, &[u8])
    ensures value { (result.0, result.1.now) ≡ inside tag bytes.now }
    ensures within { result.0 + length result.1.now ≤ length bytes.now }
{
    let mut rest = bytes;
    while !rest.is_empty() {
        let Ok((element, after)) = read_element(rest) else {
            return (bytes.len() - rest.len(), &[]);
        };
        if is_tag(tag, element.tag) {
            return (bytes.len() - rest.len() + head_len(rest), element.content);
        }
        rest = after;
    }
    (bytes.len(), &[])
}

/// How many octets of a message stand before the contents of a portion, by the tags of both.
#[tactic(auto, unfolding(ber_core::specs::Way::way_to))]
pub(crate) fn way(message: u8, portion: u8, bytes: &[u8]) -> usize
    ensures value { result ≡ way_to (message ∷ portion ∷ []) bytes.now }
    ensures within { result ≤ length bytes.now }
{
    let (front, content) = find(message, bytes);
    let (before, _) = find(portion, content);
    front + before
}

/// How many octets stand before the content of the first element with this tag, in a list of elements. Where that content
/// ends isn't looked for, as that takes as long as there are elements in it.
fn place_of(tag: u8, bytes: &[u8]) -> usize
    requires { list_all is_ok (items_of bytes.now) ≡ true }
    ensures value { result ≡ (inside tag bytes.now).0 }
    ensures within { result ≤ length bytes.now }
{
    let mut rest = bytes;
    while let Ok(head) = read_head(rest) {
        if is_tag(tag, head.tag) {
            return bytes.len() - head.rest.len();
        }
        let Ok((_, after)) = read_element(rest) else {
            return bytes.len() - rest.len();
        };
        rest = after;
    }
    bytes.len() - rest.len()
}

/// `way` in an element that was read, has the tag of the message and holds a list of elements: neither it nor the
/// portion is read again.
pub(crate) fn way_within(message: u8, portion: u8, element: &Element<'_>) -> usize
    requires element { IsElement depth_limit (parts element.now) }
    requires tag { is_tag message element.now.tag.now ≡ true }
    requires listed { list_all is_ok (items_of element.now.content.now) ≡ true }
    ensures value { result ≡ way_to (message ∷ portion ∷ []) element.now.whole.now }
    ensures within { result ≤ length element.now.whole.now }
{
    let before = place_of(portion, element.content);
    head_len(element.whole) + before
}

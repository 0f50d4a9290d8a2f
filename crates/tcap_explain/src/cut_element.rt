//! An element that is cut off.

ghost use Rattle.std.specs.Prelude.{◌≡◌, ◌-◌, take, drop};
ghost use Rattle.tcap_explain.specs.ExplainText.{wanted};

use ber_core::read_head;

/// The octets of the element that is cut off at the place.
fn cut_octets(bytes: &[u8], place: usize, element: usize) -> &[u8]
    ensures { result.now ≡ take (place - element) (drop element bytes.now) }
{
    let rest = if element < bytes.len() {
        &bytes[element..]
    } else {
        &[]
    };
    let count = place.saturating_sub(element);
    if count < rest.len() {
        &rest[..count]
    } else {
        rest
    }
}

/// How many octets the element wants that is cut off at the place; None where its head doesn't say, or isn't whole.
#[tactic(auto, unfolding(crate::specs::ExplainText::wanted))]
pub(crate) fn octets_wanted(bytes: &[u8], place: usize, element: usize) -> Option<usize>
    ensures { result ≡ wanted bytes.now place element }
{
    let Ok(head) = read_head(cut_octets(bytes, place, element)) else {
        return None;
    };
    match head.length {
        Some(len) => Some(len.saturating_sub(head.rest.len())),
        None => None,
    }
}

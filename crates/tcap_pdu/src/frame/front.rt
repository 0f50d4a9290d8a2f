//! The identifiers at the beginning of a message, for the answer to a faulty one.

ghost use Rattle.std.specs.Prelude.{◌≡◌, ℕ, List, Option, option_copied};
ghost use Rattle.tcap_pdu.specs.Front.{Front, front_at, id_in, cut, both};

use crate::tag;
use crate::trans_id::TransId;
use ber_core::{read_head, take_tagged};

/// The identifier that a content is, if one was found and it is one.
fn as_id(found: Option<&[u8]>) -> Option<TransId>
    ensures { result ≡ id_in (option_copied found.entry) }
{
    TransId::new(found?)
}

/// The bytes, cut to the length where they are more.
fn cut_to<'a>(length: Option<usize>, rest: &'a [u8]) -> &'a [u8]
    ensures { result.now ≡ cut length rest.now }
{
    match length {
        Some(length) if length <= rest.len() => rest.split_at(length).0,
        _ => rest,
    }
}

/// Origin and destination at the front, in exact form.
#[tactic(auto, unfolding(crate::specs::Front::front_at))]
fn split_front(bytes: &[u8]) -> (Option<TransId>, Option<TransId>)
    ensures { both result.0 result.1 ≡ front_at bytes.now }
{
    let Ok(head) = read_head(bytes) else {
        return (None, None);
    };
    if !head.constructed {
        return (None, None);
    }
    let inside = cut_to(head.length, head.rest);
    let (origin, rest) = take_tagged(inside, tag::ORIGIN);
    let (destination, _) = take_tagged(rest, tag::DESTINATION);
    (as_id(origin), as_id(destination))
}

/// The originating and the destination transaction identifier at the beginning of a message that may be
/// faulty, `None` where there is none to be read (our own).
pub fn front_ids(bytes: &[u8]) -> (Option<TransId>, Option<TransId>)
    // What is read stands at the front, and nothing else does.
    ensures found { Front bytes.now result.0 result.1 }
    ensures only { (o d : Option (List ℕ)) → Front bytes.now o d → (result.0 ≡ o) × (result.1 ≡ d) }
    // The same, computed: what the layers above cite.
    ensures exact { both result.0 result.1 ≡ front_at bytes.now }
{
    split_front(bytes)
}

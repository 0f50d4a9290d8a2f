//! The elements of a list, one after the other.

ghost use Rattle.std.specs.Prelude.{◌≡◌, List, IsTrue, IfOk, IfErr, IfSome, is_ok, option_map, Ok, Err};
ghost use Rattle.ber_core.specs.ElementList.{IsList};
ghost use Rattle.ber_core.specs.Place.{AtEnd};
ghost use Rattle.ber_core.specs.Element.{Parts, depth_limit};
ghost use Rattle.ber_core.specs.ElementReading.{element_at};
ghost use Rattle.std.specs.List.{list_all};
ghost use Rattle.ber_core.specs.ListReading.{items_of, item_at};
ghost use Rattle.ber_core.specs.Views.{item_view, ItemInPlace};

use crate::element::{Element, read_element};
use crate::fault::BerFault;
use crate::head::is_plain;

/// The elements of a list, one after the other; after a fault it ends (X.690, Contents octets).
#[derive(Clone, Copy, Debug)]
pub struct Elements<'a> {
    rest: &'a [u8],
}

impl<'a> Elements<'a> {
    ghost use Rattle.ber_core.specs.ElementList.{IsList, BreaksOff, AreItems, items, items_and};
    ghost use Rattle.ber_core.specs.ListReading.{items_of};
    ghost use Rattle.ber_core.specs.Views.{items_left, bytes_left};

    /// The elements that the bytes are.
    pub fn new(bytes: &'a [u8]) -> Elements<'a>
        // The elements of the list, or those before the first fault, and that fault.
        ensures found { AreItems (items_left result) bytes.now }
        // Each list of elements is read.
        ensures only { (elements : List Parts) → IsList elements bytes.now → items_left result ≡ items elements }
        // Which fault, the first from the left.
        ensures fault { (elements : List Parts) (f : BerFault) → BreaksOff elements f bytes.now →
            items_left result ≡ items_and elements f }
        // All of these bytes are still to be read.
        ensures place { bytes_left result ≡ bytes.entry }
        // The same, computed: what the layers above cite.
        ensures exact { items_left result ≡ items_of bytes.now }
    {
        Elements { rest: bytes }
    }
}

impl<'a> Iterator for Elements<'a> {
    ghost use Rattle.std.specs.Iterator.{item_count};
    ghost use Rattle.ber_core.specs.Views.{items_left, elements_steps};

    type Item = Result<Element<'a>, BerFault>;

    // The first item that is left; its slices are parts of the bytes that are left.
    ghost next_gives = { elements_steps };

    ghost remaining = { item_count items_left };

    #[inline(always)]
    fn next(&mut self) -> Option<Result<Element<'a>, BerFault>> {
        let (item, rest) = split_item(self.rest);
        self.rest = rest;
        item
    }
}

/// The first item, and what is left behind it: after a fault, nothing.
#[tactic(auto, unfolding(crate::specs::ListReading::item_at))]
#[inline(always)]
fn split_item<'a>(bytes: &'a [u8]) -> (Option<Result<Element<'a>, BerFault>>, &'a [u8])
    ensures value { (option_map item_view result.0, result.1.now) ≡ item_at bytes.now }
    ensures place { IfSome result.0 (λ item. ItemInPlace item bytes.entry) × AtEnd result.1 bytes.entry }
{
    if bytes.is_empty() {
        return (None, bytes);
    }
    match read_element(bytes) {
        Ok((element, rest)) => (Some(Ok(element)), rest),
        Err(fault) => (Some(Err(fault)), &bytes[bytes.len()..]),
    }
}

/// What follows the first element. One with a tag and a length of one octet each is passed over at
/// once.
#[inline(always)]
fn skip_first(bytes: &[u8]) -> Result<&[u8], BerFault>
    ensures ok { IfOk result (λ rest. (e : Parts) × (element_at depth_limit bytes.now ≡ Ok (e, rest.now))) }
    ensures err { IfErr result (λ f. element_at depth_limit bytes.now ≡ Err f) }
{
    match bytes {
        [first, length, body @ ..] if is_plain(*first, *length) && *length as usize <= body.len() =>
            {
                let (_, rest) = body.split_at(*length as usize);
                Ok(rest)
            }
        _ => {
            let (_, rest) = read_element(bytes)?;
            Ok(rest)
        }
    }
}

/// Whether all items are elements: each is passed over, and none kept.
#[tactic(auto, using(crate::proofs::ItemSteps::all_fault, crate::proofs::ItemSteps::all_none))]
fn are_elements(bytes: &[u8]) -> bool
    ensures { result ≡ list_all is_ok (items_of bytes.now) }
{
    let mut rest = bytes;
    while !rest.is_empty() {
        let Ok(after) = skip_first(rest) else {
            return false;
        };
        rest = after;
    }
    true
}

/// Whether the bytes are a list of elements.
#[inline(always)]
pub fn is_element_list(bytes: &[u8]) -> bool
    ensures found { IsTrue result → (elements : List Parts) × IsList elements bytes.now }
    ensures only { (elements : List Parts) → IsList elements bytes.now → IsTrue result }
    // The same, computed: what the layers above cite.
    ensures exact { result ≡ list_all is_ok (items_of bytes.now) }
{
    are_elements(bytes)
}

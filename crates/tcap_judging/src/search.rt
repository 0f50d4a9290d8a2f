//! The next octet of a stream at which a good message begins.

ghost use Rattle.std.specs.Prelude.{◌≡◌, ◌≤◌, ◌<◌, Bool, true, length, min, drop};
ghost use Rattle.ber_core.specs.HeadReading.{head_at};
ghost use Rattle.ber_core.specs.Stream.{cut_of};
ghost use Rattle.tcap_judging.specs.Resync.{begins, is_message_tag, may_be_good, may_begin, may_go_on, may_hold, may_hold_behind, may_lead, passed_in, is_found};

use crate::by_element::is_good_element;
use crate::front::Front;
use crate::stream_cut::{fault_of, first_element};
use ber_core::read_head;
use tcap_pdu::tag;

/// Where a search stands: how many octets are passed over, and whether it is over there.
#[derive(Clone, Copy)]
pub(crate) struct Passed {
    pub(crate) count: usize,
    pub(crate) is_found: bool,
}

/// Whether the contents of a message with this tag may begin with this octet.
fn may_lead(tag: u8, first: u8) -> bool
    ensures { result ≡ may_lead tag first }
{
    match tag {
        tag::UNIDIRECTIONAL => first == tag::DIALOGUE_PORTION || first == tag::COMPONENT_PORTION,
        tag::BEGIN | tag::CONTINUE => first == tag::ORIGIN,
        _ => first == tag::DESTINATION,
    }
}

/// Whether a tag of one octet is that of a message.
fn is_message_tag(tag: u8) -> bool
    ensures { result ≡ is_message_tag tag }
{
    match tag {
        tag::UNIDIRECTIONAL | tag::BEGIN | tag::END | tag::CONTINUE | tag::ABORT => true,
        _ => false,
    }
}

/// Whether what stands behind a head may be contents of a message with this tag, as far as it has come.
fn may_hold(tag: u8, octets: &[u8]) -> bool
    ensures { result ≡ may_hold tag octets.now }
{
    match octets {
        [first, ..] => may_lead(tag, *first),
        [] => true,
    }
}

/// Whether what stands behind the head of the octets may be so; true where they begin with no head.
fn may_hold_behind(tag: u8, octets: &[u8]) -> bool
    ensures { result ≡ may_hold_behind tag (head_at octets.now) }
{
    match read_head(octets) {
        Ok(head) => may_hold(tag, head.rest),
        Err(_) => true,
    }
}

/// Whether a good message may go on so. This is seen before its end is looked for, as that takes as long as there are
/// elements in it.
fn may_go_on(octets: &[u8]) -> bool
    ensures { result ≡ may_go_on octets.now }
{
    match octets {
        [tag, ..] => is_message_tag(*tag) && may_hold_behind(*tag, octets),
        [] => false,
    }
}

/// What begins octets as which a good message may go on.
fn what_begins_well(octets: &[u8]) -> Front
    ensures { (ends : Bool) → begins ends result
        ≡ may_be_good ends true (cut_of octets.now).messages (cut_of octets.now).fault }
{
    match first_element(octets) {
        Ok(element) => {
            if is_good_element(&element) {
                Front::Good
            } else {
                Front::Other
            }
        }
        Err(why) => {
            if fault_of(why, octets).is_none() {
                Front::Short
            } else {
                Front::Other
            }
        }
    }
}

/// What begins the octets.
#[tactic(auto, using(crate::proofs::MessageFronts::begins_not))]
fn what_begins(octets: &[u8]) -> Front
    ensures { (ends : Bool) → begins ends result ≡ may_begin ends octets.now }
{
    if may_go_on(octets) {
        what_begins_well(octets)
    } else {
        Front::Other
    }
}

/// Whether a good message begins octets with this front; where more may follow, also whether it may begin them.
fn begins(ends: bool, front: Front) -> bool
    ensures { result ≡ begins ends front }
{
    match front {
        Front::Good => true,
        Front::Short => !ends,
        Front::Other => false,
    }
}

/// How many octets are passed over, at most so many, and where they are fewer whether the search is over there.
pub(crate) fn pass_over(ends: bool, octets: &[u8], most: usize) -> Passed
    ensures count { result.count ≡ min most (passed_in ends octets.now) }
    ensures within { result.count ≤ length octets.now }
    ensures found { result.count < most → result.is_found ≡ is_found ends (drop result.count octets.now) }
{
    let end = if most < octets.len() {
        most
    } else {
        octets.len()
    };
    for count in 0..end {
        let front = what_begins(&octets[count..]);
        if begins(ends, front) {
            return Passed {
                count,
                is_found: begins(true, front),
            };
        }
    }
    Passed {
        count: end,
        is_found: ends,
    }
}

//! The messages of a stream that comes in pieces.

ghost use Rattle.std.specs.Prelude.{◌≡◌, ◌<◌, ◌≤◌, ◌+◌, ◌^◌, ◌++◌, [], length, take, drop, IfOk, MatchResult, OnOk, string_bytes};
ghost use Rattle.ber_core.specs.Element.{IsElement, depth_limit};
ghost use Rattle.ber_core.specs.Stream.{cut_into, cut_of, rest_fault, with_message};
ghost use Rattle.ber_core.specs.Views.{parts};
ghost use Rattle.tcap_words.specs.Verdict.{message_limit};
ghost use Rattle.tcap_judging.specs.Entry.{broken_entries, judged_by};
ghost use Rattle.tcap_judging.specs.EntryText.{entries_text, are_good, plain_unread_text, unread_text};
ghost use Rattle.tcap_judging.specs.StreamSteps.{AddsMessages, AddsOctets};
ghost use Rattle.tcap_judging.specs.NameViews.{form_view};

use crate::form::{Form, Layout};
use crate::json_text::add_unread_object;
use crate::judging::judge;
use crate::label::Label;
use crate::message_text::add_message;
use ber_core::{BerFault, Element, FeedFault, MAX_LENGTH, OutOfMemory, read_element};
use std::alloc::Allocator;
use tcap_words::add_decimal;

/// What stands behind the messages of some octets, the offset of its first octet, the fault that stands there, if one
/// does, and whether all of the messages are good.
#[derive(Clone, Copy)]
pub(crate) struct Cut<'a> {
    pub(crate) rest: &'a [u8],
    pub(crate) offset: u64,
    pub(crate) fault: Option<FeedFault>,
    pub(crate) good: bool,
}

/// What is kept of a stream: the octets behind its last message, the offset of the first of them, and the fault that
/// stands there, if one does.
#[derive(Drop)]
pub(crate) struct Behind<A: Allocator + Copy> {
    pub(crate) kept: Vec<u8, A>,
    pub(crate) offset: u64,
    pub(crate) fault: Option<FeedFault>,
}

/// At most so many octets of the front.
pub(crate) fn front(octets: &[u8], most: usize) -> &[u8]
    ensures { result.now ≡ take most octets.now }
{
    if octets.len() > most {
        &octets[..most]
    } else {
        octets
    }
}

/// The fault that stands where no element is read at the front for this reason, if one does.
pub(crate) fn fault_of(why: BerFault, rest: &[u8]) -> Option<FeedFault>
    ensures { result ≡ rest_fault why rest.now }
{
    match why {
        BerFault::Short if rest.len() > MAX_LENGTH => Some(FeedFault::TooLong),
        BerFault::Short => None,
        BerFault::BadTag
        | BerFault::BadLength
        | BerFault::IndefinitePrimitive
        | BerFault::TooDeep => Some(FeedFault::Ber(why)),
    }
}

/// The element that the first message is, or why there is none.
#[inline(always)]
pub(crate) fn first_element(octets: &[u8]) -> Result<Element<'_>, BerFault>
    ensures { MatchResult result
        (λ e. (0 < length e.whole.now) × (length e.whole.now ≤ length octets.now)
        × (length e.whole.now ≤ message_limit) × IsElement depth_limit (parts e)
        × (cut_of octets.now ≡ with_message e.whole.now (cut_of (drop (length e.whole.now) octets.now))))
        (λ why. cut_of octets.now ≡ cut_into [] octets.now (rest_fault why octets.now)) }
{
    match read_element(front(octets, MAX_LENGTH)) {
        Ok((element, _)) => Ok(element),
        Err(why) => Err(why),
    }
}

/// Adds the line of each message that begins the octets, of which the first has this offset.
pub(crate) fn add_messages<'a, A: Allocator + Copy>(
    form: Form<'_>,
    text: &mut String<A>,
    offset: u64,
    octets: &'a [u8],
) -> Result<Cut<'a>, OutOfMemory>
    requires { offset + length octets.now < 2 ^ 64 }
    ensures adds { IfOk result (λ cut. AddsMessages (form_view form.entry) octets.now offset cut.rest.now cut.offset
        cut.fault (string_bytes text.old) (string_bytes text.new) cut.good) }
    ensures within { IfOk result (λ cut. cut.offset + length cut.rest.now ≡ offset + length octets.now) }
{
    let mut good = true;
    let mut rest = octets;
    let mut place = offset;
    while !rest.is_empty() {
        let element = match first_element(rest) {
            Ok(element) => element,
            Err(why) => {
                return Ok(Cut {
                    rest,
                    offset: place,
                    fault: fault_of(why, rest),
                    good,
                });
            }
        };
        let message = element.whole;
        good &= add_message(form, text, Label::Offset(place), &judge(message))?;
        place += message.len() as u64;
        rest = &rest[message.len()..];
    }
    Ok(Cut {
        rest,
        offset: place,
        fault: None,
        good,
    })
}

/// How many of the octets behind the last message are judged, by the fault that stands there.
pub(crate) fn judged_by(fault: FeedFault) -> usize
    ensures { result ≡ judged_by fault }
{
    match fault {
        FeedFault::TooLong => MAX_LENGTH + 1,
        FeedFault::OutOfMemory | FeedFault::Ber(_) => MAX_LENGTH,
    }
}

/// Adds the line that nothing is read behind octets at which no message is, by the offset of the first.
fn add_plain_unread<A: Allocator + Copy>(
    text: &mut String<A>,
    offset: u64,
) -> Result<(), OutOfMemory>
    ensures { OnOk result (string_bytes text.new ≡ string_bytes text.old ++ plain_unread_text offset) }
{
    add_decimal(text, offset)?;
    Ok(text.push_str(" stopped: nothing behind this fault is judged\n")?)
}

/// Adds what is printed where nothing is read behind such octets.
fn add_unread<A: Allocator + Copy>(
    layout: Layout,
    text: &mut String<A>,
    offset: u64,
) -> Result<(), OutOfMemory>
    ensures { OnOk result (string_bytes text.new ≡ string_bytes text.old ++ unread_text layout offset) }
{
    match layout {
        Layout::Json => add_unread_object(text, offset),
        Layout::Plain | Layout::Marked => add_plain_unread(text, offset),
    }
}

/// Adds the line of the octets behind the last message where a fault stands there, and the line that nothing behind
/// them is read. Tells whether all is good.
fn add_broken<A: Allocator + Copy>(
    form: Form<'_>,
    text: &mut String<A>,
    offset: u64,
    rest: &[u8],
    fault: Option<FeedFault>,
) -> Result<bool, OutOfMemory>
    ensures text { OnOk result (string_bytes text.new ≡ string_bytes text.old
        ++ entries_text (form_view form.entry) (broken_entries offset rest.now fault)) }
    ensures good { IfOk result (λ good. good ≡ are_good (broken_entries offset rest.now fault)) }
{
    match fault {
        Some(why) => {
            let judged = front(rest, judged_by(why));
            add_message(form, text, Label::Offset(offset), &judge(judged))?;
            add_unread(form.layout, text, offset)?;
            Ok(false)
        }
        None => Ok(true),
    }
}

/// Takes a piece of the stream: adds the line of each message that it makes whole, and of the octets behind them where
/// a fault stands there; keeps those octets. Tells whether all of these lines are good.
pub(crate) fn take_octets<A: Allocator + Copy>(
    alloc: A,
    form: Form<'_>,
    text: &mut String<A>,
    behind: &mut Behind<A>,
    piece: &[u8],
) -> Result<bool, OutOfMemory>
    requires { behind.old.offset + length behind.old.kept.items + length piece.now < 2 ^ 64 }
    ensures adds { IfOk result (λ good. AddsOctets (form_view form.entry) (behind.old.kept.items ++ piece.now)
        behind.old.offset behind.new.kept.items behind.new.offset behind.new.fault (string_bytes text.old)
        (string_bytes text.new) good) }
    ensures offset { OnOk result (behind.new.offset + length behind.new.kept.items
        ≡ behind.old.offset + length behind.old.kept.items + length piece.now) }
{
    behind.kept.extend_from_slice(piece)?;
    let cut = add_messages(form, text, behind.offset, behind.kept.as_slice())?;
    let good = add_broken(form, text, cut.offset, cut.rest, cut.fault)?;
    let mut kept = Vec::new(alloc);
    kept.extend_from_slice(cut.rest)?;
    let (offset, fault, all_good) = (cut.offset, cut.fault, cut.good & good);
    behind.kept = kept;
    behind.offset = offset;
    behind.fault = fault;
    Ok(all_good)
}

//! A stream that goes on behind its faults.

ghost use Rattle.std.specs.Prelude.{◌≡◌, ◌<◌, ◌≤◌, ◌+◌, ◌*◌, ◌^◌, Bool, Some, [], length, nat_lt, true, false, if◌then◌else◌, IfOk, string_bytes};
ghost use Rattle.ber_core.specs.Stream.{cut_into, cut_of};
ghost use Rattle.tcap_judging.specs.Resync.{first_of, is_known, judged_of};
ghost use Rattle.tcap_judging.specs.ResyncSteps.{AddsSteps, left_at, offset_at};
ghost use Rattle.tcap_judging.specs.NameViews.{form_view};
ghost use Rattle.tcap_words.specs.Verdict.{message_limit};

use crate::by_element::judge_element;
use crate::form::Form;
use crate::judged::Judged;
use crate::judging::judged_so;
use crate::label::Label;
use crate::message_text::add_message;
use crate::passed_text::add_passed;
use crate::place::Place;
use crate::search::pass_over;
use crate::stream_cut::{fault_of, first_element, front, judged_by};
use ber_core::{FeedFault, MAX_LENGTH, OutOfMemory};
use std::alloc::Allocator;
use tcap_words::Verdict;

/// Where a run stands after a step, the octets from there on, whether all that was told is good, and whether no more
/// can be told.
#[derive(Clone, Copy)]
pub(crate) struct Stepped<'a> {
    pub(crate) place: Place,
    pub(crate) rest: &'a [u8],
    pub(crate) good: bool,
    pub(crate) is_over: bool,
}

/// Whether the octets behind the last message are told.
fn is_known(ends: bool, rest: &[u8], fault: Option<FeedFault>) -> bool
    ensures { result ≡ is_known ends rest.now fault }
{
    if ends {
        return !rest.is_empty();
    }
    fault.is_some() && rest.len() > MAX_LENGTH
}

/// Those of the octets behind the last message that are judged.
fn judged_of(rest: &[u8], fault: Option<FeedFault>) -> &[u8]
    ensures { result.now ≡ judged_of rest.now fault }
{
    match fault {
        Some(why) => front(rest, judged_by(why)),
        None => rest,
    }
}

/// Tells the first message of the octets, which has this offset.
fn add_first<'a, A: Allocator + Copy>(
    form: Form<'_>,
    text: &mut String<A>,
    offset: u64,
    judged: Judged<'_>,
    octets: &'a [u8],
) -> Result<Stepped<'a>, OutOfMemory>
    requires room { offset + length octets.now < 2 ^ 64 }
    requires sizes { (0 < length judged.octets.now) × (length judged.octets.now ≤ length octets.now) }
    requires is_first { first_of (cut_of octets.now).messages ≡ Some judged.octets.now }
    ensures adds { (ends : Bool) → IfOk result (λ s. AddsSteps (form_view form.entry) ends (Place.Reading offset)
        octets.now s.place s.rest.now s.is_over (string_bytes text.old) (string_bytes text.new) s.good) }
    ensures within { IfOk result (λ s. offset_at s.place + length s.rest.now ≡ offset + length octets.now) }
    ensures less { IfOk result (λ s. s.is_over ≡ false
        → left_at s.place (length s.rest.now) < 2 * length octets.now) }
{
    let message = judged.octets;
    let good = add_message(form, text, Label::Offset(offset), &judged)?;
    if good {
        return Ok(Stepped {
            place: Place::Reading(offset + message.len() as u64),
            rest: &octets[message.len()..],
            good: true,
            is_over: false,
        });
    }
    Ok(Stepped {
        place: Place::Within(offset, 1, message.len() - 1),
        rest: &octets[1..],
        good: false,
        is_over: false,
    })
}

/// The verdict on octets that begin with no message.
fn unread_verdict(octets: &[u8]) -> Verdict
    ensures { result
        ≡ (if nat_lt message_limit (length octets.now) then Verdict.TooLong else Verdict.BadlyFormatted) }
{
    if octets.len() > MAX_LENGTH {
        Verdict::TooLong
    } else {
        Verdict::BadlyFormatted
    }
}

/// Where more is known of octets at which no message begins, tells that.
fn add_none<'a, A: Allocator + Copy>(
    form: Form<'_>,
    text: &mut String<A>,
    ends: bool,
    offset: u64,
    octets: &'a [u8],
    fault: Option<FeedFault>,
) -> Result<Stepped<'a>, OutOfMemory>
    requires { cut_of octets.now ≡ cut_into [] octets.now fault }
    ensures adds { IfOk result (λ s. AddsSteps (form_view form.entry) ends (Place.Reading offset) octets.now s.place
        s.rest.now s.is_over (string_bytes text.old) (string_bytes text.new) s.good) }
    ensures within { IfOk result (λ s. offset_at s.place + length s.rest.now ≡ offset + length octets.now) }
    ensures less { IfOk result (λ s. s.is_over ≡ false
        → left_at s.place (length s.rest.now) < 2 * length octets.now) }
{
    if !is_known(ends, octets, fault) {
        return Ok(Stepped {
            place: Place::Reading(offset),
            rest: octets,
            good: true,
            is_over: true,
        });
    }
    let told = judged_of(octets, fault);
    let judged = judged_so(told, unread_verdict(told));
    let good = add_message(form, text, Label::Offset(offset), &judged)?;
    Ok(Stepped {
        place: Place::Searching(offset, 1),
        rest: &octets[1..],
        good,
        is_over: false,
    })
}

/// Tells the message that begins the octets, or where none does, what is known of them.
fn read_on<'a, A: Allocator + Copy>(
    form: Form<'_>,
    text: &mut String<A>,
    ends: bool,
    offset: u64,
    octets: &'a [u8],
) -> Result<Stepped<'a>, OutOfMemory>
    requires { offset + length octets.now < 2 ^ 64 }
    ensures adds { IfOk result (λ s. AddsSteps (form_view form.entry) ends (Place.Reading offset) octets.now s.place
        s.rest.now s.is_over (string_bytes text.old) (string_bytes text.new) s.good) }
    ensures within { IfOk result (λ s. offset_at s.place + length s.rest.now ≡ offset + length octets.now) }
    ensures less { IfOk result (λ s. s.is_over ≡ false
        → left_at s.place (length s.rest.now) < 2 * length octets.now) }
{
    match first_element(octets) {
        Ok(element) => add_first(form, text, offset, judge_element(&element), octets),
        Err(why) => add_none(form, text, ends, offset, octets, fault_of(why, octets)),
    }
}

/// Searches for the next good message, and where the search is over tells how many octets are passed over.
fn search_on<'a, A: Allocator + Copy>(
    form: Form<'_>,
    text: &mut String<A>,
    ends: bool,
    first: u64,
    count: u64,
    octets: &'a [u8],
) -> Result<Stepped<'a>, OutOfMemory>
    requires { first + count + length octets.now < 2 ^ 64 }
    ensures adds { IfOk result (λ s. AddsSteps (form_view form.entry) ends (Place.Searching first count) octets.now
        s.place s.rest.now s.is_over (string_bytes text.old) (string_bytes text.new) s.good) }
    ensures within { IfOk result (λ s. offset_at s.place + length s.rest.now ≡ first + count + length octets.now) }
    ensures less { IfOk result (λ s. s.is_over ≡ false → left_at s.place (length s.rest.now) < 1 + 2 * length
        octets.now) }
{
    let passed = pass_over(ends, octets, octets.len() + 1);
    let count = count + passed.count as u64;
    let rest = &octets[passed.count..];
    if !passed.is_found {
        return Ok(Stepped {
            place: Place::Searching(first, count),
            rest,
            good: true,
            is_over: true,
        });
    }
    add_passed(form.layout, text, first, count)?;
    Ok(Stepped {
        place: Place::Reading(first + count),
        rest,
        good: false,
        is_over: false,
    })
}

/// Searches for a good message that begins within a faulty one, of which so many octets are left, and where one does,
/// tells how many octets are passed over.
fn search_within<'a, A: Allocator + Copy>(
    form: Form<'_>,
    text: &mut String<A>,
    ends: bool,
    first: u64,
    count: u64,
    left: usize,
    octets: &'a [u8],
) -> Result<Stepped<'a>, OutOfMemory>
    requires { first + count + length octets.now < 2 ^ 64 }
    ensures adds { IfOk result (λ s. AddsSteps (form_view form.entry) ends (Place.Within first count left) octets.now
        s.place s.rest.now s.is_over (string_bytes text.old) (string_bytes text.new) s.good) }
    ensures within { IfOk result (λ s. offset_at s.place + length s.rest.now ≡ first + count + length octets.now) }
    ensures less { IfOk result (λ s. s.is_over ≡ false → left_at s.place (length s.rest.now) < 1 + 2 * length
        octets.now) }
{
    let passed = pass_over(ends, octets, left);
    let count = count + passed.count as u64;
    let rest = &octets[passed.count..];
    let at = Stepped {
        place: Place::Reading(first + count),
        rest,
        good: true,
        is_over: false,
    };
    if passed.count == left {
        return Ok(at);
    }
    if !passed.is_found {
        return Ok(Stepped {
            place: Place::Within(first, count, left - passed.count),
            is_over: true,
            ..at
        });
    }
    add_passed(form.layout, text, first, count)?;
    Ok(Stepped { good: false, ..at })
}

/// The next step from a place.
fn next_step<'a, A: Allocator + Copy>(
    form: Form<'_>,
    text: &mut String<A>,
    ends: bool,
    place: Place,
    octets: &'a [u8],
) -> Result<Stepped<'a>, OutOfMemory>
    requires { offset_at place + length octets.now < 2 ^ 64 }
    ensures adds { IfOk result (λ s. AddsSteps (form_view form.entry) ends place octets.now s.place
        s.rest.now s.is_over (string_bytes text.old) (string_bytes text.new) s.good) }
    ensures within { IfOk result (λ s. offset_at s.place + length s.rest.now ≡ offset_at place + length octets.now) }
    ensures less { IfOk result (λ s. s.is_over ≡ false → left_at s.place (length s.rest.now) < left_at place
        (length octets.now)) }
{
    match place {
        Place::Reading(offset) => read_on(form, text, ends, offset, octets),
        Place::Searching(first, count) => search_on(form, text, ends, first, count, octets),
        Place::Within(first, count, left) => search_within(
            form, text, ends, first, count, left, octets,
        ),
    }
}

/// Adds all that is told from a place, as far as it is known.
pub(crate) fn advance<'a, A: Allocator + Copy>(
    form: Form<'_>,
    text: &mut String<A>,
    ends: bool,
    place: Place,
    octets: &'a [u8],
) -> Result<Stepped<'a>, OutOfMemory>
    requires { offset_at place + length octets.now < 2 ^ 64 }
    ensures adds { IfOk result (λ s. AddsSteps (form_view form.entry) ends place octets.now s.place s.rest.now true
        (string_bytes text.old) (string_bytes text.new) s.good) }
    ensures within { IfOk result (λ s. offset_at s.place + length s.rest.now ≡ offset_at place + length octets.now) }
{
    let mut place = place;
    let mut rest = octets;
    let mut good = true;
    loop {
        let next = next_step(form, text, ends, place, rest)?;
        good &= next.good;
        if next.is_over {
            return Ok(Stepped { good, ..next });
        }
        place = next.place;
        rest = next.rest;
    }
}

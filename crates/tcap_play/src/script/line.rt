//! What a line asks for.

ghost use Rattle.std.specs.Prelude.{◌≡◌, ℕ, List, false, bytes_eq, codes, option_map};
ghost use Rattle.tcap_primitives.specs.RequestViews.{request_view};
ghost use Rattle.tcap_engine.specs.EventViews.{event_view};
ghost use Rattle.tcap_play.specs.LineViews.{line_view, text_of};
ghost use Rattle.tcap_play.specs.ScriptLine.{called_on, asked_on, received_from, received_on, line_of_two, line_of_three, line_of_four, line_of_five, line_of_six, line_of_nine};
ghost use Rattle.tcap_play.specs.ScriptWords.{named_address};

use crate::script::requests::{
    abort_request, begin_request, cancel_request, error_request, last_request, more_request,
    portion_request_on, reject_request,
};
use crate::script::values::{Name, dialogue, is, message_name, milliseconds, octets, side};
use crate::script::word::Word;
use crate::side::{Addresses, Side};
use std::alloc::Allocator;
use tcap_dialogue::{EndRequest, Ending, Request};
use tcap_engine::{Address, Event};

/// What a line asks for.
#[derive(Clone, Copy)]
pub(crate) enum Line<'w> {
    /// A call on one engine.
    Call(Side, Event<'w>),
    /// That a message is received on the other side.
    Deliver(Name),
    /// That it is received again.
    Again(Name),
    /// That it is never received.
    Lose(Name),
    /// That both clocks are at this moment, in milliseconds.
    Advance(u64),
}

/// A call on the engine of a letter.
fn called_on<'w>(side_word: &[u8], event: Event<'w>) -> Option<Line<'w>>
    ensures { option_map line_view result ≡ called_on side_word.now (event_view event.entry) }
{
    Some(Line::Call(side(side_word)?, event))
}

/// Octets that the engine of a letter receives, from the other engine's address.
fn received_on<'w>(addresses: &'w Addresses, side_word: &[u8], octets: &'w [u8]) -> Option<Line<'w>>
    ensures { option_map line_view result ≡ received_on side_word.now octets.entry.now }
{
    let side = side(side_word)?;
    Some(Line::Call(side, Event::Bytes(addresses.beyond(side), octets)))
}

/// Octets that the engine of a letter receives from the address of a word that names one.
fn received_from<'w, A: Allocator>(
    side_word: &[u8],
    from: &'w Option<Address>,
    word: &'w Word<'_, A>,
) -> Option<Line<'w>>
    ensures { (named : List ℕ) → from.entry.now ≡ named_address named → option_map line_view result
        ≡ received_from side_word.now named (text_of word.entry.now) }
{
    match from {
        Some(from) => called_on(side_word, Event::Bytes(from, octets(word)?)),
        None => None,
    }
}

/// A request on a dialogue of the engine of a letter.
// Most callers know its kind, and the match on it folds away: 10 to 35 instructions a line.
#[inline(always)]
fn asked_on<'w>(side_word: &[u8], dialogue_word: &[u8], request: Request<'w>) -> Option<Line<'w>>
    ensures { option_map line_view result ≡ asked_on side_word.now dialogue_word.now (request_view request.entry) }
{
    let side = side(side_word)?;
    let dialogue = dialogue(dialogue_word)?;
    Some(Line::Call(side, Event::of(dialogue, request)))
}

/// `S new`, `deliver M`, `again M`, `lose M`, `advance MS`.
pub(crate) fn line_of_two<'w>(first: &[u8], second: &[u8]) -> Option<Line<'w>>
    ensures { option_map line_view result ≡ line_of_two first.now second.now }
{
    if is(first, "deliver") {
        Some(Line::Deliver(message_name(second)?))
    } else if is(first, "again") {
        Some(Line::Again(message_name(second)?))
    } else if is(first, "lose") {
        Some(Line::Lose(message_name(second)?))
    } else if is(first, "advance") {
        Some(Line::Advance(milliseconds(second)?))
    } else if is(second, "new") {
        called_on(first, Event::NewDialogue)
    } else {
        None
    }
}

/// `S raw HEX`, `S prearranged D`.
pub(crate) fn line_of_three<'w, A: Allocator>(
    addresses: &'w Addresses,
    side: &[u8],
    name: &[u8],
    word: &'w Word<'_, A>,
) -> Option<Line<'w>>
    ensures { option_map line_view result ≡ line_of_three side.now name.now (text_of word.entry.now) }
{
    if is(name, "raw") {
        received_on(addresses, side, octets(word)?)
    } else if is(name, "prearranged") {
        let end = EndRequest {
            ending: Ending::Prearranged,
            context: None,
            info: &[],
        };
        asked_on(side, word.text, Request::End(end))
    } else {
        None
    }
}

/// `S cancel D ID`, `S rawfrom ADDR HEX`, whose third word may name this address.
pub(crate) fn line_of_four<'w, A: Allocator>(
    side: &[u8],
    name: &[u8],
    third: &[u8],
    from: &'w Option<Address>,
    last: &'w Word<'_, A>,
) -> Option<Line<'w>>
    requires { from.now ≡ named_address third.now }
    ensures { option_map line_view result
        ≡ line_of_four side.now name.now third.now (text_of last.entry.now) }
{
    if is(name, "cancel") {
        asked_on(side, third, cancel_request(last.text)?)
    } else if is(name, "rawfrom") {
        received_from(side, from, last)
    } else {
        None
    }
}

/// `S begin D CONTEXT INFO`, and `uni`, `continue`, `end`; `S abort D user INFO`,
/// `S abort D unsupported INFO`.
pub(crate) fn line_of_five<'w, A: Allocator>(
    addresses: &'w Addresses,
    side: &[u8],
    name: &[u8],
    dialogue: &[u8],
    word: &'w Word<'_, A>,
    information: &'w Word<'_, A>,
) -> Option<Line<'w>>
    ensures { option_map line_view result
        ≡ line_of_five side.now name.now dialogue.now (text_of word.entry.now) (text_of information.entry.now) }
{
    let request = if is(name, "abort") {
        abort_request(word.text, information)?
    } else {
        portion_request_on(addresses, side, name, word, information)?
    };
    asked_on(side, dialogue, request)
}

/// `S last D ID CODE PARAM`, `S more D ID CODE PARAM`, `S error D ID CODE PARAM`,
/// `S reject D ID KIND CODE`. Of these words only the last may stand for octets.
pub(crate) fn line_of_six<'w, A: Allocator>(
    side: &[u8],
    name: &[u8],
    dialogue: &[u8],
    id: &[u8],
    word: &[u8],
    last: &'w Word<'_, A>,
) -> Option<Line<'w>>
    requires { bytes_eq name.now (codes "beginto") ≡ false }
    ensures { option_map line_view result
        ≡ line_of_six side.now name.now dialogue.now id.now word.now (text_of last.entry.now) }
{
    let request = if is(name, "last") {
        last_request(id, word, last)?
    } else if is(name, "more") {
        more_request(id, word, last)?
    } else if is(name, "error") {
        error_request(id, word, last)?
    } else if is(name, "reject") {
        reject_request(id, word, last.text)?
    } else {
        return None;
    };
    asked_on(side, dialogue, request)
}

/// `S beginto D ADDR CONTEXT INFO`, whose fourth word may name this address.
pub(crate) fn line_of_beginto<'w, A: Allocator>(
    side: &[u8],
    dialogue: &[u8],
    to: &'w Option<Address>,
    context: &'w Word<'_, A>,
    information: &'w Word<'_, A>,
) -> Option<Line<'w>>
    ensures { (word : List ℕ) → to.entry.now ≡ named_address word → option_map line_view result
        ≡ line_of_six side.now (codes "beginto") dialogue.now word (text_of context.entry.now) (text_of information.entry.now) }
{
    asked_on(side, dialogue, begin_request(to, context, information)?)
}

/// `S invoke D ID CLASS CODE TIMEOUT LINKED PARAM`, whose last six words ask for this request.
pub(crate) fn line_of_nine<'w>(
    side: &[u8],
    name: &[u8],
    dialogue: &[u8],
    request: Option<Request<'w>>,
) -> Option<Line<'w>>
    ensures { option_map line_view result
        ≡ line_of_nine side.now name.now dialogue.now (option_map request_view request.entry) }
{
    if is(name, "invoke") {
        asked_on(side, dialogue, request?)
    } else {
        None
    }
}

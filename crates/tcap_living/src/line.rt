//! What a line asks for.

ghost use Rattle.std.specs.Prelude.{◌≡◌, ℕ, List, option_map};
ghost use Rattle.tcap_primitives.specs.RequestViews.{request_view};
ghost use Rattle.tcap_play.specs.LineViews.{text_of};
ghost use Rattle.tcap_play.specs.ScriptWords.{named_address};
ghost use Rattle.tcap_living.specs.LineViews.{line_view};
ghost use Rattle.tcap_living.specs.LiveLine.{asked_on, line_of_one, line_of_two, line_of_three, line_of_four, line_of_five, line_of_eight, received_from};

use crate::context::Context;
use crate::requests::{answering_request, opening_request};
use std::alloc::Allocator;
use tcap_dialogue::{EndRequest, Ending, Request};
use tcap_engine::{Address, Event};
use tcap_play::script::requests::{
    abort_request, cancel_request, error_request, last_request, more_request, reject_request,
};
use tcap_play::script::values::{dialogue, is, milliseconds, octets};
use tcap_play::script::word::Word;

/// What a line asks for.
#[derive(Clone, Copy)]
pub(crate) enum Line<'w> {
    /// That an event comes to the engine.
    Call(Event<'w>),
    /// When the next timer is due.
    Timer,
    /// The state of the dialogue with this identifier.
    State(u32),
}

/// A request on a dialogue.
fn asked_on<'w>(dialogue_word: &[u8], request: Request<'w>) -> Option<Line<'w>>
    ensures { option_map line_view result ≡ asked_on dialogue_word.now (request_view request.entry) }
{
    let dialogue = dialogue(dialogue_word)?;
    Some(Line::Call(Event::of(dialogue, request)))
}

/// Octets that are received from the address of a word, which names this one.
fn received_from<'w, A: Allocator>(
    from: &'w Option<Address>,
    word: &'w Word<'_, A>,
) -> Option<Line<'w>>
    ensures { (named : List ℕ) → from.entry.now ≡ named_address named → option_map line_view result
        ≡ received_from named (text_of word.entry.now) }
{
    match from {
        Some(from) => Some(Line::Call(Event::Bytes(from, octets(word)?))),
        None => None,
    }
}

/// `new`, `timer`.
pub(crate) fn line_of_one<'w>(name: &[u8]) -> Option<Line<'w>>
    ensures { option_map line_view result ≡ line_of_one name.now }
{
    if is(name, "new") {
        Some(Line::Call(Event::NewDialogue))
    } else if is(name, "timer") {
        Some(Line::Timer)
    } else {
        None
    }
}

/// `advance MS`, `state D`, `prearranged D`.
pub(crate) fn line_of_two<'w>(name: &[u8], word: &[u8]) -> Option<Line<'w>>
    ensures { option_map line_view result ≡ line_of_two name.now word.now }
{
    if is(name, "advance") {
        Some(Line::Call(Event::Moment(milliseconds(word)?)))
    } else if is(name, "state") {
        Some(Line::State(dialogue(word)?))
    } else if is(name, "prearranged") {
        let end = EndRequest {
            ending: Ending::Prearranged,
            context: None,
            info: &[],
        };
        asked_on(word, Request::End(end))
    } else {
        None
    }
}

/// `cancel D ID`, `receive ADDR HEX`, whose second word may name this address.
pub(crate) fn line_of_three<'w, A: Allocator>(
    name: &[u8],
    word: &[u8],
    from: &'w Option<Address>,
    last: &'w Word<'_, A>,
) -> Option<Line<'w>>
    requires { from.now ≡ named_address word.now }
    ensures { option_map line_view result ≡ line_of_three name.now word.now (text_of last.entry.now) }
{
    if is(name, "cancel") {
        asked_on(word, cancel_request(last.text)?)
    } else if is(name, "receive") {
        received_from(from, last)
    } else {
        None
    }
}

/// `abort D user INFO`, `abort D unsupported INFO`, `continue D CONTEXT INFO`, `end D CONTEXT INFO`.
pub(crate) fn line_of_four<'w, A: Allocator>(
    name: &[u8],
    dialogue: &[u8],
    third: &'w Context<'_, A>,
    information: &'w Word<'_, A>,
) -> Option<Line<'w>>
    ensures { option_map line_view result
        ≡ line_of_four name.now dialogue.now (text_of third.entry.now.word) (text_of information.entry.now) }
{
    let request = if is(name, "abort") {
        abort_request(third.word.text, information)?
    } else {
        answering_request(name, third, information)?
    };
    asked_on(dialogue, request)
}

/// `last D ID CODE PARAM`, `more D ID CODE PARAM`, `error D ID CODE PARAM`, `reject D ID KIND CODE`,
/// `begin D ADDR CONTEXT INFO`, `uni D ADDR CONTEXT INFO`. The third word may name this address.
pub(crate) fn line_of_five<'w, A: Allocator>(
    name: &[u8],
    dialogue: &[u8],
    third: &[u8],
    to: &'w Option<Address>,
    fourth: &'w Context<'_, A>,
    last: &'w Word<'_, A>,
) -> Option<Line<'w>>
    requires { to.now ≡ named_address third.now }
    ensures { option_map line_view result
        ≡ line_of_five name.now dialogue.now third.now (text_of fourth.entry.now.word) (text_of last.entry.now) }
{
    let request = if is(name, "last") {
        last_request(third, fourth.word.text, last)?
    } else if is(name, "more") {
        more_request(third, fourth.word.text, last)?
    } else if is(name, "error") {
        error_request(third, fourth.word.text, last)?
    } else if is(name, "reject") {
        reject_request(third, fourth.word.text, last.text)?
    } else {
        opening_request(name, to, fourth, last)?
    };
    asked_on(dialogue, request)
}

/// `invoke D ID CLASS CODE TIMEOUT LINKED PARAM`, whose last six words ask for this request.
pub(crate) fn line_of_eight<'w>(
    name: &[u8],
    dialogue: &[u8],
    request: Option<Request<'w>>,
) -> Option<Line<'w>>
    ensures { option_map line_view result
        ≡ line_of_eight name.now dialogue.now (option_map request_view request.entry) }
{
    if is(name, "invoke") {
        asked_on(dialogue, request?)
    } else {
        None
    }
}

//! The words of an example's lines, and the events that they stand for.

use std::alloc::Global;
use std::str::FromStr;
use tcap_component::{Body, Code, Kind, Problem};
use tcap_engine::{
    AbortRequest, AbortWhy, Address, BeginRequest, CancelRequest, ContinueRequest, EndRequest,
    Ending, ErrorRequest, Event, InvokeRequest, RejectRequest, Request, ResultRequest, UniRequest,
};
use tcap_invocation::Class;

/// A word, and the octets that it spells in hexadecimal, behind an `x` or not; `+N` at its end spells N
/// octets of 0 more. Up to 255 of them are an address, none too.
#[derive(Drop)]
pub(super) struct Word<'e> {
    pub(super) text: &'e str,
    pub(super) octets: Vec<u8>,
    address: Option<Address>,
}

/// The octets of hexadecimal; none where it is no hexadecimal.
fn decoded(alloc: Global, hex: &str) -> Vec<u8> {
    match hex::decode(alloc, hex) {
        Ok(octets) => octets,
        Err(_) => Vec::new(alloc),
    }
}

/// Adds so many octets of 0.
fn add_zeros(octets: &mut Vec<u8>, count: usize) -> Option<()> {
    octets.resize(octets.len().saturating_add(count), 0).ok()
}

/// The octets that a word spells; none where it is no hexadecimal.
fn octets_of(alloc: Global, text: &str) -> Option<Vec<u8>> {
    let text = text.strip_prefix('x').unwrap_or(text);
    let (hex, zeros) = text.split_once('+').unwrap_or((text, "0"));
    let count = zeros.parse::<usize>().ok()?;
    let mut octets = decoded(alloc, hex);
    add_zeros(&mut octets, count)?;
    Some(octets)
}

/// A word, with what it spells.
fn word_of<'e>(alloc: Global, text: &'e str) -> Option<Word<'e>> {
    let octets = octets_of(alloc, text)?;
    let address = Address::new(octets.as_slice());
    Some(Word {
        text,
        octets,
        address,
    })
}

/// Adds the words of a line.
fn add_words<'e>(alloc: Global, words: &mut Vec<Word<'e>>, line: &'e str) -> Option<()> {
    for text in line.split(' ') {
        words.push(word_of(alloc, text)?).ok()?;
    }
    Some(())
}

/// The words of a line.
pub(super) fn words_of<'e>(alloc: Global, line: &'e str) -> Option<Vec<Word<'e>>> {
    let mut words = Vec::new(alloc);
    add_words(alloc, &mut words, line)?;
    Some(words)
}

/// A word by its place; one that is left out is `-`.
pub(super) fn text<'w>(words: &'w [Word<'_>], place: usize) -> &'w str {
    match words.get(place) {
        Some(word) => word.text,
        None => "-",
    }
}

/// The number that a word spells.
pub(super) fn number<T: FromStr>(words: &[Word<'_>], place: usize) -> Option<T>
where
    <T as FromStr>::Err: Drop,
{
    text(words, place).parse().ok()
}

/// The octets of a word that is there and isn't `-`.
pub(super) fn octets<'w>(words: &'w [Word<'_>], place: usize) -> Option<&'w [u8]> {
    let word = words.get(place)?;
    if word.text == "-" {
        return None;
    }
    Some(word.octets.as_slice())
}

/// The octets of a word, none where it isn't there.
pub(super) fn info<'w>(words: &'w [Word<'_>], place: usize) -> &'w [u8] {
    octets(words, place).unwrap_or(&[])
}

/// The address that a word spells.
fn address<'w>(words: &'w [Word<'_>], place: usize) -> Option<&'w Address> {
    words.get(place)?.address.as_ref()
}

/// A code: a decimal number is a local one, hexadecimal behind an `x` a global one.
pub(super) fn code<'w>(words: &'w [Word<'_>], place: usize) -> Option<Code<'w>> {
    let word = words.get(place)?;
    if word.text.starts_with('x') {
        return Some(Code::Global(word.octets.as_slice()));
    }
    Some(Code::Local(word.text.parse().ok()?))
}

/// An operation class.
pub(super) fn class(word: &str) -> Option<Class> {
    match word {
        "1" => Some(Class::One),
        "2" => Some(Class::Two),
        "3" => Some(Class::Three),
        "4" => Some(Class::Four),
        _ => None,
    }
}

/// The kind of a problem.
pub(super) fn kind(word: &str) -> Option<Kind> {
    match word {
        "general" => Some(Kind::General),
        "invoke" => Some(Kind::Invoke),
        "result" => Some(Kind::Result),
        "error" => Some(Kind::Error),
        _ => None,
    }
}

/// `invoke D ID CLASS CODE TIMEOUT LINKED PARAM`.
fn invoke_of<'w>(words: &'w [Word<'_>]) -> Option<Request<'w>> {
    Some(Request::Invoke(InvokeRequest {
        id: number(words, 2)?,
        class: class(text(words, 3))?,
        code: code(words, 4)?,
        timeout_ms: number(words, 5)?,
        linked: number(words, 6),
        parameter: octets(words, 7),
    }))
}

/// `last D ID CODE PARAM`, `more`, `error`, `reject D ID KIND CODE`, `cancel D ID`.
fn component_of<'w>(words: &'w [Word<'_>]) -> Option<Request<'w>> {
    let id = number(words, 2)?;
    let parameter = octets(words, 4);
    let code = code(words, 3);
    match text(words, 0) {
        "last" => {
            let body = code.map(|code| Body { code, parameter });
            Some(Request::ResultLast(ResultRequest { id, body }))
        }
        "more" => {
            let body = code.map(|code| Body { code, parameter });
            Some(Request::ResultMore(ResultRequest { id, body }))
        }
        "error" => Some(Request::ErrorBack(ErrorRequest {
            id,
            code: code?,
            parameter,
        })),
        "reject" => Some(Request::Reject(RejectRequest {
            id: Some(id),
            problem: Problem::new(kind(text(words, 3))?, number(words, 4)?)?,
        })),
        "cancel" => Some(Request::Cancel(CancelRequest { id })),
        _ => None,
    }
}

/// `unito D ADDR CONTEXT INFO`, `beginto`.
fn addressed_of<'w>(words: &'w [Word<'_>]) -> Option<Request<'w>> {
    let to = address(words, 2)?;
    let context = octets(words, 3);
    let info = info(words, 4);
    match text(words, 0) {
        "unito" => Some(Request::Uni(UniRequest { to, context, info })),
        "beginto" => Some(Request::Begin(BeginRequest { to, context, info })),
        _ => None,
    }
}

/// `uni D CONTEXT INFO`, `begin`, `continue`, `end`, `prearranged`.
fn portion_of<'w>(words: &'w [Word<'_>], to: &'w Address) -> Option<Request<'w>> {
    let context = octets(words, 2);
    let info = info(words, 3);
    match text(words, 0) {
        "uni" => Some(Request::Uni(UniRequest { to, context, info })),
        "begin" => Some(Request::Begin(BeginRequest { to, context, info })),
        "continue" => Some(Request::Continue(ContinueRequest { context, info })),
        "end" => Some(Request::End(EndRequest {
            ending: Ending::Basic,
            context,
            info,
        })),
        "prearranged" => Some(Request::End(EndRequest {
            ending: Ending::Prearranged,
            context,
            info,
        })),
        _ => None,
    }
}

/// `abort D user INFO`, `abort D unsupported INFO`.
fn abort_of<'w>(words: &'w [Word<'_>]) -> Option<Request<'w>> {
    let info = info(words, 3);
    match text(words, 2) {
        "user" => Some(Request::Abort(AbortRequest {
            why: AbortWhy::User,
            info,
        })),
        "unsupported" => Some(Request::Abort(AbortRequest {
            why: AbortWhy::NotSupported,
            info,
        })),
        _ => None,
    }
}

/// What a line asks of a dialogue.
fn request_of<'w>(words: &'w [Word<'_>], peer: &'w Address) -> Option<Request<'w>> {
    match text(words, 0) {
        "invoke" => invoke_of(words),
        "last" | "more" | "error" | "reject" | "cancel" => component_of(words),
        "abort" => abort_of(words),
        "unito" | "beginto" => addressed_of(words),
        _ => portion_of(words, peer),
    }
}

/// The address of this octet alone.
pub(super) fn address_of(octet: u8) -> Address {
    match Address::new(&[octet]) {
        Some(address) => address,
        None => unreachable!(),
    }
}

/// The address of the peer, where a line names no other: the octet 01.
pub(super) fn peer() -> Address {
    address_of(0x01)
}

/// The event that a line stands for.
pub(super) fn event_of<'w>(words: &'w [Word<'_>], peer: &'w Address) -> Option<Event<'w>> {
    match text(words, 0) {
        "new" => Some(Event::NewDialogue),
        "raw" => Some(Event::Bytes(peer, info(words, 1))),
        "rawfrom" => Some(Event::Bytes(address(words, 1)?, info(words, 2))),
        "advance" => Some(Event::Moment(number(words, 1)?)),
        _ => Some(Event::of(number(words, 1)?, request_of(words, peer)?)),
    }
}

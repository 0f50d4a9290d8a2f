//! Messages that were sent, and what became of them.

ghost use Rattle.std.specs.Prelude.{◌≡◌, ◌<◌, ◌+◌, ◌⊎◌, None, option_map, MatchOption};
ghost use Rattle.tcap_play.specs.Play.{has_fate, message_in};
ghost use Rattle.tcap_play.specs.PlayViews.{IsThere, SetsFate, fate_view, message_view, messages_view};

use std::alloc::{Allocator, Global};
use tcap_engine::Address;
use tcap_text::Fate;

/// A message that was sent, and where it goes.
#[derive(Drop)]
pub(crate) struct Message<A: Allocator = Global> {
    pub(crate) to: Address,
    pub(crate) octets: Vec<u8, A>,
    pub(crate) fate: Fate,
}

/// The place of the message with this number, from 1, among so many.
fn place_among(number: u64, count: usize) -> Option<usize>
    ensures { MatchOption result ((number ≡ 0) ⊎ (count < number))
        (λ place. (number ≡ place + 1) × (place < count)) }
{
    let place = usize::try_from(number.checked_sub(1)?).ok()?;
    if place < count { Some(place) } else { None }
}

/// Whether a message in this state is in that one, as a play sees both.
fn is_in(own: Fate, fate: Fate) -> bool
    ensures { result ≡ has_fate (fate_view fate) (fate_view own) }
{
    own.is(fate)
}

/// The place of the message with this number, from 1, if it is in this state.
fn place_of<A: Allocator>(sent: &[Message<A>], number: u64, fate: Fate) -> Option<usize>
    ensures { MatchOption result
        (message_in (fate_view fate) number (messages_view sent.now) ≡ None)
        (λ place. IsThere (fate_view fate) number sent.now place) }
{
    let place = place_among(number, sent.len())?;
    if is_in(sent[place].fate, fate) {
        Some(place)
    } else {
        None
    }
}

/// The message with this number, from 1, if it is in this state.
pub(crate) fn message_if<A: Allocator>(
    sent: &[Message<A>],
    number: u64,
    fate: Fate,
) -> Option<&Message<A>>
    ensures { option_map (λ m. message_view m.now) result
        ≡ message_in (fate_view fate) number (messages_view sent.now) }
{
    let place = place_of(sent, number, fate)?;
    Some(&sent[place])
}

/// The message with this number, from 1, if there is one, is in this state from now on.
pub(crate) fn set_fate<A: Allocator>(sent: &mut Vec<Message<A>, A>, number: u64, fate: Fate)
    ensures { SetsFate fate number sent.old.items sent.new.items }
{
    if let Some(place) = place_among(number, sent.len()) {
        sent[place].fate = fate;
    }
}

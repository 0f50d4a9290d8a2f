//! The sides of a play: of each an engine, and the messages that it sent; and what a line does to them.

ghost use Rattle.std.specs.Prelude.{◌≡◌, ◌++◌, OnOk, string_bytes, IfOk, ℕ, List};
ghost use Rattle.tcap_primitives.specs.OutputViews.{all_shown, shown};
ghost use Rattle.tcap_engine.specs.EventViews.{answer_view, event_view};
ghost use Rattle.tcap_play.specs.Play.{messages_in, messages_of, handed, Fate as Became, message_in, step};
ghost use Rattle.tcap_play.specs.PlayViews.{HandsAt, KeepsOutput, messages_view, StepsBy, ReceivesFrom, ActsBy, received_by, Loses, lost_by, advanced_to};
ghost use Rattle.tcap_play.specs.SideView.{side_view};
ghost use Rattle.tcap_play.specs.LineViews.{line_view};

use crate::message::{Message, message_if, set_fate};
use crate::output_text::add_answer;
use crate::script::line::Line;
use crate::script::values::Name;
use crate::side::{Addresses, Side};
use ber_core::OutOfMemory;
use std::alloc::{Allocator, Global};
use tcap_engine::{Answer, Engine, Event, Output};
use tcap_text::Fate;

/// One side: an engine, and the messages that it sent, in their order.
#[derive(Drop)]
pub(crate) struct Station<A: Allocator + Copy = Global> {
    pub(crate) engine: Engine<A>,
    pub(crate) sent: Vec<Message<A>, A>,
}

/// Keeps the message that an output sends, if it sends one.
fn keep_output<A: Allocator + Copy>(
    sent: &mut Vec<Message<A>, A>,
    output: Output<'_, A>,
) -> Result<(), OutOfMemory>
    ensures { OnOk result (KeepsOutput (shown output.entry) sent.old.items sent.new.items) }
{
    if let Output::Send { to, bytes } = output {
        sent.reserve(1)?;
        sent.push_reserved(Message {
            to,
            octets: bytes,
            fate: Fate::Waiting,
        });
    }
    Ok(())
}

/// Keeps the messages that outputs send.
fn keep_outputs<A: Allocator + Copy>(
    sent: &mut Vec<Message<A>, A>,
    outputs: Vec<Output<'_, A>, A>,
) -> Result<(), OutOfMemory>
    ensures { OnOk result (messages_view sent.new.items ≡ messages_view sent.old.items
        ++ messages_of (all_shown outputs.entry.items)) }
{
    for output in outputs {
        keep_output(sent, output)?;
    }
    Ok(())
}

/// Keeps the messages that an answer sends.
fn keep<A: Allocator + Copy>(
    sent: &mut Vec<Message<A>, A>,
    answer: Answer<'_, A>,
) -> Result<(), OutOfMemory>
    ensures { OnOk result (messages_view sent.new.items ≡ messages_view sent.old.items
        ++ messages_in (answer_view answer.entry)) }
{
    match answer {
        Answer::Outputs(outputs) => keep_outputs(sent, outputs),
        Answer::NewDialogue(_) | Answer::Number(_) | Answer::Done => Ok(()),
        Answer::GivenUp(_) | Answer::Refused(_) => Ok(()),
    }
}

/// Hands an event to the engine of a side: its answer is printed, and what it sends is kept.
pub(crate) fn hand<A: Allocator + Copy>(
    side: Side,
    station: &mut Station<A>,
    event: &Event<'_>,
    text: &mut String<A>,
) -> Result<(), OutOfMemory>
    ensures { OnOk result (HandsAt side (event_view event.now) station.old station.new
        (string_bytes text.old) (string_bytes text.new)) }
{
    let answer = station.engine.handle(event)?;
    add_answer(text, side, station.sent.len(), &answer)?;
    keep(&mut station.sent, answer)
}

/// Hands an event to the engine of a side.
fn call<A: Allocator + Copy>(
    side: Side,
    event: &Event<'_>,
    a: &mut Station<A>,
    b: &mut Station<A>,
    text: &mut String<A>,
) -> Result<(), OutOfMemory>
    ensures { OnOk result (StepsBy (handed (side_view side) (event_view event.now)) a.old b.old a.new b.new
        (string_bytes text.old) (string_bytes text.new)) }
{
    match side {
        Side::A => hand(side, a, event, text),
        Side::B => hand(side, b, event, text),
    }
}

/// Hands the message with this number, if it is in this state and goes to this other side, to the engine
/// there, and tells whether it did.
fn receive_from<A: Allocator + Copy>(
    addresses: &Addresses,
    from: &mut Station<A>,
    number: u64,
    fate: Fate,
    side: Side,
    to: &mut Station<A>,
    text: &mut String<A>,
) -> Result<bool, OutOfMemory>
    ensures done { IfOk result (λ done. ReceivesFrom side fate number done from.old from.new to.old to.new
        (string_bytes text.old) (string_bytes text.new)) }
    ensures engine { from.new.engine ≡ from.old.engine }
{
    let Some(message) = message_if(&from.sent, number, fate) else {
        return Ok(false);
    };
    if message.to.octets() != addresses.of(side).octets() {
        return Ok(false);
    }
    let event = Event::Bytes(addresses.beyond(side), &message.octets);
    hand(side, to, &event, text)?;
    set_fate(&mut from.sent, number, Fate::Delivered);
    Ok(true)
}

/// Hands the message of this name, if it is in this state and goes to the other side, to the engine there,
/// and tells whether it did.
fn receive<A: Allocator + Copy>(
    addresses: &Addresses,
    name: Name,
    fate: Fate,
    a: &mut Station<A>,
    b: &mut Station<A>,
    text: &mut String<A>,
) -> Result<bool, OutOfMemory>
    ensures { IfOk result (λ done. ActsBy (received_by name fate) done a.old b.old a.new b.new
        (string_bytes text.old) (string_bytes text.new)) }
{
    let number = name.number;
    match name.side {
        Side::A => receive_from(addresses, a, number, fate, Side::B, b, text),
        Side::B => receive_from(addresses, b, number, fate, Side::A, a, text),
    }
}

/// Loses the message with this number, if it waits, and tells whether it did.
fn lose_from<A: Allocator + Copy>(from: &mut Station<A>, number: u64) -> bool
    ensures lost { Loses (message_in Became.waiting number
        (messages_view from.old.sent.items)) number result from.old.sent.items from.new.sent.items }
    ensures engine { from.new.engine ≡ from.old.engine }
{
    if message_if(&from.sent, number, Fate::Waiting).is_none() {
        return false;
    }
    set_fate(&mut from.sent, number, Fate::Lost);
    true
}

/// Loses the message of this name, if it waits, and tells whether it did.
fn lose<A: Allocator + Copy>(name: Name, a: &mut Station<A>, b: &mut Station<A>) -> bool
    ensures { (text : List ℕ) → ActsBy (lost_by name) result a.old b.old a.new b.new text text }
{
    match name.side {
        Side::A => lose_from(a, name.number),
        Side::B => lose_from(b, name.number),
    }
}

/// Hands the moment to both engines, to A first.
fn advance<A: Allocator + Copy>(
    now: u64,
    a: &mut Station<A>,
    b: &mut Station<A>,
    text: &mut String<A>,
) -> Result<(), OutOfMemory>
    ensures { OnOk result (StepsBy (advanced_to now) a.old b.old a.new b.new
        (string_bytes text.old) (string_bytes text.new)) }
{
    call(Side::A, &Event::Moment(now), a, b, text)?;
    call(Side::B, &Event::Moment(now), a, b, text)
}

/// Does what a line asks for, and tells whether it could be done.
pub(crate) fn act<A: Allocator + Copy>(
    addresses: &Addresses,
    line: Line<'_>,
    a: &mut Station<A>,
    b: &mut Station<A>,
    text: &mut String<A>,
) -> Result<bool, OutOfMemory>
    ensures { IfOk result (λ done. ActsBy (λ p. step p (line_view line.entry)) done a.old b.old a.new b.new
        (string_bytes text.old) (string_bytes text.new)) }
{
    match line {
        Line::Call(side, event) => call(side, &event, a, b, text)?,
        Line::Deliver(name) => return receive(addresses, name, Fate::Waiting, a, b, text),
        Line::Again(name) => return receive(addresses, name, Fate::Delivered, a, b, text),
        Line::Lose(name) => return Ok(lose(name, a, b)),
        Line::Advance(now) => advance(now, a, b, text)?,
    }
    Ok(true)
}

//! Two engines that hear one another: an Invoke goes from one user to the other, and its result back. A
//! message goes to the engine at whose address its destination is.

ghost use Rattle.std.specs.Prelude.{◌≡◌, IfSome};
ghost use Rattle.tcap_engine.specs.EventViews.{answers_view, events_view};
ghost use Rattle.tcap_engine.specs.TwoEnds.{AreCarried};
ghost use Rattle.tcap_model.specs.Statements.Net.{Engine as Which, Places, Trace};
ghost use Rattle.tcap_callers.specs.TwoEngines.{ComesBack, GoesOn, Hears, IsSentTo, TellsResult};

use std::alloc::Allocator;
use tcap_component::Code;
use tcap_engine::{
    Address, Answer, BeginRequest, ContinueRequest, Engine, Event, InvokeRequest, Limits, Output,
    ResultRequest, laws, run,
};
use tcap_invocation::Class;

/// Hands events to one of the engines, and gives its answers: to all of them, or to those before the one
/// to which memory was refused.
fn answered<'m, A: Allocator + Copy>(
    alloc: A,
    engine: &mut Engine<A>,
    events: &[Event<'m>],
) -> Vec<Answer<'m, A>, A>
    ensures { GoesOn (events_view events.now) (answers_view result.items) engine.old engine.new }
{
    laws::several_engines();
    let mut answers = Vec::new(alloc);
    // An event to which memory was refused counts as not made.
    let _ = run(engine, events, &mut answers);
    answers
}

/// Octets that go to an address, if that is the receiver's.
fn octets_for<'a>(octets: &'a [u8], to: &Address, receiver: &Address) -> Option<&'a [u8]>
    ensures { IfSome result (λ sent. (to.now ≡ receiver.now) × (sent.now ≡ octets.now)) }
{
    if to.octets() == receiver.octets() {
        Some(octets)
    } else {
        None
    }
}

/// The octets that the last of some answers sends first, if they go to the receiver.
fn last_sent<'a, A: Allocator + Copy>(
    answers: &'a [Answer<'_, A>],
    receiver: &Address,
) -> Option<&'a [u8]>
    ensures { IfSome result (λ octets. IsSentTo receiver.now octets.now (answers_view answers.now)) }
{
    let Answer::Outputs(outputs) = answers.last()? else {
        return None;
    };
    let Output::Send { to, bytes } = outputs.first()? else {
        return None;
    };
    octets_for(bytes.as_slice(), to, receiver)
}

/// Hands the message that the engine at `from` sends in these answers to the one at `to`, if there is one and
/// it goes there, and gives the answers of that.
fn hand_on<'m, A: Allocator + Copy>(
    alloc: A,
    sent: &'m [Answer<'_, A>],
    from: &'m Address,
    to: &Address,
    engine: &mut Engine<A>,
) -> Vec<Answer<'m, A>, A>
    ensures { Hears (answers_view sent.now) from.now to.now (answers_view result.items) engine.old engine.new }
{
    match last_sent(sent, to) {
        Some(message) => answered(alloc, engine, &[Event::Bytes(from, message)]),
        None => answered(alloc, engine, &[]),
    }
}

/// The dialogue and the number of the invocation whose result the last of some answers tells last.
fn told_result<A: Allocator + Copy>(answers: &[Answer<'_, A>]) -> Option<(u32, u64)>
    ensures { IfSome result (λ told. TellsResult told.0 told.1 (answers_view answers.now)) }
{
    let Answer::Outputs(outputs) = answers.last()? else {
        return None;
    };
    let Output::ResultLast {
        dialogue,
        number,
        ..
    } = outputs.last()?
    else {
        return None;
    };
    Some((*dialogue, *number))
}

/// What the user of the first engine asks for: a new dialogue, which is 1, operation 10, and a Begin to an
/// address.
fn asked_events(to: &Address) -> [Event<'_>; 3]
    ensures { (places : Places) (engine : Which) (trace : Trace)
        → AreCarried places engine (events_view result) trace }
{
    let invoke = InvokeRequest {
        id: 1,
        class: Class::One,
        code: Code::Local(10),
        parameter: None,
        linked: None,
        timeout_ms: 1000,
    };
    let begin = BeginRequest {
        to,
        context: None,
        info: &[],
    };
    [
        Event::NewDialogue,
        Event::Invoke(1, invoke),
        Event::Begin(1, begin),
    ]
}

/// What the user of the other asks for: the result, and a Continue.
fn answering_events() -> [Event<'static>; 2]
    ensures { (places : Places) (engine : Which) (trace : Trace)
        → AreCarried places engine (events_view result) trace }
{
    let result = ResultRequest { id: 1, body: None };
    let go_on = ContinueRequest {
        context: None,
        info: &[],
    };
    [Event::ResultLast(1, result), Event::Continue(1, go_on)]
}

/// One operation between two new engines, at the addresses 01 and 02: the first user's Invoke goes to the
/// other, whose user answers it, and the result comes back. The dialogue and the number of the invocation
/// whose result the first user is told: it comes from an earlier accepted request of the other, for its
/// identifier and with its contents.
pub fn operate<A: Allocator + Copy>(alloc: A) -> Option<(u32, u64)>
    ensures { IfSome result (λ told. ComesBack told.0 told.1) }
{
    laws::several_engines();
    let limits = Limits {
        max_dialogues: 1,
        reject_ms: 0,
        idle_ms: 0,
    };
    let here = Address::new(&[1])?;
    let there = Address::new(&[2])?;
    let mut one = Engine::new(alloc, limits);
    let mut other = Engine::new(alloc, limits);
    let asked = answered(alloc, &mut one, &asked_events(&there));
    let heard = hand_on(alloc, asked.as_slice(), &here, &there, &mut other);
    let replied = answered(alloc, &mut other, &answering_events());
    let told = hand_on(alloc, replied.as_slice(), &there, &here, &mut one);
    told_result(told.as_slice())
}

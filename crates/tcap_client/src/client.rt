//! A client of one operation: what it asks for, what it does with what comes, and how it waits.

use object_identifiers::object_identifier;
use tcap_component::Code;
use tcap_engine::{Address, Engine, Fault, Output};
use tcap_invocation::Class;

/// What is to be sent and what the user is told, or why a request was refused.
pub type Told<'m> = Result<Vec<Output<'m>>, Fault>;

/// Asks a register to note where a subscriber is: MAP's updateLocation, operation 2 of class 1, in a new
/// dialogue. What is answered is to be sent.
pub fn ask<'m>(engine: &mut Engine, register: &Address, parameter: &[u8]) -> Told<'m> {
    let context = object_identifier("0.4.0.0.1.0.1.3").map_err(|_| Fault::BadOid)?;
    let code = Code::Local(2);
    let dialogue = engine.new_dialogue()?;
    engine.invoke(dialogue, 1, Class::One, code, Some(parameter), None, 15_000)?;
    engine.begin(dialogue, register, Some(context.octets()), &[])
}

/// Hands in a message and the address that it came from: what it means for the dialogues that stand.
pub fn hear<'m>(engine: &mut Engine, from: &Address, message: &'m [u8]) -> Told<'m> {
    Ok(engine.receive(from, message)?)
}

/// Lets the time come at which something is due, if anything is: what has lapsed then.
pub fn wait<'m>(engine: &mut Engine) -> Option<Told<'m>> {
    let moment = engine.next_timer()?;
    Some(engine.advance(moment))
}

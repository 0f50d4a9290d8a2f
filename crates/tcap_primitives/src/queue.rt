//! The components that wait for the next message of a dialogue.

ghost use Rattle.std.specs.Prelude.{◌≡◌, length};
ghost use Rattle.tcap_primitives.specs.Parts.{total};

pub mod append;
pub mod cancel;
pub mod contents;

use std::alloc::{Allocator, Global};
use tcap_invocation::Class;

/// The most octets of a queue, 60,000 (our own).
pub const MAX_QUEUE: usize = 60_000;

/// The invocation that an Invoke asks for.
#[derive(Clone, Copy, Debug)]
pub struct Invoking {
    /// Its number, which the TC-INVOKE request answered; the engine draws none twice.
    pub number: u64,
    /// The class of its operation.
    pub class: Class,
}

/// A component of the queue: how many octets it has, and of an Invoke what it asks for.
#[derive(Clone, Copy, Debug)]
pub struct Part {
    /// Octets, at most 60,000.
    pub len: usize,
    /// The invocation of an Invoke; none of another component.
    pub invoking: Option<Invoking>,
}

/// The components that the next message carries: their octets one after the other, so that it is
/// written from one slice, and how many of them each component has.
#[derive(Debug, Drop)]
pub struct Queue<A: Allocator + Copy = Global> {
    /// The octets of all components, at most 60,000.
    pub octets: Vec<u8, A>,
    /// The components, in the order in which they were queued.
    pub parts: Vec<Part, A>,
    ghost whole: { total parts.items ≡ length octets.items },
}

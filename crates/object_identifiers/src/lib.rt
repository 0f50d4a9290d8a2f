//! Object identifiers by their numbers: the dotted text of an application context to its contents octets,
//! and back.
//!
//! Stands on `ber_core`, `arrayvec` and `itoa`. Begin at `object_identifier`.
#![tactic(auto)]

mod contents;
mod fault;
mod identifier;
pub mod laws;
mod text;

pub use fault::ObjectIdentifierFault;
pub use identifier::{ObjectIdentifier, dotted, object_identifier};
pub use text::Dotted;

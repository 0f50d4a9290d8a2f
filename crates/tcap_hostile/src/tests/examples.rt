//! The worked examples: what is asked of a subject, a line each, and what it answers, two spaces in.
//!
//! Each begins with a line of its title, behind a `#`. Its first line says which subject it is (subject.rt). Lines ask as those of a play script do, without a side
//! (docs/FORMATS.md), and answers are printed as there; what is left out at the end of a line is `-`, a code in
//! hexadecimal stands behind an `x`, and `+N` behind octets means N octets of 0 more. The peer's address is 01;
//! `unito` names another as `beginto` does.

mod addresses;
mod alternatives;
mod codec;
mod dialogues;
mod idle;
mod messages;
mod outcomes;
mod requests;

pub(super) use addresses::ADDRESSES;
pub(super) use alternatives::ALTERNATIVES;
pub(super) use codec::{CODEC, FEEDS};
pub(super) use dialogues::{DIALOGUES, INVOCATIONS};
pub(super) use idle::IDLE;
pub(super) use messages::MESSAGES;
pub(super) use outcomes::OUTCOMES;
pub(super) use requests::{CALLS, REQUESTS};

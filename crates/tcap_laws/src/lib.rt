//! The laws of the model: what is proved of every legal history, and what that stands on. Each law is a
//! function that does nothing, whose contract is the law.
//!
//! Stands on `tcap_model`, which has the statements, and on the crates below it. Begin at
//! `deciding::decided`. What the crates above may cite of the proofs stands in
//! proofs/CallerLemmas.antt.
#![tactic(auto)]

pub mod agreeing;
pub mod alone;
pub mod bounds;
pub mod components;
pub mod deciding;
pub mod drawing;
pub mod ends;
pub mod invoking;
pub mod messages;
pub mod moving;
pub mod sending;
pub mod standing;

//! The tests of elements, messages, components and invocations: of `ber_core`, `tcap_pdu`, `tcap_component`
//! and `tcap_invocation`.
//!
//! Stands on these four. It has no function but the tests.
#![tactic(auto)]

#[cfg(test)]
mod tests;

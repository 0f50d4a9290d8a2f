//! The model of TCAP (Q.771, Q.774): what is asked, received, answered and told, the procedures as
//! functions that compute, what one dialogue does, what a history of events and answers says of
//! dialogues and invocations, and what is to be proved of every legal history. There is no code: the
//! definitions stand in specs/, and README.md has them in reading order.
//!
//! Stands on `ber_core`, `tcap_pdu`, `tcap_component` and `tcap_invocation`, and cites their definitions
//! of what octets mean. The laws are proved in `tcap_laws`, the examples computed in `tcap_examples`.
#![tactic(auto)]

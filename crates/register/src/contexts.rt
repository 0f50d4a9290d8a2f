//! The application contexts that peers propose.

use object_identifiers::{dotted, object_identifier};
use std::io::Write;
use tcap_engine::Output;

/// The application context of the operations: shortMsgGatewayContext-v3 (3GPP TS 29.002).
const SHORT_MESSAGE_GATEWAY: &str = "0.4.0.0.1.0.20.3";

/// Whether the contents octets are those of the application context of the operations.
fn is_served(octets: &[u8]) -> bool {
    match object_identifier(SHORT_MESSAGE_GATEWAY) {
        Ok(served) => served.octets() == octets,
        Err(_) => false,
    }
}

/// Names an application context by its numbers.
fn name_context<E: Write>(octets: &[u8], err: &mut E) {
    if let Some(numbers) = dotted(octets) {
        let _ = writeln!(err, "register: another context, {}", numbers.as_str());
    }
}

/// Names each application context that a Begin proposes and that is another one. Its operations are done all the same.
pub(crate) fn name_contexts<E: Write>(heard: &[Output<'_>], err: &mut E) {
    for output in heard {
        if let Output::Begin {
            context: Some(octets),
            ..
        } = output
        {
            if !is_served(octets) {
                name_context(octets, err);
            }
        }
    }
}

//! A worked caller of the codec: the operation code of a message.

ghost use Rattle.std.specs.Prelude.{◌≡◌};
ghost use Rattle.tcap_component.specs.Views.{code_parts};
ghost use Rattle.tcap_callers.specs.Operation.{local_number};

use tcap_component::{Code, Component, Components};
use tcap_pdu::read_frame;

/// The number of a code, if it is a local one.
pub fn local_number(code: &Code<'_>) -> Option<i32>
    ensures { result ≡ local_number (code_parts code.now) }
{
    match code {
        Code::Local(number) => Some(*number),
        Code::Global(_) => None,
    }
}

/// The local code of the first operation that a message invokes: from the bytes to the message, from its
/// component portion to the Invoke, from that to its code. None where the bytes are no message, where a
/// component before the Invoke is faulty, and where its code is a global one or there is no Invoke.
pub fn first_operation(bytes: &[u8]) -> Option<i32> {
    let message = read_frame(bytes).ok()?;
    for item in Components::new(message.components()) {
        if let Component::Invoke { code, .. } = item.ok()? {
            return local_number(&code);
        }
    }
    None
}

//! Calls with memory of their own, or with a sink, that no engine makes.

use super::alternatives::are_alike;
use std::alloc::Global;
use std::test::Fail;
use tcap_component::Code;
use tcap_dialogue::{Abort, Cause, Output, Sink, take_uni, take_uni_into, write_abort};
use tcap_pdu::{Frame, read_frame};

/// A Begin.
const BEGIN: [u8; 8] = [0x62, 0x06, 0x48, 0x04, 0, 0, 0, 1];

/// The Abort that answers it where its destination isn't known (Q.773, P-Abort cause 1).
const ABORT: [u8; 11] = [0x67, 0x09, 0x49, 0x04, 0, 0, 0, 1, 0x4a, 1, 1];

/// An Invoke of operation 5, and a component that can't be read.
const COMPONENTS: [u8; 10] = [0xa1, 6, 2, 1, 1, 2, 1, 5, 0xa9, 0];

/// Whether the Abort for a cause is written as it should be.
fn is_abort_written(alloc: Global) -> Option<bool> {
    let Frame::Begin { otid, .. } = read_frame(&BEGIN).ok()? else {
        return None;
    };
    let abort = Abort::Cause {
        peer: otid,
        cause: Cause::UnrecognizedId,
    };
    let own = write_abort(alloc, &abort).ok()?;
    Some(own.as_slice() == ABORT.as_slice())
}

/// Whether a Unidirectional is told as it should be, by both calls.
fn is_uni_told(alloc: Global) -> Option<bool> {
    let own = take_uni(alloc, None, &COMPONENTS).ok()?;
    let mut sink = Sink::vector(alloc);
    take_uni_into(None, &COMPONENTS, &mut sink).ok()?;
    let appended = sink.into_vector();
    let is_told = matches!(
        own.as_slice(),
        [
            Output::Uni {
                context: None,
                info: []
            },
            Output::Invoked {
                dialogue: None,
                id: 1,
                linked: None,
                code: Code::Local(5),
                parameter: None
            },
            Output::LocalReject {
                dialogue: None,
                id: None,
                ..
            }
        ]
    );
    Some(is_told && are_alike(alloc, &own, &appended)?)
}

#[test]
fn written_and_told(rt: HostRuntime) -> Result<(), Fail> {
    let alloc = rt.alloc();
    assert_eq!(rt; is_abort_written(alloc), Some(true));
    assert_eq!(rt; is_uni_told(alloc), Some(true));
    Ok(())
}

//! Messages, read and written.

ghost use Rattle.tcap_pdu.specs.FrameSpelling.{HasCause};
ghost use Rattle.tcap_pdu.specs.FrameViews.{message};

use std::alloc::Global;
use std::test::Fail;
use tcap_pdu::{AbortPart, Frame, FrameFault, TransId, front_ids, read_frame, write_frame};

/// Whether no octet, and five, are no identifier.
fn has_its_lengths() -> bool {
    TransId::new(&[]).is_none() & TransId::new(&[0, 0, 0, 0, 1]).is_none()
}

/// Whether a number and its four octets are one identifier.
fn is_its_number() -> bool {
    let id = TransId::of(255);
    id.octets() == [0x00, 0x00, 0x00, 0xff].as_slice() && id.as_u32() == Some(255)
}

/// Whether an identifier of one octet is kept, and has no number.
fn is_short() -> bool {
    let Some(short) = TransId::new(&[0x07]) else {
        return false;
    };
    // Equal octets, and not an equal number.
    short.octets().len() == 1 && short.as_u32().is_none() && short != TransId::of(7)
}

/// Whether identifiers of equal octets are equal.
fn is_equal() -> bool {
    let seven = TransId::of(7);
    TransId::new(&[0, 0, 0, 7]) == Some(TransId::of(7)) && seven.copied() == seven
}

#[test]
fn identifiers(rt: HostRuntime) -> Result<(), Fail> {
    assert!(rt; has_its_lengths());
    assert!(rt; is_its_number());
    assert!(rt; is_short());
    assert!(rt; is_equal());
    Ok(())
}

/// The message that the bytes are, written again.
fn rewritten(alloc: Global, bytes: &[u8]) -> Option<Vec<u8>> {
    let frame = read_frame(bytes).ok()?;
    write_frame(alloc, &frame).ok()
}

/// What is read, and its canonical form.
const CANONICAL: &[(&[u8], &[u8])] = &[
    (&[0x61, 0x02, 0x6c, 0x00], &[0x61, 0x02, 0x6c, 0x00]),
    (
        &[0x62, 0x05, 0x48, 0x01, 0x07, 0x6c, 0x00],
        &[0x62, 0x03, 0x48, 0x01, 0x07],
    ),
    (
        &[0x62, 0x80, 0x48, 0x81, 0x01, 0x07, 0x00, 0x00],
        &[0x62, 0x03, 0x48, 0x01, 0x07],
    ),
    (
        &[0x62, 0x05, 0x48, 0x01, 0x07, 0x6b, 0x00],
        &[0x62, 0x05, 0x48, 0x01, 0x07, 0x6b, 0x00],
    ),
    (
        &[
            0x65, 0x0a, 0x48, 0x01, 0x05, 0x49, 0x01, 0x01, 0x6b, 0x00, 0x6c, 0x00,
        ],
        &[0x65, 0x08, 0x48, 0x01, 0x05, 0x49, 0x01, 0x01, 0x6b, 0x00],
    ),
    (
        &[0x64, 0x81, 0x07, 0x49, 0x01, 0x01, 0x6c, 0x02, 0xa5, 0x00],
        &[0x64, 0x07, 0x49, 0x01, 0x01, 0x6c, 0x02, 0xa5, 0x00],
    ),
    (
        &[0x67, 0x03, 0x49, 0x01, 0x01],
        &[0x67, 0x03, 0x49, 0x01, 0x01],
    ),
    (
        &[0x67, 0x06, 0x49, 0x01, 0x01, 0x4a, 0x01, 0x7f],
        &[0x67, 0x06, 0x49, 0x01, 0x01, 0x4a, 0x01, 0x7f],
    ),
    (
        &[0x67, 0x05, 0x49, 0x01, 0x01, 0x6b, 0x00],
        &[0x67, 0x05, 0x49, 0x01, 0x01, 0x6b, 0x00],
    ),
];

#[test]
fn messages_read_and_written(rt: HostRuntime) -> Result<(), Fail> {
    for (bytes, canonical) in CANONICAL {
        let again = rewritten(rt.alloc(), bytes);
        assert!(rt; again.as_deref() == Some(*canonical), "{bytes:?}");
    }
    Ok(())
}

/// Whether the octets with one more are badly formatted.
fn is_one_too_long(octets: &mut Vec<u8>) -> bool {
    octets.push(0).is_ok()
        && read_frame(octets.as_slice()).err() == Some(FrameFault::BadlyFormatted)
}

/// Whether the message is written as these octets and read from them, and not with an octet more.
fn is_read_again(alloc: Global, frame: &Frame<'_>, octets: &[u8]) -> bool
    requires { HasCause (message frame.now) }
{
    let is_read = read_frame(octets).ok().as_ref() == Some(frame);
    match write_frame(alloc, frame) {
        Ok(mut written) => {
            is_read && written.as_slice() == octets && is_one_too_long(&mut written)
        }
        Err(_) => false,
    }
}

#[test]
fn parts_of_messages(rt: HostRuntime) -> Result<(), Fail> {
    let abort = Frame::Abort {
        dtid: TransId::of(1),
        reason: AbortPart::Cause(2),
    };
    let bytes: &[u8] = &[0x67, 0x09, 0x49, 0x04, 0, 0, 0, 1, 0x4a, 0x01, 0x02];
    assert!(rt; is_read_again(rt.alloc(), &abort, bytes));
    let go_on = Frame::Continue {
        otid: TransId::of(5),
        dtid: TransId::of(1),
        dialogue: Some(&[0x28, 0x00]),
        components: &[0xa5, 0x00],
    };
    let bytes: &[u8] = &[
        0x65, 0x14, 0x48, 0x04, 0, 0, 0, 5, 0x49, 0x04, 0, 0, 0, 1, 0x6b, 0x02, 0x28, 0x00, 0x6c,
        0x02, 0xa5, 0x00,
    ];
    assert!(rt; is_read_again(rt.alloc(), &go_on, bytes));
    Ok(())
}

/// Whether the bytes are no message for this fault, and the fault has this P-Abort cause.
fn is_refused(bytes: &[u8], fault: FrameFault, cause: u8) -> bool {
    read_frame(bytes).err() == Some(fault) && fault.cause() == cause
}

/// Bytes that are no message, the fault and its P-Abort cause.
const REFUSED: &[(&[u8], FrameFault, u8)] = &[
    // One element and nothing after it is judged first, then the tag.
    (&[0x65, 0x01], FrameFault::BadlyFormatted, 2),
    (&[0x65, 0x00], FrameFault::Incorrect, 3),
    (
        &[0x63, 0x06, 0x48, 0x04, 0, 0, 0, 7],
        FrameFault::Unknown,
        0,
    ),
    (&[0x63, 0x02, 0x48, 0x04], FrameFault::Unknown, 0),
    (
        &[0x63, 0x07, 0x48, 0x04, 0, 0, 0, 7],
        FrameFault::BadlyFormatted,
        2,
    ),
    // The long form of a tag number is no message type's tag.
    (
        &[0x7f, 0x02, 0x06, 0x48, 0x04, 0, 0, 0, 1],
        FrameFault::Unknown,
        0,
    ),
    // The list is judged before the sequence.
    (
        &[
            0x65, 0x0d, 0x48, 0x04, 0, 0, 0, 5, 0x49, 0x04, 0, 0, 0, 1, 0x6c,
        ],
        FrameFault::BadlyFormatted,
        2,
    ),
    (
        &[0x64, 0x07, 0x49, 0x04, 0, 0, 0, 1, 0x6c],
        FrameFault::BadlyFormatted,
        2,
    ),
    (&[0x62, 0x02, 0x48, 0x00], FrameFault::Incorrect, 3),
    (
        &[0x62, 0x07, 0x48, 0x05, 0, 0, 0, 0, 1],
        FrameFault::Incorrect,
        3,
    ),
    (
        &[0x65, 0x0a, 0x48, 0x05, 0, 0, 0, 0, 1, 0x49, 0x01, 7],
        FrameFault::Incorrect,
        3,
    ),
    (
        &[0x62, 0x05, 0x48, 0x01, 0x07, 0x6d, 0x00],
        FrameFault::Incorrect,
        3,
    ),
    (&[0x61, 0x00], FrameFault::Incorrect, 3),
    (
        &[0x67, 0x06, 0x49, 0x01, 0x01, 0x4a, 0x01, 0x80],
        FrameFault::Incorrect,
        3,
    ),
    (
        &[0x67, 0x08, 0x49, 0x01, 0x01, 0x4a, 0x01, 0x02, 0x6b, 0x00],
        FrameFault::Incorrect,
        3,
    ),
];

#[test]
fn faults_and_causes(rt: HostRuntime) -> Result<(), Fail> {
    for (bytes, fault, cause) in REFUSED {
        assert!(rt; is_refused(bytes, *fault, *cause), "{bytes:?}");
    }
    Ok(())
}

/// The last octet of an identifier.
fn last_octet(id: Option<TransId>) -> Option<u8> {
    id?.octets().last().copied()
}

/// Origin and destination at the beginning of a message, by their last octet.
fn front_octets(bytes: &[u8]) -> (Option<u8>, Option<u8>) {
    let (origin, destination) = front_ids(bytes);
    (last_octet(origin), last_octet(destination))
}

/// Messages, and the last octets of their origin and destination.
const FRONTS: &[(&[u8], Option<u8>, Option<u8>)] = &[
    (
        &[
            0x65, 0x0d, 0x48, 0x04, 0, 0, 0, 5, 0x49, 0x04, 0, 0, 0, 1, 0x6c,
        ],
        Some(5),
        Some(1),
    ),
    // An origin of wrong length is passed over.
    (
        &[0x65, 0x0a, 0x48, 0x05, 0, 0, 0, 0, 1, 0x49, 0x01, 7],
        None,
        Some(7),
    ),
    (&[0x65, 0x05, 0x48, 0x00, 0x49, 0x01, 7], None, Some(7)),
    (&[0x63, 0x06, 0x48, 0x04, 0, 0, 0, 7], Some(7), None),
    // A destination may stand first; a prefix of another kind has none.
    (&[0x64, 0x06, 0x49, 0x04, 0, 0, 0, 1], None, Some(1)),
    (
        &[0x64, 0x08, 0x04, 0x00, 0x49, 0x04, 0, 0, 0, 1],
        None,
        None,
    ),
    // What stands after the end 00 00 isn't reached, nor what stands after the stated length.
    (
        &[
            0x65, 0x80, 0x48, 0x04, 0, 0, 0, 5, 0x00, 0x00, 0x49, 0x04, 0, 0, 0, 1,
        ],
        Some(5),
        None,
    ),
    (
        &[0x65, 0x06, 0x48, 0x04, 0, 0, 0, 5, 0x49, 0x04, 0, 0, 0, 1],
        Some(5),
        None,
    ),
    // A message may end before its stated length.
    (
        &[0x65, 0x0d, 0x48, 0x01, 5, 0x49, 0x01, 1],
        Some(5),
        Some(1),
    ),
    // No head, and a primitive one.
    (&[0x65], None, None),
    (&[0x42, 0x06, 0x48, 0x04, 0, 0, 0, 7], None, None),
];

#[test]
fn fronts_of_faulty_messages(rt: HostRuntime) -> Result<(), Fail> {
    for (bytes, origin, destination) in FRONTS {
        assert!(rt; front_octets(bytes) == (*origin, *destination), "{bytes:?}");
    }
    Ok(())
}

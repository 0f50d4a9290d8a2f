//! Streams that go on behind their faults, whole and octet by octet.

use super::streams::Single;
use super::words::{PLAIN, run};
use std::alloc::Global;
use std::test::Fail;
use tcap_judging::judge_resynced;

/// The stream, the status, and what is written.
const ROWS: &[(&[u8], u8, &str)] = &[
    (b"", 0, ""),
    (
        &[0x62, 0x03, 0x48, 0x01, 0x07, 0x62, 0x03, 0x48, 0x01, 0x08],
        0,
        "0 good\n5 good\n",
    ),
    // A faulty message of a stream that goes on is no fault of the stream.
    (
        &[0x04, 0x00, 0x62, 0x03, 0x48, 0x01, 0x07],
        1,
        "0 fault unknown type place 0 element 0: expected a message 0x61, 0x62, 0x64, 0x65 or 0x67, found 0x04\n2 good\n",
    ),
    // A length that is too large, between two messages.
    (
        &[
            0x62, 0x03, 0x48, 0x01, 0x07, 0x62, 0x83, 0x01, 0x00, 0x00, 0x62, 0x03, 0x48, 0x01,
            0x07,
        ],
        1,
        "0 good\n5 fault badly formatted place 4 element 0: expected a length of at most 65535, found 0x00\n5 passed over 5 octets\n10 good\n",
    ),
    // The stream ends within a message that has a good one inside.
    (
        &[0x62, 0x10, 0x48, 0x01, 0x07, 0x62, 0x03, 0x48, 0x01, 0x07],
        1,
        "0 fault badly formatted place 10 element 0: expected 8 more octets, found the end\n0 passed over 5 octets\n5 good\n",
    ),
    // Two faults, behind the second nothing good: a message whose identifier is missing, and one that isn't whole.
    (
        &[
            0x62, 0xff, 0x62, 0x03, 0x48, 0x01, 0x07, 0x62, 0xff, 0x62, 0x03, 0x49, 0x01, 0x07,
            0x62, 0x03, 0x48,
        ],
        1,
        "0 fault badly formatted place 1 element 0: expected a length of at most 65535, found 0xff\n0 passed over 2 octets\n2 good\n7 fault badly formatted place 1 element 0: expected a length of at most 65535, found 0xff\n7 passed over 10 octets\n",
    ),
    // Of two octets at which a message may begin the first is not whole where the stream ends.
    (
        &[
            0x62, 0xff, 0x62, 0x09, 0x48, 0x01, 0x07, 0x62, 0x03, 0x48, 0x01, 0x07,
        ],
        1,
        "0 fault badly formatted place 1 element 0: expected a length of at most 65535, found 0xff\n0 passed over 7 octets\n7 good\n",
    ),
    // A length that swallows three good messages.
    (
        &[
            0x62, 0x0a, 0x62, 0x03, 0x48, 0x01, 0x07, 0x62, 0x03, 0x48, 0x01, 0x07, 0x62, 0x03,
            0x48, 0x01, 0x07,
        ],
        1,
        "0 fault incorrect place 2 element 2: expected the originating transaction identifier 0x48, found 0x62\n0 passed over 2 octets\n2 good\n7 good\n12 good\n",
    ),
    // A length that is too large by one: the message that it cuts goes on beyond its end.
    (
        &[
            0x62, 0x04, 0x48, 0x01, 0x07, 0x62, 0x03, 0x48, 0x01, 0x08, 0x62, 0x03, 0x48, 0x01,
            0x09,
        ],
        1,
        "0 fault badly formatted place 6 element 5: expected more octets, found the end\n0 passed over 5 octets\n5 good\n10 good\n",
    ),
    // One that is too small by one: within it nothing begins, and behind it is a fault of the stream.
    (
        &[
            0x62, 0x02, 0x48, 0x01, 0x07, 0x62, 0x03, 0x48, 0x01, 0x08, 0x62, 0x03, 0x48, 0x01,
            0x09,
        ],
        1,
        "0 fault badly formatted place 4 element 2: expected 1 more octet, found the end\n4 fault badly formatted place 11 element 0: expected 89 more octets, found the end\n4 passed over 1 octets\n5 good\n10 good\n",
    ),
    // A faulty message in which octets have the tag of a message, but no message begins; a good one follows.
    (
        &[
            0x62, 0x07, 0x48, 0x05, 0x62, 0x03, 0x48, 0x62, 0x01, 0x62, 0x03, 0x48, 0x01, 0x07,
        ],
        1,
        "0 fault incorrect place 4 element 2: expected a transaction identifier of 1 to 4 octets, found 5 octets from 0x62\n9 good\n",
    ),
    // Two faulty messages, one behind the other.
    (
        &[
            0x62, 0x03, 0x49, 0x01, 0x07, 0x65, 0x03, 0x49, 0x01, 0x08, 0x62, 0x03, 0x48, 0x01,
            0x07,
        ],
        1,
        "0 fault incorrect place 2 element 2: expected the originating transaction identifier 0x48, found 0x49\n5 fault incorrect place 2 element 2: expected the originating transaction identifier 0x48, found 0x49\n10 good\n",
    ),
    // In a faulty message a faulty one begins, which has a good one inside; the stream ends there.
    (
        &[
            0x62, 0x09, 0x62, 0x07, 0x62, 0x03, 0x48, 0x01, 0x07, 0x05, 0x00,
        ],
        1,
        "0 fault incorrect place 2 element 2: expected the originating transaction identifier 0x48, found 0x62\n0 passed over 4 octets\n4 good\n9 fault unknown type place 0 element 0: expected a message 0x61, 0x62, 0x64, 0x65 or 0x67, found 0x05\n",
    ),
    // What may begin in a faulty message isn't whole where the stream ends.
    (
        &[0x62, 0x04, 0x49, 0x02, 0x62, 0x09],
        1,
        "0 fault incorrect place 2 element 2: expected the originating transaction identifier 0x48, found 0x49\n",
    ),
];

/// Whether a run over single octets writes this, and tells whether the stream is good.
fn is_so(alloc: Global, octets: &[u8], status: u8, written: &str) -> bool {
    let mut reader = Single { left: octets };
    let mut out = Vec::new(alloc);
    let good = judge_resynced(alloc, PLAIN, &mut reader, &mut out);
    good == Ok(status == 0) && out.as_slice() == written.as_bytes()
}

#[test]
fn streams_that_go_on(rt: HostRuntime) -> Result<(), Fail> {
    let alloc = rt.alloc();
    for (octets, status, written) in ROWS {
        let ran = run(alloc, &["--stream", "--resync"], octets);
        assert!(rt; ran.is(*status, written.as_bytes(), b""), "at {octets:?}");
        assert!(rt; is_so(alloc, octets, *status, written), "at {octets:?}");
    }
    Ok(())
}

#[test]
fn passed_over_in_json(rt: HostRuntime) -> Result<(), Fail> {
    let ran = run(rt.alloc(), &["--resync", "--json"], &[0x62, 0xff]);
    let wanted =
        b"{\"offset\":0,\"verdict\":\"fault badly formatted\",\"good\":false,\"place\":1,\"element\":0,\"expected\":\"a length of at most 65535\",\"found\":\"0xff\"}\n{\"offset\":0,\"passed\":2}\n";
    assert!(rt; ran.is(1, wanted, b""));
    Ok(())
}

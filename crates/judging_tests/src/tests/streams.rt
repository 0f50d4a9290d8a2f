//! Streams, cut at each octet, with a fault and without an end.

use super::words::{PLAIN, run};
use std::alloc::Global;
use std::io;
use std::io::Read;
use std::test::Fail;
use tcap_judging::judge_stream;

/// The stream, the status, and what is written.
const ROWS: &[(&[u8], u8, &str)] = &[
    (b"", 0, ""),
    (&[0x62, 0x03, 0x48, 0x01, 0x07], 0, "0 good\n"),
    (
        &[
            0x62, 0x03, 0x48, 0x01, 0x07, 0x04, 0x00, 0x62, 0x03, 0x48, 0x01, 0x07,
        ],
        1,
        "0 good\n5 fault unknown type place 0 element 0: expected a message 0x61, 0x62, 0x64, 0x65 or 0x67, found 0x04\n7 good\n",
    ),
    (
        &[0x62, 0x03, 0x48, 0x01, 0x07, 0x62, 0x03, 0x48],
        1,
        "0 good\n5 fault badly formatted place 3 element 0: expected 2 more octets, found the end\n",
    ),
    // Nothing is judged behind octets at which no message can begin, and a line says so.
    (
        &[
            0x62, 0x03, 0x48, 0x01, 0x07, 0x62, 0x83, 0x01, 0x00, 0x00, 0x62, 0x03, 0x48, 0x01,
            0x07,
        ],
        1,
        "0 good\n5 fault badly formatted place 4 element 0: expected a length of at most 65535, found 0x00\n5 stopped: nothing behind this fault is judged\n",
    ),
];

/// Where a run stops, in JSON: two octets at which no message can begin, and a good message.
#[test]
fn stopped_in_json(rt: HostRuntime) -> Result<(), Fail> {
    let ran = run(
        rt.alloc(),
        &["--stream", "--json"],
        &[0x62, 0xff, 0x62, 0x03, 0x48, 0x01, 0x07],
    );
    let wanted =
        b"{\"offset\":0,\"verdict\":\"fault badly formatted\",\"good\":false,\"place\":1,\"element\":0,\"expected\":\"a length of at most 65535\",\"found\":\"0xff\"}\n{\"offset\":0,\"stopped\":true}\n";
    assert!(rt; ran.is(1, wanted, b""));
    Ok(())
}

/// A reader of one octet at a time.
#[derive(Drop)]
pub(super) struct Single<'a> {
    pub(super) left: &'a [u8],
}

impl Read for Single<'_> {
    fn read(&mut self, buf: &mut [u8]) -> io::Result<usize> {
        if buf.is_empty() {
            return Ok(0);
        }
        match self.left.split_first() {
            Some((octet, rest)) => {
                buf[0] = *octet;
                self.left = rest;
                Ok(1)
            }
            None => Ok(0),
        }
    }
}

/// Whether a run over single octets writes this, and tells whether the stream is good.
fn is_so(alloc: Global, octets: &[u8], status: u8, written: &str) -> bool {
    let mut reader = Single { left: octets };
    let mut out = Vec::new(alloc);
    let good = judge_stream(alloc, PLAIN, &mut reader, &mut out);
    good == Ok(status == 0) && out.as_slice() == written.as_bytes()
}

#[test]
fn streams_in_pieces(rt: HostRuntime) -> Result<(), Fail> {
    let alloc = rt.alloc();
    for (octets, status, written) in ROWS {
        let ran = run(alloc, &["--stream"], octets);
        assert!(rt; ran.is(*status, written.as_bytes(), b""), "at {octets:?}");
        assert!(rt; is_so(alloc, octets, *status, written), "at {octets:?}");
    }
    Ok(())
}

/// An element of 65,535 octets, and one that would have more.
#[test]
fn streams_of_the_greatest_length(rt: HostRuntime) -> Result<(), Fail> {
    let alloc = rt.alloc();
    let rows: [(&[u8], usize, &[u8]); 2] = [
        (
            &[0x04, 0x82, 0xff, 0xfb],
            65_535,
            b"0 fault unknown type place 0 element 0: expected a message 0x61, 0x62, 0x64, 0x65 or 0x67, found 0x04\n",
        ),
        (
            &[0x04, 0x82, 0xff, 0xfc],
            70_000,
            b"0 fault too long place 65535 element 0: expected at most 65535 octets, found 65536 octets\n0 stopped: nothing behind this fault is judged\n",
        ),
    ];
    for (head, len, wanted) in rows {
        let mut octets = head.to_vec(alloc)?;
        for _ in head.len()..len {
            octets.push(0)?;
        }
        let ran = run(alloc, &["--stream"], octets.as_slice());
        assert!(rt; ran.is(1, wanted, b""), "at {len}");
    }
    Ok(())
}

//! Streams, by `run_stream` and by the command.

use super::outputs::Narrow;
use super::words::run_within;
use std::alloc::Global;
use std::io;
use std::io::{ErrorKind, Read};
use std::test::Fail;
use tcap_cmd::{PlayFault, run_stream};

/// A Begin.
const BEGIN: &[u8] = &[0x62, 0x06, 0x48, 0x04, 0x00, 0x00, 0x00, 0x01];

/// A Begin, and an octet that no element begins with.
const BEGIN_AND_END: &[u8] = &[0x62, 0x06, 0x48, 0x04, 0x00, 0x00, 0x00, 0x01, 0x00];

/// A reader of some octets over and over, which may fail on the way.
#[derive(Drop)]
pub(super) struct Repeated<'a> {
    /// The octets.
    octets: &'a [u8],
    /// Where the next one stands.
    place: usize,
    /// How many it still gives before its end.
    left: usize,
    /// How many it gives in a read.
    width: usize,
    /// The number of the read that fails, from 1, or 0.
    failing: u64,
    /// How many reads were made.
    pub(super) reads: u64,
}

impl<'a> Repeated<'a> {
    pub(super) fn new(octets: &'a [u8], left: usize, width: usize, failing: u64) -> Repeated<'a> {
        Repeated {
            octets,
            place: 0,
            left,
            width,
            failing,
            reads: 0,
        }
    }
}

impl Read for Repeated<'_> {
    fn read(&mut self, buf: &mut [u8]) -> io::Result<usize> {
        self.reads = self.reads.saturating_add(1);
        if self.reads == self.failing {
            return Err(io::Error::from(ErrorKind::Other));
        }
        let count = buf.len().min(self.width).min(self.left);
        self.left -= count;
        for i in 0..count {
            buf[i] = self.octets.get(self.place).copied().unwrap_or(0);
            self.place = self.place.saturating_add(1);
            if self.place >= self.octets.len() {
                self.place = 0;
            }
        }
        Ok(count)
    }
}

/// Whether a run over this reader, with an output that takes so many octets, answers this, writes this, and makes so
/// many reads.
fn is_run(
    alloc: Global,
    mut reader: Repeated<'_>,
    room: usize,
    answer: Result<bool, PlayFault>,
    written: &str,
    reads: u64,
) -> bool {
    let mut out = Narrow::new(alloc, room);
    let ran = run_stream(alloc, &mut reader, &mut out);
    ran == answer && out.taken.as_slice() == written.as_bytes() && reader.reads == reads
}

/// The head of an element of 65,535 octets.
const LONG: &[u8] = &[0x04, 0x82, 0xff, 0xff];

const FAULTY: &str = "good\nfault stream ber 2\n";

const TOO_LONG: &str = "fault stream too long\n";

/// The octets, how many in all, how many a read, the read that fails, the octets that the output takes; the answer,
/// what is written, the reads made.
type Row = (
    &'static [u8],
    usize,
    usize,
    u64,
    usize,
    Result<bool, PlayFault>,
    &'static str,
    u64,
);

const ROWS: &[Row] = &[
    (BEGIN, 0, 8, 0, 0, Ok(true), "", 1),
    (BEGIN, 8, 8, 0, 99, Ok(true), "good\n", 2),
    (BEGIN, 24, 5_000, 0, 99, Ok(true), "good\ngood\ngood\n", 2),
    (BEGIN, 24, 1, 0, 99, Ok(true), "good\ngood\ngood\n", 25),
    (BEGIN, 11, 8, 0, 99, Ok(false), "good\nrest 3\n", 3),
    // The lines of what was read are written before the next read.
    (BEGIN, 24, 8, 1, 99, Err(PlayFault::Read), "", 1),
    (BEGIN, 24, 8, 3, 99, Err(PlayFault::Read), "good\ngood\n", 3),
    (BEGIN, 24, 9, 2, 99, Err(PlayFault::Read), "good\n", 2),
    // Nothing is read behind a fault.
    (BEGIN_AND_END, 99, 18, 0, 99, Ok(false), FAULTY, 1),
    (BEGIN_AND_END, 99, 1, 0, 99, Ok(false), FAULTY, 9),
    (LONG, usize::MAX, 5_000, 0, 99, Ok(false), TOO_LONG, 16),
    (BEGIN, 24, 8, 0, 0, Err(PlayFault::Write), "", 1),
    (BEGIN, 24, 24, 0, 7, Err(PlayFault::Write), "good\ngo", 1),
    (BEGIN, 11, 11, 0, 7, Err(PlayFault::Write), "good\nre", 2),
];

#[test]
fn reads_of_a_stream(rt: HostRuntime) -> Result<(), Fail> {
    for (octets, left, width, failing, room, answer, written, reads) in ROWS {
        let reader = Repeated::new(octets, *left, *width, *failing);
        assert!(rt;
            is_run(rt.alloc(), reader, *room, *answer, written, *reads),
            "at {left}, {width}, {failing}, {room}"
        );
    }
    Ok(())
}

/// Whether a run over this reader answers this, writes so many octets, and makes so many reads.
fn is_long_run(
    alloc: Global,
    mut reader: Repeated<'_>,
    answer: Result<bool, PlayFault>,
    written: usize,
    reads: u64,
) -> bool {
    let mut out = Vec::new(alloc);
    let ran = run_stream(alloc, &mut reader, &mut out);
    ran == answer && out.len() == written && reader.reads == reads
}

#[test]
fn reads_of_long_streams(rt: HostRuntime) -> Result<(), Fail> {
    // An element of 60,004 octets, and a message of five.
    let long = [0x04, 0x82, 0xea, 0x60];
    let long = long.as_slice();
    let begin = [0x62, 0x03, 0x48, 0x01, 0x07];
    let begin = begin.as_slice();
    let too_long = Err(PlayFault::TooLong);
    let rest = "rest 39935\n".len();
    let lines = 16 * "fault unknown type\n".len();
    let good = "good\n".len();
    let rows: [(&[u8], usize, usize, Result<bool, PlayFault>, usize, u64); 4] = [
        // The octets, how many in all, how many a read; the answer, how many octets are written, the reads
        // made. The read that finds the end counts.
        (long, 999_999, 1, Ok(false), lines + rest, 1_000_000),
        (long, 1_000_000, 1, too_long, lines, 1_000_000),
        (begin, usize::MAX, 1, too_long, 200_000 * good, 1_000_000),
        // Reads are counted and not octets; each asks for 4,096.
        (begin, 2_000_000, 5_000, Ok(true), 400_000 * good, 490),
    ];
    for (octets, left, width, answer, written, reads) in rows {
        let reader = Repeated::new(octets, left, width, 0);
        assert!(rt;
            is_long_run(rt.alloc(), reader, answer, written, reads),
            "at {left}, {width}"
        );
    }
    Ok(())
}

#[test]
fn streams_of_the_command(rt: HostRuntime) -> Result<(), Fail> {
    let alloc = rt.alloc();
    let rows: [(&[&str], usize, usize, u64, u8, &str, &str); 6] = [
        // The words, how many octets, the octets that the output takes, the read that fails; the status,
        // what is written, what is told.
        (&["stream"], 8, 99, 0, 0, "good\n", ""),
        (&["stream"], 7, 99, 0, 1, "rest 7\n", ""),
        (&["stream"], 9, 99, 0, 1, "good\nfault stream ber 2\n", ""),
        (&["stream"], 8, 3, 0, 2, "goo", "tcap: write failed\n"),
        (&["stream"], 9, 99, 1, 2, "", "tcap: read failed\n"),
        (&["stream", "62"], 9, 99, 1, 2, "", "tcap: bad command\n"),
    ];
    for (words, left, room, failing, status, written, told) in rows {
        let mut reader = Repeated::new(BEGIN_AND_END, left, 5_000, failing);
        let ran = run_within(alloc, words, &mut reader, room);
        assert!(rt;
            ran.is(status, written.as_bytes(), told.as_bytes()),
            "at {words:?}, {left}"
        );
    }
    Ok(())
}

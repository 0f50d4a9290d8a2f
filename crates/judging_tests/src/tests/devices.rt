//! Devices that fail: at the Nth read or write, for each N until none is left.

use super::words::PLAIN;
use std::alloc::Global;
use std::io;
use std::io::{ErrorKind, Read, Write};
use std::test::Fail;
use tcap_judging::{JudgingFault, Naming, judge_lines};

/// A reader of some octets, so many a read, which may fail on the way.
#[derive(Drop)]
struct Failing<'a> {
    /// What it still gives.
    left: &'a [u8],
    /// How many octets it gives in a read.
    width: usize,
    /// The number of the read that fails, from 1, or 0.
    failing: u64,
    /// How many reads were made.
    reads: u64,
}

impl Read for Failing<'_> {
    fn read(&mut self, buf: &mut [u8]) -> io::Result<usize> {
        self.reads = self.reads.saturating_add(1);
        if self.reads == self.failing {
            return Err(io::Error::from(ErrorKind::Other));
        }
        let count = buf.len().min(self.width).min(self.left.len());
        for i in 0..count {
            buf[i] = self.left[i];
        }
        self.left = &self.left[count..];
        Ok(count)
    }
}

/// A writer that takes so many octets at a time, and fails at one write.
#[derive(Drop)]
struct Counting {
    /// What it took.
    taken: Vec<u8>,
    /// How many octets it takes at a time.
    width: usize,
    /// The number of the write that fails, from 1, or 0.
    failing: u64,
    /// How many writes were made.
    writes: u64,
}

impl Write for Counting {
    fn write(&mut self, bytes: &[u8]) -> io::Result<usize> {
        self.writes = self.writes.saturating_add(1);
        if self.writes == self.failing {
            return Err(io::Error::from(ErrorKind::Other));
        }
        let count = bytes.len().min(self.width);
        if self.taken.extend_from_slice(&bytes[..count]).is_err() {
            return Err(io::Error::from(ErrorKind::OutOfMemory));
        }
        Ok(count)
    }

    fn flush(&mut self) -> io::Result<()> {
        Ok(())
    }
}

/// Three lines of eleven octets.
const THREE: &[u8] = b"6203480107\n6203480107\n6203480107\n";

/// What they print.
const PRINTED: &[u8] = b"1 good\n2 good\n3 good\n";

/// The octets of a read, the read that fails; the answer, and how many lines stand written.
const READS: &[(usize, u64, Result<bool, JudgingFault>, usize)] = &[
    (4_096, 0, Ok(true), 3),
    (1, 0, Ok(true), 3),
    (4_096, 1, Err(JudgingFault::Read), 0),
    (4_096, 2, Err(JudgingFault::Read), 3),
    (11, 2, Err(JudgingFault::Read), 1),
    (11, 3, Err(JudgingFault::Read), 2),
    (11, 4, Err(JudgingFault::Read), 3),
    // The line that isn't whole is not told.
    (10, 2, Err(JudgingFault::Read), 0),
    (10, 3, Err(JudgingFault::Read), 1),
    (1, 23, Err(JudgingFault::Read), 2),
];

#[test]
fn reads_that_fail(rt: HostRuntime) -> Result<(), Fail> {
    for (width, failing, answer, lines) in READS {
        let mut reader = Failing {
            left: THREE,
            width: *width,
            failing: *failing,
            reads: 0,
        };
        let mut out = Vec::new(rt.alloc());
        let ran = judge_lines(rt.alloc(), PLAIN, Naming::Marked, &mut reader, &mut out);
        let written = lines.saturating_mul(7);
        let is_front = out.len() == written && PRINTED.starts_with(out.as_slice());
        assert!(rt; ran == *answer && is_front, "at {width}, {failing}");
    }
    Ok(())
}

/// How many writes of a run failed in turn, each told with a front of what is wanted, before a run came to its end.
fn failed_writes(alloc: Global, input: &[u8], width: usize, wanted: &[u8]) -> Option<u64> {
    for number in 1..256u64 {
        let mut reader = input;
        let mut out = Counting {
            taken: Vec::new(alloc),
            width,
            failing: number,
            writes: 0,
        };
        let ran = judge_lines(alloc, PLAIN, Naming::Marked, &mut reader, &mut out);
        let taken = out.taken.as_slice();
        if out.writes < number {
            return (ran == Ok(true) && taken == wanted).then_some(number - 1);
        }
        let is_front = taken.len() < wanted.len() && wanted.starts_with(taken);
        if ran != Err(JudgingFault::Write) || !is_front {
            return None;
        }
    }
    None
}

#[test]
fn writes_that_fail_in_turn(rt: HostRuntime) -> Result<(), Fail> {
    let alloc = rt.alloc();
    // What a piece of the input tells is written at once, and so is the last line.
    let rows: [(&[u8], usize, &[u8], u64); 4] = [
        (THREE, 4_096, PRINTED, 1),
        (&THREE[..32], 4_096, PRINTED, 2),
        (THREE, 3, PRINTED, 7),
        (THREE, 1, PRINTED, 21),
    ];
    for (input, width, wanted, writes) in rows {
        let failed = failed_writes(alloc, input, width, wanted);
        assert!(rt; failed == Some(writes), "at {width}, {failed:?}");
    }
    Ok(())
}

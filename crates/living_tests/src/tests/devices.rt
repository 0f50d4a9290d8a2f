//! Devices that fail: at the Nth read, write or flush, for each N until none is left.

use super::lines::{LIMITS, ROWS};
use std::alloc::Global;
use std::io;
use std::io::{ErrorKind, Read, Write};
use std::test::Fail;
use tcap_living::{Format, PlayFault, run_live};

/// A reader of so many octets a read, which may fail on the way.
#[derive(Drop)]
struct Pieces<'a> {
    rest: &'a [u8],
    width: usize,
    /// The number of the read that fails, from 1, or 0.
    failing: u64,
    reads: u64,
}

impl Read for Pieces<'_> {
    fn read(&mut self, buf: &mut [u8]) -> io::Result<usize> {
        self.reads = self.reads.saturating_add(1);
        if self.reads == self.failing {
            return Err(io::Error::from(ErrorKind::Other));
        }
        let count = buf.len().min(self.width).min(self.rest.len());
        let (given, rest) = self.rest.split_at(count);
        for (place, octet) in given.iter().enumerate() {
            buf[place] = *octet;
        }
        self.rest = rest;
        Ok(count)
    }
}

/// A writer of so many octets a write, which may fail at one of its writes or flushes.
#[derive(Drop)]
struct Failing {
    taken: Vec<u8>,
    width: usize,
    /// How much of it was flushed.
    flushed: usize,
    /// The number of the call that fails, from 1, or 0.
    failing: u64,
    calls: u64,
}

impl Failing {
    fn fails(&mut self) -> bool {
        self.calls = self.calls.saturating_add(1);
        self.calls == self.failing
    }
}

impl Write for Failing {
    fn write(&mut self, bytes: &[u8]) -> io::Result<usize> {
        if self.fails() {
            return Err(io::Error::from(ErrorKind::Other));
        }
        let count = bytes.len().min(self.width);
        if self.taken.extend_from_slice(&bytes[..count]).is_err() {
            return Err(io::Error::from(ErrorKind::OutOfMemory));
        }
        Ok(count)
    }

    fn flush(&mut self) -> io::Result<()> {
        if self.fails() {
            return Err(io::Error::from(ErrorKind::Other));
        }
        self.flushed = self.taken.len();
        Ok(())
    }
}

/// What a run with these failing calls came to, what it wrote, and how much of that was flushed.
fn ran(
    alloc: Global,
    lines: &str,
    width: usize,
    reads: u64,
    writes: u64,
) -> (Result<bool, PlayFault>, Failing) {
    let mut reader = Pieces {
        rest: lines.as_bytes(),
        width,
        failing: reads,
        reads: 0,
    };
    let mut out = Failing {
        taken: Vec::new(alloc),
        width,
        flushed: 0,
        failing: writes,
        calls: 0,
    };
    let came = run_live(alloc, Format::Words, LIMITS, 1, 1, &mut reader, &mut out);
    (came, out)
}

/// How much is printed for the lines that end in so many octets.
fn printed_by(lines: &str, wanted: &str, octets: usize) -> usize {
    let ended = lines.as_bytes()[..octets.min(lines.len())]
        .iter()
        .filter(|octet| **octet == b'\n')
        .count();
    let mut length = 0usize;
    for line in wanted.split('\n') {
        let number = line.split(' ').next().and_then(|n| n.parse::<usize>().ok());
        if number.is_some_and(|n| n <= ended) {
            length = length.saturating_add(line.len()).saturating_add(1);
        }
    }
    length
}

#[test]
fn reads_that_fail_in_turn(rt: HostRuntime) -> Result<(), Fail> {
    for (lines, wanted) in ROWS {
        for number in 1..=lines.len() {
            let (came, out) = ran(rt.alloc(), lines, 1, number as u64, 0);
            let written = printed_by(lines, wanted, number - 1);
            // All lines that ended were answered, and each answer was flushed.
            assert_eq!(rt; came, Err(PlayFault::Read));
            assert_eq!(rt;
                out.taken.as_slice(),
                &wanted.as_bytes()[..written.min(wanted.len())]
            );
            assert_eq!(rt; out.flushed, written);
        }
    }
    Ok(())
}

#[test]
fn writes_and_flushes_that_fail_in_turn(rt: HostRuntime) -> Result<(), Fail> {
    for (lines, wanted) in ROWS {
        let (_, whole) = ran(rt.alloc(), lines, 7, 0, 0);
        assert_eq!(rt; whole.taken.as_slice(), wanted.as_bytes());
        assert_eq!(rt; whole.flushed, wanted.len());
        for number in 1..=whole.calls {
            let (came, out) = ran(rt.alloc(), lines, 7, 0, number);
            assert_eq!(rt; came, Err(PlayFault::Write));
            assert!(rt; wanted.as_bytes().starts_with(out.taken.as_slice()));
            assert_eq!(rt; out.calls, number);
        }
    }
    Ok(())
}

//! Devices that fail: at the Nth read or write, for each N until none is left.

use super::growths::{PLAYED, SCRIPT};
use super::streams::Repeated;
use super::words::run;
use std::alloc::Global;
use std::io;
use std::io::{ErrorKind, Write};
use std::test::Fail;
use tcap_cmd::run_command;

/// A Begin.
const BEGIN: [u8; 8] = [0x62, 0x06, 0x48, 0x04, 0x00, 0x00, 0x00, 0x01];

/// What a stream of five of it prints.
const FIVE: &[u8] = b"good\ngood\ngood\ngood\ngood\n";

/// A writer that takes so many octets at a time, keeps how many stood written after each write, and fails at one.
#[derive(Drop)]
struct Counting {
    /// What it took.
    taken: Vec<u8>,
    /// How many octets it takes at a time.
    width: usize,
    /// The number of the write that fails, from 1, or 0.
    failing: u64,
    /// How many writes were made.
    writes: u64,
}

impl Counting {
    fn new(alloc: Global, width: usize, failing: u64) -> Counting {
        Counting {
            taken: Vec::new(alloc),
            width,
            failing,
            writes: 0,
        }
    }
}

impl Write for Counting {
    fn write(&mut self, bytes: &[u8]) -> io::Result<usize> {
        self.writes = self.writes.saturating_add(1);
        if self.writes == self.failing {
            return Err(io::Error::from(ErrorKind::Other));
        }
        let count = bytes.len().min(self.width);
        if self.taken.extend_from_slice(&bytes[..count]).is_err() {
            return Err(io::Error::from(ErrorKind::OutOfMemory));
        }
        Ok(count)
    }

    fn flush(&mut self) -> io::Result<()> {
        Ok(())
    }
}

/// Whether the read of this number failed in a run, and was told: then each read before it left so many octets written.
/// Nothing where the run came to anything else than this or its end.
fn is_read_failed(
    alloc: Global,
    words: &[&str],
    input: (&[u8], usize, usize),
    wanted: &[u8],
    step: u64,
    number: u64,
) -> Option<bool> {
    let (octets, left, width) = input;
    let mut reader = Repeated::new(octets, left, width, number);
    let ran = run(alloc, words, &mut reader);
    if reader.reads < number {
        ran.is(0, wanted, b"").then_some(false)
    } else {
        let written = step.saturating_mul(number.saturating_sub(1));
        let is_told = ran.is_part(written, wanted, b"tcap: read failed\n");
        is_told.then_some(true)
    }
}

/// How many reads of a run failed in turn, each told, before a run came to its end.
fn failed_reads(
    alloc: Global,
    words: &[&str],
    input: (&[u8], usize, usize),
    wanted: &[u8],
    step: u64,
) -> Option<u64> {
    for number in 1..256u64 {
        if !is_read_failed(alloc, words, input, wanted, step, number)? {
            return Some(number - 1);
        }
    }
    None
}

#[test]
fn reads_that_fail_in_turn(rt: HostRuntime) -> Result<(), Fail> {
    let alloc = rt.alloc();
    let rows: [(&[&str], (&[u8], usize, usize), &[u8], u64, u64); 3] = [
        // The words; the octets of the input, over and over, how many in all, how many a read; what is written, how
        // many octets of it for each read, and how many reads there are.
        (
            &["play"],
            (SCRIPT, SCRIPT.len(), 1),
            PLAYED,
            0,
            SCRIPT.len() as u64 + 1,
        ),
        (&["play"], (SCRIPT, SCRIPT.len(), 4_096), PLAYED, 0, 2),
        (&["stream"], (&BEGIN, 40, 8), FIVE, 5, 6),
    ];
    for (words, input, wanted, step, reads) in rows {
        let failed = failed_reads(alloc, words, input, wanted, step);
        assert!(rt; failed == Some(reads), "at {words:?}");
    }
    Ok(())
}

/// Whether these are so many writes, which took so many octets each at most, of the front of what is wanted.
fn is_front(out: &Counting, writes: u64, wanted: &[u8]) -> bool {
    let taken = out.taken.as_slice();
    let most = (out.width as u64).saturating_mul(writes.saturating_sub(1));
    out.writes == writes && taken.len() as u64 <= most && wanted.starts_with(taken)
}

/// Whether the write of this number failed in a run, and was told: then each write before it took so many octets, the
/// last of a text what was left of it. Nothing where the run came to anything else than this or its end.
fn is_write_failed(
    alloc: Global,
    words: &[&str],
    input: (&[u8], usize),
    width: usize,
    wanted: &[u8],
    number: u64,
) -> Option<bool> {
    let (octets, left) = input;
    let mut reader = Repeated::new(octets, left, 4_096, 0);
    let mut out = Counting::new(alloc, width, number);
    let mut err = Vec::new(alloc);
    let status = run_command(alloc, alloc, words, &mut reader, &mut out, &mut err);
    if out.writes < number {
        let is_whole = status == 0 && out.taken.as_slice() == wanted && err.is_empty();
        is_whole.then_some(false)
    } else {
        let is_told = status == 2 && err.as_slice() == b"tcap: write failed\n".as_slice();
        (is_told && is_front(&out, number, wanted)).then_some(true)
    }
}

/// How many writes of a run failed in turn, each told, before a run came to its end.
fn failed_writes(
    alloc: Global,
    words: &[&str],
    input: (&[u8], usize),
    width: usize,
    wanted: &[u8],
) -> Option<u64> {
    for number in 1..256u64 {
        if !is_write_failed(alloc, words, input, width, wanted, number)? {
            return Some(number - 1);
        }
    }
    None
}

#[test]
fn writes_that_fail_in_turn(rt: HostRuntime) -> Result<(), Fail> {
    let alloc = rt.alloc();
    let rows: [(&[&str], (&[u8], usize), usize, &[u8], u64); 6] = [
        // The words; the octets of the input, over and over, and how many in all; how many octets a write takes; what
        // is written, and by how many writes.
        (&["check", "6206480400000001"], (b"", 0), 99, b"good\n", 1),
        (&["check", "6206480400000001"], (b"", 0), 1, b"good\n", 5),
        (&["play"], (SCRIPT, SCRIPT.len()), 4_096, PLAYED, 1),
        (&["play"], (SCRIPT, SCRIPT.len()), 100, PLAYED, 6),
        // Each line of a stream is written by itself.
        (&["stream"], (&BEGIN, 40), 99, FIVE, 5),
        (&["stream"], (&BEGIN, 40), 3, FIVE, 10),
    ];
    for (words, input, width, wanted, writes) in rows {
        let failed = failed_writes(alloc, words, input, width, wanted);
        assert!(rt; failed == Some(writes), "at {words:?}, {width}");
    }
    Ok(())
}

#[test]
fn inputs_too_long(rt: HostRuntime) -> Result<(), Fail> {
    let alloc = rt.alloc();
    let rows: [(&[&str], &[u8], usize, usize, u64, usize); 3] = [
        // The words; the octets of the input, over and over, how many in all, how many a read; how many reads are made,
        // and how many octets are written.
        (&["play"], b"\n", usize::MAX, 1, 1_000_000, 0),
        (&["play"], b"\n", 1_048_577, 4_096, 257, 0),
        (
            &["stream"],
            &[0x62, 0x03, 0x48, 0x01, 0x07],
            usize::MAX,
            1,
            1_000_000,
            200_000 * FIVE.len() / 5,
        ),
    ];
    for (words, octets, left, width, reads, written) in rows {
        let mut reader = Repeated::new(octets, left, width, 0);
        let ran = run(alloc, words, &mut reader);
        let is_told = ran.is_refusal(written, b"tcap: input too long\n");
        assert!(rt; is_told && reader.reads == reads, "at {words:?}, {width}");
    }
    Ok(())
}

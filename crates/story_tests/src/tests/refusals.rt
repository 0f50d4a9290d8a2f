//! A run over two stories, one of them on standard input, in which memory is refused, a read fails or a write does: at
//! the Nth, for each N until none is left.

use refusing::Refusing;
use std::alloc::Global;
use std::io;
use std::io::{ErrorKind, Read, Write};
use std::test::Fail;
use tcap_story_cmd::{Sources, run_stories};

/// A story that fails, on standard input.
const STORY: &[u8] =
    b"A new\nexpect A new 2\nA cancel 1 1\nexpect A refused 5 no such invocation\n";

/// The report on it, and on one that passes.
const TOLD: &str =
    "story -\n1 A new 1\nline 2 failed: expected A new 2, found A new 1\n3 A refused 5 no such invocation\nfailed\nstory a<b\n1 A new 1\npassed\n1 passed, 1 failed, 0 not read\n";

/// The report on both where standard input can't be read.
const UNREAD: &str =
    "story -\nread failed\nnot read\nstory a<b\n1 A new 1\npassed\n1 passed, 0 failed, 1 not read\n";

/// The report on both in JUnit's XML, where standard input is read.
const MARKED: &str =
    "<?xml version=\"1.0\" encoding=\"UTF-8\"?>\n<testsuites>\n<testsuite name=\"-\" tests=\"1\" failures=\"1\" errors=\"0\">\n<testcase classname=\"tcap_story\" name=\"-\">\n<failure message=\"failed\">1 A new 1\nline 2 failed: expected A new 2, found A new 1\n3 A refused 5 no such invocation\n</failure>\n</testcase>\n</testsuite>\n<testsuite name=\"a&lt;b\" tests=\"1\" failures=\"0\" errors=\"0\">\n<testcase classname=\"tcap_story\" name=\"a&lt;b\">\n<system-out>1 A new 1\n</system-out>\n</testcase>\n</testsuite>\n</testsuites>\n";

/// An input of the name `a<b` that passes, and no other.
struct Passing;

impl Sources for Passing {
    type Source = Slow<'static>;

    ghost use Rattle.std.specs.Prelude.{None};

    ghost octets_of = { λ _ _. None };

    fn open(&self, name: &str) -> io::Result<Slow<'static>> {
        if name == "a<b" {
            return Ok(unfailing(b"A new\n"));
        }
        Err(io::Error::from(ErrorKind::NotFound))
    }
}

/// A reader that gives an octet a read, and fails at one.
#[derive(Drop)]
pub(super) struct Slow<'a> {
    octets: &'a [u8],
    reads: usize,
    failing: usize,
}

/// A reader that gives these octets, and doesn't fail.
pub(super) fn unfailing(octets: &[u8]) -> Slow<'_> {
    Slow {
        octets,
        reads: 0,
        failing: 0,
    }
}

impl Read for Slow<'_> {
    fn read(&mut self, buf: &mut [u8]) -> io::Result<usize> {
        self.reads = self.reads.saturating_add(1);
        if self.reads == self.failing {
            return Err(io::Error::from(ErrorKind::Other));
        }
        match (self.octets.split_first(), buf.first_mut()) {
            (Some((octet, rest)), Some(room)) => {
                *room = *octet;
                self.octets = rest;
                Ok(1)
            }
            _ => Ok(0),
        }
    }
}

/// A writer that takes an octet a write, and fails at one.
#[derive(Drop)]
struct Narrow {
    taken: Vec<u8>,
    failing: usize,
}

impl Write for Narrow {
    fn write(&mut self, bytes: &[u8]) -> io::Result<usize> {
        if self.taken.len() + 1 == self.failing {
            return Err(io::Error::from(ErrorKind::Other));
        }
        let count = bytes.len().min(1);
        if self.taken.extend_from_slice(&bytes[..count]).is_err() {
            return Err(io::Error::from(ErrorKind::OutOfMemory));
        }
        Ok(count)
    }

    fn flush(&mut self) -> io::Result<()> {
        Ok(())
    }
}

/// How many growths of a run were refused in turn, each told as such with status 2 and nothing written, before a run
/// wrote this with status 1.
fn refused_growths(alloc: Global, words: &[&str], told: &str) -> Option<u64> {
    let heap = Refusing::new(alloc);
    for number in 1..256u64 {
        heap.refuse(number);
        let mut out = Vec::new(alloc);
        let mut err = Vec::new(alloc);
        let status = run_stories(&heap, words, &Passing, &mut &*STORY, &mut out, &mut err);
        if heap.is_armed() {
            let whole = status == 1 && out.as_slice() == told.as_bytes() && err.is_empty();
            return whole.then_some(number - 1);
        }
        if status != 2
            || !out.is_empty()
            || err.as_slice() != b"tcap_story: out of memory\n".as_slice()
        {
            return None;
        }
    }
    None
}

#[test]
fn growths(rt: HostRuntime) -> Result<(), Fail> {
    let lines = refused_growths(rt.alloc(), &["-", "a<b"], TOLD);
    assert!(rt; matches!(lines, Some(12..)));
    let junit = refused_growths(rt.alloc(), &["--junit", "-", "a<b"], MARKED);
    assert!(rt; matches!(junit, Some(16..)));
    Ok(())
}

/// Whether a run gives this status, and writes this, where this read of standard input fails.
fn is_read_told(alloc: Global, failing: usize, status: u8, told: &str) -> bool {
    let mut reader = Slow {
        octets: STORY,
        reads: 0,
        failing,
    };
    let mut out = Vec::new(alloc);
    let mut err = Vec::new(alloc);
    let words = ["-", "a<b"];
    let answer = run_stories(alloc, &words, &Passing, &mut reader, &mut out, &mut err);
    answer == status && out.as_slice() == told.as_bytes() && err.is_empty()
}

#[test]
fn reads(rt: HostRuntime) -> Result<(), Fail> {
    for failing in 1..STORY.len() + 2 {
        assert!(rt; is_read_told(rt.alloc(), failing, 2, UNREAD));
    }
    assert!(rt; is_read_told(rt.alloc(), STORY.len() + 2, 1, TOLD));
    Ok(())
}

/// Whether a run tells that this write fails, with what stands before it written.
fn is_write_told(alloc: Global, failing: usize) -> bool {
    let mut out = Narrow {
        taken: Vec::new(alloc),
        failing,
    };
    let mut err = Vec::new(alloc);
    let words = ["-", "a<b"];
    let status = run_stories(alloc, &words, &Passing, &mut &*STORY, &mut out, &mut err);
    let taken = out.taken.as_slice();
    status == 2
        && err.as_slice() == b"tcap_story: write failed\n".as_slice()
        && TOLD.as_bytes().starts_with(taken)
        && taken.len().saturating_add(1) == failing
}

#[test]
fn writes(rt: HostRuntime) -> Result<(), Fail> {
    for failing in 1..TOLD.len() + 1 {
        assert!(rt; is_write_told(rt.alloc(), failing));
    }
    Ok(())
}

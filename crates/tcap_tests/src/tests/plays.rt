//! Scripts, by `run_play` and by the command.

use super::outputs::Narrow;
use super::words::{run, run_within};
use std::alloc::Global;
use std::io;
use std::io::{ErrorKind, Read};
use std::test::Fail;
use tcap_cmd::{PlayFault, run_play};

/// A reader of line feeds, which may fail on the way.
#[derive(Drop)]
struct LineFeeds {
    /// How many it still gives before its end.
    left: usize,
    /// How many it gives in a read.
    width: usize,
    /// The number of the read that fails, from 1, or 0.
    failing: u64,
    /// How it fails.
    kind: ErrorKind,
    /// How many reads were made.
    reads: u64,
}

impl LineFeeds {
    fn new(left: usize, width: usize, failing: u64, kind: ErrorKind) -> LineFeeds {
        LineFeeds {
            left,
            width,
            failing,
            kind,
            reads: 0,
        }
    }
}

impl Read for LineFeeds {
    fn read(&mut self, buf: &mut [u8]) -> io::Result<usize> {
        self.reads = self.reads.saturating_add(1);
        if self.reads == self.failing {
            return Err(io::Error::from(self.kind));
        }
        let count = buf.len().min(self.width).min(self.left);
        buf[..count].fill(b'\n');
        self.left -= count;
        Ok(count)
    }
}

/// Whether a play of these line feeds answers this, and makes so many reads.
fn is_read(
    alloc: Global,
    mut reader: LineFeeds,
    answer: Result<bool, PlayFault>,
    reads: u64,
) -> bool {
    // No line asks for anything, so nothing is written, and this writer isn't called.
    let mut out = Narrow::new(alloc, 0);
    run_play(alloc, &mut reader, &mut out) == answer && reader.reads == reads
}

#[test]
fn reads_of_a_play(rt: HostRuntime) -> Result<(), Fail> {
    let other = ErrorKind::Other;
    let rows = [
        // How many line feeds, how many a read, the read that fails and how; the answer, the reads made.
        (0, 1, 0, other, Ok(true), 1),
        (3, 1, 0, other, Ok(true), 4),
        (3, 1, 1, other, Err(PlayFault::Read), 1),
        (3, 1, 4, other, Err(PlayFault::Read), 4),
        (3, 1, 2, ErrorKind::Interrupted, Err(PlayFault::Read), 2),
        // Each read asks for 4,096 octets.
        (1_048_576, 5_000, 0, other, Ok(true), 257),
        (1_048_576, 5_000, 257, other, Err(PlayFault::Read), 257),
        (1_048_577, 5_000, 0, other, Err(PlayFault::TooLong), 257),
        (1_048_577, 5_000, 258, other, Err(PlayFault::TooLong), 257),
        // The read that finds the end counts.
        (999_999, 1, 0, other, Ok(true), 1_000_000),
        (1_000_000, 1, 0, other, Err(PlayFault::TooLong), 1_000_000),
        (usize::MAX, 1, 0, other, Err(PlayFault::TooLong), 1_000_000),
    ];
    for (left, width, failing, kind, answer, reads) in rows {
        let reader = LineFeeds::new(left, width, failing, kind);
        assert!(rt;
            is_read(rt.alloc(), reader, answer, reads),
            "at {left}, {width}, {failing}"
        );
    }
    Ok(())
}

/// The example "Idle limit played".
pub(super) const IDLE_SCRIPT: &str = "idle 500\nA new\nA begin 1 - -\nadvance 500\n";

/// What it prints.
pub(super) const IDLE_TEXT: &str = "A new 1\nA send A1 6206480400000001\nA pabort 1 idle\n";

/// The limit is the other engine's too, and begins one millisecond later there.
const IDLE_FAR_SCRIPT: &str =
    "\n# both\nidle 7\nadvance 1\nB new\nB begin 1 - -\nadvance 7\nadvance 8\n";

const IDLE_FAR_TEXT: &str = "B new 1\nB send B1 6206480400000001\nB pabort 1 idle\n";

/// Without a limit a dialogue stands to the last moment that there is.
const UNLIMITED_SCRIPT: &str =
    "A new\nA begin 1 - -\nadvance 4611686018427387904\nA prearranged 1\n";

const UNLIMITED_TEXT: &str = "A new 1\nA send A1 6206480400000001\n";

/// What is told of an output that takes no more.
const FAILED: &str = "tcap: write failed\n";

/// Scripts, the octets that the output takes, the status, what is written, and what is told.
const PLAYS: &[(&str, usize, u8, &str, &str)] = &[
    ("A new\n", 99, 0, "A new 1\n", ""),
    ("A new", 99, 0, "A new 1\n", ""),
    ("# two\n\nB new\nA new\n", 99, 0, "B new 1\nA new 1\n", ""),
    ("A new\nA knew\nB new\n", 99, 1, "A new 1\nline 2 bad\n", ""),
    ("A new\n", 3, 2, "A n", FAILED),
    ("A knew\n", 0, 2, "", FAILED),
    ("\n# none\n", 0, 0, "", ""),
    // An idle limit, in the first line that isn't skipped, and nowhere else.
    (IDLE_SCRIPT, 99, 0, IDLE_TEXT, ""),
    ("idle 500\n", 0, 0, "", ""),
    ("idle 0", 0, 0, "", ""),
    ("idle 4611686018427387904\n", 0, 0, "", ""),
    ("idle 4611686018427387905\n", 99, 1, "line 1 bad\n", ""),
    ("idle 01\n", 99, 1, "line 1 bad\n", ""),
    ("idle\n", 99, 1, "line 1 bad\n", ""),
    ("idle 1 1\n", 99, 1, "line 1 bad\n", ""),
    ("# x\n\nidle 1\nidle 1\n", 99, 1, "line 4 bad\n", ""),
    ("A new\nidle 1\n", 99, 1, "A new 1\nline 2 bad\n", ""),
    (IDLE_FAR_SCRIPT, 99, 0, IDLE_FAR_TEXT, ""),
    (UNLIMITED_SCRIPT, 99, 0, UNLIMITED_TEXT, ""),
];

/// Whether the play of a script, with an output that takes so many octets, comes to this.
fn is_played(
    alloc: Global,
    script: &str,
    room: usize,
    status: u8,
    written: &str,
    told: &str,
) -> bool {
    let mut input = script.as_bytes();
    let ran = run_within(alloc, &["play"], &mut input, room);
    ran.is(status, written.as_bytes(), told.as_bytes())
}

#[test]
fn plays_of_the_command(rt: HostRuntime) -> Result<(), Fail> {
    for (script, room, status, written, told) in PLAYS {
        assert!(rt;
            is_played(rt.alloc(), script, *room, *status, written, told),
            "at {script}"
        );
    }
    Ok(())
}

#[test]
fn inputs_of_the_command(rt: HostRuntime) -> Result<(), Fail> {
    let alloc = rt.alloc();
    let rows: [(&[&str], usize, u64, u8, &str, &str, u64); 5] = [
        // The words, how many line feeds, the read that fails; the status, what is written and told, the reads made.
        (&["play"], 3, 1, 2, "", "tcap: read failed\n", 1),
        (
            &["play"],
            1_048_577,
            0,
            2,
            "",
            "tcap: input too long\n",
            257,
        ),
        (&["play"], 3, 0, 0, "", "", 2),
        (&["play", "62"], 3, 1, 2, "", "tcap: bad command\n", 0),
        (&["check", "6206480400000001"], 3, 1, 0, "good\n", "", 0),
    ];
    for (words, left, failing, status, written, told, reads) in rows {
        let mut reader = LineFeeds::new(left, 5_000, failing, ErrorKind::Other);
        let ran = run(alloc, words, &mut reader);
        assert!(rt;
            ran.is(status, written.as_bytes(), told.as_bytes()) && reader.reads == reads,
            "at {words:?}"
        );
    }
    Ok(())
}

#[test]
fn texts_of_the_faults(rt: HostRuntime) -> Result<(), Fail> {
    let rows = [
        (PlayFault::OutOfMemory, "out of memory"),
        (PlayFault::Read, "read failed"),
        (PlayFault::Write, "write failed"),
        (PlayFault::TooLong, "input too long"),
    ];
    for (fault, text) in rows {
        let shown = format!(in rt.alloc(); "{}", fault)?;
        assert!(rt; shown.as_str() == text, "{text}");
    }
    Ok(())
}

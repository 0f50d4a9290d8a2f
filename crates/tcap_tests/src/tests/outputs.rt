//! Outputs that are interrupted, closed, or full in the middle of a text.

use super::words::run_within;
use std::alloc::Global;
use std::io;
use std::io::{ErrorKind, Write};
use std::test::Fail;
use tcap_cmd::run_command;

/// A writer that takes two octets at a time and is interrupted before each, until its room is used up.
#[derive(Drop)]
pub(super) struct Narrow {
    /// What it took.
    pub(super) taken: Vec<u8>,
    /// How many octets it still takes.
    room: usize,
    /// Whether the next write is interrupted.
    interrupted: bool,
}

impl Narrow {
    pub(super) fn new(alloc: Global, room: usize) -> Narrow {
        Narrow {
            taken: Vec::new(alloc),
            room,
            interrupted: true,
        }
    }

    /// What it took.
    pub(super) fn into_taken(self) -> Vec<u8> {
        self.taken
    }
}

impl Write for Narrow {
    fn write(&mut self, bytes: &[u8]) -> io::Result<usize> {
        self.interrupted = !self.interrupted;
        if !self.interrupted {
            return Err(io::Error::from(ErrorKind::Interrupted));
        }
        if self.room == 0 {
            return Err(io::Error::from(ErrorKind::BrokenPipe));
        }
        let count = bytes.len().min(self.room).min(2);
        if self.taken.extend_from_slice(&bytes[..count]).is_err() {
            return Err(io::Error::from(ErrorKind::OutOfMemory));
        }
        self.room -= count;
        Ok(count)
    }

    fn flush(&mut self) -> io::Result<()> {
        Ok(())
    }
}

#[test]
fn closed_outputs(rt: HostRuntime) -> Result<(), Fail> {
    let alloc = rt.alloc();
    let failed = "tcap: write failed\n";
    let rows = [
        // The octets that the output takes, the words, the status, what is written, and what is told.
        (0, ["check", "6203480107"], 2, "", failed),
        (3, ["check", "6203480107"], 2, "goo", failed),
        (4, ["check", "6203480107"], 2, "good", failed),
        (5, ["check", "6203480107"], 0, "good\n", ""),
        (7, ["check", "6206"], 2, "fault b", failed),
        (99, ["check", "6206"], 1, "fault badly formatted\n", ""),
        (0, ["show", "6x"], 2, "", "tcap: bad hex\n"),
    ];
    for (room, words, status, written, told) in rows {
        let mut input: &[u8] = &[];
        let ran = run_within(alloc, &words, &mut input, room);
        assert!(rt;
            ran.is(status, written.as_bytes(), told.as_bytes()),
            "at {room}, {words:?}"
        );
    }
    Ok(())
}

/// The status of a run whose words are bad, where nothing is written and its line on standard error is refused.
fn untold_status(alloc: Global) -> Option<u8> {
    let mut input: &[u8] = &[];
    let mut out = Vec::new(alloc);
    let mut err = Narrow::new(alloc, 0);
    let status = run_command(alloc, alloc, &["show"], &mut input, &mut out, &mut err);
    out.is_empty().then_some(status)
}

#[test]
fn closed_error_output(rt: HostRuntime) -> Result<(), Fail> {
    assert!(rt; untold_status(rt.alloc()) == Some(2));
    Ok(())
}

//! The words of the command, its status and its lines.

use super::outputs::Narrow;
use std::alloc::Global;
use std::io::Read;
use std::test::Fail;
use tcap_cmd::run_command;

/// What a run of the command came to: its status, what it wrote, and what it told on standard error.
#[derive(Drop)]
pub(super) struct Ran {
    status: u8,
    written: Vec<u8>,
    told: Vec<u8>,
}

impl Ran {
    /// Whether it came to this.
    pub(super) fn is(&self, status: u8, written: &[u8], told: &[u8]) -> bool {
        self.status == status && self.written.as_slice() == written && self.told.as_slice() == told
    }

    /// Whether it gave up with this line, after it had written so many octets of what is wanted.
    pub(super) fn is_part(&self, written: u64, wanted: &[u8], told: &[u8]) -> bool {
        self.status == 2
            && self.written.len() as u64 == written
            && wanted.starts_with(self.written.as_slice())
            && self.told.as_slice() == told
    }

    /// Whether it gave up with this line, after it had written so many octets.
    pub(super) fn is_refusal(&self, written: usize, told: &[u8]) -> bool {
        self.status == 2 && self.written.len() == written && self.told.as_slice() == told
    }
}

/// Runs the command over an input, with an output that takes so many octets, two at a time.
pub(super) fn run_within<R: Read>(
    alloc: Global,
    words: &[&str],
    input: &mut R,
    room: usize,
) -> Ran {
    let mut out = Narrow::new(alloc, room);
    let mut told = Vec::new(alloc);
    let status = run_command(alloc, alloc, words, input, &mut out, &mut told);
    Ran {
        status,
        written: out.into_taken(),
        told,
    }
}

/// Runs the command over an input.
pub(super) fn run<R: Read>(alloc: Global, words: &[&str], input: &mut R) -> Ran {
    let mut written = Vec::new(alloc);
    let mut told = Vec::new(alloc);
    let status = run_command(alloc, alloc, words, input, &mut written, &mut told);
    Ran {
        status,
        written,
        told,
    }
}

const SHOWN: &str = "begin\n  otid 00000001\n";

const REWRITTEN: &str = "6206480400000001\n";

const NO_DIALOGUE: &str = "fault dialogue\n";

const BAD_HEX: &str = "tcap: bad hex\n";

const BAD_COMMAND: &str = "tcap: bad command\n";

/// The words, the status, what is written, and what is told.
const RUNS: &[(&[&str], u8, &str, &str)] = &[
    (&["check", "62084804000000016C00"], 0, "good\n", ""),
    (&["canon", "62084804000000016C00"], 0, REWRITTEN, ""),
    (&["check", "62084804000000016B00"], 1, NO_DIALOGUE, ""),
    (&["show", "6206480400000001"], 0, SHOWN, ""),
    (&["show", "6206480400000001", "--"], 0, SHOWN, ""),
    (&["show", "--", "00"], 1, "fault badly formatted\n", ""),
    (&["show", ""], 1, "fault badly formatted\n", ""),
    (&["show", "621"], 2, "", BAD_HEX),
    (&["show", "6x"], 2, "", BAD_HEX),
    (&["show", "62 06"], 2, "", BAD_HEX),
    (&["show", "-"], 2, "", BAD_HEX),
    (&["show", "--", "-1"], 2, "", BAD_HEX),
    (&[], 2, "", BAD_COMMAND),
    (&["list", "00"], 2, "", BAD_COMMAND),
    (&["show"], 2, "", BAD_COMMAND),
    (&["show", "00", "00"], 2, "", BAD_COMMAND),
    (&["show", "-1"], 2, "", BAD_COMMAND),
    (&["show", "--help"], 2, "", BAD_COMMAND),
];

/// Whether the command comes to this without an input.
fn is_run(alloc: Global, words: &[&str], status: u8, written: &str, told: &str) -> bool {
    let mut input: &[u8] = &[];
    let ran = run(alloc, words, &mut input);
    ran.is(status, written.as_bytes(), told.as_bytes())
}

#[test]
fn words_of_the_command(rt: HostRuntime) -> Result<(), Fail> {
    for (words, status, written, told) in RUNS {
        assert!(rt;
            is_run(rt.alloc(), words, *status, written, told),
            "at {words:?}"
        );
    }
    Ok(())
}

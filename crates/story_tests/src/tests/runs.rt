//! Runs of the program `tcap_story`, what each writes and its status. The texts were written from docs/FORMATS.md.

use super::refusals::{Slow, unfailing};
use std::alloc::Global;
use std::io;
use std::io::ErrorKind;
use std::test::Fail;
use tcap_story_cmd::{Sources, run_stories};

/// Inputs by their names.
const INPUTS: &[(&str, &str)] = &[
    ("good", "A new\nexpect A new 1\n"),
    ("bad", "A new\nexpect nothing\n"),
    ("empty", ""),
    ("refused", "A new\nA invoke 1 1 1 10 0 - -\n"),
    ("two\nlines\u{7}", "A new\n"),
    ("-x", "A new\n"),
    ("--junit", "A new\n"),
];

/// They, and no other.
struct Inputs;

impl Sources for Inputs {
    type Source = Slow<'static>;

    ghost use Rattle.std.specs.Prelude.{None};

    ghost octets_of = { λ _ _. None };

    fn open(&self, name: &str) -> io::Result<Slow<'static>> {
        for (other, octets) in INPUTS {
            if *other == name {
                return Ok(unfailing(octets.as_bytes()));
            }
        }
        Err(io::Error::from(ErrorKind::NotFound))
    }
}

/// Words, what a run writes for them, what it tells on standard error, and its status. Standard input has `A new`.
const ROWS: &[(&[&str], &str, &str, u8)] = &[
    // Standard input, where no other is named, and by its name; it is read once, and has no line then.
    (
        &[],
        "story -\n1 A new 1\npassed\n1 passed, 0 failed, 0 not read\n",
        "",
        0,
    ),
    (
        &["-", "-"],
        "story -\n1 A new 1\npassed\nstory -\nno line to play\nfailed\n1 passed, 1 failed, 0 not read\n",
        "",
        1,
    ),
    // A file with nothing in it, between two that pass.
    (
        &["good", "empty", "good"],
        "story good\n1 A new 1\npassed\nstory empty\nno line to play\nfailed\nstory good\n1 A new 1\npassed\n2 passed, 1 failed, 0 not read\n",
        "",
        1,
    ),
    // In the order of the words; one that fails, and one that can't be opened, and those behind it.
    (
        &["bad", "good"],
        "story bad\n1 A new 1\nline 2 failed: expected nothing, found A new 1\nfailed\nstory good\n1 A new 1\npassed\n1 passed, 1 failed, 0 not read\n",
        "",
        1,
    ),
    (
        &["bad", "none", "good"],
        "story bad\n1 A new 1\nline 2 failed: expected nothing, found A new 1\nfailed\nstory none\ncan't be opened\nnot read\nstory good\n1 A new 1\npassed\n1 passed, 1 failed, 1 not read\n",
        "",
        2,
    ),
    // A refusal that no line expects.
    (
        &["refused"],
        "story refused\n1 A new 1\n2 A refused 6 bad timeout\nline 2 failed: expected nothing, found A refused 6 bad timeout\nfailed\n0 passed, 1 failed, 0 not read\n",
        "",
        1,
    ),
    // In JUnit's XML, which is whole though one can't be opened.
    (
        &["--junit", "none", "good"],
        "<?xml version=\"1.0\" encoding=\"UTF-8\"?>\n<testsuites>\n<testsuite name=\"none\" tests=\"1\" failures=\"0\" errors=\"1\">\n<testcase classname=\"tcap_story\" name=\"none\">\n<error message=\"not read\">can't be opened\n</error>\n</testcase>\n</testsuite>\n<testsuite name=\"good\" tests=\"1\" failures=\"0\" errors=\"0\">\n<testcase classname=\"tcap_story\" name=\"good\">\n<system-out>1 A new 1\n</system-out>\n</testcase>\n</testsuite>\n</testsuites>\n",
        "",
        2,
    ),
    // A name with control characters.
    (
        &["two\nlines\u{7}"],
        "story two?lines?\n1 A new 1\npassed\n1 passed, 0 failed, 0 not read\n",
        "",
        0,
    ),
    // Options, and names like them.
    (&["--version"], "tcap_story 0.1.0\n", "", 0),
    (&["--junit", "--version", "-x"], "tcap_story 0.1.0\n", "", 0),
    (
        &["--", "-x", "--junit"],
        "story -x\n1 A new 1\npassed\nstory --junit\n1 A new 1\npassed\n2 passed, 0 failed, 0 not read\n",
        "",
        0,
    ),
    (
        &["-x"],
        "",
        "tcap_story: bad command; --help tells the options\n",
        2,
    ),
    (
        &["good", "--junit"],
        "",
        "tcap_story: bad command; --help tells the options\n",
        2,
    ),
];

/// Whether a run for these words writes this, tells this on standard error, and has this status.
fn is_told(alloc: Global, words: &[&str], told: &str, why: &str, status: u8) -> bool {
    let mut reader: &[u8] = b"A new\n";
    let mut out = Vec::new(alloc);
    let mut err = Vec::new(alloc);
    let answer = run_stories(alloc, words, &Inputs, &mut reader, &mut out, &mut err);
    answer == status && out.as_slice() == told.as_bytes() && err.as_slice() == why.as_bytes()
}

#[test]
fn runs(rt: HostRuntime) -> Result<(), Fail> {
    for (words, told, why, status) in ROWS {
        assert!(rt; is_told(rt.alloc(), words, told, why, *status), "{words:?}");
    }
    Ok(())
}

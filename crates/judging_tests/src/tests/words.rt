//! The words of the command, its status, and what it tells.

use std::alloc::Global;
use std::test::Fail;
use tcap_judging::{Form, Layout, Named, names_file, read_names, run_judge};

/// What a run of the command came to: its status, what it wrote, and what it told on standard error.
#[derive(Drop)]
pub(super) struct Ran {
    status: u8,
    written: Vec<u8>,
    told: Vec<u8>,
}

impl Ran {
    /// Whether it came to this.
    pub(super) fn is(&self, status: u8, written: &[u8], told: &[u8]) -> bool {
        self.status == status && self.written.as_slice() == written && self.told.as_slice() == told
    }

    /// Whether it came to this status, told nothing, and what it wrote begins so.
    pub(super) fn begins(&self, status: u8, front: &[u8]) -> bool {
        self.status == status && self.written.starts_with(front) && self.told.is_empty()
    }
}

/// How a run prints lines alone.
pub(super) const PLAIN: Form<'static> = Form {
    layout: Layout::Plain,
    names: None,
};

/// Runs the command over an input.
pub(super) fn run(alloc: Global, words: &[&str], input: &[u8]) -> Ran {
    run_named(alloc, words, None, input)
}

/// Runs the command by a list of names.
fn run_named(alloc: Global, words: &[&str], names: Option<&[Named<'_>]>, input: &[u8]) -> Ran {
    let mut reader = input;
    let mut written = Vec::new(alloc);
    let mut told = Vec::new(alloc);
    let status = run_judge(
        alloc,
        alloc,
        words,
        names,
        &mut reader,
        &mut written,
        &mut told,
    );
    Ran {
        status,
        written,
        told,
    }
}

/// What is told of words that are none of the command's.
const BAD: &str = "tcap_judge: bad command, --help lists the options\n";

/// The words, the status, the front of what is written, and what is told.
const ROWS: &[(&[&str], u8, &str, &str)] = &[
    (&[], 0, "1 good\n", ""),
    (&["--stream"], 1, "", ""),
    (
        &["--json"],
        0,
        "{\"line\":1,\"verdict\":\"good\",\"good\":true}\n",
        "",
    ),
    (&["--explain"], 0, "1 good\n", ""),
    (
        &["--stream", "--json"],
        1,
        "{\"offset\":0,\"verdict\":\"fault ",
        "",
    ),
    (&["--version"], 0, "tcap_judge ", ""),
    (&["--help"], 0, "Usage: tcap_judge ", ""),
    (&["--help", "--version"], 0, "Usage: tcap_judge ", ""),
    (&["--hexadecimal"], 2, "", BAD),
    (&["lines"], 2, "", BAD),
    (&["--version", "--version"], 2, "", BAD),
    (&["-x"], 2, "", BAD),
    (&["--names"], 2, "", BAD),
    (
        &["--names", "list", "--json"],
        0,
        "{\"line\":1,\"verdict\":\"good\",\"good\":true}\n",
        "",
    ),
    (
        &["--named"],
        1,
        "line 1 bad: no hexadecimal digits behind the name\n",
        "",
    ),
    (&["--named", "--stream"], 2, "", BAD),
    (&["--resync", "--named"], 2, "", BAD),
    (
        &["--named", "--stream", "--help"],
        0,
        "Usage: tcap_judge ",
        "",
    ),
];

#[test]
fn words_of_the_command(rt: HostRuntime) -> Result<(), Fail> {
    let alloc = rt.alloc();
    for (words, status, front, told) in ROWS {
        let ran = run(alloc, words, b"6203480107\n");
        let is_so = if *status < 2 {
            ran.begins(*status, front.as_bytes())
        } else {
            ran.is(*status, front.as_bytes(), told.as_bytes())
        };
        assert!(rt; is_so, "at {words:?}");
    }
    Ok(())
}

/// The input, the status, and what is written.
const INPUTS: &[(&str, u8, &str)] = &[
    ("", 0, ""),
    ("\n\n \t\r\n", 0, ""),
    ("m 6203480107", 0, "m good\n"),
    ("m 6203480107\n\nn 6203480107\n", 0, "m good\nn good\n"),
    (
        "\n62034801\r\n",
        1,
        "2 fault badly formatted place 4 element 0: expected 1 more octet, found the end\n",
    ),
    (
        "6203480107\nx\n",
        1,
        "1 good\nline 2 bad: no hexadecimal digits behind the name\n",
    ),
    // Colons alone are no name.
    (":\n", 1, "line 1 bad: no hexadecimal digits\n"),
    (
        "m ::\n",
        1,
        "line 1 bad: no hexadecimal digits behind the name\n",
    ),
];

#[test]
fn lines_of_an_input(rt: HostRuntime) -> Result<(), Fail> {
    let alloc = rt.alloc();
    for (input, status, written) in INPUTS {
        let ran = run(alloc, &[], input.as_bytes());
        assert!(rt; ran.is(*status, written.as_bytes(), b""), "at {input:?}");
    }
    Ok(())
}

/// Lines of which each first word is a name, and what is written.
const NAMED_LINES: &[(&str, u8, &str)] = &[
    ("12\t6203480107\n", 0, "12 good\n"),
    // A colon at its end is no part of it.
    ("ab: 62:03:48:01:07\nm 6203480107\n", 0, "ab good\nm good\n"),
    (": 6203480107\n", 0, ": good\n"),
    (
        "12 62034801\n",
        1,
        "12 fault badly formatted place 4 element 0: expected 1 more octet, found the end\n",
    ),
    (
        "6203480107\n\n62 x\n",
        1,
        "line 1 bad: no hexadecimal digits behind the name\nline 3 bad: column 4: expected a hexadecimal digit, found 0x78\n",
    ),
];

#[test]
fn lines_with_names(rt: HostRuntime) -> Result<(), Fail> {
    let alloc = rt.alloc();
    for (input, status, written) in NAMED_LINES {
        let ran = run(alloc, &["--named"], input.as_bytes());
        assert!(rt; ran.is(*status, written.as_bytes(), b""), "at {input:?}");
    }
    Ok(())
}

/// Words, and the file of names that they tell.
const FILES: &[(&[&str], Option<&str>)] = &[
    (&[], None),
    (&["--stream"], None),
    (&["--names", "list"], Some("list")),
    (&["--names=list", "--stream"], Some("list")),
    (&["--names", "list", "--json"], Some("list")),
    (&["--names", "list", "--help"], None),
    (&["--version", "--names", "list"], None),
];

#[test]
fn files_of_names(rt: HostRuntime) -> Result<(), Fail> {
    for (words, wanted) in FILES {
        let is_so = match names_file(rt.alloc(), words) {
            Ok(file) => file == *wanted,
            Err(_) => false,
        };
        assert!(rt; is_so, "at {words:?}");
    }
    assert!(rt; names_file(rt.alloc(), &["--names", "list", "--named", "--resync"]).is_err());
    Ok(())
}

/// Messages: a Begin with an Invoke of operation 2, one that breaks off, and one with a faulty component behind the Invoke.
const NAMING: &str =
    "m: 620d4801076c08a106020101020102\n620348\nn: 620f4801076c0aa1060201010201020400\n";

/// What is written of them by a list that has the operation.
const NAMED: &str =
    "m good; invoke 1 updateLocation\n2 fault badly formatted place 3 element 0: expected 2 more octets, found the end\nn fault component 2 place 15 element 15: expected a component 0xa1, 0xa2, 0xa3, 0xa4 or 0xa7, found 0x04; invoke 1 updateLocation\n";

/// Whether a run by this list writes this.
fn is_named(alloc: Global, words: &[&str], list: &str, written: &str) -> bool {
    let Ok(names) = read_names(alloc, list.as_bytes()) else {
        return false;
    };
    let ran = run_named(alloc, words, Some(names.as_slice()), NAMING.as_bytes());
    ran.is(1, written.as_bytes(), b"")
}

/// What is written of them in JSON.
const NAMED_OBJECTS: &str =
    "{\"name\":\"m\",\"verdict\":\"good\",\"good\":true,\"components\":[{\"kind\":\"invoke\",\"id\":1,\"operation\":\"updateLocation\"}]}\n{\"line\":2,\"verdict\":\"fault badly formatted\",\"good\":false,\"place\":3,\"element\":0,\"expected\":\"2 more octets\",\"found\":\"the end\"}\n{\"name\":\"n\",\"verdict\":\"fault component 2\",\"good\":false,\"place\":15,\"element\":15,\"expected\":\"a component 0xa1, 0xa2, 0xa3, 0xa4 or 0xa7\",\"found\":\"0x04\",\"components\":[{\"kind\":\"invoke\",\"id\":1,\"operation\":\"updateLocation\"}]}\n";

#[test]
fn names_behind_verdicts(rt: HostRuntime) -> Result<(), Fail> {
    let alloc = rt.alloc();
    let list = "operation 2 updateLocation\n";
    assert!(rt; is_named(alloc, &["--names", "list"], list, NAMED));
    assert!(rt; is_named(alloc, &["--names", "list", "--json"], list, NAMED_OBJECTS));
    Ok(())
}

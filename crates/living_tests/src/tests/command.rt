//! The command: its options, its status, and the line on standard error.

use std::alloc::Global;
use std::test::Fail;
use tcap_live_cmd::run_command;

/// The status of a run, what it wrote, and what it told.
fn ran(alloc: Global, words: &[&str], lines: &str) -> (u8, Vec<u8>, Vec<u8>) {
    let mut reader = lines.as_bytes();
    let mut out = Vec::new(alloc);
    let mut err = Vec::new(alloc);
    let status = run_command(alloc, alloc, words, &mut reader, &mut out, &mut err);
    (status, out, err)
}

/// What is told of a bad command.
const BAD: &str = "tcap_live: bad command; --help tells the options\n";

/// The words, the lines, the status, what is written, and what is told.
const RUNS: &[(&[&str], &str, u8, &str, &str)] = &[
    (&[], "new", 0, "1 new 1\n", ""),
    (
        &[],
        "new 1\nnew",
        1,
        "1 bad word 2, nothing more\n2 new 1\n",
        "",
    ),
    (
        &["--first-dialogue", "4294967294"],
        "new\nnew",
        0,
        "1 new 4294967294\n2 refused 9 dialogue ids spent\n",
        "",
    ),
    (
        &["--first-number=18446744073709551614"],
        "new\ninvoke 1 1 1 1 1 - -\ninvoke 1 2 1 1 1 - -",
        0,
        "1 new 1\n2 number 18446744073709551614\n3 refused 10 numbers spent\n",
        "",
    ),
    (
        &["--dialogues", "1"],
        "new\nnew",
        0,
        "1 new 1\n2 refused 8 dialogues full\n",
        "",
    ),
    (
        &["--idle", "5"],
        "new\nbegin 1 - - -\ntimer",
        0,
        "1 new 1\n2 send - 6206480400000001\n2 done\n3 timer 5\n",
        "",
    ),
    (
        &["--json", "--first-dialogue", "7"],
        "new\nnwe",
        1,
        "{\"line\":1,\"last\":\"new\",\"dialogue\":7}\n{\"line\":2,\"last\":\"bad\",\"word\":1,\"why\":\"word 1, one of new invoke last more error reject cancel begin uni continue end prearranged abort receive advance timer state\"}\n",
        "",
    ),
    (&["--json=1"], "", 2, "", BAD),
    (&["--dialogues", "0"], "", 2, "", BAD),
    (&["--dialogues", "65536"], "", 2, "", BAD),
    (&["--reject", "4611686018427387905"], "", 2, "", BAD),
    (&["--idle", "05"], "", 2, "", BAD),
    (&["--first-dialogue", "4294967296"], "", 2, "", BAD),
    (&["--idel", "5"], "", 2, "", BAD),
    (&["new"], "", 2, "", BAD),
    (&["--version"], "new", 0, "tcap_live 0.1.0\n", ""),
];

#[test]
fn options_and_status(rt: HostRuntime) -> Result<(), Fail> {
    for (words, lines, status, wanted, told) in RUNS {
        let (came, out, err) = ran(rt.alloc(), words, lines);
        assert_eq!(rt; came, *status);
        assert!(rt; out.as_slice() == wanted.as_bytes(), "at {words:?}");
        assert_eq!(rt; err.as_slice(), told.as_bytes());
    }
    Ok(())
}

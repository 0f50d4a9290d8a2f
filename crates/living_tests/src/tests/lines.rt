//! Lines, and what is printed for them.

use std::alloc::Allocator;
use std::test::Fail;
use tcap_living::{Format, Limits, PlayFault, run_live};

/// The limits of a play.
pub(super) const LIMITS: Limits = Limits {
    max_dialogues: 16,
    reject_ms: 1_000,
    idle_ms: 0,
};

/// Lines of one side, and what they print.
pub(super) const ROWS: &[(&str, &str)] = &[
    // Each dialogue and each invocation has a number; the address and the octets of what is sent.
    (
        "new\ninvoke 1 1 1 10 1000 - -\nbegin 1 42 - -\n",
        "1 new 1\n2 number 1\n3 send 42 62104804000000016c08a10602010102010a\n3 done\n",
    ),
    // A context in dotted form and in hexadecimal.
    (
        "new\nbegin 1 - 0.4.0.0.1.0.1.3 -\nnew\nbegin 2 - 04000001000103 -",
        "1 new 1\n2 send - 62264804000000016b1e281c060700118605010101a011600f80020780a109060704000001000103\n2 done\n3 new 2\n4 send - 62264804000000026b1e281c060700118605010101a011600f80020780a109060704000001000103\n4 done\n",
    ),
    // Skipped lines are counted; an answer without outputs has its last line.
    ("# one\n\nadvance 5\n", "3 done\n"),
    // What is received is told, an answer goes to its address.
    (
        "receive 4142 6206480400000001\nstate 1\nend 1 - -\nstate 1\n",
        "1 begin 1 context - info -\n1 done\n2 state received\n3 send 4142 6406490400000001\n3 done\n4 state -\n",
    ),
    // To a moment, not by so many.
    (
        "new\ninvoke 1 1 1 10 1000 - -\nbegin 1 42 - -\nadvance 400\ntimer\nadvance 400\nadvance 1000\ntimer\n",
        "1 new 1\n2 number 1\n3 send 42 62104804000000016c08a10602010102010a\n3 done\n4 done\n5 timer 1000\n6 done\n7 lapsed 1 id 1 number 1\n7 done\n8 timer -\n",
    ),
    // A refusal by number and name; a bad line, and the engine goes on as it was.
    (
        "cancel 1 1\nnew 1\nnew\ninvoke 1 1 1 10 0 - -\ninvoke 1 1 1 10 1 - AA\nstate 1\n",
        "1 refused 2 unknown dialogue\n2 bad word 2, nothing more\n3 new 1\n4 refused 6 bad timeout\n5 refused 12 bad parameter\n6 state fresh\n",
    ),
    // Which word is wrong first, and what was expected there.
    (
        "invoke 1 01 9\r\ninvoke 1 1 9\nreceive 4\nbegin 1 - 0.99 -",
        "1 bad word 3, a number without leading zeros\n2 bad word 4, a number from 1 to 4\n3 bad word 2, an even number of hexadecimal digits\n4 bad word 4, an application context in dotted form or in hexadecimal, or -\n",
    ),
];

/// Whether the lines print this, with this verdict.
pub(super) fn prints<A: Allocator + Copy>(alloc: A, lines: &str, wanted: &str, good: bool) -> bool {
    let mut reader = lines.as_bytes();
    let mut out = Vec::new(alloc);
    let ran = run_live(alloc, Format::Words, LIMITS, 1, 1, &mut reader, &mut out);
    ran == Ok(good) && out.as_slice() == wanted.as_bytes()
}

#[test]
fn lines_are_answered(rt: HostRuntime) -> Result<(), Fail> {
    for (lines, wanted) in ROWS {
        let good = !wanted.contains(" bad ");
        assert!(rt; prints(rt.alloc(), lines, wanted, good), "at {lines:?}");
    }
    Ok(())
}

#[test]
fn limits_and_counters(rt: HostRuntime) -> Result<(), Fail> {
    let alloc = rt.alloc();
    let limits = Limits {
        max_dialogues: 1,
        reject_ms: 0,
        idle_ms: 7,
    };
    let mut reader =
        b"new\nnew\ninvoke 9 1 1 1 50 - -\nbegin 9 42 - -\ntimer\nadvance 7".as_slice();
    let mut out = Vec::new(alloc);
    let ran = run_live(alloc, Format::Words, limits, 9, 70, &mut reader, &mut out);
    let wanted =
        "1 new 9\n2 refused 8 dialogues full\n3 number 70\n4 send 42 62104804000000096c08a106020101020101\n4 done\n5 timer 7\n6 pabort 9 idle\n6 ended 9 id 1 number 70\n6 done\n";
    assert!(rt; ran == Ok(true) && out.as_slice() == wanted.as_bytes());
    Ok(())
}

#[test]
fn a_line_that_is_too_long(rt: HostRuntime) -> Result<(), Fail> {
    let alloc = rt.alloc();
    for (more, wanted) in [(0usize, Ok(true)), (1, Err(PlayFault::TooLong))] {
        let mut lines = vec![in alloc; b'#'; 1_048_576 + more]?;
        lines.extend_from_slice(b"\ntimer\n")?;
        let mut reader = lines.as_slice();
        let mut out = Vec::new(alloc);
        assert_eq!(rt;
            run_live(alloc, Format::Words, LIMITS, 1, 1, &mut reader, &mut out),
            wanted
        );
        let told = if more == 0 { "2 timer -\n" } else { "" };
        assert_eq!(rt; out.as_slice(), told.as_bytes());
    }
    Ok(())
}

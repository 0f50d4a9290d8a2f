//! Lines with one mistake each, and which word is told. The texts were written from docs/FORMATS.md.

use super::lines::prints;
use std::test::Fail;

/// What is expected where a name stands.
const NAMES: &str =
    "word 1, one of new invoke last more error reject cancel begin uni continue end prearranged abort receive advance timer state";

/// Lines, and what is told of each.
const ROWS: &[(&str, &str)] = &[
    // Words left out and too many.
    (
        "invoke 1 1 1 10 1000 -",
        "word 8 is missing, octets in hexadecimal, or -",
    ),
    ("begin 1 42 - - # opens", "word 6, nothing more"),
    ("receive 42 62 06 48 04", "word 4, nothing more"),
    // Names that aren't; a line of a play of two sides.
    ("begn 1 42 - -", NAMES),
    ("A new", NAMES),
    ("deliver A7", NAMES),
    // Spaces, tabs and line ends.
    ("begin  1 42 - -", "word 2, one space between words"),
    ("begin 1 42 - ", "word 5, one space between words"),
    ("begin 1 42\t- -", "word 3, no character 09"),
    ("begin 1 42 - -\r", "word 5, no character 0d"),
    // Numbers.
    (
        "invoke 01 1 1 10 1000 - -",
        "word 2, a number without leading zeros",
    ),
    ("invoke 1 1 5 10 1000 - -", "word 4, a number from 1 to 4"),
    (
        "invoke 1 1 1 10 15s - -",
        "word 6, a number from 0 to 18446744073709551615",
    ),
    ("cancel 1 128", "word 3, a number from -128 to 127"),
    ("reject 1 - general 128", "word 5, a number from 0 to 127"),
    // Hexadecimal and dotted contexts.
    (
        "begin 1 42 - 123",
        "word 5, an even number of hexadecimal digits",
    ),
    ("begin 1 42 - 0x12", "word 5, octets in hexadecimal, or -"),
    (
        "begin 1 42 0.40.1 -",
        "word 4, an application context in dotted form or in hexadecimal, or -",
    ),
    ("last 1 1 - 0401AA", "word 5, - behind a code that is -"),
    // Words of a list.
    ("abort 1 abandon -", "word 3, user or unsupported"),
    (
        "reject 1 1 problem 0",
        "word 4, general, invoke, result or error",
    ),
];

#[test]
fn mistakes(rt: HostRuntime) -> Result<(), Fail> {
    for (line, told) in ROWS {
        let wanted = format!(in rt.alloc(); "1 bad {told}\n")?;
        assert!(rt; prints(rt.alloc(), line, &wanted, false), "{line}");
    }
    Ok(())
}

//! Lines of a small table, and what is told of each.

use std::alloc::Global;
use std::test::Fail;
use tcap_lines::{Expected, Form, Table, add_line_fault, line_fault};

const INVOKE: &[Expected] = &[
    Expected::Number(0, 4_294_967_295),
    Expected::Signed(-128, 127),
    Expected::Number(1, 4),
    Expected::OptionalSigned(-128, 127),
    Expected::DottedContext,
    Expected::Octets,
];

const LAST: &[Expected] = &[
    Expected::OptionalSigned(-2_147_483_648, 2_147_483_647),
    Expected::OctetsBehindCode,
];

const SIDED: &[Form<'static>] = &[
    Form {
        name: "new",
        words: &[],
    },
    Form {
        name: "invoke",
        words: INVOKE,
    },
    Form {
        name: "last",
        words: LAST,
    },
    Form {
        name: "reject",
        words: &[Expected::ProblemKind, Expected::AbortReason],
    },
    Form {
        name: "to",
        words: &[Expected::Address, Expected::Context],
    },
];

const ALONE: &[Form<'static>] = &[
    Form {
        name: "deliver",
        words: &[Expected::Message],
    },
    Form {
        name: "advance",
        words: &[Expected::Number(0, 18_446_744_073_709_551_615)],
    },
];

/// Lines, and what is told of each; nothing where it has a form.
const ROWS: &[(&str, &str)] = &[
    ("A new", ""),
    ("B invoke 4294967295 -128 4 - 0.4.0.0.1.0.1.3 0401aA", ""),
    ("A invoke 0 127 1 -1 0400 -", ""),
    ("A last - -", ""),
    ("A last 2147483647 -", ""),
    ("A last -2147483648 00", ""),
    ("A reject error unsupported", ""),
    ("deliver A18446744073709551615", ""),
    ("advance 18446744073709551615", ""),
    ("", "word 1, one space between words"),
    ("C new", "word 1, one of A B deliver advance"),
    ("A", "word 2 is missing, one of new invoke last reject to"),
    ("A nwe", "word 2, one of new invoke last reject to"),
    ("A  new", "word 2, one space between words"),
    ("A new ", "word 3, one space between words"),
    ("A new 1", "word 3, nothing more"),
    ("A new\r", "word 2, no character 0d"),
    ("A new\t", "word 2, no character 09"),
    ("A new \u{e4}", "word 3, no character c3"),
    (
        "A invoke 01 1 1 - - -",
        "word 3, a number without leading zeros",
    ),
    (
        "A invoke -1 1 1 - - -",
        "word 3, a number from 0 to 4294967295",
    ),
    (
        "A invoke 4294967296 1 1 - - -",
        "word 3, a number from 0 to 4294967295",
    ),
    (
        "A invoke +1 1 1 - - -",
        "word 3, a number from 0 to 4294967295",
    ),
    (
        "A invoke 1 128 1 - - -",
        "word 4, a number from -128 to 127",
    ),
    ("A invoke 1 -0 1 - - -", "word 4, a number from -128 to 127"),
    (
        "A invoke 1 -05 1 - - -",
        "word 4, a number without leading zeros",
    ),
    ("A invoke 1 1 5 - - -", "word 5, a number from 1 to 4"),
    ("A invoke 1 1", "word 5 is missing, a number from 1 to 4"),
    (
        "A invoke 1 1 1 x - -",
        "word 6, a number from -128 to 127, or -",
    ),
    (
        "A invoke 1 1 1 - 3.1 -",
        "word 7, an application context in dotted form or in hexadecimal, or -",
    ),
    (
        "A invoke 1 1 1 - - 0x00",
        "word 8, octets in hexadecimal, or -",
    ),
    (
        "A invoke 1 1 1 - - 000",
        "word 8, an even number of hexadecimal digits",
    ),
    ("A last - 00", "word 4, - behind a code that is -"),
    ("A last 1 0", "word 4, an even number of hexadecimal digits"),
    (
        "A reject none user",
        "word 3, general, invoke, result or error",
    ),
    ("A reject invoke none", "word 4, user or unsupported"),
    (
        "A to 4g -",
        "word 3, an address in hexadecimal, of at most 255 octets, or -",
    ),
    (
        "A to 42 0.4",
        "word 4, an application context in hexadecimal, or -",
    ),
    ("deliver 1", "word 2, a message, as A1"),
    ("deliver A01", "word 2, a message, as A1"),
];

/// Whether this is told of a line.
fn is_told(alloc: Global, line: &str, told: &str) -> bool {
    let table = Table {
        sides: &["A", "B"],
        on_side: SIDED,
        alone: ALONE,
    };
    let mut text = String::new(alloc);
    match line_fault(&table, line.as_bytes()) {
        None => told.is_empty(),
        Some(fault) => add_line_fault(&mut text, &table, fault).is_ok() && text.as_str() == told,
    }
}

/// What is told of each line.
#[test]
fn lines(rt: HostRuntime) -> Result<(), Fail> {
    for (line, told) in ROWS {
        assert!(rt; is_told(rt.alloc(), line, told), "{line}");
    }
    Ok(())
}

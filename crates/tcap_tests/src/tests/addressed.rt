//! Plays with other addresses than those of the two sides.

use super::words::run;
use std::alloc::Global;
use std::test::Fail;

/// The example "Addresses played".
pub(super) const ADDRESSES_SCRIPT: &str =
    "A new\nA beginto 1 43 - -\nB rawfrom 43 650C4804000000094904000000FF\ndeliver A1\n";

/// What it prints.
pub(super) const ADDRESSES_TEXT: &str =
    "A new 1\nA send A1 6206480400000001 to 43\nB send B1 67094904000000094a0101 to 43\nline 4 bad\n";

/// The example "An address learned once", in a play.
const LEARNED_SCRIPT: &str =
    "A new\nA beginto 1 0A - -\nA rawfrom 0B 650C480400000005490400000001\nA continue 1 - -\nA rawfrom 0C 650C480400000005490400000001\nA continue 1 - -\n";

const LEARNED_TEXT: &str =
    "A new 1\nA send A1 6206480400000001 to 0a\nA continue 1 context - info -\nA send A2 650c480400000001490400000005 to 0b\nA continue 1 context - info -\nA send A3 650c480400000001490400000005 to 0b\n";

/// The other side's address by `beginto` and by `rawfrom`: as by `begin`, by `raw` and by a delivery.
const KNOWN_SCRIPT: &str =
    "B new\nB beginto 1 41 - -\ndeliver B1\nA continue 1 - -\nB rawfrom 41 650C480400000001490400000001\nB continue 1 - -\ndeliver B2\n";

const KNOWN_TEXT: &str =
    "B new 1\nB send B1 6206480400000001\nA begin 1 context - info -\nA send A1 650c480400000001490400000001\nB continue 1 context - info -\nB send B2 650c480400000001490400000001\nA continue 1 context - info -\n";

/// Whether the command that plays this script ends with this status and writes this.
fn is_played(alloc: Global, script: &str, status: u8, written: &str) -> bool {
    let mut input = script.as_bytes();
    run(alloc, &["play"], &mut input).is(status, written.as_bytes(), b"")
}

/// Scripts, the status of their plays, and what they write.
const PLAYS: &[(&str, u8, &str)] = &[
    (ADDRESSES_SCRIPT, 1, ADDRESSES_TEXT),
    (LEARNED_SCRIPT, 0, LEARNED_TEXT),
    (KNOWN_SCRIPT, 0, KNOWN_TEXT),
    (
        "A new\nA beginto 1 42 - -\ndeliver A1\n",
        0,
        "A new 1\nA send A1 6206480400000001\nB begin 1 context - info -\n",
    ),
    (
        "A new\nA beginto 1 41 - -\n",
        0,
        "A new 1\nA send A1 6206480400000001 to 41\n",
    ),
    // The address of no octets is one too, and no front of another is that other.
    (
        "A new\nA beginto 1 - - -\n",
        0,
        "A new 1\nA send A1 6206480400000001 to -\n",
    ),
    (
        "A new\nA beginto 1 4200 - -\n",
        0,
        "A new 1\nA send A1 6206480400000001 to 4200\n",
    ),
    (
        "B rawfrom - 650C4804000000094904000000FF",
        0,
        "B send B1 67094904000000094a0101 to -\n",
    ),
    (
        "A rawfrom 42 650C4804000000094904000000FF",
        0,
        "A send A1 67094904000000094a0101\n",
    ),
    (
        "A raw 650C4804000000094904000000FF",
        0,
        "A send A1 67094904000000094a0101\n",
    ),
    ("A rawfrom 43 -", 0, "A dropped badmessage\n"),
    (
        "A new\nA beginto 1 43 04000001000103 -\n",
        0,
        "A new 1\nA send A1 62264804000000016b1e281c060700118605010101a011600f80020780a109060704000001000103 to 43\n",
    ),
    ("A beginto 9 43 - -\n", 0, "A refused 2\n"),
];

#[test]
fn plays_with_addresses(rt: HostRuntime) -> Result<(), Fail> {
    for (script, status, written) in PLAYS {
        assert!(rt;
            is_played(rt.alloc(), script, *status, written),
            "at {script}"
        );
    }
    Ok(())
}

/// A message to another address is only lost, and once.
#[test]
fn messages_to_other_addresses(rt: HostRuntime) -> Result<(), Fail> {
    let alloc = rt.alloc();
    let rows = [
        // What is done with the message, the status, and what is written of it.
        ("lose A1\n", 0, ""),
        ("lose A1\nlose A1\n", 1, "line 4 bad\n"),
        ("deliver A1\n", 1, "line 3 bad\n"),
        ("again A1\n", 1, "line 3 bad\n"),
        ("lose A1\ndeliver A1\n", 1, "line 4 bad\n"),
        // It has its number among the others.
        ("B new\nlose A2\n", 1, "B new 1\nline 4 bad\n"),
        (
            "A new\nA begin 2 - -\ndeliver A2\n",
            0,
            "A new 2\nA send A2 6206480400000002\nB begin 1 context - info -\n",
        ),
    ];
    for (done, status, told) in rows {
        let script = format!(in alloc; "A new\nA beginto 1 43 - -\n{done}")?;
        let written = format!(in alloc; "A new 1\nA send A1 6206480400000001 to 43\n{told}")?;
        assert!(rt; is_played(alloc, &script, status, &written), "at {done}");
    }
    Ok(())
}

/// Whether an address of so many octets is sent to and answered, or is none.
fn is_address(alloc: Global, octets: usize, status: u8) -> Result<bool, Fail> {
    let hex = hex::encode(alloc, vec![in alloc; 0xabu8; octets]?.as_slice())?;
    let begin = format!(in alloc; "A new\nA beginto 1 {hex} - -\n")?;
    let raw = format!(in alloc; "A rawfrom {hex} 650C4804000000094904000000FF\n")?;
    let (sent, answered) = if status == 0 {
        (
            format!(in alloc; "A new 1\nA send A1 6206480400000001 to {hex}\n")?,
            format!(in alloc; "A send A1 67094904000000094a0101 to {hex}\n")?,
        )
    } else {
        (
            format!(in alloc; "A new 1\nline 2 bad\n")?,
            format!(in alloc; "line 1 bad\n")?,
        )
    };
    Ok(is_played(alloc, &begin, status, &sent) && is_played(alloc, &raw, status, &answered))
}

/// An address has at most 255 octets; what is no hexadecimal names none.
#[test]
fn addresses_that_are_none(rt: HostRuntime) -> Result<(), Fail> {
    let alloc = rt.alloc();
    for (octets, status) in [(1usize, 0u8), (254, 0), (255, 0), (256, 1)] {
        assert!(rt; is_address(alloc, octets, status)?, "at {octets}");
    }
    for line in [
        "A rawfrom 4 00",
        "A rawfrom 4x 00",
        "A rawfrom 43",
        "A rawfrom 00",
        "A rawfrom 43 0",
        "A rawfrom 43 00 00",
        "C rawfrom 43 00",
        "A beginto 1 4 - -",
        "A beginto 1 43 -",
        "A beginto 1 43 - - -",
        "A beginto 1 +1 - -",
        "A beginto 01 43 - -",
        "A unito 1 43 - -",
        "A continueto 1 43 - -",
    ] {
        assert!(rt; is_played(alloc, line, 1, "line 1 bad\n"), "at {line}");
    }
    Ok(())
}

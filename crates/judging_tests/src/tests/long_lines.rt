//! Lines of the greatest length, and above it.

use super::words::run;
use std::alloc::{AllocError, Global};
use std::test::Fail;

/// A line of so many octets, blanks behind a message, and then a short one.
fn blanks_behind(alloc: Global, len: usize) -> Result<Vec<u8>, AllocError> {
    let mut input = vec![in alloc; b' '; len]?;
    for (place, octet) in b"6203480107".iter().enumerate() {
        if place < input.len() {
            input[place] = *octet;
        }
    }
    input.extend_from_slice(b"\nn 6203480107\n")?;
    Ok(input)
}

#[test]
fn lines_of_many_octets(rt: HostRuntime) -> Result<(), Fail> {
    let alloc = rt.alloc();
    let rows: [(usize, u8, &[u8]); 4] = [
        (200_000, 0, b"1 good\nn good\n"),
        (200_001, 1, b"line 1 bad: more than 200000 octets\nn good\n"),
        (204_800, 1, b"line 1 bad: more than 200000 octets\nn good\n"),
        (
            1_000_000,
            1,
            b"line 1 bad: more than 200000 octets\nn good\n",
        ),
    ];
    for (len, status, wanted) in rows {
        let input = blanks_behind(alloc, len)?;
        let ran = run(alloc, &[], input.as_slice());
        assert!(rt; ran.is(status, wanted, b""), "at {len}");
    }
    Ok(())
}

/// A message of 65,535 octets, and one of 65,536, each digit pair with a blank behind it.
#[test]
fn messages_of_the_greatest_length(rt: HostRuntime) -> Result<(), Fail> {
    let alloc = rt.alloc();
    let rows: [(usize, u8, &[u8]); 2] = [
        (
            65_535,
            1,
            b"1 fault unknown type place 0 element 0: expected a message 0x61, 0x62, 0x64, 0x65 or 0x67, found 0x04\n",
        ),
        (
            65_536,
            1,
            b"1 fault too long place 65535 element 0: expected at most 65535 octets, found 65536 octets\n",
        ),
    ];
    for (len, status, wanted) in rows {
        let mut input = Vec::new(alloc);
        input.extend_from_slice(b"04 82 ff fb ")?;
        for _ in 4..len {
            input.extend_from_slice(b"00 ")?;
        }
        let ran = run(alloc, &[], input.as_slice());
        assert!(rt; ran.is(status, wanted, b""), "at {len}");
    }
    Ok(())
}

//! Octets that are no record, each with its place by the table of docs/FORMATS.md, counted by hand.

use super::records::octets_of;
use std::alloc::Global;
use tcap_record::read;

/// The place at which octets stop being a record.
fn place_of(alloc: Global, text: &str) -> Option<usize> {
    let octets = octets_of(alloc, text)?;
    match read(octets.as_slice()) {
        Ok(_) => None,
        Err(fault) => Some(fault.place),
    }
}

#[test]
fn places(rt: HostRuntime) {
    let rows = [
        // Cut off: nothing, behind the version, within a number, before a field, within a string and an address.
        ("", 0),
        ("01", 1),
        ("01 07 000000", 5),
        ("01 07 00000004", 6),
        ("01 0e 40000000000000", 9),
        ("01 0d 03 0102", 5),
        ("01 0d 00 00000002 64", 8),
        // Another version, and no kind.
        ("02 01", 0),
        ("01 00", 1),
        ("01 0f", 1),
        // No class, no form of a code, neither missing nor there.
        ("01 02 00000007 ff 00", 7),
        ("01 02 00000007 ff 05", 7),
        ("01 02 00000007 ff 01 02", 8),
        ("01 03 00000001 05 02", 7),
        // No kind of problem and no code of one, no ending, no reason.
        ("01 06 00000003 00 04", 7),
        ("01 06 00000003 00 00 80", 8),
        ("01 0b 00000000 02", 6),
        ("01 0c 00000008 02", 6),
        // Something behind a record.
        ("01 01 00", 2),
        ("01 01 01 01", 2),
    ];
    for (text, place) in rows {
        assert_eq!(rt; place_of(rt.alloc(), text), Some(place));
    }
}

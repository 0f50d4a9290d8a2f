//! Messages at the limit of their length.

use std::alloc::Global;
use std::test::Fail;
use tcap_cmd::{canon_text, check_text, show_text};

/// Whether these bytes are shown as this fault.
fn is_shown(alloc: Global, bytes: &[u8], fault: &[u8]) -> bool {
    match show_text(alloc, bytes) {
        Ok(shown) => shown.text.as_slice() == fault && !shown.good,
        Err(_) => false,
    }
}

#[test]
fn messages_too_long(rt: HostRuntime) -> Result<(), Fail> {
    let bytes = vec![in rt.alloc(); 0u8; 65_536]?;
    assert!(rt; is_shown(rt.alloc(), &bytes, b"fault too long\n"));
    assert!(rt; is_shown(rt.alloc(), &bytes[1..], b"fault badly formatted\n"));
    Ok(())
}

/// A Begin with an AARQ that says no version and with an Invoke, up to the 65,479 octets of its
/// parameter: 65,535 bytes with them.
const LONGEST: &str =
    "6282FFFB4804000000016B1A2818060700118605010101A00D600BA1090607040000010001036C82FFD5A182FFD10201010201020482FFC7";

/// The longest message.
fn longest(alloc: Global) -> Result<Vec<u8>, Fail> {
    let mut bytes = hex::decode(alloc, LONGEST)?;
    let parameter = vec![in alloc; 0u8; 65_479]?;
    bytes.extend_from_slice(parameter.as_slice())?;
    Ok(bytes)
}

/// Whether the check of these bytes finds them good.
fn is_good(alloc: Global, bytes: &[u8]) -> bool {
    match check_text(alloc, bytes) {
        Ok(checked) => checked.text.as_slice() == b"good\n".as_slice(),
        Err(_) => false,
    }
}

/// Whether the canonical form of these bytes is too long.
fn is_too_long(alloc: Global, bytes: &[u8]) -> bool {
    match canon_text(alloc, bytes) {
        Ok(long) => long.text.as_slice() == b"fault too long\n".as_slice() && !long.good,
        Err(_) => false,
    }
}

#[test]
fn canonical_form_too_long(rt: HostRuntime) -> Result<(), Fail> {
    let bytes = longest(rt.alloc())?;
    assert!(rt; is_good(rt.alloc(), bytes.as_slice()));
    assert!(rt; is_too_long(rt.alloc(), bytes.as_slice()));
    Ok(())
}

//! Tables of messages, each a text of rows with an empty line between them: a message in hexadecimal, on a line
//! of its own, and the text that explains it.

use std::alloc::Global;
use std::test::Fail;
use tcap_explain::explain_text;
use tcap_words::decode_hex;

/// Whether the message of a row is explained by the text behind it, with one line feed more.
fn is_explained(alloc: Global, row: &str) -> bool {
    let Some((hex, text)) = row.split_once('\n') else {
        return false;
    };
    let Ok(Some(octets)) = decode_hex(alloc, hex.as_bytes()) else {
        return false;
    };
    let Ok(shown) = explain_text(alloc, octets.as_slice()) else {
        return false;
    };
    shown.text.strip_suffix(b"\n") == Some(text.as_bytes()) && shown.good == (text == "good")
}

/// Tells the first row whose message isn't explained so, if there is one.
pub(super) fn all_are_explained<'t>(alloc: Global, table: &'t str) -> Result<(), &'t str> {
    for row in table.split("\n\n") {
        if !is_explained(alloc, row) {
            return Err(row);
        }
    }
    Ok(())
}

/// A message of 65,536 octets.
#[test]
fn one_octet_too_long(rt: HostRuntime) -> Result<(), Fail> {
    let octets = vec![in rt.alloc(); 0; 65_536]?;
    let shown = explain_text(rt.alloc(), octets.as_slice())?;
    assert!(rt; !shown.good);
    assert_eq!(rt;
        shown.text.as_slice(),
        b"fault too long\nplace 65535 element 0: expected at most 65535 octets, found 65536 octets\n".as_slice()
    );
    Ok(())
}

//! Integers, read.

use ber_core::read_int;
use std::test::Fail;

#[test]
fn integers_read(rt: HostRuntime) -> Result<(), Fail> {
    let rows: &[(&[u8], Option<i32>)] = &[
        (&[0x00, 0x80], Some(128)),
        (&[0x80], Some(-128)),
        (&[0xff, 0x7f], Some(-129)),
        (&[0x80, 0x00, 0x00, 0x00], Some(i32::MIN)),
        (&[0x7f, 0xff, 0xff, 0xff], Some(i32::MAX)),
        (&[0x00, 0x7f], None),
        (&[0xff, 0x80], None),
        (&[], None),
        (&[0x01, 0x00, 0x00, 0x00, 0x00], None),
    ];
    for (content, value) in rows {
        assert!(rt; read_int(content) == *value, "{content:?}");
    }
    Ok(())
}

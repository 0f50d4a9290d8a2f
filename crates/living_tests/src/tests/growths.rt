//! Each growth refused in turn.

use super::lines::{LIMITS, ROWS};
use refusing::Refusing;
use std::test::Fail;
use tcap_living::{Format, PlayFault, run_live};

#[test]
fn growths_refused_in_turn(rt: HostRuntime) -> Result<(), Fail> {
    let heap = Refusing::new(rt.alloc());
    for (lines, wanted) in ROWS {
        let mut refused = 0u64;
        for number in 1..512u64 {
            let mut reader = lines.as_bytes();
            let mut out = Vec::new(rt.alloc());
            heap.refuse(number);
            let came = run_live(&heap, Format::Words, LIMITS, 1, 1, &mut reader, &mut out);
            if heap.is_armed() {
                assert_eq!(rt; out.as_slice(), wanted.as_bytes());
                break;
            }
            refused = number;
            // What was written are the answers to the lines before.
            if came == Err(PlayFault::OutOfMemory) {
                assert!(rt; wanted.as_bytes().starts_with(out.as_slice()));
                assert!(rt; out.is_empty() || out.ends_with(b"\n"));
            } else {
                assert_eq!(rt; out.as_slice(), wanted.as_bytes());
            }
        }
        heap.refuse(0);
        assert!(rt; refused > 0, "at {lines:?}");
    }
    Ok(())
}

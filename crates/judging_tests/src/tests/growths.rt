//! Each growth refused in turn.

use super::words::PLAIN;
use refusing::Refusing;
use std::alloc::Global;
use std::test::Fail;
use tcap_judging::{JudgingFault, Naming, judge_lines};

/// Lines, and what they print.
const ROWS: &[(&str, &str, u64)] = &[
    ("m 6203480107\n", "m good\n", 2),
    (
        "6203490107\n",
        "1 fault incorrect place 2 element 2: expected the originating transaction identifier 0x48, found 0x49\n",
        2,
    ),
    ("6203480107", "1 good\n", 2),
    (
        "zz:\n620",
        "line 1 bad: no hexadecimal digits behind the name\nline 2 bad: an odd number of hexadecimal digits\n",
        2,
    ),
    ("\n \n", "", 1),
];

/// How many growths of a run were refused in turn and told as want of memory, with a front of what is wanted, before
/// a run came to its end. A vector that is refused twice what it has asks for what it needs: then the run goes on.
fn refused_growths(
    alloc: Global,
    heap: &Refusing<Global>,
    input: &[u8],
    wanted: &[u8],
) -> Option<u64> {
    let mut told = 0u64;
    for number in 1..256u64 {
        let mut reader = input;
        let mut out = Vec::new(alloc);
        heap.refuse(number);
        let ran = judge_lines(heap, PLAIN, Naming::Marked, &mut reader, &mut out);
        if heap.is_armed() {
            heap.refuse(0);
            return (ran.is_ok() && out.as_slice() == wanted).then_some(told);
        }
        match ran {
            Err(JudgingFault::OutOfMemory) if wanted.starts_with(out.as_slice()) => {
                told = told.saturating_add(1);
            }
            Ok(_) if out.as_slice() == wanted => (),
            _ => return None,
        }
    }
    None
}

#[test]
fn runs_with_each_growth_refused(rt: HostRuntime) -> Result<(), Fail> {
    let alloc = rt.alloc();
    let heap = Refusing::new(alloc);
    for (input, wanted, least) in ROWS {
        let growths = refused_growths(alloc, &heap, input.as_bytes(), wanted.as_bytes());
        let is_so = match growths {
            Some(count) => count >= *least,
            None => false,
        };
        assert!(rt; is_so, "at {input:?}, {growths:?}");
    }
    Ok(())
}

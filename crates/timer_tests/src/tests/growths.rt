//! Which growths are refused.
use refusing::Refusing;
use std::alloc::Global;
use std::test::Fail;

/// Whether a block was found.
fn grows(heap: &Refusing<Global>) -> bool {
    Vec::<u8, &Refusing<Global>>::with_capacity(heap, 8).is_ok()
}

#[test]
fn exactly_one_growth_is_refused(rt: HostRuntime) -> Result<(), Fail> {
    let heap = Refusing::new(rt.alloc());
    let rows = [
        // The growth to refuse, whether the first, second and third are found, and whether one is left to refuse.
        (0, [true, true, true], false),
        (1, [false, true, true], false),
        (2, [true, false, true], false),
        (3, [true, true, false], false),
        (4, [true, true, true], true),
    ];
    for (number, found, armed) in rows {
        heap.refuse(number);
        assert!(rt;
            [grows(&heap), grows(&heap), grows(&heap)] == found,
            "{number}"
        );
        assert!(rt; heap.is_armed() == armed, "{number}");
    }
    Ok(())
}

//! What is appended to a vector that takes its room itself, beside what is put into room that is there: the
//! same octets, those of X.690.

use ber_core::{
    OutOfMemory, element_len, int_len, put_element, put_head, put_int, write_element, write_head,
    write_int,
};
use std::alloc::Global;
use std::test::Fail;
use tcap_component::{Code, Component, write_component};

/// The octets of a head, appended and put.
fn two_heads(alloc: Global, length: u16) -> Result<(Vec<u8>, Vec<u8>), OutOfMemory> {
    let mut appended = Vec::new(alloc);
    write_head(&mut appended, &[0x6c], usize::from(length))?;
    let mut put = Vec::with_capacity(alloc, 4)?;
    put_head(&mut put, 0x6c, usize::from(length));
    Ok((appended, put))
}

/// The octets of an element with so many content octets, appended and put.
fn two_elements(alloc: Global, length: u16) -> Result<(Vec<u8>, Vec<u8>), OutOfMemory> {
    let content = vec![in alloc; 0xaau8; usize::from(length)]?;
    let mut appended = Vec::new(alloc);
    write_element(&mut appended, &[0x6c], content.as_slice())?;
    let mut put = Vec::with_capacity(alloc, element_len(content.len()))?;
    put_element(&mut put, 0x6c, content.as_slice());
    Ok((appended, put))
}

#[test]
fn heads_and_elements_of_each_length(rt: HostRuntime) -> Result<(), Fail> {
    let rows: &[(u16, &[u8])] = &[
        (0, &[0x6c, 0x00]),
        (1, &[0x6c, 0x01]),
        (8, &[0x6c, 0x08]),
        (9, &[0x6c, 0x09]),
        (127, &[0x6c, 0x7f]),
        (128, &[0x6c, 0x81, 0x80]),
        (255, &[0x6c, 0x81, 0xff]),
        (256, &[0x6c, 0x82, 0x01, 0x00]),
        (65_535, &[0x6c, 0x82, 0xff, 0xff]),
    ];
    for (length, head) in rows {
        let (appended, put) = two_heads(rt.alloc(), *length)?;
        assert!(rt;
            appended.as_slice() == *head && put.as_slice() == *head,
            "head of {length}"
        );
        let (appended, put) = two_elements(rt.alloc(), *length)?;
        assert!(rt;
            appended.as_slice() == put.as_slice(),
            "element of {length}"
        );
        assert!(rt;
            appended.len() == head.len() + usize::from(*length),
            "element of {length}"
        );
        assert!(rt;
            appended.as_slice().starts_with(head),
            "element of {length}"
        );
    }
    Ok(())
}

/// The octets of an INTEGER, appended and put.
fn two_integers(alloc: Global, value: i32) -> Result<(Vec<u8>, Vec<u8>), OutOfMemory> {
    let mut appended = Vec::new(alloc);
    write_int(&mut appended, 0x02, value)?;
    let mut put = Vec::with_capacity(alloc, 2 + int_len(value))?;
    put_int(&mut put, 0x02, value);
    Ok((appended, put))
}

/// Whether an Invoke of this local code ends with these octets.
fn ends_a_component(alloc: Global, value: i32, octets: &[u8]) -> bool {
    let invoke = Component::Invoke {
        id: 1,
        linked: None,
        code: Code::Local(value),
        parameter: None,
    };
    match write_component(alloc, &invoke) {
        Ok(written) => written.as_slice().ends_with(octets),
        Err(_) => false,
    }
}

#[test]
fn integers_of_each_length(rt: HostRuntime) -> Result<(), Fail> {
    let rows: &[(i32, &[u8])] = &[
        (0, &[0x02, 0x01, 0x00]),
        (-1, &[0x02, 0x01, 0xff]),
        (127, &[0x02, 0x01, 0x7f]),
        (-128, &[0x02, 0x01, 0x80]),
        (128, &[0x02, 0x02, 0x00, 0x80]),
        (-129, &[0x02, 0x02, 0xff, 0x7f]),
        (32_767, &[0x02, 0x02, 0x7f, 0xff]),
        (-32_768, &[0x02, 0x02, 0x80, 0x00]),
        (32_768, &[0x02, 0x03, 0x00, 0x80, 0x00]),
        (-32_769, &[0x02, 0x03, 0xff, 0x7f, 0xff]),
        (8_388_607, &[0x02, 0x03, 0x7f, 0xff, 0xff]),
        (-8_388_608, &[0x02, 0x03, 0x80, 0x00, 0x00]),
        (8_388_608, &[0x02, 0x04, 0x00, 0x80, 0x00, 0x00]),
        (-8_388_609, &[0x02, 0x04, 0xff, 0x7f, 0xff, 0xff]),
        (i32::MAX, &[0x02, 0x04, 0x7f, 0xff, 0xff, 0xff]),
        (i32::MIN, &[0x02, 0x04, 0x80, 0x00, 0x00, 0x00]),
    ];
    for (value, octets) in rows {
        let (appended, put) = two_integers(rt.alloc(), *value)?;
        assert!(rt;
            appended.as_slice() == *octets && put.as_slice() == *octets,
            "{value}"
        );
        assert!(rt; ends_a_component(rt.alloc(), *value, octets), "{value}");
    }
    Ok(())
}

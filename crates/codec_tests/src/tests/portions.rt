//! Messages and dialogue portions at their limits.

use super::elements::add_pairs;
use ber_core::OutOfMemory;
use std::alloc::Global;
use std::test::Fail;
use tcap_pdu::{Frame, FrameFault, PduFault, TransId, frame_fits, read_frame, write_frame};

/// Adds a Begin of indefinite length, its dialogue portion too, and in it so many indefinite elements, one in
/// another.
fn add_nested(bytes: &mut Vec<u8>, open: u8) -> Result<(), OutOfMemory> {
    bytes.extend_from_slice(&[0x62, 0x80, 0x48, 0x01, 0x07, 0x6b, 0x80])?;
    add_pairs(bytes, [0x30, 0x80], open)?;
    add_pairs(bytes, [0x00, 0x00], open.saturating_add(2))
}

/// How many octets the dialogue portion of such a Begin has, or why it is no message.
fn portion_len(alloc: Global, open: u8) -> Option<Result<Option<usize>, FrameFault>> {
    let mut bytes = Vec::new(alloc);
    add_nested(&mut bytes, open).ok()?;
    match read_frame(&bytes) {
        Ok(frame) => Some(Ok(frame.dialogue().map(|content| content.len()))),
        Err(fault) => Some(Err(fault)),
    }
}

#[test]
fn depth_of_a_portion(rt: HostRuntime) -> Result<(), Fail> {
    // The message and its portion are two of the 32 that may be open.
    assert!(rt; portion_len(rt.alloc(), 30) == Some(Ok(Some(120))));
    assert!(rt; portion_len(rt.alloc(), 31) == Some(Err(FrameFault::BadlyFormatted)));
    Ok(())
}

/// The message that the bytes are, written with another dialogue portion and no components.
fn with_other_portions(alloc: Global, bytes: &[u8]) -> Option<Vec<u8>> {
    let frame = read_frame(bytes)
        .ok()?
        .with_portions(Some(&[0x28, 0x00]), &[]);
    if !frame.components().is_empty() {
        return None;
    }
    write_frame(alloc, &frame).ok()
}

#[test]
fn other_portions(rt: HostRuntime) -> Result<(), Fail> {
    let bytes = [0x62, 0x07, 0x48, 0x01, 0x07, 0x6c, 0x02, 0xa5, 0x00];
    let wanted: &[u8] = &[0x62, 0x07, 0x48, 0x01, 0x07, 0x6b, 0x02, 0x28, 0x00];
    let written = with_other_portions(rt.alloc(), &bytes);
    assert!(rt; written.as_deref() == Some(wanted));
    Ok(())
}

/// The octets of a Begin with origin 00000001, this dialogue portion and these components.
fn begin(alloc: Global, dialogue: Option<&[u8]>, components: &[u8]) -> Result<Vec<u8>, PduFault> {
    let frame = Frame::Begin {
        otid: TransId::of(1),
        dialogue,
        components,
    };
    write_frame(alloc, &frame)
}

/// Whether these bytes are that Begin, without a dialogue portion.
fn is_begin(bytes: &[u8], components: &[u8]) -> bool {
    let frame = Frame::Begin {
        otid: TransId::of(1),
        dialogue: None,
        components,
    };
    read_frame(bytes) == Ok(frame)
}

/// Whether that Begin has 65,535 bytes, and is read again.
fn is_longest(alloc: Global, components: &[u8]) -> bool {
    let Ok(bytes) = begin(alloc, None, components) else {
        return false;
    };
    let has_head = bytes.as_slice().starts_with(&[0x62, 0x82, 0xff, 0xfb]);
    has_head & (bytes.len() == 65_535) & is_begin(bytes.as_slice(), components)
}

/// Whether that Begin is too long to be written.
fn is_too_long(alloc: Global, dialogue: Option<&[u8]>, components: &[u8]) -> bool {
    matches!(begin(alloc, dialogue, components), Err(PduFault::TooLong))
}

/// Whether that Begin fits with 6B contents of this many bytes.
fn begin_fits(dialogue: Option<&[u8]>, components: &[u8], length: usize) -> bool {
    let frame = Frame::Begin {
        otid: TransId::of(1),
        dialogue,
        components,
    };
    frame_fits(&frame, length)
}

/// Whether components one octet short of these make the longest Begin, and these one that is too long.
fn has_its_limit(alloc: Global, above: &[u8]) -> bool {
    let Some((_, within)) = above.split_first() else {
        return false;
    };
    // An empty 6B is written, but 0 stands for no 6B.
    let is_limit = is_longest(alloc, within) & is_too_long(alloc, None, above);
    is_limit & is_too_long(alloc, Some(&[]), within) & begin_fits(Some(&[]), within, 0)
}

/// Whether components one octet short of these fit alone and with no dialogue portion, and these don't fit.
fn fits_at_its_limit(above: &[u8]) -> bool {
    let Some((_, within)) = above.split_first() else {
        return false;
    };
    let is_full = begin_fits(None, within, 0) & !begin_fits(None, within, 1);
    is_full & !begin_fits(None, above, 0) & !begin_fits(None, within, usize::MAX)
}

#[test]
fn a_begin_at_the_limit(rt: HostRuntime) -> Result<(), Fail> {
    let above = vec![in rt.alloc(); 0u8; 65_522]?;
    assert!(rt; has_its_limit(rt.alloc(), &above));
    assert!(rt; fits_at_its_limit(&above));
    assert!(rt; begin_fits(None, &[], 65_521) & !begin_fits(None, &[], 65_522));
    // A length that no sum of machine words holds, as one above.
    assert!(rt; !begin_fits(None, &[], usize::MAX - 13));
    Ok(())
}

//! Elements, lists, sequences and streams.

ghost use Rattle.std.specs.Prelude.{◌≤◌, length};

use ber_core::{
    BerFault, Elements, Feed, FeedFault, MAX_DEPTH, OutOfMemory, is_element_list, is_oid,
    read_alone, read_element, read_head, take_any, take_content, take_only, take_tagged,
    write_element,
};
use std::alloc::{AllocError, Global};
use std::test::Fail;

/// The fault of the first element, `None` where one is read.
fn fault_of(bytes: &[u8]) -> Option<BerFault> {
    read_element(bytes).err()
}

/// The lengths of the first element's content and of what follows it.
fn lengths_of(bytes: &[u8]) -> Option<(usize, usize)> {
    let (element, rest) = read_element(bytes).ok()?;
    Some((element.content.len(), rest.len()))
}

#[test]
fn elements_and_faults(rt: HostRuntime) -> Result<(), Fail> {
    let rows: &[(&[u8], BerFault)] = &[
        // octets that end too early
        (&[], BerFault::Short),
        (&[0x30, 0x80, 0x00], BerFault::Short),
        (&[0x04, 0x84, 0x00, 0x01], BerFault::Short),
        (&[0x04, 0x84, 0x01, 0x00, 0x00], BerFault::Short),
        (&[0x04, 0x83, 0x01], BerFault::Short),
        // tags
        (&[0x00, 0x00], BerFault::BadTag),
        (&[0x1f, 0x80, 0x01, 0x00], BerFault::BadTag),
        (&[0x30, 0x80, 0x00, 0x01], BerFault::BadTag),
        (&[0x1f, 0x81, 0x81, 0x81, 0x81], BerFault::BadTag),
        // lengths
        (&[0x04, 0xff], BerFault::BadLength),
        (&[0x04, 0x84, 0x00, 0x01, 0x00, 0x00], BerFault::BadLength),
        (&[0x04, 0x84, 0x01, 0x00, 0x00, 0x00], BerFault::BadLength),
        (&[0x04, 0x80], BerFault::IndefinitePrimitive),
    ];
    for (bytes, fault) in rows {
        assert!(rt; fault_of(bytes) == Some(*fault), "{bytes:?}");
    }
    let rows: &[(&[u8], usize, usize)] = &[
        (&[0x1f, 0x81, 0x81, 0x81, 0x01, 0x00], 0, 0),
        (&[0x04, 0x83, 0x00, 0x00, 0x01, 0xaa, 0x05], 1, 1),
        (&[0x30, 0x80, 0x04, 0x00, 0x00, 0x00, 0x05], 2, 1),
    ];
    for (bytes, content, rest) in rows {
        assert!(rt; lengths_of(bytes) == Some((*content, *rest)), "{bytes:?}");
    }
    Ok(())
}

/// Adds an element of so many content octets.
fn add_element(bytes: &mut Vec<u8>, length: u16) -> Result<(), OutOfMemory> {
    let content = vec![in *bytes.allocator(); 0u8; usize::from(length)]?;
    write_element(bytes, &[0x04], content.as_slice())
}

/// An element of 65,535 octets with this tag.
pub(super) fn long_element(alloc: Global, tag: u8) -> Result<Vec<u8>, AllocError> {
    let mut bytes = vec![in alloc; 0; 65_535]?;
    bytes[..4].copy_from_slice(&[tag, 0x82, 0xff, 0xfb]);
    Ok(bytes)
}

/// Adds two octets, so many times.
pub(super) fn add_pairs(bytes: &mut Vec<u8>, pair: [u8; 2], count: u8) -> Result<(), OutOfMemory> {
    for _ in 0..count {
        bytes.extend_from_slice(&pair)?;
    }
    Ok(())
}

/// Adds so many heads of indefinite length, elements of so many content octets, and so many ends.
fn add_nested(
    bytes: &mut Vec<u8>,
    heads: u8,
    lengths: &[u16],
    ends: u8,
) -> Result<(), OutOfMemory> {
    add_pairs(bytes, [0x30, 0x80], heads)?;
    for length in lengths {
        add_element(bytes, *length)?;
    }
    add_pairs(bytes, [0x00, 0x00], ends)
}

/// Indefinite elements, one in another, around elements of so many content octets.
fn nested(alloc: Global, heads: u8, lengths: &[u16], ends: u8) -> Option<Vec<u8>> {
    let mut bytes = Vec::new(alloc);
    add_nested(&mut bytes, heads, lengths, ends).ok()?;
    Some(bytes)
}

/// The lengths of the content of such elements, one in another, and of what follows it.
fn nested_lengths(alloc: Global, heads: u8, lengths: &[u16]) -> Option<(usize, usize)> {
    lengths_of(nested(alloc, heads, lengths, heads)?.as_slice())
}

/// The fault of such elements.
fn nested_fault(alloc: Global, heads: u8, lengths: &[u16], ends: u8) -> Option<BerFault> {
    fault_of(nested(alloc, heads, lengths, ends)?.as_slice())
}

#[test]
fn elements_one_in_another(rt: HostRuntime) -> Result<(), Fail> {
    let deepest = nested_lengths(rt.alloc(), MAX_DEPTH, &[60_000]);
    assert!(rt; deepest == Some((60_128, 0)));
    let too_deep = nested_fault(rt.alloc(), 33, &[60_000], 33);
    assert!(rt; too_deep == Some(BerFault::TooDeep));
    Ok(())
}

#[test]
fn elements_open_to_the_limit(rt: HostRuntime) -> Result<(), Fail> {
    assert!(rt; nested_lengths(rt.alloc(), 32, &[]) == Some((124, 0)));
    assert!(rt; nested_fault(rt.alloc(), 33, &[], 0) == Some(BerFault::TooDeep));
    Ok(())
}

#[test]
fn whole_longer_than_a_length(rt: HostRuntime) -> Result<(), Fail> {
    let lengths = nested_lengths(rt.alloc(), 1, &[40_000, 40_000]);
    assert!(rt; lengths == Some((80_008, 0)));
    Ok(())
}

/// The length in the first head, whether it is constructed, and how many octets follow it.
fn head_of(bytes: &[u8]) -> Result<(Option<usize>, bool, usize), BerFault> {
    let head = read_head(bytes)?;
    Ok((head.length, head.constructed, head.rest.len()))
}

#[test]
fn heads(rt: HostRuntime) -> Result<(), Fail> {
    assert!(rt; head_of(&[0x62, 0x82, 0x00, 0x15, 0x48]) == Ok((Some(0x15), true, 1)));
    assert!(rt; head_of(&[0x30, 0x80]) == Ok((None, true, 0)));
    assert!(rt; head_of(&[0x04, 0x80]) == Err(BerFault::IndefinitePrimitive));
    Ok(())
}

/// Whether two elements are given, that the octets are too short, and then nothing.
fn gives_two(bytes: &[u8]) -> bool {
    let mut items = Elements::new(bytes);
    let has_two = matches!(items.next(), Some(Ok(_))) && matches!(items.next(), Some(Ok(_)));
    has_two && matches!(items.next(), Some(Err(BerFault::Short))) && items.next().is_none()
}

#[test]
fn lists(rt: HostRuntime) -> Result<(), Fail> {
    assert!(rt; gives_two(&[0x04, 0x01, 0xaa, 0x05, 0x00, 0xff]));
    assert!(rt; is_element_list(&[]));
    assert!(rt; is_element_list(&[0x04, 0x01, 0xaa, 0x05, 0x00]));
    assert!(rt; !is_element_list(&[0x04, 0x01, 0xaa, 0x05]));
    Ok(())
}

/// Whether the first of two elements is taken by its tag alone, and else by any.
fn takes_the_first(bytes: &[u8]) -> bool {
    let is_by_tag = take_content(bytes, 0x48).is_some();
    let is_by_another = take_tagged(bytes, 0x49).0.is_some() | take_content(bytes, 0x49).is_some();
    is_by_tag & !is_by_another & (take_any(bytes).1.len() == 2)
}

/// Whether these octets are one element.
fn takes_only(bytes: &[u8]) -> bool {
    take_only(bytes, 0x48).is_some()
}

/// Whether these octets are read as one element.
fn is_alone(bytes: &[u8]) -> bool {
    read_alone(bytes).is_some()
}

#[test]
fn parts_of_a_sequence(rt: HostRuntime) -> Result<(), Fail> {
    let one = [0x48, 0x01, 0x07];
    let two = [0x48, 0x01, 0x07, 0x49, 0x00];
    assert!(rt; takes_the_first(&two));
    assert!(rt; takes_only(&one) & !takes_only(&two));
    assert!(rt; is_alone(&one) & !is_alone(&two));
    Ok(())
}

#[test]
fn object_identifiers(rt: HostRuntime) -> Result<(), Fail> {
    let rows: &[(&[u8], bool)] = &[
        (&[0x04, 0x00, 0x00, 0x01, 0x00, 0x01, 0x03], true),
        (&[0x2a, 0x86, 0x48], true),
        (&[], false),
        (&[0x80], false),
        (&[0x2a, 0x80, 0x01], false),
        (&[0x2a, 0x86], false),
        (&[0x01; 255], true),
        (&[0x01; 256], false),
    ];
    for (content, is) in rows {
        assert!(rt; is_oid(content) == *is, "{content:?}");
    }
    Ok(())
}

/// How many messages each of two pieces of a stream completes, and how many octets are left.
fn cut_once(alloc: Global, stream: &[u8], at: usize) -> Result<(usize, usize, usize), FeedFault>
    requires { at ≤ length stream.now }
{
    let (first, second) = stream.split_at(at);
    let mut feed = Feed::new(alloc);
    let before = feed.push(first)?.len();
    let after = feed.push(second)?.len();
    Ok((before, after, feed.rest_len()))
}

#[test]
fn stream_in_two_pieces(rt: HostRuntime) -> Result<(), Fail> {
    // an indefinite element of 10 octets, a definite one of 3, and a tag
    let stream = [
        0x62, 0x80, 0x48, 0x04, 0x00, 0x00, 0x00, 0x01, 0x00, 0x00, 0x04, 0x01, 0xaa, 0x05,
    ];
    for at in 0..stream.len() + 1 {
        let before = if at < 10 {
            0
        } else if at < 13 {
            1
        } else {
            2
        };
        let told = cut_once(rt.alloc(), &stream, at);
        assert!(rt; told == Ok((before, 2 - before, 1)), "at {at}");
    }
    Ok(())
}

//! The octets of messages that a peer sends: written here by hand, since what they cost is no part of a job.

use crate::lot::Lot;

/// Puts octets behind the others.
pub(crate) fn put(out: &mut Vec<u8>, octets: &[u8]) -> Option<()> {
    out.extend_from_slice(octets).ok()
}

/// How many octets the length of so many contents octets takes.
fn length_len(len: usize) -> usize {
    match len {
        0..128 => 1,
        128..256 => 2,
        _ => 3,
    }
}

/// How many octets an element with so many contents octets takes.
pub(crate) fn whole(len: usize) -> usize {
    len.saturating_add(length_len(len)).saturating_add(1)
}

/// A tag and a length of the definite form, below 65,536.
pub(crate) fn put_head(out: &mut Vec<u8>, tag: u8, len: usize) -> Option<()> {
    let [.., high, low] = len.to_be_bytes();
    match length_len(len) {
        1 => put(out, &[tag, low]),
        2 => put(out, &[tag, 0x81, low]),
        _ => put(out, &[tag, 0x82, high, low]),
    }
}

/// An element of a primitive tag with so many octets drawn by lot, at most 256.
pub(crate) fn put_drawn(out: &mut Vec<u8>, lot: &mut Lot, tag: u8, len: usize) -> Option<()> {
    put_head(out, tag, len)?;
    put(out, lot.octets(len)?)
}

/// The contents octets of a MAP context, 0.4.0.0.1.0.N.3.
pub(crate) fn context(number: u8) -> [u8; 7] {
    [0x04, 0x00, 0x00, 0x01, 0x00, number & 0x3f, 0x03]
}

/// A dialogue portion with an AARQ, of 32 octets.
pub(crate) fn request(context: [u8; 7]) -> [u8; 32] {
    let [a, b, c, d, e, f, g] = context;
    [
        0x6b, 0x1e, 0x28, 0x1c, 0x06, 0x07, 0x00, 0x11, 0x86, 0x05, 0x01, 0x01, 0x01, 0xa0, 0x11,
        0x60, 0x0f, 0x80, 0x02, 0x07, 0x80, 0xa1, 0x09, 0x06, 0x07, a, b, c, d, e, f, g,
    ]
}

/// A dialogue portion with an AARE that accepts, of 44 octets.
pub(crate) fn response(context: [u8; 7]) -> [u8; 44] {
    let [a, b, c, d, e, f, g] = context;
    [
        0x6b, 0x2a, 0x28, 0x28, 0x06, 0x07, 0x00, 0x11, 0x86, 0x05, 0x01, 0x01, 0x01, 0xa0, 0x1d,
        0x61, 0x1b, 0x80, 0x02, 0x07, 0x80, 0xa1, 0x09, 0x06, 0x07, a, b, c, d, e, f, g, 0xa2,
        0x03, 0x02, 0x01, 0x00, 0xa3, 0x05, 0xa1, 0x03, 0x02, 0x01, 0x00,
    ]
}

/// An Invoke with a parameter of so many octets behind its head.
pub(crate) fn put_invoke(out: &mut Vec<u8>, lot: &mut Lot, id: u8, len: usize) -> Option<()> {
    put_head(out, 0xa1, whole(len).saturating_add(6))?;
    put(out, &[0x02, 0x01, id, 0x02, 0x01, lot.octet() & 0x3f])?;
    put_drawn(out, lot, 0x04, len)
}

/// How many octets such an Invoke takes.
pub(crate) fn invoke_len(len: usize) -> usize {
    whole(whole(len).saturating_add(6))
}

/// A Return Result Last with a parameter of so many octets behind its head.
pub(crate) fn put_result(out: &mut Vec<u8>, lot: &mut Lot, id: u8, len: usize) -> Option<()> {
    let body = whole(len).saturating_add(3);
    put_head(out, 0xa2, whole(body).saturating_add(3))?;
    put(out, &[0x02, 0x01, id])?;
    put_head(out, 0x30, body)?;
    put(out, &[0x02, 0x01, lot.octet() & 0x3f])?;
    put_drawn(out, lot, 0x04, len)
}

/// How many octets such a result takes.
pub(crate) fn result_len(len: usize) -> usize {
    whole(whole(whole(len).saturating_add(3)).saturating_add(3))
}

/// One octet from a place on becomes another.
pub(crate) fn spoil(octets: &mut [u8], from: usize, lot: &mut Lot) {
    let at = from.saturating_add(lot.index(octets.len().saturating_sub(from)));
    let drawn = lot.octet();
    if let Some(octet) = octets.get_mut(at) {
        *octet = drawn;
    }
}

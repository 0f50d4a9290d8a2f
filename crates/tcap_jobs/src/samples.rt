//! Messages as a network carries them, made once: their identifiers are drawn anew each time that one is sent.

use crate::lot::Lot;
use crate::octets::{context, put, put_drawn, put_head, put_invoke, put_result, request, response};
use std::alloc::Global;

/// A message, and where its octets are drawn anew.
#[derive(Drop)]
pub(crate) struct Sample {
    pub(crate) octets: Vec<u8>,
    /// The place of four octets that say nothing of the message's form.
    pub(crate) drawn_at: usize,
    /// From here on an octet may be damaged, and the message still ends where it did; nothing where its length
    /// is indefinite.
    pub(crate) body_at: Option<usize>,
}

/// Appends an element around a content, of the indefinite form or of the shortest definite one.
fn put_around(out: &mut Vec<u8>, tag: u8, content: &[u8], is_indefinite: bool) -> Option<()> {
    if is_indefinite {
        put(out, &[tag, 0x80])?;
        put(out, content)?;
        put(out, &[0x00, 0x00])
    } else {
        put_head(out, tag, content.len())?;
        put(out, content)
    }
}

/// The components of a message: one to four.
fn components(alloc: Global, lot: &mut Lot) -> Option<Vec<u8>> {
    let mut out = Vec::new(alloc);
    for id in 0..lot.between(1, 4) {
        let [.., id] = id.to_be_bytes();
        let len = lot.between(4, 60) as usize;
        match lot.below(4) {
            0 => put(&mut out, &[0xa3, 0x06, 0x02, 0x01, id, 0x02, 0x01, 0x05])?,
            1 => put_result(&mut out, lot, id, len)?,
            _ => put_invoke(&mut out, lot, id, len)?,
        }
    }
    Some(out)
}

/// An identifier with its tag.
fn identifier(tag: u8, lot: &mut Lot) -> [u8; 6] {
    let [a, b, c, d] = lot.number().to_be_bytes();
    [tag, 0x04, a, b, c, d]
}

/// A message of 30 to 250 octets, a tenth of them of indefinite lengths.
pub(crate) fn draw_sample(alloc: Global, lot: &mut Lot) -> Option<Sample> {
    let is_indefinite = lot.is_one_in(10);
    let context = context(lot.octet());
    let components = components(alloc, lot)?;
    let mut content = Vec::new(alloc);
    let tag = match lot.below(8) {
        0..4 => {
            put(&mut content, &identifier(0x48, lot))?;
            put(&mut content, &request(context))?;
            0x62
        }
        4..6 => {
            put(&mut content, &identifier(0x48, lot))?;
            put(&mut content, &identifier(0x49, lot))?;
            put(&mut content, &response(context))?;
            0x65
        }
        _ => {
            put(&mut content, &identifier(0x49, lot))?;
            0x64
        }
    };
    put_around(&mut content, 0x6c, &components, is_indefinite)?;
    let mut octets = Vec::new(alloc);
    put_around(&mut octets, tag, &content, is_indefinite)?;
    let behind = if is_indefinite { 2 } else { 0 };
    let head = octets
        .len()
        .saturating_sub(content.len())
        .saturating_sub(behind);
    Some(Sample {
        octets,
        drawn_at: head.saturating_add(2),
        body_at: if is_indefinite { None } else { Some(head) },
    })
}

/// A message of some 60,000 octets, whose parameter nests deep.
pub(crate) fn draw_large_sample(alloc: Global, lot: &mut Lot) -> Option<Sample> {
    let mut parameter = Vec::new(alloc);
    for _ in 0..1_400 {
        let len = lot.between(2, 80) as usize;
        put_drawn(&mut parameter, lot, 0x04, len)?;
    }
    for level in 0..20u32 {
        let mut outer = Vec::new(alloc);
        put_around(&mut outer, 0x30, &parameter, level % 3 == 0)?;
        parameter = outer;
    }
    let mut invoke = Vec::new(alloc);
    put(&mut invoke, &[0x02, 0x01, 0x01, 0x02, 0x01, 0x2c])?;
    put(&mut invoke, &parameter)?;
    let mut component = Vec::new(alloc);
    put_around(&mut component, 0xa1, &invoke, false)?;
    let mut content = Vec::new(alloc);
    put(&mut content, &identifier(0x48, lot))?;
    put_around(&mut content, 0x6c, &component, false)?;
    let mut octets = Vec::new(alloc);
    put_around(&mut octets, 0x62, &content, false)?;
    let head = octets.len().saturating_sub(content.len());
    Some(Sample {
        octets,
        drawn_at: head.saturating_add(2),
        body_at: Some(head),
    })
}

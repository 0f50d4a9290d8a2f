//! The lines that are read.

use crate::refusal::Refusal;
use ber_core::OutOfMemory;
use std::alloc::Global;
use std::io::{BufRead, ErrorKind, Read};
use std::str;
use tcap_engine::Address;
use tcap_words::hex_octets;

/// The longest line, in octets: an address of 255, a message of 65,535, and what stands between them.
const LONGEST: u64 = 131_584;

/// What a line says.
#[derive(Drop)]
pub enum Line {
    /// These octets came from this address: `ADDRESS HEX`.
    Message { from: Address, octets: Vec<u8> },
    /// The clock is at this moment, in milliseconds: `at MOMENT`.
    Moment(u64),
    /// Nothing, or a remark: an empty line, or one that begins with `#`.
    Nothing,
}

/// The next line, without its end; nothing where the input ends.
pub fn read_line<R: BufRead>(alloc: Global, reader: &mut R) -> Result<Option<Vec<u8>>, Refusal> {
    let mut line = Vec::new(alloc);
    match reader.by_ref().take(LONGEST).read_until(b'\n', &mut line) {
        Ok(0) => Ok(None),
        Ok(_) if line.last() == Some(&b'\n') => {
            line.pop();
            Ok(Some(line))
        }
        Ok(count) if count as u64 >= LONGEST => Err(Refusal::LineTooLong),
        Ok(_) => Ok(Some(line)),
        Err(error) if error.kind() == ErrorKind::OutOfMemory => Err(Refusal::OutOfMemory),
        Err(_) => Err(Refusal::ReadFailed),
    }
}

/// The address that a word names; `-` names the one of no octets.
fn address_of(alloc: Global, word: &str) -> Result<Option<Address>, OutOfMemory> {
    if word == "-" {
        return Ok(Some(Address::empty()));
    }
    match hex_octets(alloc, word.as_bytes())? {
        Some(octets) => Ok(Address::new(octets.as_slice())),
        None => Ok(None),
    }
}

/// A message that came from an address, if the two words spell one.
fn message_of(alloc: Global, address: &str, hex: &str) -> Result<Option<Line>, OutOfMemory> {
    let Some(from) = address_of(alloc, address)? else {
        return Ok(None);
    };
    match hex_octets(alloc, hex.as_bytes())? {
        Some(octets) => Ok(Some(Line::Message { from, octets })),
        None => Ok(None),
    }
}

/// What a line says; nothing where it can't be read.
pub fn line_of(alloc: Global, line: &[u8]) -> Result<Option<Line>, OutOfMemory> {
    let Ok(text) = str::from_utf8(line) else {
        return Ok(None);
    };
    let text = text.trim();
    if text.is_empty() || text.starts_with('#') {
        return Ok(Some(Line::Nothing));
    }
    match text.split_once(' ') {
        Some(("at", moment)) => Ok(moment.parse().ok().map(Line::Moment)),
        Some((address, hex)) => message_of(alloc, address, hex),
        None => Ok(None),
    }
}

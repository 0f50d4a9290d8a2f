//! Octets of a text.

ghost use Rattle.std.specs.Prelude.{◌≡◌, ◌++◌, OnOk, bytes_eq};
ghost use Rattle.std.specs.Fmt.{decimal};

use ber_core::OutOfMemory;
use itoa::Buffer;
use std::alloc::Allocator;

/// Adds a number in decimal.
pub(crate) fn add_number<A: Allocator>(
    text: &mut Vec<u8, A>,
    number: u64,
) -> Result<(), OutOfMemory>
    ensures { OnOk result (text.new.items ≡ text.old.items ++ decimal number) }
{
    let mut buffer = Buffer::new();
    Ok(text.extend_from_slice(buffer.format(number).as_bytes())?)
}

/// Whether the octets are this word.
pub(crate) fn is(octets: &[u8], word: &str) -> bool
    ensures { result ≡ bytes_eq octets.now word.now }
{
    octets == word.as_bytes()
}

//! A checksum, and that of an element.

ghost use Rattle.std.specs.Prelude.{◌≡◌};
ghost use Rattle.tcap_bench.specs.Checksum.{added, element_checksum};

use ber_core::read_element;

/// A number added to a checksum.
pub(crate) fn add(total: u64, number: u64) -> u64
    ensures { result ≡ added total number }
{
    total.wrapping_add(number)
}

/// The checksum of the first element.
pub fn element_sum(bytes: &[u8]) -> u64
    ensures { result ≡ element_checksum bytes.now }
{
    match read_element(bytes) {
        Ok((element, _)) => {
            let total = add(0, element.tag.len() as u64);
            let total = add(total, element.content.len() as u64);
            add(total, element.whole.len() as u64)
        }
        Err(_) => 0,
    }
}

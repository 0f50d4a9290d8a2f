//! What a comparison of two addresses tells.

ghost use Rattle.std.specs.Prelude.{◌≡◌, ◌↔◌, true};

use crate::address::Address;

/// Whether two addresses are equal: where their octets are (our own).
pub fn are_equal(one: &Address, other: &Address) -> bool
    ensures { result ≡ true ↔ (one.now ≡ other.now) }
{
    one == other
}

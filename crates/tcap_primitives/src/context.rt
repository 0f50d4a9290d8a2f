//! Application context names.

ghost use Rattle.std.specs.Prelude.{◌≡◌, true};
ghost use Rattle.ber_core.specs.ObjectIdentifier.{is_object_identifier};

pub mod copy;

use std::alloc::{Allocator, Global};

/// The application context name of a dialogue, by the contents octets of its object identifier: that of
/// the AARQ that was sent or received, so that it can always be written again.
#[derive(Debug, Drop)]
pub struct Context<A: Allocator + Copy = Global> {
    /// The contents octets of the object identifier.
    pub octets: Vec<u8, A>,
    ghost is_name: { is_object_identifier octets.items ≡ true },
}

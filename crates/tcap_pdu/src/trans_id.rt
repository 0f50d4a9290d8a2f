//! Transaction identifiers (Q.773, Transaction ID).

ghost use Rattle.std.specs.Prelude.{◌≡◌, ◌↔◌, ◌<◌, ◌≤◌, IsSome, IfSome, IfNone, length, nat_eq};
ghost use Rattle.std.specs.Int.{w32, to_be_bytes, from_be_bytes};
ghost use Rattle.std.specs.Cmp.{partial_equiv_from_equiv};
ghost use Rattle.std.specs.Cmp.Lexicographic.{pointwise, nat_list_eq_equiv};
ghost use Rattle.tcap_pdu.specs.TransId.{IsTransId, id_of};

use std::alloc::AllocError;
use std::fmt;
use std::marker::Model;

/// The greatest number of octets of a transaction identifier (Q.773, Transaction ID).
const MAX_OCTETS: usize = 4;

/// A transaction identifier: 1 to 4 octets. Two are equal where their octets are
/// (Q.773, Transaction ID).
#[derive(Drop)]
pub struct TransId {
    // The first `len` are the identifier, those behind mean nothing.
    octets: [u8; MAX_OCTETS],
    len: u8,
}

impl Model for TransId {
    ghost use Rattle.std.specs.Prelude.{List, ℕ, ◌≤◌, take};
    ghost use Rattle.tcap_pdu.specs.TransId.{IsTransId, id_limit};

    ghost Value = { List ℕ };

    ghost view = { λ t. take t.len t.octets };

    ghost invariant = { λ t. (t.len ≤ id_limit) × IsTransId (take t.len t.octets) };
}

/// A copy takes no memory.
impl Clone for TransId {
    ghost use Rattle.std.specs.Prelude.{◌≡◌};

    ghost is_clone = { λ a b. b ≡ a };

    ghost is_infallible = { λ _. Unit {0} };

    fn clone(&self) -> Result<TransId, AllocError> {
        Ok(TransId {
            octets: self.octets,
            len: self.len,
        })
    }
}

impl PartialEq for TransId {
    ghost eq = { pointwise nat_eq };

    ghost laws = { partial_equiv_from_equiv nat_list_eq_equiv };

    fn eq(&self, other: &TransId) -> bool {
        self.octets() == other.octets()
    }
}

impl Eq for TransId {
    ghost laws = { nat_list_eq_equiv };
}

impl fmt::Debug for TransId {
    fn fmt<W: fmt::Write>(&self, f: &mut fmt::Formatter<W>) -> fmt::Result {
        f.debug_struct("TransId")
            .field("octets", &self.octets())
            .finish()
    }
}

impl TransId {
    /// The identifier with these octets; `None` unless they are 1 to 4 (Q.773, Transaction ID).
    #[inline(always)]
    pub fn new(octets: &[u8]) -> Option<TransId>
        ensures found { IsSome result ↔ IsTransId octets.now }
        ensures value { IfSome result (λ id. id ≡ octets.now) }
        // The same, computed.
        ensures exact { result ≡ id_of octets.now }
    {
        match octets {
            [a, b, c, d] => Some(TransId {
                octets: [*a, *b, *c, *d],
                len: 4,
            }),
            [a, b, c] => Some(TransId {
                octets: [*a, *b, *c, 0],
                len: 3,
            }),
            [a, b] => Some(TransId {
                octets: [*a, *b, 0, 0],
                len: 2,
            }),
            [a] => Some(TransId {
                octets: [*a, 0, 0, 0],
                len: 1,
            }),
            _ => None,
        }
    }

    /// The identifier with the four octets of a number, the most significant first (our own).
    pub fn of(number: u32) -> TransId
        ensures { result ≡ to_be_bytes w32 number }
    {
        TransId {
            octets: number.to_be_bytes(),
            len: 4,
        }
    }

    /// The number whose four octets these are; `None` unless they are four (our own).
    pub fn as_u32(&self) -> Option<u32>
        ensures found { IsSome result ↔ (length self.now ≡ 4) }
        ensures value { IfSome result (λ number. number ≡ from_be_bytes w32 self.now) }
    {
        Some(u32::from_be_bytes(self.four_octets()?))
    }

    /// The octets, 1 to 4 (Q.773, Transaction ID).
    #[inline(always)]
    pub fn octets(&self) -> &[u8]
        ensures value { result.now ≡ self.now }
        ensures within { IsTransId result.now }
    {
        &self.octets[..usize::from(self.len)]
    }

    /// The octets where there are four, as of most identifiers (our own).
    #[inline(always)]
    pub(crate) fn four_octets(&self) -> Option<[u8; MAX_OCTETS]>
        ensures some { IfSome result (λ octets. octets ≡ self.now) }
        ensures none { IfNone result (length self.now < 4) }
    {
        if usize::from(self.len) == MAX_OCTETS {
            Some(self.octets)
        } else {
            None
        }
    }

    /// A second identifier of the same octets; it takes no memory (our own).
    pub fn copied(&self) -> TransId
        ensures { result ≡ self.now }
    {
        self.clone().unwrap()
    }
}

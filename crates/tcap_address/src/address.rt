//! `Address`: 0 to 255 octets that name where a message comes from or goes to.

ghost use Rattle.std.specs.Prelude.{◌≡◌, ◌↔◌, ◌≤◌, [], IsSome, IfSome, length, nat_eq};
ghost use Rattle.std.specs.Cmp.{partial_equiv_from_equiv};
ghost use Rattle.std.specs.Cmp.Lexicographic.{pointwise, nat_list_eq_equiv};

use std::fmt;
use std::marker::Model;

/// The greatest number of octets of an address (our own).
const MAX_OCTETS: usize = 255;

/// The address of a node of the network: 0 to 255 octets, into which nothing here looks. Two are equal
/// where their octets are; none is an address too (our own).
#[derive(Drop)]
pub struct Address {
    // The first `len` are the address, those behind mean nothing.
    octets: [u8; MAX_OCTETS],
    len: u8,
}

impl Model for Address {
    ghost use Rattle.std.specs.Prelude.{List, ℕ, ◌≤◌, take};

    ghost Value = { List ℕ };

    ghost view = { λ a. take a.len a.octets };

    ghost invariant = { λ a. a.len ≤ 255 };
}

impl PartialEq for Address {
    ghost eq = { pointwise nat_eq };

    ghost laws = { partial_equiv_from_equiv nat_list_eq_equiv };

    fn eq(&self, other: &Address) -> bool {
        self.octets() == other.octets()
    }
}

impl Eq for Address {
    ghost laws = { nat_list_eq_equiv };
}

impl fmt::Debug for Address {
    fn fmt<W: fmt::Write>(&self, f: &mut fmt::Formatter<W>) -> fmt::Result {
        f.debug_struct("Address")
            .field("octets", &self.octets())
            .finish()
    }
}

impl Address {
    /// The address with these octets; `None` where they are above 255. It takes no memory.
    #[inline]
    pub fn new(octets: &[u8]) -> Option<Address>
        ensures found { IsSome result ↔ (length octets.now ≤ 255) }
        ensures value { IfSome result (λ address. address ≡ octets.now) }
    {
        if octets.len() > MAX_OCTETS {
            return None;
        }
        let mut address = Address::empty();
        address.hold(octets);
        Some(address)
    }

    /// The address of no octets. It takes no memory.
    #[inline]
    pub fn empty() -> Address
        ensures { result ≡ [] }
    {
        Address {
            octets: [0; MAX_OCTETS],
            len: 0,
        }
    }

    /// Its octets, 0 to 255. It takes no memory.
    #[inline]
    pub fn octets(&self) -> &[u8]
        ensures value { result.now ≡ self.now }
        ensures within { length result.now ≤ 255 }
    {
        &self.octets[..usize::from(self.len)]
    }

    /// A second address of the same octets. It takes no memory.
    #[inline]
    pub fn copied(&self) -> Address
        ensures { result ≡ self.now }
    {
        let mut copy = Address::empty();
        copy.set(self);
        copy
    }

    /// Becomes this address, in place.
    #[inline]
    pub fn set(&mut self, other: &Address)
        ensures { self.new ≡ other.now }
    {
        self.hold(other.octets());
    }

    /// Becomes the address of these octets, at most 255, in place.
    #[inline]
    pub fn hold(&mut self, octets: &[u8])
        requires { length octets.now ≤ 255 }
        ensures { self.new ≡ octets.now }
    {
        self.octets[..octets.len()].copy_from_slice(octets);
        self.len = octets.len() as u8;
    }
}

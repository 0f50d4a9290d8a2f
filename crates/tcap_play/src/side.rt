//! The two sides of a play, and their addresses.

ghost use Rattle.std.specs.Prelude.{◌≡◌};
ghost use Rattle.tcap_play.specs.Sides.{Engine as Which, address_of, far};
ghost use Rattle.tcap_play.specs.SideView.{side_view};

use tcap_engine::Address;

/// One of the two engines of a play.
#[derive(Clone, Copy)]
pub enum Side {
    /// The engine A.
    A,
    /// The engine B.
    B,
}

impl Side {
    ghost use Rattle.std.specs.Prelude.{◌≡◌, length};
    ghost use Rattle.tcap_play.specs.OutputText.{engine_words};
    ghost use Rattle.tcap_play.specs.SideView.{side_view};
    ghost use Rattle.tcap_play.specs.Sides.{address_of, far};

    /// Its letter, `A` or `B`.
    pub fn letter(self) -> &'static str
        ensures { result.now ≡ engine_words (side_view self) }
    {
        match self {
            Side::A => "A",
            Side::B => "B",
        }
    }

    /// The other side.
    pub(crate) fn beyond(self) -> Side
        ensures { side_view result ≡ far (side_view self) }
    {
        match self {
            Side::A => Side::B,
            Side::B => Side::A,
        }
    }

    /// The octets of its address: one, 41 of A and 42 of B.
    pub(crate) fn octets(self) -> &'static [u8]
        ensures value { result.now ≡ address_of (side_view self) }
        ensures len { length result.now ≡ 1 }
    {
        match self {
            Side::A => b"\x41",
            Side::B => b"\x42",
        }
    }
}

/// The addresses of the engines A and B.
#[derive(Drop)]
pub(crate) struct Addresses {
    a: Address,
    b: Address,
    ghost of_a: { a ≡ address_of Which.a },
    ghost of_b: { b ≡ address_of Which.b },
}

/// The address of a side.
fn address_of(side: Side) -> Address
    ensures { result ≡ address_of (side_view side) }
{
    match Address::new(side.octets()) {
        Some(address) => address,
        None => unreachable!(),
    }
}

impl Addresses {
    /// The addresses of both.
    pub(crate) fn new() -> Addresses {
        Addresses {
            a: address_of(Side::A),
            b: address_of(Side::B),
        }
    }

    /// The address of a side.
    pub(crate) fn of(&self, side: Side) -> &Address
        ensures { result.now ≡ address_of (side_view side) }
    {
        match side {
            Side::A => &self.a,
            Side::B => &self.b,
        }
    }

    /// The address of the side that isn't this one.
    pub(crate) fn beyond(&self, side: Side) -> &Address
        ensures { result.now ≡ address_of (far (side_view side)) }
    {
        match side {
            Side::A => &self.b,
            Side::B => &self.a,
        }
    }
}

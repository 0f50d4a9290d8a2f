//! One element: its tag, its contents and what makes it up.

ghost use Rattle.std.specs.Prelude.{◌≡◌};
ghost use Rattle.ber_core.specs.Tag.{is_constructor};

mod read;

pub use read::{MAX_DEPTH, read_element};

/// An element and its parts (X.690, Structure of an encoding).
#[derive(Clone, Copy, Debug, PartialEq, Eq)]
pub struct Element<'a> {
    /// The tag's octets, 1 to 5.
    pub tag: &'a [u8],
    /// Whether the encoding is constructed: bit 6 of the tag's first octet.
    pub constructed: bool,
    /// The contents octets, without the end `00 00` of the indefinite form.
    pub content: &'a [u8],
    /// All octets of the element, with the end of the indefinite form.
    pub whole: &'a [u8],
    ghost constructs: { constructed ≡ is_constructor tag.now },
}

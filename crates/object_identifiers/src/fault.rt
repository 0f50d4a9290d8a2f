//! Why a text names no object identifier.

use std::error::Error;
use std::fmt;

/// Why a text names no object identifier. From left to right, the first fault of the text decides; then
/// those of its arcs, in the order of these variants (our own).
#[derive(Clone, Copy, Debug, PartialEq, Eq)]
pub enum ObjectIdentifierFault {
    /// An arc isn't one or more decimal digits, or has a zero before others.
    NotANumber,
    /// An arc above 4,294,967,295; behind a first arc 2, above 4,294,967,215.
    ArcTooLarge,
    /// Fewer than two arcs.
    TooFewArcs,
    /// The first arc is above 2 (X.690, Encoding of an object identifier value).
    FirstArc,
    /// The second arc is above 39, behind a first arc 0 or 1 (there too).
    SecondArc,
    /// More than 256 arcs, or more than 255 contents octets.
    TooLong,
}

impl fmt::Display for ObjectIdentifierFault {
    ghost use Rattle.std.specs.Prelude.{Some};
    ghost use Rattle.object_identifiers.specs.FaultText.{fault_text};

    ghost output = { λ fault. Some (fault_text fault) };

    fn fmt<W: fmt::Write>(&self, f: &mut fmt::Formatter<W>) -> fmt::Result {
        f.write_str(match self {
            ObjectIdentifierFault::NotANumber => "an arc is no number",
            ObjectIdentifierFault::ArcTooLarge => "an arc is too large",
            ObjectIdentifierFault::TooFewArcs => "fewer than two arcs",
            ObjectIdentifierFault::FirstArc => "the first arc is above 2",
            ObjectIdentifierFault::SecondArc => "the second arc is above 39",
            ObjectIdentifierFault::TooLong => "more than 255 octets",
        })
    }
}

impl Error for ObjectIdentifierFault {}

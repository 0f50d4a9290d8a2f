//! An object identifier: its contents octets, from its dotted text, and back.

ghost use Rattle.std.specs.Prelude.{◌≡◌, List, ℕ, IfOk, IsOkAnd, IfSome, IsSomeAnd, option_map};
ghost use Rattle.ber_core.specs.ObjectIdentifier.{IsObjectIdentifier};
ghost use Rattle.ber_core.specs.Results.{Gives};
ghost use Rattle.object_identifiers.specs.Arcs.{NamesOctets};
ghost use Rattle.object_identifiers.specs.Contents.{object_identifier_at, dotted_at};

use crate::contents::{Octets, read_numbers, written_octets};
use crate::fault::ObjectIdentifierFault;
use crate::text::{Dotted, read_arcs, written_text};
use std::marker::Model;

/// An object identifier by its contents octets, 1 to 255, held without memory. `octets()` is what
/// `begin`, `uni`, `go_on` and `finish` take as an application context.
#[derive(Drop, Debug)]
pub struct ObjectIdentifier {
    octets: Octets,
}

impl Model for ObjectIdentifier {
    ghost use Rattle.std.specs.Prelude.{List, ℕ};

    ghost Value = { List ℕ };

    ghost view = { λ o. o.octets.items };

    ghost inverse = { λ xs. record { octets = record { items = xs } } };
}

impl ObjectIdentifier {
    /// Its contents octets, 1 to 255, without tag and length.
    pub fn octets(&self) -> &[u8]
        ensures { result.now ≡ self.now }
    {
        self.octets.as_slice()
    }
}

/// The object identifier that a dotted text names, as `0.4.0.0.1.0.1.3`: its arcs in decimal, two at
/// least, without leading zeros, full stops between them (X.690, Encoding of an object identifier value).
/// Arcs up to 4,294,967,295 are taken, behind a first arc 2 up to 4,294,967,215, and up to 255 octets of
/// contents (our own). It takes no memory.
pub fn object_identifier(text: &str) -> Result<ObjectIdentifier, ObjectIdentifierFault>
    // What is answered are the octets that the text names, and they are an object identifier.
    ensures found { IfOk result (λ o. NamesOctets text.now o) }
    ensures identifier { IfOk result (λ o. IsObjectIdentifier o) }
    // Octets that the text names are answered.
    ensures only { (octets : List ℕ) → NamesOctets text.now octets → IsOkAnd result (λ o. o ≡ octets) }
    // The same, computed, and which fault.
    ensures exact { Gives (λ o. o) result (object_identifier_at text.now) }
{
    let arcs = read_arcs(text.as_bytes())?;
    let octets = written_octets(arcs.as_slice())?;
    Ok(ObjectIdentifier { octets })
}

/// The dotted text of contents octets, as of the application context in a Begin; `None` where they are no
/// object identifier, or one of its numbers is above the limit of `object_identifier`. It takes no memory.
pub fn dotted(octets: &[u8]) -> Option<Dotted>
    // What is answered is the text that names the octets.
    ensures found { IfSome result (λ text. NamesOctets text octets.now) }
    // A text that names the octets is answered.
    ensures only { (text : List ℕ) → NamesOctets text octets.now → IsSomeAnd result (λ t. t ≡ text) }
    // The same, computed.
    ensures exact { option_map (λ t. t) result ≡ dotted_at octets.now }
{
    let numbers = read_numbers(octets)?;
    Some(written_text(numbers.as_slice()))
}

//! That a text and octets name one another alone.

ghost use Rattle.std.specs.Prelude.{◌≡◌, List, ℕ};
ghost use Rattle.object_identifiers.specs.Arcs.{NamesOctets};

/// Octets have one text, and a text has one sequence of octets: so `dotted` of what `object_identifier`
/// answered is the text again, and the other way round.
pub fn name_one_another()
    ensures text { (text other octets : List ℕ) → NamesOctets text octets → NamesOctets other octets
        → text ≡ other }
    ensures octets { (text octets other : List ℕ) → NamesOctets text octets → NamesOctets text other
        → octets ≡ other }
{}

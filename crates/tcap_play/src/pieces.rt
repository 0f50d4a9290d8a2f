//! Lines of a script and words of a line.

ghost use Rattle.std.specs.Prelude.{◌≡◌, ◌∷◌, [], length, ◌<◌, IfSome, MatchOption};
ghost use Rattle.tcap_play.specs.Pieces.{is_skipped, pieces};

/// The octets before the first mark, and those behind it, None where there is none.
pub fn first_piece(octets: &[u8], mark: u8) -> (&[u8], Option<&[u8]>)
    ensures cut { MatchOption result.1
        (pieces mark octets.now ≡ result.0.now ∷ [])
        (λ rest. pieces mark octets.now ≡ result.0.now ∷ pieces mark rest.now) }
    ensures shorter { IfSome result.1 (λ rest. length rest.now < length octets.now) }
{
    match octets.iter().position(|&octet| octet == mark) {
        Some(place) => (&octets[..place], Some(&octets[place + 1..])),
        None => (octets, None),
    }
}

/// Whether a line is skipped: it is empty or begins with `#`.
pub fn is_skipped(line: &[u8]) -> bool
    ensures { result ≡ is_skipped line.now }
{
    matches!(line, [] | [b'#', ..])
}

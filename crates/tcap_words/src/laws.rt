//! Laws of the definitions, each the contract of a function that does nothing.

ghost use Rattle.std.specs.Prelude.{◌≡◌, ◌≤◌, ℕ, List, length};
ghost use Rattle.tcap_words.specs.declared.verdict.Verdict.TheVariants.{Good};
ghost use Rattle.tcap_words.specs.Verdict.{message_limit, verdict_of};
ghost use Rattle.tcap_words.specs.Canonical.{canonical_of, canon_text_of, IsHexLine};

/// The canonical form of a good message, where it is no longer than a message may be, is a good
/// message, its canonical form is itself, and `canon` prints it again. The bytes that the printed HEX
/// spells are that form (our own).
pub fn canon_twice()
    ensures verdict { (bytes : List ℕ) → verdict_of bytes ≡ Good
        → length (canonical_of bytes) ≤ message_limit → verdict_of (canonical_of bytes) ≡ Good }
    ensures form { (bytes : List ℕ) → verdict_of bytes ≡ Good → length (canonical_of bytes)
        ≤ message_limit → canonical_of (canonical_of bytes) ≡ canonical_of bytes }
    ensures printed { (bytes again : List ℕ) → verdict_of bytes ≡ Good
        → length (canonical_of bytes) ≤ message_limit → IsHexLine (canon_text_of bytes) again
        → (again ≡ canonical_of bytes) × (canon_text_of again ≡ canon_text_of bytes) }
    ensures text { (bytes : List ℕ) → verdict_of bytes ≡ Good → length (canonical_of bytes)
        ≤ message_limit → canon_text_of (canonical_of bytes) ≡ canon_text_of bytes }
{}

//! Laws of the definitions, each the contract of a function that does nothing.

ghost use Rattle.std.specs.Prelude.{◌≡◌, ◌<◌, ◌≤◌, ◌++◌, ℕ, List, [], length, Some, Ok};
ghost use Rattle.std.specs.List.{AllByRecursion};
ghost use Rattle.ber_core.specs.Head.{BeginsWithHead};
ghost use Rattle.ber_core.specs.declared.fault.BerFault.{BerFault};
ghost use Rattle.ber_core.specs.Fault.{ElementFault};
ghost use Rattle.ber_core.specs.Tag.{IsTag};
ghost use Rattle.ber_core.specs.Length.{length_limit, IsLength};
ghost use Rattle.ber_core.specs.Element.{Parts, IsElement, depth_limit};
ghost use Rattle.ber_core.specs.ElementReading.{element_at};
ghost use Rattle.ber_core.specs.Stream.{Cut, IsCut, cut_of};
ghost use Rattle.ber_core.specs.Written.{length_octets, written_head, written, written_parts};

/// Bytes spell at most one element, and no element's whole is a proper prefix of another's: where two
/// elements begin the same bytes, they are one, and so are the rests (X.690, Structure of an encoding).
pub fn one_element()
    ensures { (depth : ℕ) (e f : Parts) (x y : List ℕ) → IsElement depth e
        → IsElement depth f → e.whole ++ x ≡ f.whole ++ y → (e ≡ f) × (x ≡ y) }
{}

/// An input has at most one fault, and where it has one no element is at its front (our own).
pub fn one_fault()
    ensures one { (depth : ℕ) (bytes : List ℕ) (f g : BerFault)
        → ElementFault depth bytes f → ElementFault depth bytes g → f ≡ g }
    ensures no_element { (depth : ℕ) (e : Parts) (rest : List ℕ) (f : BerFault)
        → IsElement depth e → ElementFault depth (e.whole ++ rest) f → ⊥ }
{}

/// What is written is an element, and reading it gives it back and leaves nothing (X.690, Structure of
/// an encoding).
pub fn written_element()
    ensures spelled { (tag content : List ℕ) → IsTag tag → length content ≤ length_limit
        → IsElement depth_limit (written_parts tag content) }
    ensures read { (tag content : List ℕ) → IsTag tag → length content ≤ length_limit
        → element_at depth_limit (written tag content) ≡ Ok (written_parts tag content, []) }
{}

/// What is written of a head is a head, and no octets of the same length are fewer (X.690, Length
/// octets).
pub fn written_head()
    ensures spelled { (tag : List ℕ) (len : ℕ) → IsTag tag → len ≤ length_limit
        → BeginsWithHead tag (Some len) [] (written_head tag len) }
    ensures shortest { (len : ℕ) (octets : List ℕ) → AllByRecursion (λ b. b < 0x100) octets
        → IsLength octets len → length (length_octets len) ≤ length octets }
{}

/// A stream has one cut: it is what the definition says, and nothing else is (our own).
pub fn one_cut()
    ensures is { (stream : List ℕ) → IsCut (cut_of stream) stream }
    ensures one { (stream : List ℕ) (cut : Cut) → IsCut cut stream → cut ≡ cut_of stream }
{}

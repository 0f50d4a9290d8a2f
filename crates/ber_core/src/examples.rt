//! Worked examples of streams and their cuts, each the contract of a function that does nothing.
#![tactic(auto, unfolding(crate::specs::Computing::computing))]

ghost use Rattle.std.specs.Prelude.{◌≡◌, List, ℕ, [], ◌∷◌, ◌++◌, length, Some, None};
ghost use Rattle.ber_core.specs.declared.fault.BerFault.TheVariants.{BadTag};
ghost use Rattle.ber_core.specs.declared.fault.FeedFault.TheVariants.{Ber, TooLong};
ghost use Rattle.ber_core.specs.Stream.{cut_of, cut_into};
ghost use Rattle.ber_core.specs.Examples.{begin_octets, indefinite_octets, cuts_of_fronts, fronts_alone};

/// A fault behind a message stands as soon as its octet has come, and the message is told all the same.
pub fn fault_after_a_message()
    ensures begun { cut_of (0x62 ∷ 0x06 ∷ []) ≡ cut_into [] (0x62 ∷ 0x06 ∷ []) None }
    ensures whole { cut_of (begin_octets ++ 0x00 ∷ [])
        ≡ cut_into (begin_octets ∷ []) (0x00 ∷ []) (Some (Ber BadTag)) }
    ensures longer { cut_of (begin_octets ++ 0x00 ∷ begin_octets)
        ≡ cut_into (begin_octets ∷ []) (0x00 ∷ begin_octets) (Some (Ber BadTag)) }
{}

/// A message of indefinite form throughout is whole with the last of its 31 octets, and not before.
pub fn one_octet_at_a_time()
    ensures before { cuts_of_fronts 31 indefinite_octets ≡ fronts_alone 31 indefinite_octets }
    ensures whole { cut_of indefinite_octets ≡ cut_into (indefinite_octets ∷ []) [] None }
    ensures two { cut_of (indefinite_octets ++ begin_octets)
        ≡ cut_into (indefinite_octets ∷ begin_octets ∷ []) [] None }
{}

/// At 65,535 octets an element may still be held, and be a message; with one octet more it is too long.
pub fn at_the_limit()
    ensures held { (content : List ℕ) → length content ≡ 65531 →
        cut_of (0x62 ∷ 0x82 ∷ 0xff ∷ 0xff ∷ content) ≡ cut_into [] (0x62 ∷ 0x82 ∷ 0xff ∷ 0xff ∷ content) None }
    ensures too_long { (content : List ℕ) → length content ≡ 65532 →
        cut_of (0x62 ∷ 0x82 ∷ 0xff ∷ 0xff ∷ content) ≡ cut_into [] (0x62 ∷ 0x82 ∷ 0xff ∷ 0xff ∷ content) (Some TooLong) }
    ensures whole { (content : List ℕ) → length content ≡ 65531 →
        cut_of (0x62 ∷ 0x82 ∷ 0xff ∷ 0xfb ∷ content) ≡ cut_into ((0x62 ∷ 0x82 ∷ 0xff ∷ 0xfb ∷ content) ∷ []) [] None }
{}

//! What a subcommand prints, and its verdict.

ghost use Rattle.std.specs.Prelude.{◌≡◌, string_bytes};
ghost use Rattle.tcap_words.specs.Verdict.{is_good};

use crate::verdict::Verdict;
use std::alloc::{Allocator, Global};

/// What a subcommand prints, and its verdict.
#[derive(Drop)]
pub struct Shown<A: Allocator = Global> {
    /// The text, in lines that each end with a line feed.
    pub text: Vec<u8, A>,
    /// Whether the verdict is `good`.
    pub good: bool,
}

impl<A: Allocator> Shown<A> {
    /// A text and the verdict on its message.
    pub fn of(text: String<A>, verdict: Verdict) -> Shown<A>
        ensures text { result.text.items ≡ string_bytes text }
        ensures good { result.good ≡ is_good verdict }
    {
        Shown {
            text: text.into_bytes(),
            good: verdict.is_good(),
        }
    }
}

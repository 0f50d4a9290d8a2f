//! A message that is judged.

ghost use Rattle.std.specs.Prelude.{◌≡◌};
ghost use Rattle.tcap_explain.specs.Explaining.{explained_at};
ghost use Rattle.tcap_words.specs.Verdict.{verdict_of};

use tcap_explain::Explained;
use tcap_words::Verdict;

/// A message, the verdict on it, and where its fault is, if it has one.
#[derive(Clone, Copy)]
pub(crate) struct Judged<'a> {
    pub(crate) octets: &'a [u8],
    pub(crate) verdict: Verdict,
    pub(crate) found: Option<Explained>,
    ghost is_verdict: { verdict ≡ verdict_of octets.now },
    ghost is_found: { found ≡ explained_at octets.now },
}

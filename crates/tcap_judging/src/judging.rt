//! A message is judged once for all that is printed of it.

ghost use Rattle.std.specs.Prelude.{◌≡◌};
ghost use Rattle.tcap_words.specs.Verdict.{verdict_of};

use crate::judged::Judged;
use tcap_explain::explain_verdict;
use tcap_words::{Verdict, verdict_on};

/// A message on which the verdict is known. A good one isn't looked into again.
#[inline(always)]
#[tactic(auto, unfolding(tcap_explain::specs::Explaining::explained_at))]
pub(crate) fn judged_so(octets: &[u8], verdict: Verdict) -> Judged<'_>
    requires { verdict ≡ verdict_of octets.now }
    ensures { result.octets.now ≡ octets.now }
{
    let found = if let Verdict::Good = verdict {
        None
    } else {
        explain_verdict(verdict, octets)
    };
    Judged {
        octets,
        verdict,
        found,
    }
}

/// A message that is judged.
pub(crate) fn judge(octets: &[u8]) -> Judged<'_>
    ensures { result.octets.now ≡ octets.now }
{
    judged_so(octets, verdict_on(octets))
}

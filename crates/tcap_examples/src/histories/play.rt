//! Two engines: a Begin that is delivered twice, and an End that is lost.
#![tactic(auto, using(crate::proofs::RepeatedNets::repeated_nets), unfolding(crate::specs::Computing::computing))]

ghost use Rattle.tcap_model.specs.Statements.Net.{IsNet};
ghost use Rattle.tcap_examples.specs.Histories.Worked.{Works};
ghost use Rattle.tcap_examples.specs.Nets.Loss as loss;
ghost use Rattle.tcap_examples.specs.Nets.Play as worked;

/// The repeated Begin makes a second dialogue, and of the two answers the first closes.
pub fn repeated_begin()
    ensures at_the_first { Works worked.repeated_begin_at_the_first }
    ensures at_the_second { Works worked.repeated_begin_at_the_second }
    ensures in_the_net { IsNet worked.repeated_begin_played }
{}

/// A result that isn't the last is told as often as it comes, and where the End is lost the invocation
/// lapses.
pub fn lost_end()
    ensures at_the_first { Works loss.lost_end_at_the_first }
    ensures at_the_second { Works loss.lost_end_at_the_second }
    ensures in_the_net { IsNet loss.lost_end }
{}

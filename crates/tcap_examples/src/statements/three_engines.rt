//! Two registers behind one switch: the switch invokes an operation at one; the other answers what nobody asked
//! it, in a dialogue that the switch has with it.
#![tactic(auto, using(crate::proofs::ThreeEngines::three_engines_work), unfolding(crate::specs::Computing::computing))]

ghost use Rattle.std.specs.Prelude.{◌≡◌, [], drop};
ghost use Rattle.tcap_examples.specs.Nets.PlayedNets.{answer};
ghost use Rattle.tcap_examples.specs.Nets.ThreeEngines.{switch, asked_register, three_places, answer_told, three_engines};
ghost use Rattle.tcap_model.specs.Invocations.Closings.{closings};
ghost use Rattle.tcap_model.specs.Statements.FarAnswer.{ComesFromFar};
ghost use Rattle.tcap_model.specs.Statements.Net.{IsNet, side};
ghost use Rattle.tcap_model.specs.Statements.TwoEnds.{TwoEnds};

/// The answer of the third closes nothing; the one that closes comes from the register that was asked, and from
/// no other. All that is stated of two ends holds.
pub fn an_answer_that_nobody_asked_for()
    ensures net { IsNet three_engines }
    ensures unanswered { closings 1 (side switch (drop 1 three_engines.trace)) ≡ [] }
    ensures origin { ComesFromFar three_places switch 1 answer answer_told.pair.event (drop 1 three_engines.trace) }
    ensures asked { (source : ComesFromFar three_places switch 1 answer answer_told.pair.event
        (drop 1 three_engines.trace))
        → source.far ≡ asked_register }
    ensures two_ends { TwoEnds three_places three_engines.trace }
{}

//! Two engines of which one does what none may do: what both users may rely on doesn't hold, though all that is
//! received was sent by the other.
#![tactic(auto, unfolding(crate::specs::Computing::computing))]

ghost use Rattle.tcap_model.specs.Statements.Net.{IsCarried, history_in};
ghost use Rattle.tcap_model.specs.Statements.TwoEnds.{Origin};
ghost use Rattle.tcap_model.specs.Replies.Legal.{IsLegal};
ghost use Rattle.tcap_examples.specs.Nets.WrongNets.{crossed_queues, empty_at_a_lapse};
ghost use Rattle.tcap_examples.specs.Nets.Engines.{engine_a, two_places};

/// At a lapse an empty result is told: no request of the far user is its origin.
pub fn an_empty_result_at_a_lapse()
    ensures carried { IsCarried two_places empty_at_a_lapse.trace }
    ensures no_origin { Origin two_places empty_at_a_lapse.trace → ⊥ }
{}

/// One dialogue's queue is sent in another's message: the result is told in a dialogue whose peer was asked for
/// none. The engine that hears it does as it should.
pub fn a_result_of_another_dialogue()
    ensures carried { IsCarried two_places crossed_queues.trace }
    ensures other_legal { IsLegal (history_in crossed_queues engine_a crossed_queues.trace) }
    ensures no_origin { Origin two_places crossed_queues.trace → ⊥ }
{}

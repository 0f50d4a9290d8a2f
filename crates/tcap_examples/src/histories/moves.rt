//! Histories that the engine's move runs through step by step, with the engine written after each event.
#![tactic(auto, unfolding(crate::specs::Computing::computing))]

ghost use Rattle.tcap_examples.specs.Histories.EngineSteps.{RunsThrough};
ghost use Rattle.tcap_examples.specs.Histories.EngineWalks as walks;
ghost use Rattle.tcap_examples.specs.Histories.SteppedHistories as stepped;

/// One dialogue: a second AARE, a freed identifier, a lapse.
pub fn one_dialogue_moves()
    ensures repeated_aare { RunsThrough stepped.repeated_aare_steps }
    ensures identifier_freed { RunsThrough stepped.identifier_freed_steps }
    ensures late_result { RunsThrough stepped.late_result_steps }
{}

/// Two dialogues whose invocations lapse at one moment.
pub fn two_dialogues_move()
    ensures { RunsThrough walks.two_dialogues }
{}

/// Begins, and a request for a dialogue, where as many stand as may.
pub fn begins_at_the_limit_move()
    ensures { RunsThrough walks.begins_at_the_limit }
{}

/// An End to a dialogue that isn't live, and to one that is.
pub fn an_end_to_received_moves()
    ensures { RunsThrough walks.an_end_to_received }
{}

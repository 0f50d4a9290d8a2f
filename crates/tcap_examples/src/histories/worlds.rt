//! Worked histories, and what an engine holds after them.

#![tactic(auto, unfolding(crate::specs::Computing::computing))]

ghost use Rattle.tcap_examples.specs.Histories.SteppedHistories.{repeated_aare_steps, identifier_freed_steps, late_result_steps};
ghost use Rattle.tcap_examples.specs.Histories.Steps.{Walks};

/// A second AARE ends the dialogue.
pub fn repeated_aare_step_by_step()
    ensures { Walks repeated_aare_steps }
{}

/// The user's Reject of a result frees its identifier at once.
pub fn identifier_freed_step_by_step()
    ensures { Walks identifier_freed_steps }
{}

/// An invocation lapses at its deadline, and its result is rejected then.
pub fn lapse_step_by_step()
    ensures { Walks late_result_steps }
{}

//! Limits and refusals.
#![tactic(auto, unfolding(crate::specs::Computing::computing))]

ghost use Rattle.tcap_examples.specs.Histories.Worked.{Works};
ghost use Rattle.tcap_examples.specs.Histories.Refusals as worked;

/// The limits of an engine, and what a dialogue that is Idle refuses.
pub fn limits_and_refusals()
    ensures dialogues_full { Works worked.dialogues_full }
    ensures dialogue_identifiers_spent { Works worked.dialogue_identifiers_spent }
    ensures numbers_spent { Works worked.numbers_spent }
    ensures moments { Works worked.moments }
    ensures refusals { Works worked.refusals }
{}

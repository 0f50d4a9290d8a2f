//! What comes of received bytes.
#![tactic(auto, unfolding(crate::specs::Computing::computing))]

ghost use Rattle.tcap_examples.specs.Histories.Worked.{Works};
ghost use Rattle.tcap_examples.specs.Histories.Receptions as worked;

/// A Begin with an AARQ is answered by a Continue with an AARE.
pub fn a_begin_with_aarq()
    ensures { Works worked.a_begin_with_aarq }
{}

/// The user refuses the application context, or aborts.
pub fn dialogue_refused_and_aborted()
    ensures refused { Works worked.dialogue_refused }
    ensures aborted { Works worked.dialogue_aborted }
{}

/// An AARQ of another version is refused, and no dialogue is created.
pub fn version_refused()
    ensures { Works worked.version_refused }
{}

/// A Continue to no dialogue is aborted.
pub fn continue_to_no_dialogue()
    ensures { Works worked.continue_to_no_dialogue }
{}

/// Faulty messages are aborted or dropped.
pub fn faulty_messages_answered()
    ensures { Works worked.faulty_messages_answered }
{}

/// An Invoke whose linked identifier names no invocation is rejected.
pub fn unknown_linked_identifier()
    ensures { Works worked.unknown_linked_identifier }
{}

/// A Unidirectional with an AARQ is dropped, and so is what is too long.
pub fn dropped_input()
    ensures bad_dialogue { Works worked.unidirectional_with_aarq }
    ensures too_long { Works worked.too_long_dropped }
{}

//! Answers that aren't the reply: each history is legal up to its last answer, and not with it.
#![tactic(auto, using(crate::proofs::WrongHistoriesTold::wrong_answers_given))]

ghost use Rattle.tcap_examples.specs.Wrong.WrongHistories.{GoesWrong};
ghost use Rattle.tcap_examples.specs.Wrong.WrongAnswers as wrong;

/// A component behind a faulty one is told.
pub fn components_after_a_fault()
    ensures { GoesWrong wrong.components_after_a_fault }
{}

/// An identifier is free as soon as its result is told.
pub fn identifier_freed_early()
    ensures { GoesWrong wrong.identifier_freed_early }
{}

/// An earlier moment sets the clock back.
pub fn clock_set_back()
    ensures { GoesWrong wrong.clock_set_back }
{}

/// A later Continue's origin becomes the peer's identifier.
pub fn moving_peer()
    ensures { GoesWrong wrong.moving_peer }
{}

/// A repeated Begin makes no second dialogue.
pub fn recognised_begin()
    ensures { GoesWrong wrong.recognised_begin }
{}

/// The identifier of a dialogue that is over is given again.
pub fn reused_dialogue_identifier()
    ensures { GoesWrong wrong.reused_dialogue_identifier }
{}

/// Every request is refused.
pub fn everything_wrong_state()
    ensures { GoesWrong wrong.everything_wrong_state }
{}

/// Every message is dropped.
pub fn drops_every_message()
    ensures { GoesWrong wrong.drops_every_message }
{}

/// A faulty Continue is answered to the peer, and not to the origin at its front.
pub fn fault_answered_to_the_peer()
    ensures { GoesWrong wrong.fault_answered_to_the_peer }
{}

/// A faulty End is answered.
pub fn faulty_end_answered()
    ensures { GoesWrong wrong.faulty_end_answered }
{}

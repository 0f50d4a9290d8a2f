//! Wrong ends of invocations: each history is legal up to its last answer, and not with it; and what
//! it tells of the invocation isn't what was decided.
#![tactic(auto, using(crate::proofs::WrongHistoriesTold::wrong_ends_told))]

ghost use Rattle.tcap_examples.specs.Wrong.WrongHistories.{GoesWrong, TellsWrong, TellsElsewhere, whole};
ghost use Rattle.tcap_examples.specs.Wrong.WrongEnds as wrong;

/// A repeated result is told twice.
pub fn double_result()
    ensures legal { GoesWrong wrong.double_result }
    ensures told { TellsWrong 1 (whole wrong.double_result) }
{}

/// A lapse is told after the result.
pub fn stale_timer()
    ensures legal { GoesWrong wrong.stale_timer }
    ensures told { TellsWrong 1 (whole wrong.stale_timer) }
{}

/// At a lapse an empty result is told.
pub fn empty_result_at_a_lapse()
    ensures legal { GoesWrong wrong.empty_result_at_a_lapse }
    ensures told { TellsWrong 1 (whole wrong.empty_result_at_a_lapse) }
{}

/// An invocation ends as soon as its Invoke is sent.
pub fn ended_at_once()
    ensures legal { GoesWrong wrong.ended_at_once }
    ensures told { TellsWrong 1 (whole wrong.ended_at_once) }
{}

/// A lapse closes the invocations with the same identifier in all dialogues.
pub fn lapse_by_identifier()
    ensures legal { GoesWrong wrong.lapse_by_identifier }
    ensures told { TellsWrong 2 (whole wrong.lapse_by_identifier) }
{}

/// An End closes the open invocations before its components are read.
pub fn end_before_components()
    ensures legal { GoesWrong wrong.end_before_components }
    ensures told { TellsWrong 1 (whole wrong.end_before_components) }
{}

/// A result of class 2 is told as a result.
pub fn class_two_result()
    ensures legal { GoesWrong wrong.class_two_result }
    ensures told { TellsWrong 1 (whole wrong.class_two_result) }
{}

/// A part of a result of class 2 is told as such.
pub fn class_two_part()
    ensures legal { GoesWrong wrong.class_two_part }
    ensures told { TellsWrong 1 (whole wrong.class_two_part) }
{}

/// An error of class 3 is told as an error.
pub fn class_three_error()
    ensures legal { GoesWrong wrong.class_three_error }
    ensures told { TellsWrong 1 (whole wrong.class_three_error) }
{}

/// A Reject of a result closes the invocation.
pub fn reject_of_a_result_closes()
    ensures legal { GoesWrong wrong.reject_of_a_result_closes }
    ensures told { TellsWrong 1 (whole wrong.reject_of_a_result_closes) }
{}

/// The right result is told one event late.
pub fn result_told_late()
    ensures { TellsElsewhere 1 wrong.result_told_late }
{}

/// A lapse is told one moment late.
pub fn lapse_told_late()
    ensures { TellsElsewhere 1 wrong.lapse_told_late }
{}

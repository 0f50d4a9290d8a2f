//! Wrong answers where dialogues were idle too long: each history is legal up to its last answer, and
//! not with it.
#![tactic(auto, using(crate::proofs::WrongIdleTold::wrong_idle_told))]

ghost use Rattle.tcap_examples.specs.Wrong.WrongHistories.{GoesWrong, TellsWrong, whole};
ghost use Rattle.tcap_examples.specs.Wrong.WrongIdle as wrong;

/// An invocation past its deadline is told as ended, and not as lapsed.
pub fn ended_past_the_deadline()
    ensures legal { GoesWrong wrong.ended_past_the_deadline }
    ensures told { TellsWrong 1 (whole wrong.ended_past_the_deadline) }
{}

/// The dialogues that are over are told before what lapses.
pub fn idle_ends_before_lapses()
    ensures { GoesWrong wrong.idle_ends_before_lapses }
{}

/// A dialogue in Initiation Received is over by the limit.
pub fn judged_in_received()
    ensures { GoesWrong wrong.judged_in_received }
{}

/// A dialogue that is Idle is over by the limit.
pub fn judged_before_the_begin()
    ensures { GoesWrong wrong.judged_before_the_begin }
{}

/// An Invoke that waits renews the limit.
pub fn renewed_by_an_invoke()
    ensures legal { GoesWrong wrong.renewed_by_an_invoke }
    ensures told { TellsWrong 1 (whole wrong.renewed_by_an_invoke) }
{}

/// A Continue doesn't renew the limit.
pub fn not_renewed_by_a_continue()
    ensures legal { GoesWrong wrong.not_renewed_by_a_continue }
    ensures told { TellsWrong 1 (whole wrong.not_renewed_by_a_continue) }
{}

/// An Abort is sent to the peer.
pub fn a_message_is_sent()
    ensures { GoesWrong wrong.a_message_is_sent }
{}

/// The lesser identifier is told first, though it reached the limit later.
pub fn order_by_dialogue_alone()
    ensures { GoesWrong wrong.order_by_dialogue_alone }
{}

/// A dialogue is over one millisecond past the limit only.
pub fn over_past_the_limit()
    ensures legal { GoesWrong wrong.over_past_the_limit }
    ensures told { TellsWrong 1 (whole wrong.over_past_the_limit) }
{}

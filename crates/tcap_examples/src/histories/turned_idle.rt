//! Moves with one rule of the idle limit turned: each shows at an event where the engine's move is the
//! stated one.
#![tactic(auto, using(crate::proofs::TurnedIdleApart::turned_idle_shown))]

ghost use Rattle.tcap_examples.specs.Wrong.TurnedIdle.{IdleBeforeLapsesShows, IdleByDialogueShows};
ghost use Rattle.tcap_examples.specs.Wrong.TurnedIdle.{PastTheDeadlineShows, PastTheLimitShows, RenewingShows};
ghost use Rattle.tcap_examples.specs.Wrong.TurnedIdle.{JudgingReceivedShows, SendingAbortsShows};

/// Nothing lapses in a dialogue that is over: all is ended.
pub fn ending_past_the_deadline()
    ensures { PastTheDeadlineShows }
{}

/// The dialogues that are over are told before what lapses.
pub fn idle_before_lapses()
    ensures { IdleBeforeLapsesShows }
{}

/// They are told by identifier alone.
pub fn idle_by_dialogue()
    ensures { IdleByDialogueShows }
{}

/// An Abort is sent to the peer of each.
pub fn sending_aborts()
    ensures { SendingAbortsShows }
{}

/// A dialogue in Initiation Received is judged too.
pub fn judging_received()
    ensures { JudgingReceivedShows }
{}

/// A dialogue is over past the limit only.
pub fn ending_past_the_limit()
    ensures { PastTheLimitShows }
{}

/// Each request renews the limit.
pub fn renewing_by_requests()
    ensures { RenewingShows }
{}

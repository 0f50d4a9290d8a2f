//! What the whole engine does to each event, and that it is what the history says.

ghost use Rattle.std.specs.Prelude.{◌≤◌};
ghost use Rattle.tcap_invocation.specs.Stage.{moment_limit};
ghost use Rattle.tcap_model.specs.Histories.Clock.{clock};
ghost use Rattle.tcap_model.specs.Histories.History.{History};
ghost use Rattle.tcap_model.specs.Replies.Legal.{IsLegal};
ghost use Rattle.tcap_model.specs.Statements.EngineMoves.{EachMovesAlike, EachMoveIsSaid};

/// An engine that stands at a history answers each event with the reply, and stands at the history with
/// the event's pair then: requests, new dialogues, received bytes and moments
/// (Q.774, Transaction sublayer procedures; Q.774, Component handling).
pub fn moving()
    ensures stands { EachMovesAlike }
    // The same as one equation, at the engine that a legal history gives.
    ensures said { EachMoveIsSaid }
{}

/// The clock is at most at the greatest moment that is accepted (our own).
pub fn clock_is_within()
    ensures { (h : History) → IsLegal h → clock h.pairs ≤ moment_limit }
{}

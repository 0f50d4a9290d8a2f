//! Moves with one rule turned: each shows at an event where the engine's move is the stated one.
#![tactic(auto, using(crate::proofs::TurnedMovesApart::turned_moves_shown))]

ghost use Rattle.tcap_examples.specs.Wrong.TurnedMoves.{ByDialogueShows, FreedFirstShows, DrawingEarlyShows};
ghost use Rattle.tcap_examples.specs.Wrong.TurnedMoves.{HearingEarlyShows};

/// Lapses that are told dialogue by dialogue.
pub fn lapses_by_dialogue()
    ensures { ByDialogueShows }
{}

/// A moment that frees before it tells.
pub fn freed_before_it_is_told()
    ensures { FreedFirstShows }
{}

/// A Begin at the limit that draws an identifier.
pub fn drawn_at_the_limit()
    ensures { DrawingEarlyShows }
{}

/// An End that ends a dialogue in Initiation Received.
pub fn ended_in_received()
    ensures { HearingEarlyShows }
{}

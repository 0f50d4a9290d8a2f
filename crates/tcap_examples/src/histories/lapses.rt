//! Lapses in the order of their keys: by deadline, then by dialogue, then by number.
#![tactic(auto, unfolding(crate::specs::Computing::computing))]

ghost use Rattle.std.specs.Prelude.{◌≡◌};
ghost use Rattle.tcap_examples.specs.Histories.LapseRows.{AreComparedSo, keys, ordered, unordered};
ghost use Rattle.tcap_model.specs.Replies.Reply.{lapse_key};
ghost use Rattle.tcap_model.specs.Words.KeyOrder.{in_order};

/// Keys are compared at the first place where they differ, and lapses are put in that order.
pub fn lapses_by_key()
    ensures keys { AreComparedSo keys }
    ensures ordered { in_order lapse_key unordered ≡ ordered }
{}

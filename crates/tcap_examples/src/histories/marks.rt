//! What events mean for one identifier of a dialogue: the special rows, and the default.
#![tactic(auto, unfolding(crate::specs::Computing::computing))]

ghost use Rattle.tcap_examples.specs.Histories.MarkRows.{
  MeanAsStated,
  requests,
  moments,
  normal_messages,
  other_ends,
  nothing,
};

/// Requests, moments, normal messages, all else that ends the dialogue, and what means nothing.
pub fn marks_of_events()
    ensures by_requests { MeanAsStated requests }
    ensures by_moments { MeanAsStated moments }
    ensures by_normal_messages { MeanAsStated normal_messages }
    ensures by_other_ends { MeanAsStated other_ends }
    ensures by_nothing { MeanAsStated nothing }
{}

//! Which dialogues events name.
#![tactic(auto, unfolding(crate::specs::Computing::computing))]

ghost use Rattle.tcap_examples.specs.Histories.NamedDialogues.{
  AreAsStated,
  requests_and_moments,
  good_messages,
  faulty_messages,
  long_messages,
};

/// Requests, moments, messages, faulty messages and messages that are too long.
pub fn named_dialogues()
    ensures by_requests_and_moments { AreAsStated requests_and_moments }
    ensures by_good_messages { AreAsStated good_messages }
    ensures by_faulty_messages { AreAsStated faulty_messages }
    ensures by_long_messages { AreAsStated long_messages }
{}

//! That components are sent once and in order, on a worked history: its premises hold, and so does its
//! conclusion; and histories that miss it.
#![tactic(auto, using(crate::proofs::SendingWorks::sending_works, crate::proofs::SendingBroken::sending_broken))]

ghost use Rattle.std.specs.Prelude.{◌≡◌, [], ◌∷◌, drop, map, true};
ghost use Rattle.tcap_model.specs.Replies.Legal.{IsLegal};
ghost use Rattle.tcap_model.specs.Replies.Queue.{queue};
ghost use Rattle.tcap_model.specs.Procedures.QueueRules.{Queued};
ghost use Rattle.tcap_model.specs.Statements.Places.{StandsIn};
ghost use Rattle.tcap_model.specs.Statements.SentInOrder.{octets_sent, components_submitted, HaveComponents, SentInOrder, QueueIsUnsent};
ghost use Rattle.tcap_model.specs.Statements.Submitted.{Submitted, is_sending, fitting, unsent};
ghost use Rattle.tcap_examples.specs.Histories.Receptions.{unknown_linked_identifier};
ghost use Rattle.tcap_examples.specs.Statements.SendingExamples.{sent_in_parts, begin_sent, continue_sent, continue_pair, abort_sent, before_the_continue, up_to_the_continue, waits_for_the_continue, all_parts, reject_of_second, reject_of_none, reject_of_invoke, answer_sent, answer_pair, begun_by_the_peer, sent_twice, sent_swapped, sent_though_given_up, not_sent};
ghost use Rattle.tcap_examples.specs.Wrong.WrongHistories.{GoesWrong, whole};
ghost use Rattle.tcap_model.specs.Statements.SentFrom.{SentFrom};

use tcap_laws::sending::{queue_is_unsent, sent_once_in_order};

/// An Invoke that was given up unsent is missing; one that was given up later, a Reject and a third Invoke are
/// sent, in this order; a fourth is queued and never sent.
pub fn a_dialogue_sends_in_parts()
    ensures legal { IsLegal sent_in_parts }
    ensures stands { StandsIn continue_pair before_the_continue sent_in_parts.pairs }
    ensures sends { is_sending 1 continue_pair ≡ true }
    ensures octets { octets_sent 1 sent_in_parts.pairs ≡ begin_sent ∷ continue_sent ∷ abort_sent ∷ [] }
    ensures submitted { components_submitted 1 before_the_continue ≡ all_parts }
    ensures components { HaveComponents (begin_sent ∷ continue_sent ∷ abort_sent ∷ []) all_parts }
    ensures in_order { SentInOrder sent_in_parts.pairs }
{
    sent_once_in_order();
}

/// What waits for the Continue is what is unsent: the Reject and the third Invoke.
pub fn what_waits_is_unsent()
    ensures legal { IsLegal up_to_the_continue }
    ensures queued { map (λ (q : Queued). q.octets) (queue 1 before_the_continue) ≡ waits_for_the_continue }
    ensures unsent { map (λ (s : Submitted). s.component) (unsent 1 [] before_the_continue) ≡ drop 1 all_parts }
    ensures same { QueueIsUnsent before_the_continue }
{
    queue_is_unsent();
}

/// A Reject of a component of the peer's Begin is sent in the first answer.
pub fn a_dialogue_that_the_peer_begins()
    ensures legal { IsLegal begun_by_the_peer }
    ensures sends { is_sending 1 answer_pair ≡ true }
    ensures octets { octets_sent 1 begun_by_the_peer.pairs ≡ answer_sent ∷ [] }
    ensures submitted { components_submitted 1 unknown_linked_identifier.history.pairs ≡ reject_of_invoke ∷ [] }
    ensures components { HaveComponents (answer_sent ∷ []) (reject_of_invoke ∷ []) }
    ensures in_order { SentInOrder begun_by_the_peer.pairs }
{
    sent_once_in_order();
}

/// Beside 59,993 octets a Reject of eight doesn't fit, and a later one of seven does.
pub fn rejects_that_fit()
    ensures { fitting 59993 (reject_of_second ∷ reject_of_none ∷ []) ≡ reject_of_none ∷ [] }
{}

/// Where an Invoke is sent twice, the last answer isn't the reply, and the law refuses it, though what is
/// sent comes from its dialogue.
pub fn an_invoke_that_is_sent_twice()
    ensures wrong { GoesWrong sent_twice }
    ensures from_its_dialogue { SentFrom (whole sent_twice) }
    ensures not_in_order { SentInOrder (whole sent_twice) → ⊥ }
{}

/// So it is where two Invokes are swapped.
pub fn invokes_that_are_swapped()
    ensures wrong { GoesWrong sent_swapped }
    ensures from_its_dialogue { SentFrom (whole sent_swapped) }
    ensures not_in_order { SentInOrder (whole sent_swapped) → ⊥ }
{}

/// So it is where an Invoke is sent that was given up.
pub fn an_invoke_that_was_given_up()
    ensures wrong { GoesWrong sent_though_given_up }
    ensures from_its_dialogue { SentFrom (whole sent_though_given_up) }
    ensures not_in_order { SentInOrder (whole sent_though_given_up) → ⊥ }
{}

/// So it is where an Invoke isn't sent.
pub fn an_invoke_that_is_not_sent()
    ensures wrong { GoesWrong not_sent }
    ensures not_in_order { SentInOrder (whole not_sent) → ⊥ }
{}

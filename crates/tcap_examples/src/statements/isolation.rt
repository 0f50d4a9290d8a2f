//! Isolation on a worked history of two dialogues: the premises hold for four events of the first, and so
//! does the conclusion; for a fifth, without an invocation number left, it doesn't.
#![tactic(auto, using(crate::proofs::IsolationWorks::isolation_works), unfolding(crate::specs::Computing::computing))]

ghost use Rattle.std.specs.Prelude.{◌≡◌, ◌≢◌, [], ◌∷◌, false, IsTrue};
ghost use Rattle.tcap_model.specs.Words.Answer.{Answer};
ghost use Rattle.tcap_model.specs.Histories.Birth.{was_born};
ghost use Rattle.tcap_model.specs.Words.Fault.{Fault};
ghost use Rattle.tcap_model.specs.Words.InRange.{is_in_range};
ghost use Rattle.tcap_model.specs.Statements.Isolation.{IsAlone, history_of};
ghost use Rattle.tcap_model.specs.Replies.Legal.{IsLegal};
ghost use Rattle.tcap_model.specs.Histories.Names.{names};
ghost use Rattle.tcap_model.specs.Statements.Only.{only};
ghost use Rattle.tcap_model.specs.Replies.Reply.{reply};
ghost use Rattle.tcap_examples.specs.Nets.PlayedNets.{play_start};
ghost use Rattle.tcap_examples.specs.Statements.IsolationExamples.{two_dialogues, first_alone, before_the_lapse, before_the_invoke, first_invokes, invokes_again, first_cancels, first_hears, both_lapse, nobody_cancels, first_lapses, second_lapses, last_but_one, last, two_left, of_one_begin, with_one_peer, IsAloneThroughout};

/// What the first dialogue sees of a history of two.
pub fn one_dialogue_of_two()
    ensures legal { IsLegal two_dialogues }
    ensures born { IsTrue (was_born 1 two_dialogues.pairs) }
    ensures only { only 1 two_dialogues.pairs ≡ first_alone }
{}

/// An invoke draws another number, and is accepted in both.
pub fn an_invoke_alone()
    ensures legal { IsLegal before_the_invoke }
    ensures named { IsTrue (names first_invokes 1) }
    ensures replied { reply before_the_invoke first_invokes ≡ Answer.number last }
    ensures replied_alone { reply (history_of 1 before_the_invoke) first_invokes ≡ Answer.number last_but_one }
    ensures number_left { reply before_the_invoke first_invokes ≢ Answer.refused Fault.numbers_spent }
    ensures alone { IsAlone before_the_invoke 1 first_invokes }
{}

/// A request is answered as if the dialogue were alone.
pub fn a_request_alone()
    ensures legal { IsLegal before_the_lapse }
    ensures named { IsTrue (names first_cancels 1) }
    ensures replied { reply before_the_lapse first_cancels ≡ Answer.given_up last }
    ensures number_left { reply before_the_lapse first_cancels ≢ Answer.refused Fault.numbers_spent }
    ensures alone { IsAlone before_the_lapse 1 first_cancels }
{}

/// So are received bytes.
pub fn bytes_alone()
    ensures legal { IsLegal before_the_lapse }
    ensures named { IsTrue (names first_hears 1) }
    ensures number_left { reply before_the_lapse first_hears ≢ Answer.refused Fault.numbers_spent }
    ensures alone { IsAlone before_the_lapse 1 first_hears }
{}

/// Of a moment at which both dialogues' invocations lapse, the dialogue's own is compared.
pub fn a_moment_alone()
    ensures legal { IsLegal before_the_lapse }
    ensures named { IsTrue (names both_lapse 1) }
    ensures replied { reply before_the_lapse both_lapse ≡ Answer.outputs (first_lapses ∷ second_lapses ∷ []) }
    ensures replied_alone { reply (history_of 1 before_the_lapse) both_lapse ≡ Answer.outputs (first_lapses ∷ []) }
    ensures number_left { reply before_the_lapse both_lapse ≢ Answer.refused Fault.numbers_spent }
    ensures alone { IsAlone before_the_lapse 1 both_lapse }
{}

/// A dialogue that isn't created yet is unknown to both, whatever is asked of it.
pub fn no_dialogue_alone()
    ensures legal { IsLegal before_the_lapse }
    ensures unborn { was_born 9 before_the_lapse.pairs ≡ false }
    ensures out_of_range { is_in_range nobody_cancels ≡ false }
    ensures named { IsTrue (names nobody_cancels 9) }
    ensures replied { reply before_the_lapse nobody_cancels ≡ Answer.refused Fault.unknown_dialogue }
    ensures alone { IsAlone before_the_lapse 9 nobody_cancels }
{}

/// Where no number is left, the dialogue alone would have one: the exception is needed.
pub fn the_last_number_is_seen()
    ensures legal { IsLegal two_dialogues }
    ensures named { IsTrue (names invokes_again 1) }
    ensures spent { reply two_dialogues invokes_again ≡ Answer.refused Fault.numbers_spent }
    ensures not_spent_alone { reply (history_of 1 two_dialogues) invokes_again ≡ Answer.number last }
    ensures not_alone { IsAlone two_dialogues 1 invokes_again → ⊥ }
{}

/// Each of two dialogues is alone at every place: in this history, where both are created of one Begin, and
/// where both have one peer.
pub fn alone_throughout()
    ensures first { IsAloneThroughout 1 two_left two_dialogues.pairs }
    ensures second { IsAloneThroughout 2 two_left two_dialogues.pairs }
    ensures first_of_one_begin { IsAloneThroughout 1 play_start of_one_begin }
    ensures second_of_one_begin { IsAloneThroughout 2 play_start of_one_begin }
    ensures first_with_one_peer { IsAloneThroughout 1 play_start with_one_peer }
    ensures second_with_one_peer { IsAloneThroughout 2 play_start with_one_peer }
{}

//! Statements over histories in which dialogues stay idle too long.
#![tactic(auto, using(crate::proofs::IdleAlone::idle_alone), unfolding(crate::specs::Computing::computing))]

ghost use Rattle.std.specs.Prelude.{◌≡◌, ◌≢◌, IsTrue};
ghost use Rattle.tcap_examples.specs.Histories.IdleLimit.{idle_start};
ghost use Rattle.tcap_examples.specs.Statements.IdleExamples.{lapsed_and_ended, both_idle, lapsed_in_the_other};
ghost use Rattle.tcap_examples.specs.Statements.IdleExamples.{before_the_last, both_end, first_ends, both_ends};
ghost use Rattle.tcap_examples.specs.Statements.IsolationExamples.{IsAloneThroughout};
ghost use Rattle.tcap_model.specs.Histories.Names.{names};
ghost use Rattle.tcap_model.specs.Replies.Legal.{IsLegal};
ghost use Rattle.tcap_model.specs.Replies.Reply.{reply};
ghost use Rattle.tcap_model.specs.Statements.Headline.{Decided};
ghost use Rattle.tcap_model.specs.Statements.Isolation.{IsAlone, history_of};
ghost use Rattle.tcap_model.specs.Words.Answer.{Answer};
ghost use Rattle.tcap_model.specs.Words.Fault.{Fault};

/// At the moment at which a dialogue is over, one of its invocations lapses and the other is ended, and
/// both are decided there.
pub fn idle_closings_are_decided()
    ensures legal { IsLegal lapsed_and_ended }
    ensures lapsed { Decided lapsed_and_ended 1 }
    ensures ended { Decided lapsed_and_ended 2 }
{}

/// Of a moment at which two dialogues are over, the dialogue's own end is compared.
pub fn an_idle_end_alone()
    ensures legal { IsLegal (before_the_last both_idle) }
    ensures named { IsTrue (names both_end 1) }
    ensures replied { reply (before_the_last both_idle) both_end ≡ both_ends }
    ensures replied_alone { reply (history_of 1 (before_the_last both_idle)) both_end ≡ first_ends }
    ensures number_left { reply (before_the_last both_idle) both_end ≢ Answer.refused Fault.numbers_spent }
    ensures alone { IsAlone (before_the_last both_idle) 1 both_end }
{}

/// Neither of two dialogues is seen in the other, at each event that names it.
pub fn idle_dialogues_alone()
    ensures first_of_both { IsAloneThroughout 1 idle_start both_idle.pairs }
    ensures second_of_both { IsAloneThroughout 2 idle_start both_idle.pairs }
    ensures first_where_one_lapses { IsAloneThroughout 1 idle_start lapsed_in_the_other.pairs }
    ensures second_where_one_lapses { IsAloneThroughout 2 idle_start lapsed_in_the_other.pairs }
{}

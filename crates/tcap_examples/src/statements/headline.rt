//! Each statement that is to be proved of every history of one engine, on a worked history: its premises
//! hold of it, and so does its conclusion.
#![tactic(auto, using(crate::proofs::HeadlineWorks::headline_works, crate::proofs::PlainlyDecided::plainly_decided), unfolding(crate::specs::Computing::computing))]

ghost use Rattle.std.specs.Prelude.{◌≡◌, ◌≤◌, [], ◌∷◌, length, map, Some, None};
ghost use Rattle.tcap_model.specs.Histories.Clock.{clock};
ghost use Rattle.tcap_model.specs.Invocations.Closings.{closings};
ghost use Rattle.tcap_model.specs.Invocations.Deadline.{deadline};
ghost use Rattle.tcap_model.specs.Statements.Headline.{Decided, PlainlyDecided, HasOutcome, Counted, Bounded, told_closing};
ghost use Rattle.tcap_model.specs.Invocations.Invocation.{invocation_of};
ghost use Rattle.tcap_model.specs.Replies.Legal.{IsLegal};
ghost use Rattle.tcap_model.specs.Histories.Life.{Life, life};
ghost use Rattle.tcap_model.specs.Words.Output.{Closing};
ghost use Rattle.tcap_model.specs.Replies.Queue.{queue};
ghost use Rattle.tcap_model.specs.Procedures.QueueRules.{joined};
ghost use Rattle.tcap_examples.specs.Wrong.WrongHistories.{whole};
ghost use Rattle.tcap_examples.specs.Wrong.WrongEnds as wrong;
ghost use Rattle.tcap_examples.specs.Statements.HeadlineExamples.{repeated_aare_history, late_result_history, late_result, faulty_second_history, given_up, first, second, first_ending, usual_history};

/// Decided, of invocations that are answered, ended, lapsed, given up and not closed.
pub fn closings_are_decided()
    ensures aare_legal { IsLegal repeated_aare_history }
    ensures answered { Decided repeated_aare_history 1 }
    ensures ended { Decided repeated_aare_history 2 }
    ensures lapse_legal { IsLegal late_result_history }
    ensures lapsed { Decided late_result_history 1 }
    ensures cancel_legal { IsLegal given_up }
    ensures given_up { Decided given_up 1 }
    ensures faulty_legal { IsLegal faulty_second_history }
    ensures not_closed { Decided faulty_second_history 2 }
{}

/// Decided in the plain form, of invocations that are answered, ended, lapsed and not closed.
pub fn closings_are_plainly_decided()
    ensures answered { PlainlyDecided repeated_aare_history 1 }
    ensures ended { PlainlyDecided repeated_aare_history 2 }
    ensures lapsed { PlainlyDecided late_result_history 1 }
    ensures not_closed { PlainlyDecided faulty_second_history 2 }
{}

/// A result that is told twice isn't, nor is a lapse that is told one moment late.
pub fn closings_that_are_not_plainly_decided()
    ensures told_twice { PlainlyDecided (usual_history (whole wrong.double_result)) 1 → ⊥ }
    ensures told_late { PlainlyDecided (usual_history wrong.lapse_told_late) 1 → ⊥ }
{}

/// The closing indications are the outcome, of one that is answered and one that lapses.
pub fn closings_are_the_outcome()
    ensures aare_legal { IsLegal repeated_aare_history }
    ensures first_found { invocation_of 1 repeated_aare_history.pairs ≡ Some first }
    ensures first_outcome { HasOutcome repeated_aare_history 1 }
    ensures first_told { map told_closing (closings 1 repeated_aare_history.pairs)
        ≡ first_ending (Closing.result_last None) ∷ [] }
    ensures lapse_legal { IsLegal late_result_history }
    ensures lapsed_found { invocation_of 1 late_result_history.pairs ≡ Some first }
    ensures lapsed_outcome { HasOutcome late_result_history 1 }
    ensures lapsed_told { map told_closing (closings 1 late_result_history.pairs)
        ≡ first_ending Closing.lapsed ∷ [] }
{}

/// One closing indication, since a moment past the deadline came, and since the dialogue is over.
pub fn closings_are_counted()
    ensures lapse_legal { IsLegal late_result_history }
    ensures lapsed_found { invocation_of 1 late_result_history.pairs ≡ Some first }
    ensures deadline { deadline first late_result_history.pairs ≡ Some 1000 }
    ensures late { 1000 ≤ clock late_result_history.pairs }
    ensures lapsed_counted { Counted late_result_history 1 }
    ensures aare_legal { IsLegal repeated_aare_history }
    ensures second_found { invocation_of 2 repeated_aare_history.pairs ≡ Some second }
    ensures over { life second.dialogue repeated_aare_history.pairs ≡ Life.over }
    ensures second_counted { Counted repeated_aare_history 2 }
{}

/// Within its bounds, with a Reject in a queue and an invocation that lapsed.
pub fn bounds_are_kept()
    ensures legal { IsLegal late_result }
    ensures queued { length (joined (queue 1 late_result.pairs)) ≡ 8 }
    ensures bounded { Bounded late_result }
{}

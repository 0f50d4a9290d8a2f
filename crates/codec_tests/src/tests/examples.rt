//! The worked examples, computed by the definitions.

ghost use Rattle.std.specs.Prelude.{◌≡◌, pos, ◌+◌, ◌*◌, [], ◌∷◌, Some, None};
ghost use Rattle.tcap_component.specs.declared.problem.Kind.TheVariants as kind;
ghost use Rattle.tcap_invocation.specs.declared.class.Class.TheVariants.{One, Two, Three, Four};
ghost use Rattle.tcap_invocation.specs.declared.fault.AddFault.TheVariants.{InUse, BadTimeout};
ghost use Rattle.tcap_invocation.specs.declared.invocations.answers.Verdict.TheVariants.{Unexpected, Unknown};
ghost use Rattle.tcap_invocation.specs.declared.stage.Stage.TheVariants.{Queued, Sent, Waiting};
ghost use Rattle.tcap_invocation.specs.Answers.{verdict_on, after_received, rejected_at, after_reject};
ghost use Rattle.tcap_invocation.specs.Class.Received.{return_result_last, return_result_not_last, return_error};
ghost use Rattle.tcap_invocation.specs.Closing.{given_up_at, ended_at, first_ended_at, after_close_one};
ghost use Rattle.tcap_invocation.specs.Examples.{row, lapse, waiting_for};
ghost use Rattle.tcap_invocation.specs.Invocations.{add_fault, added, after_sent};
ghost use Rattle.tcap_invocation.specs.Lapses.{told_at, first_due_at, lapse_at, after_lapse, after_free_due};
ghost use Rattle.tcap_invocation.specs.Stage.{moment_limit};

/// An invocation is queued, sent, and lapses at its deadline.
pub fn queued_sent_and_lapsed()
    ensures queued { added (waiting_for 1000 []) (pos 1) 1 One 1000
        ≡ waiting_for 1000 (row 1 1 One (Queued 1000) ∷ []) }
    ensures in_use { add_fault (row 1 1 One (Queued 1000) ∷ []) (pos 1) 5 ≡ Some InUse }
    ensures timeout { add_fault (row 1 1 One (Queued 1000) ∷ []) (pos 1) 0 ≡ Some BadTimeout }
    ensures longest { (add_fault [] (pos 1) moment_limit ≡ None)
        × (add_fault [] (pos 1) (moment_limit + 1) ≡ Some BadTimeout) }
    ensures sent { after_sent (waiting_for 1000 (row 1 1 One (Queued 1000) ∷ [])) 0
        ≡ waiting_for 1000 (row 1 1 One (Sent 1000) ∷ []) }
    ensures not_yet { told_at 999 (row 1 1 One (Sent 1000) ∷ []) ≡ [] }
    ensures lapsed { told_at 1000 (row 1 1 One (Sent 1000) ∷ []) ≡ lapse 1000 1 1 ∷ [] }
    ensures farthest { (lapse_at (2 * moment_limit) (row 1 1 One (Sent (2 * moment_limit)) ∷ []) (pos 1)
        ≡ Some (lapse (2 * moment_limit) 1 1)) }
{}

/// An answer that the class doesn't have closes the invocation; one that it has keeps the identifier.
pub fn answers_by_class()
    ensures not_sent { verdict_on (row 1 1 Two (Queued 10) ∷ []) (pos 1) return_result_last ≡ Unknown }
    ensures result { verdict_on (row 1 1 Two (Sent 15) ∷ []) (pos 1) return_result_not_last ≡ Unexpected 1 }
    ensures closed { after_received (waiting_for 1000 (row 1 1 Two (Sent 15) ∷ []))
        (pos 1) return_result_not_last 6 ≡ waiting_for 1000 [] }
    ensures error { (verdict_on (row 3 3 Three (Sent 15) ∷ []) (pos 3) return_error ≡ Unexpected 3)
        × (verdict_on (row 4 4 Four (Sent 15) ∷ []) (pos 4) return_error ≡ Unexpected 4) }
    ensures more { after_received (waiting_for 1000 (row 2 2 One (Sent 15) ∷ [])) (pos 2) return_result_not_last 7
        ≡ waiting_for 1000 (row 2 2 One (Sent 15) ∷ []) }
    ensures last { after_received (waiting_for 1000 (row 2 2 One (Sent 15) ∷ [])) (pos 2) return_result_last 7
        ≡ waiting_for 1000 (row 2 2 One (Waiting 1007) ∷ []) }
    ensures waits { verdict_on (row 2 2 One (Waiting 1007) ∷ []) (pos 2) return_error ≡ Unknown }
    ensures held { after_lapse (waiting_for 1000 (row 2 2 One (Waiting 1007) ∷ [])) 1006
        ≡ waiting_for 1000 (row 2 2 One (Waiting 1007) ∷ []) }
    ensures freed { after_lapse (waiting_for 1000 (row 2 2 One (Waiting 1007) ∷ [])) 1007 ≡ waiting_for 1000 [] }
    ensures at_once { after_free_due (waiting_for 0 (row 1 1 One (Waiting 5) ∷ [])) 5 ≡ waiting_for 0 [] }
{}

/// Lapses are told by deadline, then number.
pub fn lapses_in_order()
    ensures told { told_at 20 (row 5 3 One (Sent 20) ∷ row 6 4 One (Sent 10) ∷ row 7 5 One (Sent 10) ∷ [])
        ≡ lapse 10 4 6 ∷ lapse 10 5 7 ∷ lapse 20 3 5 ∷ [] }
    ensures first { first_due_at 20 (row 5 3 One (Sent 20) ∷ row 6 4 One (Sent 10)
        ∷ row 7 5 One (Sent 10) ∷ []) ≡ Some (lapse 10 4 6) }
    ensures one { lapse_at 10 (row 5 3 One (Sent 20) ∷ row 6 4 One (Sent 10) ∷ []) (pos 5) ≡ None }
{}

/// A Reject of the Invoke closes it, a Reject of an answer nothing; the user gives up; the dialogue ends.
pub fn rejected_given_up_and_ended()
    ensures of_an_answer { (rejected_at (row 5 3 One (Sent 20) ∷ []) (pos 5) kind.Result ≡ None)
        × (rejected_at (row 5 3 One (Sent 20) ∷ []) (pos 5) kind.Error ≡ None) }
    ensures of_the_invoke { rejected_at (row 5 3 One (Sent 20) ∷ []) (pos 5) kind.General ≡ Some 3 }
    ensures left { after_reject (waiting_for 1000 (row 5 3 One (Sent 20) ∷ [])) (pos 5) kind.General
        ≡ waiting_for 1000 [] }
    ensures given_up { (given_up_at (row 6 4 One (Queued 10) ∷ []) (pos 6) ≡ Some 4)
        × (given_up_at (row 6 4 One (Waiting 10) ∷ []) (pos 6) ≡ None) }
    ensures ended { ended_at (row 2 1 One (Waiting 9) ∷ row 5 3 One (Sent 20) ∷ row 6 4 One (Queued 10) ∷ [])
        ≡ (3, pos 5) ∷ (4, pos 6) ∷ [] }
    ensures first_ended { first_ended_at (row 2 1 One (Waiting 9) ∷ row 5 3 One (Sent 20) ∷ [])
        ≡ Some (3, pos 5) }
    ensures rest { after_close_one (waiting_for 1000 (row 2 1 One (Waiting 9) ∷ row 5 3 One (Sent 20) ∷ []))
        ≡ waiting_for 1000 (row 2 1 One (Waiting 9) ∷ []) }
{}

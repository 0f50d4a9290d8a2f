//! Worked dialogues: when an invoke identifier is in use.

#![tactic(auto, unfolding(crate::specs::Computing::computing))]

ghost use Rattle.std.specs.Prelude.{◌≡◌, pos, [], ◌∷◌, ◌++◌, false, Some, None};
ghost use Rattle.tcap_invocation.specs.declared.class.Class.TheVariants.{One, Four};
ghost use Rattle.tcap_model.specs.Words.Answer.{Answer};
ghost use Rattle.tcap_examples.specs.Values.DialogueValues.{code, invoke, invoke_within, plain_begin, go_on, one_invoke, one_invoke_told, one_long_invoke, result_of_first, first_result, first_ended, of_invoke, of_result};
ghost use Rattle.tcap_model.specs.Words.Fault.{Fault};
ghost use Rattle.tcap_examples.specs.Values.Hex.{hex};
ghost use Rattle.tcap_model.specs.Words.Output.{Closing};
ghost use Rattle.tcap_model.specs.Procedures.Reception.{Reception, reception};
ghost use Rattle.tcap_model.specs.Words.Request.{Ending};
ghost use Rattle.tcap_examples.specs.Dialogues.Played.{opened, opened_with, heard, is_none_live, Answers, Ends};
ghost use Rattle.tcap_component.specs.ComponentReading.{components_of};
ghost use Rattle.tcap_model.specs.Procedures.ComponentHandling.{uni_told};
ghost use Rattle.tcap_model.specs.Table.TableMove.DialogueEvent.{request, moment};
ghost use Rattle.tcap_examples.specs.Values.Asked as asks;
ghost use Rattle.tcap_examples.specs.Values.Told as told;
ghost use Rattle.tcap_examples.specs.Values.Peer.{sent};

/// After a result its identifier is held until the wait for a Reject is over.
pub fn identifier_held_after_a_result()
    ensures { Answers opened
        (one_long_invoke
        ++ heard result_of_first
        ∷ moment 999
        ∷ invoke (pos 1) One 10
        ∷ moment 1000
        ∷ invoke (pos 1) One 10
        ∷ go_on
        ∷ heard result_of_first
        ∷ [])
        (one_invoke_told
        ++ Answer.outputs (told.go_on 1 None [] ∷ first_result ∷ [])
        ∷ Answer.outputs []
        ∷ Answer.refused Fault.invoke_id_in_use
        ∷ Answer.outputs []
        ∷ Answer.number 2
        ∷ Answer.outputs (sent (hex 24 0x6516_480400000001_490400000005_6C08_A106020101_02010A) ∷ [])
        ∷ Answer.outputs (told.go_on 1 None [] ∷ told.closed 1 2 (pos 1) (Closing.result_last None) ∷ [])
        ∷ []) }
{}

/// A Reject of the result by the user frees its identifier at once.
pub fn identifier_freed_by_a_reject()
    ensures { Answers opened
        (one_long_invoke ++ heard result_of_first ∷ request (asks.u_reject (Some (pos 1)) (of_result 2))
        ∷ invoke (pos 1) One 10 ∷ [])
        (one_invoke_told ++ Answer.outputs (told.go_on 1 None [] ∷ first_result ∷ []) ∷ Answer.done ∷ Answer.number 2
        ∷ []) }
{}

/// A Reject by the user frees the identifier that waits for it, and no other: not one that is Sent, not
/// one that waits where the problem is of another kind, and none where the Reject has no identifier.
pub fn what_a_reject_frees()
    ensures sent { Answers opened
        (one_long_invoke ++ heard (hex 14 0x650C_480400000005_490400000001)
        ∷ request (asks.u_reject (Some (pos 1)) (of_result 2)) ∷ invoke (pos 1) One 10 ∷ [])
        (one_invoke_told ++ Answer.outputs (told.go_on 1 None [] ∷ []) ∷ Answer.done
        ∷ Answer.refused Fault.invoke_id_in_use ∷ []) }
    ensures other_kind { Answers opened
        (one_long_invoke ++ heard result_of_first ∷ request (asks.u_reject (Some (pos 1)) (of_invoke 2))
        ∷ invoke (pos 1) One 10 ∷ [])
        (one_invoke_told ++ Answer.outputs (told.go_on 1 None [] ∷ first_result ∷ []) ∷ Answer.done
        ∷ Answer.refused Fault.invoke_id_in_use ∷ []) }
    ensures no_identifier { Answers opened
        (one_long_invoke ++ heard result_of_first ∷ request (asks.u_reject None (of_result 2)) ∷ invoke (pos 1) One 10
        ∷ [])
        (one_invoke_told ++ Answer.outputs (told.go_on 1 None [] ∷ first_result ∷ []) ∷ Answer.done
        ∷ Answer.refused Fault.invoke_id_in_use ∷ []) }
{}

/// An Invoke that is given up before it is sent leaves the queue, and its timer never runs.
pub fn given_up_before_it_is_sent()
    ensures { Answers opened
        (invoke (pos 1) One 10 ∷ request (asks.u_cancel (pos 1)) ∷ plain_begin ∷ moment 1000 ∷ [])
        (Answer.number 1 ∷ Answer.given_up 1 ∷ Answer.outputs (sent (hex 8 0x6206_480400000001) ∷ [])
        ∷ Answer.outputs [] ∷ []) }
{}

/// Lapses are told by deadline, then by number.
pub fn lapses_in_order()
    ensures { Answers opened
        (invoke_within 20 (pos 5) One 10 ∷ invoke_within 10 (pos 6) One 10 ∷ invoke_within 10 (pos 7) One 10
        ∷ plain_begin ∷ moment 20 ∷ [])
        (Answer.number 1
        ∷ Answer.number 2
        ∷ Answer.number 3
        ∷ Answer.outputs (sent (hex 34
        0x6220_480400000001_6C18_A106020105_02010A_A106020106_02010A_A106020107_02010A) ∷ [])
        ∷ Answer.outputs (told.closed 1 2 (pos 6) Closing.lapsed ∷ told.closed 1 3 (pos 7) Closing.lapsed
        ∷ told.closed 1 1 (pos 5) Closing.lapsed ∷ [])
        ∷ []) }
{}

/// With no time to wait an identifier is held up to the next moment, the present one too.
pub fn held_up_to_the_next_moment()
    ensures { Answers (opened_with 0)
        (one_invoke ++ heard result_of_first ∷ invoke (pos 1) One 10 ∷ moment 0 ∷ invoke (pos 1) One 10 ∷ [])
        (one_invoke_told
        ++ Answer.outputs (told.go_on 1 None [] ∷ first_result ∷ [])
        ∷ Answer.refused Fault.invoke_id_in_use
        ∷ Answer.outputs []
        ∷ Answer.number 2
        ∷ []) }
{}

/// A basic end sends the queue, and what it carries is ended in the same answer.
pub fn queued_at_a_basic_end()
    ensures { Ends opened
        (one_invoke ++ invoke (pos 2) One 11 ∷ heard (hex 14 0x650C_480400000005_490400000001)
        ∷ request (asks.finish Ending.basic None []) ∷ [])
        (one_invoke_told
        ++ Answer.number 2
        ∷ Answer.outputs (told.go_on 1 None [] ∷ [])
        ∷ Answer.outputs (sent (hex 18 0x6410_490400000005_6C08_A106020102_02010B) ∷ first_ended
        ∷ told.closed 1 2 (pos 2) Closing.ended ∷ [])
        ∷ []) }
{}

/// A Unidirectional is sent with an Invoke of class 4, which nothing answers, and is told at the peer
/// without a dialogue.
pub fn unidirectional_both_ways()
    ensures sent { Ends opened
        (invoke (pos 1) Four 7 ∷ request (asks.uni None []) ∷ [])
        (Answer.number 1 ∷ Answer.outputs (sent (hex 12 0x610A_6C08_A106020101_020107) ∷ first_ended ∷ []) ∷ []) }
    ensures received { reception is_none_live false (hex 12 0x610A_6C08_A106020101_020107)
        ≡ Reception.unidirectional None [] (hex 8 0xA106020101_020107) }
    ensures told { uni_told (components_of (hex 8 0xA106020101_020107))
        ≡ told.invoked None (pos 1) None (code 7) None ∷ [] }
{}

/// A result in a Unidirectional is told as a local Reject without a dialogue.
pub fn a_result_in_a_unidirectional()
    ensures received { reception is_none_live false (hex 9 0x6107_6C05_A203020101)
        ≡ Reception.unidirectional None [] (hex 5 0xA203020101) }
    ensures told { uni_told (components_of (hex 5 0xA203020101))
        ≡ told.local_reject None (Some (pos 1)) (of_result 0) ∷ [] }
{}

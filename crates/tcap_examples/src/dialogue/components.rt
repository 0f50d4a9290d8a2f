//! Worked dialogues: what received components tell.

#![tactic(auto, unfolding(crate::specs::Computing::computing))]

ghost use Rattle.std.specs.Prelude.{pos, negsuc, [], ◌∷◌, ◌++◌, replicate, Some, None};
ghost use Rattle.tcap_invocation.specs.declared.class.Class.TheVariants.{One, Two, Three, Four};
ghost use Rattle.tcap_model.specs.Words.Answer.{Answer};
ghost use Rattle.tcap_examples.specs.Values.DialogueValues.{aare_result, code, body, invoke, plain_begin, go_on, one_invoke, one_invoke_told, result_of_first, first_result, shown_begin, shown_begin_told, general, of_invoke, of_result, of_error};
ghost use Rattle.tcap_examples.specs.Values.Hex.{hex};
ghost use Rattle.tcap_model.specs.Words.Output.{AbortCause, Closing, Rejector};
ghost use Rattle.tcap_model.specs.Words.Request.{Ending};
ghost use Rattle.tcap_examples.specs.Dialogues.Refused.{with_room};
ghost use Rattle.tcap_examples.specs.Dialogues.Played.{opened, begun_from, heard, Answers, Ends};
ghost use Rattle.tcap_model.specs.Table.TableMove.DialogueEvent.{request, moment};
ghost use Rattle.tcap_examples.specs.Values.Asked as asks;
ghost use Rattle.tcap_examples.specs.Values.Told as told;
ghost use Rattle.tcap_examples.specs.Values.Peer.{sent};

/// A Reject of a result closes nothing, one of the Invoke closes the invocation; then an Abort refuses
/// the dialogue, with "no common dialogue portion".
pub fn remote_rejects()
    ensures { Ends opened
        (one_invoke
        ++ heard (hex 24 0x6516_480400000005_490400000001_6C08_A406020101_820100)
        ∷ heard (hex 24 0x6516_480400000005_490400000001_6C08_A406020101_810101)
        ∷ heard (hex 8 0x6732_490400000001 ++ aare_result 0xA203020101_A305A203020102)
        ∷ [])
        (one_invoke_told
        ++ Answer.outputs (told.go_on 1 None [] ∷ told.remote_reject (Some 1) (Some (pos 1)) (of_result 0)
        Rejector.remote_provider ∷ [])
        ∷ Answer.outputs (told.go_on 1 None [] ∷ told.closed 1 1 (pos 1)
        (Closing.rejected (of_invoke 1) Rejector.remote_user) ∷ [])
        ∷ Answer.outputs (told.p_abort 1 AbortCause.no_common ∷ [])
        ∷ []) }
{}

/// A result in an End closes its invocation, and the dialogue is over.
pub fn result_in_an_end()
    ensures { Ends opened
        (one_invoke ++ heard (hex 15 0x640D_490400000001_6C05_A203020101) ∷ [])
        (one_invoke_told ++ Answer.outputs (told.end 1 None [] ∷ first_result ∷ []) ∷ []) }
{}

/// An invocation lapses at its deadline, and a result after that is rejected; the Reject goes out.
pub fn lapse_and_late_result()
    ensures { Answers opened
        (one_invoke ++ moment 999 ∷ moment 1000 ∷ heard result_of_first ∷ go_on ∷ [])
        (one_invoke_told
        ++ Answer.outputs []
        ∷ Answer.outputs (told.closed 1 1 (pos 1) Closing.lapsed ∷ [])
        ∷ Answer.outputs (told.go_on 1 None [] ∷ told.local_reject (Some 1) (Some (pos 1)) (of_result 0) ∷ [])
        ∷ Answer.outputs (sent (hex 24 0x6516_480400000001_490400000005_6C08_A406020101_820100) ∷ [])
        ∷ []) }
{}

/// What a class doesn't have closes the invocation, and is told as a local Reject, which goes out.
pub fn answers_the_class_forbids()
    ensures { Answers opened
        (invoke (pos 1) Two 10
        ∷ invoke (pos 2) Three 10
        ∷ invoke (pos 3) Four 10
        ∷ plain_begin
        ∷ heard (hex 34 0x6520_480400000005_490400000001_6C12_A203020101_A306020102_020101_A703020103)
        ∷ go_on
        ∷ [])
        (Answer.number 1
        ∷ Answer.number 2
        ∷ Answer.number 3
        ∷ Answer.outputs (sent (hex 34
        0x6220_480400000001_6C18_A106020101_02010A_A106020102_02010A_A106020103_02010A) ∷ [])
        ∷ Answer.outputs (told.go_on 1 None []
        ∷ told.closed 1 1 (pos 1) (Closing.rejected (of_result 1) Rejector.local)
        ∷ told.closed 1 2 (pos 2) (Closing.rejected (of_error 1) Rejector.local)
        ∷ told.closed 1 3 (pos 3) (Closing.rejected (of_result 1) Rejector.local)
        ∷ [])
        ∷ Answer.outputs (sent (hex 40
        0x6526_480400000001_490400000005_6C18_A406020101_820101_A406020102_830101_A406020103_820101) ∷ [])
        ∷ []) }
{}

/// The components after a faulty one are passed over, and the faulty one closes nothing.
pub fn faulty_second_component()
    ensures { Answers opened
        (invoke (negsuc 127) One 10
        ∷ invoke (pos 127) One 10
        ∷ plain_begin
        ∷ heard (hex 39 0x6525_480400000005_490400000001_6C17_A203020180_A503020107_A20302017F_A30602017F_020101)
        ∷ go_on
        ∷ request (asks.u_cancel (pos 127))
        ∷ [])
        (Answer.number 1
        ∷ Answer.number 2
        ∷ Answer.outputs (sent (hex 26 0x6218_480400000001_6C10_A106020180_02010A_A10602017F_02010A) ∷ [])
        ∷ Answer.outputs (told.go_on 1 None [] ∷ told.closed 1 1 (negsuc 127) (Closing.result_last None)
        ∷ told.local_reject (Some 1) (Some (pos 7)) (general 0) ∷ [])
        ∷ Answer.outputs (sent (hex 24 0x6516_480400000001_490400000005_6C08_A406020107_800100) ∷ [])
        ∷ Answer.given_up 2
        ∷ []) }
{}

/// The answers to an Invoke go out in a Continue or an End.
pub fn answers_sent()
    ensures in_a_continue { Answers (begun_from shown_begin)
        (request (asks.result_more (pos 1) None) ∷ request (asks.error_back (pos 1) (code 13) None) ∷ go_on ∷ [])
        (shown_begin_told
        ∷ Answer.done
        ∷ Answer.done
        ∷ Answer.outputs (sent (hex 29 0x651B_480400000001_490400000001_6C0D_A703020101_A306020101_02010D) ∷ [])
        ∷ []) }
    ensures in_an_end { Ends (begun_from shown_begin)
        (request (asks.result_last (pos 1) None) ∷ request (asks.finish Ending.basic None []) ∷ [])
        (shown_begin_told
        ∷ Answer.done
        ∷ Answer.outputs (sent (hex 15 0x640D_490400000001_6C05_A203020101) ∷ [])
        ∷ []) }
    ensures rejected { Answers (begun_from shown_begin)
        (request (asks.u_reject (Some (pos 1)) (of_invoke 1)) ∷ go_on ∷ [])
        (shown_begin_told
        ∷ Answer.done
        ∷ Answer.outputs (sent (hex 24 0x6516_480400000001_490400000001_6C08_A406020101_810101) ∷ [])
        ∷ []) }
{}

/// A Begin that was delivered twice has two answers: the first that comes back closes the invocation, and
/// the other is rejected.
pub fn repeated_begin_played()
    ensures answerer { Answers (begun_from (hex 18 0x6210_480400000001_6C08_A106020101_02010A))
        (request (asks.result_last (pos 1) (body (code 10) (Some (hex 3 0x0401AA)))) ∷ go_on ∷ [])
        (Answer.outputs (told.begin 1 None [] ∷ told.invoked (Some 1) (pos 1) None (code 10) None ∷ [])
        ∷ Answer.done
        ∷ Answer.outputs (sent (hex 29 0x651B_480400000001_490400000001_6C0D_A20B020101_300602010A_0401AA) ∷ [])
        ∷ []) }
    ensures opener { Answers opened
        (one_invoke
        ++ heard (hex 29 0x651B_480400000002_490400000001_6C0D_A20B020101_300602010A_0401BB)
        ∷ heard (hex 29 0x651B_480400000001_490400000001_6C0D_A20B020101_300602010A_0401AA)
        ∷ moment 1000
        ∷ [])
        (one_invoke_told
        ++ Answer.outputs (told.go_on 1 None [] ∷ told.closed 1 1 (pos 1)
        (Closing.result_last (body (code 10) (Some (hex 3 0x0401BB)))) ∷ [])
        ∷ Answer.outputs (told.go_on 1 None [] ∷ told.local_reject (Some 1) (Some (pos 1)) (of_result 0) ∷ [])
        ∷ Answer.outputs []
        ∷ []) }
{}

/// The components of a Begin meet no invocation: a result in it is rejected, and the Reject goes out
/// with the first Continue.
pub fn a_result_in_a_begin()
    ensures { Answers (begun_from (hex 12 0x620A_480107_6C05_A203020101))
        (go_on ∷ [])
        (Answer.outputs (told.begin 1 None [] ∷ told.local_reject (Some 1) (Some (pos 1)) (of_result 0) ∷ [])
        ∷ Answer.outputs (sent (hex 21 0x6513_480400000001_490107_6C08_A406020101_820100) ∷ [])
        ∷ []) }
{}

/// An Invoke whose linked identifier is unknown is rejected.
pub fn unknown_linked_identifier()
    ensures { Answers (begun_from (hex 21 0x6213_480400000001_6C0B_A109020101_800105_020102))
        []
        (Answer.outputs (told.begin 1 None [] ∷ told.local_reject (Some 1) (Some (pos 1)) (of_invoke 5) ∷ []) ∷ []) }
{}

/// A linked identifier is that of an invocation that is Sent when the component is handled: not closed
/// by an earlier component of the message, nor Queued. That of a request isn't compared with anything.
pub fn linked_identifiers()
    ensures sent_then_closed { Answers opened
        (one_invoke
        ++ heard (hex 27 0x6519_480400000005_490400000001_6C0B_A109020102_800101_020105)
        ∷ heard (hex 32 0x651E_480400000005_490400000001_6C10_A203020101_A109020103_800101_020105)
        ∷ [])
        (one_invoke_told
        ++ Answer.outputs (told.go_on 1 None [] ∷ told.invoked (Some 1) (pos 2) (Some (pos 1)) (code 5) None ∷ [])
        ∷ Answer.outputs (told.go_on 1 None [] ∷ first_result ∷ told.local_reject (Some 1) (Some (pos 3)) (of_invoke 5)
        ∷ [])
        ∷ []) }
    ensures queued { Answers opened
        (one_invoke ++ invoke (pos 2) One 11 ∷ heard
        (hex 27 0x6519_480400000005_490400000001_6C0B_A109020103_800102_020105) ∷ [])
        (one_invoke_told
        ++ Answer.number 2
        ∷ Answer.outputs (told.go_on 1 None [] ∷ told.local_reject (Some 1) (Some (pos 3)) (of_invoke 5) ∷ [])
        ∷ []) }
    ensures requested { Answers opened
        (request (asks.invoke (pos 1) One (code 10) None (Some (pos 99)) 1000) ∷ plain_begin ∷ [])
        (Answer.number 1 ∷ Answer.outputs (sent (hex 21 0x6213_480400000001_6C0B_A109020101_800163_02010A) ∷ [])
        ∷ []) }
{}

/// Rejects are queued one by one, each where it fits: with room for 7 octets the first, of 8, isn't
/// queued, and the second, of 7, is. Both are told.
pub fn rejects_at_the_queues_limit()
    ensures small_limit { Answers (with_room 7 opened)
        (plain_begin ∷ heard (hex 23 0x6515_480400000005_490400000001_6C07_A203020109_A500) ∷ go_on ∷ [])
        (Answer.outputs (sent (hex 8 0x6206_480400000001) ∷ [])
        ∷ Answer.outputs (told.go_on 1 None [] ∷ told.local_reject (Some 1) (Some (pos 9)) (of_result 0)
        ∷ told.local_reject (Some 1) None (general 0) ∷ [])
        ∷ Answer.outputs (sent (hex 23 0x6515_480400000001_490400000005_6C07_A4050500_800100) ∷ [])
        ∷ []) }
    ensures usual_limit { Answers opened
        (plain_begin
        ∷ request (asks.invoke (pos 1) One (code 10) (Some (hex 4 0x0482EA4B ++ replicate 59979 0)) None 1000)
        ∷ heard (hex 23 0x6515_480400000005_490400000001_6C07_A203020109_A500)
        ∷ go_on
        ∷ [])
        (Answer.outputs (sent (hex 8 0x6206_480400000001) ∷ [])
        ∷ Answer.number 1
        ∷ Answer.outputs (told.go_on 1 None [] ∷ told.local_reject (Some 1) (Some (pos 9)) (of_result 0)
        ∷ told.local_reject (Some 1) None (general 0) ∷ [])
        ∷ Answer.outputs (sent (hex 34
        0x6582EA70_480400000001_490400000005_6C82EA60_A182EA55_020101_02010A_0482EA4B ++ replicate 59979 0
        ++ hex 7 0xA4050500_800100) ∷ [])
        ∷ []) }
{}

/// A Reject without an identifier closes nothing.
pub fn a_reject_without_identifier()
    ensures { Answers opened
        (one_invoke ++ heard (hex 23 0x6515_480400000005_490400000001_6C07_A4050500_800102) ∷ [])
        (one_invoke_told ++ Answer.outputs (told.go_on 1 None []
        ∷ told.remote_reject (Some 1) None (general 2) Rejector.remote_provider ∷ []) ∷ []) }
{}

/// A result for an invocation that is Queued is rejected, and closes nothing.
pub fn an_answer_to_a_queued_identifier()
    ensures { Answers opened
        (one_invoke ++ invoke (pos 2) One 11 ∷ heard (hex 21 0x6513_480400000005_490400000001_6C05_A203020102)
        ∷ request (asks.u_cancel (pos 2)) ∷ [])
        (one_invoke_told
        ++ Answer.number 2
        ∷ Answer.outputs (told.go_on 1 None [] ∷ told.local_reject (Some 1) (Some (pos 2)) (of_result 0) ∷ [])
        ∷ Answer.given_up 2
        ∷ []) }
{}

/// A Reject that can't be read is told and isn't answered.
pub fn a_faulty_reject()
    ensures { Answers opened
        (one_invoke ++ heard (hex 17 0x650F_480400000005_490400000001_6C01_A4) ∷ go_on ∷ [])
        (one_invoke_told
        ++ Answer.outputs (told.go_on 1 None [] ∷ told.local_reject (Some 1) None (general 2) ∷ [])
        ∷ Answer.outputs (sent (hex 14 0x650C_480400000001_490400000005) ∷ [])
        ∷ []) }
{}

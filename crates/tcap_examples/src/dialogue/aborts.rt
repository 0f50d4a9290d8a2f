//! Worked dialogues that end by an Abort, by the user or by a faulty message.

#![tactic(auto, unfolding(crate::specs::Computing::computing))]

ghost use Rattle.std.specs.Prelude.{pos, [], ◌∷◌, ◌++◌, true, false, Some, None};
ghost use Rattle.tcap_pdu.specs.DialogueSpelling.{PduValue, Source};
ghost use Rattle.tcap_model.specs.Words.Answer.{Answer};
ghost use Rattle.tcap_examples.specs.Values.DialogueValues.{context, aarq, aare, aare_result, code, one_invoke, one_invoke_told, first_ended, begin_with_aarq, begin_with_aarq_told, EndsTold};
ghost use Rattle.tcap_examples.specs.Values.Hex.{hex};
ghost use Rattle.tcap_model.specs.Words.Output.{AbortCause, Closing};
ghost use Rattle.tcap_model.specs.Words.Request.{Ending, AbortReason};
ghost use Rattle.tcap_examples.specs.Dialogues.Played.{opened, begun_from, heard, Answers, Ends};
ghost use Rattle.tcap_model.specs.Table.TableMove.{DialogueEvent};
ghost use Rattle.tcap_model.specs.Table.TableMove.DialogueEvent.{request};
ghost use Rattle.tcap_examples.specs.Values.Asked as asks;
ghost use Rattle.tcap_examples.specs.Values.Told as told;
ghost use Rattle.tcap_examples.specs.Values.Peer.{sent};

/// A faulty message ends a dialogue, with its cause.
pub fn a_fault_ends_a_dialogue()
    ensures { Ends opened
        (one_invoke ++ DialogueEvent.fault 2 ∷ [])
        (one_invoke_told ++ Answer.outputs (told.p_abort 1 (AbortCause.cause 2) ∷ first_ended ∷ []) ∷ []) }
{}

/// The ways in which the one invocation of a dialogue is closed: the provider's Abort, the user's Abort,
/// an error in an End, a prearranged end, an abort by the user here, and TC-U-CANCEL.
pub fn ways_an_invocation_closes()
    ensures provider_abort { Ends opened
        (one_invoke ++ heard (hex 11 0x6709_490400000001_4A0104) ∷ [])
        (one_invoke_told ++ Answer.outputs (told.p_abort 1 (AbortCause.cause 4) ∷ first_ended ∷ []) ∷ []) }
    ensures user_abort { Ends opened
        (one_invoke ++ heard (hex 8 0x6706_490400000001) ∷ [])
        (one_invoke_told ++ Answer.outputs (told.u_abort 1 None ∷ first_ended ∷ []) ∷ []) }
    ensures error { Ends opened
        (one_invoke ++ heard (hex 18 0x6410_490400000001_6C08_A306020101_02010D) ∷ [])
        (one_invoke_told ++ Answer.outputs (told.end 1 None []
        ∷ told.closed 1 1 (pos 1) (Closing.error_back (code 13) None) ∷ []) ∷ []) }
    ensures prearranged_end { Ends opened
        (one_invoke ++ request (asks.finish Ending.prearranged None []) ∷ [])
        (one_invoke_told ++ Answer.outputs (first_ended ∷ []) ∷ []) }
    ensures abort_here { Ends opened
        (one_invoke ++ request (asks.u_abort AbortReason.by_user []) ∷ [])
        (one_invoke_told ++ Answer.outputs (first_ended ∷ []) ∷ []) }
    ensures cancel { Answers opened
        (one_invoke ++ request (asks.u_cancel (pos 1)) ∷ [])
        (one_invoke_told ++ Answer.given_up 1 ∷ []) }
{}

/// A Begin with an AARQ is refused, since its application context isn't supported, or it is aborted.
pub fn dialogue_refused_and_aborted()
    ensures refused { Ends (begun_from begin_with_aarq)
        (request (asks.u_abort AbortReason.not_supported []) ∷ [])
        (begin_with_aarq_told ∷ Answer.outputs (sent
        (hex 8 0x6732_490400000001 ++ aare_result 0xA203020101_A305A103020102) ∷ []) ∷ []) }
    ensures aborted { Ends (begun_from begin_with_aarq)
        (request (asks.u_abort AbortReason.by_user []) ∷ [])
        (begin_with_aarq_told ∷ Answer.outputs (sent
        (hex 28 0x671A_490400000001_6B12_2810_0607_00118605010101_A005_6403_800100) ∷ []) ∷ []) }
{}

/// What a received Abort tells, by its dialogue portion: the user's ABRT, a foreign portion and an AARE
/// that refuses are the user's; "no common dialogue portion" is the provider's; all else is abnormal,
/// also what can't be read.
pub fn what_an_abort_tells()
    ensures user_abrt { EndsTold (hex 28 0x671A_490400000001_6B12_2810_0607_00118605010101_A005_6403_800100)
        (told.u_abort 1 (Some (PduValue.abrt false []))) }
    ensures foreign { EndsTold (hex 17 0x670F_490400000001_6B07_2805_06012A_A000)
        (told.u_abort 1 (Some (PduValue.foreign (hex 7 0x2805_06012A_A000)))) }
    ensures refused { EndsTold (hex 8 0x6732_490400000001 ++ aare_result 0xA203020101_A305A103020102)
        (told.u_abort 1 (Some (PduValue.aare true context false (Source.user 2) []))) }
    ensures no_common { EndsTold (hex 8 0x6732_490400000001 ++ aare_result 0xA203020101_A305A203020102)
        (told.p_abort 1 AbortCause.no_common) }
    ensures accepted { EndsTold (hex 8 0x6732_490400000001 ++ aare) (told.p_abort 1 AbortCause.abnormal) }
    ensures aarq { EndsTold (hex 8 0x6726_490400000001 ++ aarq) (told.p_abort 1 AbortCause.abnormal) }
    ensures provider_abrt { EndsTold (hex 28 0x671A_490400000001_6B12_2810_0607_00118605010101_A005_6403_800101)
        (told.p_abort 1 AbortCause.abnormal) }
    ensures empty { EndsTold (hex 10 0x6708_490400000001_6B00) (told.p_abort 1 AbortCause.abnormal) }
{}

/// The user's Abort of an active dialogue has an ABRT at the side too that asked for the context.
pub fn an_abort_by_the_opener()
    ensures { Ends opened
        (request (asks.begin (Some context) []) ∷ heard (hex 14 0x6538_480400000005_490400000001 ++ aare)
        ∷ request (asks.u_abort AbortReason.by_user (hex 2 0x2800)) ∷ [])
        (Answer.outputs (sent (hex 8 0x6226_480400000001 ++ aarq) ∷ [])
        ∷ Answer.outputs (told.go_on 1 (Some context) [] ∷ [])
        ∷ Answer.outputs (sent (hex 32
        0x671E_490400000005_6B16_2814_0607_00118605010101_A009_6407_800100_BE02_2800) ∷ [])
        ∷ []) }
{}

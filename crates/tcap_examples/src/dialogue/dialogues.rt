//! Worked dialogues: how one begins and is answered.

#![tactic(auto, unfolding(crate::specs::Computing::computing))]

ghost use Rattle.std.specs.Prelude.{◌≡◌, pos, [], ◌∷◌, ◌++◌, drop, Some, None};
ghost use Rattle.tcap_component.specs.Component.{CodeParts};
ghost use Rattle.tcap_invocation.specs.declared.class.Class.TheVariants.{One};
ghost use Rattle.tcap_model.specs.Words.Answer.{Answer};
ghost use Rattle.tcap_examples.specs.Values.DialogueValues.{context, aarq_version, aarq, aare, invoke, go_on, one_invoke, one_invoke_told, first_ended, begin_with_aarq, begin_with_aarq_told};
ghost use Rattle.tcap_model.specs.Words.Fault.{Fault};
ghost use Rattle.tcap_examples.specs.Values.Hex.{hex};
ghost use Rattle.tcap_model.specs.Words.Output.{AbortCause, Closing};
ghost use Rattle.tcap_model.specs.Procedures.PortionRules.{BeginVerdict, begin_verdict};
ghost use Rattle.tcap_model.specs.Procedures.Refusals.{invoke_fault};
ghost use Rattle.tcap_model.specs.Words.Request.{AbortReason};
ghost use Rattle.tcap_model.specs.Words.State.{State};
ghost use Rattle.tcap_examples.specs.Dialogues.Played.{opened, begun_from, play, heard, Answers, Ends};
ghost use Rattle.tcap_model.specs.Table.TableMove.{situation};
ghost use Rattle.tcap_model.specs.Table.TableMove.DialogueEvent.{request};
ghost use Rattle.tcap_examples.specs.Values.Asked as asks;
ghost use Rattle.tcap_examples.specs.Values.Told as told;
ghost use Rattle.tcap_examples.specs.Values.Peer.{sent};

/// The dialogue portion of a Begin is none, an AARQ, an AARQ of another version, or abnormal; and what
/// the dialogue alone judges of an Invoke: the timeout before the code.
pub fn a_begin_judged()
    ensures plain { begin_verdict None ≡ BeginVerdict.plain }
    ensures with_context { begin_verdict (Some (drop 2 aarq)) ≡ BeginVerdict.with_context context [] }
    ensures wrong_version { begin_verdict (Some (drop 2 (aarq_version 0x80020700)))
        ≡ BeginVerdict.wrong_version context }
    ensures abnormal { begin_verdict (Some (hex 2 0x2800)) ≡ BeginVerdict.abnormal }
    ensures invoke { let bad = asks.invoke (pos 1) One (CodeParts.global (hex 1 0x80)) None None 0 in
        invoke_fault (situation opened.setting opened.dialogue bad) bad ≡ Some Fault.bad_timeout }
{}

/// A Begin with an AARQ is accepted by an AARE in the first Continue.
pub fn a_begin_with_aarq()
    ensures answers { Answers (begun_from begin_with_aarq)
        (go_on ∷ [])
        (begin_with_aarq_told ∷ Answer.outputs (sent (hex 14 0x6538_480400000001_490400000001 ++ aare) ∷ [])
        ∷ []) }
    ensures received { (begun_from begin_with_aarq).dialogue.standing.state ≡ State.received (hex 4 0x00000001) }
    ensures active { (play (begun_from begin_with_aarq) (go_on ∷ [])).dialogue.standing.state
        ≡ State.active (hex 4 0x00000001) }
{}

/// An AARE accepts once: the second one is abnormal.
pub fn repeated_aare()
    ensures { let continue_with_aare =
        heard (hex 14 0x653F_480400000005_490400000001 ++ aare ++ hex 7 0x6C05_A203020101) in
        Ends opened
        (invoke (pos 1) One 10 ∷ invoke (pos 2) One 11 ∷ request (asks.begin (Some context) []) ∷ continue_with_aare
        ∷ continue_with_aare ∷ [])
        (Answer.number 1
        ∷ Answer.number 2
        ∷ Answer.outputs (sent (hex 8 0x6238_480400000001 ++ aarq
        ++ hex 18 0x6C10_A106020101_02010A_A106020102_02010B) ∷ [])
        ∷ Answer.outputs (told.go_on 1 (Some context) [] ∷ told.closed 1 1 (pos 1) (Closing.result_last None) ∷ [])
        ∷ Answer.outputs (sent (hex 28 0x671A_490400000005_6B12_2810_0607_00118605010101_A005_6403_800101)
        ∷ told.p_abort 1 AbortCause.abnormal ∷ told.closed 1 2 (pos 2) Closing.ended ∷ [])
        ∷ []) }
{}

/// What an AARE is judged by: that the Begin had a context, that it is there, and that it accepts. Its
/// context, version and diagnostic aren't compared.
pub fn what_an_aare_is_judged_by()
    ensures accepting { Answers opened
        (request (asks.begin (Some context) []) ∷ heard
        (hex 49 0x652F_480105_490400000001_6B24_2822_0607_00118605010101_A017_6115_80020700_A103_06012A_A203020100_A305A203020102) ∷ [])
        (Answer.outputs (sent (hex 8 0x6226_480400000001 ++ aarq) ∷ [])
        ∷ Answer.outputs (told.go_on 1 (Some (hex 1 0x2A)) [] ∷ [])
        ∷ []) }
    ensures refusing { Ends opened
        (request (asks.begin (Some context) []) ∷ heard
        (hex 49 0x652F_480105_490400000001_6B24_2822_0607_00118605010101_A017_6115_80020700_A103_06012A_A203020101_A305A203020102) ∷ [])
        (Answer.outputs (sent (hex 8 0x6226_480400000001 ++ aarq) ∷ [])
        ∷ Answer.outputs (sent (hex 25 0x6717_490105_6B12_2810_0607_00118605010101_A005_6403_800101)
        ∷ told.p_abort 1 AbortCause.abnormal ∷ [])
        ∷ []) }
    ensures missing { Ends opened
        (request (asks.begin (Some context) []) ∷ heard (hex 14 0x650C_480400000005_490400000001) ∷ [])
        (Answer.outputs (sent (hex 8 0x6226_480400000001 ++ aarq) ∷ [])
        ∷ Answer.outputs (sent (hex 28 0x671A_490400000005_6B12_2810_0607_00118605010101_A005_6403_800101)
        ∷ told.p_abort 1 AbortCause.abnormal ∷ [])
        ∷ []) }
    ensures not_asked { Ends opened
        (one_invoke ++ heard (hex 14 0x6538_480400000005_490400000001 ++ aare) ∷ [])
        (one_invoke_told ++ Answer.outputs (sent
        (hex 28 0x671A_490400000005_6B12_2810_0607_00118605010101_A005_6403_800101)
        ∷ told.p_abort 1 AbortCause.abnormal ∷ first_ended ∷ []) ∷ []) }
{}

/// The context of TC-CONTINUE goes into the AARE alone: the dialogue keeps that of the AARQ, and its
/// user's Abort has an ABRT.
pub fn the_context_of_a_continue()
    ensures { Ends (begun_from begin_with_aarq)
        (request (asks.go_on (Some (hex 1 0x2A)) []) ∷ request (asks.u_abort AbortReason.by_user []) ∷ [])
        (begin_with_aarq_told
        ∷ Answer.outputs (sent (hex 52
        0x6532_480400000001_490400000001_6B24_2822_0607_00118605010101_A017_6115_80020780_A103_06012A_A203020100_A305A103020100) ∷ [])
        ∷ Answer.outputs (sent (hex 28 0x671A_490400000001_6B12_2810_0607_00118605010101_A005_6403_800100) ∷ [])
        ∷ []) }
{}

/// User information without a context goes with that of the AARQ.
pub fn information_with_the_context_asked_for()
    ensures { Answers (begun_from begin_with_aarq)
        (request (asks.go_on None (hex 2 0x2800)) ∷ [])
        (begin_with_aarq_told
        ∷ Answer.outputs (sent (hex 62
        0x653C_480400000001_490400000001_6B2E_282C_0607_00118605010101_A021_611F_80020780_A109_0607_04000001000103_A203020100_A305A103020100_BE02_2800) ∷ [])
        ∷ []) }
{}

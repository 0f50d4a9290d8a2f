//! Worked requests that are refused.

#![tactic(auto, unfolding(crate::specs::Computing::computing))]

ghost use Rattle.std.specs.Prelude.{pos, [], ◌∷◌, ◌++◌, replicate, Some, None};
ghost use Rattle.tcap_invocation.specs.declared.class.Class.TheVariants.{One, Four};
ghost use Rattle.tcap_model.specs.Words.Answer.{Answer};
ghost use Rattle.tcap_examples.specs.Values.DialogueValues.{context, bad_code, bad_parameter, code, long_parameter, invoke, shown_begin, begin_with_aarq, begin_with_aarq_told, active, one_queued};
ghost use Rattle.tcap_model.specs.Words.Fault.{Fault};
ghost use Rattle.tcap_examples.specs.Values.Hex.{hex};
ghost use Rattle.tcap_model.specs.Words.Request.{Ending, AbortReason};
ghost use Rattle.tcap_examples.specs.Dialogues.Played.{opened, play, begun_from, Answers, Ends};
ghost use Rattle.tcap_examples.specs.Dialogues.Refused.{with_numbers_spent, Refused};
ghost use Rattle.tcap_model.specs.Table.TableMove.DialogueEvent.{request};
ghost use Rattle.tcap_examples.specs.Values.Asked as asks;
ghost use Rattle.tcap_examples.specs.Values.Peer.{sent};

/// The limits of a dialogue that is Idle, and what it refuses.
pub fn limits_and_refusals()
    ensures no_timeout { Refused opened (asks.invoke (pos 1) One (code 10) None None 0) Fault.bad_timeout }
    ensures code { Refused opened (asks.invoke (pos 1) One bad_code None None 1000) Fault.bad_oid }
    ensures parameter { Refused opened (asks.invoke (pos 1) One (code 10) bad_parameter None 1000) Fault.bad_parameter }
    ensures long_parameter { Refused opened
        (asks.invoke (pos 1) One (code 10) long_parameter None 1000) Fault.too_long }
    ensures numbers { Refused (with_numbers_spent opened) (asks.invoke (pos 1) One (code 10) None None 1000)
        Fault.numbers_spent }
    ensures context { Refused opened (asks.begin None (hex 2 0x2800)) Fault.no_context }
    ensures information { Refused opened (asks.begin None (hex 2 0x0400)) Fault.bad_parameter }
    ensures continue_in_idle { Refused opened (asks.go_on None []) Fault.wrong_state }
    ensures result_in_idle { Refused opened (asks.result_last (pos 1) None) Fault.wrong_state }
    ensures no_invocation { Refused opened (asks.u_cancel (pos 1)) Fault.no_such_invocation }
    ensures empty_queue { Refused opened (asks.uni None []) Fault.not_class_four }
    ensures class_one { Refused one_queued (asks.uni None []) Fault.not_class_four }
{}

/// A queue is empty again once its only Invoke was taken out.
pub fn a_queue_emptied_again()
    ensures { Refused (play opened (invoke (pos 1) Four 7 ∷ request (asks.u_cancel (pos 1)) ∷ []))
        (asks.uni None [])
        Fault.not_class_four }
{}

/// User information that is a list of EXTERNALs is never a bad parameter, however long it is: two of
/// 40,000 octets make the message too long.
pub fn long_information()
    ensures { Refused opened (asks.begin (Some context)
        (hex 4 0x28829C40 ++ replicate 40000 0 ++ hex 4 0x28829C40 ++ replicate 40000 0)) Fault.too_long }
{}

/// A queue holds exactly 60,000 octets and no octet more.
pub fn a_queue_at_the_limit()
    ensures fits { Answers opened
        (request (asks.invoke (pos 1) One (code 10) (Some (hex 4 0x0482EA52 ++ replicate 59986 0)) None 1000) ∷ [])
        (Answer.number 1 ∷ []) }
    ensures one_more { Refused opened (asks.invoke (pos 1) One (code 10) (Some (hex 4 0x0482EA53 ++ replicate 59987 0))
        None 1000) Fault.too_long }
{}

/// A message has exactly 65,535 octets and no octet more.
pub fn a_message_at_the_limit()
    ensures fits { Answers opened
        (request (asks.begin (Some context) (hex 4 0x2882FFC5 ++ replicate 65477 0)) ∷ [])
        (Answer.outputs (sent (hex 58
        0x6282FFFB_480400000001_6B82FFF1_2882FFED_0607_00118605010101_A082FFE0_6082FFDC_80020780_A109_0607_04000001000103_BE82FFC9_2882FFC5 ++ replicate 65477 0) ∷ []) ∷ []) }
    ensures one_more { Refused opened (asks.begin (Some context)
        (hex 4 0x2882FFC6 ++ replicate 65478 0)) Fault.too_long }
{}

/// Where no dialogue portion carries it, a context or user information is refused: one request each.
pub fn no_context_one_by_one()
    ensures begin { Refused opened (asks.begin None (hex 2 0x2800)) Fault.no_context }
    ensures uni { Refused (play opened (invoke (pos 1) Four 7 ∷ [])) (asks.uni None (hex 2 0x2800)) Fault.no_context }
    ensures continue_in_active { Refused active (asks.go_on (Some (hex 1 0x2A)) []) Fault.no_context }
    ensures continue_in_active_information { Refused active (asks.go_on None (hex 2 0x2800)) Fault.no_context }
    ensures continue_not_asked { Refused (begun_from shown_begin) (asks.go_on (Some (hex 1 0x2A)) []) Fault.no_context }
    ensures continue_not_asked_information { Refused (begun_from shown_begin) (asks.go_on None (hex 2 0x2800))
        Fault.no_context }
    ensures end_in_active { Refused active (asks.finish Ending.basic (Some (hex 1 0x2A)) []) Fault.no_context }
    ensures end_in_active_information { Refused active (asks.finish Ending.basic None (hex 2 0x2800)) Fault.no_context }
    ensures end_not_asked { Refused (begun_from shown_begin) (asks.finish Ending.basic (Some (hex 1 0x2A)) [])
        Fault.no_context }
    ensures end_not_asked_information { Refused (begun_from shown_begin) (asks.finish Ending.basic None (hex 2 0x2800))
        Fault.no_context }
    ensures prearranged { Refused (begun_from begin_with_aarq) (asks.finish Ending.prearranged (Some (hex 1 0x2A)) [])
        Fault.no_context }
    ensures prearranged_information { Refused (begun_from begin_with_aarq)
        (asks.finish Ending.prearranged None (hex 2 0x2800)) Fault.no_context }
    ensures abort_in_idle { Refused opened (asks.u_abort AbortReason.by_user (hex 2 0x2800)) Fault.no_context }
    ensures abort_in_sent { Refused (play opened (request (asks.begin (Some (hex 1 0x2A)) []) ∷ []))
        (asks.u_abort AbortReason.by_user (hex 2 0x2800)) Fault.no_context }
    ensures abort_without_context { Refused active (asks.u_abort AbortReason.by_user (hex 2 0x2800)) Fault.no_context }
    ensures not_supported { Ends (begun_from begin_with_aarq)
        (request (asks.u_abort AbortReason.not_supported (hex 2 0x2800)) ∷ [])
        (begin_with_aarq_told
        ∷ Answer.outputs (sent (hex 56
        0x6736_490400000001_6B2E_282C_0607_00118605010101_A021_611F_80020780_A109_0607_04000001000103_A203020101_A305A103020102_BE02_2800) ∷ [])
        ∷ []) }
{}

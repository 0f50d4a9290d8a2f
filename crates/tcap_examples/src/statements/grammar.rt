//! What received bytes are by their grammar: a dialogue portion that is normal or abnormal, the dialogue
//! that they name, and what answers a faulty message.
#![tactic(auto, using(crate::proofs::GrammarWorks::grammar_works), unfolding(crate::specs::Computing::computing))]

ghost use Rattle.std.specs.Prelude.{◌≡◌, [], Some, None, option_map};
ghost use Rattle.tcap_pdu.specs.declared.fault.FrameFault.TheVariants.{BadlyFormatted};
ghost use Rattle.tcap_pdu.specs.FrameFaults.{IsFrameFault};
ghost use Rattle.tcap_pdu.specs.FrameWritten.{written_frame};
ghost use Rattle.tcap_pdu.specs.Front.{Front};
ghost use Rattle.tcap_examples.specs.Statements.GrammarExamples as example;
ghost use Rattle.tcap_examples.specs.Values.DialogueValues.{context, result_of_first};
ghost use Rattle.tcap_model.specs.Statements.FaultAnswer.{fault_answer};
ghost use Rattle.tcap_model.specs.Statements.NamesDialogue.{NamesDialogue};
ghost use Rattle.tcap_model.specs.Statements.NormalPortion.{IsNormal, IsAbnormal};
ghost use Rattle.tcap_model.specs.Words.State.{State};

/// An acceptance where the Begin had a context, and nothing where it had none or the dialogue is active.
pub fn normal_portions()
    ensures accepted { IsNormal State.sent (Some context) (Some example.accepting_portion) }
    ensures not_asked_for { IsNormal State.sent None None }
    ensures in_active { IsNormal (State.active example.peer) (Some context) None }
    ensures refused { IsNormal State.sent (Some context) (Some example.refusing_portion) → ⊥ }
    ensures told_twice { IsNormal (State.active example.peer) (Some context) (Some example.accepting_portion) → ⊥ }
{}

/// None, a refusal, an AARQ and no PDU in place of the acceptance; an acceptance where none may stand.
pub fn abnormal_portions()
    ensures missing { IsAbnormal State.sent (Some context) None }
    ensures refused { IsAbnormal State.sent (Some context) (Some example.refusing_portion) }
    ensures asked_back { IsAbnormal State.sent (Some context) (Some example.asking_portion) }
    ensures empty { IsAbnormal State.sent (Some context) (Some []) }
    ensures told_unasked { IsAbnormal State.sent None (Some example.accepting_portion) }
    ensures told_twice { IsAbnormal (State.active example.peer) (Some context) (Some example.accepting_portion) }
{}

/// A Continue and a faulty one name the dialogue of their destination, and not that of their origin; a
/// faulty Begin names none.
pub fn dialogues_named()
    ensures by_a_message { NamesDialogue 1 result_of_first }
    ensures by_a_front { NamesDialogue 1 example.faulty_continue }
    ensures not_by_origin { NamesDialogue 5 example.faulty_continue → ⊥ }
    ensures not_by_a_begin { NamesDialogue 1 example.faulty_begin → ⊥ }
{}

/// A faulty Continue is answered to the origin at its front, if there is one; a faulty End isn't.
pub fn faults_answered()
    ensures faulty { IsFrameFault example.faulty_continue BadlyFormatted }
    ensures front { Front example.faulty_continue (Some example.peer) (Some example.first_octets) }
    ensures answered { option_map written_frame
        (fault_answer example.faulty_continue BadlyFormatted (Some example.peer))
        ≡ Some example.abort_sent }
    ensures no_origin { fault_answer example.without_origin BadlyFormatted None ≡ None }
    ensures never { fault_answer example.faulty_end BadlyFormatted (Some example.peer) ≡ None }
{}

//! Worked receptions: messages to no dialogue, and faulty ones.

#![tactic(auto, unfolding(crate::specs::Computing::computing))]

ghost use Rattle.std.specs.Prelude.{◌≡◌, [], ◌++◌, replicate, true, false, Some, None};
ghost use Rattle.tcap_pdu.specs.FrameSpelling.{Message};
ghost use Rattle.tcap_examples.specs.Values.DialogueValues.{aarq, aarq_version, aare_result, shown_begin, is_first_live};
ghost use Rattle.tcap_examples.specs.Values.Hex.{hex};
ghost use Rattle.tcap_model.specs.Words.Output.{DropCause};
ghost use Rattle.tcap_examples.specs.Dialogues.Played.{aborted_with, broken_with, is_none_live};
ghost use Rattle.tcap_model.specs.Procedures.Reception.{Reception, reception};

/// A Continue to no dialogue is aborted, an End and an Abort to none are dropped; fewer than four octets
/// name no dialogue.
pub fn messages_to_no_dialogue()
    ensures continue_to_none { aborted_with (reception is_none_live false (hex 14 0x650C_480400000009_4904000000FF))
        ≡ Some (hex 11 0x6709_490400000009_4A0101) }
    ensures end_to_none { reception is_none_live false (hex 15 0x640D_490400000001_6C05_A203020101)
        ≡ Reception.dropped DropCause.no_dialogue }
    ensures abort_to_none { reception is_none_live false (hex 11 0x6709_490400000001_4A0104)
        ≡ Reception.dropped DropCause.no_dialogue }
    ensures short_destination { reception is_first_live false (hex 5 0x6403_490101)
        ≡ Reception.dropped DropCause.no_dialogue }
    ensures live { reception is_first_live false (hex 8 0x6406_490400000001)
        ≡ Reception.taken 1 (Message.end (hex 4 0x00000001) None []) }
{}

/// A faulty message is answered where its originator is known, and else dropped.
pub fn faulty_messages_answered()
    ensures begin { aborted_with (reception is_none_live false (hex 9 0x6215_480400000001_6C))
        ≡ Some (hex 11 0x6709_490400000001_4A0102) }
    ensures unknown_type { aborted_with (reception is_none_live false (hex 8 0x6306_480400000007))
        ≡ Some (hex 11 0x6709_490400000007_4A0100) }
    ensures one_octet { reception is_none_live false (hex 1 0x00) ≡ Reception.dropped DropCause.bad_message }
    ensures no_octet { reception is_none_live false [] ≡ Reception.dropped DropCause.bad_message }
    ensures empty_origin { reception is_none_live false (hex 4 0x62024800) ≡ Reception.dropped DropCause.bad_message }
{}

/// A faulty Continue or End ends the live dialogue that it names; a faulty Continue is answered too.
pub fn faulty_messages_to_a_dialogue()
    ensures continue_answered { broken_with (reception is_first_live false (hex 15 0x650D_480400000005_490400000001_6C))
        ≡ Some (1, ((hex 11 0x6709_490400000005_4A0102), 2)) }
    ensures continue_without_origin { reception is_first_live false (hex 15 0x650D_48050000000005_490400000001)
        ≡ Reception.broken 1 None 3 }
    ensures end { reception is_first_live false (hex 9 0x6407_490400000001_6C) ≡ Reception.broken 1 None 2 }
    ensures end_to_none { reception is_none_live false (hex 9 0x6407_490400000001_6C)
        ≡ Reception.dropped DropCause.bad_message }
    ensures continue_to_none { aborted_with (reception is_none_live false (hex 15 0x650D_480400000005_490400000001_6C))
        ≡ Some (hex 11 0x6709_490400000005_4A0102) }
{}

/// What becomes of a faulty message is chosen by its first octet alone.
pub fn rows_of_faulty_messages()
    ensures unidirectional { reception is_first_live false (hex 8 0x6106_480400000007)
        ≡ Reception.dropped DropCause.bad_message }
    ensures unknown_type { aborted_with (reception is_first_live false (hex 14 0x630C_480400000007_490400000001))
        ≡ Some (hex 11 0x6709_490400000007_4A0100) }
    ensures primitive { reception is_first_live false (hex 8 0x4206_480400000005)
        ≡ Reception.dropped DropCause.bad_message }
{}

/// What is dropped: a Unidirectional with an AARQ, and what is above 65,535 bytes.
pub fn dropped_input()
    ensures bad_dialogue { reception is_none_live false (hex 2 0x6122 ++ aarq ++ hex 2 0x6C00)
        ≡ Reception.dropped DropCause.bad_dialogue }
    ensures too_long { reception is_none_live false (replicate 65536 0) ≡ Reception.dropped DropCause.too_long }
{}

/// Where no dialogue can be created a Begin is aborted with cause 4, whatever its dialogue portion is; a
/// faulty one with its own cause. Otherwise an abnormal portion is answered by an ABRT.
pub fn a_begin_that_bears_no_dialogue()
    ensures full { aborted_with (reception is_none_live true shown_begin)
        ≡ Some (hex 11 0x6709_490400000001_4A0104) }
    ensures full_abnormal { aborted_with (reception is_none_live true (hex 12 0x620A_480400000001_6B022800))
        ≡ Some (hex 11 0x6709_490400000001_4A0104) }
    ensures full_faulty { aborted_with (reception is_none_live true (hex 9 0x6215_480400000001_6C))
        ≡ Some (hex 11 0x6709_490400000001_4A0102) }
    ensures abnormal { aborted_with (reception is_none_live false (hex 10 0x6208_480400000001_6B00))
        ≡ Some (hex 28 0x671A_490400000001_6B12_2810_0607_00118605010101_A005_6403_800101) }
    ensures version { aborted_with (reception is_none_live false (hex 8 0x6226_480400000001 ++ aarq_version 0x80020700))
        ≡ Some (hex 8 0x6732_490400000001 ++ aare_result 0xA203020101_A305A203020102) }
{}

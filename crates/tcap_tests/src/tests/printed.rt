//! What is printed for some HEX, computed by the definitions that the contracts of the texts name.
#![tactic(auto, unfolding(crate::specs::Computing::computing))]

ghost use Rattle.std.specs.Prelude.{◌≡◌, codes};
ghost use Rattle.tcap_tests.specs.Printed.{Printed, shown, checked, rewritten};

/// A Begin with an Invoke, in three forms of its length.
pub fn a_begin_shown()
    ensures shown { shown (codes "62154804000000016C0DA10B02010102010230030401AA")
        ≡ Printed.good (codes "begin\n  otid 00000001\n  components 13\n    invoke 1 linked - op local 2 param 30030401aa\n") }
    ensures long_length { shown (codes "6281154804000000016C0DA10B02010102010230030401AA")
        ≡ Printed.good (codes "begin\n  otid 00000001\n  components 13\n    invoke 1 linked - op local 2 param 30030401aa\n") }
    ensures longer_length { shown (codes "628200154804000000016C0DA10B02010102010230030401AA")
        ≡ Printed.good (codes "begin\n  otid 00000001\n  components 13\n    invoke 1 linked - op local 2 param 30030401aa\n") }
    ensures checked { checked (codes "62154804000000016C0DA10B02010102010230030401AA")
        ≡ Printed.good (codes "good\n") }
    ensures rewritten { rewritten (codes "62154804000000016C0DA10B02010102010230030401AA")
        ≡ Printed.good (codes "62154804000000016c0da10b02010102010230030401aa\n") }
    ensures rewritten_long { rewritten (codes "6281154804000000016C0DA10B02010102010230030401AA")
        ≡ Printed.good (codes "62154804000000016c0da10b02010102010230030401aa\n") }
    ensures rewritten_longer { rewritten (codes "628200154804000000016C0DA10B02010102010230030401AA")
        ≡ Printed.good (codes "62154804000000016c0da10b02010102010230030401aa\n") }
{}

/// Messages of each type without a dialogue portion; 6C without contents is not shown.
pub fn messages_shown()
    ensures empty_components { shown (codes "62084804000000016C00")
        ≡ Printed.good (codes "begin\n  otid 00000001\n") }
    ensures unidirectional { shown (codes "61076C05A203020101")
        ≡ Printed.good (codes "unidirectional\n  components 5\n    result last 1 op - param -\n") }
    ensures nothing_in_it { shown (codes "61026C00") ≡ Printed.good (codes "unidirectional\n") }
    ensures end { shown (codes "640D4904000000016C05A203020101")
        ≡ Printed.good (codes "end\n  dtid 00000001\n  components 5\n    result last 1 op - param -\n") }
    ensures abort { shown (codes "67094904000000014A0102")
        ≡ Printed.good (codes "abort\n  dtid 00000001\n  cause 2\n") }
    ensures abort_alone { shown (codes "6703490107") ≡ Printed.good (codes "abort\n  dtid 07\n") }
    ensures refused_hex { shown (codes "621") ≡ Printed.nothing }
    ensures no_digit { shown (codes "6x") ≡ Printed.nothing }
{}

/// What is no message: the verdict alone.
pub fn faults_shown()
    ensures no_identifiers { shown (codes "6500") ≡ Printed.faulty (codes "fault incorrect\n") }
    ensures indefinite { shown (codes "65800000") ≡ Printed.faulty (codes "fault incorrect\n") }
    ensures cut { shown (codes "6501") ≡ Printed.faulty (codes "fault badly formatted\n") }
    ensures octet_behind { shown (codes "620648040000000100") ≡ Printed.faulty (codes "fault badly formatted\n") }
    ensures empty_identifier { shown (codes "62024800") ≡ Printed.faulty (codes "fault incorrect\n") }
    ensures long_identifier { shown (codes "620748050000000001") ≡ Printed.faulty (codes "fault incorrect\n") }
    ensures unknown_type { shown (codes "6306480400000007") ≡ Printed.faulty (codes "fault unknown type\n") }
    ensures long_tag { shown (codes "7F0206480400000001") ≡ Printed.faulty (codes "fault unknown type\n") }
    ensures no_octet { shown (codes "") ≡ Printed.faulty (codes "fault badly formatted\n") }
{}

/// Dialogue portions: each PDU, a foreign one, and one that can not be read.
pub fn dialogues_shown()
    ensures aarq { shown
        (codes "62354804000000016B1E281C060700118605010101A011600F80020780A1090607040000010001036C0DA10B02010102010230030401AA")
        ≡ Printed.good (codes "begin\n  otid 00000001\n  dialogue 30\n    aarq version yes context 04000001000103 info -\n  components 13\n    invoke 1 linked - op local 2 param 30030401aa\n") }
    ensures other_version { shown
        (codes "62264804000000016B1E281C060700118605010101A011600F80020700A109060704000001000103")
        ≡ Printed.good (codes "begin\n  otid 00000001\n  dialogue 30\n    aarq version no context 04000001000103 info -\n") }
    ensures aare { shown
        (codes "652F4801054904000000016B242822060700118605010101A017611580020700A10306012AA203020101A305A203020102")
        ≡ Printed.good (codes "continue\n  otid 05\n  dtid 00000001\n  dialogue 36\n    aare version no context 2a result 1 provider 2 info -\n") }
    ensures abrt { shown (codes "671A4904000000016B122810060700118605010101A0056403800100")
        ≡ Printed.good (codes "abort\n  dtid 00000001\n  dialogue 18\n    abrt user info -\n") }
    ensures foreign { shown (codes "670F4904000000016B07280506012AA000")
        ≡ Printed.good (codes "abort\n  dtid 00000001\n  dialogue 7\n    foreign 280506012aa000\n") }
    ensures foreign_in_a_begin { shown (codes "620F4804000000016B07280506012AA000")
        ≡ Printed.faulty (codes "begin\n  otid 00000001\n  dialogue 7\n    foreign 280506012aa000\n") }
    ensures faulty { shown (codes "62084804000000016B00")
        ≡ Printed.faulty (codes "begin\n  otid 00000001\n  dialogue 0\n    faulty\n") }
{}

/// Components: results, an error, a Reject, and one that is faulty.
pub fn components_shown()
    ensures answers { shown (codes "651B4804000000014904000000016C0DA703020101A30602010102010D")
        ≡ Printed.good (codes "continue\n  otid 00000001\n  dtid 00000001\n  components 13\n    result more 1 op - param -\n    error 1 code local 13 param -\n") }
    ensures faulty { shown (codes "65254804000000054904000000016C17A203020180A503020107A20302017FA30602017F020101")
        ≡ Printed.faulty (codes "continue\n  otid 00000005\n  dtid 00000001\n  components 23\n    result last -128 op - param -\n    faulty 7 general 0\n") }
    ensures reject { shown (codes "620F4804000000016C07A4050500800102")
        ≡ Printed.good (codes "begin\n  otid 00000001\n  components 7\n    reject - general 2\n") }
{}

/// The verdict alone.
pub fn verdicts_checked()
    ensures empty_components { checked (codes "62084804000000016C00") ≡ Printed.good (codes "good\n") }
    ensures reject_without_identifier { checked (codes "620F4804000000016C07A4050500800102")
        ≡ Printed.good (codes "good\n") }
    ensures reject { checked (codes "62104804000000016C08A406020101810109") ≡ Printed.good (codes "good\n") }
    ensures short_identifier { checked (codes "6203480107") ≡ Printed.good (codes "good\n") }
    ensures long_identifier { checked (codes "620748050000000001") ≡ Printed.faulty (codes "fault incorrect\n") }
    ensures empty_identifier { checked (codes "62024800") ≡ Printed.faulty (codes "fault incorrect\n") }
    ensures dialogue { checked (codes "62084804000000016B00") ≡ Printed.faulty (codes "fault dialogue\n") }
    ensures second_component { checked
        (codes "65254804000000054904000000016C17A203020180A503020107A20302017FA30602017F020101")
        ≡ Printed.faulty (codes "fault component 2\n") }
{}

/// Canonical forms: definite lengths, the contents of a parameter as they came, the version always written.
pub fn canonical_forms()
    ensures indefinite { rewritten (codes "62804804000000016C80A18002010102010230800401AA0000000000000000")
        ≡ Printed.good (codes "62174804000000016c0fa10d02010102010230800401aa0000\n") }
    ensures empty_components { rewritten (codes "62084804000000016C00") ≡ Printed.good (codes "6206480400000001\n") }
    ensures reject { rewritten (codes "620F4804000000016C07A4050500800102")
        ≡ Printed.good (codes "620f4804000000016c07a4050500800102\n") }
    ensures short_identifier { rewritten (codes "6203480107") ≡ Printed.good (codes "6203480107\n") }
    ensures abort { rewritten (codes "67094904000000014A0102") ≡ Printed.good (codes "67094904000000014a0102\n") }
    ensures long_identifier { rewritten (codes "620748050000000001") ≡ Printed.faulty (codes "fault incorrect\n") }
    ensures empty_identifier { rewritten (codes "62024800") ≡ Printed.faulty (codes "fault incorrect\n") }
    ensures version { rewritten (codes "62224804000000016B1A2818060700118605010101A00D600BA109060704000001000103")
        ≡ Printed.good (codes "62264804000000016b1e281c060700118605010101a011600f80020780a109060704000001000103\n") }
{}

#[test]
fn printed_by_computation() {
    a_begin_shown();
    messages_shown();
    faults_shown();
    dialogues_shown();
    components_shown();
    verdicts_checked();
    canonical_forms();
}

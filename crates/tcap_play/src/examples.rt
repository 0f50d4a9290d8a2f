//! Worked plays and streams, by computation.
#![tactic(auto, unfolding(crate::specs::Computing::computing))]

ghost use Rattle.std.specs.Prelude.{◌≡◌, codes, true, false, [], ◌∷◌, ◌++◌};
ghost use Rattle.tcap_model.specs.Statements.Net.{IsNet};
ghost use Rattle.tcap_play.specs.Examples.{AnswersElsewhere, AnswersNoAddress, AnswersTheOther, DeliversALostEnd, DeliversTwice, GoesToTheOther, IdlesInA, IdlesInB, LosesElsewhere, LosesElsewhereTwice, LosesLate, LosesTwice, Prints, PrintsUpTo, RepeatsElsewhere, RepeatsFirst, Streams, EndsAtAFault, lost_end_script, lost_end_text, repeated_begin_script, repeated_begin_text, shown_begin};
ghost use Rattle.tcap_play.specs.PlayNet.{HasNoRaw, has_no_raw, net_of, played_of, shown_text};

/// A Begin that comes twice: the far side has two dialogues, and both answer.
pub fn repeated_begin()
    ensures text { Prints repeated_begin_script repeated_begin_text }
{}

/// An End that is lost: the invocation lapses. A lost message can't be delivered.
pub fn lost_end()
    ensures text { Prints lost_end_script lost_end_text }
    ensures delivered { DeliversALostEnd }
{}

/// An idle limit: the first line that isn't skipped sets it for both engines, and prints nothing; anywhere else
/// such a line is bad. It is 0 to 2^62 milliseconds, 0 for none.
pub fn idle_limit()
    ensures text { IdlesInA }
    ensures other { IdlesInB }
    ensures alone { Prints (codes "idle 1") [] }
    ensures least { Prints (codes "idle 0") [] }
    ensures most { Prints (codes "idle 4611686018427387904") [] }
    ensures above { PrintsUpTo (codes "idle 4611686018427387905") (codes "line 1 bad\n") }
    ensures padded { PrintsUpTo (codes "idle 01") (codes "line 1 bad\n") }
    ensures no_limit { PrintsUpTo (codes "idle") (codes "line 1 bad\n") }
    ensures two_limits { PrintsUpTo (codes "idle 1 1") (codes "line 1 bad\n") }
    ensures twice { PrintsUpTo (codes "# x\n\nidle 1\nidle 1") (codes "line 4 bad\n") }
    ensures late { PrintsUpTo (codes "A new\nidle 1") (codes "A new 1\nline 2 bad\n") }
    ensures plain { HasNoRaw (codes "idle 1\nA new") }
{}

/// The empty script, and one that ends with a bad line.
pub fn endings()
    ensures empty { Prints [] [] }
    ensures second { PrintsUpTo (codes "A new\nA new 1") (codes "A new 1\nline 2 bad\n") }
    ensures no_line_feed { Prints (codes "A new") (codes "A new 1\n") }
{}

/// Addresses: a message that doesn't go to the other side names where it goes, and is only lost. A message is
/// received from another address than the other side's, and an answer to it goes there.
pub fn addresses()
    ensures text { AnswersElsewhere }
    ensures known { GoesToTheOther }
    ensures own { Prints (codes "A new\nA beginto 1 41 - -") (codes "A new 1\nA send A1 6206480400000001 to 41\n") }
    ensures none { Prints (codes "A new\nA beginto 1 - - -") (codes "A new 1\nA send A1 6206480400000001 to -\n") }
    ensures from_none { AnswersNoAddress }
    ensures from_other { AnswersTheOther }
    ensures again { RepeatsElsewhere }
    ensures lost { LosesElsewhere }
    ensures lost_twice { LosesElsewhereTwice }
    ensures no_octets { PrintsUpTo (codes "A new\nA beginto 1 4 - -") (codes "A new 1\nline 2 bad\n") }
    ensures no_address { PrintsUpTo (codes "A rawfrom 00") (codes "line 1 bad\n") }
{}

/// Refusals are good.
pub fn refusals()
    ensures begin { Prints (codes "A begin 9 - -") (codes "A refused 2\n") }
    ensures dialogue { Prints (codes "A invoke 0 1 1 1 1 - -") (codes "A refused 2\n") }
    ensures timeout { Prints (codes "A new\nA invoke 1 1 1 1 0 - -") (codes "A new 1\nA refused 6\n") }
    ensures moment { Prints (codes "advance 4611686018427387905") (codes "A refused 14\nB refused 14\n") }
    ensures reject { Prints (codes "A reject 1 - general 0") (codes "A refused 2\n") }
    ensures no_message { Prints (codes "A raw -") (codes "A dropped badmessage\n") }
{}

/// Numbers have no zero or plus sign before them, and lie in their range.
pub fn numbers()
    ensures negative_zero { PrintsUpTo (codes "A cancel 1 -0") (codes "line 1 bad\n") }
    ensures two_zeros { PrintsUpTo (codes "A prearranged 00") (codes "line 1 bad\n") }
    ensures zero_before { PrintsUpTo (codes "A prearranged 01") (codes "line 1 bad\n") }
    ensures plus { PrintsUpTo (codes "A prearranged +1") (codes "line 1 bad\n") }
    ensures zero { Prints (codes "A prearranged 0") (codes "A refused 2\n") }
    ensures moment { PrintsUpTo (codes "advance 18446744073709551616") (codes "line 1 bad\n") }
    ensures dialogue { PrintsUpTo (codes "A prearranged 4294967296") (codes "line 1 bad\n") }
    ensures identifier { PrintsUpTo (codes "A cancel 1 128") (codes "line 1 bad\n") }
    ensures least_identifier { Prints (codes "A cancel 1 -128") (codes "A refused 2\n") }
    ensures below { PrintsUpTo (codes "A cancel 1 -129") (codes "line 1 bad\n") }
    ensures class { PrintsUpTo (codes "A invoke 1 1 5 1 1 - -") (codes "line 1 bad\n") }
    ensures code { PrintsUpTo (codes "A reject 1 1 general 128") (codes "line 1 bad\n") }
{}

/// Words stand one space apart, and are told apart by case.
pub fn words()
    ensures two_spaces { PrintsUpTo (codes "A  new") (codes "line 1 bad\n") }
    ensures space_before { PrintsUpTo (codes " A new") (codes "line 1 bad\n") }
    ensures space_behind { PrintsUpTo (codes "A new ") (codes "line 1 bad\n") }
    ensures space_alone { PrintsUpTo (codes " ") (codes "line 1 bad\n") }
    ensures no_octets { PrintsUpTo (codes "A raw ") (codes "line 1 bad\n") }
    ensures odd { PrintsUpTo (codes "A raw 123") (codes "line 1 bad\n") }
    ensures lower_case { PrintsUpTo (codes "a new") (codes "line 1 bad\n") }
    ensures upper_case { PrintsUpTo (codes "A reject 1 1 General 1") (codes "line 1 bad\n") }
    ensures tab { PrintsUpTo (codes "Anew") (codes "line 1 bad\n") }
{}

/// Where `-` stands for something, and where not.
pub fn dashes()
    ensures identifier { PrintsUpTo (codes "A cancel 1 -") (codes "line 1 bad\n") }
    ensures body { PrintsUpTo (codes "A last 1 1 - 0401AA") (codes "line 1 bad\n") }
    ensures error { PrintsUpTo (codes "A error 1 1 - -") (codes "line 1 bad\n") }
    ensures operation { PrintsUpTo (codes "A invoke 1 1 1 - 1 - -") (codes "line 1 bad\n") }
{}

/// Skipped lines are counted.
pub fn counting()
    ensures text { PrintsUpTo (codes "# x\n\nA new\n# y\nnew") (codes "A new 1\nline 5 bad\n") }
{}

/// Messages are numbered from 1; each is received or lost once, and again only where it was received.
pub fn messages()
    ensures none { PrintsUpTo (codes "deliver A1") (codes "line 1 bad\n") }
    ensures zero { PrintsUpTo (codes "deliver A0") (codes "line 1 bad\n") }
    ensures zero_before { PrintsUpTo (codes "deliver A01") (codes "line 1 bad\n") }
    ensures lost_twice { LosesTwice }
    ensures again_first { RepeatsFirst }
    ensures delivered_twice { DeliversTwice }
    ensures lost_late { LosesLate }
{}

/// Scripts with a `raw` or `rawfrom` line, and some with none: a line that is skipped or bad isn't one. Octets that nobody
/// sent don't meet Net. What happens in a play shows the text that it prints.
pub fn raw_lines()
    ensures raw { has_no_raw (codes "A new\nA raw -\n") ≡ false }
    ensures spelled { has_no_raw (codes "B raw 6206480400000001") ≡ false }
    ensures strange { has_no_raw (codes "B rawfrom 42 6206480400000001") ≡ false }
    ensures skipped { HasNoRaw (codes "# A raw -\n#A raw -\nA new") }
    ensures bad { HasNoRaw (codes "A raw 123\nA raw ") }
    ensures forged { IsNet (net_of (codes "A raw -")) → ⊥ }
    ensures repeated_begin { HasNoRaw repeated_begin_script }
    ensures shown { shown_text (played_of repeated_begin_script).trace ≡ repeated_begin_text }
{}

/// A line for each message, and a last line where the stream ends within one, or can't go on.
pub fn streams()
    ensures nothing { Streams [] [] true }
    ensures message { Streams shown_begin (codes "good\n") true }
    ensures rest { Streams (shown_begin ++ 0x62 ∷ 0x15 ∷ 0x48 ∷ []) (codes "good\nrest 3\n") false }
    ensures fault { EndsAtAFault }
    ensures faulty { Streams (0x04 ∷ 0x00 ∷ shown_begin) (codes "fault unknown type\ngood\n") false }
{}

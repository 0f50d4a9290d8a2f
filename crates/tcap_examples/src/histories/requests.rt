//! What requests send.
#![tactic(auto, unfolding(crate::specs::Computing::computing))]

ghost use Rattle.tcap_examples.specs.Histories.Worked.{Works};
ghost use Rattle.tcap_examples.specs.Histories.Requests as worked;

/// A Unidirectional is sent by one engine and received by another.
pub fn unidirectional_both_ways()
    ensures sent { Works worked.unidirectional_sent }
    ensures received { Works worked.unidirectional_received }
{}

/// Results and errors go out in a Continue and in an End.
pub fn answers_sent()
    ensures in_a_continue { Works worked.answers_in_a_continue }
    ensures in_an_end { Works worked.answer_in_an_end }
{}

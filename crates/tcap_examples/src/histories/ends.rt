//! The ways in which an invocation closes.
#![tactic(auto, unfolding(crate::specs::Computing::computing))]

ghost use Rattle.tcap_examples.specs.Histories.Worked.{Works};
ghost use Rattle.tcap_examples.specs.Histories.Ends as worked;

/// By an Abort, by an error, by the end of the dialogue, or by the user.
pub fn ways_an_invocation_closes()
    ensures by_a_cause { Works worked.closed_by_a_cause }
    ensures by_an_abort { Works worked.closed_by_an_abort }
    ensures by_an_error { Works worked.closed_by_an_error }
    ensures by_a_prearranged_end { Works worked.closed_by_a_prearranged_end }
    ensures by_the_users_abort { Works worked.closed_by_the_users_abort }
    ensures by_a_cancel { Works worked.closed_by_a_cancel }
{}

/// A Reject of a result closes nothing, one of the Invoke closes the invocation.
pub fn remote_rejects()
    ensures of_a_result { Works worked.reject_of_a_result }
    ensures of_an_invoke { Works worked.reject_of_an_invoke }
{}

/// A faulty Continue is aborted, and ends its dialogue.
pub fn a_faulty_continue()
    ensures { Works worked.a_faulty_continue }
{}

/// A faulty End ends its dialogue.
pub fn a_faulty_end()
    ensures { Works worked.a_faulty_end }
{}

//! How invocations end.
#![tactic(auto, unfolding(crate::specs::Computing::computing))]

ghost use Rattle.tcap_examples.specs.Histories.Worked.{Works};
ghost use Rattle.tcap_examples.specs.Histories.Closing as worked;

/// An End with a result closes its invocation by the result.
pub fn result_in_an_end()
    ensures { Works worked.result_in_an_end }
{}

/// An invocation lapses at its deadline, and a result after that is rejected.
pub fn lapse_and_late_result()
    ensures { Works worked.lapse_and_late_result }
{}

/// A second accepted AARE ends the dialogue.
pub fn repeated_aare()
    ensures { Works worked.repeated_aare }
{}

/// Results and errors that the class doesn't have are rejected.
pub fn answers_the_class_forbids()
    ensures { Works worked.answers_the_class_forbids }
{}

/// Each class has the answers that it reports by; any other one is rejected.
pub fn each_answer_of_each_class()
    ensures { Works worked.each_answer_of_each_class }
{}

/// After a result its identifier waits for a Reject: for `reject_ms`, and at least until the next
/// accepted moment.
pub fn identifier_held_after_a_result()
    ensures for_its_length { Works worked.identifier_held_after_a_result }
    ensures at_the_same_moment { Works worked.identifier_held_at_the_same_moment }
{}

/// The user's Reject of the result frees the identifier.
pub fn identifier_freed_by_a_reject()
    ensures { Works worked.identifier_freed_by_a_reject }
{}

/// What stands behind a faulty component isn't told.
pub fn faulty_second_component()
    ensures { Works worked.faulty_second_component }
{}

/// The peer's identifier is the origin of the first Continue.
pub fn the_peer_stays()
    ensures { Works worked.the_peer_stays }
{}

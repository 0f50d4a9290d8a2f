//! Where messages come from and go.
#![tactic(auto, unfolding(crate::specs::Computing::computing))]

ghost use Rattle.tcap_examples.specs.Histories.Addresses as worked;
ghost use Rattle.tcap_examples.specs.Histories.EngineSteps.{Runs};
ghost use Rattle.tcap_examples.specs.Histories.Worked.{Works};

/// The address of the first Continue's sender is kept for good, and no later one.
pub fn an_address_learned_once()
    ensures works { Works worked.learned_once }
    ensures runs { Runs worked.learned_once }
{}

/// A message that names no dialogue is answered to its sender; a second acceptance to the address that is kept.
pub fn answers_to_the_sender()
    ensures works { Works worked.answered_to_the_sender }
    ensures runs { Runs worked.answered_to_the_sender }
    ensures repeated_aare { Works worked.repeated_aare_from_elsewhere }
    ensures repeated_aare_runs { Runs worked.repeated_aare_from_elsewhere }
{}

/// A faulty Continue is answered to its sender, whatever is kept, and so is an abnormal one before any was
/// heard.
pub fn continues_that_end_a_dialogue()
    ensures faulty { Works worked.faulty_continue_from_elsewhere }
    ensures faulty_runs { Runs worked.faulty_continue_from_elsewhere }
    ensures abnormal { Works worked.first_continue_abnormal }
    ensures abnormal_runs { Runs worked.first_continue_abnormal }
{}

/// What is sent in a dialogue that a Begin made goes to its sender; a Unidirectional goes where its request
/// says.
pub fn where_requests_send()
    ensures begun { Works worked.begun_from_elsewhere }
    ensures begun_runs { Runs worked.begun_from_elsewhere }
    ensures uni { Works worked.uni_to_the_named }
    ensures uni_runs { Runs worked.uni_to_the_named }
{}

//! Messages that go elsewhere than they should: each history is legal up to its last answer, and not with it.
#![tactic(auto, using(crate::proofs::WrongAddressesTold::wrong_addresses_given))]

ghost use Rattle.tcap_examples.specs.Wrong.WrongHistories.{GoesWrong};
ghost use Rattle.tcap_examples.specs.Wrong.WrongAddresses as wrong;

/// A later Continue's address is kept.
pub fn moving_address()
    ensures { GoesWrong wrong.moving_address }
{}

/// The first Continue's address isn't kept.
pub fn address_never_learned()
    ensures { GoesWrong wrong.address_never_learned }
{}

/// A Continue to no dialogue is answered to the address that some dialogue keeps.
pub fn cause_one_to_a_kept_address()
    ensures { GoesWrong wrong.cause_one_to_a_kept_address }
{}

/// A faulty Continue is answered to the address that its dialogue keeps.
pub fn fault_answered_to_the_kept_address()
    ensures { GoesWrong wrong.fault_answered_to_the_kept_address }
{}

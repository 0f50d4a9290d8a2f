//! The statements about components on worked histories: their premises hold, and so do their conclusions;
//! and histories that miss them.
#![tactic(auto, using(crate::proofs::ComponentsWork::components_work, crate::proofs::ComponentsBroken::components_broken))]

ghost use Rattle.std.specs.Prelude.{[], None};
ghost use Rattle.tcap_pdu.specs.FrameSpelling.{SpellsFrame};
ghost use Rattle.tcap_component.specs.ComponentList.{FirstFault};
ghost use Rattle.tcap_model.specs.Statements.ToldFrom.{IsOfComponent, ToldFromOne, ToldFrom};
ghost use Rattle.tcap_model.specs.Statements.SentFrom.{SentFromOne, SentFrom};
ghost use Rattle.tcap_model.specs.Statements.ComponentPortion.{portion_of};
ghost use Rattle.tcap_model.specs.Statements.Places.{StandsIn, Tells};
ghost use Rattle.tcap_examples.specs.Statements.ComponentExamples.{past, begin_sent, begin_pair, begin_message, two_invokes, before_the_begin, reject_continue, reject_pair, reject_message, reject, before_the_reject, late, result_told, result_pair, before_the_result, begin_received, begun_pair, invoke_told, crossed_queues, misread};
ghost use Rattle.tcap_examples.specs.Wrong.WrongHistories.{GoesWrong, whole};
ghost use Rattle.tcap_examples.specs.Values.Peer.{sent};

/// Two Invokes in a Begin: each was asked for by an accepted request of its dialogue.
pub fn invokes_are_those_requested()
    ensures stands { StandsIn begin_pair before_the_begin past }
    ensures tells { Tells begin_pair.answer (sent begin_sent) }
    ensures spelled { SpellsFrame begin_message begin_sent }
    ensures read { FirstFault two_invokes None (portion_of begin_message) }
    ensures sent_from { SentFromOne begin_pair.event before_the_begin two_invokes None }
{}

/// A Reject in a Continue: it was formed in its dialogue. So all that is sent comes from there.
pub fn a_reject_is_that_formed()
    ensures stands { StandsIn reject_pair before_the_reject past }
    ensures tells { Tells reject_pair.answer (sent reject_continue) }
    ensures spelled { SpellsFrame reject_message reject_continue }
    ensures read { FirstFault reject None (portion_of reject_message) }
    ensures sent_from { SentFromOne reject_pair.event before_the_reject reject None }
    ensures all { SentFrom past }
{}

/// So too where the Reject is of a late result.
pub fn a_late_result_is_rejected()
    ensures { SentFrom late }
{}

/// A result that is told is the one in the octets that were received.
pub fn a_result_is_that_received()
    ensures stands { StandsIn result_pair before_the_result past }
    ensures tells { Tells result_pair.answer result_told }
    ensures of_component { IsOfComponent result_told }
    ensures told_from { ToldFromOne result_pair.event result_told }
    ensures all { ToldFrom past }
{}

/// So is an Invoke.
pub fn an_invoke_is_that_received()
    ensures stands { StandsIn begun_pair [] begin_received }
    ensures tells { Tells begun_pair.answer invoke_told }
    ensures of_component { IsOfComponent invoke_told }
    ensures told_from { ToldFromOne begun_pair.event invoke_told }
    ensures all { ToldFrom begin_received }
{}

/// Where a dialogue sends the queue of another, the last answer isn't the reply, and what is sent doesn't
/// come from the dialogue.
pub fn queues_that_are_crossed()
    ensures wrong { GoesWrong crossed_queues }
    ensures not_sent_from { SentFrom (whole crossed_queues) → ⊥ }
{}

/// Where an Invoke is misread, the answer isn't the reply, and what is told wasn't received.
pub fn an_invoke_that_is_misread()
    ensures wrong { GoesWrong misread }
    ensures not_told_from { ToldFrom (whole misread) → ⊥ }
{}

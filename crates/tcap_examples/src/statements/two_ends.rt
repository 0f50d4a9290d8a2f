//! The statements about two ends on a worked list of two engines, and two lists that break a premise of
//! "after the Invoke".
#![tactic(auto, using(crate::proofs::RepeatedNets::repeated_nets, crate::proofs::RepeatedBegin::repeated_begin_works, crate::proofs::AnswersAhead::answers_ahead, crate::proofs::LastMessages::last_messages, crate::proofs::TwoEndsWork::repeated_begin_is_two_ended), unfolding(crate::specs::Computing::computing))]

ghost use Rattle.std.specs.Prelude.{◌≤◌, pos, length, drop, None};
ghost use Rattle.tcap_component.specs.Component.{CodeParts};
ghost use Rattle.tcap_model.specs.Invocations.Closings.{closings};
ghost use Rattle.tcap_examples.specs.Values.DialogueValues.{code};
ghost use Rattle.tcap_model.specs.Replies.Legal.{IsLegal};
ghost use Rattle.tcap_model.specs.Statements.Net.{Engine, IsNet, IsCarried, history_in, side};
ghost use Rattle.tcap_model.specs.Statements.Places.{Tells};
ghost use Rattle.tcap_model.specs.Statements.TwoEnds.{UsesOnce, AnswersWhatItWasTold, WasOpened, WasSent, WasAsked, Origin, Operations, TwoEnds};
ghost use Rattle.tcap_model.specs.Statements.FarAnswer.{Happens, IsAnswer, ComesFromFar};
ghost use Rattle.tcap_examples.specs.Nets.PlayedNets.{repeated_begin, before_the_answer, answer_told, answer_closes, second_request, before_the_repeat, repeat_told, invoked, answered_ahead, heard_as_one, used_again, forged, alone_told, in_a_unidirectional, end_told, in_an_end, IsAnsweredAhead};
ghost use Rattle.tcap_examples.specs.Histories.Readings.{given_up_before_it_was_sent};
ghost use Rattle.tcap_examples.specs.Values.Told as told;
ghost use Rattle.tcap_examples.specs.Nets.Engines.{engine_a, engine_b, two_places};

/// A Begin is delivered twice: the answer that closes the invocation comes from the second of the two
/// far dialogues.
pub fn an_answer_has_its_origin()
    ensures net { IsNet repeated_begin }
    ensures happens { Happens engine_a answer_told before_the_answer repeated_begin.trace }
    ensures told { Tells answer_told.answer answer_closes }
    ensures answers { IsAnswer 1 1 (pos 1) answer_closes second_request }
    ensures origin { ComesFromFar two_places engine_a 1 second_request answer_told.event before_the_answer }
    ensures once { length (closings 1 (side engine_a repeated_begin.trace)) ≤ 1 }
{}

/// Every far request that it may come from was made after the Invoke was sent.
pub fn an_answer_comes_after_its_invoke()
    ensures net { IsNet repeated_begin }
    ensures uses_once { UsesOnce engine_a 1 repeated_begin.trace }
    ensures answers_what_it_was_told { AnswersWhatItWasTold engine_b repeated_begin.trace }
    ensures opened { WasOpened engine_a 1 repeated_begin.trace }
    ensures after { (source : ComesFromFar two_places engine_a 1 second_request answer_told.event before_the_answer)
        → WasSent 1 (side engine_a source.before) }
{}

/// The Invoke that the second delivery tells was asked for and sent before.
pub fn an_operation_was_asked_for()
    ensures net { IsNet repeated_begin }
    ensures happens { Happens engine_b repeat_told before_the_repeat repeated_begin.trace }
    ensures told { Tells repeat_told.answer (invoked 2) }
    ensures asked { WasAsked (pos 1) None (CodeParts.local (pos 10)) None (side engine_a before_the_repeat) }
{}

/// All that is stated of two ends holds of it.
pub fn a_repeated_begin_is_two_ended()
    ensures net { IsNet repeated_begin }
    ensures two_ends { TwoEnds two_places repeated_begin.trace }
{}

/// An Invoke is sent though the message that carries it ends its dialogue.
pub fn an_operation_in_a_last_message()
    ensures alone_net { IsNet in_a_unidirectional }
    ensures alone_happens { Happens engine_b alone_told (drop 1 in_a_unidirectional.trace) in_a_unidirectional.trace }
    ensures alone_told { Tells alone_told.answer (told.invoked None (pos 1) None (code 7) None) }
    ensures alone_asked { WasAsked (pos 1) None (code 7) None (side engine_a (drop 1 in_a_unidirectional.trace)) }
    ensures end_net { IsNet in_an_end }
    ensures end_happens { Happens engine_a end_told (drop 1 in_an_end.trace) in_an_end.trace }
    ensures end_told { Tells end_told.answer (invoked 1) }
    ensures end_asked { WasAsked (pos 1) None (code 10) None (side engine_b (drop 1 in_an_end.trace)) }
{}

/// An Invoke that was given up in the queue was never sent, though a message went out after that.
pub fn an_invoke_given_up_in_the_queue()
    ensures { WasSent 1 given_up_before_it_was_sent.history.pairs → ⊥ }
{}

/// Where a user answers what it wasn't told, an answer may have been asked for before the Invoke was
/// sent, though the other two premises hold.
pub fn an_answer_ahead()
    ensures net { IsNet answered_ahead }
    ensures uses_once { UsesOnce engine_a 1 answered_ahead.trace }
    ensures opened { WasOpened engine_a 1 answered_ahead.trace }
    ensures not_told { AnswersWhatItWasTold engine_b answered_ahead.trace → ⊥ }
    ensures ahead { IsAnsweredAhead engine_a 1 1 answered_ahead.trace }
{}

/// Where the peer opened the dialogue, so too: one far dialogue may hear two.
pub fn two_dialogues_heard_as_one()
    ensures net { IsNet heard_as_one }
    ensures uses_once { UsesOnce engine_a 1 heard_as_one.trace }
    ensures answers_what_it_was_told { AnswersWhatItWasTold engine_b heard_as_one.trace }
    ensures not_opened { WasOpened engine_a 1 heard_as_one.trace → ⊥ }
    ensures ahead { IsAnsweredAhead engine_a 1 2 heard_as_one.trace }
{}

/// Where an identifier is used again, so too: the answer to the first Invoke may close the second
/// invocation.
pub fn an_identifier_used_again()
    ensures net { IsNet used_again }
    ensures answers_what_it_was_told { AnswersWhatItWasTold engine_b used_again.trace }
    ensures opened { WasOpened engine_a 1 used_again.trace }
    ensures used_twice { UsesOnce engine_a 1 used_again.trace → ⊥ }
    ensures ahead { IsAnsweredAhead engine_a 1 2 used_again.trace }
{}

/// Where messages are forged, each engine alone does as it should, and neither answers nor Invokes need
/// come from the other user.
pub fn messages_that_are_forged()
    ensures legal { (engine : Engine) → IsLegal (history_in forged engine forged.trace) }
    ensures not_carried { IsCarried two_places forged.trace → ⊥ }
    ensures no_origin { Origin two_places forged.trace → ⊥ }
    ensures no_operation { Operations two_places forged.trace → ⊥ }
{}

//! Worked histories that the engine's move runs along: at each event it leads from the engine at the
//! history to the engine at the history with its pair.
#![tactic(auto, unfolding(crate::specs::Computing::computing))]

ghost use Rattle.tcap_examples.specs.Histories.EngineSteps.{Runs};
ghost use Rattle.tcap_examples.specs.Histories.Closing as closing;
ghost use Rattle.tcap_examples.specs.Histories.Ends as ends;
ghost use Rattle.tcap_examples.specs.Histories.Readings as readings;
ghost use Rattle.tcap_examples.specs.Histories.Receptions as receptions;
ghost use Rattle.tcap_examples.specs.Histories.Refusals as refusals;
ghost use Rattle.tcap_examples.specs.Histories.Requests as requests;
ghost use Rattle.tcap_examples.specs.Nets.Loss as loss;
ghost use Rattle.tcap_examples.specs.Nets.Play as play;

/// How invocations end.
pub fn closing_move()
    ensures result_in_an_end { Runs closing.result_in_an_end }
    ensures lapse_and_late_result { Runs closing.lapse_and_late_result }
    ensures repeated_aare { Runs closing.repeated_aare }
    ensures answers_the_class_forbids { Runs closing.answers_the_class_forbids }
    ensures each_answer_of_each_class { Runs closing.each_answer_of_each_class }
    ensures identifier_held_after_a_result { Runs closing.identifier_held_after_a_result }
    ensures identifier_held_at_the_same_moment { Runs closing.identifier_held_at_the_same_moment }
    ensures identifier_freed_by_a_reject { Runs closing.identifier_freed_by_a_reject }
    ensures faulty_second_component { Runs closing.faulty_second_component }
    ensures the_peer_stays { Runs closing.the_peer_stays }
{}

/// The ways in which an invocation closes.
pub fn ends_move()
    ensures closed_by_a_cause { Runs ends.closed_by_a_cause }
    ensures closed_by_an_abort { Runs ends.closed_by_an_abort }
    ensures closed_by_an_error { Runs ends.closed_by_an_error }
    ensures closed_by_a_prearranged_end { Runs ends.closed_by_a_prearranged_end }
    ensures closed_by_the_users_abort { Runs ends.closed_by_the_users_abort }
    ensures closed_by_a_cancel { Runs ends.closed_by_a_cancel }
    ensures reject_of_a_result { Runs ends.reject_of_a_result }
    ensures reject_of_an_invoke { Runs ends.reject_of_an_invoke }
    ensures a_faulty_continue { Runs ends.a_faulty_continue }
    ensures a_faulty_end { Runs ends.a_faulty_end }
{}

/// Messages to none, new dialogues, and several dialogues.
pub fn dialogues_move()
    ensures resource_limitation_first { Runs readings.resource_limitation_first }
    ensures messages_to_an_idle_dialogue { Runs readings.messages_to_an_idle_dialogue }
    ensures a_short_destination { Runs readings.a_short_destination }
    ensures an_unknown_type { Runs readings.an_unknown_type }
    ensures a_faulty_continue_without_origin { Runs readings.a_faulty_continue_without_origin }
    ensures counters_from_zero { Runs readings.counters_from_zero }
    ensures unknown_for_good { Runs readings.unknown_for_good }
    ensures no_timer_outlives_its_dialogue { Runs readings.no_timer_outlives_its_dialogue }
    ensures lapses_in_order { Runs readings.lapses_in_order }
{}

/// Components that answer nothing, and Invokes that are still queued.
pub fn components_move()
    ensures a_result_in_a_begin { Runs readings.a_result_in_a_begin }
    ensures an_answer_to_a_queued_invoke { Runs readings.an_answer_to_a_queued_invoke }
    ensures queued_at_a_basic_end { Runs readings.queued_at_a_basic_end }
    ensures given_up_before_it_was_sent { Runs readings.given_up_before_it_was_sent }
    ensures nothing_left_to_send { Runs readings.nothing_left_to_send }
    ensures a_reject_in_another_dialogue { Runs readings.a_reject_in_another_dialogue }
    ensures numbers_before_the_queue { Runs readings.numbers_before_the_queue }
{}

/// What comes of received bytes.
pub fn receptions_move()
    ensures a_begin_with_aarq { Runs receptions.a_begin_with_aarq }
    ensures dialogue_refused { Runs receptions.dialogue_refused }
    ensures dialogue_aborted { Runs receptions.dialogue_aborted }
    ensures version_refused { Runs receptions.version_refused }
    ensures continue_to_no_dialogue { Runs receptions.continue_to_no_dialogue }
    ensures faulty_messages_answered { Runs receptions.faulty_messages_answered }
    ensures unknown_linked_identifier { Runs receptions.unknown_linked_identifier }
    ensures unidirectional_with_aarq { Runs receptions.unidirectional_with_aarq }
    ensures too_long_dropped { Runs receptions.too_long_dropped }
{}

/// Limits and refusals.
pub fn refusals_move()
    ensures dialogues_full { Runs refusals.dialogues_full }
    ensures dialogue_identifiers_spent { Runs refusals.dialogue_identifiers_spent }
    ensures numbers_spent { Runs refusals.numbers_spent }
    ensures moments { Runs refusals.moments }
    ensures refusals { Runs refusals.refusals }
{}

/// Requests that are accepted, and a Unidirectional that is received.
pub fn requests_move()
    ensures unidirectional_sent { Runs requests.unidirectional_sent }
    ensures unidirectional_received { Runs requests.unidirectional_received }
    ensures answers_in_a_continue { Runs requests.answers_in_a_continue }
    ensures answer_in_an_end { Runs requests.answer_in_an_end }
{}

/// Two engines that hear one another.
pub fn engines_move()
    ensures repeated_begin_at_the_first { Runs play.repeated_begin_at_the_first }
    ensures repeated_begin_at_the_second { Runs play.repeated_begin_at_the_second }
    ensures lost_end_at_the_first { Runs loss.lost_end_at_the_first }
    ensures lost_end_at_the_second { Runs loss.lost_end_at_the_second }
{}

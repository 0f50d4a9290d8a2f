//! What is our own choice where the standard leaves one.
#![tactic(auto, unfolding(crate::specs::Computing::computing))]

ghost use Rattle.tcap_examples.specs.Histories.Worked.{Works};
ghost use Rattle.tcap_examples.specs.Histories.Readings as worked;

/// Where no dialogue can be created, a Begin is answered with cause 4, and a faulty one with its own.
pub fn resource_limitation_first()
    ensures { Works worked.resource_limitation_first }
{}

/// Messages that name no live dialogue, and such as end none.
pub fn messages_to_none()
    ensures idle { Works worked.messages_to_an_idle_dialogue }
    ensures short_destination { Works worked.a_short_destination }
    ensures unknown_type { Works worked.an_unknown_type }
    ensures over { Works worked.unknown_for_good }
{}

/// A faulty Continue that tells no origin ends its dialogue.
pub fn a_faulty_continue_without_origin()
    ensures { Works worked.a_faulty_continue_without_origin }
{}

/// Counters begin at 0 too, and their end is told before the queue's limit.
pub fn counters()
    ensures from_zero { Works worked.counters_from_zero }
    ensures spent { Works worked.numbers_before_the_queue }
{}

/// What comes of components that answer nothing, and of Invokes that are still queued.
pub fn queued_components()
    ensures in_a_begin { Works worked.a_result_in_a_begin }
    ensures answered { Works worked.an_answer_to_a_queued_invoke }
    ensures at_a_basic_end { Works worked.queued_at_a_basic_end }
    ensures given_up { Works worked.given_up_before_it_was_sent }
    ensures nothing_left { Works worked.nothing_left_to_send }
{}

/// What happens in one dialogue does nothing in another.
pub fn other_dialogues()
    ensures rejects { Works worked.a_reject_in_another_dialogue }
    ensures timers { Works worked.no_timer_outlives_its_dialogue }
    ensures lapses { Works worked.lapses_in_order }
{}

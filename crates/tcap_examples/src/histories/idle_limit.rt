//! Dialogues that stay idle too long: the histories say when they are over, and what is told then.
#![tactic(auto, unfolding(crate::specs::Computing::computing))]

ghost use Rattle.tcap_examples.specs.Histories.IdleLimit as worked;
ghost use Rattle.tcap_examples.specs.Histories.IdleRows.{LiveAsStated, dialogues, idle_moments};
ghost use Rattle.tcap_examples.specs.Histories.MarkRows.{MeanAsStated};
ghost use Rattle.tcap_examples.specs.Histories.Worked.{Works};

/// A dialogue is over once it has been idle for the limit after its Begin.
pub fn idle_after_the_begin()
    ensures { Works worked.idle_after_the_begin }
{}

/// What is due lapses before a dialogue is over, in whichever dialogue it is.
pub fn lapse_before_the_idle_end()
    ensures in_the_same { Works worked.lapse_before_the_idle_end }
    ensures in_another { Works worked.lapse_in_another_dialogue }
{}

/// A Continue of the peer and an answer of the user renew the limit; an Invoke that waits and a refused
/// request don't.
pub fn a_continue_renews_the_limit()
    ensures by_the_peer { Works worked.a_continue_renews_the_limit }
    ensures by_the_user { Works worked.an_answer_renews_the_limit }
    ensures not_by_an_invoke { Works worked.an_invoke_renews_nothing }
    ensures not_if_refused { Works worked.a_refused_request_renews_nothing }
{}

/// Dialogues that are over at one moment are told by the moment at which they reached the limit, then by
/// identifier.
pub fn two_idle_dialogues_in_order()
    ensures by_the_moment { Works worked.two_idle_dialogues_in_order }
    ensures by_the_identifier { Works worked.idle_at_the_same_moment }
{}

/// A dialogue that is Idle or in Initiation Received is never over by the limit.
pub fn no_idle_limit_in_received()
    ensures received { Works worked.no_idle_limit_in_received }
    ensures idle { Works worked.no_idle_limit_before_the_begin }
{}

/// What the lives of these dialogues are, and what moments mean in them.
pub fn idle_lives_and_marks()
    ensures lives { LiveAsStated dialogues }
    ensures marks { MeanAsStated idle_moments }
{}

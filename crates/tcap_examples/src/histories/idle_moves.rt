//! Histories with dialogues that stay idle too long, through which the engine's move runs.
#![tactic(auto, unfolding(crate::specs::Computing::computing))]

ghost use Rattle.tcap_examples.specs.Histories.EngineSteps.{Runs, RunsThrough};
ghost use Rattle.tcap_examples.specs.Histories.IdleLimit as worked;
ghost use Rattle.tcap_examples.specs.Histories.IdleWalks as walks;
ghost use Rattle.tcap_examples.specs.Histories.Steps.{Walks};

/// The worked histories: at each event the move leads from the engine at the history to the engine at the
/// history with its pair.
pub fn idle_limit_moves()
    ensures idle_after_the_begin { Runs worked.idle_after_the_begin }
    ensures lapse_before_the_idle_end { Runs worked.lapse_before_the_idle_end }
    ensures a_continue_renews_the_limit { Runs worked.a_continue_renews_the_limit }
    ensures two_idle_dialogues_in_order { Runs worked.two_idle_dialogues_in_order }
    ensures no_idle_limit_in_received { Runs worked.no_idle_limit_in_received }
    ensures an_invoke_renews_nothing { Runs worked.an_invoke_renews_nothing }
    ensures a_refused_request_renews_nothing { Runs worked.a_refused_request_renews_nothing }
    ensures no_idle_limit_before_the_begin { Runs worked.no_idle_limit_before_the_begin }
    ensures an_answer_renews_the_limit { Runs worked.an_answer_renews_the_limit }
    ensures lapse_in_another_dialogue { Runs worked.lapse_in_another_dialogue }
    ensures idle_at_the_same_moment { Runs worked.idle_at_the_same_moment }
{}

/// One dialogue, with the engine written after each event.
pub fn one_idle_dialogue_moves()
    ensures idle_after_the_begin { RunsThrough walks.idle_after_the_begin_steps }
    ensures lapse_before_the_idle_end { RunsThrough walks.lapse_before_the_idle_end_steps }
    ensures a_continue_renews_the_limit { RunsThrough walks.a_continue_renews_the_limit_steps }
    ensures an_invoke_renews_nothing { RunsThrough walks.an_invoke_renews_nothing_steps }
    ensures no_idle_limit_in_received { RunsThrough walks.no_idle_limit_in_received_steps }
{}

/// Two dialogues, with the engine written after each event.
pub fn two_idle_dialogues_move()
    ensures { RunsThrough walks.two_idle_dialogues_steps }
{}

/// What the one dialogue itself does at each event.
pub fn idle_dialogue_step_by_step()
    ensures idle_after_the_begin { Walks walks.idle_after_the_begin_steps }
    ensures lapse_before_the_idle_end { Walks walks.lapse_before_the_idle_end_steps }
    ensures a_continue_renews_the_limit { Walks walks.a_continue_renews_the_limit_steps }
    ensures an_invoke_renews_nothing { Walks walks.an_invoke_renews_nothing_steps }
{}

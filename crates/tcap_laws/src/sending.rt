//! What a dialogue sends: each component that is submitted, once and in order.

ghost use Rattle.std.specs.Prelude.{◌≡◌, ℕ, List};
ghost use Rattle.tcap_component.specs.Component.{ComponentParts};
ghost use Rattle.tcap_model.specs.Statements.SentInOrder.{HaveComponents, EachIsSentInOrder, EachQueueIsUnsent};

/// In a legal history each request that sends components sends those that were submitted for its dialogue
/// since the last one, each once, in the order of submission, and without the Invokes that were given up by
/// then; nothing else that is sent has any (Q.774, Component handling).
pub fn sent_once_in_order()
    ensures { EachIsSentInOrder }
{}

/// In a legal history what waits in the queue of a dialogue is what was submitted for it after the last
/// request that sent components, without the Invokes that were given up since
/// (Q.774, Component handling).
pub fn queue_is_unsent()
    ensures { EachQueueIsUnsent }
{}

/// The components that messages have are those and no others (Q.773, Component portion).
pub fn components_are_one()
    ensures { (messages : List (List ℕ)) (components others : List ComponentParts) →
        HaveComponents messages components → HaveComponents messages others → components ≡ others }
{}

//! What is told of the end of an invocation.

ghost use Rattle.tcap_model.specs.Statements.Headline.{EachHasOutcome, EachIsCounted, EachIsDecided, EachIsPlainlyDecided};

/// The closing indications of an invocation number are those that its decision asks for: none before
/// its outcome, and then the one, in the answer to the event that decided it
/// (Q.774, Invocation state machine).
pub fn decided()
    ensures as_decided { EachIsDecided }
    ensures plainly { EachIsPlainlyDecided }
{}

/// They tell the invocation's dialogue, its identifier and its outcome with the contents
/// (Q.774, Component handling).
pub fn outcome()
    ensures { EachHasOutcome }
{}

/// There is at most one; and exactly one once a moment at or past the invocation's deadline was
/// accepted, or its dialogue is over (Q.774, Invocation timer; Q.774, Component handling).
pub fn counting()
    ensures { EachIsCounted }
{}

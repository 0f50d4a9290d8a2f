//! What holds at every history at which an engine stands: the headline's laws, which the contract of each call
//! gives on, isolation and where components come from; and what holds of engines that hear one
//! another.

ghost use Rattle.tcap_engine.specs.IsolationForm.{EachAnswerIsAlone, EachRunIsAlone};
ghost use Rattle.tcap_engine.specs.TwoEnds.{EachAnswerIsGiven, EachCallIsHeard, EachMayRely, EachRunIsHeard, EachSendIsSent, EachSendStays, NewOnesHear};
ghost use Rattle.tcap_model.specs.Statements.Headline.{EachHasOutcome, EachIsBounded, EachIsCounted, EachIsDecided, EachIsPlainlyDecided};
ghost use Rattle.tcap_model.specs.Statements.Isolation.{EachIsAlone};
ghost use Rattle.tcap_model.specs.Statements.SentFrom.{EachIsSentFrom};
ghost use Rattle.tcap_model.specs.Statements.SentInOrder.{EachIsSentInOrder};
ghost use Rattle.tcap_model.specs.Statements.ToldFrom.{EachIsToldFrom};
ghost use Rattle.tcap_model.specs.Statements.TwoEnds.{EachIsTwoEnded};

/// The closing indications of an invocation number are those that its decision asks for: none before its
/// outcome, and then the one, in the answer to the event that decided it (Q.774, Invocation state machine).
pub fn decided()
    ensures as_decided { EachIsDecided }
    // None where there is no outcome; else one in all.
    ensures plainly { EachIsPlainlyDecided }
{}

/// They tell the invocation's dialogue, its identifier and its outcome with the contents
/// (Q.774, Component handling).
pub fn outcome()
    ensures { EachHasOutcome }
{}

/// There is at most one; and exactly one once a moment at or past the invocation's deadline was accepted,
/// or its dialogue is over (Q.774, Invocation timer; Q.774, Component handling).
pub fn counting()
    ensures { EachIsCounted }
{}

/// At most as many dialogues stand as may, each with at most 256 invoke identifiers in use and a queue
/// within its limit (our own).
pub fn bound()
    ensures { EachIsBounded }
{}

/// No dialogue sees another: the answer to an event that names a dialogue is the one that the dialogue's own
/// history gives, but for the number that an invoke draws; of a moment the outputs of the dialogue are
/// compared. An invoke that is refused since no number is left is left out (our own).
pub fn isolation()
    ensures history { EachIsAlone }
    // So it is of what an engine answers to one event, and to those of a run.
    ensures answer { EachAnswerIsAlone }
    ensures run { EachRunIsAlone }
{}

/// Each component that the octets of a Send have is that of an earlier accepted request of the same
/// dialogue, or a Reject that was formed there (our own).
pub fn sent_from()
    ensures { EachIsSentFrom }
{}

/// Each ResultLast, ResultMore, ErrorBack, Invoked and Rejected by the remote user stands for a component of
/// the bytes whose answer holds it (our own).
pub fn told_from()
    ensures { EachIsToldFrom }
{}

/// Each component that is submitted for a dialogue is sent once and in order, up to each request that sends
/// components, and nothing else that is sent has any (Q.774, Component handling).
pub fn sent_once()
    ensures { EachIsSentInOrder }
{}

/// What the users at both ends may rely on whose engines hear one another and nobody else: each answer to an
/// invocation comes from a request of the far user, in a dialogue that keeps an address of this engine; under
/// the three premises it was asked for after the Invoke was sent; at most one closes the invocation; and each
/// Invoke that is told was asked for (our own).
pub fn two_ends()
    ensures { EachIsTwoEnded }
{}

/// What `two_ends` says, for whoever runs any number of engines, each at addresses of its own. Each byte
/// string that one receives was sent to it by another: at any time later, in any order, any number of times,
/// or never. From new engines on, call by call or run by run, all stand at one list of their events and answers in time
/// (our own).
pub fn several_engines()
    ensures begin { NewOnesHear }
    ensures call { EachCallIsHeard }
    ensures run { EachRunIsHeard }
    // What another may receive then: each Send to it in the answers of a run, and what was sent before.
    ensures sent { EachSendIsSent }
    ensures kept { EachSendStays }
    // Each answer of a run stands in the list.
    ensures given { EachAnswerIsGiven }
    // At each such list the users may rely on the answers in it as `two_ends` says.
    ensures rely { EachMayRely }
{}

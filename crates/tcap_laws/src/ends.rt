//! What engines rely on that hear one another and nobody else.

ghost use Rattle.tcap_model.specs.Statements.Net.{Net, IsNet};
ghost use Rattle.tcap_model.specs.Statements.TwoEnds.{AfterInvoke, EachIsTwoEnded, Named, Once, Operations, Origin};

/// Of the possibly many answers to an invocation at most one closes it (our own).
pub fn once()
    ensures { (net : Net) → IsNet net → Once net.trace }
{}

/// Each Invoke that one user is told has the identifier, linked identifier, code and parameter of an
/// invoke that the engine at whose addresses the sender of the message is accepted and sent before
/// (our own).
pub fn operations()
    ensures { (net : Net) → IsNet net → Operations net.places net.trace }
{}

/// Each answer that is told of an invocation comes from an earlier accepted request of the far user, for
/// its identifier and with its contents, in a far dialogue whose peer is this one and which keeps an
/// address of this engine; far is the engine at whose addresses the sender of the message is (our own).
pub fn origin()
    ensures { (net : Net) → IsNet net → Origin net.places net.trace }
{}

/// Each answer that is told of an invocation names it by its number, its dialogue and its identifier (our own).
pub fn named()
    ensures { (net : Net) → IsNet net → Named net.trace }
{}

/// Every far request that an answer to an invocation may come from was made after the invocation's Invoke
/// was sent, where the dialogue was opened here, its user uses each identifier once, and the far user
/// answers only what it was told (our own).
pub fn after_invoke()
    ensures { (net : Net) → IsNet net → AfterInvoke net.places net.trace }
{}

/// What the users at both ends may rely on: the five laws above together (our own).
pub fn two_ends()
    ensures { EachIsTwoEnded }
{}

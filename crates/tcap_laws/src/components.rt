//! Where the components of messages come from, and what the indications of components stand for.

ghost use Rattle.tcap_model.specs.Statements.ToldFrom.{EachIsToldFrom};
ghost use Rattle.tcap_model.specs.Statements.SentFrom.{EachIsSentFrom};

/// In a legal history each indication of a component stands for one in the octets received (our own).
pub fn told_from()
    ensures { EachIsToldFrom }
{}

/// In a legal history each component that a Send has comes from its dialogue: from an earlier accepted
/// request on it, or it is a Reject that was formed there (our own).
pub fn sent_from()
    ensures { EachIsSentFrom }
{}

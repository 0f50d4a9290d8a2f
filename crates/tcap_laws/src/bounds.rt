//! How many dialogues stand, and how much each of them keeps.

ghost use Rattle.tcap_model.specs.Statements.Headline.{EachIsBounded};

/// In a legal history at most as many dialogues stand as may, each with at most 256 invoke identifiers in
/// use and a queue within its limit (our own).
pub fn bound()
    ensures { EachIsBounded }
{}

//! What holds of each play: what its text shows of both engines, by the definitions alone.

ghost use Rattle.tcap_play.specs.PlayNet.{PlaysHaveTwoEnds, PlaysMeetNet, PlaysShowTheirAnswers};

/// What happens to both engines in the play of a script without a `raw` or `rawfrom` line meets Net:
/// in the script's order, each engine answers as its own history says, and receives only what the other sent to
/// it before. So both users
/// may rely on what is said of two ends: each answer to an invocation comes from a request of the far user;
/// under the three premises it was asked for after the Invoke was sent; at most one closes the invocation;
/// and each Invoke that is told was asked for. And the text of any script is these answers, in their order,
/// with the line that is bad, if one is (our own).
pub fn play_net()
    ensures net { PlaysMeetNet }
    ensures two_ends { PlaysHaveTwoEnds }
    ensures shown { PlaysShowTheirAnswers }
{}

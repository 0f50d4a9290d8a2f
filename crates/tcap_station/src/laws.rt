//! What holds of a station over any run of calls.

ghost use Rattle.tcap_station.specs.Runs.{EachIsTakenAfter, EachIsTakenOnce};

/// What was taken from the front since the beginning, followed by what waits, is what the engine answered to the
/// events that were accepted: each output once and in order, with the number of its event, the last of each event
/// as last (our own).
pub fn once_and_in_order()
    ensures run { EachIsTakenOnce }
    // Whatever history the engine stood at first, these answers are the replies, and it stands at the history with
    // these events.
    ensures history { EachIsTakenAfter }
{}

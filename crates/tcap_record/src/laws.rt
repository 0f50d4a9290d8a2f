//! What records are to events, and a place to octets that are none.

ghost use Rattle.std.specs.Prelude.{◌≡◌, ◌++◌, List, ℕ};
ghost use Rattle.tcap_model.specs.Words.Event.{Event};
ghost use Rattle.tcap_record.specs.Records.{AllHaveRecords, HasRecord, StopsAt, log_of, record_of};

/// A record is that of one event, and none begins another: whatever stands behind two records that begin
/// alike, the events are the same, and so is what follows.
pub fn one_event()
    ensures { (one other : Event) (behind rest : List ℕ) → HasRecord one → HasRecord other
        → record_of one ++ behind ≡ record_of other ++ rest → (one ≡ other) × (behind ≡ rest) }
{}

/// A log is that of one list of events.
pub fn one_log()
    ensures { (some others : List Event) → AllHaveRecords some → AllHaveRecords others
        → log_of some ≡ log_of others → some ≡ others }
{}

/// Octets stop beginning a record at one place.
pub fn one_place()
    ensures { (octets : List ℕ) (place other : ℕ) → StopsAt octets place → StopsAt octets other
        → place ≡ other }
{}

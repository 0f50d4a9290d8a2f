//! Records read: one alone, or the first of several. Nothing is copied but an address.

ghost use Rattle.std.specs.Prelude.{◌≡◌, ◌-◌, ◌≤◌, ◌++◌, List, ℕ, IfErr, IfOk, IsOkAnd, length};
ghost use Rattle.ber_core.specs.Results.{Gives};
ghost use Rattle.tcap_model.specs.Words.Event.{Event};
ghost use Rattle.tcap_record.specs.Fields.{listed, named_at};
ghost use Rattle.tcap_record.specs.Layout.{alone_at, event_table, record_at, version_table, versioned_at};
ghost use Rattle.tcap_record.specs.RecordViews.{kept_view, recorded_view};
ghost use Rattle.tcap_record.specs.Records.{Damaged, DamagedFirst, HasRecord, record_of};

mod kinds;
mod parts;

use self::kinds::take_fields;
use self::parts::Left;
use crate::fault::RecordFault;
use crate::kept::Kept;
use crate::kind::EventKind;
use crate::recorded::Recorded;

/// The version of the layout, which is 1.
fn take_version(octets: &[u8]) -> Result<&[u8], Left>
    ensures { Gives (λ rest. (tt, rest.now)) result (named_at (listed version_table) octets.now) }
{
    match octets {
        [] => Err(0),
        [1, rest @ ..] => Ok(rest),
        [_, ..] => Err(octets.len()),
    }
}

/// The kind of an event, 1 to 14.
fn take_kind(octets: &[u8]) -> Result<(EventKind, &[u8]), Left>
    ensures { Gives (λ r. (r.0, r.1.now)) result (named_at (listed event_table) octets.now) }
{
    match octets {
        [] => Err(0),
        [1, rest @ ..] => Ok((EventKind::NewDialogue, rest)),
        [2, rest @ ..] => Ok((EventKind::Invoke, rest)),
        [3, rest @ ..] => Ok((EventKind::ResultLast, rest)),
        [4, rest @ ..] => Ok((EventKind::ResultMore, rest)),
        [5, rest @ ..] => Ok((EventKind::ErrorBack, rest)),
        [6, rest @ ..] => Ok((EventKind::Reject, rest)),
        [7, rest @ ..] => Ok((EventKind::Cancel, rest)),
        [8, rest @ ..] => Ok((EventKind::Uni, rest)),
        [9, rest @ ..] => Ok((EventKind::Begin, rest)),
        [10, rest @ ..] => Ok((EventKind::Continue, rest)),
        [11, rest @ ..] => Ok((EventKind::End, rest)),
        [12, rest @ ..] => Ok((EventKind::Abort, rest)),
        [13, rest @ ..] => Ok((EventKind::Bytes, rest)),
        [14, rest @ ..] => Ok((EventKind::Moment, rest)),
        [_, ..] => Err(octets.len()),
    }
}

/// The event behind the version.
fn take_versioned<'m>(octets: &'m [u8]) -> Result<(Kept<'m>, &'m [u8]), Left>
    ensures { Gives (λ r. (kept_view r.0, r.1.now)) result (versioned_at tt octets.now) }
{
    let (kind, rest) = take_kind(octets)?;
    take_fields(kind, rest)
}

/// The event whose record stands first.
#[tactic(auto, unfolding(crate::specs::Layout::record_at))]
fn take_record<'m>(octets: &'m [u8]) -> Result<(Kept<'m>, &'m [u8]), Left>
    ensures { Gives (λ r. (kept_view r.0, r.1.now)) result (record_at octets.now) }
{
    let rest = take_version(octets)?;
    take_versioned(rest)
}

/// The event whose record the octets are.
fn take_alone<'m>(octets: &'m [u8]) -> Result<Kept<'m>, Left>
    ensures { Gives kept_view result (alone_at octets.now) }
{
    let (kept, rest) = take_record(octets)?;
    if !rest.is_empty() {
        return Err(rest.len());
    }
    Ok(kept)
}

/// The place at which so many octets are left.
fn place_of(octets: &[u8], left: Left) -> RecordFault
    requires { left ≤ length octets.now }
    ensures { result.place ≡ length octets.now - left }
{
    RecordFault {
        place: octets.len() - left,
    }
}

/// The event whose record stands first in the octets, and the octets behind it, in which a further record may
/// stand. It takes no memory.
pub fn read_first<'m>(octets: &'m [u8]) -> Result<(Recorded<'m>, &'m [u8]), RecordFault>
    // What is read is the event whose record stands first, and what follows it.
    ensures found { IfOk result (λ r. HasRecord (recorded_view r.0)
        × (octets.now ≡ record_of (recorded_view r.0) ++ r.1.now)) }
    // A record that stands first is read.
    ensures only { (event : Event) (rest : List ℕ) → HasRecord event → octets.now ≡ record_of event ++ rest
        → IsOkAnd result (λ r. (recorded_view r.0 ≡ event) × (r.1.now ≡ rest)) }
    // Else the place where the octets stop beginning one.
    ensures fault { IfErr result (λ f. DamagedFirst octets.now f.place) }
{
    match take_record(octets) {
        Ok((kept, rest)) => Ok((Recorded::of(kept), rest)),
        Err(left) => Err(place_of(octets, left)),
    }
}

/// The event whose record the octets are, all of them. It takes no memory.
pub fn read<'m>(octets: &'m [u8]) -> Result<Recorded<'m>, RecordFault>
    // What is read is the event whose record the octets are.
    ensures found { IfOk result (λ r. HasRecord (recorded_view r) × (octets.now ≡ record_of (recorded_view r))) }
    // A record is read.
    ensures only { (event : Event) → HasRecord event → octets.now ≡ record_of event
        → IsOkAnd result (λ r. recorded_view r ≡ event) }
    // Else the place where the octets stop beginning one, which is where they go on behind one.
    ensures fault { IfErr result (λ f. Damaged octets.now f.place) }
{
    match take_alone(octets) {
        Ok(kept) => Ok(Recorded::of(kept)),
        Err(left) => Err(place_of(octets, left)),
    }
}

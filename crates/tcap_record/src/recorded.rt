//! The event of a record that was read.

ghost use Rattle.std.specs.Prelude.{◌≡◌};
ghost use Rattle.tcap_engine.specs.EventViews.{event_view};
ghost use Rattle.tcap_record.specs.RecordViews.{kept_view, recorded_view};

use crate::kept::Kept;
use tcap_engine::{BeginRequest, Event, UniRequest};

/// The event of a record that was read. Its octets lie in the record, its address, where it has one, in here;
/// `event` lends it.
#[derive(Debug, Drop)]
pub struct Recorded<'m> {
    kept: Kept<'m>,
}

impl<'m> Recorded<'m> {
    /// This event.
    pub(crate) fn of(kept: Kept<'m>) -> Recorded<'m>
        ensures { recorded_view result ≡ kept_view kept.entry }
    {
        Recorded { kept }
    }

    /// The event. It takes no memory.
    pub fn event(&self) -> Event<'_>
        ensures { event_view result ≡ recorded_view self.now }
    {
        match &self.kept {
            Kept::Plain(event) => *event,
            Kept::Uni {
                dialogue,
                to,
                context,
                info,
            } => Event::Uni(
                *dialogue,
                UniRequest {
                    to,
                    context: *context,
                    info,
                },
            ),
            Kept::Begin {
                dialogue,
                to,
                context,
                info,
            } => Event::Begin(
                *dialogue,
                BeginRequest {
                    to,
                    context: *context,
                    info,
                },
            ),
            Kept::Bytes { from, bytes } => Event::Bytes(from, bytes),
        }
    }
}

//! A message with other portions than its own.

ghost use Rattle.std.specs.Prelude.{◌≡◌, option_copied};
ghost use Rattle.tcap_pdu.specs.FrameLength.{reason_with};
ghost use Rattle.tcap_pdu.specs.FrameViews.{reason_of};

use super::{AbortPart, Frame};

/// An Abort's reason with these contents of 6B in place of its own; a P-Abort cause stays.
fn with_reason<'a>(reason: AbortPart<'_>, dialogue: Option<&'a [u8]>) -> AbortPart<'a>
    ensures { reason_of result ≡ reason_with (option_copied dialogue.entry) (reason_of reason.entry) }
{
    match reason {
        AbortPart::Cause(cause) => AbortPart::Cause(cause),
        AbortPart::Nothing | AbortPart::Dialogue(_) => match dialogue {
            Some(content) => AbortPart::Dialogue(content),
            None => AbortPart::Nothing,
        },
    }
}

impl<'a> Frame<'a> {
    ghost use Rattle.std.specs.Prelude.{◌≡◌, option_copied};
    ghost use Rattle.tcap_pdu.specs.FramePortions.{with_portions};
    ghost use Rattle.tcap_pdu.specs.FrameViews.{message};

    /// The message with these contents of its portions in place of its own. Its identifiers and a
    /// P-Abort cause stay; an Abort has no components (our own).
    #[inline(always)]
    pub fn with_portions<'b>(self, dialogue: Option<&'b [u8]>, components: &'b [u8]) -> Frame<'b>
        ensures exact { message result
            ≡ with_portions (option_copied dialogue.entry) components.now (message self.entry) }
    {
        match self {
            Frame::Uni { .. } => Frame::Uni {
                dialogue,
                components,
            },
            Frame::Begin { otid, .. } => Frame::Begin {
                otid,
                dialogue,
                components,
            },
            Frame::End { dtid, .. } => Frame::End {
                dtid,
                dialogue,
                components,
            },
            Frame::Continue { otid, dtid, .. } => Frame::Continue {
                otid,
                dtid,
                dialogue,
                components,
            },
            Frame::Abort { dtid, reason } => Frame::Abort {
                dtid,
                reason: with_reason(reason, dialogue),
            },
        }
    }
}

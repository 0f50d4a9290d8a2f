//! The five messages of the transaction sublayer (Q.773, Structure of TC messages).

mod carry;
mod front;
mod length;
mod portions;
mod put;
mod read;
mod write;

use crate::trans_id::TransId;
pub use carry::write_frame_with;
pub use front::front_ids;
pub use length::{MAX_MESSAGE, MessageLength, frame_fits, message_length, own_length};
pub use put::{append_frame, append_message};
pub use read::read_frame;
pub use write::write_frame;

/// What an Abort has behind its destination (Q.773, Abort message).
#[derive(Clone, Copy, Debug, PartialEq, Eq)]
pub enum AbortPart<'a> {
    /// Nothing.
    Nothing,
    /// 4A, the P-Abort cause, 0 to 127.
    Cause(u8),
    /// The contents of 6B, the dialogue portion.
    Dialogue(&'a [u8]),
}

/// A message and its parts. `otid` is the originating and `dtid` the destination transaction
/// identifier; `dialogue` is the contents of 6B, the dialogue portion, `None` where it is absent;
/// `components` is the contents of 6C, the component portion, empty where it is absent
/// (Q.773, Structure of TC messages).
#[derive(Drop, Debug, PartialEq, Eq)]
pub enum Frame<'a> {
    /// Unidirectional: [6B], 6C.
    Uni {
        dialogue: Option<&'a [u8]>,
        components: &'a [u8],
    },
    /// Begin: 48, [6B], [6C].
    Begin {
        otid: TransId,
        dialogue: Option<&'a [u8]>,
        components: &'a [u8],
    },
    /// End: 49, [6B], [6C].
    End {
        dtid: TransId,
        dialogue: Option<&'a [u8]>,
        components: &'a [u8],
    },
    /// Continue: 48, 49, [6B], [6C].
    Continue {
        otid: TransId,
        dtid: TransId,
        dialogue: Option<&'a [u8]>,
        components: &'a [u8],
    },
    /// Abort: 49, then 4A or 6B or nothing.
    Abort {
        dtid: TransId,
        reason: AbortPart<'a>,
    },
}

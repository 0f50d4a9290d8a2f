//! The last line of a stream.

ghost use Rattle.std.specs.Prelude.{◌≡◌, ◌≢◌, [], length, string_bytes, IfOk, IsErr};
ghost use Rattle.tcap_text.specs.StreamText.{last_line_by};

use ber_core::{Feed, FeedFault, OutOfMemory};
use std::alloc::Allocator;

/// The last line of a stream that the feed has taken, where no more is read: its fault, or how many octets
/// of an unfinished element are left, if any.
pub(crate) fn last_text<A: Allocator + Copy>(
    alloc: A,
    feed: &Feed<A>,
) -> Result<String<A>, OutOfMemory>
    ensures ok { IfOk result (λ text. string_bytes text ≡ last_line_by feed.now.fault (length feed.now.rest)) }
    // Memory is refused only where something is printed.
    ensures err { IsErr result → last_line_by feed.now.fault (length feed.now.rest) ≢ [] }
{
    let left = feed.rest_len();
    let words = match feed.fault() {
        Some(FeedFault::Ber(why)) => format!(in alloc; "fault stream ber {}\n", why as u8)?,
        Some(FeedFault::TooLong) => format!(in alloc; "fault stream too long\n")?,
        None if left > 0 => format!(in alloc; "rest {left}\n")?,
        Some(FeedFault::OutOfMemory) | None => String::new(alloc),
    };
    Ok(words)
}

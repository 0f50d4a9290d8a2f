//! A stream that a feed takes in pieces.

ghost use Rattle.std.specs.Prelude.{◌≡◌, ◌<◌, ◌⊎◌, IfSome, List, ℕ, length, map};
ghost use Rattle.ber_core.specs.Feeding.{StandsBehind};
ghost use Rattle.tcap_bench.specs.Checksum.{checksum, stream_checksum};
ghost use Rattle.tcap_bench.specs.Fed.{IsAdded};

use crate::sum::add;
use ber_core::{Feed, FeedFault};
use std::alloc::Global;

/// Adds the lengths of messages.
fn add_messages(total: u64, messages: &[Vec<u8>]) -> u64
    ensures { result ≡ checksum total (map (λ message. length message.items) messages.now) }
{
    let mut sum = total;
    for message in messages {
        sum = add(sum, message.len() as u64);
    }
    sum
}

/// Hands a piece to a feed, and adds the lengths of the messages that it completes; nothing where memory is
/// refused.
fn add_piece(feed: &mut Feed, sum: u64, piece: &[u8]) -> Option<u64>
    ensures { (stream : List ℕ) → StandsBehind stream feed.old
        → IfSome result (λ added. IsAdded stream piece.now feed.new sum added) }
{
    match feed.push(piece) {
        Ok(messages) => Some(add_messages(sum, messages.as_slice())),
        Err(FeedFault::OutOfMemory) => None,
        Err(FeedFault::Ber(_) | FeedFault::TooLong) => Some(sum),
    }
}

/// The checksum of the messages that a feed gives, in pieces of so many octets; nothing where memory is
/// refused.
fn feed_sum(alloc: Global, width: usize, bytes: &[u8]) -> Option<u64>
    requires { 0 < width }
    ensures { IfSome result (λ sum. sum ≡ stream_checksum bytes.now) }
{
    let mut feed = Feed::new(alloc);
    let mut sum = 0u64;
    let mut rest = bytes;
    while !rest.is_empty() {
        let (piece, more) = rest.split_at(width.min(rest.len()));
        sum = add_piece(&mut feed, sum, piece)?;
        rest = more;
    }
    Some(sum)
}

/// The sum of `feed_sum`; 0 where memory was refused, and for pieces of no octets.
pub fn stream_sum(alloc: Global, width: u32, bytes: &[u8]) -> u64
    ensures { (result ≡ stream_checksum bytes.now) ⊎ (result ≡ 0) }
{
    if width == 0 {
        return 0;
    }
    match feed_sum(alloc, width as usize, bytes) {
        Some(sum) => sum,
        None => 0,
    }
}

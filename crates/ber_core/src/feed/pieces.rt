//! What a feed finds in one piece.

ghost use Rattle.std.specs.Prelude.{◌≡◌, ◌≢◌, ◌-◌, ◌≤◌, ◌++◌, [], take, length, map, IfOk, IfSome, OnErr};
ghost use Rattle.ber_core.specs.Length.{length_limit};
ghost use Rattle.ber_core.specs.Stream.{cut_of};
ghost use Rattle.ber_core.specs.Pieces.{IsUnderWay, SplitsInto, EndsSo};

use crate::fault::{FeedFault, OutOfMemory};
use crate::head::MAX_LENGTH;
use crate::scanner::Scanner;
use std::alloc::Allocator;

/// What a piece does for the element that is under way.
pub enum Split<'p> {
    /// The element is whole: its last octets, and what follows them in the piece.
    Whole(&'p [u8], &'p [u8]),
    /// The piece ends first: the scanner behind it.
    Open(Scanner),
}

/// How a piece ends.
pub enum End<'p> {
    /// In an element that is under way: the scanner behind it, and its octets in the piece.
    Open(Scanner, &'p [u8]),
    /// With a fault.
    Fault(FeedFault),
}

/// The octets of a piece that a message may have behind so many.
#[inline(always)]
fn window<'p>(begun: usize, piece: &'p [u8]) -> &'p [u8]
    requires { begun ≤ length_limit }
    ensures { result.now ≡ take (length_limit - begun) piece.now }
{
    let room = MAX_LENGTH - begun;
    if piece.len() <= room {
        return piece;
    }
    &piece[..room]
}

/// The scanner behind a piece that ends before the content does that is due; `None` for any other piece,
/// and for one that goes on where no octet more may be taken.
#[inline(always)]
pub(crate) fn within_content(scanner: Scanner, begun: &[u8], piece: &[u8]) -> Option<Scanner>
    requires { IsUnderWay scanner begun.now }
    ensures { IfSome result (λ s. IsUnderWay s (begun.now ++ piece.now)) }
{
    if piece.len() > MAX_LENGTH - begun.len() {
        return None;
    }
    scanner.within_content(piece)
}

/// Takes a piece up to the end of the element that is under way, of which these octets have come.
fn split_piece<'p>(scanner: Scanner, begun: &[u8], piece: &'p [u8]) -> Result<Split<'p>, FeedFault>
    requires { IsUnderWay scanner begun.now }
    ensures { SplitsInto begun.now piece.now result }
{
    let octets = window(begun.len(), piece);
    let (next, after) = scanner.scan(octets)?;
    match next {
        None => {
            let count = octets.len() - after.len();
            Ok(Split::Whole(&piece[..count], &piece[count..]))
        }
        Some(_) if octets.len() < piece.len() => Err(FeedFault::TooLong),
        Some(scanner) => Ok(Split::Open(scanner)),
    }
}

/// The two parts of a message one after the other.
#[inline(always)]
fn join<A: Allocator + Copy>(alloc: A, begun: &[u8], last: &[u8]) -> Result<Vec<u8, A>, OutOfMemory>
    requires { length begun.now ≤ length_limit }
    ensures ok { IfOk result (λ v. v.items ≡ begun.now ++ last.now) }
{
    let mut message = Vec::with_capacity(alloc, begun.len() + last.len())?;
    // A message mostly stands in one piece.
    if !begun.is_empty() {
        message.extend_from_slice(begun)?;
    }
    message.extend_from_slice(last)?;
    Ok(message)
}

/// The messages that a piece completes behind these octets of an element, and how it ends.
pub(crate) fn cut_piece<'p, A: Allocator + Copy>(
    alloc: A,
    scanner: Scanner,
    begun: &[u8],
    piece: &'p [u8],
) -> Result<(Vec<Vec<u8, A>, A>, End<'p>), OutOfMemory>
    requires { IsUnderWay scanner begun.now }
    ensures ok { IfOk result (λ r. EndsSo begun.now piece.now (map (λ m. m.items) r.0.items) r.1) }
    ensures err { OnErr result ((cut_of (begun.now ++ piece.now)).messages ≢ []) }
{
    let mut messages = Vec::new(alloc);
    let mut scanner = scanner;
    let mut begun = begun;
    let mut rest = piece;
    while !rest.is_empty() {
        match split_piece(scanner, begun, rest) {
            Ok(Split::Whole(last, after)) => {
                let message = join(alloc, begun, last)?;
                messages.reserve(1)?;
                messages.push_reserved(message);
                scanner = Scanner::new();
                begun = &[];
                rest = after;
            }
            Ok(Split::Open(scanner)) => return Ok((messages, End::Open(scanner, rest))),
            Err(fault) => return Ok((messages, End::Fault(fault))),
        }
    }
    Ok((messages, End::Open(scanner, rest)))
}

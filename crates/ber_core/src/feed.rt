//! The feed: the messages of a stream that comes in pieces.

ghost use Rattle.std.specs.Prelude.{◌≡◌, ◌≢◌, ◌++◌, [], length, map, List, ℕ, OnOk, OnErr, IfOk, IfErr, IsErrOf, Some, if◌then◌else◌};
ghost use Rattle.ber_core.specs.Feeding.{StandsBehind, Completes, Fails};

mod pieces;

use crate::fault::{FeedFault, OutOfMemory};
use crate::scanner::Scanner;
use pieces::{End, cut_piece, within_content};
use std::alloc::{Allocator, Global};
use std::marker::Model;

/// A stream of messages that comes in pieces, cut anywhere.
///
/// The messages are the elements of the stream, one after the other, each of at most 65,535 octets.
/// Once a fault stands, no more messages come. A contract sees the octets that no message has yet and the
/// fault; of all pieces together it says what the stream's cut is (our own).
///
/// ```rust
/// let mut feed = ber_core::Feed::new(alloc);
/// assert!(rt; feed.push(&[0x04, 0x01])?.is_empty());
/// assert_eq!(rt; feed.push(&[0xaa, 0x05])?.len(), 1);
/// assert_eq!(rt; feed.rest_len(), 1);
/// ```
#[derive(Debug, Drop)]
pub struct Feed<A: Allocator + Copy = Global> {
    fault: Option<FeedFault>,
    scanner: Scanner,
    rest: Vec<u8, A>,
}

impl<A: Allocator + Copy> Model for Feed<A> {
    ghost use Rattle.ber_core.specs.Feeding.{Left};
    ghost use Rattle.ber_core.specs.FeedViews.{IsFeed};

    ghost Value = { Left };

    ghost view = { λ f. record { rest = f.rest.items; fault = f.fault } };

    ghost invariant = { λ f. IsFeed f.fault f.scanner f.rest.items };
}

impl<A: Allocator + Copy> Feed<A> {
    /// A feed that has taken nothing. It takes no memory until octets have to be kept.
    #[tactic(auto, using(crate::proofs::FeedSteps::nothing_left, crate::proofs::FeedSteps::nothing_under_way))]
    pub fn new(alloc: A) -> Self
        ensures { StandsBehind [] result }
    {
        Feed {
            fault: None,
            scanner: Scanner::new(),
            rest: Vec::new(alloc),
        }
    }

    /// The fault that stands: no message can follow those that were given.
    pub fn fault(&self) -> Option<FeedFault>
        ensures { result ≡ self.now.fault }
    {
        self.fault
    }

    /// How many octets no message has yet, 0 to 65,535; 0 once there is a fault.
    pub fn rest_len(&self) -> usize
        ensures { result ≡ length self.now.rest }
    {
        self.rest.len()
    }

    /// Takes the next piece of the stream, and gives the messages that it completes, each by its octets.
    ///
    /// A fault that stands is answered by the first push that completes no message, and by each after it;
    /// `fault` tells it at once. Where memory is refused the feed has taken nothing, and the piece can be
    /// pushed again (our own).
    pub fn push(&mut self, piece: &[u8]) -> Result<Vec<Vec<u8, A>, A>, FeedFault>
        // The messages are those that the piece completes, whatever stream came before.
        ensures ok { (stream : List ℕ) → StandsBehind stream self.old →
            IfOk result (λ all. Completes stream piece.now (map (λ message. message.items) all.items) self.new) }
        // A fault stands, or memory is refused where it is wanted.
        ensures err { (stream : List ℕ) → StandsBehind stream self.old →
            IfErr result (λ fault. Fails stream piece.now self.old fault self.new) }
        ensures refused { IsErrOf result FeedFault.OutOfMemory → self.new ≡ self.old }
    {
        if let Some(fault) = self.fault {
            return Err(fault);
        }
        let alloc = *self.rest.allocator();
        let begun = self.rest.as_slice();
        // Where a stream comes by the octet, or a message in many pieces, most lie within a content.
        if let Some(scanner) = within_content(self.scanner, begun, piece) {
            hold_behind(&mut self.rest, piece)?;
            self.scanner = scanner;
            return Ok(Vec::new(alloc));
        }
        let (messages, end) = cut_piece(alloc, self.scanner, begun, piece)?;
        match end {
            End::Open(scanner, octets) => {
                hold(&mut self.rest, messages.is_empty(), octets)?;
                self.scanner = scanner;
                Ok(messages)
            }
            End::Fault(fault) => end_with(&mut self.fault, &mut self.rest, messages, fault),
        }
    }
}

/// Holds the octets behind those that are held, one alone without a call that copies.
#[inline(always)]
fn hold_behind<A: Allocator + Copy>(rest: &mut Vec<u8, A>, octets: &[u8]) -> Result<(), OutOfMemory>
    ensures ok { OnOk result (rest.new.items ≡ rest.old.items ++ octets.now) }
    ensures err { OnErr result (rest.new.items ≡ rest.old.items) }
    ensures full { OnErr result (octets.now ≢ []) }
{
    if let [octet] = octets {
        rest.reserve(1)?;
        rest.push_reserved(*octet);
        return Ok(());
    }
    rest.extend_from_slice(octets)?;
    Ok(())
}

/// Holds the octets behind those that are held, or alone.
fn hold<A: Allocator + Copy>(
    rest: &mut Vec<u8, A>,
    behind: bool,
    octets: &[u8],
) -> Result<(), OutOfMemory>
    ensures ok { OnOk result (rest.new.items ≡ (if behind then rest.old.items else []) ++ octets.now) }
    ensures err { OnErr result (rest.new.items ≡ rest.old.items) }
    ensures full { OnErr result (octets.now ≢ []) }
{
    if behind {
        rest.extend_from_slice(octets)?;
        return Ok(());
    }
    // A piece mostly ends where a message does.
    if octets.is_empty() {
        rest.clear();
        return Ok(());
    }
    rest.reserve(octets.len())?;
    rest.clear();
    rest.extend_from_slice(octets)?;
    Ok(())
}

/// From now on the fault stands and no octets are held; the fault is answered where there are no
/// messages to give.
fn end_with<A: Allocator + Copy>(
    standing: &mut Option<FeedFault>,
    rest: &mut Vec<u8, A>,
    messages: Vec<Vec<u8, A>, A>,
    fault: FeedFault,
) -> Result<Vec<Vec<u8, A>, A>, FeedFault>
    ensures stands { standing.new ≡ Some fault }
    ensures rest { rest.new.items ≡ [] }
    ensures ok { IfOk result (λ all. (all.items ≡ messages.items) × (messages.items ≢ [])) }
    ensures err { IfErr result (λ f. (f ≡ fault) × (messages.items ≡ [])) }
{
    *standing = Some(fault);
    rest.clear();
    if messages.is_empty() {
        return Err(fault);
    }
    Ok(messages)
}

//! A run over a reader and a writer.

ghost use Rattle.std.specs.Prelude.{MatchResult};
ghost use Rattle.tcap_engine.specs.Limits.{AreLimits, empty_history};
ghost use Rattle.tcap_living.specs.LiveRun.{IsLived, IsUnlived};

use crate::format::Format;
use crate::session::Session;
use std::alloc::Allocator;
use std::io::{Read, Write};
use tcap_engine::Limits;
use tcap_text::PlayFault;

/// The octets that a read asks for.
const PIECE: usize = 4_096;

/// The most reads of a run: 2^50.
const MOST_READS: u64 = 1 << 50;

/// Runs an engine with these limits and counters by the lines that the reader gives: each is answered in this
/// format, its answer written and the writer flushed, before the next is looked at, and all lines that ended are answered
/// before it reads again. Tells whether no line was bad. A last line may lack its line feed, and is answered
/// when the input ends. A read gives what is there: it waits for no more than one octet.
///
/// # Errors
///
/// `Read` where a read failed, or was interrupted; `TooLong` at a line of more than 1,048,576 octets;
/// `OutOfMemory` where memory was refused; `Write` where a write or a flush failed. What was written before
/// stays written.
pub fn run_live<A: Allocator + Copy, R: Read, W: Write>(
    alloc: A,
    format: Format,
    limits: Limits,
    first_dialogue: u32,
    first_number: u64,
    reader: &mut R,
    writer: &mut W,
) -> Result<bool, PlayFault>
    requires { AreLimits limits }
    ensures { MatchResult result
        (λ good. IsLived format (empty_history limits first_dialogue first_number) (R.remaining reader.old) (R.remaining reader.new)
        (W.contents writer.old) (W.contents writer.new) good)
        (λ fault. IsUnlived format (empty_history limits first_dialogue first_number) (R.remaining reader.old) (R.remaining reader.new)
        (W.contents writer.old) (W.contents writer.new) fault) }
{
    let mut session = Session::new(alloc, limits, first_dialogue, first_number);
    let mut piece = [0u8; PIECE];
    for _ in 0..MOST_READS {
        let Ok(count) = reader.read(&mut piece) else {
            return Err(PlayFault::Read);
        };
        if count == 0 {
            session.answer(alloc, format, writer)?;
            return Ok(session.is_good());
        }
        session.take(alloc, format, &piece[..count], writer)?;
    }
    Err(PlayFault::TooLong)
}

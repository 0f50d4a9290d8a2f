//! The script that a reader gives.

ghost use Rattle.std.specs.Prelude.{MatchResult};
ghost use Rattle.tcap_text.specs.Input.{IsScript, IsUnread};

use crate::fault::PlayFault;
use std::alloc::Allocator;
use std::io::Read;

/// The longest script, in octets.
const LONGEST: usize = 1_048_576;
/// The most reads of a run.
pub(crate) const MOST_READS: u32 = 1_000_000;
/// The octets that a read asks for.
pub(crate) const PIECE: usize = 4_096;

/// Reads all that the reader gives, up to its end. A read that fails isn't tried again, and the read that
/// finds the end counts as one.
///
/// # Errors
///
/// `Read` where a read failed, or was interrupted; `TooLong` at the read that passes 1,048,576 octets, and
/// where 1,000,000 reads didn't find the end; `OutOfMemory` where memory was refused.
pub fn read_script<A: Allocator, R: Read>(alloc: A, reader: &mut R) -> Result<Vec<u8, A>, PlayFault>
    ensures { MatchResult result
        (λ script. IsScript (R.remaining reader.old) (R.remaining reader.new) script.items)
        (λ fault. IsUnread (R.remaining reader.old) (R.remaining reader.new) fault) }
{
    let mut script = Vec::new(alloc);
    let mut piece = [0u8; PIECE];
    for _ in 0..MOST_READS {
        let Ok(count) = reader.read(&mut piece) else {
            return Err(PlayFault::Read);
        };
        if count == 0 {
            return Ok(script);
        }
        if count > LONGEST - script.len() {
            return Err(PlayFault::TooLong);
        }
        script.extend_from_slice(&piece[..count])?;
    }
    Err(PlayFault::TooLong)
}

//! The text of a story, read whole.

ghost use Rattle.std.specs.Prelude.{IfOk, MatchResult};
ghost use Rattle.tcap_text.specs.Input.{IsLeft};
ghost use Rattle.tcap_story_cmd.specs.Reading.{IsInput, IsOpened, IsRead, input_view};

use crate::sources::Sources;
use crate::unread::Unread;
use ber_core::OutOfMemory;
use std::alloc::Allocator;
use std::io::{ErrorKind, Read};
use tcap_text::{PlayFault, read_script};

/// All that a reader gives, or why that was not read.
fn read_input<A: Allocator, R: Read>(
    alloc: A,
    reader: &mut R,
) -> Result<Result<Vec<u8, A>, Unread>, OutOfMemory>
    ensures { MatchResult result
        (λ input. IsInput (R.remaining reader.old) (R.remaining reader.new) (input_view input))
        (λ _. IsLeft (R.remaining reader.old) (R.remaining reader.new)) }
{
    match read_script(alloc, reader) {
        Ok(script) => Ok(Ok(script)),
        Err(PlayFault::OutOfMemory) => Err(OutOfMemory),
        Err(PlayFault::TooLong) => Ok(Err(Unread::TooLong)),
        Err(PlayFault::Read | PlayFault::Write) => Ok(Err(Unread::ReadFailed)),
    }
}

/// All that the input of a name gives, once it is open, or why that was not read.
fn open_input<A: Allocator, S: Sources>(
    alloc: A,
    sources: &S,
    name: &str,
) -> Result<Result<Vec<u8, A>, Unread>, OutOfMemory>
    ensures { IfOk result (λ input. IsOpened (S.octets_of sources.now name.now) (input_view input)) }
{
    match sources.open(name) {
        Ok(mut source) => read_input(alloc, &mut source),
        Err(error) if error.kind() == ErrorKind::OutOfMemory => Err(OutOfMemory),
        Err(_) => Ok(Err(Unread::NotOpened)),
    }
}

/// The text of the story of a name, or why that was not read; `-` is the reader's, which stands for standard input.
pub(crate) fn read_story<A: Allocator, S: Sources, R: Read>(
    alloc: A,
    sources: &S,
    reader: &mut R,
    name: &str,
) -> Result<Result<Vec<u8, A>, Unread>, OutOfMemory>
    ensures { MatchResult result
        (λ input. IsRead (S.octets_of sources.now) name.now (R.remaining reader.old) (R.remaining reader.new)
        (input_view input))
        (λ _. IsLeft (R.remaining reader.old) (R.remaining reader.new)) }
{
    if name == "-" {
        return read_input(alloc, reader);
    }
    open_input(alloc, sources, name)
}

//! What a call answers C.

ghost use Rattle.std.specs.Prelude.{◌≡◌};
ghost use Rattle.tcap_c.specs.Status.{status_number, taken_number, received_number};

use ber_core::OutOfMemory;
use tcap_primitives::Fault;

/// What came of a call. Its number is part of the product (our own).
#[derive(Clone, Copy)]
pub(crate) enum Status {
    /// 0: done.
    Done,
    /// 1 to 15: the engine refuses, by the number of the fault, and nothing has changed.
    Refused(Fault),
    /// 16: an argument is out of its range, and nothing has changed.
    BadArgument,
    /// 17: the handle is closed, or where it is opened already open; nothing has changed.
    NotOpen,
    /// 18: no output waits, or no timer runs.
    Nothing,
    /// 19: the octets of the output that comes next don't fit into the room; nothing has changed.
    RoomTooSmall,
}

impl Status {
    /// Its number, 0 to 19.
    pub(crate) fn number(self) -> u8
        ensures { result ≡ status_number self }
    {
        match self {
            Status::Done => 0,
            Status::Refused(fault) => fault.number(),
            Status::BadArgument => 16,
            Status::NotOpen => 17,
            Status::Nothing => 18,
            Status::RoomTooSmall => 19,
        }
    }

    /// That of a request.
    pub(crate) fn of_request(answer: Result<(), Fault>) -> u8
        ensures { result ≡ taken_number answer }
    {
        match answer {
            Ok(()) => Status::Done.number(),
            Err(fault) => Status::Refused(fault).number(),
        }
    }

    /// That of received octets.
    pub(crate) fn of_reception(answer: Result<(), OutOfMemory>) -> u8
        ensures { result ≡ received_number answer }
    {
        match answer {
            Ok(()) => Status::Done.number(),
            Err(OutOfMemory) => Status::Refused(Fault::OutOfMemory).number(),
        }
    }
}

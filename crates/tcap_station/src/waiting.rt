//! An output that waits.

use tcap_engine::OutputRef;

/// An output that waits to be taken (our own).
#[derive(Clone, Copy, Debug, PartialEq, Eq)]
pub struct Waiting<'s> {
    /// What is sent or told; its octets stand in the station.
    pub output: OutputRef<'s>,
    /// The number of the event that it answers: events that were accepted are counted, from 1 on.
    pub event: u64,
    /// Whether it is the last output of that event.
    pub is_last: bool,
}

/// Which event an output that was taken answers (our own).
#[derive(Clone, Copy, Debug, PartialEq, Eq)]
pub struct Answering {
    /// The number of the event: events that were accepted are counted, from 1 on.
    pub event: u64,
    /// Whether the output is the last of that event.
    pub is_last: bool,
}

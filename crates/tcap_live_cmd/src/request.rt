//! What the words of the command ask for.

use tcap_engine::Limits;
use tcap_living::Format;

/// The limits of an engine, and where its counters start.
#[derive(Clone, Copy, Debug, PartialEq, Eq)]
pub struct Settings {
    /// What the engine keeps to.
    pub limits: Limits,
    /// The identifier of the first dialogue, 0 to 4,294,967,295; the greatest is given to none.
    pub first_dialogue: u32,
    /// The number of the first invocation, 0 to 2^64 - 1; the greatest is given to none.
    pub first_number: u64,
}

/// What the words of the command ask for.
#[derive(Clone, Copy, Debug, PartialEq, Eq)]
pub enum Request {
    /// An engine with these settings, by the lines on standard input, answered in this format.
    Run(Format, Settings),
    /// `--help`: the options and the lines.
    Help,
    /// `--version`: the name and the version.
    Version,
}

//! What the words of the command ask for.

use crate::form::Layout;
use crate::naming::Naming;

/// What the words of the command ask for, and in which file the names are, if they are given.
#[derive(Clone, Copy, Debug)]
pub(crate) struct Asked<'a> {
    pub(crate) request: Request,
    pub(crate) names: Option<&'a str>,
}

/// What the words of the command ask for.
#[derive(Clone, Copy, Debug, PartialEq, Eq)]
pub enum Request {
    /// `--help`: what the command does.
    Help,
    /// `--version`: its name and version.
    Version,
    /// The verdicts on the lines of standard input; `--named`: of which each first word is a name.
    Lines(Layout, Naming),
    /// `--stream`: the verdicts on the messages of the stream on standard input.
    Stream(Layout),
    /// `--resync`: the same, going on behind a fault.
    Resync(Layout),
}

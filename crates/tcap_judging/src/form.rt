//! How a run prints what it tells.

use crate::name_list::Named;

/// How the lines of a run look.
#[derive(Clone, Copy, Debug, PartialEq, Eq)]
pub enum Layout {
    /// A line for each message.
    Plain,
    /// Plain, and below a faulty message its octets about the place of the fault, with marks below the faulty ones.
    Marked,
    /// An object of JSON in each line.
    Json,
}

/// How a run prints what it tells.
#[derive(Clone, Copy, Debug)]
pub struct Form<'a> {
    /// How its lines look.
    pub layout: Layout,
    /// By which list it prints what each message names, behind the verdict or its fault; None where it doesn't.
    pub names: Option<&'a [Named<'a>]>,
}

//! How answers are printed.

/// How answers are printed.
#[derive(Clone, Copy, Debug, PartialEq, Eq)]
pub enum Format {
    /// As lines of words.
    Words,
    /// An object of JSON in each line.
    Json,
}

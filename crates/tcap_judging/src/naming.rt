//! Which first words of lines are names.

/// Which first words of lines are names. The colon at the end of one is no part of the name.
#[derive(Clone, Copy, Debug, PartialEq, Eq)]
pub enum Naming {
    /// One that ends in a colon, or that can't be hexadecimal.
    Marked,
    /// Each, whatever it looks like.
    All,
}

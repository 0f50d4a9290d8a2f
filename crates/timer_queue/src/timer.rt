//! A timer: a moment and the name of its item.

/// When something is due for an item: the moment, and the name of the item, which breaks ties.
#[derive(Clone, Copy, Debug, PartialEq, Eq)]
pub struct Timer {
    /// The moment, in the caller's unit of time; any number.
    pub time: u64,
    /// The name; any number.
    pub name: u32,
}

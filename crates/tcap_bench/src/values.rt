//! The values of a message, as they cross from C.

/// An Invoke of a local operation, whose parameter stands in a pool of octets from `start` to `end`;
/// it has none where `start` isn't below `end` or `end` is above the pool's length (own).
#[repr(C)]
#[derive(Clone, Copy)]
pub struct Invocation {
    /// The identifier, -128 to 127.
    pub id: i8,
    /// The operation's local code.
    pub operation: i32,
    /// Where the parameter begins in the pool, in octets.
    pub start: u32,
    /// Where it ends.
    pub end: u32,
}

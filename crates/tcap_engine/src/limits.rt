//! The limits of an engine.

/// What an engine keeps to (our own).
#[derive(Clone, Copy, Debug, PartialEq, Eq)]
pub struct Limits {
    /// How many dialogues may stand at once, 1 to 65,535.
    pub max_dialogues: usize,
    /// How long an invoke identifier waits for a Reject of its result or error, 0 to 2^62 milliseconds
    /// (Q.774, Reject timer; the length is our own).
    pub reject_ms: u64,
    /// How long a dialogue that is Sent or Active may stay idle before it is over, at most 2^62
    /// milliseconds; 0 for no limit (our own).
    pub idle_ms: u64,
}

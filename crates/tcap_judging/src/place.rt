//! Where a run stands in a stream that goes on behind its faults.

/// Where a run stands in a stream.
#[derive(Clone, Copy)]
pub(crate) enum Place {
    /// At an octet at which a message may begin: its offset.
    Reading(u64),
    /// Behind octets that are passed over: the offset of the first, and how many they are.
    Searching(u64, u64),
    /// Within a faulty message, behind octets at which no good one begins: the offset of its first, how many they are,
    /// and how many of its octets follow.
    Within(u64, u64, usize),
}

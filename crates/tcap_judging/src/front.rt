//! What begins octets of a stream, for a search.

/// What begins some octets.
#[derive(Clone, Copy)]
pub(crate) enum Front {
    /// A good message.
    Good,
    /// What may become one as more octets come.
    Short,
    /// Neither.
    Other,
}

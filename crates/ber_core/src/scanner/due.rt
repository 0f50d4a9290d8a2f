//! What the next octet of an element is.

/// What the next octet of an element is.
#[derive(Clone, Copy, Debug)]
pub enum Due {
    /// The first octet of a tag; inside an indefinite element also that of an end.
    Tag,
    /// The second octet of an end 00 00.
    End,
    /// The second octet of a tag, which is constructed or not.
    FirstFurther(bool),
    /// An octet of a tag behind its second, of which so many are allowed, 1 to 3.
    Further(bool, u8),
    /// The first octet of the length behind a tag that is constructed or not.
    Length(bool),
    /// One of so many octets of a long length, 1 to 126, where those before them spell this number,
    /// or one above 65,535.
    LongLength(u8, u32),
    /// One of so many octets of a content, 1 to 65,535.
    Content(u16),
}

//! The verdict on the bytes of a message.

/// The verdict on the bytes of a message: the first that holds.
#[derive(Clone, Copy)]
pub enum Verdict {
    /// More than 65,535 bytes.
    TooLong,
    /// One element, but of no message type.
    UnknownType,
    /// Not one element and nothing after it, or its contents are no list of elements.
    BadlyFormatted,
    /// The contents are not the listed sequence.
    Incorrect,
    /// The dialogue portion can't be read, or is a foreign one outside an Abort.
    Dialogue,
    /// The number of the first faulty component, from 1.
    Component(usize),
    /// None of these.
    Good,
}

impl Verdict {
    ghost use Rattle.std.specs.Prelude.{◌≡◌};
    ghost use Rattle.tcap_words.specs.Verdict.{is_good};

    /// Whether it is `Good`.
    pub fn is_good(self) -> bool
        ensures { result ≡ is_good self }
    {
        match self {
            Verdict::Good => true,
            Verdict::TooLong
            | Verdict::UnknownType
            | Verdict::BadlyFormatted
            | Verdict::Incorrect
            | Verdict::Dialogue
            | Verdict::Component(_) => false,
        }
    }
}

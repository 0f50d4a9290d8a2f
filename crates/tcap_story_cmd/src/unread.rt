//! Why the text of a story was not read.

/// Why the text of a story was not read: the report on it says so, and those behind it are told.
#[derive(Clone, Copy, Debug, PartialEq, Eq)]
pub enum Unread {
    /// Its input couldn't be opened.
    NotOpened,
    /// A read failed, or was interrupted.
    ReadFailed,
    /// It has more than 1,048,576 octets, or 1,000,000 reads did not find its end.
    TooLong,
}

impl Unread {
    ghost use Rattle.std.specs.Prelude.{◌≡◌};
    ghost use Rattle.tcap_story_cmd.specs.Report.{unread_words};

    /// The line that says so in a report.
    pub(crate) fn words(self) -> &'static str
        ensures { result.now ≡ unread_words self }
    {
        match self {
            Unread::NotOpened => "can't be opened\n",
            Unread::ReadFailed => "read failed\n",
            Unread::TooLong => "input too long\n",
        }
    }
}

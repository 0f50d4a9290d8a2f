//! The verdict on a story, or on all.

/// The verdict on a story, or on all.
#[derive(Clone, Copy, Debug, PartialEq, Eq)]
pub enum Verdict {
    /// It has passed; all have.
    Passed,
    /// It has failed; one has, and all were read.
    Failed,
    /// Its text was not read; that of one was not.
    NotRead,
}

impl Verdict {
    ghost use Rattle.std.specs.Prelude.{◌≡◌};
    ghost use Rattle.tcap_story_cmd.specs.Stories.{verdict_if};

    /// The verdict on a story that was read.
    pub(crate) fn of(good: bool) -> Verdict
        ensures { result ≡ verdict_if good }
    {
        if good {
            Verdict::Passed
        } else {
            Verdict::Failed
        }
    }
}

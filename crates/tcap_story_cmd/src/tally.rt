//! How many stories have passed, have failed, and were not read.

use crate::verdict::Verdict;

/// How many stories have passed, have failed, and were not read.
#[derive(Clone, Copy)]
pub(crate) struct Tally {
    pub(crate) passed: u64,
    pub(crate) failed: u64,
    pub(crate) not_read: u64,
}

impl Tally {
    ghost use Rattle.std.specs.Prelude.{◌≡◌, ◌+◌, ◌-◌, ◌<◌, ◌^◌, []};
    ghost use Rattle.tcap_story_cmd.specs.Stories.{overall};
    ghost use Rattle.tcap_story_cmd.specs.Counting.{AreCounts, counted};

    /// The tally of no story.
    pub(crate) fn none() -> Tally
        ensures { AreCounts result [] }
    {
        Tally {
            passed: 0,
            failed: 0,
            not_read: 0,
        }
    }

    /// The tally of one story more, with this verdict.
    pub(crate) fn with(self, verdict: Verdict) -> Tally
        requires { self.passed + self.failed + self.not_read < 2 ^ 64 - 1 }
        ensures { result ≡ counted verdict self }
    {
        match verdict {
            Verdict::Passed => Tally {
                passed: self.passed + 1,
                ..self
            },
            Verdict::Failed => Tally {
                failed: self.failed + 1,
                ..self
            },
            Verdict::NotRead => Tally {
                not_read: self.not_read + 1,
                ..self
            },
        }
    }

    /// The verdict on all.
    pub(crate) fn verdict(self) -> Verdict
        ensures { result ≡ overall self.failed self.not_read }
    {
        if self.not_read > 0 {
            Verdict::NotRead
        } else if self.failed > 0 {
            Verdict::Failed
        } else {
            Verdict::Passed
        }
    }
}

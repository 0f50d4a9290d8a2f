//! Operation classes (Q.771, Operation classes).

// Hints to inline: each step of an engine runs through it; docs/PERF.md says what the whole of it inlined gains.

ghost use Rattle.std.specs.Prelude.{◌≡◌};
ghost use Rattle.tcap_invocation.specs.Class.{reports_success, reports_failure};

/// The operation class of an invocation: which outcomes it reports (Q.771, Operation classes).
#[derive(Clone, Copy, Debug, PartialEq, Eq)]
pub enum Class {
    /// Class 1: success and failure are reported.
    One,
    /// Class 2: failure alone is reported.
    Two,
    /// Class 3: success alone is reported.
    Three,
    /// Class 4: neither is reported.
    Four,
}

impl Class {
    /// Whether success is reported, by a Return Result (Q.771, Operation classes).
    #[inline(always)]
    pub fn reports_success(self) -> bool
        ensures { result ≡ reports_success self }
    {
        match self {
            Class::One | Class::Three => true,
            Class::Two | Class::Four => false,
        }
    }

    /// Whether failure is reported, by a Return Error (Q.771, Operation classes).
    pub fn reports_failure(self) -> bool
        ensures { result ≡ reports_failure self }
    {
        match self {
            Class::One | Class::Two => true,
            Class::Three | Class::Four => false,
        }
    }
}

//! The problem of a Reject (Q.773, Problem).

ghost use Rattle.std.specs.Prelude.{◌≤◌};
ghost use Rattle.tcap_component.specs.Problem.{problem_limit};

/// What a Reject speaks of (Q.773, Problem).
#[derive(Clone, Copy, Debug, PartialEq, Eq)]
pub enum Kind {
    /// General problem: the component as such.
    General,
    /// Invoke problem.
    Invoke,
    /// Return Result problem.
    Result,
    /// Return Error problem.
    Error,
}

/// The named codes of a general problem (Q.773, General Problem).
pub mod general_problem {
    /// Unrecognized component.
    pub const UNRECOGNIZED_COMPONENT: u8 = 0;
    /// Mistyped component.
    pub const MISTYPED_COMPONENT: u8 = 1;
    /// Badly structured component.
    pub const BADLY_STRUCTURED_COMPONENT: u8 = 2;
}

/// The named codes of an invoke problem (Q.773, Invoke Problem).
pub mod invoke_problem {
    /// Duplicate invoke identifier.
    pub const DUPLICATE_INVOKE_ID: u8 = 0;
    /// Unrecognized operation.
    pub const UNRECOGNIZED_OPERATION: u8 = 1;
    /// Mistyped parameter.
    pub const MISTYPED_PARAMETER: u8 = 2;
    /// Resource limitation.
    pub const RESOURCE_LIMITATION: u8 = 3;
    /// Initiating release.
    pub const INITIATING_RELEASE: u8 = 4;
    /// Unrecognized linked identifier.
    pub const UNRECOGNIZED_LINKED_ID: u8 = 5;
    /// Linked response unexpected.
    pub const LINKED_RESPONSE_UNEXPECTED: u8 = 6;
    /// Unexpected linked operation.
    pub const UNEXPECTED_LINKED_OPERATION: u8 = 7;
}

/// The named codes of a return result problem (Q.773, Return Result Problem).
pub mod return_result_problem {
    /// Unrecognized invoke identifier.
    pub const UNRECOGNIZED_INVOKE_ID: u8 = 0;
    /// Return result unexpected.
    pub const RETURN_RESULT_UNEXPECTED: u8 = 1;
    /// Mistyped parameter.
    pub const MISTYPED_PARAMETER: u8 = 2;
}

/// The named codes of a return error problem (Q.773, Return Error Problem).
pub mod return_error_problem {
    /// Unrecognized invoke identifier.
    pub const UNRECOGNIZED_INVOKE_ID: u8 = 0;
    /// Return error unexpected.
    pub const RETURN_ERROR_UNEXPECTED: u8 = 1;
    /// Unrecognized error.
    pub const UNRECOGNIZED_ERROR: u8 = 2;
    /// Unexpected error.
    pub const UNEXPECTED_ERROR: u8 = 3;
    /// Mistyped parameter.
    pub const MISTYPED_PARAMETER: u8 = 4;
}

/// The greatest code of a problem that is taken: 127 (our own).
const MAX_PROBLEM: u8 = 0x7f;

/// The problem that a Reject tells: its kind and a code from 0 to 127 (Q.773, Problem).
#[derive(Clone, Copy, Debug, PartialEq, Eq)]
pub struct Problem {
    kind: Kind,
    code: u8,
    ghost in_range: { code ≤ problem_limit },
}

impl Problem {
    ghost use Rattle.std.specs.Prelude.{◌≡◌, ◌↔◌, IsSome, IfSome};
    ghost use Rattle.tcap_component.specs.Views.{problem_parts};
    ghost use Rattle.tcap_component.specs.Problem.{IsProblem, general_problem, unrecognized_linked_id, unrecognized_result, unexpected_result, unrecognized_error, unexpected_error, is_by_provider};

    /// The problem with this code, if it is at most 127; those without a name are kept as numbers.
    pub fn new(kind: Kind, code: u8) -> Option<Problem>
        ensures is { IsSome result ↔ (code ≤ problem_limit) }
        ensures value { IfSome result (λ p. problem_parts p ≡ record { kind = kind; code = code }) }
    {
        if code > MAX_PROBLEM {
            return None;
        }
        Some(Problem { kind, code })
    }

    /// A general problem.
    pub(crate) fn general(code: u8) -> Problem
        requires { code ≤ problem_limit }
        ensures { problem_parts result ≡ general_problem code }
    {
        Problem {
            kind: Kind::General,
            code,
        }
    }

    /// The invoke problem "unrecognized linked identifier" (Q.773, Invoke Problem).
    pub fn unrecognized_linked_id() -> Problem
        ensures { problem_parts result ≡ unrecognized_linked_id }
    {
        Problem {
            kind: Kind::Invoke,
            code: invoke_problem::UNRECOGNIZED_LINKED_ID,
        }
    }

    /// The return result problem "unrecognized invoke identifier" (Q.773, Return Result Problem).
    pub fn unrecognized_result() -> Problem
        ensures { problem_parts result ≡ unrecognized_result }
    {
        Problem {
            kind: Kind::Result,
            code: return_result_problem::UNRECOGNIZED_INVOKE_ID,
        }
    }

    /// The return result problem "return result unexpected" (Q.773, Return Result Problem).
    pub fn unexpected_result() -> Problem
        ensures { problem_parts result ≡ unexpected_result }
    {
        Problem {
            kind: Kind::Result,
            code: return_result_problem::RETURN_RESULT_UNEXPECTED,
        }
    }

    /// The return error problem "unrecognized invoke identifier" (Q.773, Return Error Problem).
    pub fn unrecognized_error() -> Problem
        ensures { problem_parts result ≡ unrecognized_error }
    {
        Problem {
            kind: Kind::Error,
            code: return_error_problem::UNRECOGNIZED_INVOKE_ID,
        }
    }

    /// The return error problem "return error unexpected" (Q.773, Return Error Problem).
    pub fn unexpected_error() -> Problem
        ensures { problem_parts result ≡ unexpected_error }
    {
        Problem {
            kind: Kind::Error,
            code: return_error_problem::RETURN_ERROR_UNEXPECTED,
        }
    }

    /// Its kind.
    pub fn kind(self) -> Kind
        ensures { result ≡ (problem_parts self).kind }
    {
        self.kind
    }

    /// Its code, 0 to 127.
    pub fn code(self) -> u8
        ensures value { result ≡ (problem_parts self).code }
        ensures within { IsProblem (problem_parts self) }
    {
        self.code
    }

    /// Whether it is one that the component sublayer tells, and not the user: general 0 to 2, invoke 5,
    /// return result 0 and 1, return error 0 and 1 (our own).
    pub fn by_provider(self) -> bool
        ensures { result ≡ is_by_provider (problem_parts self) }
    {
        match self.kind {
            Kind::General => self.code <= general_problem::BADLY_STRUCTURED_COMPONENT,
            Kind::Invoke => self.code == invoke_problem::UNRECOGNIZED_LINKED_ID,
            Kind::Result => self.code <= return_result_problem::RETURN_RESULT_UNEXPECTED,
            Kind::Error => self.code <= return_error_problem::RETURN_ERROR_UNEXPECTED,
        }
    }
}

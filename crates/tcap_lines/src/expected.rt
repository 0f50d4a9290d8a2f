//! What a word of a line has to be.

/// What a word of a line has to be. Numbers are decimal, without zeros before them or a plus sign;
/// hexadecimal has digits of both cases, two an octet.
#[derive(Clone, Copy, Debug, PartialEq, Eq)]
pub enum Expected {
    /// A number, no less than the first and no more than the second.
    Number(u64, u64),
    /// Such a number, with `-` before one below zero.
    Signed(i32, i32),
    /// Such a number, or `-` where it is absent.
    OptionalSigned(i32, i32),
    /// Octets in hexadecimal, or `-` for none.
    Octets,
    /// Such octets, behind the word of a code: where that is `-`, so is this.
    OctetsBehindCode,
    /// An address in hexadecimal: at most 255 octets, or `-` for none.
    Address,
    /// An application context name in hexadecimal, or `-` where it is absent.
    Context,
    /// Such a context, or one in dotted form, as `0.4.0.0.1.0.1.3`.
    DottedContext,
    /// The kind of a problem: `general`, `invoke`, `result` or `error`.
    ProblemKind,
    /// Why a user aborts: `user` or `unsupported`.
    AbortReason,
    /// A message: the letter of the side that sent it, `A` or `B`, and its number, as `A1`.
    Message,
}

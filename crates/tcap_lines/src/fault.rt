//! What is wrong with a line.

use crate::expected::Expected;

/// What is wrong with a word of a line.
#[derive(Clone, Copy, Debug, PartialEq, Eq)]
pub enum WordFault {
    /// It is empty: two spaces stand side by side, or one at an end of the line.
    Empty,
    /// It has a character that no word has, which is this octet: a tab, a carriage return, one outside ASCII.
    Character(u8),
    /// It is the name of no form.
    Name,
    /// It is missing: the name of a form was expected.
    NoName,
    /// It is a number with zeros before it.
    LeadingZeros,
    /// It is an odd number of hexadecimal digits.
    OddDigits,
    /// It is a parameter, and the code before it is `-`.
    NoCode,
    /// It isn't what it has to be.
    Other(Expected),
    /// It is missing.
    Missing(Expected),
    /// It is one too many.
    Surplus,
}

/// The first word of a line that is wrong.
#[derive(Clone, Copy, Debug, PartialEq, Eq)]
pub struct LineFault {
    /// Its number, from 1.
    pub word: usize,
    /// What is wrong with it.
    pub fault: WordFault,
}

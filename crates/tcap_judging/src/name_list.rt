//! Names of operations, errors and application contexts, from a list of them.

ghost use Rattle.std.specs.Prelude.{◌≡◌, ◌<◌, ◌^◌, ◌++◌, ℕ, length, map, option_map, IfErr, IfOk, MatchResult, OnOk};
ghost use Rattle.tcap_judging.specs.LineParts.{trimmed};
ghost use Rattle.tcap_judging.specs.Names.{AreNames, IsBadAt, is_for, is_kind, is_name_line, line_of, name_for, names_of};
ghost use Rattle.tcap_judging.specs.NameViews.{named_view};

use crate::cut::first_line;
use crate::name_line::{NameLine, name_line};
use std::alloc::Allocator;
use thiserror::Error;

/// What a name is of.
#[derive(Clone, Copy, Debug, PartialEq, Eq)]
pub enum NameKind {
    /// An operation, by its code.
    Operation,
    /// An error, by its code.
    Error,
    /// An application context, by its object identifier in dotted form.
    Context,
}

/// A name from a list.
#[derive(Clone, Copy, Debug, PartialEq, Eq)]
pub struct Named<'a> {
    /// What it is of.
    pub kind: NameKind,
    /// The number of that, or its numbers with dots between them.
    pub key: &'a str,
    /// The name.
    pub name: &'a str,
}

/// Why a text is no list of names.
#[derive(Clone, Copy, Debug, PartialEq, Eq, Error)]
pub enum NamesFault {
    /// Memory was refused.
    #[error("out of memory")]
    OutOfMemory,
    /// The first line that is neither a name nor a comment nor blank, by its number, counted from 1.
    #[error("line {0} is no name")]
    BadLine(u64),
}

/// Adds the name that a line gives, if it gives one. Tells whether it is a name, a comment or blank.
fn take_line<'a, A: Allocator + Copy>(
    names: &mut Vec<Named<'a>, A>,
    line: &'a [u8],
) -> Result<bool, NamesFault>
    ensures adds { OnOk result (map named_view names.new.items ≡ map named_view names.old.items
        ++ names_of (line_of (trimmed line.now))) }
    ensures good { IfOk result (λ good. good ≡ is_name_line (line_of (trimmed line.now))) }
    ensures err { IfErr result (λ f. f ≡ NamesFault.OutOfMemory) }
{
    match name_line(line) {
        NameLine::Nothing => Ok(true),
        NameLine::Name(named) => match names.push(named) {
            Ok(()) => Ok(true),
            Err(_) => Err(NamesFault::OutOfMemory),
        },
        NameLine::Bad => Ok(false),
    }
}

/// The names of a list: a line for each, of three words: `operation`, `error` or `context`, its number, or its numbers
/// with dots between them, and its name. Blank lines, and what stands behind a number sign in the place of a word, are
/// passed over.
///
/// ```rust
/// let names = read_names(alloc, b"# MAP\noperation 2 updateLocation\n")?;
/// assert_eq!(rt; name_for(names.as_slice(), NameKind::Operation, "2"), Some("updateLocation"));
/// ```
///
/// # Errors
///
/// `BadLine` where a line is none of these: of the first such. `OutOfMemory` where memory was refused.
pub fn read_names<'a, A: Allocator + Copy>(
    alloc: A,
    text: &'a [u8],
) -> Result<Vec<Named<'a>, A>, NamesFault>
    requires { length text.now < 2 ^ 63 }
    ensures { MatchResult result
        (λ names. AreNames text.now (map named_view names.items))
        (λ fault. (number : ℕ) → fault ≡ NamesFault.BadLine number → IsBadAt text.now number) }
{
    let mut names = Vec::new(alloc);
    let mut rest = text;
    let mut number = 1u64;
    while let Some((line, after)) = first_line(rest) {
        if !take_line(&mut names, line)? {
            return Err(NamesFault::BadLine(number));
        }
        number += 1;
        rest = after;
    }
    if take_line(&mut names, rest)? {
        Ok(names)
    } else {
        Err(NamesFault::BadLine(number))
    }
}

/// Whether two kinds are one.
fn is_kind(kind: NameKind, other: NameKind) -> bool
    ensures { result ≡ is_kind kind other }
{
    match kind {
        NameKind::Operation => matches!(other, NameKind::Operation),
        NameKind::Error => matches!(other, NameKind::Error),
        NameKind::Context => matches!(other, NameKind::Context),
    }
}

/// Whether a name is of this kind for this key.
fn is_for(kind: NameKind, key: &str, named: &Named<'_>) -> bool
    ensures { result ≡ is_for kind key.now (named_view named.now) }
{
    is_kind(kind, named.kind) && named.key == key
}

/// The first name of this kind for this number, or these numbers with dots between them.
pub fn name_for<'a>(names: &[Named<'a>], kind: NameKind, key: &str) -> Option<&'a str>
    ensures { option_map (λ n. n.now) result ≡ name_for kind key.now (map named_view names.now) }
{
    for named in names {
        if is_for(kind, key, named) {
            return Some(named.name);
        }
    }
    None
}

//! A line held against a table.

ghost use Rattle.std.specs.Prelude.{◌≡◌, ◌+◌, ◌≤◌, ℕ, List, [], ◌∷◌, map, IfSome, IfNone, IsNone, IsSomeAnd};
ghost use Rattle.tcap_play.specs.Pieces.{left, pieces_left, words_of};
ghost use Rattle.tcap_lines.specs.LineFaults.{IsFirstFault, IsGoodLine, judged};
ghost use Rattle.tcap_lines.specs.Reading.{first_fault, walk};
ghost use Rattle.tcap_lines.specs.Table.{Wanted, is_listed, names_of, wanted_behind, wanted_by_name, words_named};
ghost use Rattle.tcap_lines.specs.TableViews.{forms_view, table_view};
ghost use Rattle.tcap_lines.specs.declared.fault.LineFault.{LineFault as Found};

use crate::expected::Expected;
use crate::fault::{LineFault, WordFault};
use crate::fits::fits;
use crate::misfit::{misfit, surplus, unnamed};
use crate::table::{Form, Table, is_listed, words_named};
use tcap_play::first_piece;

/// What is wrong with a word of which this is expected, behind that one, if anything.
fn judged(expected: Expected, before: &[u8], word: &[u8]) -> Option<WordFault>
    ensures { result ≡ judged before.now (Wanted.what expected) word.now }
{
    if fits(expected, before, word) {
        None
    } else {
        Some(misfit(expected, before, word))
    }
}

/// What is wrong where nothing more is expected, if something more is there.
fn end_fault(number: usize, rest: Option<&[u8]>) -> Option<LineFault>
    ensures { (before : List ℕ) → result ≡ walk number before [] (pieces_left 32 rest.entry) }
{
    let (word, _) = first_piece(rest?, b' ');
    Some(LineFault {
        word: number,
        fault: surplus(word),
    })
}

/// What is wrong first with the words behind this one, if anything; the first of them has this number.
fn words_fault(
    number: usize,
    before: &[u8],
    words: &[Expected],
    rest: Option<&[u8]>,
) -> Option<LineFault>
    requires { number + left rest ≤ 18446744073709551615 }
    ensures { result ≡ walk number before.now (map (λ expected. Wanted.what expected) words.now)
        (pieces_left 32 rest.entry) }
{
    let mut number = number;
    let mut before = before;
    let mut rest = rest;
    for expected in words {
        let Some(octets) = rest else {
            return Some(LineFault {
                word: number,
                fault: WordFault::Missing(*expected),
            });
        };
        let (word, more) = first_piece(octets, b' ');
        if let Some(fault) = judged(*expected, before, word) {
            return Some(LineFault {
                word: number,
                fault,
            });
        }
        number += 1;
        before = word;
        rest = more;
    }
    end_fault(number, rest)
}

/// What is wrong first from a name on, which has this number, by the forms that stand there, if anything.
fn form_fault(
    number: usize,
    forms: &[Form<'_>],
    name: &[u8],
    rest: Option<&[u8]>,
) -> Option<LineFault>
    requires { number + left rest ≤ 18446744073709551614 }
    ensures { (before : List ℕ) (names : List (List ℕ))
        → is_listed names name.now ≡ is_listed (names_of (forms_view forms.now)) name.now
        → result ≡ walk number before (Wanted.any_of names ∷ wanted_behind (words_named name.now (forms_view forms.now)))
        (name.now ∷ pieces_left 32 rest.entry) }
{
    match words_named(forms, name) {
        Some(words) => words_fault(number + 1, name, words, rest),
        None => Some(LineFault {
            word: number,
            fault: unnamed(name),
        }),
    }
}

/// What is wrong first behind a side, if anything.
fn side_fault(forms: &[Form<'_>], rest: Option<&[u8]>) -> Option<LineFault>
    requires { 2 + left rest ≤ 18446744073709551615 }
    ensures { (before : List ℕ) → result
        ≡ walk 2 before (wanted_by_name (forms_view forms.now) (pieces_left 32 rest.entry)) (pieces_left 32 rest.entry) }
{
    let Some(octets) = rest else {
        return Some(LineFault {
            word: 2,
            fault: WordFault::NoName,
        });
    };
    let (name, more) = first_piece(octets, b' ');
    form_fault(2, forms, name, more)
}

/// What is wrong first with a line, if anything.
fn first_fault(table: &Table<'_>, line: &[u8]) -> Option<LineFault>
    ensures { result ≡ first_fault (table_view table.now) (words_of line.now) }
{
    let (first, rest) = first_piece(line, b' ');
    if is_listed(table.sides, first) {
        side_fault(table.on_side, rest)
    } else {
        form_fault(1, table.alone, first, rest)
    }
}

/// What is wrong with a line, if anything: the first of its words that isn't what the forms of the table say, by
/// its number from 1, and what was expected there. Words are separated by one space. It takes no memory.
///
/// ```rust
/// let forms = [Form { name: "advance", words: &[Expected::Number(0, 9)] }];
/// let table = Table { sides: &[], on_side: &[], alone: &forms };
/// assert_eq!(rt; line_fault(&table, b"advance 7"), None);
/// let fault = WordFault::LeadingZeros;
/// assert_eq!(rt; line_fault(&table, b"advance 07"), Some(LineFault { word: 2, fault }));
/// ```
pub fn line_fault(table: &Table<'_>, line: &[u8]) -> Option<LineFault>
    // What is told is the first word that is wrong.
    ensures found { IfSome result (λ found. IsFirstFault (table_view table.now) (words_of line.now) found) }
    // The first word that is wrong is told.
    ensures only { (found : Found) → IsFirstFault (table_view table.now) (words_of line.now) found
        → IsSomeAnd result (λ told. told ≡ found) }
    // Nothing is told exactly of a line that has a form.
    ensures none { IfNone result (IsGoodLine (table_view table.now) (words_of line.now)) }
    ensures good { IsGoodLine (table_view table.now) (words_of line.now) → IsNone result }
    // The same, computed.
    ensures exact { result ≡ first_fault (table_view table.now) (words_of line.now) }
{
    first_fault(table, line)
}

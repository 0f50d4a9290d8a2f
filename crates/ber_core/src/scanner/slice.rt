//! The octets of a slice.

ghost use Rattle.std.specs.Prelude.{◌≡◌, ◌<◌, ◌≤◌, [], ◌∷◌, ◌++◌, false, length, List, ℕ, IfOk, IfErr, IfSome, IfNone, Err};
ghost use Rattle.ber_core.specs.Scanning.{goes_on, goes_on_or, at_due, outer_at};
ghost use Rattle.ber_core.specs.Element.{depth_limit};
ghost use Rattle.ber_core.specs.ElementReading.{after_at};
ghost use Rattle.ber_core.specs.Stream.{is_short};

use super::Scanner;
use super::due::Due;
use super::octet::{behind_element, due_at};
use crate::fault::BerFault;

/// Passes over octets of a content, of which so many are due, and gives what follows it.
#[inline(always)]
fn pass(nested: u8, left: u16, bytes: &[u8]) -> (Option<Scanner>, &[u8])
    requires left { 0 < left }
    requires nested { nested ≤ depth_limit }
    ensures value { (more : List ℕ) → goes_on_or result.0 (result.1.now ++ more)
        ≡ at_due (Due.Content left) nested (bytes.now ++ more) }
    ensures shorter { length result.1.now ≤ length bytes.now }
{
    let count = left as usize;
    if bytes.len() < count {
        let after = due_at(Due::Content((count - bytes.len()) as u16), nested);
        return (after, &bytes[bytes.len()..]);
    }
    (behind_element(nested), &bytes[count..])
}

impl Scanner {
    /// Before the first octet of an element.
    #[inline(always)]
    pub fn new() -> Scanner
        ensures { (rest : List ℕ) → goes_on result rest ≡ after_at depth_limit rest }
    {
        Scanner {
            due: Due::Tag,
            nested: 0,
        }
    }

    /// Behind the head of an indefinite element.
    #[inline(always)]
    pub fn inside() -> Scanner
        ensures { (rest : List ℕ) → goes_on result rest ≡ outer_at 1 rest }
    {
        Scanner {
            due: Due::Tag,
            nested: 1,
        }
    }

    /// The scanner behind octets that end before the content does that is due; `None` where they don't,
    /// or where no content is due.
    #[inline(always)]
    pub fn within_content(self, octets: &[u8]) -> Option<Scanner>
        ensures { IfSome result (λ s. (more : List ℕ) → goes_on s more ≡ goes_on self (octets.now ++ more)) }
    {
        let Due::Content(left) = self.due else {
            return None;
        };
        let count = left as usize;
        if octets.len() < count {
            let due = Due::Content((count - octets.len()) as u16);
            return Some(Scanner {
                due,
                nested: self.nested,
            });
        }
        None
    }

    /// Takes an octet, and with it what there is of a content behind it; gives what follows.
    #[inline(always)]
    fn advance(self, octet: u8, bytes: &[u8]) -> Result<(Option<Scanner>, &[u8]), BerFault>
        ensures ok { IfOk result (λ r. (more : List ℕ) → goes_on_or r.0 (r.1.now ++ more)
            ≡ goes_on self (octet ∷ (bytes.now ++ more))) }
        ensures err { IfErr result (λ f. (is_short f ≡ false)
            × ((more : List ℕ) → goes_on self (octet ∷ (bytes.now ++ more)) ≡ Err f)) }
        ensures shorter { IfOk result (λ r. length r.1.now ≤ length bytes.now) }
    {
        let next = self.take(octet)?;
        if let Some(
            Scanner {
                due: Due::Content(left),
                nested,
            },
        ) = next
        {
            return Ok(pass(nested, left, bytes));
        }
        Ok((next, bytes))
    }

    /// Takes octets until the element is whole, and gives what follows it; or takes them all, and gives
    /// the scanner behind them.
    #[inline(always)]
    pub fn scan(self, bytes: &[u8]) -> Result<(Option<Scanner>, &[u8]), BerFault>
        ensures ok { IfOk result (λ r. (more : List ℕ) → goes_on_or r.0 (r.1.now ++ more)
            ≡ goes_on self (bytes.now ++ more)) }
        ensures err { IfErr result (λ f. (is_short f ≡ false)
            × ((more : List ℕ) → goes_on self (bytes.now ++ more) ≡ Err f)) }
        ensures shorter { IfOk result (λ r. length r.1.now ≤ length bytes.now) }
        ensures whole { IfOk result (λ r. IfNone r.0 (length r.1.now < length bytes.now)) }
        ensures all { IfOk result (λ r. IfSome r.0 (λ s. r.1.now ≡ [])) }
    {
        let mut scanner = self;
        let mut rest = bytes;
        loop {
            let (next, after) = scanner.skim(rest);
            rest = after;
            let Some(next) = next else {
                return Ok((None, rest));
            };
            scanner = next;
            let [octet, after @ ..] = rest else {
                return Ok((Some(scanner), rest));
            };
            let (next, after) = scanner.advance(*octet, after)?;
            rest = after;
            match next {
                Some(next) => scanner = next,
                None => return Ok((None, rest)),
            }
        }
    }
}

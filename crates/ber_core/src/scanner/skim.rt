//! Heads, ends and elements that stand whole in the octets: each is passed over at once.

ghost use Rattle.std.specs.Prelude.{◌≡◌, ◌≢◌, ◌==◌, ◌↔◌, ◌<◌, ◌≤◌, ◌++◌, ◌∷◌, bit_and, false, length, List, ℕ, IsTrue, IfSome, IfNone};
ghost use Rattle.ber_core.specs.Element.{depth_limit};
ghost use Rattle.ber_core.specs.Scanning.{goes_on, goes_on_or, outer_at, at_tag};

use super::Scanner;
use super::due::Due;
use super::octet::behind_element;
use crate::element::MAX_DEPTH;
use crate::head::{is_plain, read_head};

/// Whether an indefinite element begins with a tag of this one octet and this length.
#[inline(always)]
fn opens(tag: u8, length: u8) -> bool
    ensures { IsTrue result ↔ ((tag ≢ 0x00) × (bit_and tag 0x1f == 0x1f ≡ false)
        × (bit_and tag 0x20 == 0 ≡ false) × (length ≡ 0x80)) }
{
    tag != 0x00 && tag & 0x1f != 0x1f && tag & 0x20 != 0 && length == 0x80
}

/// Passes over the content behind a head whose length is `81` and this octet: gives what follows.
#[inline(always)]
fn skim_long(nested: u8, tag: u8, len: u8, content: &[u8]) -> Option<&[u8]>
    ensures value { IfSome result (λ after. (more : List ℕ) → outer_at nested (after.now ++ more)
        ≡ at_tag nested (tag ∷ 0x81 ∷ len ∷ (content.now ++ more))) }
    ensures shorter { IfSome result (λ after. length after.now ≤ length content.now) }
{
    if is_plain(tag, 0) && len as usize <= content.len() {
        return Some(&content[len as usize..]);
    }
    None
}

/// Passes over two octets, a head or an end, and over the content that is there behind a definite head:
/// gives how many are open then, and what follows.
#[inline(always)]
fn skim_one(nested: u8, tag: u8, len: u8, body: &[u8]) -> Option<(u8, &[u8])>
    requires { nested ≤ depth_limit }
    ensures value { IfSome result (λ r. (more : List ℕ) → outer_at r.0 (r.1.now ++ more)
        ≡ at_tag nested (tag ∷ len ∷ (body.now ++ more))) }
    ensures most { IfSome result (λ r. r.0 ≤ depth_limit) }
    ensures shorter { IfSome result (λ r. length r.1.now ≤ length body.now) }
{
    if is_plain(tag, len) && len as usize <= body.len() {
        return Some((nested, &body[len as usize..]));
    }
    if tag == 0 && len == 0 && nested > 0 {
        return Some((nested - 1, body));
    }
    if opens(tag, len) && nested < MAX_DEPTH {
        return Some((nested + 1, body));
    }
    None
}

/// Passes over what is plain: gives the scanner behind it, `None` where the outermost element ends, and
/// what follows.
#[inline(always)]
fn skim_plain(nested: u8, bytes: &[u8]) -> (Option<Scanner>, &[u8])
    requires { nested ≤ depth_limit }
    ensures value { (more : List ℕ) → goes_on_or result.0 (result.1.now ++ more)
        ≡ at_tag nested (bytes.now ++ more) }
    ensures shorter { length result.1.now ≤ length bytes.now }
    ensures whole { IfNone result.0 (length result.1.now < length bytes.now) }
{
    let mut nested = nested;
    let mut rest = bytes;
    while let [tag, len, body @ ..] = rest {
        let Some((left, after)) = skim_one(nested, *tag, *len, body) else {
            break;
        };
        if left == 0 {
            return (behind_element(left), after);
        }
        nested = left;
        rest = after;
    }
    // Behind the loop, since in it this costs each plain element four instructions.
    if let [tag, 0x81, len, content @ ..] = rest {
        if let Some(after) = skim_long(nested, *tag, *len, content) {
            return (behind_element(nested), after);
        }
    }
    let scanner = Scanner {
        due: Due::Tag,
        nested,
    };
    (Some(scanner), rest)
}

/// Passes over any head, and over the content that is there behind a definite one: gives how many are open then, and
/// what follows.
#[inline(always)]
fn skim_head(nested: u8, bytes: &[u8]) -> Option<(u8, &[u8])>
    requires { nested ≤ depth_limit }
    ensures value { IfSome result (λ r. (more : List ℕ) → outer_at r.0 (r.1.now ++ more)
        ≡ at_tag nested (bytes.now ++ more)) }
    ensures most { IfSome result (λ r. r.0 ≤ depth_limit) }
    ensures shorter { IfSome result (λ r. length r.1.now < length bytes.now) }
{
    let Ok(head) = read_head(bytes) else {
        return None;
    };
    let rest = head.rest;
    match head.length {
        Some(len) => {
            if len <= rest.len() {
                Some((nested, &rest[len..]))
            } else {
                None
            }
        }
        None => {
            if nested < MAX_DEPTH {
                Some((nested + 1, rest))
            } else {
                None
            }
        }
    }
}

/// Passes over a head and the content that is there, or over an end: gives how many are open then, and what follows.
// Heads of two octets and ends are tried by `skim_one`, at a quarter of what `skim_head` takes; others are not, which
// changes nothing but what they take.
#[inline(always)]
fn skim_next(nested: u8, bytes: &[u8]) -> Option<(u8, &[u8])>
    requires { nested ≤ depth_limit }
    ensures value { IfSome result (λ r. (more : List ℕ) → outer_at r.0 (r.1.now ++ more)
        ≡ at_tag nested (bytes.now ++ more)) }
    ensures most { IfSome result (λ r. r.0 ≤ depth_limit) }
    ensures shorter { IfSome result (λ r. length r.1.now < length bytes.now) }
{
    let [tag, len, body @ ..] = bytes else {
        return None;
    };
    if *tag & 0x1f != 0x1f && *len <= 0x80 {
        if let Some(passed) = skim_one(nested, *tag, *len, body) {
            return Some(passed);
        }
    }
    skim_head(nested, bytes)
}

/// Passes over what stands whole, whatever its heads: gives the scanner behind it, `None` where the outermost element
/// ends, and what follows.
// Called within the indefinite form where what follows isn't plain, or isn't whole: octet by octet long heads took six
// to eight times the instructions. What is plain behind one takes a third more here than in `skim_plain`.
#[inline(never)]
fn skim_whole(nested: u8, bytes: &[u8]) -> (Option<Scanner>, &[u8])
    requires { nested ≤ depth_limit }
    ensures value { (more : List ℕ) → goes_on_or result.0 (result.1.now ++ more)
        ≡ at_tag nested (bytes.now ++ more) }
    ensures shorter { length result.1.now ≤ length bytes.now }
    ensures whole { IfNone result.0 (length result.1.now < length bytes.now) }
{
    let mut nested = nested;
    let mut rest = bytes;
    while let Some((left, after)) = skim_next(nested, rest) {
        if left == 0 {
            return (behind_element(left), after);
        }
        nested = left;
        rest = after;
    }
    let scanner = Scanner {
        due: Due::Tag,
        nested,
    };
    (Some(scanner), rest)
}

/// Passes over what stands whole: gives the scanner behind it, `None` where the outermost element ends, and what
/// follows.
#[inline(always)]
fn skim(nested: u8, bytes: &[u8]) -> (Option<Scanner>, &[u8])
    requires { nested ≤ depth_limit }
    ensures value { (more : List ℕ) → goes_on_or result.0 (result.1.now ++ more)
        ≡ at_tag nested (bytes.now ++ more) }
    ensures shorter { length result.1.now ≤ length bytes.now }
    ensures whole { IfNone result.0 (length result.1.now < length bytes.now) }
{
    let (next, after) = skim_plain(nested, bytes);
    // Where none is open, a message begins: a call for its one head wouldn't pay in a feed.
    if let Some(
        Scanner {
            due: Due::Tag,
            nested: open,
        },
    ) = next
    {
        if open > 0 {
            return skim_whole(open, after);
        }
    }
    (next, after)
}

impl Scanner {
    /// Passes over what stands whole; `None` where the element ends, and what follows.
    #[inline(always)]
    pub fn skim(self, bytes: &[u8]) -> (Option<Scanner>, &[u8])
        ensures value { (more : List ℕ) → goes_on_or result.0 (result.1.now ++ more)
            ≡ goes_on self (bytes.now ++ more) }
        ensures shorter { length result.1.now ≤ length bytes.now }
        ensures whole { IfNone result.0 (length result.1.now < length bytes.now) }
    {
        if matches!(self.due, Due::Tag) {
            skim(self.nested, bytes)
        } else {
            (Some(self), bytes)
        }
    }
}

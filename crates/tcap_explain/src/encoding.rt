//! Where the fault of an element's encoding is told.

ghost use Rattle.std.specs.Prelude.{◌≡◌, ◌≤◌, ◌<◌, length, IfSome, Err};
ghost use Rattle.ber_core.specs.Element.{depth_limit};
ghost use Rattle.ber_core.specs.ElementReading.{element_at};
ghost use Rattle.tcap_explain.specs.EncodingPlace.{is_open, told_at};

use ber_core::{BerFault, MAX_DEPTH, read_element, read_head};

/// Whether the octets are the front of an element that isn't whole yet, without another fault.
#[tactic(auto, unfolding(crate::specs::EncodingPlace::is_open))]
fn is_front(octets: &[u8]) -> bool
    ensures { result ≡ is_open octets.now }
{
    match read_element(octets) {
        Ok(_) => false,
        Err(BerFault::Short) => true,
        Err(
            BerFault::BadTag
            | BerFault::BadLength
            | BerFault::IndefinitePrimitive
            | BerFault::TooDeep,
        ) => false,
    }
}

/// What `pass_one` gives for an end, and for an element whose tag and length are an octet each: most are so, and are
/// seen at once.
fn pass_at_once(open: u8, rest: &[u8]) -> Option<(u8, &[u8])>
    ensures { IfSome result (λ r. length r.1.now < length rest.now) }
{
    match rest {
        [0, 0, after @ ..] if open > 0 => Some((open - 1, after)),
        [tag, len, body @ ..]
            if *tag != 0 && *tag & 0x1f != 0x1f && *len < 0x80 && *len as usize <= body.len() => {
            Some((open, &body[*len as usize..]))
        }
        _ => None,
    }
}

/// What `pass_one` gives for any other head.
fn pass_head(open: u8, rest: &[u8]) -> Option<(u8, &[u8])>
    ensures { IfSome result (λ r. length r.1.now < length rest.now) }
{
    let head = read_head(rest).ok()?;
    match head.length {
        Some(len) if len <= head.rest.len() => Some((open, &head.rest[len..])),
        None if open < MAX_DEPTH => Some((open + 1, head.rest)),
        _ => None,
    }
}

/// Passes over a head of the indefinite form, over an end, or over an element of the definite form, of which so many
/// of the indefinite form are open: gives how many are open then, and what follows.
fn pass_one(open: u8, rest: &[u8]) -> Option<(u8, &[u8])>
    ensures { IfSome result (λ r. length r.1.now < length rest.now) }
{
    match pass_at_once(open, rest) {
        Some(passed) => Some(passed),
        None => pass_head(open, rest),
    }
}

/// How many octets stand before the one at which the head at the front is at fault, or all where only octets of its
/// content are missing.
fn head_octets(rest: &[u8]) -> usize
    ensures { result ≤ length rest.now }
{
    for count in 0..rest.len() {
        match read_head(&rest[..count + 1]) {
            Err(BerFault::Short) => {}
            Ok(head) if head.length.is_some() => return rest.len(),
            Ok(_)
            | Err(
                BerFault::BadTag
                | BerFault::BadLength
                | BerFault::IndefinitePrimitive
                | BerFault::TooDeep,
            ) => {
                return count;
            }
        }
    }
    rest.len()
}

/// Where the fault is likely to be told: in the first head that can't be passed over. It is looked at there first.
fn likely_place(bytes: &[u8]) -> usize
    ensures { result ≤ length bytes.now }
{
    let mut open: u8 = 0;
    let mut rest = bytes;
    while let Some((left, after)) = pass_one(open, rest) {
        open = left;
        rest = after;
    }
    let before = bytes.len() - rest.len();
    match rest {
        [0, ..] if open > 0 => before + 1,
        _ => before + head_octets(rest),
    }
}

/// The octet at which the fault of the element is told with which the bytes begin, and that fault, where it is found at
/// once: it is where it is likely.
#[tactic(auto, unfolding(crate::specs::EncodingPlace::is_open))]
pub(crate) fn likely_fault(bytes: &[u8]) -> Option<(usize, BerFault)>
    ensures filled { IfSome result (λ r. 0 < length bytes.now) }
    ensures within { IfSome result (λ r. r.0 ≤ length bytes.now) }
    ensures place { IfSome result (λ r. r.0 ≡ told_at bytes.now) }
    ensures fault { IfSome result (λ r. element_at depth_limit bytes.now ≡ Err r.1) }
{
    let place = likely_place(bytes);
    if bytes.is_empty() || !is_front(&bytes[..place]) {
        return None;
    }
    if place == bytes.len() {
        return Some((place, BerFault::Short));
    }
    let Err(fault) = read_element(&bytes[..place + 1]) else {
        return None;
    };
    if let BerFault::Short = fault {
        return None;
    }
    Some((place, fault))
}

/// The front that is looked at next, by its length: the likely one, that with an octet more, then the middle.
fn next_front(low: usize, high: usize, likely: usize) -> usize
    requires { low < high }
    ensures { (low < result) × (result ≤ high) }
{
    if low < likely && likely <= high {
        return likely;
    }
    if low == likely {
        return low + 1;
    }
    high - (high - low) / 2
}

/// The octet at which the fault of the bytes is told: the first with which it is there, or their end where they
/// are short. It is searched for where it is likely, and else by halves: once a fault is there, it stays, whatever
/// follows.
pub(crate) fn told_place(bytes: &[u8]) -> usize
    ensures place { result ≡ told_at bytes.now }
    ensures within { result ≤ length bytes.now }
{
    let likely = likely_place(bytes);
    let mut low: usize = 0;
    let mut high: usize = bytes.len();
    while low < high {
        let middle = next_front(low, high, likely);
        if is_front(&bytes[..middle]) {
            low = middle;
        } else {
            high = middle - 1;
        }
    }
    low
}

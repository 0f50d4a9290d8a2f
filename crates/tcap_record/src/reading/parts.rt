//! The parts of events, each read at the front of octets: its value and the octets behind it, or how many
//! octets are left at the place where reading stops.

ghost use Rattle.std.specs.Prelude.{option_copied};
ghost use Rattle.std.specs.Option.{option_map};
ghost use Rattle.ber_core.specs.Results.{Gives};
ghost use Rattle.tcap_component.specs.Views.{body_parts, code_parts, problem_parts};
ghost use Rattle.tcap_primitives.specs.RequestViews.{ending_view, reason_view};
ghost use Rattle.tcap_record.specs.Fields.{listed, named_at, taken_at};
ghost use Rattle.tcap_record.specs.Parts.{address_at, body_at, class_at, code_at, ending_at, form_of_flag, form_table, identifier_at, kind_at, long_at, octet_at, octet_string_at, optional_at, presence_table, problem_at, reason_at, short_at};

use tcap_address::Address;
use tcap_component::{Body, Code, Kind, Problem};
use tcap_invocation::Class;
use tcap_primitives::{AbortWhy, Ending};

/// How many octets are left at the place where reading stops.
pub(crate) type Left = usize;

// ---- numbers and octets

/// One octet.
fn take_octet(octets: &[u8]) -> Result<(u8, &[u8]), Left>
    ensures { Gives (λ r. (r.0, r.1.now)) result (octet_at octets.now) }
{
    match octets {
        [] => Err(0),
        [octet, rest @ ..] => Ok((*octet, rest)),
    }
}

/// A number of four octets, most significant first.
pub(super) fn take_short(octets: &[u8]) -> Result<(u32, &[u8]), Left>
    ensures { Gives (λ r. (r.0, r.1.now)) result (short_at octets.now) }
{
    if octets.len() < 4 {
        return Err(0);
    }
    let (front, rest) = octets.split_at(4);
    let number = u32::from_be_bytes([front[0], front[1], front[2], front[3]]);
    Ok((number, rest))
}

/// A number of eight octets, most significant first.
pub(super) fn take_long(octets: &[u8]) -> Result<(u64, &[u8]), Left>
    ensures { Gives (λ r. (r.0, r.1.now)) result (long_at octets.now) }
{
    if octets.len() < 8 {
        return Err(0);
    }
    let (front, rest) = octets.split_at(8);
    let number = u64::from_be_bytes([
        front[0], front[1], front[2], front[3], front[4], front[5], front[6], front[7],
    ]);
    Ok((number, rest))
}

/// So many octets.
fn take_counted(octets: &[u8], count: usize) -> Result<(&[u8], &[u8]), Left>
    ensures { Gives (λ r. (r.0.now, r.1.now)) result (taken_at count octets.now) }
{
    if octets.len() < count {
        return Err(0);
    }
    Ok(octets.split_at(count))
}

/// Octets behind how many they are, in four octets.
pub(super) fn take_string(octets: &[u8]) -> Result<(&[u8], &[u8]), Left>
    ensures { Gives (λ r. (r.0.now, r.1.now)) result (octet_string_at octets.now) }
{
    let (count, rest) = take_short(octets)?;
    take_counted(rest, count as usize)
}

/// An address behind how many octets it has, in one octet.
pub(super) fn take_address(octets: &[u8]) -> Result<(Address, &[u8]), Left>
    ensures { Gives (λ r. (r.0, r.1.now)) result (address_at octets.now) }
{
    let (count, rest) = take_octet(octets)?;
    let (given, rest) = take_counted(rest, usize::from(count))?;
    match Address::new(given) {
        Some(address) => Ok((address, rest)),
        None => unreachable!(),
    }
}

/// An invoke identifier, one octet.
pub(super) fn take_identifier(octets: &[u8]) -> Result<(i8, &[u8]), Left>
    ensures { Gives (λ r. (r.0, r.1.now)) result (identifier_at octets.now) }
{
    match octets {
        [] => Err(0),
        [octet, rest @ ..] => Ok((octet.cast_signed(), rest)),
    }
}

// ---- what may be missing

/// Whether a part is there.
fn take_presence(octets: &[u8]) -> Result<(bool, &[u8]), Left>
    ensures { Gives (λ r. (r.0, r.1.now)) result (named_at (listed presence_table) octets.now) }
{
    match octets {
        [] => Err(0),
        [0, rest @ ..] => Ok((false, rest)),
        [1, rest @ ..] => Ok((true, rest)),
        [_, ..] => Err(octets.len()),
    }
}

/// Octets, where there are any.
pub(super) fn take_string_if_any(octets: &[u8]) -> Result<(Option<&[u8]>, &[u8]), Left>
    ensures { Gives (λ r. (option_copied r.0, r.1.now)) result (optional_at octet_string_at octets.now) }
{
    let (is_there, rest) = take_presence(octets)?;
    if !is_there {
        return Ok((None, rest));
    }
    let (given, rest) = take_string(rest)?;
    Ok((Some(given), rest))
}

/// An invoke identifier, where there is one.
pub(super) fn take_identifier_if_any(octets: &[u8]) -> Result<(Option<i8>, &[u8]), Left>
    ensures { Gives (λ r. (r.0, r.1.now)) result (optional_at identifier_at octets.now) }
{
    let (is_there, rest) = take_presence(octets)?;
    if !is_there {
        return Ok((None, rest));
    }
    let (id, rest) = take_identifier(rest)?;
    Ok((Some(id), rest))
}

// ---- codes

/// Whether a code is global.
fn take_is_global(octets: &[u8]) -> Result<(bool, &[u8]), Left>
    ensures { Gives (λ r. (form_of_flag r.0, r.1.now)) result (named_at (listed form_table) octets.now) }
{
    match octets {
        [] => Err(0),
        [0, rest @ ..] => Ok((false, rest)),
        [1, rest @ ..] => Ok((true, rest)),
        [_, ..] => Err(octets.len()),
    }
}

/// A code: 0 and four octets, or 1 and the octets of an object identifier.
#[tactic(auto, unfolding(crate::specs::Parts::code_at))]
pub(super) fn take_code<'m>(octets: &'m [u8]) -> Result<(Code<'m>, &'m [u8]), Left>
    ensures { Gives (λ r. (code_parts r.0, r.1.now)) result (code_at octets.now) }
{
    let (is_global, rest) = take_is_global(octets)?;
    if is_global {
        let (given, rest) = take_string(rest)?;
        return Ok((Code::Global(given), rest));
    }
    let (number, rest) = take_short(rest)?;
    Ok((Code::Local(number.cast_signed()), rest))
}

/// A result's body: a code, and a parameter if there is one.
#[tactic(auto, unfolding(crate::specs::Parts::body_at))]
fn take_body<'m>(octets: &'m [u8]) -> Result<(Body<'m>, &'m [u8]), Left>
    ensures { Gives (λ r. (body_parts r.0, r.1.now)) result (body_at octets.now) }
{
    let (code, rest) = take_code(octets)?;
    let (parameter, rest) = take_string_if_any(rest)?;
    Ok((Body { code, parameter }, rest))
}

/// A result's body, where there is one.
pub(super) fn take_body_if_any<'m>(octets: &'m [u8]) -> Result<(Option<Body<'m>>, &'m [u8]), Left>
    ensures { Gives (λ r. (option_map body_parts r.0, r.1.now)) result (optional_at body_at octets.now) }
{
    let (is_there, rest) = take_presence(octets)?;
    if !is_there {
        return Ok((None, rest));
    }
    let (body, rest) = take_body(rest)?;
    Ok((Some(body), rest))
}

// ---- what an octet stands for

/// An operation class, 1 to 4.
pub(super) fn take_class(octets: &[u8]) -> Result<(Class, &[u8]), Left>
    ensures { Gives (λ r. (r.0, r.1.now)) result (class_at octets.now) }
{
    match octets {
        [] => Err(0),
        [1, rest @ ..] => Ok((Class::One, rest)),
        [2, rest @ ..] => Ok((Class::Two, rest)),
        [3, rest @ ..] => Ok((Class::Three, rest)),
        [4, rest @ ..] => Ok((Class::Four, rest)),
        [_, ..] => Err(octets.len()),
    }
}

/// The kind of a problem, 0 to 3.
fn take_kind(octets: &[u8]) -> Result<(Kind, &[u8]), Left>
    ensures { Gives (λ r. (r.0, r.1.now)) result (kind_at octets.now) }
{
    match octets {
        [] => Err(0),
        [0, rest @ ..] => Ok((Kind::General, rest)),
        [1, rest @ ..] => Ok((Kind::Invoke, rest)),
        [2, rest @ ..] => Ok((Kind::Result, rest)),
        [3, rest @ ..] => Ok((Kind::Error, rest)),
        [_, ..] => Err(octets.len()),
    }
}

/// A problem: its kind and its code, at most 127.
#[tactic(auto, unfolding(crate::specs::Parts::problem_at))]
pub(super) fn take_problem(octets: &[u8]) -> Result<(Problem, &[u8]), Left>
    ensures { Gives (λ r. (problem_parts r.0, r.1.now)) result (problem_at octets.now) }
{
    let (kind, rest) = take_kind(octets)?;
    let (code, after) = take_octet(rest)?;
    match Problem::new(kind, code) {
        Some(problem) => Ok((problem, after)),
        None => Err(rest.len()),
    }
}

/// How a dialogue ends, 0 or 1.
pub(super) fn take_ending(octets: &[u8]) -> Result<(Ending, &[u8]), Left>
    ensures { Gives (λ r. (ending_view r.0, r.1.now)) result (ending_at octets.now) }
{
    match octets {
        [] => Err(0),
        [0, rest @ ..] => Ok((Ending::Basic, rest)),
        [1, rest @ ..] => Ok((Ending::Prearranged, rest)),
        [_, ..] => Err(octets.len()),
    }
}

/// Why the user aborts, 0 or 1.
pub(super) fn take_why(octets: &[u8]) -> Result<(AbortWhy, &[u8]), Left>
    ensures { Gives (λ r. (reason_view r.0, r.1.now)) result (reason_at octets.now) }
{
    match octets {
        [] => Err(0),
        [0, rest @ ..] => Ok((AbortWhy::User, rest)),
        [1, rest @ ..] => Ok((AbortWhy::NotSupported, rest)),
        [_, ..] => Err(octets.len()),
    }
}

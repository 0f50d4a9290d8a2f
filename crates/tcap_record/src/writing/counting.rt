//! Whether the parts of an event have few enough octets, and how many a part takes in a record.

ghost use Rattle.std.specs.Prelude.{◌≡◌, ◌≤◌, ◌<◌, ◌+◌, ◌^◌, ◌&&◌, IsTrue, length, option_copied};
ghost use Rattle.std.specs.Option.{option_map};
ghost use Rattle.tcap_component.specs.Views.{body_parts, code_parts};
ghost use Rattle.tcap_record.specs.Parts.{body, code, identifier, octet_string, optional};
ghost use Rattle.tcap_record.specs.Records.{is_counted, is_counted_body, is_counted_code, is_counted_if_any};

use tcap_component::{Body, Code};

/// The most octets of one part of an event: their number has four octets (our own).
const MOST_OCTETS: usize = 4_294_967_295;

// ---- whether there are few enough

/// Whether the number of these octets fits four octets.
pub(super) fn is_counted(octets: &[u8]) -> bool
    ensures { result ≡ is_counted octets.now }
{
    octets.len() <= MOST_OCTETS
}

/// Whether the number of octets that may be missing fits four octets.
pub(super) fn is_counted_if_any(octets: Option<&[u8]>) -> bool
    ensures { result ≡ is_counted_if_any (option_copied octets.entry) }
{
    match octets {
        Some(octets) => is_counted(octets),
        None => true,
    }
}

/// Whether the number of the octets of a code fits four octets.
pub(super) fn is_counted_code(code: &Code<'_>) -> bool
    ensures { result ≡ is_counted_code (code_parts code.now) }
{
    match code {
        Code::Local(_) => true,
        Code::Global(octets) => is_counted(octets),
    }
}

/// Whether the numbers of octets of a code and of a parameter fit.
pub(super) fn is_counted_coded(code: &Code<'_>, parameter: Option<&[u8]>) -> bool
    ensures { result ≡ (is_counted_code (code_parts code.now) && is_counted_if_any (option_copied parameter.entry)) }
{
    is_counted_code(code) && is_counted_if_any(parameter)
}

/// Whether those of a body that may be missing fit.
pub(super) fn is_counted_body(body: Option<Body<'_>>) -> bool
    ensures { result ≡ is_counted_body (option_map body_parts body.entry) }
{
    match body {
        Some(body) => is_counted_coded(&body.code, body.parameter),
        None => true,
    }
}

/// Whether those of a context that may be missing and of user information fit.
pub(super) fn is_counted_portion(context: Option<&[u8]>, info: &[u8]) -> bool
    ensures { result ≡ (is_counted_if_any (option_copied context.entry) && is_counted info.now) }
{
    is_counted_if_any(context) && is_counted(info)
}

// ---- how many octets a part takes

/// How many octets octets take behind their number.
pub(super) fn string_len(octets: &[u8]) -> usize
    requires { IsTrue (is_counted octets.now) }
    ensures value { result ≡ length (octet_string octets.now) }
    ensures within { result < 2 ^ 33 }
{
    4 + octets.len()
}

/// How many octets octets that may be missing take behind their number.
pub(super) fn string_if_any_len(octets: Option<&[u8]>) -> usize
    requires { IsTrue (is_counted_if_any (option_copied octets)) }
    ensures value { result ≡ length (optional octet_string (option_copied octets.entry)) }
    ensures within { result < 2 ^ 34 }
{
    match octets {
        Some(octets) => 1 + string_len(octets),
        None => 1,
    }
}

/// How many octets an identifier takes that may be missing.
pub(super) fn identifier_if_any_len(id: Option<i8>) -> usize
    ensures value { result ≡ length (optional identifier id) }
    ensures within { result ≤ 2 }
{
    if id.is_some() { 2 } else { 1 }
}

/// How many octets a code takes.
pub(super) fn code_len(given: &Code<'_>) -> usize
    requires { IsTrue (is_counted_code (code_parts given.now)) }
    ensures value { result ≡ length (code (code_parts given.now)) }
    ensures within { result < 2 ^ 34 }
{
    match given {
        Code::Local(_) => 5,
        Code::Global(octets) => 1 + string_len(octets),
    }
}

/// How many octets a code and a parameter take.
pub(super) fn coded_len(given: &Code<'_>, parameter: Option<&[u8]>) -> usize
    requires code { IsTrue (is_counted_code (code_parts given.now)) }
    requires parameter { IsTrue (is_counted_if_any (option_copied parameter)) }
    ensures value { result ≡ length (code (code_parts given.now))
        + length (optional octet_string (option_copied parameter.entry)) }
    ensures within { result < 2 ^ 35 }
{
    code_len(given) + string_if_any_len(parameter)
}

/// How many octets a body takes that may be missing.
pub(super) fn body_len(given: Option<Body<'_>>) -> usize
    requires { IsTrue (is_counted_body (option_map body_parts given)) }
    ensures value { result ≡ length (optional body (option_map body_parts given.entry)) }
    ensures within { result < 2 ^ 36 }
{
    match given {
        Some(given) => 1 + coded_len(&given.code, given.parameter),
        None => 1,
    }
}

/// How many octets a context that may be missing and user information take.
pub(super) fn portion_len(context: Option<&[u8]>, info: &[u8]) -> usize
    requires context { IsTrue (is_counted_if_any (option_copied context)) }
    requires info { IsTrue (is_counted info.now) }
    ensures value { result ≡ length (optional octet_string (option_copied context.entry))
        + length (octet_string info.now) }
    ensures within { result < 2 ^ 35 }
{
    string_if_any_len(context) + string_len(info)
}

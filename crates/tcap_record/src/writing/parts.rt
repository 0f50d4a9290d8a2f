//! The parts of events appended to a vector that has room for them: no memory is taken.

ghost use Rattle.std.specs.Prelude.{◌≡◌, ◌+◌, ◌≤◌, ◌++◌, IsTrue, length, option_copied, vec_capacity, vec_len};
ghost use Rattle.std.specs.Option.{option_map};
ghost use Rattle.tcap_component.specs.Views.{body_parts, code_parts, problem_parts};
ghost use Rattle.tcap_primitives.specs.RequestViews.{ending_view, reason_view};
ghost use Rattle.tcap_record.specs.Parts.{address, body, class, code, ending, identifier, long, octet_string, optional, problem, reason, short, class_octet, kind_octet};
ghost use Rattle.tcap_record.specs.Records.{is_counted, is_counted_body, is_counted_code, is_counted_if_any};

use std::alloc::Allocator;
use tcap_address::Address;
use tcap_component::{Body, Code, Kind, Problem};
use tcap_invocation::Class;
use tcap_primitives::{AbortWhy, Ending};

/// Appends a number of four octets.
pub(super) fn put_short<A: Allocator + Copy>(out: &mut Vec<u8, A>, number: u32)
    requires { vec_len out.old + length (short number) ≤ vec_capacity out.old }
    ensures items { out.new.items ≡ out.old.items ++ short number }
    ensures capacity { vec_capacity out.old ≤ vec_capacity out.new }
{
    out.extend_from_slice(&number.to_be_bytes()).unwrap();
}

/// Appends a number of eight octets.
pub(super) fn put_long<A: Allocator + Copy>(out: &mut Vec<u8, A>, number: u64)
    requires { vec_len out.old + length (long number) ≤ vec_capacity out.old }
    ensures items { out.new.items ≡ out.old.items ++ long number }
    ensures capacity { vec_capacity out.old ≤ vec_capacity out.new }
{
    out.extend_from_slice(&number.to_be_bytes()).unwrap();
}

/// Appends octets behind their number.
pub(super) fn put_string<A: Allocator + Copy>(out: &mut Vec<u8, A>, octets: &[u8])
    requires counted { IsTrue (is_counted octets.now) }
    requires room { vec_len out.old + length (octet_string octets.now) ≤ vec_capacity out.old }
    ensures items { out.new.items ≡ out.old.items ++ octet_string octets.now }
    ensures capacity { vec_capacity out.old ≤ vec_capacity out.new }
{
    put_short(out, octets.len() as u32);
    out.extend_from_slice(octets).unwrap();
}

/// Appends an address behind how many octets it has.
pub(super) fn put_address<A: Allocator + Copy>(out: &mut Vec<u8, A>, given: &Address)
    requires { vec_len out.old + length (address given.now) ≤ vec_capacity out.old }
    ensures items { out.new.items ≡ out.old.items ++ address given.now }
    ensures capacity { vec_capacity out.old ≤ vec_capacity out.new }
{
    let octets = given.octets();
    out.push_reserved(octets.len() as u8);
    out.extend_from_slice(octets).unwrap();
}

/// Appends an invoke identifier.
pub(super) fn put_identifier<A: Allocator + Copy>(out: &mut Vec<u8, A>, id: i8)
    requires { vec_len out.old + length (identifier id) ≤ vec_capacity out.old }
    ensures items { out.new.items ≡ out.old.items ++ identifier id }
    ensures capacity { vec_capacity out.old ≤ vec_capacity out.new }
{
    out.push_reserved(id.cast_unsigned());
}

// ---- what may be missing

/// Appends octets that may be missing.
pub(super) fn put_string_if_any<A: Allocator + Copy>(out: &mut Vec<u8, A>, octets: Option<&[u8]>)
    requires counted { IsTrue (is_counted_if_any (option_copied octets)) }
    requires room { vec_len out.old + length (optional octet_string (option_copied octets)) ≤ vec_capacity out.old }
    ensures items { out.new.items ≡ out.old.items ++ optional octet_string (option_copied octets.entry) }
    ensures capacity { vec_capacity out.old ≤ vec_capacity out.new }
{
    match octets {
        Some(octets) => {
            out.push_reserved(1);
            put_string(out, octets);
        }
        None => out.push_reserved(0),
    }
}

/// Appends an identifier that may be missing.
pub(super) fn put_identifier_if_any<A: Allocator + Copy>(out: &mut Vec<u8, A>, id: Option<i8>)
    requires { vec_len out.old + length (optional identifier id) ≤ vec_capacity out.old }
    ensures items { out.new.items ≡ out.old.items ++ optional identifier id }
    ensures capacity { vec_capacity out.old ≤ vec_capacity out.new }
{
    match id {
        Some(id) => {
            out.push_reserved(1);
            put_identifier(out, id);
        }
        None => out.push_reserved(0),
    }
}

// ---- codes

/// Appends a code.
pub(super) fn put_code<A: Allocator + Copy>(out: &mut Vec<u8, A>, given: &Code<'_>)
    requires counted { IsTrue (is_counted_code (code_parts given.now)) }
    requires room { vec_len out.old + length (code (code_parts given.now)) ≤ vec_capacity out.old }
    ensures items { out.new.items ≡ out.old.items ++ code (code_parts given.now) }
    ensures capacity { vec_capacity out.old ≤ vec_capacity out.new }
{
    match given {
        Code::Local(number) => {
            out.push_reserved(0);
            put_short(out, number.cast_unsigned());
        }
        Code::Global(octets) => {
            out.push_reserved(1);
            put_string(out, octets);
        }
    }
}

/// Appends a body that may be missing.
pub(super) fn put_body<A: Allocator + Copy>(out: &mut Vec<u8, A>, given: Option<Body<'_>>)
    requires counted { IsTrue (is_counted_body (option_map body_parts given)) }
    requires room { vec_len out.old + length (optional body (option_map body_parts given)) ≤ vec_capacity out.old }
    ensures items { out.new.items ≡ out.old.items ++ optional body (option_map body_parts given.entry) }
    ensures capacity { vec_capacity out.old ≤ vec_capacity out.new }
{
    match given {
        Some(given) => {
            out.push_reserved(1);
            put_code(out, &given.code);
            put_string_if_any(out, given.parameter);
        }
        None => out.push_reserved(0),
    }
}

// ---- what an octet stands for

/// The octet of an operation class.
fn class_octet(given: Class) -> u8
    ensures { result ≡ class_octet given }
{
    match given {
        Class::One => 1,
        Class::Two => 2,
        Class::Three => 3,
        Class::Four => 4,
    }
}

/// Appends an operation class.
pub(super) fn put_class<A: Allocator + Copy>(out: &mut Vec<u8, A>, given: Class)
    requires { vec_len out.old + length (class given) ≤ vec_capacity out.old }
    ensures items { out.new.items ≡ out.old.items ++ class given }
    ensures capacity { vec_capacity out.old ≤ vec_capacity out.new }
{
    out.push_reserved(class_octet(given));
}

/// The octet of the kind of a problem.
fn kind_octet(given: Kind) -> u8
    ensures { result ≡ kind_octet given }
{
    match given {
        Kind::General => 0,
        Kind::Invoke => 1,
        Kind::Result => 2,
        Kind::Error => 3,
    }
}

/// Appends a problem.
pub(super) fn put_problem<A: Allocator + Copy>(out: &mut Vec<u8, A>, given: Problem)
    requires { vec_len out.old + length (problem (problem_parts given)) ≤ vec_capacity out.old }
    ensures items { out.new.items ≡ out.old.items ++ problem (problem_parts given) }
    ensures capacity { vec_capacity out.old ≤ vec_capacity out.new }
{
    out.push_reserved(kind_octet(given.kind()));
    out.push_reserved(given.code());
}

/// Appends how a dialogue ends.
pub(super) fn put_ending<A: Allocator + Copy>(out: &mut Vec<u8, A>, given: Ending)
    requires { vec_len out.old + length (ending (ending_view given)) ≤ vec_capacity out.old }
    ensures items { out.new.items ≡ out.old.items ++ ending (ending_view given) }
    ensures capacity { vec_capacity out.old ≤ vec_capacity out.new }
{
    out.push_reserved(match given {
        Ending::Basic => 0,
        Ending::Prearranged => 1,
    });
}

/// Appends why the user aborts.
pub(super) fn put_why<A: Allocator + Copy>(out: &mut Vec<u8, A>, given: AbortWhy)
    requires { vec_len out.old + length (reason (reason_view given)) ≤ vec_capacity out.old }
    ensures items { out.new.items ≡ out.old.items ++ reason (reason_view given) }
    ensures capacity { vec_capacity out.old ≤ vec_capacity out.new }
{
    out.push_reserved(match given {
        AbortWhy::User => 0,
        AbortWhy::NotSupported => 1,
    });
}

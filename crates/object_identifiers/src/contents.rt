//! The contents octets of arcs (X.690, Encoding of an object identifier value).

ghost use Rattle.std.specs.Prelude.{◌≡◌, ◌≤◌, ◌*◌, ◌++◌, ◌∷◌, [], length, option_map};
ghost use Rattle.std.specs.List.{flat_map};
ghost use Rattle.ber_core.specs.Results.{Gives};
ghost use Rattle.object_identifiers.specs.Contents.{contents_at, first_arc, first_number_of, fitting, number_with, numbers_at, numbers_from, subidentifier};

use crate::fault::ObjectIdentifierFault;
use arrayvec::ArrayVec;
use ber_core::is_oid;

/// The greatest number of contents octets: what `is_oid` takes.
pub(crate) const MAX_OCTETS: usize = 255;

/// Contents octets.
pub(crate) type Octets = ArrayVec<u8, MAX_OCTETS>;

/// The numbers of subidentifiers, at most one for each octet.
pub(crate) type Numbers = ArrayVec<u32, MAX_OCTETS>;

/// Adds octets, where they are no more than the limit then.
fn add_octets(octets: &mut Octets, more: &[u8]) -> Result<(), ObjectIdentifierFault>
    ensures { Gives (λ _. octets.new.items) result (fitting (octets.old.items ++ more.now)) }
{
    match octets.try_extend_from_slice(more) {
        Ok(()) => Ok(()),
        Err(_) => Err(ObjectIdentifierFault::TooLong),
    }
}

/// Adds the subidentifier of a number: seven bits an octet, bit 8 set in all but the last.
fn add_subidentifier(octets: &mut Octets, number: u32) -> Result<(), ObjectIdentifierFault>
    ensures { Gives (λ _. octets.new.items) result (fitting (octets.old.items ++ subidentifier number)) }
{
    let mut series = [0u8; 5];
    let mut first = 4;
    series[first] = (number % 128) as u8;
    let mut rest = number / 128;
    while rest > 0 {
        first -= 1;
        series[first] = 128 + (rest % 128) as u8;
        rest /= 128;
    }
    add_octets(octets, &series[first..])
}

/// The number in which the first two arcs stand.
fn first_number(first: u32, second: u32) -> Result<u32, ObjectIdentifierFault>
    ensures { Gives (λ n. n) result (first_number_of first second) }
{
    if first > 2 {
        return Err(ObjectIdentifierFault::FirstArc);
    }
    if first < 2 && second > 39 {
        return Err(ObjectIdentifierFault::SecondArc);
    }
    (first * 40)
        .checked_add(second)
        .ok_or(ObjectIdentifierFault::ArcTooLarge)
}

/// Adds the subidentifiers of numbers, one after the other.
fn add_subidentifiers(octets: &mut Octets, numbers: &[u32]) -> Result<(), ObjectIdentifierFault>
    requires { length octets.old.items ≤ 255 }
    ensures { Gives (λ _. octets.new.items) result (fitting (octets.old.items ++ flat_map subidentifier numbers.now)) }
{
    for number in numbers {
        add_subidentifier(octets, *number)?;
    }
    Ok(())
}

/// The contents octets of the first two arcs and those behind them.
#[tactic(auto, unfolding(crate::specs::Contents::contents_at))]
fn octets_of_arcs(first: u32, second: u32, more: &[u32]) -> Result<Octets, ObjectIdentifierFault>
    ensures { Gives (λ octets. octets.items) result (contents_at (first ∷ second ∷ more.now)) }
{
    let mut octets = Octets::new();
    add_subidentifier(&mut octets, first_number(first, second)?)?;
    add_subidentifiers(&mut octets, more)?;
    Ok(octets)
}

/// The contents octets of arcs.
#[tactic(auto, unfolding(crate::specs::Contents::contents_at))]
pub(crate) fn written_octets(arcs: &[u32]) -> Result<Octets, ObjectIdentifierFault>
    ensures { Gives (λ octets. octets.items) result (contents_at arcs.now) }
{
    let Some((first, behind)) = arcs.split_first() else {
        return Err(ObjectIdentifierFault::TooFewArcs);
    };
    let Some((second, more)) = behind.split_first() else {
        return Err(ObjectIdentifierFault::TooFewArcs);
    };
    octets_of_arcs(*first, *second, more)
}

/// The first arc that the first number has in it, 0 to 2.
pub(crate) fn first_arc(number: u32) -> u32
    ensures value { result ≡ first_arc number }
    ensures within { result * 40 ≤ number }
    ensures least { result ≤ 2 }
{
    (number / 40).min(2)
}

/// The number so far with the seven bits of an octet after it.
fn with_octet(number: u32, octet: u8) -> Option<u32>
    ensures { result ≡ number_with number octet }
{
    u32::try_from(u64::from(number) * 128 + u64::from(octet % 128)).ok()
}

/// The numbers of subidentifiers, one after the other.
fn numbers_of(octets: &[u8]) -> Option<Numbers>
    requires { length octets.now ≤ 255 }
    ensures { option_map (λ numbers. numbers.items) result ≡ numbers_from [] 0 octets.now }
{
    let mut numbers = Numbers::new();
    let mut number = 0u32;
    for octet in octets {
        number = with_octet(number, *octet)?;
        if *octet < 128 {
            numbers.push(number);
            number = 0;
        }
    }
    Some(numbers)
}

/// The numbers of the subidentifiers of contents octets; `None` where they are none, or one has a number
/// above 4,294,967,295.
#[tactic(auto, unfolding(crate::specs::Contents::numbers_at))]
pub(crate) fn read_numbers(octets: &[u8]) -> Option<Numbers>
    ensures { option_map (λ numbers. numbers.items) result ≡ numbers_at octets.now }
{
    if !is_oid(octets) {
        return None;
    }
    numbers_of(octets)
}

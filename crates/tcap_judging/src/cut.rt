//! The lines of an input that comes in pieces.

ghost use Rattle.std.specs.Prelude.{◌≡◌, ◌<◌, ◌≤◌, ◌+◌, ◌^◌, ◌++◌, ◌∷◌, List, [], ℕ, false, true, length, IfOk, OnOk, IfSome, MatchOption, string_bytes};
ghost use Rattle.tcap_judging.specs.Entry.{line};
ghost use Rattle.tcap_judging.specs.EntryText.{entry_text, is_good_entry};
ghost use Rattle.tcap_judging.specs.Lines.{is_one_line, line_feed};
ghost use Rattle.tcap_judging.specs.LineViews.{IsUnderWay};
ghost use Rattle.tcap_judging.specs.LineSteps.{Adds};
ghost use Rattle.tcap_judging.specs.NameViews.{form_view};

use crate::form::Form;
use crate::naming::Naming;
use crate::under_way::{add_kept, keep};
use ber_core::OutOfMemory;
use std::alloc::Allocator;

/// The line that is under way: its octets so far, or none where it is too long, and its number, counted from 1.
#[derive(Drop)]
pub(crate) struct Begun<A: Allocator + Copy> {
    pub(crate) kept: Vec<u8, A>,
    pub(crate) is_long: bool,
    pub(crate) number: u64,
}

/// The octets before the first line feed, and those behind it; None where there is none.
pub(crate) fn first_line(octets: &[u8]) -> Option<(&[u8], &[u8])>
    ensures cut { MatchOption result (is_one_line octets.now ≡ true) (λ p. (octets.now
        ≡ p.0.now ++ (line_feed ∷ p.1.now)) × (is_one_line p.0.now ≡ true)) }
    ensures shorter { IfSome result (λ p. length p.1.now < length octets.now) }
{
    let place = octets.iter().position(|&octet| octet == b'\n')?;
    Some((&octets[..place], &octets[place + 1..]))
}

/// Adds what is printed for the line that ends behind these octets, and begins the next. Tells whether it is good.
fn end_line<A: Allocator + Copy>(
    alloc: A,
    form: Form<'_>,
    naming: Naming,
    text: &mut String<A>,
    begun: &mut Begun<A>,
    octets: &[u8],
) -> Result<bool, OutOfMemory>
    requires { begun.old.number + 1 < 2 ^ 64 }
    ensures text { (before : List ℕ) → IsUnderWay before begun.old.kept.items begun.old.is_long
        → OnOk result (string_bytes text.new ≡ string_bytes text.old
        ++ entry_text (form_view form.entry) (line naming begun.old.number (before ++ octets.now))) }
    ensures good { (before : List ℕ) → IsUnderWay before begun.old.kept.items begun.old.is_long
        → IfOk result (λ good. good ≡ is_good_entry (line naming begun.old.number (before ++ octets.now))) }
    ensures next { OnOk result ((begun.new.kept.items ≡ []) × (begun.new.is_long ≡ false)
        × (begun.new.number ≡ begun.old.number + 1)) }
{
    let is_long = keep(&mut begun.kept, begun.is_long, octets)?;
    let good = add_kept(
        alloc,
        form,
        naming,
        text,
        begun.number,
        begun.kept.as_slice(),
        is_long,
    )?;
    begun.kept.clear();
    begun.is_long = false;
    begun.number += 1;
    Ok(good)
}

/// Takes a piece of the input: adds what is printed for each line that ends in it, and keeps what is left. Tells
/// whether all of these lines are good.
pub(crate) fn take_piece<A: Allocator + Copy>(
    alloc: A,
    form: Form<'_>,
    naming: Naming,
    text: &mut String<A>,
    begun: &mut Begun<A>,
    piece: &[u8],
) -> Result<bool, OutOfMemory>
    requires { begun.old.number + length piece.now < 2 ^ 64 }
    ensures adds { (before : List ℕ) → IsUnderWay before begun.old.kept.items begun.old.is_long
        → IfOk result (λ good. Adds (form_view form.entry) naming before piece.now begun.old.number
        begun.new.kept.items begun.new.is_long begun.new.number (string_bytes text.old) (string_bytes text.new) good) }
    ensures number { OnOk result (begun.new.number ≤ begun.old.number + length piece.now) }
{
    let mut good = true;
    let mut rest = piece;
    while let Some((line, after)) = first_line(rest) {
        good &= end_line(alloc, form, naming, text, begun, line)?;
        rest = after;
    }
    begun.is_long = keep(&mut begun.kept, begun.is_long, rest)?;
    Ok(good)
}

//! The line that is under way.

ghost use Rattle.std.specs.Prelude.{◌≡◌, ◌++◌, List, ℕ, IfOk, OnOk, string_bytes};
ghost use Rattle.tcap_judging.specs.Entry.{line};
ghost use Rattle.tcap_judging.specs.EntryText.{entry_text, is_good_entry};
ghost use Rattle.tcap_judging.specs.LineViews.{AreKept, IsWithin};
ghost use Rattle.tcap_judging.specs.NameViews.{form_view};

use crate::bad_line::BadLine;
use crate::form::Form;
use crate::line_text::{add_bad_line, add_line};
use crate::naming::Naming;
use ber_core::OutOfMemory;
use std::alloc::Allocator;

/// The longest line, in octets, without its line feed.
const LONGEST: usize = 200_000;

/// Keeps the octets that follow those of a line. Tells whether the line is too long: then none are kept.
pub(crate) fn keep<A: Allocator + Copy>(
    kept: &mut Vec<u8, A>,
    is_long: bool,
    more: &[u8],
) -> Result<bool, OutOfMemory>
    ensures keeps { (octets : List ℕ) → AreKept octets kept.old.items is_long
        → IfOk result (λ long. AreKept (octets ++ more.now) kept.new.items long) }
    ensures within { IfOk result (λ long. IsWithin kept.new.items long) }
{
    if is_long || kept.len() + more.len() > LONGEST {
        kept.clear();
        return Ok(true);
    }
    kept.extend_from_slice(more)?;
    Ok(false)
}

/// Adds what is printed for a line of this number, of which these octets are kept, and tells whether it is good.
pub(crate) fn add_kept<A: Allocator + Copy>(
    alloc: A,
    form: Form<'_>,
    naming: Naming,
    text: &mut String<A>,
    number: u64,
    kept: &[u8],
    is_long: bool,
) -> Result<bool, OutOfMemory>
    requires { IsWithin kept.now is_long }
    ensures text { (octets : List ℕ) → AreKept octets kept.now is_long
        → OnOk result (string_bytes text.new ≡ string_bytes text.old
        ++ entry_text (form_view form.entry) (line naming number octets)) }
    ensures good { (octets : List ℕ) → AreKept octets kept.now is_long
        → IfOk result (λ good. good ≡ is_good_entry (line naming number octets)) }
{
    if is_long {
        add_bad_line(form.layout, text, number, BadLine::TooLong)?;
        return Ok(false);
    }
    add_line(alloc, form, naming, text, number, kept)
}

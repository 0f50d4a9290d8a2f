//! The application context name and the user information of a received AARQ or AUDT.

ghost use Rattle.std.specs.Prelude.{◌≡◌, ℕ, Option, option_copied};
ghost use Rattle.ber_core.specs.Place.{Slice};
ghost use Rattle.tcap_primitives.specs.Slices.{PartsLieIn};
ghost use Rattle.tcap_reception.specs.PortionParts.{GivenIn, context_of_portion, context_slice, info_of_portion};

/// The context and the information of an AARQ or an AUDT, empty where there is none.
// Inlined: each Begin and each Unidirectional that is received runs through it; docs/PERF.md says what the whole of a
// step inlined gains.
#[inline(always)]
pub(super) fn parts_of<'m>(pdu: Option<(&'m [u8], &'m [u8])>) -> (Option<&'m [u8]>, &'m [u8])
    ensures context { result.0 ≡ context_slice pdu.entry }
    ensures given { option_copied result.0 ≡ context_of_portion pdu.entry }
    ensures info { result.1.now ≡ info_of_portion pdu.entry }
    ensures place { (tag : ℕ) (portion : Option Slice) → GivenIn tag pdu.entry portion
        → PartsLieIn tag result.0 result.1 portion }
{
    match pdu {
        None => (None, &[]),
        Some((context, info)) => (Some(context), info),
    }
}

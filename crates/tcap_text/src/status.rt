//! The status of a verdict.

ghost use Rattle.std.specs.Prelude.{◌≡◌};
ghost use Rattle.tcap_text.specs.Status.{verdict_status};

/// The status of a good verdict.
const GOOD: u8 = 0;
/// The status of any other verdict.
const FAULTY: u8 = 1;

/// The status of a run that came to a verdict: 0 where it is good, 1 where it isn't.
pub fn verdict_status(good: bool) -> u8
    ensures { result ≡ verdict_status good }
{
    match good {
        true => GOOD,
        false => FAULTY,
    }
}

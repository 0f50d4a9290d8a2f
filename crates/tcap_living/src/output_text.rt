//! The line of an output.

ghost use Rattle.std.specs.Prelude.{◌≡◌, ◌++◌, OnOk, string_bytes};
ghost use Rattle.tcap_primitives.specs.OutputViews.{shown};
ghost use Rattle.tcap_living.specs.LiveText.{numbered, output_words};

use ber_core::OutOfMemory;
use std::alloc::Allocator;
use tcap_engine::Output;
use tcap_play::output_text::{add_closing, add_component, add_dialogue, drop_text};
use tcap_text::{add_decimal, add_hex, add_octets_or_dash};

/// Adds the words of an output.
fn add_words<A: Allocator + Copy>(
    text: &mut String<A>,
    output: &Output<'_, A>,
) -> Result<(), OutOfMemory>
    ensures { OnOk result (string_bytes text.new ≡ string_bytes text.old ++ output_words (shown output.now)) }
{
    match output {
        Output::Send { to, bytes } => {
            text.push_str("send ")?;
            add_octets_or_dash(text, to.octets())?;
            text.push_str(" ")?;
            add_hex(text, bytes)
        }
        Output::Uni { .. } | Output::Begin { .. } | Output::Continue { .. } | Output::End { .. } =>
            { add_dialogue(text, output) }
        Output::UAbort { .. } | Output::PAbort { .. } => add_dialogue(text, output),
        Output::Invoked { .. } | Output::ResultMore { .. } => add_component(text, output),
        Output::LocalReject { .. } | Output::RemoteReject { .. } => add_component(text, output),
        Output::ResultLast { .. } | Output::ErrorBack { .. } => add_closing(text, output),
        Output::Rejected { .. } | Output::Lapsed { .. } | Output::Ended { .. } => {
            add_closing(text, output)
        }
        Output::Dropped(why) => {
            text.push_str("dropped ")?;
            Ok(text.push_str(drop_text(*why))?)
        }
    }
}

/// Adds the line of an output, in the answer to the line with this number.
pub(crate) fn add_output<A: Allocator + Copy>(
    text: &mut String<A>,
    number: u64,
    output: &Output<'_, A>,
) -> Result<(), OutOfMemory>
    ensures { OnOk result (string_bytes text.new ≡ string_bytes text.old
        ++ numbered number (output_words (shown output.now))) }
{
    add_decimal(text, number)?;
    text.push_str(" ")?;
    add_words(text, output)?;
    text.push_str("\n")?;
    Ok(())
}

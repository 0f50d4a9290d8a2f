//! The object of an output, in JSON.

mod closings;
mod components;
mod dialogues;

ghost use Rattle.std.specs.Prelude.{◌≡◌, ◌++◌, OnOk, string_bytes};
ghost use Rattle.tcap_primitives.specs.OutputViews.{drop_view, shown};
ghost use Rattle.tcap_living.specs.JsonText.{json_dropped, json_members, json_output, json_send};

use crate::json_values::{add_between, add_member, add_octets_member};
use ber_core::OutOfMemory;
use closings::add_closing;
use components::add_component;
use dialogues::add_dialogue;
use std::alloc::Allocator;
use tcap_engine::{Address, DropWhy, Output};
use tcap_play::output_text::drop_text;

/// Adds what is sent, and where it goes.
fn add_send<A: Allocator + Copy>(
    text: &mut String<A>,
    to: &Address,
    bytes: &[u8],
) -> Result<(), OutOfMemory>
    ensures { OnOk result (string_bytes text.new ≡ string_bytes text.old ++ json_send to.now bytes.now) }
{
    add_octets_member(text, "send\",\"to\":", to.octets())?;
    add_octets_member(text, ",\"octets\":", bytes)
}

/// Adds why a message is dropped.
fn add_dropped<A: Allocator + Copy>(text: &mut String<A>, why: DropWhy) -> Result<(), OutOfMemory>
    ensures { OnOk result (string_bytes text.new ≡ string_bytes text.old ++ json_dropped (drop_view why)) }
{
    add_between(text, "dropped\",\"why\":\"", drop_text(why), "\"")
}

/// Adds the members of an output.
fn add_members<A: Allocator + Copy>(
    text: &mut String<A>,
    output: &Output<'_, A>,
) -> Result<(), OutOfMemory>
    ensures { OnOk result (string_bytes text.new ≡ string_bytes text.old ++ json_members (shown output.now)) }
{
    match output {
        Output::Send { to, bytes } => add_send(text, to, bytes),
        Output::Uni { .. } | Output::Begin { .. } | Output::Continue { .. } | Output::End { .. } =>
            { add_dialogue(text, output) }
        Output::UAbort { .. } | Output::PAbort { .. } => add_dialogue(text, output),
        Output::Invoked { .. } | Output::ResultMore { .. } => add_component(text, output),
        Output::LocalReject { .. } | Output::RemoteReject { .. } => add_component(text, output),
        Output::ResultLast { .. } | Output::ErrorBack { .. } => add_closing(text, output),
        Output::Rejected { .. } | Output::Lapsed { .. } | Output::Ended { .. } => {
            add_closing(text, output)
        }
        Output::Dropped(why) => add_dropped(text, *why),
    }
}

/// Adds the object of an output, in the answer to the line with this number.
#[tactic(auto, unfolding(crate::specs::JsonText::json_output))]
pub(crate) fn add_json_output<A: Allocator + Copy>(
    text: &mut String<A>,
    number: u64,
    output: &Output<'_, A>,
) -> Result<(), OutOfMemory>
    ensures { OnOk result (string_bytes text.new ≡ string_bytes text.old ++ json_output number (shown output.now)) }
{
    add_member(text, "{\"line\":", number)?;
    text.push_str(",\"output\":\"")?;
    add_members(text, output)?;
    Ok(text.push_str("}\n")?)
}

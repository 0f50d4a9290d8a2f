//! The lines of a message's identifiers and portions.
//!
//! A private function that is refused memory leaves some of its lines behind the text that was there, and the
//! public one that calls it cuts them off.

ghost use Rattle.std.specs.Prelude.{◌≡◌, ◌++◌, OnOk, OnErr, IfOk, string_bytes, option_copied};
ghost use Rattle.tcap_component.specs.ComponentReading.{components_of};
ghost use Rattle.tcap_component.specs.Views.{item_view};
ghost use Rattle.tcap_words.specs.Text.{BeginsWith, inner_line};
ghost use Rattle.tcap_words.specs.ComponentText.{item_words};
ghost use Rattle.tcap_words.specs.Verdict.{is_good, components_verdict, portions_verdict};
ghost use Rattle.tcap_words.specs.Show.{origin_line, destination_line, dialogue_lines, item_lines, component_lines, portion_lines};

use crate::component_text::{add_component, add_fault};
use crate::dialogue_text::add_portion;
use crate::judge::has_good_portion;
use crate::text::{add_number, add_octets, cut_back};
use ber_core::OutOfMemory;
use std::alloc::Allocator;
use tcap_component::{Component, ComponentFault, Components};
use tcap_pdu::TransId;

/// Adds the line of an originating transaction identifier. Where memory is refused, the text is as before.
pub fn add_origin<A: Allocator + Copy>(
    text: &mut String<A>,
    id: &TransId,
) -> Result<(), OutOfMemory>
    ensures ok { OnOk result (string_bytes text.new ≡ string_bytes text.old ++ origin_line id.now) }
    ensures err { OnErr result (string_bytes text.new ≡ string_bytes text.old) }
{
    add_octets(text, "  otid", id.octets())
}

/// Adds the line of a destination transaction identifier. Where memory is refused, the text is as before.
pub fn add_destination<A: Allocator + Copy>(
    text: &mut String<A>,
    id: &TransId,
) -> Result<(), OutOfMemory>
    ensures ok { OnOk result (string_bytes text.new ≡ string_bytes text.old ++ destination_line id.now) }
    ensures err { OnErr result (string_bytes text.new ≡ string_bytes text.old) }
{
    add_octets(text, "  dtid", id.octets())
}

/// Adds the lines of a dialogue portion, where there is one, one by one.
fn add_dialogue_lines<A: Allocator + Copy>(
    text: &mut String<A>,
    dialogue: Option<&[u8]>,
) -> Result<(), OutOfMemory>
    ensures ok { OnOk result (string_bytes text.new ≡ string_bytes text.old
        ++ dialogue_lines (option_copied dialogue.entry)) }
    ensures kept { OnErr result (BeginsWith (string_bytes text.old) (string_bytes text.new)) }
{
    match dialogue {
        Some(content) => {
            add_number(text, "  dialogue", content.len())?;
            add_portion(text, content)
        }
        None => Ok(()),
    }
}

/// Adds the lines of a dialogue portion, where there is one. Where memory is refused, the text is as before.
pub fn add_dialogue<A: Allocator + Copy>(
    text: &mut String<A>,
    dialogue: Option<&[u8]>,
) -> Result<(), OutOfMemory>
    ensures ok { OnOk result (string_bytes text.new ≡ string_bytes text.old
        ++ dialogue_lines (option_copied dialogue.entry)) }
    ensures err { OnErr result (string_bytes text.new ≡ string_bytes text.old) }
{
    let len = text.len();
    let added = add_dialogue_lines(text, dialogue);
    if added.is_err() {
        cut_back(text, len);
    }
    added
}

/// Adds the line of a component or of a fault.
fn add_item<A: Allocator + Copy>(
    text: &mut String<A>,
    item: &Result<Component<'_>, ComponentFault>,
) -> Result<(), OutOfMemory>
    ensures ok { OnOk result (string_bytes text.new ≡ string_bytes text.old
        ++ inner_line (item_words (item_view item.now))) }
    ensures kept { OnErr result (BeginsWith (string_bytes text.old) (string_bytes text.new)) }
{
    text.push_str("    ")?;
    match item {
        Ok(component) => add_component(text, component)?,
        Err(fault) => add_fault(text, *fault)?,
    }
    text.push_str("\n")?;
    Ok(())
}

/// Adds a line for each component up to the first fault, and one for that fault. Tells whether there
/// was no fault, so that the components needn't be read again for the verdict.
#[tactic(auto, unfolding(crate::proofs::GoodItems::good_after))]
fn add_items<A: Allocator + Copy>(
    text: &mut String<A>,
    components: &[u8],
) -> Result<bool, OutOfMemory>
    ensures text { OnOk result (string_bytes text.new ≡ string_bytes text.old
        ++ item_lines (components_of components.now)) }
    ensures good { IfOk result (λ good. good ≡ is_good (components_verdict components.now)) }
    ensures kept { OnErr result (BeginsWith (string_bytes text.old) (string_bytes text.new)) }
{
    let mut good = true;
    for item in Components::new(components) {
        add_item(text, &item)?;
        if item.is_err() {
            good = false;
        }
    }
    Ok(good)
}

/// Adds the lines of a component portion, where it has contents, and tells whether it has no fault.
fn add_components<A: Allocator + Copy>(
    text: &mut String<A>,
    components: &[u8],
) -> Result<bool, OutOfMemory>
    ensures text { OnOk result (string_bytes text.new ≡ string_bytes text.old ++ component_lines components.now) }
    ensures good { IfOk result (λ good. good ≡ is_good (components_verdict components.now)) }
    ensures kept { OnErr result (BeginsWith (string_bytes text.old) (string_bytes text.new)) }
{
    if components.is_empty() {
        return Ok(true);
    }
    add_number(text, "  components", components.len())?;
    add_items(text, components)
}

/// Adds the lines of both portions, one by one, and tells whether the components are good.
fn add_portion_lines<A: Allocator + Copy>(
    text: &mut String<A>,
    dialogue: Option<&[u8]>,
    components: &[u8],
) -> Result<bool, OutOfMemory>
    ensures text { OnOk result (string_bytes text.new ≡ string_bytes text.old
        ++ portion_lines (option_copied dialogue.entry) components.now) }
    ensures good { IfOk result (λ good. good ≡ is_good (components_verdict components.now)) }
    ensures kept { OnErr result (BeginsWith (string_bytes text.old) (string_bytes text.new)) }
{
    add_dialogue_lines(text, dialogue)?;
    add_components(text, components)
}

/// Adds the lines of both portions, and tells whether both are good. Where memory is refused, the text is as
/// before.
pub fn add_portions<A: Allocator + Copy>(
    text: &mut String<A>,
    dialogue: Option<&[u8]>,
    components: &[u8],
) -> Result<bool, OutOfMemory>
    ensures text { OnOk result (string_bytes text.new ≡ string_bytes text.old
        ++ portion_lines (option_copied dialogue.entry) components.now) }
    ensures good { IfOk result (λ good. good
        ≡ is_good (portions_verdict (option_copied dialogue.entry) components.now)) }
    ensures err { OnErr result (string_bytes text.new ≡ string_bytes text.old) }
{
    let len = text.len();
    match add_portion_lines(text, dialogue, components) {
        Ok(good) => Ok(good && has_good_portion(&dialogue)),
        Err(refused) => {
            cut_back(text, len);
            Err(refused)
        }
    }
}

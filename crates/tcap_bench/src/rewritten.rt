//! A message read and written again in the canonical form, part by part.

ghost use Rattle.std.specs.Prelude.{◌≡◌, ◌++◌, IfSome, option_copied, option_map};
ghost use Rattle.tcap_pdu.specs.FramePortions.{with_portions};
ghost use Rattle.tcap_pdu.specs.FrameSpelling.{HasCause};
ghost use Rattle.tcap_pdu.specs.FrameViews.{message};
ghost use Rattle.tcap_pdu.specs.FrameWritten.{written_frame};
ghost use Rattle.tcap_component.specs.Views.{item_view};
ghost use Rattle.tcap_bench.specs.Messages.{IsPut};
ghost use Rattle.tcap_bench.specs.Rewritten.{rewritten_item, rewritten_components, rewritten_dialogue, rewritten_message, rewritten};

use crate::written::put;
use std::alloc::Global;
use tcap_component::{Component, ComponentFault, Components, write_component};
use tcap_pdu::{Frame, read_dialogue, read_frame, write_dialogue, write_frame};

/// The contents of a dialogue portion.
fn rewrite_dialogue(alloc: Global, content: &[u8]) -> Option<Vec<u8>>
    ensures { IfSome result (λ octets. octets.items ≡ rewritten_dialogue content.now) }
{
    match read_dialogue(content) {
        Ok(pdu) => write_dialogue(alloc, &pdu).ok(),
        Err(_) => Some(Vec::new(alloc)),
    }
}

/// The canonical form of a dialogue portion, where there is one.
fn rewrite_portion(alloc: Global, dialogue: Option<&[u8]>) -> Option<Option<Vec<u8>>>
    ensures { IfSome result (λ portion. option_map (λ octets. octets.items) portion
        ≡ option_map rewritten_dialogue (option_copied dialogue.entry)) }
{
    match dialogue {
        Some(content) => Some(Some(rewrite_dialogue(alloc, content)?)),
        None => Some(None),
    }
}

/// Appends a component; of a fault it appends nothing.
fn append_item(
    alloc: Global,
    octets: &mut Vec<u8>,
    item: &Result<Component<'_>, ComponentFault>,
) -> Option<()>
    ensures { IfSome result (λ _. octets.new.items ≡ octets.old.items ++ rewritten_item (item_view item.now)) }
{
    match item {
        Ok(component) => {
            let written = write_component(alloc, component).ok()?;
            octets.extend_from_slice(written.as_slice()).ok()
        }
        Err(_) => Some(()),
    }
}

/// The contents of a component portion.
fn rewrite_components(alloc: Global, content: &[u8]) -> Option<Vec<u8>>
    ensures { IfSome result (λ octets. octets.items ≡ rewritten_components content.now) }
{
    let mut octets = Vec::new(alloc);
    for item in Components::new(content) {
        append_item(alloc, &mut octets, &item)?;
    }
    Some(octets)
}

/// A message with these contents of its portions in place of its own.
fn spell(
    alloc: Global,
    frame: Frame<'_>,
    dialogue: Option<&[u8]>,
    components: &[u8],
) -> Option<Vec<u8>>
    requires { HasCause (message frame) }
    ensures { IfSome result (λ octets. octets.items
        ≡ written_frame (with_portions (option_copied dialogue.entry) components.now (message frame.entry))) }
{
    write_frame(alloc, &frame.with_portions(dialogue, components)).ok()
}

/// A message.
fn rewrite_frame(alloc: Global, frame: Frame<'_>) -> Option<Vec<u8>>
    requires { HasCause (message frame) }
    ensures { IfSome result (λ octets. octets.items ≡ rewritten_message (message frame.entry)) }
{
    let portion = rewrite_portion(alloc, frame.dialogue())?;
    let components = rewrite_components(alloc, frame.components())?;
    match portion {
        Some(dialogue) => spell(
            alloc,
            frame,
            Some(dialogue.as_slice()),
            components.as_slice(),
        ),
        None => spell(alloc, frame, None, components.as_slice()),
    }
}

/// The message that the bytes are.
fn rewrite(alloc: Global, bytes: &[u8]) -> Option<Vec<u8>>
    ensures { IfSome result (λ octets. octets.items ≡ rewritten bytes.now) }
{
    match read_frame(bytes) {
        Ok(frame) => rewrite_frame(alloc, frame),
        Err(_) => None,
    }
}

/// Puts the message that the bytes are to the beginning of a room.
pub fn put_rewritten(alloc: Global, bytes: &[u8], room: &mut [u8]) -> usize
    ensures { IsPut (rewritten bytes.now) result room.new }
{
    match rewrite(alloc, bytes) {
        Some(octets) => put(octets.as_slice(), room),
        None => 0,
    }
}

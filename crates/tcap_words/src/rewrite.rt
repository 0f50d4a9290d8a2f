//! The canonical form of a message's parts.

ghost use Rattle.std.specs.Prelude.{◌≡◌, ◌≢◌, ◌≤◌, ◌<◌, ◌++◌, List, ℕ, length, OnOk, IfOk, IfErr, [], unwrap_or, option_copied, option_map};
ghost use Rattle.tcap_pdu.specs.FrameSpelling.{HasCause};
ghost use Rattle.tcap_pdu.specs.FramePortions.{with_portions};
ghost use Rattle.tcap_pdu.specs.FrameWritten.{written_frame};
ghost use Rattle.tcap_pdu.specs.FrameViews.{message};
ghost use Rattle.tcap_pdu.specs.declared.fault.PduFault.TheVariants as pdu;
ghost use Rattle.tcap_component.specs.Views.{component_parts, item_view};
ghost use Rattle.tcap_component.specs.Written.{coded_part, written_component, HasCode, HasParameter};
ghost use Rattle.tcap_words.specs.Verdict.{message_limit};
ghost use Rattle.tcap_words.specs.declared.rewrite.CanonFault.TheVariants as canon;
ghost use Rattle.tcap_words.specs.Canonical.{canonical_item, canonical_components, canonical_dialogue, IsCanonFault, IsWritableItem};

use std::alloc::{AllocError, Allocator};
use tcap_component::{
    Component, ComponentFault, Components, WriteFault, append_component, judge_component,
};
use tcap_pdu::{Frame, PduFault, read_dialogue, write_dialogue, write_frame};

/// Room that is taken at once for a component portion, in octets at most: what is taken follows what is written.
const ROOM: usize = 1_024;

/// Why there is no canonical form.
#[derive(Clone, Copy)]
pub enum CanonFault {
    /// Memory was refused.
    OutOfMemory,
    /// A part, and so the message, would have more than 65,535 bytes.
    TooLong,
}

impl From<AllocError> for CanonFault {
    ghost from_gives = { λ _ r. r ≡ canon.OutOfMemory };

    fn from(_error: AllocError) -> CanonFault {
        CanonFault::OutOfMemory
    }
}

/// The fault of a message or a dialogue PDU that was read, and isn't written: its context and its information can be.
fn canon_fault(fault: PduFault) -> CanonFault
    requires context { fault ≢ pdu.BadOid }
    requires information { fault ≢ pdu.BadInfo }
    ensures { (form : List ℕ) → (fault ≡ pdu.TooLong → message_limit < length form)
        → IsCanonFault form result }
{
    match fault {
        PduFault::OutOfMemory => CanonFault::OutOfMemory,
        PduFault::TooLong => CanonFault::TooLong,
        PduFault::BadOid | PduFault::BadInfo => unreachable!(),
    }
}

/// The contents of a dialogue portion in the canonical form, of nothing where they can't be read. What
/// was read has a context and information that can be written.
fn rewrite_dialogue<A: Allocator + Copy>(alloc: A, content: &[u8]) -> Result<Vec<u8, A>, CanonFault>
    ensures ok { IfOk result (λ octets. octets.items ≡ canonical_dialogue content.now) }
    ensures err { IfErr result (λ fault. IsCanonFault (canonical_dialogue content.now) fault) }
{
    let Ok(pdu) = read_dialogue(content) else {
        return Ok(Vec::new(alloc));
    };
    match write_dialogue(alloc, &pdu) {
        Ok(octets) => Ok(octets),
        Err(fault) => Err(canon_fault(fault)),
    }
}

/// The canonical form of a dialogue portion, where there is one.
pub fn rewrite_portion<A: Allocator + Copy>(
    alloc: A,
    dialogue: Option<&[u8]>,
) -> Result<Option<Vec<u8, A>>, CanonFault>
    ensures ok { IfOk result (λ portion. option_map (λ octets. octets.items) portion
        ≡ option_map canonical_dialogue (option_copied dialogue.entry)) }
    ensures err { IfErr result (λ fault. IsCanonFault
        (unwrap_or (option_map canonical_dialogue (option_copied dialogue.entry)) []) fault) }
{
    match dialogue {
        Some(content) => Ok(Some(rewrite_dialogue(alloc, content)?)),
        None => Ok(None),
    }
}

/// Appends a component in the canonical form. It is written straight behind the octets before it, once
/// there is room: the first makes so much room at once.
fn rewrite_component<A: Allocator + Copy>(
    octets: &mut Vec<u8, A>,
    component: &Component<'_>,
    room: usize,
) -> Result<(), CanonFault>
    requires code { HasCode (coded_part (component_parts component.now)) }
    requires parameter { HasParameter (coded_part (component_parts component.now)) }
    ensures ok { OnOk result (octets.new.items ≡ octets.old.items
        ++ written_component (component_parts component.now)) }
    ensures err { IfErr result (λ fault. IsCanonFault (written_component (component_parts component.now)) fault) }
{
    match judge_component(component) {
        Ok(len) => {
            if octets.is_empty() {
                octets.reserve(room)?;
            }
            octets.reserve(len)?;
            append_component(octets, component);
            Ok(())
        }
        Err(WriteFault::TooLong) => Err(CanonFault::TooLong),
        Err(WriteFault::OutOfMemory | WriteFault::BadOid | WriteFault::BadParameter) =>
            unreachable!(),
    }
}

/// Appends a component in the canonical form; of a fault it appends nothing. Behind a fault nothing is
/// appended: the octets are copied to memory of their own size, so that no room is kept for what doesn't come.
fn rewrite_item<A: Allocator + Copy>(
    octets: &mut Vec<u8, A>,
    item: &Result<Component<'_>, ComponentFault>,
    room: usize,
) -> Result<(), CanonFault>
    requires { IsWritableItem (item_view item.now) }
    ensures ok { OnOk result (octets.new.items ≡ octets.old.items ++ canonical_item (item_view item.now)) }
    ensures err { IfErr result (λ fault. IsCanonFault (canonical_item (item_view item.now)) fault) }
{
    match item {
        Ok(component) => rewrite_component(octets, component, room),
        Err(_) => {
            *octets = octets.as_slice().to_vec(*octets.allocator())?;
            Ok(())
        }
    }
}

/// The contents of a component portion in the canonical form.
pub fn rewrite_components<A: Allocator + Copy>(
    alloc: A,
    components: &[u8],
) -> Result<Vec<u8, A>, CanonFault>
    ensures ok { IfOk result (λ octets. octets.items ≡ canonical_components components.now) }
    ensures err { IfErr result (λ fault. IsCanonFault (canonical_components components.now) fault) }
{
    // A component is seldom longer in the canonical form, so the vector seldom grows.
    let room = components.len().min(ROOM);
    let mut octets = Vec::new(alloc);
    for item in Components::new(components) {
        rewrite_item(&mut octets, &item, room)?;
    }
    Ok(octets)
}

/// Writes a message with its portions in the canonical form already.
pub fn spell_frame<A: Allocator + Copy>(
    alloc: A,
    frame: &Frame<'_>,
) -> Result<Vec<u8, A>, CanonFault>
    requires { HasCause (message frame.now) }
    ensures ok { IfOk result (λ octets. octets.items ≡ written_frame (message frame.now)) }
    ensures short { OnOk result (length (written_frame (message frame.now)) ≤ message_limit) }
    ensures err { IfErr result (λ fault. IsCanonFault (written_frame (message frame.now)) fault) }
{
    match write_frame(alloc, frame) {
        Ok(octets) => Ok(octets),
        Err(fault) => Err(canon_fault(fault)),
    }
}

/// Writes a message with these contents of its portions in place of its own.
pub fn assemble<A: Allocator + Copy>(
    alloc: A,
    frame: Frame<'_>,
    dialogue: Option<&[u8]>,
    components: &[u8],
) -> Result<Vec<u8, A>, CanonFault>
    requires { HasCause (message frame) }
    ensures ok { IfOk result (λ octets. octets.items
        ≡ written_frame (with_portions (option_copied dialogue.entry) components.now (message frame.entry))) }
    ensures short { OnOk result (length (written_frame
        (with_portions (option_copied dialogue.entry) components.now (message frame.entry))) ≤ message_limit) }
    ensures err { IfErr result (λ fault. IsCanonFault
        (written_frame (with_portions (option_copied dialogue.entry) components.now (message frame.entry))) fault) }
{
    let canonical = frame.with_portions(dialogue, components);
    spell_frame(alloc, &canonical)
}

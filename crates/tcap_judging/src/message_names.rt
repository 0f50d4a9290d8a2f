//! What a message names, in the line of a message.

ghost use Rattle.std.specs.Prelude.{◌≡◌, ◌++◌, IfOk, OnOk, map, option_copied, option_map, string_bytes};
ghost use Rattle.object_identifiers.specs.Contents.{dotted_at};
ghost use Rattle.tcap_component.specs.Views.{code_parts, component_parts};
ghost use Rattle.tcap_judging.specs.MessageItems.{item_of, items_in};
ghost use Rattle.tcap_judging.specs.MessageNames.{context_words, dotted_words, name_behind, code_behind, item_words, components_words, names_words};
ghost use Rattle.tcap_judging.specs.NameViews.{named_view};
ghost use Rattle.tcap_judging.specs.Names.{name_for};

use crate::code_text::{add_code, add_octets, code_kind, kind_words};
use crate::judged::Judged;
use crate::message_items::{ItemKind, code_of, context_in, id_of, is_message, kind_of};
use crate::name_list::{NameKind, Named, name_for};
use ber_core::OutOfMemory;
use object_identifiers::dotted;
use std::alloc::Allocator;
use tcap_component::{Code, Component, take_component};
use tcap_words::{add_identifier, read_message};

/// Adds the dotted form of an application context, and its name where the list has one.
fn add_named<A: Allocator + Copy>(
    text: &mut String<A>,
    names: &[Named<'_>],
    key: &str,
) -> Result<(), OutOfMemory>
    ensures { OnOk result (string_bytes text.new ≡ string_bytes text.old
        ++ (key.now ++ name_behind (name_for NameKind.Context key.now (map named_view names.now)))) }
{
    text.push_str(key)?;
    match name_for(names, NameKind::Context, key) {
        Some(name) => {
            text.push_str(" ")?;
            Ok(text.push_str(name)?)
        }
        None => Ok(()),
    }
}

/// Adds an application context.
fn add_dotted<A: Allocator + Copy>(
    text: &mut String<A>,
    names: &[Named<'_>],
    context: &[u8],
) -> Result<(), OutOfMemory>
    ensures { OnOk result (string_bytes text.new ≡ string_bytes text.old
        ++ dotted_words (map named_view names.now) context.now (dotted_at context.now)) }
{
    match dotted(context) {
        Some(key) => add_named(text, names, key.as_str()),
        None => add_octets(text, context),
    }
}

/// Adds the words for an application context, if there is one.
fn add_context<A: Allocator + Copy>(
    text: &mut String<A>,
    names: &[Named<'_>],
    context: Option<&[u8]>,
) -> Result<(), OutOfMemory>
    ensures { OnOk result (string_bytes text.new ≡ string_bytes text.old
        ++ context_words (map named_view names.now) (option_copied context.entry)) }
{
    match context {
        Some(octets) => {
            text.push_str("; context ")?;
            add_dotted(text, names, octets)
        }
        None => Ok(()),
    }
}

/// Adds the name for the code of a component behind a space, if it has one.
fn add_code_behind<A: Allocator + Copy>(
    text: &mut String<A>,
    names: &[Named<'_>],
    kind: ItemKind,
    code: &Option<Code<'_>>,
) -> Result<(), OutOfMemory>
    ensures { OnOk result (string_bytes text.new ≡ string_bytes text.old
        ++ code_behind (map named_view names.now) kind (option_map code_parts code.now)) }
{
    match code {
        Some(code) => {
            text.push_str(" ")?;
            add_code(text, names, code_kind(kind), code)
        }
        None => Ok(()),
    }
}

/// Adds the words for a component: its kind, its invoke identifier, and its operation or its error.
fn add_component<A: Allocator + Copy>(
    text: &mut String<A>,
    names: &[Named<'_>],
    component: &Component<'_>,
) -> Result<(), OutOfMemory>
    ensures { OnOk result (string_bytes text.new ≡ string_bytes text.old
        ++ item_words (map named_view names.now) (item_of (component_parts component.now))) }
{
    let kind = kind_of(component);
    text.push_str("; ")?;
    text.push_str(kind_words(kind))?;
    text.push_str(" ")?;
    add_identifier(text, id_of(component))?;
    add_code_behind(text, names, kind, &code_of(component))
}

/// Adds the words for the components of a component portion, up to the first faulty one.
fn add_components<A: Allocator + Copy>(
    text: &mut String<A>,
    names: &[Named<'_>],
    content: &[u8],
) -> Result<(), OutOfMemory>
    ensures { OnOk result (string_bytes text.new ≡ string_bytes text.old
        ++ components_words (map named_view names.now) (items_in content.now)) }
{
    let mut rest = content;
    while let Some((component, after)) = take_component(rest) {
        add_component(text, names, &component)?;
        rest = after;
    }
    Ok(())
}

/// Adds what the message that octets spell names.
fn add_names<A: Allocator + Copy>(
    text: &mut String<A>,
    names: &[Named<'_>],
    octets: &[u8],
) -> Result<(), OutOfMemory>
    ensures { OnOk result (string_bytes text.new ≡ string_bytes text.old
        ++ names_words (map named_view names.now) octets.now) }
{
    match read_message(octets) {
        Ok(frame) => {
            add_context(text, names, context_in(frame.dialogue()))?;
            add_components(text, names, frame.components())
        }
        Err(_) => Ok(()),
    }
}

/// Adds what a judged message names; octets that are none by their verdict name nothing.
pub(crate) fn add_known_names<A: Allocator + Copy>(
    text: &mut String<A>,
    names: &[Named<'_>],
    judged: &Judged<'_>,
) -> Result<(), OutOfMemory>
    ensures { OnOk result (string_bytes text.new ≡ string_bytes text.old
        ++ names_words (map named_view names.now) judged.now.octets.now) }
{
    if is_message(judged.verdict) {
        add_names(text, names, judged.octets)
    } else {
        Ok(())
    }
}

/// What the message that octets spell names, as far as it can be read: its application context in dotted form, with its
/// name where the list has one; then of each component, up to the first faulty one, its kind, its invoke identifier,
/// and its operation or its error by name, or by its number where the list has none. Each stands behind `; `.
///
/// ```rust
/// let names = read_names(alloc, b"operation 2 updateLocation\n")?;
/// let octets = [0x62, 0x0d, 0x48, 0x01, 0x07, 0x6c, 0x08, 0xa1, 0x06, 0x02, 0x01, 0x01, 0x02, 0x01, 0x02];
/// let text = names_text(alloc, names.as_slice(), &octets)?;
/// assert_eq!(rt; text.as_str(), "; invoke 1 updateLocation");
/// ```
///
/// # Errors
///
/// `OutOfMemory` where memory was refused.
pub fn names_text<A: Allocator + Copy>(
    alloc: A,
    names: &[Named<'_>],
    octets: &[u8],
) -> Result<String<A>, OutOfMemory>
    ensures { IfOk result (λ text. string_bytes text ≡ names_words (map named_view names.now) octets.now) }
{
    let mut text = String::new(alloc);
    add_names(&mut text, names, octets)?;
    Ok(text)
}

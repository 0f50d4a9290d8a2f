//! What a message names, in the object of a message.

ghost use Rattle.std.specs.Prelude.{◌≡◌, ◌++◌, OnOk, codes, map, option_copied, option_map, string_bytes};
ghost use Rattle.object_identifiers.specs.Contents.{dotted_at};
ghost use Rattle.tcap_component.specs.Views.{code_parts, component_parts};
ghost use Rattle.tcap_judging.specs.JsonNames.{json_context_name, json_dotted, json_context, json_id, json_code_opening, json_code, json_item, json_components, json_names};
ghost use Rattle.tcap_judging.specs.JsonSteps.{json_closing, json_opening, json_step};
ghost use Rattle.tcap_judging.specs.MessageItems.{item_of, items_in};
ghost use Rattle.tcap_judging.specs.NameViews.{named_view};
ghost use Rattle.tcap_judging.specs.Names.{name_for};

use crate::code_text::{add_code, add_octets, code_kind, kind_words};
use crate::judged::Judged;
use crate::message_items::{ItemKind, code_of, context_in, id_of, is_message, kind_of};
use crate::name_list::{NameKind, Named, name_for};
use ber_core::OutOfMemory;
use object_identifiers::dotted;
use std::alloc::Allocator;
use tcap_component::{Code, Component, take_component};
use tcap_words::{add_signed, read_message};

/// Adds the name of an application context, if the list has one.
fn add_context_name<A: Allocator + Copy>(
    text: &mut String<A>,
    name: Option<&str>,
) -> Result<(), OutOfMemory>
    ensures { OnOk result (string_bytes text.new ≡ string_bytes text.old
        ++ json_context_name (option_map (λ n. n.now) name.entry)) }
{
    match name {
        Some(name) => {
            text.push_str(",\"context_name\":\"")?;
            text.push_str(name)?;
            Ok(text.push_str("\"")?)
        }
        None => Ok(()),
    }
}

/// Adds an application context by its dotted form, and its name where the list has one.
fn add_named<A: Allocator + Copy>(
    text: &mut String<A>,
    names: &[Named<'_>],
    key: &str,
) -> Result<(), OutOfMemory>
    ensures { OnOk result (string_bytes text.new ≡ string_bytes text.old
        ++ (key.now ++ (codes "\""
        ++ json_context_name (name_for NameKind.Context key.now (map named_view names.now))))) }
{
    text.push_str(key)?;
    text.push_str("\"")?;
    add_context_name(text, name_for(names, NameKind::Context, key))
}

/// Adds an application context.
fn add_dotted<A: Allocator + Copy>(
    text: &mut String<A>,
    names: &[Named<'_>],
    context: &[u8],
) -> Result<(), OutOfMemory>
    ensures { OnOk result (string_bytes text.new ≡ string_bytes text.old
        ++ json_dotted (map named_view names.now) context.now (dotted_at context.now)) }
{
    match dotted(context) {
        Some(key) => add_named(text, names, key.as_str()),
        None => {
            add_octets(text, context)?;
            Ok(text.push_str("\"")?)
        }
    }
}

/// Adds the members of an application context.
fn add_members<A: Allocator + Copy>(
    text: &mut String<A>,
    names: &[Named<'_>],
    context: &[u8],
) -> Result<(), OutOfMemory>
    ensures { OnOk result (string_bytes text.new ≡ string_bytes text.old
        ++ (codes ",\"context\":\"" ++ json_dotted (map named_view names.now) context.now (dotted_at context.now))) }
{
    text.push_str(",\"context\":\"")?;
    add_dotted(text, names, context)
}

/// Adds an application context, if there is one.
fn add_context<A: Allocator + Copy>(
    text: &mut String<A>,
    names: &[Named<'_>],
    context: Option<&[u8]>,
) -> Result<(), OutOfMemory>
    ensures { OnOk result (string_bytes text.new ≡ string_bytes text.old
        ++ json_context (map named_view names.now) (option_copied context.entry)) }
{
    match context {
        Some(octets) => add_members(text, names, octets),
        None => Ok(()),
    }
}

/// Adds an invoke identifier, or null where there is none.
fn add_id<A: Allocator + Copy>(text: &mut String<A>, id: Option<i8>) -> Result<(), OutOfMemory>
    ensures { OnOk result (string_bytes text.new ≡ string_bytes text.old ++ json_id id) }
{
    match id {
        Some(id) => add_signed(text, i64::from(id)),
        None => Ok(text.push_str("null")?),
    }
}

/// How the member with the name for a code begins.
fn code_opening(kind: ItemKind) -> &'static str
    ensures { result.now ≡ json_code_opening kind }
{
    match kind {
        ItemKind::Error => ",\"error\":\"",
        ItemKind::Invoke | ItemKind::Result | ItemKind::ResultMore | ItemKind::Reject => {
            ",\"operation\":\""
        }
    }
}

/// Adds the name for the code of a component, if it has one.
fn add_code_member<A: Allocator + Copy>(
    text: &mut String<A>,
    names: &[Named<'_>],
    kind: ItemKind,
    code: &Option<Code<'_>>,
) -> Result<(), OutOfMemory>
    ensures { OnOk result (string_bytes text.new ≡ string_bytes text.old
        ++ json_code (map named_view names.now) kind (option_map code_parts code.now)) }
{
    match code {
        Some(code) => {
            text.push_str(code_opening(kind))?;
            add_code(text, names, code_kind(kind), code)?;
            Ok(text.push_str("\"")?)
        }
        None => Ok(()),
    }
}

/// Adds the object of a component: its kind, its invoke identifier, and its operation or its error.
fn add_component<A: Allocator + Copy>(
    text: &mut String<A>,
    names: &[Named<'_>],
    component: &Component<'_>,
) -> Result<(), OutOfMemory>
    ensures { OnOk result (string_bytes text.new ≡ string_bytes text.old
        ++ json_item (map named_view names.now) (item_of (component_parts component.now))) }
{
    let kind = kind_of(component);
    text.push_str("{\"kind\":\"")?;
    text.push_str(kind_words(kind))?;
    text.push_str("\",\"id\":")?;
    add_id(text, id_of(component))?;
    add_code_member(text, names, kind, &code_of(component))?;
    Ok(text.push_str("}")?)
}

/// What stands before the object of a component, by whether one stands before it.
fn opening(is_behind: bool) -> &'static str
    ensures { result.now ≡ json_opening is_behind }
{
    if is_behind { "," } else { ",\"components\":[" }
}

/// What stands behind the objects of all components, by whether there is one.
fn closing(is_behind: bool) -> &'static str
    ensures { result.now ≡ json_closing is_behind }
{
    if is_behind { "]" } else { "" }
}

/// Adds the object of a component, by whether one stands before it.
fn add_item<A: Allocator + Copy>(
    text: &mut String<A>,
    names: &[Named<'_>],
    is_behind: bool,
    component: &Component<'_>,
) -> Result<(), OutOfMemory>
    ensures { OnOk result (string_bytes text.new ≡ string_bytes text.old
        ++ json_step (map named_view names.now) is_behind (component_parts component.now)) }
{
    text.push_str(opening(is_behind))?;
    add_component(text, names, component)
}

/// Adds the components of a component portion, up to the first faulty one, if it has any.
fn add_components<A: Allocator + Copy>(
    text: &mut String<A>,
    names: &[Named<'_>],
    content: &[u8],
) -> Result<(), OutOfMemory>
    ensures { OnOk result (string_bytes text.new ≡ string_bytes text.old
        ++ json_components (map named_view names.now) (items_in content.now)) }
{
    let mut is_behind = false;
    let mut rest = content;
    while let Some((component, after)) = take_component(rest) {
        add_item(text, names, is_behind, &component)?;
        is_behind = true;
        rest = after;
    }
    Ok(text.push_str(closing(is_behind))?)
}

/// Adds what the message that octets spell names.
fn add_names<A: Allocator + Copy>(
    text: &mut String<A>,
    names: &[Named<'_>],
    octets: &[u8],
) -> Result<(), OutOfMemory>
    ensures { OnOk result (string_bytes text.new ≡ string_bytes text.old
        ++ json_names (map named_view names.now) octets.now) }
{
    match read_message(octets) {
        Ok(frame) => {
            add_context(text, names, context_in(frame.dialogue()))?;
            add_components(text, names, frame.components())
        }
        Err(_) => Ok(()),
    }
}

/// Adds what a judged message names; octets that are none by their verdict name nothing.
pub(crate) fn add_json_names<A: Allocator + Copy>(
    text: &mut String<A>,
    names: &[Named<'_>],
    judged: &Judged<'_>,
) -> Result<(), OutOfMemory>
    ensures { OnOk result (string_bytes text.new ≡ string_bytes text.old
        ++ json_names (map named_view names.now) judged.now.octets.now) }
{
    if is_message(judged.verdict) {
        add_names(text, names, judged.octets)
    } else {
        Ok(())
    }
}

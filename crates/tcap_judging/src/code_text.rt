//! What is printed for a code and for an application context, by a list of names.

ghost use Rattle.std.specs.Prelude.{◌≡◌, ◌++◌, OnOk, map, string_bytes};
ghost use Rattle.object_identifiers.specs.Contents.{dotted_at};
ghost use Rattle.tcap_component.specs.Views.{code_parts};
ghost use Rattle.tcap_judging.specs.CodeText.{octets_words, key_words, global_words, code_words, code_kind, kind_words};
ghost use Rattle.tcap_judging.specs.NameViews.{named_view};

use crate::message_items::ItemKind;
use crate::name_list::{NameKind, Named, name_for};
use ber_core::OutOfMemory;
use itoa::Buffer;
use object_identifiers::dotted;
use std::alloc::Allocator;
use tcap_component::Code;
use tcap_words::add_hex;

/// Adds an object identifier that has no dotted form.
pub(crate) fn add_octets<A: Allocator + Copy>(
    text: &mut String<A>,
    octets: &[u8],
) -> Result<(), OutOfMemory>
    ensures { OnOk result (string_bytes text.new ≡ string_bytes text.old ++ octets_words octets.now) }
{
    text.push_str("0x")?;
    add_hex(text, octets)
}

/// Adds the name of this kind for a key, or the key where the list has none.
fn add_key<A: Allocator + Copy>(
    text: &mut String<A>,
    names: &[Named<'_>],
    kind: NameKind,
    key: &str,
) -> Result<(), OutOfMemory>
    ensures { OnOk result (string_bytes text.new ≡ string_bytes text.old
        ++ key_words (map named_view names.now) kind key.now) }
{
    match name_for(names, kind, key) {
        Some(name) => Ok(text.push_str(name)?),
        None => Ok(text.push_str(key)?),
    }
}

/// Adds the name for a global code.
fn add_global<A: Allocator + Copy>(
    text: &mut String<A>,
    names: &[Named<'_>],
    kind: NameKind,
    octets: &[u8],
) -> Result<(), OutOfMemory>
    ensures { OnOk result (string_bytes text.new ≡ string_bytes text.old
        ++ global_words (map named_view names.now) kind octets.now (dotted_at octets.now)) }
{
    match dotted(octets) {
        Some(key) => add_key(text, names, kind, key.as_str()),
        None => add_octets(text, octets),
    }
}

/// Adds the name for a code.
pub(crate) fn add_code<A: Allocator + Copy>(
    text: &mut String<A>,
    names: &[Named<'_>],
    kind: NameKind,
    code: &Code<'_>,
) -> Result<(), OutOfMemory>
    ensures { OnOk result (string_bytes text.new ≡ string_bytes text.old
        ++ code_words (map named_view names.now) kind (code_parts code.now)) }
{
    match code {
        Code::Local(number) => {
            add_key(text, names, kind, Buffer::new().format(i64::from(*number)))
        }
        Code::Global(octets) => add_global(text, names, kind, *octets),
    }
}

/// What the code of a component is of.
pub(crate) fn code_kind(kind: ItemKind) -> NameKind
    ensures { result ≡ code_kind kind }
{
    match kind {
        ItemKind::Error => NameKind::Error,
        ItemKind::Invoke | ItemKind::Result | ItemKind::ResultMore | ItemKind::Reject => {
            NameKind::Operation
        }
    }
}

/// The words for the kind of a component.
pub(crate) fn kind_words(kind: ItemKind) -> &'static str
    ensures { result.now ≡ kind_words kind }
{
    match kind {
        ItemKind::Invoke => "invoke",
        ItemKind::Result => "result",
        ItemKind::ResultMore => "result more",
        ItemKind::Error => "error",
        ItemKind::Reject => "reject",
    }
}

//! The line of a message.

ghost use Rattle.std.specs.Prelude.{◌≡◌, ◌++◌, IfOk, OnOk, string_bytes};
ghost use Rattle.tcap_explain.specs.Explaining.{explained_at};
ghost use Rattle.tcap_words.specs.Show.{show_is_good};
ghost use Rattle.tcap_words.specs.Verdict.{verdict_words};
ghost use Rattle.tcap_judging.specs.EntryText.{fault_words, message_words, named_words, plain_text, message_text};
ghost use Rattle.tcap_judging.specs.MarkedText.{marked_text};
ghost use Rattle.tcap_judging.specs.LineViews.{label_view};
ghost use Rattle.tcap_judging.specs.NameViews.{form_view, names_view};

use crate::form::{Form, Layout};
use crate::json_text::add_object;
use crate::judged::Judged;
use crate::label::{Label, add_label};
use crate::marked_text::add_mark;
use crate::message_names::add_known_names;
use crate::name_list::Named;
use ber_core::OutOfMemory;
use std::alloc::Allocator;
use tcap_explain::{Explained, add_explained};
use tcap_words::{Verdict, add_decimal};

/// Adds the words for the verdict on a message with a faulty component, by its number.
fn add_component<A: Allocator + Copy>(
    text: &mut String<A>,
    number: usize,
) -> Result<(), OutOfMemory>
    ensures { OnOk result (string_bytes text.new
        ≡ string_bytes text.old ++ verdict_words (Verdict.Component number)) }
{
    text.push_str("fault component ")?;
    add_decimal(text, number as u64)
}

/// Adds the words for a verdict.
pub(crate) fn add_verdict<A: Allocator + Copy>(
    text: &mut String<A>,
    verdict: Verdict,
) -> Result<(), OutOfMemory>
    ensures { OnOk result (string_bytes text.new ≡ string_bytes text.old ++ verdict_words verdict) }
{
    match verdict {
        Verdict::TooLong => Ok(text.push_str("fault too long")?),
        Verdict::UnknownType => Ok(text.push_str("fault unknown type")?),
        Verdict::BadlyFormatted => Ok(text.push_str("fault badly formatted")?),
        Verdict::Incorrect => Ok(text.push_str("fault incorrect")?),
        Verdict::Dialogue => Ok(text.push_str("fault dialogue")?),
        Verdict::Component(number) => add_component(text, number),
        Verdict::Good => Ok(text.push_str("good")?),
    }
}

/// Adds the place of the fault of a message and its rule, if there is one.
fn add_fault<A: Allocator + Copy>(
    text: &mut String<A>,
    octets: &[u8],
    found: Option<Explained>,
) -> Result<(), OutOfMemory>
    ensures { OnOk result (string_bytes text.new ≡ string_bytes text.old ++ fault_words octets.now found) }
{
    match found {
        Some(found) => {
            text.push_str(" ")?;
            add_explained(text, octets, found)
        }
        None => Ok(()),
    }
}

/// Adds the words for a message.
fn add_words<A: Allocator + Copy>(
    text: &mut String<A>,
    judged: &Judged<'_>,
) -> Result<(), OutOfMemory>
    ensures { OnOk result (string_bytes text.new ≡ string_bytes text.old ++ message_words judged.now.octets.now) }
{
    add_verdict(text, judged.verdict)?;
    add_fault(text, judged.octets, judged.found)
}

/// Adds what a message names by a list, if there is one.
fn add_named<A: Allocator + Copy>(
    text: &mut String<A>,
    names: Option<&[Named<'_>]>,
    judged: &Judged<'_>,
) -> Result<(), OutOfMemory>
    ensures { OnOk result (string_bytes text.new ≡ string_bytes text.old
        ++ named_words (names_view names.entry) judged.now.octets.now) }
{
    match names {
        Some(names) => add_known_names(text, names, judged),
        None => Ok(()),
    }
}

/// Adds the line of a message.
fn add_plain<A: Allocator + Copy>(
    text: &mut String<A>,
    names: Option<&[Named<'_>]>,
    called: Label<'_>,
    judged: &Judged<'_>,
) -> Result<(), OutOfMemory>
    ensures { OnOk result (string_bytes text.new ≡ string_bytes text.old
        ++ plain_text (names_view names.entry) (label_view called.entry) judged.now.octets.now) }
{
    add_label(text, called)?;
    text.push_str(" ")?;
    add_words(text, judged)?;
    add_named(text, names, judged)?;
    Ok(text.push_str("\n")?)
}

/// Adds the line of a message, and below it the octets about the place of its fault, if it has one.
fn add_marked<A: Allocator + Copy>(
    text: &mut String<A>,
    names: Option<&[Named<'_>]>,
    called: Label<'_>,
    judged: &Judged<'_>,
) -> Result<(), OutOfMemory>
    ensures { OnOk result (string_bytes text.new ≡ string_bytes text.old
        ++ (plain_text (names_view names.entry) (label_view called.entry) judged.now.octets.now
        ++ marked_text judged.now.octets.now (explained_at judged.now.octets.now))) }
{
    add_plain(text, names, called, judged)?;
    add_mark(text, judged.octets, judged.found)
}

/// Adds what is printed for a message.
fn add_text<A: Allocator + Copy>(
    form: Form<'_>,
    text: &mut String<A>,
    called: Label<'_>,
    judged: &Judged<'_>,
) -> Result<(), OutOfMemory>
    ensures { OnOk result (string_bytes text.new ≡ string_bytes text.old
        ++ message_text (form_view form.entry) (label_view called.entry) judged.now.octets.now) }
{
    match form.layout {
        Layout::Plain => add_plain(text, form.names, called, judged),
        Layout::Marked => add_marked(text, form.names, called, judged),
        Layout::Json => add_object(text, form.names, called, judged),
    }
}

/// Adds what is printed for a message, and tells whether it is good.
pub(crate) fn add_message<A: Allocator + Copy>(
    form: Form<'_>,
    text: &mut String<A>,
    called: Label<'_>,
    judged: &Judged<'_>,
) -> Result<bool, OutOfMemory>
    ensures text { OnOk result (string_bytes text.new ≡ string_bytes text.old
        ++ message_text (form_view form.entry) (label_view called.entry) judged.now.octets.now) }
    ensures good { IfOk result (λ good. good ≡ show_is_good judged.now.octets.now) }
{
    add_text(form, text, called, judged)?;
    Ok(judged.verdict.is_good())
}

//! What is printed in JSON.

ghost use Rattle.std.specs.Prelude.{◌≡◌, ◌++◌, OnOk, Some, string_bytes};
ghost use Rattle.std.specs.Fmt.{decimal};
ghost use Rattle.tcap_words.specs.Verdict.{verdict_words};
ghost use Rattle.tcap_judging.specs.JsonText.{json_label, json_verdict, json_place, json_rule, json_fault, json_named, json_text, json_bad_text, json_passed_text, json_unread_text};
ghost use Rattle.tcap_judging.specs.LineViews.{label_view};
ghost use Rattle.tcap_judging.specs.NameViews.{names_view};

use crate::bad_line::{BadLine, add_bad};
use crate::json_names::add_json_names;
use crate::judged::Judged;
use crate::label::Label;
use crate::message_text::add_verdict;
use crate::name_list::Named;
use ber_core::OutOfMemory;
use std::alloc::Allocator;
use tcap_explain::{Explained, add_found, add_wanted};
use tcap_words::{Verdict, add_decimal};

/// Adds a member's name and a number.
fn add_number<A: Allocator + Copy>(
    text: &mut String<A>,
    name: &str,
    number: u64,
) -> Result<(), OutOfMemory>
    ensures { OnOk result (string_bytes text.new ≡ string_bytes text.old ++ (name.now ++ decimal number)) }
{
    text.push_str(name)?;
    add_decimal(text, number)
}

/// Adds the first member: what a message is called. A name needs no escape.
fn add_label<A: Allocator + Copy>(
    text: &mut String<A>,
    called: Label<'_>,
) -> Result<(), OutOfMemory>
    ensures { OnOk result (string_bytes text.new ≡ string_bytes text.old ++ json_label (label_view called.entry)) }
{
    match called {
        Label::Name(words) => {
            text.push_str("{\"name\":\"")?;
            text.push_str(words)?;
            Ok(text.push_str("\"")?)
        }
        Label::Line(number) => add_number(text, "{\"line\":", number),
        Label::Offset(count) => add_number(text, "{\"offset\":", count),
    }
}

/// Adds a member's name, the words for a verdict, and what stands behind them.
fn add_verdict_between<A: Allocator + Copy>(
    text: &mut String<A>,
    name: &str,
    verdict: Verdict,
    behind: &str,
) -> Result<(), OutOfMemory>
    ensures { OnOk result (string_bytes text.new ≡ string_bytes text.old
        ++ (name.now ++ (verdict_words verdict ++ behind.now))) }
{
    text.push_str(name)?;
    add_verdict(text, verdict)?;
    Ok(text.push_str(behind)?)
}

/// Adds the verdict.
fn add_verdict_member<A: Allocator + Copy>(
    text: &mut String<A>,
    verdict: Verdict,
) -> Result<(), OutOfMemory>
    ensures { OnOk result (string_bytes text.new ≡ string_bytes text.old ++ json_verdict (verdict_words verdict)) }
{
    add_verdict_between(text, ",\"verdict\":\"", verdict, "\"")
}

/// Adds two members, each a name and a number.
fn add_numbers<A: Allocator + Copy>(
    text: &mut String<A>,
    first: &str,
    one: u64,
    second: &str,
    other: u64,
) -> Result<(), OutOfMemory>
    ensures { OnOk result (string_bytes text.new ≡ string_bytes text.old
        ++ (first.now ++ (decimal one ++ (second.now ++ decimal other)))) }
{
    add_number(text, first, one)?;
    add_number(text, second, other)
}

/// Adds the place of a fault, and the first octet of its element.
fn add_place<A: Allocator + Copy>(text: &mut String<A>, found: Explained) -> Result<(), OutOfMemory>
    ensures { OnOk result (string_bytes text.new ≡ string_bytes text.old ++ json_place found) }
{
    let (place, element) = (found.place as u64, found.element as u64);
    add_numbers(
        text,
        ",\"good\":false,\"place\":",
        place,
        ",\"element\":",
        element,
    )
}

/// Adds what was expected, and what was found.
fn add_rule<A: Allocator + Copy>(
    text: &mut String<A>,
    octets: &[u8],
    found: Explained,
) -> Result<(), OutOfMemory>
    ensures { OnOk result (string_bytes text.new ≡ string_bytes text.old ++ json_rule octets.now found) }
{
    text.push_str(",\"expected\":\"")?;
    add_wanted(text, octets, found)?;
    text.push_str("\",\"found\":\"")?;
    add_found(text, octets, found.place, found.rule)?;
    Ok(text.push_str("\"")?)
}

/// Adds the members of a message with a fault.
fn add_members<A: Allocator + Copy>(
    text: &mut String<A>,
    octets: &[u8],
    found: Explained,
) -> Result<(), OutOfMemory>
    ensures { OnOk result (string_bytes text.new ≡ string_bytes text.old ++ json_fault octets.now (Some found)) }
{
    add_place(text, found)?;
    add_rule(text, octets, found)
}

/// Adds the members for the fault of a message, or for that it has none.
fn add_fault<A: Allocator + Copy>(
    text: &mut String<A>,
    octets: &[u8],
    found: Option<Explained>,
) -> Result<(), OutOfMemory>
    ensures { OnOk result (string_bytes text.new ≡ string_bytes text.old ++ json_fault octets.now found) }
{
    match found {
        Some(fault) => add_members(text, octets, fault),
        None => Ok(text.push_str(",\"good\":true")?),
    }
}

/// Adds what a message names by a list, if there is one.
fn add_named<A: Allocator + Copy>(
    text: &mut String<A>,
    names: Option<&[Named<'_>]>,
    judged: &Judged<'_>,
) -> Result<(), OutOfMemory>
    ensures { OnOk result (string_bytes text.new ≡ string_bytes text.old
        ++ json_named (names_view names.entry) judged.now.octets.now) }
{
    match names {
        Some(names) => add_json_names(text, names, judged),
        None => Ok(()),
    }
}

/// Adds the object of a message.
pub(crate) fn add_object<A: Allocator + Copy>(
    text: &mut String<A>,
    names: Option<&[Named<'_>]>,
    called: Label<'_>,
    judged: &Judged<'_>,
) -> Result<(), OutOfMemory>
    ensures { OnOk result (string_bytes text.new ≡ string_bytes text.old
        ++ json_text (names_view names.entry) (label_view called.entry) judged.now.octets.now) }
{
    add_label(text, called)?;
    add_verdict_member(text, judged.verdict)?;
    add_fault(text, judged.octets, judged.found)?;
    add_named(text, names, judged)?;
    Ok(text.push_str("}\n")?)
}

/// Adds the object of a line that is neither blank nor a message.
pub(crate) fn add_bad_object<A: Allocator + Copy>(
    text: &mut String<A>,
    number: u64,
    why: BadLine,
) -> Result<(), OutOfMemory>
    ensures { OnOk result (string_bytes text.new ≡ string_bytes text.old ++ json_bad_text number why) }
{
    add_number(text, "{\"line\":", number)?;
    text.push_str(",\"bad\":\"")?;
    add_bad(text, why)?;
    Ok(text.push_str("\"}\n")?)
}

/// Adds the object of octets of a stream that are passed over: the offset of the first, and how many they are.
pub(crate) fn add_passed_object<A: Allocator + Copy>(
    text: &mut String<A>,
    first: u64,
    count: u64,
) -> Result<(), OutOfMemory>
    ensures { OnOk result (string_bytes text.new ≡ string_bytes text.old ++ json_passed_text first count) }
{
    add_numbers(text, "{\"offset\":", first, ",\"passed\":", count)?;
    Ok(text.push_str("}\n")?)
}

/// Adds the object that nothing is read behind octets of a stream at which no message is, by the offset of the first.
pub(crate) fn add_unread_object<A: Allocator + Copy>(
    text: &mut String<A>,
    offset: u64,
) -> Result<(), OutOfMemory>
    ensures { OnOk result (string_bytes text.new ≡ string_bytes text.old ++ json_unread_text offset) }
{
    add_number(text, "{\"offset\":", offset)?;
    Ok(text.push_str(",\"stopped\":true}\n")?)
}

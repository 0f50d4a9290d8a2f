//! The words of a dialogue portion.
//!
//! A private function that is refused memory leaves some of its words behind the text that was there, and the
//! public one that calls it cuts them off.

ghost use Rattle.std.specs.Prelude.{◌≡◌, ◌++◌, codes, OnOk, OnErr, IfOk, string_bytes};
ghost use Rattle.std.specs.Fmt.{decimal};
ghost use Rattle.tcap_pdu.specs.DialogueSpelling.{result_number};
ghost use Rattle.tcap_pdu.specs.DialogueSpelling.PduValue.{aare, abrt, foreign};
ghost use Rattle.tcap_pdu.specs.DialogueViews.{pdu_value, source};
ghost use Rattle.hex.specs.Hex.{encode_lower};
ghost use Rattle.tcap_words.specs.Text.{BeginsWith, answer_words, inner_line, octets_words};
ghost use Rattle.tcap_words.specs.DialogueText.{request_words, diagnostic_words, source_words, pdu_words, portion_words};

use crate::hexadecimal::add_hex;
use crate::text::{add_decimal, add_octets_or_dash, cut_back, yes_or_no};
use ber_core::OutOfMemory;
use std::alloc::Allocator;
use tcap_pdu::{Diagnostic, DialoguePdu, read_dialogue};

/// Adds how a dialogue PDU of this name opens: with its version and its context.
fn add_opening<A: Allocator + Copy>(
    text: &mut String<A>,
    name: &str,
    version1: bool,
    context: &[u8],
) -> Result<(), OutOfMemory>
    ensures ok { OnOk result (string_bytes text.new ≡ string_bytes text.old ++ (name.now ++ (codes " version "
        ++ (answer_words version1 ++ (codes " context " ++ encode_lower context.now))))) }
    ensures kept { OnErr result (BeginsWith (string_bytes text.old) (string_bytes text.new)) }
{
    text.push_str(name)?;
    text.push_str(" version ")?;
    text.push_str(yes_or_no(version1))?;
    text.push_str(" context ")?;
    add_hex(text, context)
}

/// Adds the words of an AARQ or an AUDT, by its name.
fn add_request<A: Allocator + Copy>(
    text: &mut String<A>,
    name: &str,
    version1: bool,
    context: &[u8],
    info: &[u8],
) -> Result<(), OutOfMemory>
    ensures ok { OnOk result (string_bytes text.new ≡ string_bytes text.old
        ++ (name.now ++ request_words version1 context.now info.now)) }
    ensures kept { OnErr result (BeginsWith (string_bytes text.old) (string_bytes text.new)) }
{
    add_opening(text, name, version1, context)?;
    text.push_str(" info ")?;
    add_octets_or_dash(text, info)
}

/// Adds the words of a diagnostic.
fn add_diagnostic<A: Allocator + Copy>(
    text: &mut String<A>,
    diagnostic: Diagnostic,
) -> Result<(), OutOfMemory>
    ensures ok { OnOk result (string_bytes text.new ≡ string_bytes text.old ++ diagnostic_words (source diagnostic)) }
    ensures kept { OnErr result (BeginsWith (string_bytes text.old) (string_bytes text.new)) }
{
    match diagnostic {
        Diagnostic::User(number) => {
            text.push_str("user ")?;
            add_decimal(text, u64::from(number))
        }
        Diagnostic::Provider(number) => {
            text.push_str("provider ")?;
            add_decimal(text, u64::from(number))
        }
    }
}

/// The number of an AARE's result.
fn result_number(accepted: bool) -> u8
    ensures { result ≡ result_number accepted }
{
    if accepted { 0 } else { 1 }
}

/// Adds what follows the context in an AARE: its result, its diagnostic and its information.
fn add_answer<A: Allocator + Copy>(
    text: &mut String<A>,
    accepted: bool,
    diagnostic: Diagnostic,
    info: &[u8],
) -> Result<(), OutOfMemory>
    ensures ok { OnOk result (string_bytes text.new ≡ string_bytes text.old ++ (codes " result "
        ++ (decimal (result_number accepted) ++ (codes " "
        ++ (diagnostic_words (source diagnostic) ++ (codes " info " ++ octets_words info.now)))))) }
    ensures kept { OnErr result (BeginsWith (string_bytes text.old) (string_bytes text.new)) }
{
    text.push_str(" result ")?;
    add_decimal(text, u64::from(result_number(accepted)))?;
    text.push_str(" ")?;
    add_diagnostic(text, diagnostic)?;
    text.push_str(" info ")?;
    add_octets_or_dash(text, info)
}

/// Adds the words of an AARE.
fn add_response<A: Allocator + Copy>(
    text: &mut String<A>,
    version1: bool,
    context: &[u8],
    accepted: bool,
    diagnostic: Diagnostic,
    info: &[u8],
) -> Result<(), OutOfMemory>
    ensures ok { OnOk result (string_bytes text.new ≡ string_bytes text.old
        ++ pdu_words (aare version1 context.now accepted (source diagnostic) info.now)) }
    ensures kept { OnErr result (BeginsWith (string_bytes text.old) (string_bytes text.new)) }
{
    add_opening(text, "aare", version1, context)?;
    add_answer(text, accepted, diagnostic, info)
}

/// Who aborts: `user` or `provider`.
fn source_name(by_provider: bool) -> &'static str
    ensures { result.now ≡ source_words by_provider }
{
    if by_provider { "provider" } else { "user" }
}

/// Adds the words of an ABRT.
fn add_abort<A: Allocator + Copy>(
    text: &mut String<A>,
    by_provider: bool,
    info: &[u8],
) -> Result<(), OutOfMemory>
    ensures ok { OnOk result (string_bytes text.new ≡ string_bytes text.old
        ++ pdu_words (abrt by_provider info.now)) }
    ensures kept { OnErr result (BeginsWith (string_bytes text.old) (string_bytes text.new)) }
{
    text.push_str("abrt ")?;
    text.push_str(source_name(by_provider))?;
    text.push_str(" info ")?;
    add_octets_or_dash(text, info)
}

/// Adds the words of an EXTERNAL that is foreign.
fn add_foreign<A: Allocator + Copy>(
    text: &mut String<A>,
    external: &[u8],
) -> Result<(), OutOfMemory>
    ensures ok { OnOk result (string_bytes text.new ≡ string_bytes text.old ++ pdu_words (foreign external.now)) }
    ensures kept { OnErr result (BeginsWith (string_bytes text.old) (string_bytes text.new)) }
{
    text.push_str("foreign ")?;
    add_hex(text, external)
}

/// Adds the words of a dialogue PDU, piece by piece.
fn add_pdu_words<A: Allocator + Copy>(
    text: &mut String<A>,
    pdu: &DialoguePdu<'_>,
) -> Result<(), OutOfMemory>
    ensures ok { OnOk result (string_bytes text.new ≡ string_bytes text.old ++ pdu_words (pdu_value pdu.now)) }
    ensures kept { OnErr result (BeginsWith (string_bytes text.old) (string_bytes text.new)) }
{
    match pdu {
        DialoguePdu::Aarq {
            version1,
            context,
            info,
        } => add_request(text, "aarq", *version1, context, info),
        DialoguePdu::Audt {
            version1,
            context,
            info,
        } => add_request(text, "audt", *version1, context, info),
        DialoguePdu::Aare {
            version1,
            context,
            accepted,
            diagnostic,
            info,
        } => add_response(text, *version1, *context, *accepted, *diagnostic, info),
        DialoguePdu::Abrt { by_provider, info } => add_abort(text, *by_provider, info),
        DialoguePdu::Foreign { external } => add_foreign(text, *external),
    }
}

/// Adds the words of a dialogue PDU. Where memory is refused, the text is as before.
pub fn add_pdu<A: Allocator + Copy>(
    text: &mut String<A>,
    pdu: &DialoguePdu<'_>,
) -> Result<(), OutOfMemory>
    ensures ok { OnOk result (string_bytes text.new ≡ string_bytes text.old ++ pdu_words (pdu_value pdu.now)) }
    ensures err { OnErr result (string_bytes text.new ≡ string_bytes text.old) }
{
    let len = text.len();
    let added = add_pdu_words(text, pdu);
    if added.is_err() {
        cut_back(text, len);
    }
    added
}

/// The words of a dialogue PDU.
pub fn pdu_text<A: Allocator + Copy>(
    alloc: A,
    pdu: &DialoguePdu<'_>,
) -> Result<String<A>, OutOfMemory>
    ensures { IfOk result (λ words. string_bytes words ≡ pdu_words (pdu_value pdu.now)) }
{
    let mut words = String::new(alloc);
    add_pdu(&mut words, pdu)?;
    Ok(words)
}

/// Adds the line under a dialogue portion with these contents.
pub(crate) fn add_portion<A: Allocator + Copy>(
    text: &mut String<A>,
    content: &[u8],
) -> Result<(), OutOfMemory>
    ensures ok { OnOk result (string_bytes text.new ≡ string_bytes text.old
        ++ inner_line (portion_words content.now)) }
    ensures kept { OnErr result (BeginsWith (string_bytes text.old) (string_bytes text.new)) }
{
    text.push_str("    ")?;
    match read_dialogue(content) {
        Ok(pdu) => add_pdu_words(text, &pdu)?,
        Err(_) => text.push_str("faulty")?,
    }
    text.push_str("\n")?;
    Ok(())
}

//! The words of an indication of dialogue handling.

ghost use Rattle.std.specs.Prelude.{◌≡◌, ◌++◌, OnOk, string_bytes, option_copied, option_map};
ghost use Rattle.tcap_primitives.specs.OutputViews.{cause_view, shown};
ghost use Rattle.tcap_model.specs.Words.Output.{DialogueIndication};
ghost use Rattle.tcap_pdu.specs.DialogueViews.{pdu_value};
ghost use Rattle.tcap_play.specs.OutputParts.{dialogue_part};
ghost use Rattle.tcap_play.specs.OutputText.{context_words, message_words, dialogue_words};

use ber_core::OutOfMemory;
use std::alloc::Allocator;
use tcap_engine::{Output, Why};
use tcap_pdu::DialoguePdu;
use tcap_text::{add_decimal, add_octets_or_dash, add_optional_octets, add_pdu};

/// Adds an application context name and user information.
fn add_context<A: Allocator + Copy>(
    text: &mut String<A>,
    context: Option<&[u8]>,
    info: &[u8],
) -> Result<(), OutOfMemory>
    ensures { OnOk result (string_bytes text.new ≡ string_bytes text.old
        ++ context_words (option_copied context.entry) info.now) }
{
    text.push_str("context ")?;
    add_optional_octets(text, context)?;
    text.push_str(" info ")?;
    add_octets_or_dash(text, info)
}

/// Adds the indication of a Unidirectional.
fn add_uni<A: Allocator + Copy>(
    text: &mut String<A>,
    context: Option<&[u8]>,
    info: &[u8],
) -> Result<(), OutOfMemory>
    ensures { OnOk result (string_bytes text.new ≡ string_bytes text.old
        ++ dialogue_words (DialogueIndication.uni (option_copied context.entry) info.now)) }
{
    text.push_str("uni ")?;
    add_context(text, context, info)
}

/// Adds the indication of another message, by its name.
fn add_message<A: Allocator + Copy>(
    text: &mut String<A>,
    name: &str,
    dialogue: u32,
    context: Option<&[u8]>,
    info: &[u8],
) -> Result<(), OutOfMemory>
    ensures { OnOk result (string_bytes text.new ≡ string_bytes text.old
        ++ message_words name.now dialogue (option_copied context.entry) info.now) }
{
    text.push_str(name)?;
    text.push_str(" ")?;
    add_decimal(text, u64::from(dialogue))?;
    text.push_str(" ")?;
    add_context(text, context, info)
}

/// Adds the indication of an Abort by the peer's user.
fn add_user_abort<A: Allocator + Copy>(
    text: &mut String<A>,
    dialogue: u32,
    pdu: &Option<DialoguePdu<'_>>,
) -> Result<(), OutOfMemory>
    ensures { OnOk result (string_bytes text.new ≡ string_bytes text.old
        ++ dialogue_words (DialogueIndication.u_abort dialogue (option_map pdu_value pdu.now))) }
{
    text.push_str("uabort ")?;
    add_decimal(text, u64::from(dialogue))?;
    text.push_str(" ")?;
    match pdu {
        Some(pdu) => add_pdu(text, pdu),
        None => Ok(text.push_str("-")?),
    }
}

/// Adds the indication of an abort by the provider.
fn add_provider_abort<A: Allocator + Copy>(
    text: &mut String<A>,
    dialogue: u32,
    why: Why,
) -> Result<(), OutOfMemory>
    ensures { OnOk result (string_bytes text.new ≡ string_bytes text.old
        ++ dialogue_words (DialogueIndication.p_abort dialogue (cause_view why))) }
{
    text.push_str("pabort ")?;
    add_decimal(text, u64::from(dialogue))?;
    match why {
        Why::Cause(number) => {
            text.push_str(" cause ")?;
            add_decimal(text, u64::from(number))
        }
        Why::Abnormal => Ok(text.push_str(" abnormal")?),
        Why::NoCommon => Ok(text.push_str(" nocommon")?),
        Why::Idle => Ok(text.push_str(" idle")?),
    }
}

/// Adds the words of an indication of dialogue handling, nothing of another output.
pub fn add_dialogue<A: Allocator + Copy>(
    text: &mut String<A>,
    output: &Output<'_, A>,
) -> Result<(), OutOfMemory>
    ensures { OnOk result (string_bytes text.new ≡ string_bytes text.old ++ dialogue_part (shown output.now)) }
{
    match output {
        Output::Uni { context, info } => add_uni(text, *context, info),
        Output::Begin {
            dialogue,
            context,
            info,
        } => add_message(text, "begin", *dialogue, *context, info),
        Output::Continue {
            dialogue,
            context,
            info,
        } => add_message(text, "continue", *dialogue, *context, info),
        Output::End {
            dialogue,
            context,
            info,
        } => add_message(text, "end", *dialogue, *context, info),
        Output::UAbort { dialogue, pdu } => add_user_abort(text, *dialogue, pdu),
        Output::PAbort { dialogue, why } => add_provider_abort(text, *dialogue, *why),
        Output::Send { .. } | Output::Dropped(_) => Ok(()),
        Output::Invoked { .. } | Output::ResultMore { .. } => Ok(()),
        Output::LocalReject { .. } | Output::RemoteReject { .. } => Ok(()),
        Output::ResultLast { .. } | Output::ErrorBack { .. } => Ok(()),
        Output::Rejected { .. } | Output::Lapsed { .. } | Output::Ended { .. } => Ok(()),
    }
}

//! The members of an indication of dialogue handling.

ghost use Rattle.std.specs.Prelude.{◌≡◌, ◌++◌, OnOk, Some, option_copied, option_map, string_bytes};
ghost use Rattle.tcap_model.specs.Words.Output.{DialogueIndication};
ghost use Rattle.tcap_pdu.specs.DialogueViews.{pdu_value};
ghost use Rattle.tcap_primitives.specs.OutputViews.{cause_view, shown};
ghost use Rattle.tcap_living.specs.JsonText.{json_cause, json_dialogue, json_pdu, json_placed, json_portion};
ghost use Rattle.tcap_living.specs.OutputKinds.{json_dialogue_part};

use crate::json_values::{add_between, add_placed, add_portion};
use ber_core::OutOfMemory;
use std::alloc::Allocator;
use tcap_engine::{Output, Why};
use tcap_pdu::DialoguePdu;
use tcap_text::{add_decimal, add_pdu};

/// Adds the indication of a Unidirectional.
fn add_uni<A: Allocator + Copy>(
    text: &mut String<A>,
    context: Option<&[u8]>,
    info: &[u8],
) -> Result<(), OutOfMemory>
    ensures { OnOk result (string_bytes text.new ≡ string_bytes text.old
        ++ json_dialogue (DialogueIndication.uni (option_copied context.entry) info.now)) }
{
    text.push_str("uni\"")?;
    add_portion(text, context, info)
}

/// Adds the indication of another message, by its name.
fn add_message<A: Allocator + Copy>(
    text: &mut String<A>,
    name: &str,
    dialogue: u32,
    context: Option<&[u8]>,
    info: &[u8],
) -> Result<(), OutOfMemory>
    ensures { OnOk result (string_bytes text.new ≡ string_bytes text.old
        ++ (json_placed name.now (Some dialogue) ++ json_portion (option_copied context.entry) info.now)) }
{
    add_placed(text, name, Some(u64::from(dialogue)))?;
    add_portion(text, context, info)
}

/// Adds the dialogue PDU of an Abort.
fn add_abort_pdu<A: Allocator + Copy>(
    text: &mut String<A>,
    pdu: &Option<DialoguePdu<'_>>,
) -> Result<(), OutOfMemory>
    ensures { OnOk result (string_bytes text.new ≡ string_bytes text.old
        ++ json_pdu (option_map pdu_value pdu.now)) }
{
    match pdu {
        Some(pdu) => {
            text.push_str(",\"pdu\":\"")?;
            add_pdu(text, pdu)?;
            Ok(text.push_str("\"")?)
        }
        None => Ok(text.push_str(",\"pdu\":null")?),
    }
}

/// Adds the indication of an Abort by the peer's user.
fn add_user_abort<A: Allocator + Copy>(
    text: &mut String<A>,
    dialogue: u32,
    pdu: &Option<DialoguePdu<'_>>,
) -> Result<(), OutOfMemory>
    ensures { OnOk result (string_bytes text.new ≡ string_bytes text.old
        ++ json_dialogue (DialogueIndication.u_abort dialogue (option_map pdu_value pdu.now))) }
{
    add_placed(text, "uabort", Some(u64::from(dialogue)))?;
    add_abort_pdu(text, pdu)
}

/// Adds why the provider aborts.
fn add_cause<A: Allocator + Copy>(text: &mut String<A>, why: Why) -> Result<(), OutOfMemory>
    ensures { OnOk result (string_bytes text.new ≡ string_bytes text.old ++ json_cause (cause_view why)) }
{
    match why {
        Why::Cause(number) => {
            text.push_str(",\"why\":\"cause ")?;
            add_decimal(text, u64::from(number))?;
            Ok(text.push_str("\"")?)
        }
        Why::Abnormal => add_between(text, ",\"why\":\"", "abnormal", "\""),
        Why::NoCommon => add_between(text, ",\"why\":\"", "nocommon", "\""),
        Why::Idle => add_between(text, ",\"why\":\"", "idle", "\""),
    }
}

/// Adds the indication of an abort by the provider.
fn add_provider_abort<A: Allocator + Copy>(
    text: &mut String<A>,
    dialogue: u32,
    why: Why,
) -> Result<(), OutOfMemory>
    ensures { OnOk result (string_bytes text.new ≡ string_bytes text.old
        ++ json_dialogue (DialogueIndication.p_abort dialogue (cause_view why))) }
{
    add_placed(text, "pabort", Some(u64::from(dialogue)))?;
    add_cause(text, why)
}

/// Adds the members of an indication of dialogue handling, nothing of another output.
pub(super) fn add_dialogue<A: Allocator + Copy>(
    text: &mut String<A>,
    output: &Output<'_, A>,
) -> Result<(), OutOfMemory>
    ensures { OnOk result (string_bytes text.new ≡ string_bytes text.old ++ json_dialogue_part (shown output.now)) }
{
    match output {
        Output::Uni { context, info } => add_uni(text, *context, info),
        Output::Begin {
            dialogue,
            context,
            info,
        } => add_message(text, "begin", *dialogue, *context, info),
        Output::Continue {
            dialogue,
            context,
            info,
        } => add_message(text, "continue", *dialogue, *context, info),
        Output::End {
            dialogue,
            context,
            info,
        } => add_message(text, "end", *dialogue, *context, info),
        Output::UAbort { dialogue, pdu } => add_user_abort(text, *dialogue, pdu),
        Output::PAbort { dialogue, why } => add_provider_abort(text, *dialogue, *why),
        Output::Send { .. } | Output::Dropped(_) => Ok(()),
        Output::Invoked { .. } | Output::ResultMore { .. } => Ok(()),
        Output::LocalReject { .. } | Output::RemoteReject { .. } => Ok(()),
        Output::ResultLast { .. } | Output::ErrorBack { .. } => Ok(()),
        Output::Rejected { .. } | Output::Lapsed { .. } | Output::Ended { .. } => Ok(()),
    }
}

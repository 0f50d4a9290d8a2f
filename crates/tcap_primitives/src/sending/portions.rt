//! The dialogue PDUs of the requests.

ghost use Rattle.std.specs.Prelude.{◌≡◌, option_copied, unwrap_or, Some, None, true, false};
ghost use Rattle.tcap_primitives.specs.SendingViews.{CanCarry, portion_view, reason_with};
ghost use Rattle.tcap_primitives.specs.ContextViews.{context_view};
ghost use Rattle.tcap_model.specs.Procedures.RequestMessage.{accepting_portion, begin_portion, uni_portion, user_abort};
ghost use Rattle.tcap_pdu.specs.DialogueSpelling.{PduValue, Source};
ghost use Rattle.tcap_pdu.specs.DialogueViews.{pdu_value};

use crate::context::Context;
use std::alloc::Allocator;
use tcap_pdu::dialogue_tag::{CONTEXT_NAME_NOT_SUPPORTED, NULL};
use tcap_pdu::{Diagnostic, DialoguePdu};

/// The AARQ of a Begin, where there is a context.
#[tactic(auto, using(crate::proofs::PortionLemmas::request_good))]
pub fn begin_pdu<'a>(context: Option<&'a [u8]>, info: &'a [u8]) -> Option<DialoguePdu<'a>>
    ensures portion { portion_view result ≡ begin_portion (option_copied context.entry) info.now }
    ensures sound { CanCarry (option_copied context.entry) info.now result }
{
    match context {
        None => None,
        Some(context) => Some(DialoguePdu::Aarq {
            version1: true,
            context,
            info,
        }),
    }
}

/// The AUDT of a Unidirectional, where there is a context.
#[tactic(auto, using(crate::proofs::PortionLemmas::alone_good))]
pub fn uni_pdu<'a>(context: Option<&'a [u8]>, info: &'a [u8]) -> Option<DialoguePdu<'a>>
    ensures portion { portion_view result ≡ uni_portion (option_copied context.entry) info.now }
    ensures sound { CanCarry (option_copied context.entry) info.now result }
{
    match context {
        None => None,
        Some(context) => Some(DialoguePdu::Audt {
            version1: true,
            context,
            info,
        }),
    }
}

/// The AARE that accepts an AARQ with this context, with the one given or else with that.
#[tactic(auto, using(crate::proofs::PortionLemmas::response_good, crate::proofs::PortionLemmas::given_good))]
fn accepting_pdu<'a, A: Allocator + Copy>(
    asked: &'a Context<A>,
    given: Option<&'a [u8]>,
    info: &'a [u8],
) -> DialoguePdu<'a>
    ensures value { pdu_value result ≡ PduValue.aare true
        (unwrap_or (option_copied given.entry) asked.now.octets.items) true (Source.user 0) info.now }
    ensures sound { CanCarry (option_copied given.entry) info.now (Some result) }
{
    DialoguePdu::Aare {
        version1: true,
        context: given.unwrap_or(&asked.octets),
        accepted: true,
        diagnostic: Diagnostic::User(NULL),
        info,
    }
}

/// The AARE that accepts an AARQ, where there was one.
pub fn answering_pdu<'a, A: Allocator + Copy>(
    asked: &'a Option<Context<A>>,
    given: Option<&'a [u8]>,
    info: &'a [u8],
) -> Option<DialoguePdu<'a>>
    ensures portion { portion_view result
        ≡ accepting_portion (context_view asked.now) (option_copied given.entry) info.now }
    ensures sound { CanCarry (option_copied given.entry) info.now result }
{
    match asked {
        None => None,
        Some(asked) => Some(accepting_pdu(asked, given, info)),
    }
}

/// The AARE that refuses the context of an AARQ.
#[tactic(auto, using(crate::proofs::PortionLemmas::response_good))]
pub fn refusing_pdu<'a, A: Allocator + Copy>(
    asked: &'a Context<A>,
    info: &'a [u8],
) -> DialoguePdu<'a>
    ensures value { pdu_value result ≡ PduValue.aare true asked.now.octets.items false (Source.user 2) info.now }
    ensures sound { CanCarry None info.now (Some result) }
{
    DialoguePdu::Aare {
        version1: true,
        context: &asked.octets,
        accepted: false,
        diagnostic: Diagnostic::User(CONTEXT_NAME_NOT_SUPPORTED),
        info,
    }
}

/// The ABRT by the user.
#[tactic(auto, using(crate::proofs::PortionLemmas::abort_good))]
fn aborting_pdu<'a>(info: &'a [u8]) -> DialoguePdu<'a>
    ensures value { pdu_value result ≡ PduValue.abrt false info.now }
    ensures sound { CanCarry None info.now (Some result) }
{
    DialoguePdu::Abrt {
        by_provider: false,
        info,
    }
}

/// The ABRT by the user, where the dialogue has a context.
pub fn abort_pdu<'a, A: Allocator + Copy>(
    context: &Option<Context<A>>,
    info: &'a [u8],
) -> Option<DialoguePdu<'a>>
    ensures portion { reason_with (portion_view result) ≡ user_abort (context_view context.now) info.now }
    ensures sound { CanCarry None info.now result }
{
    match context {
        None => None,
        Some(_) => Some(aborting_pdu(info)),
    }
}

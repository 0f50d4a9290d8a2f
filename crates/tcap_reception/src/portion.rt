//! What the dialogue portion of a message means.

// Hints to inline: each step of an engine runs through it; docs/PERF.md says what the whole of it inlined gains.

ghost use Rattle.std.specs.Prelude.{◌≡◌, Some, option_copied};
ghost use Rattle.tcap_reception.specs.PortionViews.{portion_view, begin_view, PortionIn, BeginIn, BeginNames};
ghost use Rattle.tcap_primitives.specs.ContextViews.{context_view};
ghost use Rattle.tcap_reception.specs.StateViews.{phase_view};
ghost use Rattle.tcap_model.specs.Procedures.PortionRules.{begin_verdict, begin_verdict_by, response_verdict, absent_verdict, answering_verdict, portion_verdict, uni_verdict, uni_verdict_by};
ghost use Rattle.tcap_pdu.specs.DialogueReading.{dialogue_at};

use crate::state::Phase;
use std::alloc::Allocator;
use tcap_pdu::{DialoguePdu, read_dialogue};
use tcap_primitives::Context;

/// The context and the user information of an AARQ or an AUDT, if there is one.
pub type AarqParts<'m> = Option<(&'m [u8], &'m [u8])>;

/// What the dialogue portion of a Unidirectional, of a Continue or of an End comes to
/// (Q.774, Abnormal procedures relating to dialogue control).
#[derive(Clone, Copy, Debug, PartialEq, Eq)]
pub enum PortionVerdict<'m> {
    /// It is as it should be: the contents octets of the application context name and the user
    /// information that are told, which is empty where there is none.
    Normal {
        context: Option<&'m [u8]>,
        info: &'m [u8],
    },
    /// It is abnormal.
    Abnormal,
}

/// What the dialogue portion of a Begin comes to (Q.774, Dialogue begin).
#[derive(Clone, Copy, Debug, PartialEq, Eq)]
pub enum BeginVerdict<'m> {
    /// There is none.
    Plain,
    /// An AARQ of version 1: the contents octets of its application context name, and its user
    /// information, empty where there is none.
    Context { context: &'m [u8], info: &'m [u8] },
    /// An AARQ without version 1, and its application context name.
    WrongVersion { context: &'m [u8] },
    /// Anything else.
    Abnormal,
}

/// The dialogue portion of a Begin: none, or an AARQ (Q.774, Dialogue begin).
#[inline(always)]
pub fn judge_begin<'m>(dialogue: Option<&'m [u8]>) -> BeginVerdict<'m>
    ensures verdict { begin_view result ≡ begin_verdict (option_copied dialogue.entry) }
    // A context is an object identifier.
    ensures named { BeginNames result }
    // The slices are the parts of the dialogue portion.
    ensures place { BeginIn result dialogue.entry }
{
    match dialogue {
        None => BeginVerdict::Plain,
        Some(portion) => judge_request(portion),
    }
}

/// `judge_begin`, of a dialogue portion that is there.
#[tactic(auto, using(crate::proofs::PortionNames::request_names))]
fn judge_request<'m>(portion: &'m [u8]) -> BeginVerdict<'m>
    ensures verdict { begin_view result ≡ begin_verdict_by (dialogue_at portion.now) }
    ensures named { BeginNames result }
    ensures place { BeginIn result (Some portion.entry) }
{
    match read_dialogue(portion) {
        Ok(
            DialoguePdu::Aarq {
                version1: true,
                context,
                info,
            },
        ) => BeginVerdict::Context { context, info },
        Ok(
            DialoguePdu::Aarq {
                version1: false,
                context,
                ..
            },
        ) => BeginVerdict::WrongVersion { context },
        Ok(
            DialoguePdu::Audt { .. }
            | DialoguePdu::Aare { .. }
            | DialoguePdu::Abrt { .. }
            | DialoguePdu::Foreign { .. },
        )
        | Err(_) => BeginVerdict::Abnormal,
    }
}

/// The dialogue portion of a Unidirectional: none, or an AUDT with version 1
/// (Q.774, Unstructured dialogue).
pub fn judge_uni<'m>(dialogue: Option<&'m [u8]>) -> PortionVerdict<'m>
    ensures verdict { portion_view result ≡ uni_verdict (option_copied dialogue.entry) }
    // The slices are the parts of the dialogue portion.
    ensures place { PortionIn 0x60 result dialogue.entry }
{
    match dialogue {
        None => PortionVerdict::Normal {
            context: None,
            info: &[],
        },
        Some(portion) => judge_unstructured(portion),
    }
}

/// `judge_uni`, of a dialogue portion that is there.
fn judge_unstructured<'m>(portion: &'m [u8]) -> PortionVerdict<'m>
    ensures verdict { portion_view result ≡ uni_verdict_by (dialogue_at portion.now) }
    ensures place { PortionIn 0x60 result (Some portion.entry) }
{
    match read_dialogue(portion) {
        Ok(
            DialoguePdu::Audt {
                version1: true,
                context,
                info,
            },
        ) => PortionVerdict::Normal {
            context: Some(context),
            info,
        },
        Ok(
            DialoguePdu::Audt {
                version1: false,
                ..
            }
            | DialoguePdu::Aarq { .. }
            | DialoguePdu::Aare { .. }
            | DialoguePdu::Abrt { .. }
            | DialoguePdu::Foreign { .. },
        )
        | Err(_) => PortionVerdict::Abnormal,
    }
}

/// The answer to an AARQ: an accepted AARE (Q.774, Dialogue continuation).
fn judge_response<'m>(portion: &'m [u8]) -> PortionVerdict<'m>
    ensures verdict { portion_view result ≡ response_verdict (dialogue_at portion.now) }
    ensures place { PortionIn 0x61 result (Some portion.entry) }
{
    match read_dialogue(portion) {
        Ok(
            DialoguePdu::Aare {
                context,
                accepted: true,
                info,
                ..
            },
        ) => PortionVerdict::Normal {
            context: Some(context),
            info,
        },
        Ok(
            DialoguePdu::Aare {
                accepted: false,
                ..
            }
            | DialoguePdu::Aarq { .. }
            | DialoguePdu::Audt { .. }
            | DialoguePdu::Abrt { .. }
            | DialoguePdu::Foreign { .. },
        )
        | Err(_) => PortionVerdict::Abnormal,
    }
}

/// No dialogue portion may stand there (Q.774, Dialogue continuation).
#[inline(always)]
fn judge_absent<'m>(dialogue: Option<&'m [u8]>) -> PortionVerdict<'m>
    ensures verdict { portion_view result ≡ absent_verdict (option_copied dialogue.entry) }
    ensures place { PortionIn 0x61 result dialogue.entry }
{
    match dialogue {
        None => PortionVerdict::Normal {
            context: None,
            info: &[],
        },
        Some(_) => PortionVerdict::Abnormal,
    }
}

/// An accepted AARE must stand there (Q.774, Dialogue continuation).
fn judge_answer<'m>(dialogue: Option<&'m [u8]>) -> PortionVerdict<'m>
    ensures verdict { portion_view result ≡ answering_verdict (option_copied dialogue.entry) }
    ensures place { PortionIn 0x61 result dialogue.entry }
{
    match dialogue {
        None => PortionVerdict::Abnormal,
        Some(portion) => judge_response(portion),
    }
}

/// The dialogue portion of a Continue or an End to a dialogue in this state, with this application
/// context (Q.774, Dialogue continuation).
#[inline(always)]
pub fn judge_portion<'m, A: Allocator + Copy>(
    phase: &Phase,
    context: &Option<Context<A>>,
    dialogue: Option<&'m [u8]>,
) -> PortionVerdict<'m>
    ensures verdict { portion_view result
        ≡ portion_verdict (phase_view phase.now) (context_view context.now) (option_copied dialogue.entry) }
    ensures place { PortionIn 0x61 result dialogue.entry }
{
    match phase {
        Phase::Fresh | Phase::Received(_) => PortionVerdict::Abnormal,
        Phase::Sent => match context {
            None => judge_absent(dialogue),
            Some(_) => judge_answer(dialogue),
        },
        Phase::Active(_) => judge_absent(dialogue),
    }
}

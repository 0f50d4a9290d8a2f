//! What a message names: its application context, and its components, each with the code of its operation or its error.

ghost use Rattle.std.specs.Prelude.{◌≡◌, option_copied, option_map};
ghost use Rattle.tcap_component.specs.Views.{body_parts, code_parts, component_parts};
ghost use Rattle.tcap_judging.specs.MessageItems.{body_code, context_in, is_message, item_of};

use tcap_component::{Body, Code, Component};
use tcap_pdu::{DialoguePdu, read_dialogue};
use tcap_words::Verdict;

/// The kind of a component (Q.773, Component portion).
#[derive(Clone, Copy)]
pub(crate) enum ItemKind {
    /// An Invoke.
    Invoke,
    /// A Return Result Last.
    Result,
    /// A Return Result Not Last.
    ResultMore,
    /// A Return Error.
    Error,
    /// A Reject.
    Reject,
}

/// The application context that a dialogue portion names, if there is one that can be read.
pub(crate) fn context_in<'a>(dialogue: Option<&'a [u8]>) -> Option<&'a [u8]>
    ensures { option_copied result ≡ context_in (option_copied dialogue.entry) }
{
    let Some(content) = dialogue else {
        return None;
    };
    match read_dialogue(content) {
        Ok(
            DialoguePdu::Aarq { context, .. }
            | DialoguePdu::Audt { context, .. }
            | DialoguePdu::Aare { context, .. },
        ) => Some(context),
        Ok(DialoguePdu::Abrt { .. } | DialoguePdu::Foreign { .. }) | Err(_) => None,
    }
}

/// Whether octets on which this is the verdict are a message. Others name nothing, and aren't read again for that.
pub(crate) fn is_message(verdict: Verdict) -> bool
    ensures { result ≡ is_message verdict }
{
    match verdict {
        Verdict::TooLong | Verdict::UnknownType | Verdict::BadlyFormatted | Verdict::Incorrect =>
            false,
        Verdict::Dialogue | Verdict::Component(_) | Verdict::Good => true,
    }
}

/// The kind of a component.
pub(crate) fn kind_of(component: &Component<'_>) -> ItemKind
    ensures { result ≡ (item_of (component_parts component.now)).kind }
{
    match component {
        Component::Invoke { .. } => ItemKind::Invoke,
        Component::ResultLast { .. } => ItemKind::Result,
        Component::ResultMore { .. } => ItemKind::ResultMore,
        Component::ErrorBack { .. } => ItemKind::Error,
        Component::RejectBack { .. } => ItemKind::Reject,
    }
}

/// The invoke identifier of a component, if it has one.
pub(crate) fn id_of(component: &Component<'_>) -> Option<i8>
    ensures { result ≡ (item_of (component_parts component.now)).id }
{
    match component {
        Component::Invoke { id, .. }
        | Component::ResultLast { id, .. }
        | Component::ResultMore { id, .. }
        | Component::ErrorBack { id, .. } => Some(*id),
        Component::RejectBack { id, .. } => *id,
    }
}

/// The code of the operation in the body of a result, if there is one.
fn body_code<'a>(body: &Option<Body<'a>>) -> Option<Code<'a>>
    ensures { option_map code_parts result ≡ body_code (option_map body_parts body.now) }
{
    match body {
        Some(body) => Some(body.code),
        None => None,
    }
}

/// The code of the operation or the error of a component, if it has one.
pub(crate) fn code_of<'a>(component: &Component<'a>) -> Option<Code<'a>>
    ensures { option_map code_parts result ≡ (item_of (component_parts component.now)).code }
{
    match component {
        Component::Invoke { code, .. } | Component::ErrorBack { code, .. } => Some(*code),
        Component::ResultLast { body, .. } | Component::ResultMore { body, .. } => body_code(body),
        Component::RejectBack { .. } => None,
    }
}

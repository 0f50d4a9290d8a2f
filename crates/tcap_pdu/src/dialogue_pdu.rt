//! Dialogue PDUs: AARQ, AUDT, AARE, ABRT (Q.773, Dialogue portion).

pub(crate) mod len;
mod parts;
mod plain;
pub(crate) mod put;
mod read;
mod write;

pub use len::dialogue_len;
pub use parts::is_user_information;
pub use read::read_dialogue;
pub use write::write_dialogue;

/// A result source diagnostic: who gives it, and its number, 0 to 127; the named ones stand in
/// `dialogue_tag` (Q.773, Dialogue portion).
#[derive(Clone, Copy, Debug, PartialEq, Eq)]
pub enum Diagnostic {
    /// Of the dialogue service user.
    User(u8),
    /// Of the dialogue service provider.
    Provider(u8),
}

/// A dialogue PDU (Q.773, Dialogue portion). `version1` says whether protocol version 1 is among the
/// versions, `context` is the contents octets of the application context name, 1 to 255, and `info`
/// is the user information: EXTERNALs one after the other, empty where it is left out.
#[derive(Clone, Copy, Debug, PartialEq, Eq)]
pub enum DialoguePdu<'a> {
    /// Dialogue request.
    Aarq {
        version1: bool,
        context: &'a [u8],
        info: &'a [u8],
    },
    /// Unidirectional dialogue.
    Audt {
        version1: bool,
        context: &'a [u8],
        info: &'a [u8],
    },
    /// Dialogue response: accepted or rejected for good, and the diagnostic of it.
    Aare {
        version1: bool,
        context: &'a [u8],
        accepted: bool,
        diagnostic: Diagnostic,
        info: &'a [u8],
    },
    /// Dialogue abort, by the dialogue service user or by its provider.
    Abrt {
        by_provider: bool,
        info: &'a [u8],
    },
    /// The octets of one EXTERNAL of another abstract syntax, which is not looked into (our own).
    Foreign {
        external: &'a [u8],
    },
}

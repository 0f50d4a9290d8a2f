//! All that was answered, in one number.

mod outputs;

use tcap_component::{Body, Code, Problem};
use tcap_engine::{Fault, Why};
use tcap_pdu::{Diagnostic, DialoguePdu};

/// The number: of two rows of answers that differ it is hardly ever the same.
#[derive(Drop)]
pub(crate) struct Digest {
    value: u64,
}

impl Digest {
    /// Of nothing.
    pub(crate) fn new() -> Digest {
        Digest { value: 0 }
    }

    /// The number.
    pub(crate) fn value(&self) -> u64 {
        self.value
    }

    /// Adds a number.
    pub(crate) fn number(&mut self, number: u64) {
        let mixed = self.value.rotate_left(23) ^ number;
        self.value = mixed.wrapping_mul(0x9e37_79b9_7f4a_7c15);
    }

    /// Adds octets, eight at a time, and how many there are.
    pub(crate) fn octets(&mut self, octets: &[u8]) {
        let (words, rest) = octets.as_chunks::<8>();
        for word in words {
            self.number(u64::from_le_bytes(*word));
        }
        for octet in rest {
            self.number(u64::from(*octet));
        }
        self.number(octets.len() as u64);
    }

    /// Adds octets, if there are any.
    fn optional(&mut self, octets: Option<&[u8]>) {
        match octets {
            Some(octets) => self.octets(octets),
            None => self.number(1 << 40),
        }
    }

    /// Adds an identifier, -128 to 127, if it is known.
    fn identifier(&mut self, id: Option<i8>) {
        match id {
            Some(id) => self.number(u64::from(id.cast_unsigned())),
            None => self.number(1 << 40),
        }
    }

    /// Adds why a request was refused.
    pub(crate) fn fault(&mut self, fault: Fault) {
        self.number(u64::from(fault.number()));
    }

    /// Adds the code of an operation or of an error.
    fn code(&mut self, code: &Code<'_>) {
        match code {
            Code::Local(code) => self.number(u64::from(code.cast_unsigned())),
            Code::Global(octets) => self.octets(octets),
        }
    }

    /// Adds what a result holds.
    fn body(&mut self, body: &Option<Body<'_>>) {
        match body {
            Some(body) => {
                self.code(&body.code);
                self.optional(body.parameter);
            }
            None => self.number(2 << 40),
        }
    }

    /// Adds a problem.
    fn problem(&mut self, problem: Problem) {
        self.number(problem.kind() as u64);
        self.number(u64::from(problem.code()));
    }

    /// Adds the name, the dialogue and the identifier with which an output begins.
    fn named(&mut self, name: u64, dialogue: u32, number: u64, id: i8) {
        self.number(name);
        self.number(u64::from(dialogue));
        self.number(number);
        self.identifier(Some(id));
    }

    /// Adds an indication of dialogue handling.
    fn told(&mut self, name: u64, dialogue: u32, context: Option<&[u8]>, info: &[u8]) {
        self.number(name);
        self.number(u64::from(dialogue));
        self.optional(context);
        self.octets(info);
    }

    /// Adds a dialogue PDU.
    pub(crate) fn pdu(&mut self, pdu: &DialoguePdu<'_>) {
        match pdu {
            DialoguePdu::Aarq { context, info, .. } => self.told(30, 0, Some(context), info),
            DialoguePdu::Audt { context, info, .. } => self.told(31, 0, Some(context), info),
            DialoguePdu::Aare {
                context,
                accepted,
                diagnostic,
                info,
                ..
            } => {
                self.told(32, u32::from(*accepted), Some(context), info);
                match diagnostic {
                    Diagnostic::User(code) => self.number(u64::from(*code)),
                    Diagnostic::Provider(code) => self.number(256 + u64::from(*code)),
                }
            }
            DialoguePdu::Abrt { by_provider, info } => {
                self.told(33, u32::from(*by_provider), None, info);
            }
            DialoguePdu::Foreign { external } => self.octets(external),
        }
    }

    /// Adds why the provider aborted.
    fn why(&mut self, why: Why) {
        self.number(match why {
            Why::Cause(cause) => u64::from(cause),
            Why::Abnormal => 256,
            Why::NoCommon => 257,
            Why::Idle => 258,
        });
    }
}

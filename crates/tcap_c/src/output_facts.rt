//! What is said of an output, one thing after the other.

ghost use Rattle.std.specs.Prelude.{◌≡◌, option_copied};
ghost use Rattle.std.specs.Option.{option_map};
ghost use Rattle.tcap_component.specs.Views.{code_parts, problem_parts};
ghost use Rattle.tcap_pdu.specs.DialogueViews.{pdu_value};
ghost use Rattle.tcap_c.specs.Numbers.{closing_of, of_dialogue, of_dialogue_if_any, of_invocation};
ghost use Rattle.tcap_c.specs.Numbers.{with_cause, with_code, with_context, with_id, with_linked, with_parameter};
ghost use Rattle.tcap_c.specs.Numbers.{with_pdu, with_problem};

use crate::numbering::{diagnostic_number, id_number, problem_number};
use crate::output_numbers::OutputNumbers;
use tcap_component::{Code, Problem};
use tcap_pdu::DialoguePdu;

/// Each says a thing more of an output.
impl OutputNumbers {
    /// It is of this dialogue.
    #[inline(always)]
    pub(crate) fn of_dialogue(self, dialogue: u32) -> OutputNumbers
        ensures { result ≡ of_dialogue dialogue self }
    {
        OutputNumbers {
            dialogue,
            has_dialogue: true,
            ..self
        }
    }

    /// It is of this dialogue, or of none.
    #[inline(always)]
    pub(crate) fn of_dialogue_if_any(self, dialogue: Option<u32>) -> OutputNumbers
        ensures { result ≡ of_dialogue_if_any dialogue self }
    {
        match dialogue {
            Some(dialogue) => self.of_dialogue(dialogue),
            None => OutputNumbers {
                dialogue: 0,
                has_dialogue: false,
                ..self
            },
        }
    }

    /// It has a context, or none.
    #[inline(always)]
    pub(crate) fn with_context(self, context: Option<&[u8]>) -> OutputNumbers
        ensures { result ≡ with_context (option_copied context.entry) self }
    {
        OutputNumbers {
            has_context: context.is_some(),
            ..self
        }
    }

    /// It has an invoke identifier, or none.
    #[inline(always)]
    pub(crate) fn with_id(self, id: Option<i8>) -> OutputNumbers
        ensures { result ≡ with_id id self }
    {
        OutputNumbers {
            invoke_id: id_number(id),
            ..self
        }
    }

    /// It has a linked identifier, or none.
    #[inline(always)]
    pub(crate) fn with_linked(self, linked: Option<i8>) -> OutputNumbers
        ensures { result ≡ with_linked linked self }
    {
        OutputNumbers {
            linked_id: id_number(linked),
            ..self
        }
    }

    /// It is of this invocation.
    #[inline(always)]
    pub(crate) fn of_invocation(self, dialogue: u32, number: u64, id: i8) -> OutputNumbers
        ensures { result ≡ of_invocation dialogue number id self }
    {
        let numbered = OutputNumbers { number, ..self };
        numbered.of_dialogue(dialogue).with_id(Some(id))
    }

    /// It closes this invocation.
    #[inline(always)]
    pub(crate) fn closing(self, dialogue: u32, number: u64, id: i8) -> OutputNumbers
        ensures { result ≡ closing_of dialogue number id self }
    {
        let closing = OutputNumbers {
            closes: true,
            ..self
        };
        closing.of_invocation(dialogue, number, id)
    }

    /// It has a code.
    #[inline(always)]
    pub(crate) fn with_code(self, code: Code<'_>) -> OutputNumbers
        ensures { result ≡ with_code (code_parts code.entry) self }
    {
        match code {
            Code::Local(number) => OutputNumbers {
                code_kind: 1,
                local: number,
                ..self
            },
            Code::Global(_) => OutputNumbers {
                code_kind: 2,
                ..self
            },
        }
    }

    /// It has a parameter, or none.
    #[inline(always)]
    pub(crate) fn with_parameter(self, parameter: Option<&[u8]>) -> OutputNumbers
        ensures { result ≡ with_parameter (option_copied parameter.entry) self }
    {
        OutputNumbers {
            has_parameter: parameter.is_some(),
            ..self
        }
    }

    /// It has a problem.
    #[inline(always)]
    pub(crate) fn with_problem(self, problem: Problem) -> OutputNumbers
        ensures { result ≡ with_problem (problem_parts problem) self }
    {
        OutputNumbers {
            problem: problem_number(problem),
            ..self
        }
    }

    /// It has a dialogue PDU, or none.
    #[inline(always)]
    pub(crate) fn with_pdu(self, pdu: Option<DialoguePdu<'_>>) -> OutputNumbers
        ensures { result ≡ with_pdu (option_map pdu_value pdu.entry) self }
    {
        let Some(pdu) = pdu else {
            return self;
        };
        match pdu {
            DialoguePdu::Aarq { version1, .. } => OutputNumbers {
                pdu: 1,
                is_version1: version1,
                has_context: true,
                ..self
            },
            DialoguePdu::Audt { version1, .. } => OutputNumbers {
                pdu: 2,
                is_version1: version1,
                has_context: true,
                ..self
            },
            DialoguePdu::Aare {
                version1,
                accepted,
                diagnostic,
                ..
            } => OutputNumbers {
                pdu: 3,
                is_version1: version1,
                has_context: true,
                is_accepted: accepted,
                diagnostic: diagnostic_number(diagnostic),
                ..self
            },
            DialoguePdu::Abrt { by_provider, .. } => OutputNumbers {
                pdu: 4,
                is_by_provider: by_provider,
                ..self
            },
            DialoguePdu::Foreign { .. } => OutputNumbers { pdu: 5, ..self },
        }
    }

    /// It has a cause.
    #[inline(always)]
    pub(crate) fn with_cause(self, cause: u16) -> OutputNumbers
        ensures { result ≡ with_cause cause self }
    {
        OutputNumbers { cause, ..self }
    }
}

//! Laws of the definitions, each the contract of a function that does nothing.

ghost use Rattle.std.specs.Prelude.{◌≡◌, ◌≢◌, ◌≤◌, ℕ, List, [], Some, length, Ok};
ghost use Rattle.tcap_pdu.specs.declared.fault.FrameFault.{FrameFault};
ghost use Rattle.tcap_pdu.specs.declared.tag.TheConstants.{UNRECOGNIZED_MESSAGE_TYPE, UNRECOGNIZED_TRANSACTION_ID, BADLY_FORMATTED_TRANSACTION_PORTION, INCORRECT_TRANSACTION_PORTION, RESOURCE_LIMITATION};
ghost use Rattle.tcap_pdu.specs.declared.dialogue_tag.TheConstants.{NULL, NO_REASON_GIVEN, CONTEXT_NAME_NOT_SUPPORTED, NO_COMMON_DIALOGUE_PORTION};
ghost use Rattle.tcap_pdu.specs.FrameSpelling.{Message, HasIds, HasCause, SpellsFrame};
ghost use Rattle.tcap_pdu.specs.FrameFaults.{IsFrameFault};
ghost use Rattle.tcap_pdu.specs.FrameReading.{frame_at};
ghost use Rattle.tcap_pdu.specs.FrameWritten.{message_limit, written_frame};
ghost use Rattle.tcap_pdu.specs.FrameLength.{dialogue_length, dialogue_of, frame_length, nonzero};
ghost use Rattle.tcap_pdu.specs.DialogueSpelling.{PduValue, SpellsDialogue};
ghost use Rattle.tcap_pdu.specs.DialogueReading.{dialogue_at};
ghost use Rattle.tcap_pdu.specs.DialogueWritten.{written_dialogue, HasDiagnostic, IsWritable};

/// Bytes spell at most one message (Q.773, Structure of TC messages).
pub fn one_frame()
    ensures { (m n : Message) (bytes : List ℕ) → SpellsFrame m bytes → SpellsFrame n bytes → m ≡ n }
{}

/// Bytes have at most one fault, and where they have one they spell no message (our own).
pub fn one_frame_fault()
    ensures one { (bytes : List ℕ) (f g : FrameFault) → IsFrameFault bytes f → IsFrameFault bytes g → f ≡ g }
    ensures no_frame { (m : Message) (bytes : List ℕ) (f : FrameFault)
        → SpellsFrame m bytes → IsFrameFault bytes f → ⊥ }
{}

/// What is written spells the message, and reading it gives the message back and leaves nothing
/// (Q.773, Structure of TC messages).
pub fn written_frame()
    ensures spelled { (m : Message) → HasIds m → HasCause m → length (written_frame m) ≤ message_limit
        → SpellsFrame m (written_frame m) }
    ensures read { (m : Message) → HasIds m → HasCause m → length (written_frame m) ≤ message_limit
        → frame_at (written_frame m) ≡ Ok m }
{}

/// The length that `frame_fits` goes by is that of what `write_frame` writes, where the message's
/// contents of 6B are not empty or it has no 6B (our own).
pub fn frame_length()
    ensures { (m : Message) → dialogue_of m ≢ Some [] → length (written_frame m)
        ≡ frame_length (nonzero (dialogue_length m)) m }
{}

/// Bytes spell at most one dialogue PDU (Q.773, Dialogue portion).
pub fn one_dialogue()
    ensures { (p q : PduValue) (bytes : List ℕ) → SpellsDialogue p bytes → SpellsDialogue q bytes → p ≡ q }
{}

/// What is written spells the PDU, and reading it gives the PDU back (Q.773, Dialogue portion).
pub fn written_dialogue()
    ensures spelled { (p : PduValue) → IsWritable p → HasDiagnostic p → SpellsDialogue p (written_dialogue p) }
    ensures read { (p : PduValue) → IsWritable p → HasDiagnostic p → dialogue_at (written_dialogue p) ≡ Ok p }
{}

/// The named P-Abort causes and diagnostics have the numbers of their tables (Q.773, P-Abort cause;
/// Q.773, Dialogue portion).
pub fn named_numbers()
    // Unrecognized message type, unrecognized transaction identifier, badly formatted transaction
    // portion, incorrect transaction portion, resource limitation.
    ensures causes { (UNRECOGNIZED_MESSAGE_TYPE ≡ 0) × (UNRECOGNIZED_TRANSACTION_ID ≡ 1)
        × (BADLY_FORMATTED_TRANSACTION_PORTION ≡ 2) × (INCORRECT_TRANSACTION_PORTION ≡ 3) × (RESOURCE_LIMITATION ≡ 4) }
    // Of the user: null, no reason given, application context name not supported.
    ensures user { (NULL ≡ 0) × (NO_REASON_GIVEN ≡ 1) × (CONTEXT_NAME_NOT_SUPPORTED ≡ 2) }
    // Of the provider: null, no reason given, no common dialogue portion.
    ensures provider { (NULL ≡ 0) × (NO_REASON_GIVEN ≡ 1) × (NO_COMMON_DIALOGUE_PORTION ≡ 2) }
{}

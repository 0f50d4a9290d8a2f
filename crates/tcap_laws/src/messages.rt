//! What is received and what is sent.

ghost use Rattle.std.specs.Prelude.{◌≡◌, ◌≢◌, ◌↔◌, ◌⊎◌, ℕ, ℤ, ◌<◌, ◌≤◌, List, [], ◌∷◌, ◌++◌, Option, IsTrue, length};
ghost use Rattle.tcap_pdu.specs.declared.fault.FrameFault.{FrameFault};
ghost use Rattle.tcap_pdu.specs.FrameFaults.{IsFrameFault};
ghost use Rattle.tcap_pdu.specs.FrameSpelling.{Message, SpellsFrame};
ghost use Rattle.tcap_pdu.specs.FrameWritten.{message_limit};
ghost use Rattle.tcap_pdu.specs.Front.{Front};
ghost use Rattle.tcap_component.specs.Component.{ComponentParts};
ghost use Rattle.tcap_component.specs.ComponentFault.{FaultParts};
ghost use Rattle.tcap_component.specs.ComponentList.{FirstFault};
ghost use Rattle.tcap_component.specs.ComponentReading.{components_of};
ghost use Rattle.tcap_model.specs.Procedures.AbortRules.{fault_cause, sent_if_any};
ghost use Rattle.tcap_model.specs.Words.Address.{Address};
ghost use Rattle.tcap_model.specs.Words.Answer.{Answer};
ghost use Rattle.tcap_model.specs.Procedures.Destination.{destination};
ghost use Rattle.tcap_model.specs.Words.Event.{Event};
ghost use Rattle.tcap_model.specs.Words.Fault.{Fault};
ghost use Rattle.tcap_model.specs.Histories.History.{History};
ghost use Rattle.tcap_model.specs.Histories.Kept.{kept_address};
ghost use Rattle.tcap_model.specs.Histories.Life.{Life, life, live_in};
ghost use Rattle.tcap_model.specs.Invocations.Marks.{Mark, component_marks, marks};
ghost use Rattle.tcap_model.specs.Histories.Names.{is_destined, names};
ghost use Rattle.tcap_model.specs.Words.Output.{AbortCause, DropCause, Output, DialogueIndication};
ghost use Rattle.tcap_model.specs.Histories.Pair.{Pair, Past};
ghost use Rattle.tcap_model.specs.Statements.Places.{Tells};
ghost use Rattle.tcap_model.specs.Procedures.PortionRules.{PortionVerdict, portion_verdict};
ghost use Rattle.tcap_model.specs.Procedures.RequestMessage.{request_address};
ghost use Rattle.tcap_model.specs.Statements.FaultAnswer.{fault_answer};
ghost use Rattle.tcap_model.specs.Statements.KeptOnce.{KeepsForGood, KeepsTheFirstSender};
ghost use Rattle.tcap_model.specs.Statements.NamesDialogue.{NamesDialogue};
ghost use Rattle.tcap_model.specs.Statements.NormalPortion.{IsNormal, IsAbnormal};
ghost use Rattle.tcap_model.specs.Statements.ReceivedMark.{Means, Reaches, marks_of_components, noted_at};
ghost use Rattle.tcap_model.specs.Replies.Reply.{ended_in, reply, taken_outputs};
ghost use Rattle.tcap_model.specs.Words.Request.{Request};
ghost use Rattle.tcap_model.specs.Statements.SentMessage.{IsMessage, SentForRequest, SentForBytes};
ghost use Rattle.tcap_model.specs.Words.State.{State};

/// Received bytes are never refused and never lost in silence: something is always sent or told of
/// them, if only that they are dropped (our own).
pub fn bytes_are_never_refused()
    ensures never { (h : History) (from : Address) (bytes : List ℕ) (fault : Fault)
        → reply h (Event.received from bytes) ≢ Answer.refused fault }
    ensures told { (h : History) (from : Address) (bytes : List ℕ) → (first : Output) × (others : List Output)
        × (reply h (Event.received from bytes) ≡ Answer.outputs (first ∷ others)) }
{}

/// Bytes that are longer than a message may be are dropped (our own).
pub fn too_long_is_dropped()
    ensures { (h : History) (from : Address) (bytes : List ℕ) → message_limit < length bytes →
        reply h (Event.received from bytes) ≡ Answer.outputs (Output.dropped DropCause.too_long ∷ []) }
{}

/// A live dialogue answers the bytes that name it: the message that they spell, or a faulty one
/// (Q.774, Transaction sublayer procedures).
pub fn bytes_reach_their_dialogue()
    ensures taken { (h : History) (dialogue : ℕ) (from : Address) (bytes : List ℕ) →
        IsTrue (names (Event.received from bytes) dialogue) → IsTrue (live_in (life dialogue h.pairs)) → (m : Message)
        → SpellsFrame m bytes →
        reply h (Event.received from bytes)
        ≡ Answer.outputs (taken_outputs dialogue h.pairs (life dialogue h.pairs) from m) }
    // A faulty Continue with an origin at its front is answered there, to where it came from, and nothing
    // else is.
    ensures broken { (h : History) (dialogue : ℕ) (from : Address) (bytes : List ℕ) →
        IsTrue (names (Event.received from bytes) dialogue) → IsTrue (live_in (life dialogue h.pairs)) →
        (f : FrameFault) (origin destination : Option (List ℕ)) →
        IsFrameFault bytes f → Front bytes origin destination →
        reply h (Event.received from bytes) ≡ Answer.outputs (sent_if_any from (fault_answer bytes f origin)
        ++ Output.dialogue (DialogueIndication.p_abort dialogue (AbortCause.cause (fault_cause f)))
        ∷ ended_in dialogue h.pairs []) }
{}

/// What is sent is a message in the canonical form, which the octets spell; for a request it is the
/// request's own message, and for received bytes an Abort (Q.773, Structure of TC messages).
pub fn sends_spell()
    ensures message { (h : History) (event : Event) (to : Address) (bytes : List ℕ) →
        Tells (reply h event) (Output.send to bytes) → (m : Message) × IsMessage m bytes }
    ensures for_request { (h : History) (dialogue : ℕ) (request : Request) (to : Address) (bytes : List ℕ) →
        Tells (reply h (Event.on_dialogue dialogue request)) (Output.send to bytes) →
        SentForRequest h dialogue request bytes }
    // It goes to the destination that the request names, or to the address that the dialogue keeps.
    ensures goes_to { (h : History) (dialogue : ℕ) (request : Request) (to : Address) (bytes : List ℕ) →
        Tells (reply h (Event.on_dialogue dialogue request)) (Output.send to bytes) →
        to ≡ request_address (kept_address dialogue h.pairs) request }
    ensures for_bytes { (h : History) (from : Address) (received : List ℕ) (to : Address) (bytes : List ℕ) →
        Tells (reply h (Event.received from received)) (Output.send to bytes) → SentForBytes bytes }
    // It goes back to where the bytes came from, but for an Abort to the peer of an Active dialogue that
    // they name, which goes to the address that the dialogue keeps.
    ensures goes_back { (h : History) (from : Address) (received : List ℕ) (to : Address) (bytes : List ℕ) →
        Tells (reply h (Event.received from received)) (Output.send to bytes) →
        (to ≡ from) ⊎ ((dialogue : ℕ) × (peer : List ℕ) × (context : Option (List ℕ))
        × IsTrue (names (Event.received from received) dialogue)
        × (life dialogue h.pairs ≡ Life.standing (State.active peer) context)
        × (to ≡ kept_address dialogue h.pairs)) }
{}

/// The address that a dialogue keeps is replaced once at most (our own).
pub fn kept_once()
    // In Initiation Received and in Active it stays for good.
    ensures for_good { KeepsForGood }
    // In Initiation Sent nothing replaces it but the first Continue whose dialogue portion is as it should be,
    // and by the address of its sender.
    ensures first_sender { KeepsTheFirstSender }
{}

/// The marks of received bytes are those of the message that the bytes spell, and bytes that reach a
/// dialogue always have a meaning: their components up to the first fault where the dialogue portion
/// is as it should be, and else the dialogue's end (Q.774, Invocation state machine).
pub fn marks_are_of_the_grammar()
    ensures components { (id : ℤ) (components : List ComponentParts)
        (fault : Option FaultParts) (content : List ℕ) →
        FirstFault components fault content →
        component_marks id (components_of content) ≡ marks_of_components id components }
    ensures named { (dialogue : ℕ) (m : Message) (from : Address) (bytes : List ℕ) → SpellsFrame m bytes
        → length bytes ≤ message_limit →
        names (Event.received from bytes) dialogue ≡ is_destined dialogue (destination m) }
    // The dialogue that bytes name is the one of the grammar.
    ensures by_grammar { (dialogue : ℕ) (from : Address) (bytes : List ℕ) →
        IsTrue (names (Event.received from bytes) dialogue) ↔ NamesDialogue dialogue bytes }
    // A dialogue portion is normal or abnormal by what it spells, as its verdict says.
    ensures normal { (state : State) (context portion : Option (List ℕ)) → IsNormal state context portion →
        (told : Option (List ℕ)) × (info : List ℕ) × (portion_verdict state context portion
        ≡ PortionVerdict.normal told info) }
    ensures abnormal { (state : State) (context portion : Option (List ℕ)) → IsAbnormal state context portion →
        portion_verdict state context portion ≡ PortionVerdict.abnormal }
    ensures made { (dialogue : ℕ) (id : ℤ) (state : State) (context : Option (List ℕ))
        (bytes : List ℕ) (pair : Pair)
        (past : Past) →
        Reaches dialogue state context bytes pair past → (made : List Mark) →
        Means state context id bytes made → marks dialogue id pair past ≡ noted_at past made }
    ensures some { (dialogue : ℕ) (id : ℤ) (state : State) (context : Option (List ℕ))
        (bytes : List ℕ) (pair : Pair)
        (past : Past) →
        Reaches dialogue state context bytes pair past → (made : List Mark) × Means state context id bytes made }
{}

//! How a dialogue that is moved by its table follows the history.

ghost use Rattle.std.specs.Prelude.{is_some, ◌≡◌, ℕ, List, Option, Some, None, ◌∷◌, true, false, Ok, Err};
ghost use Rattle.tcap_model.specs.Table.Agreement.{setting_at, due_pair};
ghost use Rattle.tcap_model.specs.Words.Address.{Address};
ghost use Rattle.tcap_model.specs.Words.Answer.{Answer};
ghost use Rattle.tcap_model.specs.Histories.Birth.{next_dialogue};
ghost use Rattle.tcap_model.specs.Table.Dialogue.{Dialogue, fresh_dialogue};
ghost use Rattle.tcap_model.specs.Replies.Due.{birth_due};
ghost use Rattle.tcap_model.specs.Words.Event.{Event};
ghost use Rattle.tcap_model.specs.Histories.History.{History};
ghost use Rattle.tcap_model.specs.Words.InRange.{InRange};
ghost use Rattle.tcap_model.specs.Replies.Legal.{IsLegal};
ghost use Rattle.tcap_model.specs.Histories.Life.{life, live_in};
ghost use Rattle.tcap_model.specs.Histories.Names.{names};
ghost use Rattle.tcap_model.specs.Procedures.Reception.{Reception, reception};
ghost use Rattle.tcap_model.specs.Replies.Reply.{taken_outputs, reply};
ghost use Rattle.tcap_model.specs.Words.Request.{Request};
ghost use Rattle.tcap_model.specs.Words.State.{is_live};
ghost use Rattle.tcap_model.specs.Table.TableMove.{DialogueEvent, born, table_move, left_standing};
ghost use Rattle.tcap_model.specs.Words.Time.{moment_fault};
ghost use Rattle.tcap_model.specs.Table.World.{dialogue_at};
ghost use Rattle.tcap_pdu.specs.declared.fault.FrameFault.{FrameFault};
ghost use Rattle.tcap_pdu.specs.FrameReading.{frame_at};
ghost use Rattle.tcap_pdu.specs.FrameSpelling.{Message};

/// An End to a dialogue that stands is answered by the dialogue as the history says it is: its
/// components are told, and then each invocation that is still Queued or Sent after them
/// (Q.774, Dialogue end; Q.774, Component handling).
pub fn ends_answered_alike()
    ensures { (h : History) (dialogue : ℕ) (d : Dialogue) (from : Address) (to : List ℕ)
        (portion : Option (List ℕ)) (components : List ℕ) → IsLegal h →
        dialogue_at h.start.reject_ms h.start.idle_ms h.pairs dialogue ≡ Some d →
        (table_move (setting_at h) d (DialogueEvent.frame from (Message.end to portion components))).answer
        ≡ Answer.outputs (taken_outputs dialogue h.pairs (life dialogue h.pairs) from
        (Message.end to portion components)) }
{}

/// After a request, a message that it takes, a faulty one and a moment, a dialogue that stands is what
/// the history says it is then, or it is over there too (Q.774, Transaction state machine).
pub fn dialogues_moved_alike()
    ensures requested { (h : History) (dialogue : ℕ) (d : Dialogue) (request : Request) → IsLegal h
        → InRange (Event.on_dialogue dialogue request)
        → dialogue_at h.start.reject_ms h.start.idle_ms h.pairs dialogue ≡ Some d →
        dialogue_at h.start.reject_ms h.start.idle_ms (due_pair h (Event.on_dialogue dialogue request) ∷ h.pairs)
        dialogue
        ≡ left_standing (table_move (setting_at h) d (DialogueEvent.request request)) }
    ensures taken { (h : History) (dialogue : ℕ) (d : Dialogue) (from : Address) (bytes : List ℕ) (m : Message)
        → IsLegal h
        → dialogue_at h.start.reject_ms h.start.idle_ms h.pairs dialogue ≡ Some d →
        names (Event.received from bytes) dialogue ≡ true → is_live d.standing.state ≡ true → frame_at bytes ≡ Ok m →
        dialogue_at h.start.reject_ms h.start.idle_ms (due_pair h (Event.received from bytes) ∷ h.pairs) dialogue
        ≡ left_standing (table_move (setting_at h) d (DialogueEvent.frame from m)) }
    ensures broken { (h : History) (dialogue : ℕ) (d : Dialogue) (from : Address) (bytes : List ℕ)
        (fault : FrameFault) (cause : ℕ) → IsLegal h → dialogue_at h.start.reject_ms h.start.idle_ms h.pairs dialogue
        ≡ Some d →
        names (Event.received from bytes) dialogue ≡ true → is_live d.standing.state ≡ true → frame_at bytes
        ≡ Err fault →
        dialogue_at h.start.reject_ms h.start.idle_ms (due_pair h (Event.received from bytes) ∷ h.pairs) dialogue
        ≡ left_standing (table_move (setting_at h) d (DialogueEvent.fault cause)) }
    ensures lapsed { (h : History) (dialogue : ℕ) (d : Dialogue) (now : ℕ) → IsLegal h
        → dialogue_at h.start.reject_ms h.start.idle_ms h.pairs dialogue ≡ Some d → moment_fault now ≡ None →
        dialogue_at h.start.reject_ms h.start.idle_ms (due_pair h (Event.moment now) ∷ h.pairs) dialogue
        ≡ left_standing (table_move (setting_at h) d (DialogueEvent.moment now)) }
{}

/// An event that doesn't name a dialogue that stands leaves it as it is (our own).
pub fn others_stay()
    ensures { (h : History) (dialogue : ℕ) (d : Dialogue) (event : Event) → IsLegal h
        → dialogue_at h.start.reject_ms h.start.idle_ms h.pairs dialogue ≡ Some d → names event dialogue ≡ false →
        dialogue_at h.start.reject_ms h.start.idle_ms (due_pair h event ∷ h.pairs) dialogue ≡ Some d }
{}

/// A dialogue that is asked for, where none of the faults is due, is Idle with nothing queued and no
/// invocations (Q.774, Transaction state machine).
pub fn fresh_is_born()
    ensures { (h : History) → IsLegal h → birth_due h ≡ None →
        dialogue_at h.start.reject_ms h.start.idle_ms (due_pair h Event.new_dialogue ∷ h.pairs) (next_dialogue h)
        ≡ Some (fresh_dialogue (next_dialogue h) h.start.reject_ms h.start.idle_ms) }
{}

/// A Begin that is accepted is answered by the dialogue that it creates, and that dialogue is
/// what the history says (Q.774, Dialogue begin).
pub fn begun_is_born()
    ensures answer { (h : History) (from : Address) (bytes : List ℕ) (origin : List ℕ) (context : Option (List ℕ))
        (info components : List ℕ) → IsLegal h →
        reception (λ dialogue. live_in (life dialogue h.pairs)) (is_some (birth_due h)) bytes
        ≡ Reception.begun origin context info components →
        (born (setting_at h) (next_dialogue h) h.start.reject_ms h.start.idle_ms from origin context info
        components).answer
        ≡ reply h (Event.received from bytes) }
    ensures dialogue { (h : History) (from : Address) (bytes : List ℕ)
        (origin : List ℕ) (portion : Option (List ℕ))
        (context : Option (List ℕ)) (info components : List ℕ) → IsLegal h
        → frame_at bytes ≡ Ok (Message.begin origin portion components) →
        reception (λ dialogue. live_in (life dialogue h.pairs)) (is_some (birth_due h)) bytes
        ≡ Reception.begun origin context info components →
        dialogue_at h.start.reject_ms h.start.idle_ms (due_pair h (Event.received from bytes) ∷ h.pairs)
        (next_dialogue h)
        ≡ left_standing
        (born (setting_at h) (next_dialogue h) h.start.reject_ms h.start.idle_ms from origin context info
        components) }
{}

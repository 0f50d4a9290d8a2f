//! What an engine is at a history, and what its dialogues do there.

ghost use Rattle.std.specs.Prelude.{◌≡◌, ℕ, ℤ, true, List, [], ◌∷◌, Option, Some, is_some};
ghost use Rattle.std.specs.List.{IsDistinct};
ghost use Rattle.std.specs.Map.{keys_of};
ghost use Rattle.std.specs.Ordering.{int_eq};
ghost use Rattle.tcap_invocation.specs.Closing.{given_up_at};
ghost use Rattle.tcap_invocation.specs.Invocations.{entry_at};
ghost use Rattle.tcap_model.specs.Table.Agreement.{setting_at, leaves_standing};
ghost use Rattle.tcap_model.specs.Words.Address.{Address};
ghost use Rattle.tcap_model.specs.Words.Answer.{Answer};
ghost use Rattle.tcap_model.specs.Histories.Clock.{clock};
ghost use Rattle.tcap_model.specs.Table.Dialogue.{Dialogue, sent_by_rows};
ghost use Rattle.tcap_model.specs.Replies.Due.{situation_of, due};
ghost use Rattle.tcap_model.specs.Words.Event.{Event};
ghost use Rattle.tcap_model.specs.Words.Fault.{Fault};
ghost use Rattle.tcap_model.specs.Replies.Held.{held, pending};
ghost use Rattle.tcap_model.specs.Histories.History.{Start, History};
ghost use Rattle.tcap_model.specs.Replies.Legal.{IsLegal};
ghost use Rattle.tcap_model.specs.Histories.Life.{life};
ghost use Rattle.tcap_model.specs.Words.Output.{Output, AbortCause, DialogueIndication};
ghost use Rattle.tcap_model.specs.Histories.Pair.{Past};
ghost use Rattle.tcap_model.specs.Procedures.PortionRules.{PortionVerdict, portion_verdict};
ghost use Rattle.tcap_model.specs.Replies.Queue.{handled_in, rejects_of};
ghost use Rattle.tcap_model.specs.Invocations.SentThere.{sent_there};
ghost use Rattle.tcap_model.specs.Procedures.Refusals.{due_on};
ghost use Rattle.tcap_model.specs.Replies.Reply.{ended_in, taken_outputs, reply};
ghost use Rattle.tcap_model.specs.Words.Request.{Request};
ghost use Rattle.tcap_model.specs.Table.TableMove.{DialogueEvent, answering, ended_told, situation, table_move, walked_in};
ghost use Rattle.tcap_model.specs.Table.World.{first_world, dialogue_at, rows_of, world_of};
ghost use Rattle.tcap_pdu.specs.FrameSpelling.{Message, Reason};

/// Where nothing has happened, an engine is as it starts: it has the limits and the counters that it
/// was given, its clock is 0, and no dialogue stands (our own).
pub fn resumed()
    ensures { (start : Start) → world_of (record { start = start; pairs = [] }) ≡ first_world start }
{}

/// The rows of a dialogue say of an invoke identifier what the history says: whether it is in use, and
/// which invocation of it is Queued or Sent (Q.774, Invocation state machine).
pub fn rows_agree()
    ensures in_use { (reject_ms dialogue : ℕ) (past : Past) (id : ℤ)
        → is_some (entry_at (rows_of reject_ms dialogue past) id) ≡ held reject_ms dialogue id past }
    ensures pending { (reject_ms dialogue : ℕ) (past : Past) (id : ℤ)
        → given_up_at (rows_of reject_ms dialogue past) id ≡ pending dialogue id past }
{}

/// A request on a dialogue that stands is judged alike by what the dialogue keeps and by the history,
/// and a refusal is the fault that is due and leaves the dialogue as it was (our own).
pub fn requests_judged_alike()
    ensures situation { (h : History) (dialogue : ℕ) (d : Dialogue) (request : Request)
        → dialogue_at h.start.reject_ms h.start.idle_ms h.pairs dialogue ≡ Some d →
        situation (setting_at h) d request ≡ situation_of h dialogue d.standing request }
    ensures due { (h : History) (dialogue : ℕ) (d : Dialogue) (request : Request)
        → dialogue_at h.start.reject_ms h.start.idle_ms h.pairs dialogue ≡ Some d →
        due_on (situation (setting_at h) d request) request ≡ due h dialogue request }
    ensures refused { (h : History) (dialogue : ℕ) (d : Dialogue) (request : Request) (fault : Fault)
        → dialogue_at h.start.reject_ms h.start.idle_ms h.pairs dialogue ≡ Some d →
        due h dialogue request ≡ Some fault → table_move (setting_at h) d (DialogueEvent.request request)
        ≡ answering d (Answer.refused fault) }
{}

/// At the end of a dialogue its rows and its history tell of the same invocations, in the same order
/// (Q.774, Component handling).
pub fn ended_alike()
    ensures { (h : History) (dialogue : ℕ) → IsLegal h
        → ended_told dialogue (record {
          reject_ms = h.start.reject_ms;
          rows =
              rows_of h.start.reject_ms dialogue h.pairs;
        }) ≡ ended_in dialogue h.pairs [] }
{}

/// A request on a dialogue that stands is answered by the dialogue as the history says it is
/// (Q.774, Component handling; Q.774, Dialogue control).
pub fn requests_answered_alike()
    // A request that leaves its dialogue standing, at any history.
    ensures standing { (h : History) (dialogue : ℕ) (d : Dialogue) (request : Request)
        → dialogue_at h.start.reject_ms h.start.idle_ms h.pairs dialogue ≡ Some d → leaves_standing request ≡ true →
        (table_move (setting_at h) d (DialogueEvent.request request)).answer
        ≡ reply h (Event.on_dialogue dialogue request) }
    // Any request, at a legal history.
    ensures legal { (h : History) (dialogue : ℕ) (d : Dialogue) (request : Request) → IsLegal h
        → dialogue_at h.start.reject_ms h.start.idle_ms h.pairs dialogue ≡ Some d →
        (table_move (setting_at h) d (DialogueEvent.request request)).answer
        ≡ reply h (Event.on_dialogue dialogue request) }
{}

/// A message to a dialogue that stands is told by the dialogue as the history says it is: a Continue with
/// its components, a faulty message, an Abort, and an End whose dialogue portion is abnormal
/// (Q.774, Dialogue continuation; Q.774, Abnormal procedures).
pub fn messages_told_alike()
    ensures fault { (h : History) (dialogue : ℕ) (d : Dialogue) (cause : ℕ) → IsLegal h
        → dialogue_at h.start.reject_ms h.start.idle_ms h.pairs dialogue ≡ Some d →
        (table_move (setting_at h) d (DialogueEvent.fault cause)).answer
        ≡ Answer.outputs (Output.dialogue (DialogueIndication.p_abort dialogue (AbortCause.cause cause))
        ∷ ended_in dialogue h.pairs []) }
    ensures abort { (h : History) (dialogue : ℕ) (d : Dialogue) (from : Address) (to : List ℕ) (reason : Reason)
        → IsLegal h
        → dialogue_at h.start.reject_ms h.start.idle_ms h.pairs dialogue ≡ Some d →
        (table_move (setting_at h) d (DialogueEvent.frame from (Message.abort to reason))).answer
        ≡ Answer.outputs (taken_outputs dialogue h.pairs (life dialogue h.pairs) from (Message.abort to reason)) }
    ensures continued { (h : History) (dialogue : ℕ) (d : Dialogue) (from : Address) (origin to : List ℕ)
        (portion : Option (List ℕ)) (components : List ℕ) → IsLegal h →
        dialogue_at h.start.reject_ms h.start.idle_ms h.pairs dialogue ≡ Some d →
        (table_move (setting_at h) d (DialogueEvent.frame from (Message.go_on origin to portion components))).answer
        ≡ Answer.outputs (taken_outputs dialogue h.pairs (life dialogue h.pairs) from
        (Message.go_on origin to portion components)) }
    ensures abnormal_end { (h : History) (dialogue : ℕ) (d : Dialogue) (from : Address) (to : List ℕ)
        (portion : Option (List ℕ)) (components : List ℕ) → IsLegal h →
        dialogue_at h.start.reject_ms h.start.idle_ms h.pairs dialogue ≡ Some d →
        portion_verdict d.standing.state d.standing.context portion ≡ PortionVerdict.abnormal →
        (table_move (setting_at h) d (DialogueEvent.frame from (Message.end to portion components))).answer
        ≡ Answer.outputs (taken_outputs dialogue h.pairs (life dialogue h.pairs) from
        (Message.end to portion components)) }
{}

/// Which invocation is Sent for an invoke identifier is the same by the rows of a dialogue and by its
/// history (Q.774, Operation Sent).
pub fn sent_alike()
    ensures { (h : History) (dialogue : ℕ) (id : ℤ) → IsLegal h →
        sent_by_rows dialogue (record {
          reject_ms = h.start.reject_ms;
          rows =
              rows_of h.start.reject_ms dialogue h.pairs;
        }) (Some id) ≡ sent_there dialogue h.pairs [] (Some id) }
{}

/// No invoke identifier occurs twice among the rows of a dialogue (Q.774, Invocation state machine).
pub fn rows_distinct()
    ensures { (h : History) (dialogue : ℕ) → IsLegal h
        → IsDistinct int_eq (keys_of (rows_of h.start.reject_ms dialogue h.pairs)) }
{}

/// The Rejects that answer the components of a message are those of the history, in the same order
/// (Q.774, Component related abnormal conditions).
pub fn rejects_alike()
    ensures { (h : History) (dialogue : ℕ) (d : Dialogue) (components : List ℕ) → IsLegal h
        → dialogue_at h.start.reject_ms h.start.idle_ms h.pairs dialogue ≡ Some d →
        (walked_in (clock h.pairs) d components).rejects ≡ rejects_of (handled_in dialogue h.pairs components) }
{}

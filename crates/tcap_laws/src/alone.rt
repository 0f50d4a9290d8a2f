//! What one dialogue sees of a history: no other dialogue.

ghost use Rattle.std.specs.Prelude.{◌≡◌, ◌≢◌, ◌==◌, ℕ, ℤ, List, [], false, Some, filter, option_map, IsTrue};
ghost use Rattle.tcap_model.specs.Words.Address.{Address};
ghost use Rattle.tcap_model.specs.Words.Answer.{Answer};
ghost use Rattle.tcap_model.specs.Histories.Birth.{was_born};
ghost use Rattle.tcap_model.specs.Histories.Clock.{clock};
ghost use Rattle.tcap_model.specs.Invocations.Closings.{Told};
ghost use Rattle.tcap_model.specs.Procedures.ComponentHandling.{Item};
ghost use Rattle.tcap_model.specs.Invocations.Deadline.{deadline};
ghost use Rattle.tcap_model.specs.Invocations.Decision.{decision};
ghost use Rattle.tcap_model.specs.Replies.Due.{due};
ghost use Rattle.tcap_model.specs.Words.Event.{Event};
ghost use Rattle.tcap_model.specs.Words.Fault.{Fault};
ghost use Rattle.tcap_model.specs.Replies.Held.{held, pending};
ghost use Rattle.tcap_model.specs.Histories.History.{History};
ghost use Rattle.tcap_model.specs.Invocations.Invocation.{Invocation, invocation_of, invocations, latest};
ghost use Rattle.tcap_model.specs.Statements.Isolation.{IsAlone, history_of, EachIsAlone};
ghost use Rattle.tcap_model.specs.Replies.Legal.{IsLegal};
ghost use Rattle.tcap_model.specs.Histories.Kept.{kept_address};
ghost use Rattle.tcap_model.specs.Histories.Life.{life};
ghost use Rattle.tcap_model.specs.Invocations.Marks.{marks};
ghost use Rattle.tcap_model.specs.Histories.Names.{names};
ghost use Rattle.tcap_model.specs.Statements.Only.{is_seen_by, only, pair_within, is_output_of};
ghost use Rattle.tcap_model.specs.Invocations.Outcome.{outcome};
ghost use Rattle.tcap_model.specs.Histories.Pair.{Pair, Past};
ghost use Rattle.tcap_model.specs.Replies.Queue.{handled_in, queue};
ghost use Rattle.tcap_model.specs.Replies.Reply.{ended_in, reply, lapses};
ghost use Rattle.tcap_model.specs.Words.Request.{Request};
ghost use Rattle.tcap_model.specs.Invocations.Span.{span};

/// What a dialogue sees of a history tells the clock, its creation, its life and the address of its peer; a
/// pair that it doesn't see means nothing for its identifiers, and one that it sees the same as in the
/// history (our own).
pub fn only_tells_life()
    ensures clock { (dialogue : ℕ) (past : Past) → clock (only dialogue past) ≡ clock past }
    ensures born { (dialogue : ℕ) (past : Past) → was_born dialogue (only dialogue past)
        ≡ was_born dialogue past }
    ensures life { (dialogue : ℕ) (past : Past) → life dialogue (only dialogue past) ≡ life dialogue past }
    ensures kept { (dialogue : ℕ) (past : Past) →
        kept_address dialogue (only dialogue past) ≡ kept_address dialogue past }
    ensures unseen { (dialogue : ℕ) (id : ℤ) (pair : Pair) (past : Past)
        → is_seen_by dialogue pair past ≡ false →
        marks dialogue id pair past ≡ [] }
    ensures seen { (dialogue : ℕ) (id : ℤ) (pair : Pair) (past : Past) →
        marks dialogue id (pair_within dialogue pair.event pair.answer pair.idle_ms) (only dialogue past)
        ≡ marks dialogue id pair past }
{}

/// What a dialogue sees of a legal history has its invocations and no others, with their spans,
/// deadlines and outcomes, and the latest of each identifier (our own).
pub fn only_tells_invocations()
    ensures all { (h : History) (dialogue : ℕ) → IsLegal h →
        invocations (only dialogue h.pairs) ≡ filter (λ (i : Invocation). i.dialogue == dialogue) (invocations h.pairs) }
    ensures latest { (h : History) (dialogue : ℕ) (id : ℤ) → IsLegal h
        → latest dialogue id (only dialogue h.pairs) ≡ latest dialogue id h.pairs }
    ensures found { (h : History) (dialogue n : ℕ) (i : Invocation)
        → IsLegal h → invocation_of n h.pairs ≡ Some i
        → i.dialogue ≡ dialogue →
        invocation_of n (only dialogue h.pairs) ≡ Some i }
    ensures span { (h : History) (dialogue n : ℕ) (i : Invocation)
        → IsLegal h → invocation_of n h.pairs ≡ Some i
        → i.dialogue ≡ dialogue →
        span i (only dialogue h.pairs) ≡ span i h.pairs }
    ensures deadline { (h : History) (dialogue n : ℕ) (i : Invocation)
        → IsLegal h → invocation_of n h.pairs ≡ Some i
        → i.dialogue ≡ dialogue →
        deadline i (only dialogue h.pairs) ≡ deadline i h.pairs }
    ensures outcome { (h : History) (dialogue n : ℕ) (i : Invocation)
        → IsLegal h → invocation_of n h.pairs ≡ Some i
        → i.dialogue ≡ dialogue →
        outcome n (only dialogue h.pairs) ≡ outcome n h.pairs }
{}

/// What a dialogue sees of a legal history decides its invocations as the history does, each at the place
/// that it sees; so the same identifiers are in use, and the same invocations are pending (our own).
pub fn only_tells_decisions()
    ensures decision { (h : History) (dialogue n : ℕ) (i : Invocation)
        → IsLegal h → invocation_of n h.pairs ≡ Some i
        → i.dialogue ≡ dialogue →
        decision n (only dialogue h.pairs) ≡
        option_map (λ (t : Told). record {
          place = only dialogue t.place;
          dialogue = t.dialogue;
          id = t.id;
          closing =
              t.closing;
        }) (decision n h.pairs) }
    ensures held { (h : History) (reject_ms dialogue : ℕ) (id : ℤ) → IsLegal h →
        held reject_ms dialogue id (only dialogue h.pairs) ≡ held reject_ms dialogue id h.pairs }
    ensures pending { (h : History) (dialogue : ℕ) (id : ℤ) → IsLegal h
        → pending dialogue id (only dialogue h.pairs) ≡ pending dialogue id h.pairs }
{}

/// What a dialogue sees of a legal history has its queue, and what its components tell and the Rejects
/// that answer them (our own).
pub fn only_tells_queue()
    ensures queue { (h : History) (dialogue : ℕ) → IsLegal h
        → queue dialogue (only dialogue h.pairs) ≡ queue dialogue h.pairs }
    ensures handled { (h : History) (dialogue : ℕ) (components : List ℕ) → IsLegal h →
        handled_in dialogue (only dialogue h.pairs) components ≡ handled_in dialogue h.pairs components }
{}

/// A request on a dialogue is due the fault, and answered, by what the dialogue sees of a legal history,
/// but for the number that an invoke draws, and unless no number is left (our own).
pub fn only_tells_requests()
    ensures ended { (h : History) (dialogue : ℕ) (items : List Item) → IsLegal h →
        ended_in dialogue (only dialogue h.pairs) items ≡ ended_in dialogue h.pairs items }
    ensures due { (h : History) (dialogue : ℕ) (request : Request) → IsLegal h
        → due h dialogue request ≢ Some Fault.numbers_spent →
        due (history_of dialogue h) dialogue request ≡ due h dialogue request }
    ensures answer { (h : History) (dialogue : ℕ) (request : Request) → IsLegal h →
        reply h (Event.on_dialogue dialogue request) ≢ Answer.refused Fault.numbers_spent →
        IsAlone h dialogue (Event.on_dialogue dialogue request) }
{}

/// Received bytes that name a dialogue are answered by what the dialogue sees of a legal history (our
/// own).
pub fn only_tells_bytes()
    ensures { (h : History) (dialogue : ℕ) (from : Address) (bytes : List ℕ) → IsLegal h
        → IsTrue (names (Event.received from bytes) dialogue) →
        IsAlone h dialogue (Event.received from bytes) }
{}

/// A moment tells a dialogue, of all that lapses at it, exactly what it would tell the dialogue alone, in
/// the same order (our own).
pub fn only_tells_moments()
    ensures lapses { (h : History) (dialogue now : ℕ) → IsLegal h →
        filter (is_output_of dialogue) (lapses h.pairs now) ≡ lapses (only dialogue h.pairs) now }
    ensures answer { (h : History) (dialogue now : ℕ) → IsLegal h → IsAlone h dialogue (Event.moment now) }
{}

/// No dialogue sees another: each event that names a dialogue is answered by that dialogue's own history,
/// and neither other dialogues nor their peers are seen in it, unless no invocation number is left (our
/// own).
pub fn isolation()
    ensures { EachIsAlone }
{}

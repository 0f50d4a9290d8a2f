//! The invocations of a history, and the marks that close them.

ghost use Rattle.std.specs.Prelude.{◌≡◌, ◌<◌, ◌≤◌, ℕ, ℤ, not, ◌||◌, ◌++◌, true, false, [], ◌∷◌, Some, None, is_some, option_map};
ghost use Rattle.tcap_model.specs.Words.Answer.{Answer, is_accepted};
ghost use Rattle.tcap_model.specs.Histories.Clock.{clock};
ghost use Rattle.tcap_model.specs.Invocations.Closings.{Told};
ghost use Rattle.tcap_model.specs.Invocations.Deadline.{deadline};
ghost use Rattle.tcap_model.specs.Invocations.Decision.{decision, decided_at};
ghost use Rattle.tcap_model.specs.Words.Event.{Event};
ghost use Rattle.tcap_model.specs.Replies.Held.{held};
ghost use Rattle.tcap_model.specs.Histories.History.{History};
ghost use Rattle.tcap_model.specs.Invocations.Invocation.{Invocation, invocation_of, invocations, invoked_by, has_id, latest};
ghost use Rattle.tcap_model.specs.Replies.Legal.{IsLegal};
ghost use Rattle.tcap_model.specs.Invocations.Marks.{marks};
ghost use Rattle.tcap_model.specs.Invocations.Outcome.{outcome};
ghost use Rattle.tcap_model.specs.Words.Output.{Closing};
ghost use Rattle.tcap_model.specs.Histories.Life.{life};
ghost use Rattle.tcap_model.specs.Histories.Pair.{Pair, Past, AreLimited};
ghost use Rattle.tcap_model.specs.Procedures.ComponentHandling.{SentInvocation};
ghost use Rattle.tcap_model.specs.Invocations.Reuse.{is_reused};
ghost use Rattle.tcap_model.specs.Invocations.Span.{is_invoked, span};
ghost use Rattle.tcap_model.specs.Statements.ClassTable.{ClassTablesAgree};
ghost use Rattle.tcap_model.specs.Table.World.{is_number};

/// After its invoke the span of an invocation grows by the marks of each pair, until its identifier is
/// used again in its dialogue (Q.774, Invocation state machine).
pub fn span_steps()
    // Up to its invoke an invocation has no marks.
    ensures begins { (i : Invocation) (pair : Pair) (past : Past) → is_some (invocation_of i.number past) ≡ false
        → span i (pair ∷ past) ≡ [] }
    ensures unused { (i : Invocation) (pair : Pair) (past : Past) → is_some (invocation_of i.number past) ≡ false
        → is_reused i (pair ∷ past) ≡ false }
    // After it the identifier is used again or it isn't, and by this pair or before it.
    ensures used { (i : Invocation) (pair : Pair) (past : Past) → is_some (invocation_of i.number past) ≡ true →
        is_reused i (pair ∷ past) ≡ (is_reused i past || is_invoked (has_id i.dialogue i.id) (invoked_by pair)) }
    ensures grows { (i : Invocation) (pair : Pair) (past : Past) → is_some (invocation_of i.number past) ≡ true
        → is_reused i (pair ∷ past) ≡ false →
        span i (pair ∷ past) ≡ span i past ++ marks i.dialogue i.id pair past }
    ensures stays { (i : Invocation) (pair : Pair) (past : Past) → is_some (invocation_of i.number past) ≡ true
        → is_reused i (pair ∷ past) ≡ true →
        span i (pair ∷ past) ≡ span i past }
{}

/// What is decided stays, whatever follows (Q.774, Invocation state machine).
pub fn decision_stays()
    ensures invoked { (n : ℕ) (pair : Pair) (past : Past) (i : Invocation) → invocation_of n past ≡ Some i
        → invocation_of n (pair ∷ past) ≡ Some i }
    ensures outcome { (n : ℕ) (pair : Pair) (past : Past) (c : Closing) → outcome n past ≡ Some c
        → outcome n (pair ∷ past) ≡ Some c }
    ensures decision { (n : ℕ) (pair : Pair) (past : Past) (t : Told) → decision n past ≡ Some t
        → decision n (pair ∷ past) ≡ Some t }
{}

/// A decision is the outcome of its invocation at the first place where there is one (our own).
pub fn decision_is_outcome()
    // An invocation has a decision where it has an outcome, and both are the same closing.
    ensures closing { (n : ℕ) (past : Past) → option_map (λ (t : Told). t.closing) (decision n past)
        ≡ outcome n past }
    ensures now { (n : ℕ) (pair : Pair) (past : Past) → outcome n past ≡ None
        → decision n (pair ∷ past) ≡ decided_at n (pair ∷ past) }
    ensures found { (n : ℕ) (past : Past) (t : Told) → decision n past ≡ Some t →
        (i : Invocation) × (invocation_of n past ≡ Some i) × (t.dialogue ≡ i.dialogue) × (t.id ≡ i.id) }
    // It stands at a pair of the history, with the outcome there and none before.
    ensures place { (n : ℕ) (past : Past) (t : Told) → decision n past ≡ Some t →
        (newer : Past) × (pair : Pair) × (before : Past) × (past ≡ newer ++ t.place) × (t.place ≡ pair ∷ before)
        × (outcome n t.place ≡ Some t.closing) × (outcome n before ≡ None) }
{}

/// While nothing has decided an invocation that was sent, and its identifier isn't used again, the clock
/// is at most at its deadline; in a legal history it is below it (Q.774, Invocation timer).
pub fn open_until_deadline()
    ensures within { (n : ℕ) (past : Past) (i : Invocation) (until : ℕ) → invocation_of n past ≡ Some i
        → is_reused i past ≡ false → outcome n past ≡ None →
        deadline i past ≡ Some until → clock past ≤ until }
    ensures before { (h : History) (n : ℕ) (i : Invocation) (until : ℕ)
        → IsLegal h → invocation_of n h.pairs ≡ Some i
        → outcome n h.pairs ≡ None →
        deadline i h.pairs ≡ Some until → clock h.pairs < until }
{}

/// A moment below the clock changes nothing: it ends no dialogue, closes no invocation, moves no deadline
/// and frees no identifier (our own).
pub fn earlier_moment_does_nothing()
    ensures clock { (idle_ms : ℕ) (past : Past) → AreLimited idle_ms past → (now : ℕ) (answer : Answer)
        → is_accepted answer ≡ true → now < clock past →
        clock (record { event = Event.moment now; answer = answer; idle_ms = idle_ms } ∷ past) ≡ clock past }
    ensures life { (idle_ms : ℕ) (past : Past) → AreLimited idle_ms past → (now : ℕ) (answer : Answer)
        → is_accepted answer ≡ true → now < clock past → (dialogue : ℕ) →
        life dialogue (record { event = Event.moment now; answer = answer; idle_ms = idle_ms } ∷ past)
        ≡ life dialogue past }
    ensures invocations { (idle_ms : ℕ) (past : Past) → AreLimited idle_ms past → (now : ℕ) (answer : Answer)
        → is_accepted answer ≡ true → now < clock past →
        invocations (record { event = Event.moment now; answer = answer; idle_ms = idle_ms } ∷ past)
        ≡ invocations past }
    ensures outcome { (idle_ms : ℕ) (past : Past) → AreLimited idle_ms past → (now : ℕ) (answer : Answer)
        → is_accepted answer ≡ true → now < clock past → (n : ℕ) →
        outcome n (record { event = Event.moment now; answer = answer; idle_ms = idle_ms } ∷ past)
        ≡ outcome n past }
    ensures decision { (idle_ms : ℕ) (past : Past) → AreLimited idle_ms past → (now : ℕ) (answer : Answer)
        → is_accepted answer ≡ true → now < clock past → (n : ℕ) →
        decision n (record { event = Event.moment now; answer = answer; idle_ms = idle_ms } ∷ past)
        ≡ decision n past }
    ensures deadline { (idle_ms : ℕ) (past : Past) → AreLimited idle_ms past → (now : ℕ) (answer : Answer)
        → is_accepted answer ≡ true → now < clock past →
        (i : Invocation) → is_some (invocation_of i.number past) ≡ true
        → deadline i (record { event = Event.moment now; answer = answer; idle_ms = idle_ms } ∷ past)
        ≡ deadline i past }
    ensures held { (idle_ms : ℕ) (past : Past) → AreLimited idle_ms past → (now : ℕ) (answer : Answer)
        → is_accepted answer ≡ true → now < clock past →
        (reject_ms dialogue : ℕ) (id : ℤ) → held reject_ms dialogue id
        (record { event = Event.moment now; answer = answer; idle_ms = idle_ms } ∷ past)
        ≡ held reject_ms dialogue id past }
{}

/// The latest invocation of an identifier of a dialogue is the one of its number (our own).
pub fn latest_is_of_its_number()
    ensures { (h : History) (dialogue : ℕ) (id : ℤ) (i : Invocation)
        → IsLegal h → latest dialogue id h.pairs ≡ Some i →
        (i.dialogue ≡ dialogue) × (i.id ≡ id) × (invocation_of i.number h.pairs ≡ Some i) }
{}

/// An identifier was used again after an invocation exactly where its latest invocation is another one
/// (our own).
pub fn reused_by_latest()
    ensures { (h : History) (n : ℕ) (i : Invocation) → IsLegal h → invocation_of n h.pairs ≡ Some i
        → is_reused i h.pairs ≡ not (is_number n (latest i.dialogue i.id h.pairs)) }
{}

/// An identifier is used again only once its invocation is decided (Q.774, Invocation state machine).
pub fn superseded_is_decided()
    ensures superseded { (h : History) (n : ℕ) (i : Invocation) → IsLegal h → invocation_of n h.pairs ≡ Some i
        → is_number n (latest i.dialogue i.id h.pairs) ≡ false →
        is_some (outcome n h.pairs) ≡ true }
    ensures reused { (h : History) (n : ℕ) (i : Invocation) → IsLegal h → invocation_of n h.pairs ≡ Some i
        → is_reused i h.pairs ≡ true → is_some (outcome n h.pairs) ≡ true }
    // While nothing has decided it, it is the latest of its identifier.
    ensures current { (h : History) (n : ℕ) (i : Invocation) → IsLegal h → invocation_of n h.pairs ≡ Some i
        → outcome n h.pairs ≡ None → latest i.dialogue i.id h.pairs ≡ Some i }
{}

/// What the class table makes of an answer to an invocation that is Sent is what is told of it and how
/// it closes the invocation, whatever the operation class (Q.774, Component sublayer procedures).
pub fn class_tables_agree()
    ensures { (sent : SentInvocation) (id : ℤ) (timeout clock : ℕ) → ClassTablesAgree sent id timeout clock }
{}

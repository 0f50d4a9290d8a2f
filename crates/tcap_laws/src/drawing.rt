//! The clock, the life of a dialogue, and what is drawn once.

ghost use Rattle.std.specs.Prelude.{◌≡◌, ◌≢◌, ℕ, ◌<◌, ◌≤◌, ◌∷◌, ◌++◌, ◌↔◌, true, false, map, AllPairs, Contains, Some, option_map};
ghost use Rattle.std.specs.List.{range_with_len};
ghost use Rattle.tcap_model.specs.Histories.Birth.{born_of, births, next_dialogue, dialogues, was_born};
ghost use Rattle.tcap_model.specs.Histories.Clock.{clock};
ghost use Rattle.tcap_model.specs.Words.Event.{Event};
ghost use Rattle.tcap_model.specs.Histories.History.{History};
ghost use Rattle.tcap_model.specs.Words.Identifiers.{last_dialogue, last_number};
ghost use Rattle.tcap_model.specs.Invocations.Invocation.{Invocation, invoked_of, invokes, invocations, invocation_of, next_number};
ghost use Rattle.tcap_model.specs.Replies.Legal.{IsLegal};
ghost use Rattle.tcap_model.specs.Histories.Life.{Life, life};
ghost use Rattle.tcap_model.specs.Invocations.Numbers.{number_of, numbers};
ghost use Rattle.tcap_model.specs.Histories.Pair.{Pair, Past};
ghost use Rattle.tcap_model.specs.Replies.Reply.{reply};

/// The clock never falls (our own).
pub fn clock_never_falls()
    ensures step { (pair : Pair) (past : Past) → clock past ≤ clock (pair ∷ past) }
    ensures later { (later past : Past) → clock past ≤ clock (later ++ past) }
{}

/// A dialogue that is over stays so (our own).
pub fn over_stays_over()
    ensures step { (dialogue : ℕ) (pair : Pair) (past : Past) → life dialogue past ≡ Life.over →
        life dialogue (pair ∷ past) ≡ Life.over }
    ensures later { (dialogue : ℕ) (later past : Past) → life dialogue past ≡ Life.over →
        life dialogue (later ++ past) ≡ Life.over }
{}

/// A dialogue that was created is never again one that was not created yet (our own).
pub fn born_stays_born()
    ensures { (dialogue : ℕ) (later past : Past) → life dialogue past ≢ Life.unborn →
        life dialogue (later ++ past) ≢ Life.unborn }
{}

/// The numbers of invocations are drawn from a counter, each once: a reply carries one only to an
/// Invoke, and it is the next one. In a legal history the numbers that answers carry are those of
/// the invocations; they rise one by one from the start, each names its invocation, and the
/// counter never passes its last number (our own).
pub fn number_is_drawn_once()
    ensures to_invoke { (h : History) (event : Event) →
        number_of (reply h event) ≡ option_map (λ (i : Invocation). i.number) (invoked_of event (reply h event)) }
    ensures next { (h : History) (event : Event) (number : ℕ) → number_of (reply h event) ≡ Some number →
        number ≡ next_number h }
    ensures drawn { (h : History) → IsLegal h → numbers h.pairs
        ≡ range_with_len h.start.next_number (invokes h.pairs) }
    ensures rising { (h : History) → IsLegal h → AllPairs (λ m n. m < n) (numbers h.pairs) }
    ensures of_invocations { (h : History) → IsLegal h
        → numbers h.pairs ≡ map (λ (i : Invocation). i.number) (invocations h.pairs) }
    ensures found { (h : History) → IsLegal h → (i : Invocation) → Contains (invocations h.pairs) i →
        invocation_of i.number h.pairs ≡ Some i }
    ensures within { (h : History) → IsLegal h → next_number h ≤ last_number }
{}

/// The identifiers of dialogues are drawn from a counter, each once: a reply creates no
/// dialogue, or the next one. In a legal history the dialogues rise one by one from the start, the counter
/// never passes its last identifier, and those that were created are the ones that live or lived (our
/// own).
pub fn dialogue_is_born_once()
    ensures next { (h : History) (event : Event) (dialogue : ℕ)
        → born_of event (reply h event) ≡ Some dialogue →
        dialogue ≡ next_dialogue h }
    ensures drawn { (h : History) → IsLegal h → dialogues h.pairs
        ≡ range_with_len h.start.next_dialogue (births h.pairs) }
    ensures rising { (h : History) → IsLegal h → AllPairs (λ c d. c < d) (dialogues h.pairs) }
    ensures within { (h : History) → IsLegal h → next_dialogue h ≤ last_dialogue }
    ensures listed { (dialogue : ℕ) (past : Past)
        → (was_born dialogue past ≡ true) ↔ Contains (dialogues past) dialogue }
    ensures lives { (h : History) → IsLegal h → (dialogue : ℕ) →
        (was_born dialogue h.pairs ≡ true) ↔ (life dialogue h.pairs ≢ Life.unborn) }
    ensures beyond { (h : History) → IsLegal h → (dialogue : ℕ) → next_dialogue h ≤ dialogue →
        was_born dialogue h.pairs ≡ false }
{}

//! Laws of the definitions, each the contract of a function that does nothing.

ghost use Rattle.std.specs.Prelude.{◌≡◌, ℕ, List, true, false, Ok};
ghost use Rattle.tcap_pdu.specs.FrameSpelling.{Message, SpellsFrame};
ghost use Rattle.tcap_pdu.specs.DialogueSpelling.{PduValue, SpellsDialogue};
ghost use Rattle.tcap_component.specs.Component.{ComponentParts, SpellsComponent};
ghost use Rattle.tcap_words.specs.Verdict.{is_good, is_known, verdict_of};
ghost use Rattle.tcap_explain.specs.declared.line.Explained.{Explained};
ghost use Rattle.tcap_explain.specs.FaultAt.{FaultAt};
ghost use Rattle.tcap_explain.specs.Unmet.{Stands, Unmet};

use crate::line::{ComponentLine, Line, MessageLine, PortionLine};

/// Each message with a fault has exactly one place, and a good one has none (our own).
pub fn one_place()
    ensures there { (bytes : List ℕ) → is_good (verdict_of bytes) ≡ false
        → (x : Explained) × FaultAt bytes x }
    ensures one { (bytes : List ℕ) (x y : Explained) → FaultAt bytes x → FaultAt bytes y → x ≡ y }
    ensures none { (bytes : List ℕ) (x : Explained) → is_good (verdict_of bytes) ≡ true
        → FaultAt bytes x → ⊥ }
{}

/// Contents stand in a table, or exactly one thing is not met first in them (our own).
pub fn one_unmet()
    ensures one { (line : Line) (bytes : List ℕ) (x y : Explained) → Unmet line bytes x
        → Unmet line bytes y → x ≡ y }
    ensures none { (line : Line) (bytes : List ℕ) (x : Explained) → Stands line bytes
        → Unmet line bytes x → ⊥ }
{}

/// Messages, dialogue portions and components, as they are read, stand in the tables; a foreign portion in that of an
/// Abort alone. So the elements that a table passes are those that the standard's have in their places (our own).
pub fn tables()
    ensures messages { (m : Message) (bytes : List ℕ) → SpellsFrame m bytes
        → Stands (Line.Message MessageLine.MessageType) bytes }
    ensures portions { (p : PduValue) (bytes : List ℕ) → is_known (Ok p) ≡ true → SpellsDialogue p bytes
        → Stands (Line.Portion PortionLine.External) bytes }
    ensures abort_portions { (p : PduValue) (bytes : List ℕ) → SpellsDialogue p bytes
        → Stands (Line.Portion PortionLine.AbortExternal) bytes }
    ensures components { (c : ComponentParts) (bytes : List ℕ) → SpellsComponent c bytes
        → Stands (Line.Component ComponentLine.ComponentType) bytes }
{}

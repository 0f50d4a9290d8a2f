//! Laws of what is wrong with a line.

ghost use Rattle.std.specs.Prelude.{◌≡◌, ◌⊎◌, ℕ, List};
ghost use Rattle.tcap_lines.specs.LineFaults.{IsFirstFault, IsGoodLine};
ghost use Rattle.tcap_lines.specs.Table.{LineTable};
ghost use Rattle.tcap_lines.specs.declared.fault.LineFault.{LineFault as Found};

/// A line has a form of the table, or exactly one word of it is the first that is wrong.
pub fn one_fault()
    ensures there { (table : LineTable) (words : List (List ℕ))
        → IsGoodLine table words ⊎ ((found : Found) × IsFirstFault table words found) }
    ensures one { (table : LineTable) (words : List (List ℕ)) (found other : Found)
        → IsFirstFault table words found → IsFirstFault table words other → found ≡ other }
    ensures none { (table : LineTable) (words : List (List ℕ)) (found : Found)
        → IsGoodLine table words → IsFirstFault table words found → ⊥ }
{}

//! Laws of bad lines.

ghost use Rattle.std.specs.Prelude.{◌≡◌, ◌⊎◌, ℕ, List};
ghost use Rattle.tcap_play.specs.Pieces.{words_of};
ghost use Rattle.tcap_play.specs.Play.{Played};
ghost use Rattle.tcap_lines.specs.FaultText.{line_fault_words};
ghost use Rattle.tcap_lines.specs.declared.fault.LineFault.{LineFault as Found};
ghost use Rattle.tcap_stories.specs.BadLine.{IsBad, IsUnfit, IsWrong, first_of, reason_of, unfit_words};
ghost use Rattle.tcap_stories.specs.StoryTable.{story_table};

/// At any play a line is bad exactly where a word of it is wrong, or its words fit and it is one of those that say
/// what they can't: a message that can't be so treated, a late idle limit, an empty expectation. The first word that
/// is wrong is told, or what such a line can't say.
pub fn bad_lines()
    // A line with a wrong word is bad, and that word is told.
    ensures wrong { (p : Played) (line : List ℕ) (found : Found) → IsWrong line found
        → IsBad p line × (reason_of line ≡ line_fault_words story_table found) }
    // So are these, and what they can't say is told; no word of them is wrong.
    ensures unfit { (p : Played) (line : List ℕ) → IsUnfit p (words_of line)
        → IsBad p line × (reason_of line ≡ unfit_words (first_of (words_of line)))
        × ((found : Found) → IsWrong line found → ⊥) }
    // No other line is.
    ensures no_other { (p : Played) (line : List ℕ) → IsBad p line
        → ((found : Found) × IsWrong line found) ⊎ IsUnfit p (words_of line) }
{}

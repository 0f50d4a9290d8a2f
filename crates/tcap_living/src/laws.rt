//! Laws of lines.

ghost use Rattle.std.specs.Prelude.{◌≡◌, ℕ, List, true, false};
ghost use Rattle.tcap_play.specs.Pieces.{is_skipped, words_of};
ghost use Rattle.tcap_lines.specs.LineFaults.{IsGoodLine};
ghost use Rattle.tcap_living.specs.LiveTable.{live_table};
ghost use Rattle.tcap_living.specs.LiveText.{is_good_line};
ghost use Rattle.tcap_living.specs.WrongWords.{IsReadUnlessWrong, IsToldBad};

/// A line has no form exactly where one of its words is the first that is wrong, and that one is told.
pub fn bad_lines()
    // For any words.
    ensures words { (words : List (List ℕ)) → IsReadUnlessWrong words }
    // For any octets: of a bad line the first word that is wrong is told.
    ensures bad { (line : List ℕ) → is_good_line line ≡ false → IsToldBad line }
    // Of one that is good, and isn't skipped, no word is wrong.
    ensures good { (line : List ℕ) → is_skipped line ≡ false → is_good_line line ≡ true
        → IsGoodLine live_table (words_of line) }
{}

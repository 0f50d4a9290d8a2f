//! Forms of lines.

ghost use Rattle.std.specs.Prelude.{◌≡◌, bytes_eq, option_map, map};
ghost use Rattle.std.specs.List.{list_any};
ghost use Rattle.tcap_lines.specs.Table.{words_named};
ghost use Rattle.tcap_lines.specs.TableViews.{forms_view};

use crate::expected::Expected;

/// A form of line.
#[derive(Clone, Copy)]
pub struct Form<'t> {
    /// Its name, which is the first word, or the one behind the side.
    pub name: &'t str,
    /// What the words behind the name have to be. There are no more.
    pub words: &'t [Expected],
}

/// The forms that the lines of a text have.
#[derive(Clone, Copy)]
pub struct Table<'t> {
    /// The words that stand for a side.
    pub sides: &'t [&'t str],
    /// The forms whose name stands behind a side.
    pub on_side: &'t [Form<'t>],
    /// The forms whose name is the first word.
    pub alone: &'t [Form<'t>],
}

/// Whether a word is one of these.
pub(crate) fn is_listed(words: &[&str], word: &[u8]) -> bool
    ensures { result ≡ list_any (bytes_eq word.now) (map (λ w. w.now) words.now) }
{
    for listed in words {
        if word == listed.as_bytes() {
            return true;
        }
    }
    false
}

/// What the words behind a name have to be, by the first form of this name, None where there is none.
pub(crate) fn words_named<'t>(forms: &'t [Form<'t>], name: &[u8]) -> Option<&'t [Expected]>
    ensures { option_map (λ w. w.now) result ≡ words_named name.now (forms_view forms.entry.now) }
{
    for form in forms {
        if name == form.name.as_bytes() {
            return Some(form.words);
        }
    }
    None
}

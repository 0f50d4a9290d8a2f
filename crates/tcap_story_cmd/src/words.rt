//! The words of the program.

ghost use Rattle.std.specs.Prelude.{◌≡◌, ◌≤◌, bytes_eq, length, map, option_map};
ghost use Rattle.tcap_story_cmd.specs.CommandLine.{asked, asked_at, asked_by, is_option, junit_count, stories_if, told_by};

use crate::report_text::Report;

/// What the words of the program ask for.
#[derive(Clone, Copy)]
pub enum Request<'w> {
    /// `--help`: how it is called.
    Help,
    /// `--version`: its name and version.
    Version,
    /// The stories of these names, or on standard input where there is none.
    Stories(Report, &'w [&'w str]),
}

/// Whether a word is an option.
fn is_option(word: &str) -> bool
    ensures { result ≡ is_option word.now }
{
    matches!(word.as_bytes(), [b'-', _, ..])
}

/// Whether a word is this one.
fn is(word: &str, name: &str) -> bool
    ensures { result ≡ bytes_eq word.now name.now }
{
    word == name
}

/// The stories of these names, None where one is an option.
fn stories_if<'w>(report: Report, names: &'w [&'w str]) -> Option<Request<'w>>
    ensures { option_map asked result ≡ stories_if report (map (λ name. name.now) names.entry.now) }
{
    for name in names {
        if is_option(name) {
            return None;
        }
    }
    Some(Request::Stories(report, names))
}

/// How many words `--junit` stand before the others.
fn junit_count(words: &[&str]) -> usize
    ensures count { result ≡ junit_count (map (λ word. word.now) words.now) }
    ensures within { result ≤ length words.now }
{
    let mut count = 0;
    for word in words {
        if !is(word, "--junit") {
            return count;
        }
        count += 1;
    }
    count
}

/// How stories are told where so many of them stand there.
fn told_by(count: usize) -> Report
    ensures { result ≡ told_by count }
{
    if count == 0 {
        Report::Lines
    } else {
        Report::JUnit
    }
}

/// What the words behind them ask for, None where they ask for nothing.
fn read_rest<'w>(told: Report, words: &'w [&'w str]) -> Option<Request<'w>>
    ensures { option_map asked result ≡ asked_at told (map (λ word. word.now) words.entry.now) }
{
    let Some((first, more)) = words.split_first() else {
        return Some(Request::Stories(told, words));
    };
    if is(first, "--help") {
        Some(Request::Help)
    } else if is(first, "--version") {
        Some(Request::Version)
    } else if is(first, "--") {
        Some(Request::Stories(told, more))
    } else {
        stories_if(told, words)
    }
}

/// What the words behind the program's name ask for, None where they ask for nothing: options, `--junit`, `--help` and
/// `--version`, of which the first of the last two decides; and then names, behind which no option stands. Behind `--`
/// any word is a name.
///
/// ```rust
/// let words = ["--junit", "a.story"];
/// assert!(rt; matches!(read_words(&words), Some(Request::Stories(Report::JUnit, ["a.story"]))));
/// ```
pub fn read_words<'w>(words: &'w [&'w str]) -> Option<Request<'w>>
    ensures { option_map asked result ≡ asked_by (map (λ word. word.now) words.entry.now) }
{
    let count = junit_count(words);
    let (_, rest) = words.split_at(count);
    read_rest(told_by(count), rest)
}

//! The words of the command, read by `clap`.

ghost use Rattle.std.specs.Prelude.{◌≡◌, ◌⊎◌, map, true, false, IfOk, MatchResult, option_map};
ghost use Rattle.clap.specs.Words.{app_of, rule_of, rows_of, found_of, first_of};
ghost use Rattle.tcap_judging.specs.CommandLine.{Ask, AskNames, AskNothing, bare_app, is_mixed, is_reading, is_set, is_streamed, judge_app, layout_by, line_app, names_by, names_rule, naming_by, option_rule, reading_app, request_by};

use crate::fault::JudgingFault;
use crate::form::Layout;
use crate::naming::Naming;
use crate::refusal::Refusal;
use crate::request::{Asked, Request};
use clap::error::ErrorKind;
use clap::{Arg, ArgAction, ArgMatches, Command};
use std::alloc::{AllocError, Global};

/// An option without a value: `--` and its name.
fn option<'a>(alloc: Global, name: &'a str) -> Arg<'a>
    ensures rule { rule_of result ≡ option_rule name.now }
    ensures global { result.global ≡ false }
{
    Arg::new(alloc, name).long(name).action(ArgAction::SetTrue)
}

/// The option with the file of names.
fn names_option<'a>(alloc: Global) -> Arg<'a>
    ensures rule { rule_of result ≡ names_rule }
    ensures global { result.global ≡ false }
{
    Arg::new(alloc, "names")
        .long("names")
        .action(ArgAction::Set)
}

/// The command `tcap_judge` without options.
fn bare_command<'a>(alloc: Global) -> Command<'a>
    ensures { app_of result ≡ bare_app }
{
    Command::new(alloc, "tcap_judge")
        .no_binary_name(true)
        .disable_help_flag(true)
}

/// The command `tcap_judge` with the first of its options.
fn reading_command<'a>(alloc: Global) -> Result<Command<'a>, AllocError>
    ensures { IfOk result (λ c. app_of c ≡ reading_app) }
{
    bare_command(alloc)
        .arg(option(alloc, "help"))?
        .arg(option(alloc, "version"))?
        .arg(option(alloc, "stream"))
}

/// The command `tcap_judge` with the options that say what is read.
fn line_command<'a>(alloc: Global) -> Result<Command<'a>, AllocError>
    ensures { IfOk result (λ c. app_of c ≡ line_app) }
{
    reading_command(alloc)?.arg(option(alloc, "named"))
}

/// The command `tcap_judge` with its options.
#[tactic(auto, unfolding(crate::specs::CommandLine::judge_app))]
fn judge_command<'a>(alloc: Global) -> Result<Command<'a>, AllocError>
    ensures { IfOk result (λ c. app_of c ≡ judge_app) }
{
    line_command(alloc)?
        .arg(option(alloc, "resync"))?
        .arg(option(alloc, "explain"))?
        .arg(option(alloc, "json"))?
        .arg(names_option(alloc))
}

/// Whether an option was given. Its text is looked at, since a contract says of it what the words give.
fn is_set(matches: &ArgMatches<'_>, name: &str) -> bool
    ensures { result ≡ is_set name.now (rows_of (found_of matches.now)) }
{
    match matches.get_str(name) {
        Some(text) => text == "true",
        None => false,
    }
}

/// How the options that were found ask to print.
fn layout_of(matches: &ArgMatches<'_>) -> Layout
    ensures { result ≡ layout_by (rows_of (found_of matches.now)) }
{
    if is_set(matches, "json") {
        Layout::Json
    } else if is_set(matches, "explain") {
        Layout::Marked
    } else {
        Layout::Plain
    }
}

/// Which first words of lines the options that were found ask to take for names.
fn naming_of(matches: &ArgMatches<'_>) -> Naming
    ensures { result ≡ naming_by (rows_of (found_of matches.now)) }
{
    if is_set(matches, "named") {
        Naming::All
    } else {
        Naming::Marked
    }
}

/// What the options that were found ask for.
fn request_of(matches: &ArgMatches<'_>) -> Request
    ensures { result ≡ request_by (rows_of (found_of matches.now)) }
{
    if is_set(matches, "help") {
        Request::Help
    } else if is_set(matches, "version") {
        Request::Version
    } else if is_set(matches, "resync") {
        Request::Resync(layout_of(matches))
    } else if is_set(matches, "stream") {
        Request::Stream(layout_of(matches))
    } else {
        Request::Lines(layout_of(matches), naming_of(matches))
    }
}

/// The value of an option, if it was given.
fn value_of<'a>(matches: &ArgMatches<'a>, name: &str) -> Option<&'a str>
    ensures { option_map (λ t. t.now) result ≡ first_of name.now (rows_of (found_of matches.now)) }
{
    matches.get_str(name)
}

/// Whether the options ask for something that is read.
fn is_reading(matches: &ArgMatches<'_>) -> bool
    ensures { result ≡ is_reading (rows_of (found_of matches.now)) }
{
    !(is_set(matches, "help") || is_set(matches, "version"))
}

/// The file of names that the options tell, where something is read.
fn names_of<'a>(matches: &ArgMatches<'a>) -> Option<&'a str>
    ensures { option_map (λ t. t.now) result ≡ names_by (rows_of (found_of matches.now)) }
{
    if is_reading(matches) {
        value_of(matches, "names")
    } else {
        None
    }
}

/// Whether the options ask for a stream.
fn is_streamed(matches: &ArgMatches<'_>) -> bool
    ensures { result ≡ is_streamed (rows_of (found_of matches.now)) }
{
    is_set(matches, "stream") || is_set(matches, "resync")
}

/// Whether the options ask for the names of lines in a stream, which has none.
fn is_mixed(matches: &ArgMatches<'_>) -> bool
    ensures { result ≡ is_mixed (rows_of (found_of matches.now)) }
{
    is_reading(matches) && is_set(matches, "named") && is_streamed(matches)
}

/// What the options that were found ask for, if they ask for something.
fn asked_of<'a>(matches: &ArgMatches<'a>) -> Result<Asked<'a>, Refusal>
    ensures { MatchResult result
        (λ asked. (is_mixed (rows_of (found_of matches.now)) ≡ false)
        × (asked.request ≡ request_by (rows_of (found_of matches.now)))
        × (option_map (λ t. t.now) asked.names ≡ names_by (rows_of (found_of matches.now))))
        (λ refusal. (refusal ≡ Refusal.BadCommand) × (is_mixed (rows_of (found_of matches.now)) ≡ true)) }
{
    if is_mixed(matches) {
        return Err(Refusal::BadCommand);
    }
    Ok(Asked {
        request: request_of(matches),
        names: names_of(matches),
    })
}

/// What the words after the program's name ask for.
pub(crate) fn read_words<'a>(alloc: Global, words: &'a [&'a str]) -> Result<Asked<'a>, Refusal>
    ensures { MatchResult result (λ asked. Ask (map (λ w. w.now) words.now) asked.request
        × AskNames (map (λ w. w.now) words.now) (option_map (λ t. t.now) asked.names))
        (λ refusal. (refusal ≡ Refusal.Fault JudgingFault.OutOfMemory)
        ⊎ ((refusal ≡ Refusal.BadCommand) × AskNothing (map (λ w. w.now) words.now))) }
{
    let Ok(command) = judge_command(alloc) else {
        return Err(Refusal::Fault(JudgingFault::OutOfMemory));
    };
    match command.try_get_matches_from(words) {
        Ok(matches) => asked_of(&matches),
        Err(error) => match error.kind() {
            ErrorKind::OutOfMemory => Err(Refusal::Fault(JudgingFault::OutOfMemory)),
            _ => Err(Refusal::BadCommand),
        },
    }
}

/// The file of names that the words after the program's name tell, if they tell one.
///
/// # Errors
///
/// `BadCommand` where the words are none of the command's, or ask for the names of lines in a stream; `OutOfMemory`
/// where memory was refused.
pub fn names_file<'a>(alloc: Global, words: &'a [&'a str]) -> Result<Option<&'a str>, Refusal>
    ensures { MatchResult result (λ file. AskNames (map (λ w. w.now) words.now) (option_map (λ t. t.now) file))
        (λ refusal. (refusal ≡ Refusal.Fault JudgingFault.OutOfMemory)
        ⊎ ((refusal ≡ Refusal.BadCommand) × AskNothing (map (λ w. w.now) words.now))) }
{
    match read_words(alloc, words) {
        Ok(asked) => Ok(asked.names),
        Err(refusal) => Err(refusal),
    }
}

//! The words of the command, read by `clap`.

ghost use Rattle.std.specs.Prelude.{◌≡◌, ◌⊎◌, ◌≤◌, map, option_map, false, IfOk, IfSome, MatchResult};
ghost use Rattle.clap.specs.Words.{app_of, first_value, found_of, rows_of, rule_of};
ghost use Rattle.tcap_engine.specs.Limits.{AreLimits};
ghost use Rattle.tcap_live_cmd.specs.CommandLine.{Ask, AskNothing, IsStarted, asked, asked_by, asked_in, bare_app, flag_rule, format_in, is_set, live_app, option_rule, start_in, start_of, value_of};

use crate::refusal::Refusal;
use crate::request::{Request, Settings};
use clap::error::ErrorKind;
use clap::{Arg, ArgAction, ArgMatches, Command};
use std::alloc::{AllocError, Global};
use tcap_engine::Limits;
use tcap_living::Format;
use tcap_play::number;

/// The most dialogues that may stand at once.
const MOST_DIALOGUES: u64 = 65_535;
/// The most milliseconds of a limit: 2^62.
const MOST_MILLISECONDS: u64 = 1 << 62;

/// An option with a value, by its name.
fn option<'a>(alloc: Global, name: &'a str) -> Arg<'a>
    ensures rule { rule_of result ≡ option_rule name.entry.now }
    ensures global { result.global ≡ false }
{
    Arg::new(alloc, name).long(name).action(ArgAction::Set)
}

/// An option without one.
fn flag<'a>(alloc: Global, name: &'a str) -> Arg<'a>
    ensures rule { rule_of result ≡ flag_rule name.entry.now }
    ensures global { result.global ≡ false }
{
    Arg::new(alloc, name).long(name).action(ArgAction::SetTrue)
}

/// The command `tcap_live` without its options.
fn bare_command<'a>(alloc: Global) -> Command<'a>
    ensures { app_of result ≡ bare_app }
{
    Command::new(alloc, "tcap_live")
        .no_binary_name(true)
        .disable_help_flag(true)
}

/// The command `tcap_live` with its options.
fn live_command<'a>(alloc: Global) -> Result<Command<'a>, AllocError>
    ensures { IfOk result (λ c. app_of c ≡ live_app) }
{
    let live = bare_command(alloc);
    live.arg(option(alloc, "dialogues"))?
        .arg(option(alloc, "reject"))?
        .arg(option(alloc, "idle"))?
        .arg(option(alloc, "first-dialogue"))?
        .arg(option(alloc, "first-number"))?
        .arg(flag(alloc, "json"))?
        .arg(flag(alloc, "help"))?
        .arg(flag(alloc, "version"))
}

/// The value of an option, a number of this range, or what stands for it without the option.
fn value(matches: &ArgMatches<'_>, name: &str, least: u64, most: u64, default: u64) -> Option<u64>
    requires { (least ≤ default) × (default ≤ most) }
    ensures value { result ≡ value_of least most default (first_value (found_of matches.now) name.now) }
    ensures within { IfSome result (λ n. (least ≤ n) × (n ≤ most)) }
{
    let Some(word) = matches.get_str(name) else {
        return Some(default);
    };
    let n = number(word.as_bytes())?;
    if least <= n && n <= most {
        Some(n)
    } else {
        None
    }
}

/// The settings that the options ask for.
fn settings_of(matches: &ArgMatches<'_>) -> Option<Settings>
    ensures start { option_map start_of result ≡ start_in (first_value (found_of matches.now)) }
    ensures limits { IfSome result (λ settings. AreLimits settings.limits) }
{
    let dialogues = value(matches, "dialogues", 1, MOST_DIALOGUES, 16)?;
    let reject_ms = value(matches, "reject", 0, MOST_MILLISECONDS, 1_000)?;
    let idle_ms = value(matches, "idle", 0, MOST_MILLISECONDS, 0)?;
    let first_dialogue = value(matches, "first-dialogue", 0, u64::from(u32::MAX), 1)?;
    let first_number = value(matches, "first-number", 0, u64::MAX, 1)?;
    let limits = Limits {
        max_dialogues: dialogues as usize,
        reject_ms,
        idle_ms,
    };
    Some(Settings {
        limits,
        first_dialogue: first_dialogue as u32,
        first_number,
    })
}

/// Whether an option without a value is there.
fn is_set(matches: &ArgMatches<'_>, name: &str) -> bool
    ensures { result ≡ is_set (first_value (found_of matches.now) name.now) }
{
    match matches.get_str(name) {
        Some(text) => text == "true",
        None => false,
    }
}

/// The format of the answers that the options ask for.
fn format_of(matches: &ArgMatches<'_>) -> Format
    ensures { result ≡ format_in (first_value (found_of matches.now)) }
{
    if is_set(matches, "json") {
        Format::Json
    } else {
        Format::Words
    }
}

/// What the options that were found ask for, by their values.
fn request_by(matches: &ArgMatches<'_>) -> Option<Request>
    ensures started { IfSome result (λ request. IsStarted request) }
    ensures request { option_map asked result ≡ asked_by (first_value (found_of matches.now)) }
{
    if is_set(matches, "help") {
        return Some(Request::Help);
    }
    if is_set(matches, "version") {
        return Some(Request::Version);
    }
    Some(Request::Run(format_of(matches), settings_of(matches)?))
}

/// What the options that were found ask for.
fn request_of(matches: &ArgMatches<'_>) -> Option<Request>
    ensures started { IfSome result (λ request. IsStarted request) }
    ensures request { option_map asked result ≡ asked_in (rows_of (found_of matches.now)) }
{
    request_by(matches)
}

/// What the words after the program's name ask for.
pub(crate) fn read_words(alloc: Global, words: &[&str]) -> Result<Request, Refusal>
    ensures { MatchResult result
        (λ request. IsStarted request × Ask (map (λ w. w.now) words.entry.now) (asked request))
        (λ refusal. (refusal ≡ Refusal.OutOfMemory) ⊎ ((refusal ≡ Refusal.BadCommand) × AskNothing (map (λ w. w.now) words.entry.now))) }
{
    let Ok(command) = live_command(alloc) else {
        return Err(Refusal::OutOfMemory);
    };
    match command.try_get_matches_from(words) {
        Ok(matches) => request_of(&matches).ok_or(Refusal::BadCommand),
        Err(error) => match error.kind() {
            ErrorKind::OutOfMemory => Err(Refusal::OutOfMemory),
            _ => Err(Refusal::BadCommand),
        },
    }
}

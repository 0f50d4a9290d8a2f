//! The words of the command, read by `clap`.

ghost use Rattle.std.specs.Prelude.{◌≡◌, ◌⊎◌, map, option_map, option_and_then, false, IfOk, MatchResult};
ghost use Rattle.clap.specs.Words.{app_of, rule_of, subcommand_rows_of};
ghost use Rattle.tcap_cmd.specs.CommandLine.{hex_rule, tcap_app, asked, asked_by, Ask, AskNothing};

use crate::refusal::Refusal;
use crate::request::Request;
use clap::error::ErrorKind;
use clap::{Arg, ArgAction, ArgMatches, Command};
use std::alloc::{AllocError, Global};

/// The argument HEX, which is required.
fn hex_argument<'a>(alloc: Global) -> Arg<'a>
    ensures rule { rule_of result ≡ hex_rule }
    ensures global { result.global ≡ false }
{
    Arg::new(alloc, "hex").required(true).action(ArgAction::Set)
}

/// The command `tcap` with its subcommands.
fn tcap_command<'a>(alloc: Global) -> Result<Command<'a>, AllocError>
    ensures { IfOk result (λ c. app_of c ≡ tcap_app) }
{
    let show = Command::new(alloc, "show")
        .disable_help_flag(true)
        .arg(hex_argument(alloc))?;
    let check = Command::new(alloc, "check")
        .disable_help_flag(true)
        .arg(hex_argument(alloc))?;
    let canon = Command::new(alloc, "canon")
        .disable_help_flag(true)
        .arg(hex_argument(alloc))?;
    let play = Command::new(alloc, "play").disable_help_flag(true);
    let stream = Command::new(alloc, "stream").disable_help_flag(true);
    let tcap = Command::new(alloc, "tcap")
        .no_binary_name(true)
        .disable_help_flag(true)
        .disable_help_subcommand(true)
        .subcommand_required(true);
    tcap.subcommand(show)?
        .subcommand(check)?
        .subcommand(canon)?
        .subcommand(play)?
        .subcommand(stream)
}

/// What the subcommand that was found asks for.
fn request_of<'a>(matches: &ArgMatches<'a>) -> Option<Request<'a>>
    ensures { option_map asked result ≡ option_and_then asked_by (subcommand_rows_of matches.now) }
{
    let (name, inner) = matches.subcommand()?;
    match name {
        "show" => Some(Request::Show(inner.get_str("hex")?)),
        "check" => Some(Request::Check(inner.get_str("hex")?)),
        "canon" => Some(Request::Canon(inner.get_str("hex")?)),
        "play" => Some(Request::Play),
        "stream" => Some(Request::Stream),
        _ => None,
    }
}

/// What the words after the program's name ask for.
pub(crate) fn read_words<'a>(alloc: Global, words: &'a [&'a str]) -> Result<Request<'a>, Refusal>
    ensures { MatchResult result (λ request. Ask (map (λ w. w.now) words.entry.now) (asked request))
        (λ refusal. (refusal ≡ Refusal.OutOfMemory) ⊎ ((refusal ≡ Refusal.BadCommand) × AskNothing (map (λ w. w.now) words.entry.now))) }
{
    let Ok(command) = tcap_command(alloc) else {
        return Err(Refusal::OutOfMemory);
    };
    match command.try_get_matches_from(words) {
        Ok(matches) => request_of(&matches).ok_or(Refusal::BadCommand),
        Err(error) => match error.kind() {
            ErrorKind::OutOfMemory => Err(Refusal::OutOfMemory),
            _ => Err(Refusal::BadCommand),
        },
    }
}

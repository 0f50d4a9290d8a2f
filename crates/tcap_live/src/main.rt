//! The program `tcap_live`: hands its words to `run_command` and answers its status.
#![tactic(auto)]

use std::io::ErrorKind;
use std::process::ExitCode;
use std::{env, io};
use tcap_live_cmd::{Refusal, report, run_command};

/// Collects the words after the program's name and runs them. Words that are no text are a bad
/// command.
fn main(rt: HostRuntime) -> ExitCode {
    let alloc = rt.alloc();
    let mut err = rt.stderr();
    let args = match env::args(&rt) {
        Ok(args) => args,
        Err(error) if error.kind() == ErrorKind::OutOfMemory => {
            return ExitCode::from(report(&mut err, Refusal::OutOfMemory));
        }
        Err(_) => return ExitCode::from(report(&mut err, Refusal::BadCommand)),
    };
    let mut words = Vec::new(alloc);
    for arg in args.skip(1) {
        if words.push(arg).is_err() {
            return ExitCode::from(report(&mut err, Refusal::OutOfMemory));
        }
    }
    let mut texts: Vec<&str> = Vec::new(alloc);
    for word in &words {
        if texts.push(word.as_str()).is_err() {
            return ExitCode::from(report(&mut err, Refusal::OutOfMemory));
        }
    }
    let mut reader = rt.reader();
    let mut out = io::writer(&rt);
    let words = texts.as_slice();
    ExitCode::from(run_command(alloc, alloc, words, &mut reader, &mut out, &mut err))
}

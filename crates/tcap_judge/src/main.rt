//! The program `tcap_judge`: hands its words, and the names of the file that they tell, to `run_judge` and answers its
//! status.
#![tactic(auto)]

use std::io::{ErrorKind, Read};
use std::process::ExitCode;
use std::{env, fs, io};
use tcap_judging::{JudgingFault, Named, Refusal, names_file, read_names, report, run_judge};

/// Why a list of names can't be had, by what the file answers.
fn names_refusal(kind: ErrorKind) -> Refusal {
    match kind {
        ErrorKind::OutOfMemory => Refusal::Fault(JudgingFault::OutOfMemory),
        _ => Refusal::NoNames,
    }
}

/// The octets of a file.
fn file_octets(rt: &HostRuntime, name: &str) -> Result<Vec<u8>, Refusal> {
    let mut octets = Vec::new(rt.alloc());
    let mut file = match fs::open(rt, name) {
        Ok(file) => file,
        Err(error) => return Err(names_refusal(error.kind())),
    };
    match file.read_to_end(&mut octets) {
        Ok(_) => Ok(octets),
        Err(error) => Err(names_refusal(error.kind())),
    }
}

/// Runs the words by these names, and gives the status.
fn judge(rt: &HostRuntime, words: &[&str], names: Option<&[Named<'_>]>) -> u8 {
    let alloc = rt.alloc();
    let mut reader = rt.reader();
    let mut out = io::writer(rt);
    run_judge(
        alloc,
        alloc,
        words,
        names,
        &mut reader,
        &mut out,
        &mut rt.stderr(),
    )
}

/// Runs the words by the names in this file, and gives the status.
fn judge_named(rt: &HostRuntime, words: &[&str], file: &str) -> u8 {
    let octets = match file_octets(rt, file) {
        Ok(octets) => octets,
        Err(refusal) => return report(&mut rt.stderr(), refusal),
    };
    match read_names(rt.alloc(), octets.as_slice()) {
        Ok(names) => judge(rt, words, Some(names.as_slice())),
        Err(fault) => report(&mut rt.stderr(), Refusal::from(fault)),
    }
}

/// Runs the words, by the names in the file that they tell, and gives the status.
fn run(rt: &HostRuntime, words: &[&str]) -> u8 {
    match names_file(rt.alloc(), words) {
        Ok(Some(file)) => judge_named(rt, words, file),
        Ok(None) => judge(rt, words, None),
        Err(refusal) => report(&mut rt.stderr(), refusal),
    }
}

/// Collects the words after the program's name and runs them. Words that are no text are a bad
/// command.
fn main(rt: HostRuntime) -> ExitCode {
    let alloc = rt.alloc();
    let mut err = rt.stderr();
    let args = match env::args(&rt) {
        Ok(args) => args,
        Err(error) if error.kind() == ErrorKind::OutOfMemory => {
            return ExitCode::from(report(&mut err, Refusal::Fault(JudgingFault::OutOfMemory)));
        }
        Err(_) => return ExitCode::from(report(&mut err, Refusal::BadCommand)),
    };
    let mut words = Vec::new(alloc);
    for arg in args.skip(1) {
        if words.push(arg).is_err() {
            return ExitCode::from(report(&mut err, Refusal::Fault(JudgingFault::OutOfMemory)));
        }
    }
    let mut texts: Vec<&str> = Vec::new(alloc);
    for word in &words {
        if texts.push(word.as_str()).is_err() {
            return ExitCode::from(report(&mut err, Refusal::Fault(JudgingFault::OutOfMemory)));
        }
    }
    ExitCode::from(run(&rt, texts.as_slice()))
}

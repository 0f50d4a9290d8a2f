//! The program `tcap_story`: hands its words, the files and its standard streams to `run_stories`, and answers its
//! status.
#![tactic(auto)]

use std::fs::File;
use std::io::ErrorKind;
use std::process::ExitCode;
use std::{env, fs, io};
use tcap_story_cmd::{Refusal, Sources, report, run_stories};

/// The files of the system, by their names.
#[derive(Clone, Copy)]
struct Files<'a> {
    rt: &'a HostRuntime,
}

impl Sources for Files<'_> {
    type Source = File;

    ghost use Rattle.std.specs.Prelude.{None};

    ghost octets_of = { λ _ _. None };

    fn open(&self, name: &str) -> io::Result<File> {
        fs::open(self.rt, name)
    }
}

/// Collects the words after the program's name and runs them. Words that are no text are a bad
/// command.
fn main(rt: HostRuntime) -> ExitCode {
    let alloc = rt.alloc();
    let mut err = rt.stderr();
    let args = match env::args(&rt) {
        Ok(args) => args,
        Err(error) if error.kind() == ErrorKind::OutOfMemory => {
            return ExitCode::from(report(&mut err, Refusal::OutOfMemory));
        }
        Err(_) => return ExitCode::from(report(&mut err, Refusal::BadCommand)),
    };
    let mut words = Vec::new(alloc);
    for arg in args.skip(1) {
        if words.push(arg).is_err() {
            return ExitCode::from(report(&mut err, Refusal::OutOfMemory));
        }
    }
    let mut texts: Vec<&str> = Vec::new(alloc);
    for word in &words {
        if texts.push(word.as_str()).is_err() {
            return ExitCode::from(report(&mut err, Refusal::OutOfMemory));
        }
    }
    let sources = Files { rt: &rt };
    let mut reader = rt.reader();
    let mut out = io::writer(&rt);
    let words = texts.as_slice();
    ExitCode::from(run_stories(alloc, words, &sources, &mut reader, &mut out, &mut err))
}

//! The jobs that a user of this library waits for, to be timed: each is done on input of its own kind that is
//! drawn by lot, and answers a digest of all results.
#![tactic(auto)]

mod calls;
mod client;
mod digest;
mod lot;
mod monitor;
mod network;
mod node;
mod octets;
mod register;
mod samples;
mod scripts;

use digest::Digest;
use std::alloc::Global;
use std::env;
use std::process::ExitCode;
use tcap_engine::Outbox;

/// The jobs of `each`; `outbox` would repeat `register`.
const JOBS: [&str; 5] = ["register", "client", "calls", "monitor", "scripts"];

/// The digest of a job of so many turns; nothing where there is no such job, or memory runs out.
fn digest_of(alloc: Global, job: &str, seed: u32, turns: u32) -> Option<u64> {
    match job {
        "register" => register::run(alloc, seed, turns, None),
        "outbox" => register::run(alloc, seed, turns, Some(Outbox::new(alloc))),
        "client" => client::run(alloc, seed, turns),
        "calls" => calls::run(alloc, seed, turns),
        "monitor" => monitor::run(alloc, seed, turns),
        "scripts" => scripts::run(alloc, seed, turns),
        _ => None,
    }
}

/// The digest of each job in turn.
fn digest_of_each(alloc: Global, seed: u32, turns: u32) -> Option<u64> {
    let mut all = Digest::new();
    for job in JOBS {
        all.number(digest_of(alloc, job, seed, turns)?);
    }
    Some(all.value())
}

/// What the words ask for: a job, or `each`; its seed and its number of turns.
fn run_words(alloc: Global, words: &[String]) -> Option<u64> {
    let [job, seed, turns] = words else {
        return None;
    };
    let seed = seed.as_str().parse().ok()?;
    let turns = turns.as_str().parse().ok()?;
    if job.as_str() == "each" {
        digest_of_each(alloc, seed, turns)
    } else {
        digest_of(alloc, job.as_str(), seed, turns)
    }
}

/// Prints the digest of the job that the words name.
fn main(rt: HostRuntime) -> ExitCode {
    let alloc = rt.alloc();
    let Ok(args) = env::args(&rt) else {
        return ExitCode::from(2);
    };
    let mut words = Vec::new(alloc);
    for arg in args.skip(1) {
        if words.push(arg).is_err() {
            return ExitCode::from(2);
        }
    }
    match run_words(alloc, &words) {
        Some(digest) => match println!(rt; "{digest:016x}") {
            Ok(()) => ExitCode::SUCCESS,
            Err(_) => ExitCode::from(2),
        },
        None => ExitCode::from(1),
    }
}

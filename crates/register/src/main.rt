//! A register over standard input and output: a line that it reads is a message that came from an address, and a
//! line that it writes is one that goes to an address. The status is 0 where every line was served, 1 where one was
//! not, 2 where reading, writing or memory failed.
#![tactic(auto)]

mod contexts;
mod line;
mod refusal;
mod serve;
mod subscribers;

use std::io;
use std::process::ExitCode;

fn main(rt: HostRuntime) -> ExitCode {
    let mut reader = rt.reader();
    let mut out = io::writer(&rt);
    let mut err = rt.stderr();
    ExitCode::from(serve::run(rt.alloc(), &mut reader, &mut out, &mut err))
}

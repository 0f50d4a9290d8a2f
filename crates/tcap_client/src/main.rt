//! A client: two operations are asked for; one is answered, and one is not.
#![tactic(auto)]

mod client;

use std::process::ExitCode;
use tcap_engine::{Address, Engine, Limits, Output};

/// What the engine keeps to.
const LIMITS: Limits = Limits {
    max_dialogues: 1_000,
    reject_ms: 0,
    idle_ms: 0,
};

/// The parameter of the operation: one element.
const PARAMETER: [u8; 5] = [0x30, 0x03, 0x04, 0x01, 0xaa];

/// What the register answers to the first: an End with the result.
const ANSWER: &str =
    "64434904000000016b2a2828060700118605010101a01d611b80020780a109060704000001000103a203020100a305a1030201006c0fa20d0201013008020102300304010a";

/// Does what an output asks for: a line for each.
fn act(rt: &HostRuntime, output: &Output<'_>) -> anyhow::Result<()> {
    let alloc = rt.alloc();
    match output {
        Output::Send { to, bytes } => {
            let to = hex::encode(alloc, to.octets())?;
            let bytes = hex::encode(alloc, bytes.as_slice())?;
            println!(rt; "send to {to}: {bytes}")?;
        }
        Output::ResultLast { number, .. } => println!(rt; "invocation {number} has its result")?,
        Output::Lapsed { number, .. } => println!(rt; "invocation {number} was not answered")?,
        Output::Uni { .. }
        | Output::Begin { .. }
        | Output::Continue { .. }
        | Output::End { .. }
        | Output::UAbort { .. }
        | Output::PAbort { .. }
        | Output::Dropped(_)
        | Output::Invoked { .. }
        | Output::ResultMore { .. }
        | Output::ErrorBack { .. }
        | Output::LocalReject { .. }
        | Output::RemoteReject { .. }
        | Output::Rejected { .. }
        | Output::Ended { .. } => println!(rt; "{output:?}")?,
    }
    Ok(())
}

/// Does what outputs ask for, in their order.
fn act_all(rt: &HostRuntime, outputs: &[Output<'_>]) -> anyhow::Result<()> {
    for output in outputs {
        act(rt, output)?;
    }
    Ok(())
}

/// Asks twice, hears one answer, and waits for the other.
fn run(rt: &HostRuntime, engine: &mut Engine) -> anyhow::Result<()> {
    let register = Address::new(&[0x0b, 0x12]).unwrap();
    act_all(rt, &client::ask(engine, &register, &PARAMETER)?)?;
    act_all(rt, &client::ask(engine, &register, &PARAMETER)?)?;
    let answer = hex::decode(rt.alloc(), ANSWER)?;
    act_all(rt, &client::hear(engine, &register, &answer)?)?;
    if let Some(lapsed) = client::wait(engine) {
        act_all(rt, &lapsed?)?;
    }
    Ok(())
}

fn main(rt: HostRuntime) -> ExitCode {
    let mut engine = Engine::new(rt.alloc(), LIMITS);
    match run(&rt, &mut engine) {
        Ok(()) => ExitCode::SUCCESS,
        Err(_) => ExitCode::FAILURE,
    }
}

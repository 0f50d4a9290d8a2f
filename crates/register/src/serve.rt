//! Lines are read, served and answered.

use crate::contexts::name_contexts;
use crate::line::{Line, line_of, read_line};
use crate::refusal::Refusal;
use crate::subscribers::Subscribers;
use ber_core::OutOfMemory;
use std::alloc::Global;
use std::io::{BufRead, Write};
use tcap_engine::{Address, Fault, Limits, Output};
use tcap_register::Register;
use tcap_words::{add_hex, add_octets_or_dash, write_text};

/// What the register keeps to. A dialogue that it continued ends when it has stood still for half a minute.
const LIMITS: Limits = Limits {
    max_dialogues: 65_535,
    reject_ms: 0,
    idle_ms: 30_000,
};

/// The status where every line was served.
const SERVED: u8 = 0;
/// The status where a line was not served, or an answer was refused.
const UNSERVED: u8 = 1;
/// The status where the program stopped before the input ended.
const STOPPED: u8 = 2;

/// Adds the line of a message that goes to an address.
fn add_message(text: &mut String, to: &Address, octets: &[u8]) -> Result<(), OutOfMemory> {
    add_octets_or_dash(text, to.octets())?;
    text.push(' ')?;
    add_hex(text, octets)?;
    text.push('\n')?;
    Ok(())
}

/// Writes a line for each message that outputs send.
fn write_sends<W: Write>(
    alloc: Global,
    outputs: &[Output<'_>],
    out: &mut W,
) -> Result<(), Refusal> {
    let mut text = String::new(alloc);
    for output in outputs {
        if let Output::Send { to, bytes } = output {
            add_message(&mut text, to, bytes.as_slice())?;
        }
    }
    write_text(out, text.as_bytes())?;
    Ok(())
}

/// Serves a line: whether it could be.
fn serve_line<W: Write, E: Write>(
    alloc: Global,
    register: &mut Register<Subscribers>,
    line: &[u8],
    out: &mut W,
    err: &mut E,
) -> Result<bool, Refusal> {
    match line_of(alloc, line)? {
        Some(Line::Message { from, octets }) => {
            let served = register.receive(&from, octets.as_slice())?;
            name_contexts(&served.heard, err);
            write_sends(alloc, &served.heard, out)?;
            write_sends(alloc, &served.answered, out)?;
            Ok(true)
        }
        Some(Line::Moment(moment)) => {
            let told = register.advance(moment);
            if let Err(Fault::OutOfMemory) = told {
                return Err(Refusal::OutOfMemory);
            }
            Ok(told.is_ok())
        }
        Some(Line::Nothing) => Ok(true),
        None => Ok(false),
    }
}

/// Serves line after line, and tells which could not be: whether all could.
fn serve_all<R: BufRead, W: Write, E: Write>(
    alloc: Global,
    register: &mut Register<Subscribers>,
    reader: &mut R,
    out: &mut W,
    err: &mut E,
) -> Result<bool, Refusal> {
    let mut good = true;
    for number in 1..u64::MAX {
        let Some(line) = read_line(alloc, reader)? else {
            break;
        };
        if !serve_line(alloc, register, line.as_slice(), out, err)? {
            let _ = writeln!(err, "register: line {number} was not served");
            good = false;
        }
    }
    Ok(good)
}

/// The whole program: serves the lines of the reader, and gives the status.
pub fn run<R: BufRead, W: Write, E: Write>(
    alloc: Global,
    reader: &mut R,
    out: &mut W,
    err: &mut E,
) -> u8 {
    let mut register = Register::new(alloc, LIMITS, Subscribers::new(alloc));
    match serve_all(alloc, &mut register, reader, out, err) {
        Ok(good) if good && register.operations.refused == 0 => SERVED,
        Ok(_) => UNSERVED,
        Err(refusal) => {
            let _ = writeln!(err, "register: {}", refusal.words());
            STOPPED
        }
    }
}

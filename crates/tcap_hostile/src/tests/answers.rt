//! What is answered, as lines of an example: each two spaces in.

use super::words::peer;
use ber_core::OutOfMemory;
use std::alloc::{Allocator, Global};
use std::fmt::Debug;
use tcap_component::Problem;
use tcap_engine::{Address, By, DropWhy, Output, Why};
use tcap_pdu::DialoguePdu;
use tcap_text::{
    body_text, coded_text, identifier_text, octets_or_dash, optional_octets_or_dash, pdu_text,
    problem_text,
};

/// Who rejects.
fn rejector(by: By) -> &'static str {
    match by {
        By::Local => "local",
        By::RemoteProvider => "provider",
        By::RemoteUser => "user",
    }
}

/// Why a message is dropped.
fn drop_reason(why: DropWhy) -> &'static str {
    match why {
        DropWhy::TooLong => "toolong",
        DropWhy::BadMessage => "badmessage",
        DropWhy::NoDialogue => "nodialogue",
        DropWhy::BadDialogue => "baddialogue",
    }
}

/// Adds a word and what it names to a line.
fn add_words(told: &mut String, word: &str, words: Result<String, OutOfMemory>) -> Option<()> {
    let words = words.ok()?;
    write!(told, "{word} {words}").ok()
}

/// Begins a line by a word and a dialogue, `-` where there is none.
fn begin_line(told: &mut String, word: &str, dialogue: Option<u32>) -> Option<()> {
    match dialogue {
        Some(dialogue) => write!(told, "  {word} {dialogue}").ok(),
        None => write!(told, "  {word} -").ok(),
    }
}

/// Begins the line of an indication that names an invocation, `-` where it names none.
fn begin_identified(
    alloc: Global,
    told: &mut String,
    word: &str,
    dialogue: Option<u32>,
    id: Option<i8>,
) -> Option<()> {
    begin_line(told, word, dialogue)?;
    add_words(told, " id", identifier_text(alloc, id))
}

/// Begins the line of an indication that tells of an invocation.
fn begin_numbered(told: &mut String, word: &str, dialogue: u32, id: i8, number: u64) -> Option<()> {
    write!(told, "  {word} {dialogue} id {id} number {number}").ok()
}

/// Adds an application context name and user information.
fn add_portion(
    alloc: Global,
    told: &mut String,
    context: Option<&[u8]>,
    info: &[u8],
) -> Option<()> {
    add_words(told, " context", optional_octets_or_dash(alloc, context))?;
    add_words(told, " info", octets_or_dash(alloc, info))
}

/// Adds an indication of a message with a dialogue portion.
fn add_indication(
    alloc: Global,
    told: &mut String,
    word: &str,
    dialogue: u32,
    context: Option<&[u8]>,
    info: &[u8],
) -> Option<()> {
    begin_line(told, word, Some(dialogue))?;
    add_portion(alloc, told, context, info)
}

/// Adds a message that is sent; where it goes, if it isn't the address 01.
pub(super) fn add_sent(alloc: Global, told: &mut String, to: &Address, sent: &[u8]) -> Option<()> {
    add_words(told, "  send", octets_or_dash(alloc, sent))?;
    if *to == peer() {
        return Some(());
    }
    add_words(told, " to", octets_or_dash(alloc, to.octets()))
}

/// Adds why the provider aborted.
fn add_abort_reason(told: &mut String, why: Why) -> Option<()> {
    match why {
        Why::Cause(cause) => write!(told, " cause {cause}").ok(),
        Why::Abnormal => write!(told, " abnormal").ok(),
        Why::NoCommon => write!(told, " nocommon").ok(),
        Why::Idle => write!(told, " idle").ok(),
    }
}

/// Adds the dialogue PDU of an Abort.
fn add_abort_pdu(alloc: Global, told: &mut String, pdu: &Option<DialoguePdu<'_>>) -> Option<()> {
    match pdu {
        Some(pdu) => add_words(told, "", pdu_text(alloc, pdu)),
        None => write!(told, " -").ok(),
    }
}

/// Adds a problem, and who rejects.
fn add_reject(alloc: Global, told: &mut String, problem: Problem, by: By) -> Option<()> {
    add_words(told, "", problem_text(alloc, problem))?;
    write!(told, " by {}", rejector(by)).ok()
}

/// Adds what is sent, the indications of dialogue handling, and what `add_abort` does.
pub(super) fn add_output<A: Allocator>(
    alloc: Global,
    told: &mut String,
    output: &Output<'_, A>,
) -> Option<()> {
    match output {
        Output::Send { to, bytes } => add_sent(alloc, told, to, bytes.as_slice()),
        Output::Uni { context, info } => {
            write!(told, "  uni").ok()?;
            add_portion(alloc, told, *context, info)
        }
        Output::Begin {
            dialogue,
            context,
            info,
        } => add_indication(alloc, told, "begin", *dialogue, *context, info),
        Output::Continue {
            dialogue,
            context,
            info,
        } => add_indication(alloc, told, "continue", *dialogue, *context, info),
        Output::End {
            dialogue,
            context,
            info,
        } => add_indication(alloc, told, "end", *dialogue, *context, info),
        _ => add_abort(alloc, told, output),
    }
}

/// Adds the indications of aborts, what is dropped, and what `add_component` does.
fn add_abort<A: Allocator>(alloc: Global, told: &mut String, output: &Output<'_, A>) -> Option<()> {
    match output {
        Output::UAbort { dialogue, pdu } => {
            begin_line(told, "uabort", Some(*dialogue))?;
            add_abort_pdu(alloc, told, pdu)
        }
        Output::PAbort { dialogue, why } => {
            begin_line(told, "pabort", Some(*dialogue))?;
            add_abort_reason(told, *why)
        }
        Output::Dropped(why) => write!(told, "  dropped {}", drop_reason(*why)).ok(),
        _ => add_component(alloc, told, output),
    }
}

/// Adds the indications of component handling that close no invocation, and what `add_closing` does.
fn add_component<A: Allocator>(
    alloc: Global,
    told: &mut String,
    output: &Output<'_, A>,
) -> Option<()> {
    match output {
        Output::Invoked {
            dialogue,
            id,
            linked,
            code,
            parameter,
        } => {
            begin_identified(alloc, told, "invoked", *dialogue, Some(*id))?;
            add_words(told, " linked", identifier_text(alloc, *linked))?;
            add_words(told, " op", coded_text(alloc, code, *parameter))
        }
        Output::ResultMore {
            dialogue,
            number,
            id,
            body,
        } => {
            begin_numbered(told, "more", *dialogue, *id, *number)?;
            add_words(told, " op", body_text(alloc, body))
        }
        Output::LocalReject {
            dialogue,
            id,
            problem,
        } => {
            begin_identified(alloc, told, "localreject", *dialogue, *id)?;
            add_words(told, "", problem_text(alloc, *problem))
        }
        Output::RemoteReject {
            dialogue,
            id,
            problem,
            by,
        } => {
            begin_identified(alloc, told, "remotereject", *dialogue, *id)?;
            add_reject(alloc, told, *problem, *by)
        }
        _ => add_closing(alloc, told, output),
    }
}

/// Adds the indications that close an invocation, and what `add_end` does.
fn add_closing<A: Allocator>(
    alloc: Global,
    told: &mut String,
    output: &Output<'_, A>,
) -> Option<()> {
    match output {
        Output::ResultLast {
            dialogue,
            number,
            id,
            body,
        } => {
            begin_numbered(told, "last", *dialogue, *id, *number)?;
            add_words(told, " op", body_text(alloc, body))
        }
        Output::ErrorBack {
            dialogue,
            number,
            id,
            code,
            parameter,
        } => {
            begin_numbered(told, "error", *dialogue, *id, *number)?;
            add_words(told, " code", coded_text(alloc, code, *parameter))
        }
        Output::Rejected {
            dialogue,
            number,
            id,
            problem,
            by,
        } => {
            begin_numbered(told, "rejected", *dialogue, *id, *number)?;
            add_reject(alloc, told, *problem, *by)
        }
        _ => add_end(told, output),
    }
}

/// Adds the indications that close an invocation without an answer.
fn add_end<A: Allocator>(told: &mut String, output: &Output<'_, A>) -> Option<()> {
    match output {
        Output::Lapsed {
            dialogue,
            number,
            id,
        } => begin_numbered(told, "lapsed", *dialogue, *id, *number),
        Output::Ended {
            dialogue,
            number,
            id,
        } => begin_numbered(told, "ended", *dialogue, *id, *number),
        _ => None,
    }
}

/// Adds a line, two spaces in.
pub(super) fn add_line(told: &mut String, line: &str) -> Option<()> {
    write!(told, "  {line}\n").ok()
}

/// Adds a line of a word and a number.
pub(super) fn add_numbered(told: &mut String, word: &str, number: u64) -> Option<()> {
    write!(told, "  {word} {number}\n").ok()
}

/// Adds a line of a value, printed for debugging.
pub(super) fn add_value<T: Debug>(told: &mut String, value: &T) -> Option<()> {
    write!(told, "  {value:?}\n").ok()
}

/// Adds the lines of outputs.
pub(super) fn add_outputs<A: Allocator>(
    alloc: Global,
    told: &mut String,
    outputs: &[Output<'_, A>],
) -> Option<()> {
    for output in outputs {
        add_output(alloc, told, output)?;
        write!(told, "\n").ok()?;
    }
    Some(())
}

//! Each growth refused in turn, in the texts and in runs of the command.

use super::addressed::{ADDRESSES_SCRIPT, ADDRESSES_TEXT};
use super::plays::{IDLE_SCRIPT, IDLE_TEXT};
use refusing::Refusing;
use std::alloc::{AllocError, Global};
use std::test::Fail;
use tcap_cmd::{canon_text, check_text, run_command, show_text};

/// What a call gave whose memory may have been refused.
#[derive(Clone, Copy, PartialEq, Eq)]
enum Outcome {
    /// What it gives with memory enough.
    Done,
    /// `OutOfMemory`.
    NoMemory,
    /// Anything else.
    Other,
}

/// How many growths of a call were refused in turn before it ended well: so many with no answer, and each other one
/// answered by `OutOfMemory`.
fn refused_growths<F: FnMut() -> Outcome>(
    heap: &Refusing<Global>,
    unanswered: u64,
    mut call: F,
) -> Option<u64>
    requires { F.IsAlwaysCallable call }
{
    let mut silent = 0u64;
    for number in 1..512u64 {
        heap.refuse(number);
        let outcome = call();
        if heap.is_armed() {
            return (outcome == Outcome::Done && silent == unanswered).then_some(number - 1);
        }
        match outcome {
            Outcome::NoMemory => (),
            Outcome::Done => silent = silent.saturating_add(1),
            Outcome::Other => return None,
        }
    }
    None
}

/// Whether there were growths, so many at least.
fn is_at_least(growths: Option<u64>, least: u64) -> bool {
    match growths {
        Some(count) => count >= least,
        None => false,
    }
}

/// A Begin with an AARQ and a component portion.
const BEGIN: &str =
    "62304804000000016B1A2818060700118605010101A00D600BA1090607040000010001036C0CA10A02010102010230020500";

/// What `show` prints of it.
const SHOWN: &[u8] =
    b"begin\n  otid 00000001\n  dialogue 26\n    aarq version yes context 04000001000103 info -\n  components 12\n    invoke 1 linked - op local 2 param 30020500\n";

/// What `canon` prints of it.
const REWRITTEN: &[u8] =
    b"62344804000000016b1e281c060700118605010101a011600f80020780a1090607040000010001036c0ca10a02010102010230020500\n";

/// A text of a message.
#[derive(Clone, Copy)]
enum Text {
    Shown,
    Checked,
    Rewritten,
}

/// What the text of these bytes is, beside the one that is wanted.
fn outcome_of(heap: &Refusing<Global>, text: Text, bytes: &[u8], wanted: &[u8]) -> Outcome {
    let told = match text {
        Text::Shown => show_text(heap, bytes),
        Text::Checked => check_text(heap, bytes),
        Text::Rewritten => canon_text(heap, bytes),
    };
    match told {
        Ok(told) if told.text.as_slice() == wanted => Outcome::Done,
        Ok(_) => Outcome::Other,
        Err(_) => Outcome::NoMemory,
    }
}

/// How many growths of a text were refused in turn.
fn growths_of_text(
    heap: &Refusing<Global>,
    text: Text,
    bytes: &[u8],
    wanted: &[u8],
) -> Option<u64> {
    refused_growths(heap, 0, || outcome_of(heap, text, bytes, wanted))
}

#[test]
fn texts_with_each_growth_refused(rt: HostRuntime) -> Result<(), Fail> {
    let heap = Refusing::new(rt.alloc());
    let bytes = hex::decode(rt.alloc(), BEGIN)?;
    let shown = growths_of_text(&heap, Text::Shown, bytes.as_slice(), SHOWN);
    assert!(rt; is_at_least(shown, 1));
    let checked = growths_of_text(&heap, Text::Checked, bytes.as_slice(), b"good\n");
    assert!(rt; is_at_least(checked, 1));
    let rewritten = growths_of_text(&heap, Text::Rewritten, bytes.as_slice(), REWRITTEN);
    assert!(rt; is_at_least(rewritten, 4));
    Ok(())
}

/// The example "Repeated Begin played".
pub(super) const SCRIPT: &[u8] =
    b"A new\nA invoke 1 1 1 10 1000 - -\nA begin 1 - -\ndeliver A1\nagain A1\nB last 1 1 10 0401AA\nB continue 1 - -\nB last 2 1 10 0401BB\nB continue 2 - -\ndeliver B2\ndeliver B1\nadvance 1000\n";

/// What it prints.
pub(super) const PLAYED: &[u8] =
    b"A new 1\nA number 1\nA send A1 62104804000000016c08a10602010102010a\nB begin 1 context - info -\nB invoked 1 id 1 linked - op local 10 param -\nB begin 2 context - info -\nB invoked 2 id 1 linked - op local 10 param -\nB done\nB send B1 651b4804000000014904000000016c0da20b020101300602010a0401aa\nB done\nB send B2 651b4804000000024904000000016c0da20b020101300602010a0401bb\nA continue 1 context - info -\nA last 1 id 1 number 1 op local 10 param 0401bb\nA continue 1 context - info -\nA localreject 1 id 1 result 0\n";

/// The example "A lost End".
const LOST_SCRIPT: &[u8] =
    b"A new\nA invoke 1 1 1 10 5000 - -\nA begin 1 - -\ndeliver A1\nB more 1 1 10 0401AA\nB continue 1 - -\ndeliver B1\nagain B1\nB last 1 1 10 0401BB\nB end 1 - -\nlose B2\nadvance 5000\nA prearranged 1\n";

/// What it prints.
const LOST: &[u8] =
    b"A new 1\nA number 1\nA send A1 62104804000000016c08a10602010102010a\nB begin 1 context - info -\nB invoked 1 id 1 linked - op local 10 param -\nB done\nB send B1 651b4804000000014904000000016c0da70b020101300602010a0401aa\nA continue 1 context - info -\nA more 1 id 1 number 1 op local 10 param 0401aa\nA continue 1 context - info -\nA more 1 id 1 number 1 op local 10 param 0401aa\nB done\nB send B2 64154904000000016c0da20b020101300602010a0401bb\nA lapsed 1 id 1 number 1\n";

/// Two Begins, and the beginning of a third.
const STREAM: &[u8] = &[
    0x62, 0x06, 0x48, 0x04, 0x00, 0x00, 0x00, 0x01, 0x62, 0x06, 0x48, 0x04, 0x00, 0x00, 0x00, 0x01,
    0x62, 0x06, 0x48,
];

/// The lines of its first Begin, of the second, and of the front, one after another.
const LINES: [&[u8]; 4] = [b"", b"good\n", b"good\ngood\n", b"good\ngood\nrest 3\n"];

/// A Begin with an Invoke, and the beginning of another, of "Stream and play endings".
const ENDING: &[u8] = &[
    0x62, 0x15, 0x48, 0x04, 0x00, 0x00, 0x00, 0x01, 0x6c, 0x0d, 0xa1, 0x0b, 0x02, 0x01, 0x01, 0x02,
    0x01, 0x02, 0x30, 0x03, 0x04, 0x01, 0xaa, 0x62, 0x15, 0x48,
];

/// A Begin, and an octet that no element begins with: "A stream with a fault".
const FAULTY: &[u8] = &[0x62, 0x06, 0x48, 0x04, 0x00, 0x00, 0x00, 0x01, 0x00];

/// What a run of the command gave, by what it wrote and its status, beside those that are wanted. Where memory
/// was refused, what is written has to be one of these texts.
fn outcome_of_run(
    alloc: Global,
    heap: &Refusing<Global>,
    words: &[&str],
    input: &[u8],
    wanted: (u8, &[u8]),
    left: &[&[u8]],
) -> Outcome {
    let mut input = input;
    let mut out = Vec::new(alloc);
    let mut err = Vec::new(alloc);
    let status = run_command(alloc, heap, words, &mut input, &mut out, &mut err);
    if (status, out.as_slice()) == wanted && err.is_empty() {
        Outcome::Done
    } else if status == 2
        && left.iter().any(|text| out.as_slice() == *text)
        && err.as_slice() == b"tcap: out of memory\n".as_slice()
    {
        Outcome::NoMemory
    } else {
        Outcome::Other
    }
}

#[test]
fn command_with_each_growth_refused(rt: HostRuntime) -> Result<(), Fail> {
    let alloc = rt.alloc();
    let heap = Refusing::new(alloc);
    let rows: [(&[&str], &[u8], (u8, &[u8]), &[&[u8]], u64); 7] = [
        // The words, the input; the status and what is written; what may stand written where memory was
        // refused, and the least number of growths.
        (&["show", BEGIN], b"", (0, SHOWN), &LINES[..1], 2),
        (&["check", BEGIN], b"", (0, b"good\n"), &LINES[..1], 2),
        (&["canon", BEGIN], b"", (0, REWRITTEN), &LINES[..1], 5),
        (&["stream"], STREAM, (1, LINES[3]), &LINES[..3], 4),
        (&["stream"], ENDING, (1, b"good\nrest 3\n"), &LINES[..2], 2),
        (
            &["stream"],
            FAULTY,
            (1, b"good\nfault stream ber 2\n"),
            &LINES[..2],
            2,
        ),
        (&["stream"], b"", (0, b""), &LINES[..1], 0),
    ];
    for (words, input, wanted, left, least) in rows {
        let growths = refused_growths(
            &heap,
            0,
            || outcome_of_run(alloc, &heap, words, input, wanted, left),
        );
        assert!(rt; is_at_least(growths, least), "at {words:?}, {growths:?}");
    }
    Ok(())
}

/// What is asked behind the script "A lost End" for a message that was lost, and what is written then.
const AGAIN: (&[u8], &[u8]) = (b"deliver B2\n", b"line 14 bad\n");

/// What is written of a line, and of a second one that is bad.
const NEW: (&[u8], &[u8]) = (b"A new 1\n", b"line 2 bad\n");

/// Two texts, one behind the other.
fn joined(alloc: Global, front: &[u8], behind: &[u8]) -> Result<Vec<u8>, AllocError> {
    let mut text = front.to_vec(alloc)?;
    text.extend_from_slice(behind)?;
    Ok(text)
}

/// How many growths a play of this script was refused in turn, so many with no answer, where it comes to this status
/// and writes this.
fn growths_of_play(
    alloc: Global,
    heap: &Refusing<Global>,
    unanswered: u64,
    script: &[u8],
    wanted: (u8, &[u8]),
) -> Option<u64> {
    refused_growths(
        heap,
        unanswered,
        || outcome_of_run(alloc, heap, &["play"], script, wanted, &LINES[..1]),
    )
}

/// A script and what it writes, in two parts each.
type Parts<'a> = ((&'a [u8], &'a [u8]), (&'a [u8], &'a [u8]));

/// How many growths such a play was refused, whose script and what it writes stand in two parts each.
fn growths_of_parts(
    alloc: Global,
    heap: &Refusing<Global>,
    unanswered: u64,
    (script, written): Parts<'_>,
    status: u8,
) -> Option<u64> {
    let input = joined(alloc, script.0, script.1).ok()?;
    let text = joined(alloc, written.0, written.1).ok()?;
    growths_of_play(
        alloc,
        heap,
        unanswered,
        input.as_slice(),
        (status, text.as_slice()),
    )
}

#[test]
fn plays_with_each_growth_refused(rt: HostRuntime) -> Result<(), Fail> {
    let alloc = rt.alloc();
    let heap = Refusing::new(alloc);
    let idle = IDLE_SCRIPT.as_bytes();
    let addresses = ADDRESSES_SCRIPT.as_bytes();
    let rows: [(&[u8], &[u8], u8, &[u8], &[u8], u64, u64); 10] = [
        // The script, and what stands behind it; the status, what is written, and what stands behind that;
        // the least number of growths; how many are refused with no answer: at each engine that sends a Begin or a
        // Continue, or where a dialogue that is over leaves memory, the two that make places for it.
        (SCRIPT, b"", 0, PLAYED, b"", 20, 4),
        (idle, b"", 0, IDLE_TEXT.as_bytes(), b"", 6, 2),
        (addresses, b"", 1, ADDRESSES_TEXT.as_bytes(), b"", 8, 2),
        (LOST_SCRIPT, b"", 0, LOST, b"", 20, 4),
        (LOST_SCRIPT, AGAIN.0, 1, LOST, AGAIN.1, 20, 4),
        (b"A new\n", b"A new 1\n", 1, NEW.0, NEW.1, 3, 0),
        (b"A begin 9 - -\n", b"", 0, b"A refused 2\n", b"", 2, 0),
        (b"deliver A1\n", b"", 1, b"line 1 bad\n", b"", 2, 0),
        (b"A  new\n", b"", 1, b"line 1 bad\n", b"", 2, 0),
        (b"", b"", 0, b"", b"", 0, 0),
    ];
    for (script, more, status, written, behind, least, unanswered) in rows {
        let parts = ((script, more), (written, behind));
        let growths = growths_of_parts(alloc, &heap, unanswered, parts, status);
        assert!(rt; is_at_least(growths, least), "at {script:?}, {growths:?}");
    }
    Ok(())
}

/// Whether `show` of what is no hexadecimal asks for no memory.
fn is_bad_hex(alloc: Global, heap: &Refusing<Global>, hex: &str) -> bool {
    let mut input: &[u8] = &[];
    let mut out = Vec::new(alloc);
    let mut err = Vec::new(alloc);
    heap.refuse(1);
    let status = run_command(alloc, heap, &["show", hex], &mut input, &mut out, &mut err);
    status == 2 && err.as_slice() == b"tcap: bad hex\n".as_slice()
}

#[test]
fn no_memory_for_bad_hex(rt: HostRuntime) -> Result<(), Fail> {
    let heap = Refusing::new(rt.alloc());
    for hex in ["6x", "621"] {
        assert!(rt; is_bad_hex(rt.alloc(), &heap, hex), "at {hex}");
    }
    Ok(())
}

//! A session: an engine, and the lines that it answers.

ghost use Rattle.std.specs.Prelude.{◌≡◌, ◌+◌, ◌++◌, ◌<◌, ◌≤◌, [], ℕ, List, OnErr, OnOk, IfOk, MatchResult, length, string_bytes};
ghost use Rattle.std.specs.Io.KnownBytes.{Appends};
ghost use Rattle.tcap_engine.specs.Limits.{AreLimits, empty_history};
ghost use Rattle.tcap_model.specs.Histories.History.{History};
ghost use Rattle.tcap_living.specs.Asking.{AnswersAt};
ghost use Rattle.tcap_living.specs.LiveText.{history_from, line_text};
ghost use Rattle.tcap_text.specs.declared.fault.PlayFault.TheVariants as fault;
ghost use Rattle.tcap_living.specs.Session.{AnswersHeld, HasAnswered, Holds, IsTaken, IsUnanswered, IsUnheld, IsUntaken, IsFrontOf};

use crate::answers::add_bad;
use crate::by_words::act_on;
use crate::format::Format;
use ber_core::OutOfMemory;
use std::alloc::{Allocator, Global};
use std::io::Write;
use tcap_engine::{Engine, Limits};
use tcap_play::pieces::{first_piece, is_skipped};
use tcap_play::script::words::cut_words;
use tcap_text::{PlayFault, write_text};

/// The longest line, in octets.
const LONGEST: usize = 1_048_576;

/// An engine that is spoken to by lines.
#[derive(Drop)]
pub(crate) struct Session<A: Allocator + Copy = Global> {
    engine: Engine<A>,
    /// The number of the line that is answered next, from 1.
    number: u64,
    /// The octets of that line, as far as they came.
    line: Vec<u8, A>,
    /// Whether no line so far is bad.
    good: bool,
}

/// Answers the line of these octets, which has this number, and tells whether it is good. A bad line leaves
/// the engine as it was.
fn answer_line<A: Allocator + Copy>(
    alloc: A,
    engine: &mut Engine<A>,
    format: Format,
    number: u64,
    line: &[u8],
    text: &mut String<A>,
) -> Result<bool, OutOfMemory>
    ensures answered { IfOk result (λ good. AnswersAt format number line.now good engine.old engine.new
        (string_bytes text.old) (string_bytes text.new)) }
    // No memory is wanted for an empty line.
    ensures wanted { OnErr result (0 < length line.now) }
{
    if is_skipped(line) {
        return Ok(true);
    }
    let mut words = Vec::new(alloc);
    cut_words(&mut words, line)?;
    if act_on(alloc, engine, format, number, &words, text)? {
        return Ok(true);
    }
    add_bad(text, format, number, line)?;
    Ok(false)
}

/// Writes an answer and flushes the writer; nothing is done of one that is empty.
fn write_answer<W: Write>(writer: &mut W, text: &[u8]) -> Result<(), PlayFault>
    ensures { MatchResult result
        (λ _. Appends (W.contents writer.old) (W.contents writer.new) text.now)
        (λ why. (why ≡ fault.Write) × IsFrontOf text.now (W.contents writer.old) (W.contents writer.new)) }
{
    if text.is_empty() {
        return Ok(());
    }
    write_text(writer, text)?;
    match writer.flush() {
        Ok(()) => Ok(()),
        Err(_) => Err(PlayFault::Write),
    }
}

impl<A: Allocator + Copy> Session<A> {
    /// The session of a new engine with these limits and counters.
    pub(crate) fn new(alloc: A, limits: Limits, next_dialogue: u32, next_number: u64) -> Session<A>
        requires { AreLimits limits }
        ensures answered { HasAnswered (empty_history limits next_dialogue next_number) [] result }
        ensures line { result.line.items ≡ [] }
    {
        Session {
            engine: Engine::resume(alloc, limits, next_dialogue, next_number),
            number: 1,
            line: Vec::new(alloc),
            good: true,
        }
    }

    /// Whether no line so far is bad.
    pub(crate) fn is_good(&self) -> bool
        ensures { result ≡ self.now.good }
    {
        self.good
    }

    /// Holds octets behind those of the line so far.
    fn hold(&mut self, part: &[u8]) -> Result<(), PlayFault>
        ensures { MatchResult result
            (λ _. Holds part.now self.old self.new)
            (λ fault. IsUnheld (self.old.line.items ++ part.now) fault) }
    {
        if self.line.len() + part.len() > LONGEST {
            return Err(PlayFault::TooLong);
        }
        self.line.extend_from_slice(part)?;
        Ok(())
    }

    /// Answers the line that is held, and holds an empty one in its place.
    pub(crate) fn answer<W: Write>(
        &mut self,
        alloc: A,
        format: Format,
        writer: &mut W,
    ) -> Result<(), PlayFault>
        requires { self.now.number + 1 ≤ 18446744073709551615 }
        ensures number { OnOk result (self.new.number ≡ self.old.number + 1) }
        ensures answered { (start : History) (lines : List (List ℕ)) → HasAnswered start lines self.old
            → MatchResult result
            (λ _. AnswersHeld format start lines self.old self.new (W.contents writer.old) (W.contents writer.new))
            (λ fault. IsUnanswered self.old.line.items (line_text format (1 + length lines) (history_from start lines) self.old.line.items)
            (W.contents writer.old) (W.contents writer.new) fault) }
    {
        let mut text = String::new(alloc);
        let good = answer_line(
            alloc,
            &mut self.engine,
            format,
            self.number,
            &self.line,
            &mut text,
        )?;
        write_answer(writer, text.as_bytes())?;
        self.good &= good;
        self.number += 1;
        self.line.clear();
        Ok(())
    }

    /// Takes more octets: answers each line that ends in them, one after the other, and holds what follows
    /// the last.
    pub(crate) fn take<W: Write>(
        &mut self,
        alloc: A,
        format: Format,
        piece: &[u8],
        writer: &mut W,
    ) -> Result<(), PlayFault>
        requires { self.now.number + length piece.now ≤ 18446744073709551615 }
        ensures { (start : History) (answered : List (List ℕ)) → HasAnswered start answered self.old
            → MatchResult result
            (λ _. IsTaken format start answered piece.now self.old self.new (W.contents writer.old) (W.contents writer.new))
            (λ fault. IsUntaken format start answered self.old.line.items piece.now (W.contents writer.old) (W.contents writer.new) fault) }
    {
        let (part, more) = first_piece(piece, b'\n');
        self.hold(part)?;
        let mut rest = more;
        while let Some(octets) = rest {
            self.answer(alloc, format, writer)?;
            let (part, more) = first_piece(octets, b'\n');
            self.hold(part)?;
            rest = more;
        }
        Ok(())
    }
}

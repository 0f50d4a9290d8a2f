//! How a script opens: with a line that sets the idle limit, or with none.

ghost use Rattle.std.specs.Prelude.{◌≡◌, ◌≤◌, ◌+◌, IfOk, IfSome};
ghost use Rattle.tcap_invocation.specs.Stage.{moment_limit};
ghost use Rattle.tcap_play.specs.LineViews.{texts_of};
ghost use Rattle.tcap_play.specs.Opening.{limit_in, limit_of, opening_of};
ghost use Rattle.tcap_play.specs.OpeningView.{opening_view};
ghost use Rattle.tcap_play.specs.Pieces.{left};

use crate::pieces::{first_piece, is_skipped};
use crate::script::values::{idle_limit, is};
use crate::script::words::cut_words;
use ber_core::OutOfMemory;
use std::alloc::Allocator;

/// What stands before the lines of a play, and these lines.
#[derive(Clone, Copy)]
pub struct Opening<'s> {
    /// The idle limit of both engines, in milliseconds, at most 2^62; 0 for none.
    pub idle_ms: u64,
    /// How many lines stand before those of the play.
    pub passed: u64,
    /// The lines of the play, None where there are none.
    pub rest: Option<&'s [u8]>,
}

/// The idle limit that the words of a line set: `idle MS`; None where they have another form.
pub(crate) fn limit_in(words: &[&[u8]]) -> Option<u64>
    ensures value { result ≡ limit_in (texts_of words.now) }
    ensures limited { IfSome result (λ limit. limit ≤ moment_limit) }
{
    if words.len() == 2 && is(words[0], "idle") {
        idle_limit(words[1])
    } else {
        None
    }
}

/// The idle limit that a line sets, None where it sets none.
fn limit_of<A: Allocator + Copy>(alloc: A, line: &[u8]) -> Result<Option<u64>, OutOfMemory>
    ensures value { IfOk result (λ limit. limit ≡ limit_of line.now) }
    ensures limited { IfOk result (λ found. IfSome found (λ limit. limit ≤ moment_limit)) }
{
    let mut words = Vec::new(alloc);
    cut_words(&mut words, line)?;
    Ok(limit_in(&words))
}

/// How a script opens: its first line that isn't skipped sets the idle limit, or is the first of the play.
pub fn opening_of<'s, A: Allocator + Copy>(
    alloc: A,
    script: &'s [u8],
) -> Result<Opening<'s>, OutOfMemory>
    ensures opening { IfOk result (λ opening. opening_view opening ≡ opening_of script.entry.now) }
    ensures limited { IfOk result (λ opening. opening.idle_ms ≤ moment_limit) }
    // So many lines can be counted.
    ensures few { IfOk result (λ opening. opening.passed + left opening.rest ≤ 18446744073709551615) }
{
    let mut passed = 0u64;
    let mut rest = Some(script);
    while let Some(lines) = rest {
        let (line, more) = first_piece(lines, b'\n');
        if !is_skipped(line) {
            return match limit_of(alloc, line)? {
                Some(idle_ms) => Ok(Opening {
                    idle_ms,
                    passed: passed + 1,
                    rest: more,
                }),
                None => Ok(Opening {
                    idle_ms: 0,
                    passed,
                    rest,
                }),
            };
        }
        passed += 1;
        rest = more;
    }
    Ok(Opening {
        idle_ms: 0,
        passed,
        rest: None,
    })
}

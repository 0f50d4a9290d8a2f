//! A play that is played line by line.

ghost use Rattle.std.specs.Prelude.{◌≤◌, IfOk, string_bytes};
ghost use Rattle.tcap_invocation.specs.Stage.{moment_limit};
ghost use Rattle.tcap_play.specs.EnginesView.{PlaysLine, StandAt};
ghost use Rattle.tcap_play.specs.Play.{not_begun};

use crate::play::{act_by, begun};
use crate::side::Addresses;
use crate::station::Station;
use ber_core::OutOfMemory;
use std::alloc::{Allocator, Global};

/// The two engines of a play, and the messages that each sent.
#[derive(Drop)]
pub struct Engines<A: Allocator + Copy = Global> {
    pub(crate) a: Station<A>,
    pub(crate) b: Station<A>,
}

impl<A: Allocator + Copy> Engines<A> {
    /// Both before the first line, with this idle limit in milliseconds, 0 for none.
    pub fn new(alloc: A, idle_ms: u64) -> Engines<A>
        requires { idle_ms ≤ moment_limit }
        ensures { StandAt (not_begun idle_ms) result }
    {
        Engines {
            a: begun(alloc, idle_ms),
            b: begun(alloc, idle_ms),
        }
    }

    /// Does what a line of a script asks for, adds what it prints to the text, and tells whether it could be
    /// done: not where the line has no form, or names a message that can't be so treated, and nothing is
    /// printed then. A line that is skipped, or sets an idle limit, is none. After an error the play can't go on.
    pub fn play_line(
        &mut self,
        alloc: A,
        line: &[u8],
        text: &mut String<A>,
    ) -> Result<bool, OutOfMemory>
        ensures { IfOk result (λ done. PlaysLine line.now done self.old self.new
            (string_bytes text.old) (string_bytes text.new)) }
    {
        let addresses = Addresses::new();
        let mut words = Vec::new(alloc);
        act_by(
            alloc,
            &addresses,
            &mut words,
            line,
            &mut self.a,
            &mut self.b,
            text,
        )
    }
}

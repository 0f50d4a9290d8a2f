//! An End that is received (Q.774, Dialogue end).

// Hints to inline: each End that is received runs through it; docs/PERF.md says what the whole of it inlined gains.

ghost use Rattle.std.specs.Prelude.{◌≡◌, ◌≤◌, Option, true, option_copied, OnOk, OnErr};
ghost use Rattle.ber_core.specs.Place.{Slice};
ghost use Rattle.tcap_model.specs.Table.TableMove.{ended_by, walked_in};
ghost use Rattle.tcap_primitives.specs.Slices.{LieInPlace, PartsLieIn};
ghost use Rattle.tcap_dialogue.specs.StepViews.{StepsTo, outcome};
ghost use Rattle.tcap_invocation.specs.Stage.{moment_limit};
ghost use Rattle.tcap_model.specs.Procedures.PortionRules.PortionVerdict.{normal};
ghost use Rattle.tcap_model.specs.Procedures.PortionRules.{portion_verdict};

use super::Dialogue;
use super::ended_invocations::tell_ended;
use crate::component_handling::component_portion::{handle_in_end, room_for};
use ber_core::OutOfMemory;
use std::alloc::Allocator;
use tcap_primitives::{Indication, Sink, SinkKind, Why};
use tcap_reception::{PortionVerdict, judge_portion};

impl<A: Allocator + Copy> Dialogue<A> {
    /// An End whose dialogue portion is as it should be: it is told with its components, and then the
    /// dialogue is over. All room is found first.
    fn end_normal<'m, K: SinkKind>(
        &mut self,
        context: Option<&'m [u8]>,
        info: &'m [u8],
        components: &'m [u8],
        clock: u64,
        sink: &mut Sink<'m, A, K>,
    ) -> Result<(), OutOfMemory>
        requires { clock ≤ moment_limit }
        ensures ok { OnOk result (StepsTo sink.old.outputs sink.new.outputs true self.new
            (outcome (ended_by self.old (normal (option_copied context.entry) info.now)
            (walked_in clock self.old components.now)))) }
        ensures err { OnErr result (self.new ≡ self.old) }
        ensures still { OnErr result (sink.new.outputs ≡ sink.old.outputs) }
        ensures kept { self.new.standing.identifier ≡ self.old.standing.identifier }
        ensures place { (portion : Option Slice) → PartsLieIn 0x61 context.entry info.entry portion
            → LieInPlace portion components.entry sink.old.slices
            → LieInPlace portion components.entry sink.new.slices }
    {
        let told = Indication::End {
            dialogue: self.identifier,
            context,
            info,
        };
        let count = room_for(components)
            .saturating_add(self.invocations.open_count())
            .saturating_add(1);
        let octets = told.octet_count().saturating_add(components.len());
        sink.reserve(count, octets)?;
        sink.tell(told);
        handle_in_end(
            self.identifier,
            clock,
            components,
            &mut self.invocations,
            sink,
        );
        tell_ended(self.identifier, &mut self.invocations, sink);
        Ok(())
    }

    /// An End (Q.774, Dialogue end): the dialogue is over.
    #[inline(always)]
    pub(super) fn receive_end<'m, K: SinkKind>(
        &mut self,
        dialogue: Option<&'m [u8]>,
        components: &'m [u8],
        clock: u64,
        sink: &mut Sink<'m, A, K>,
    ) -> Result<(), OutOfMemory>
        requires { clock ≤ moment_limit }
        ensures ok { OnOk result (StepsTo sink.old.outputs sink.new.outputs true self.new
            (outcome (ended_by self.old (portion_verdict self.old.standing.state self.old.standing.context
            (option_copied dialogue.entry)) (walked_in clock self.old components.now)))) }
        ensures err { OnErr result (self.new ≡ self.old) }
        ensures still { OnErr result (sink.new.outputs ≡ sink.old.outputs) }
        ensures kept { self.new.standing.identifier ≡ self.old.standing.identifier }
        ensures place { LieInPlace dialogue.entry components.entry sink.old.slices
            → LieInPlace dialogue.entry components.entry sink.new.slices }
    {
        match judge_portion(&self.phase, &self.context, dialogue) {
            PortionVerdict::Normal { context, info } => {
                self.end_normal(context, info, components, clock, sink)
            }
            PortionVerdict::Abnormal => self.abort_provider(Why::Abnormal, sink),
        }
    }
}

//! Messages to a dialogue, and faulty ones.

// Hints to inline: each step of an engine runs through it; docs/PERF.md says what the whole of it inlined gains.

ghost use Rattle.std.specs.Prelude.{◌≡◌, ◌≤◌, ◌<◌, vec_len, vec_capacity, Option, length, unwrap_or, option_copied, IfOk, OnOk, OnErr};
ghost use Rattle.ber_core.specs.Place.{Slice};
ghost use Rattle.tcap_primitives.specs.Slices.{AllInPlace, PartsLieIn, LieInPlace};
ghost use Rattle.tcap_reception.specs.StateViews.{is_over, phase_view};
ghost use Rattle.tcap_dialogue.specs.KeptOctets.{most_in_place};
ghost use Rattle.tcap_model.specs.Words.State.State.{sent};
ghost use Rattle.tcap_dialogue.specs.StepViews.{StepsTo, at_clock, outcome, stepped};
ghost use Rattle.tcap_invocation.specs.Stage.{moment_limit};
ghost use Rattle.tcap_model.specs.Procedures.PortionRules.{portion_verdict};
ghost use Rattle.tcap_model.specs.Procedures.PortionRules.PortionVerdict.{normal};
ghost use Rattle.tcap_model.specs.Table.TableMove.{DialogueEvent, Setting, continued_by, framed, table_move, walked_in};
ghost use Rattle.tcap_model.specs.Words.State.{address_by, is_live};
ghost use Rattle.tcap_pdu.specs.FramePortions.{dialogue_slice, components_slice};
ghost use Rattle.tcap_pdu.specs.FrameViews.{message};

use super::kept_address::KeptAddress;
use super::spares::Spares;
use super::{Dialogue, Step};
use crate::component_handling::component_portion::{handle_components, reserve_message};
use ber_core::OutOfMemory;
use std::alloc::Allocator;
use tcap_address::Address;
use tcap_pdu::{Frame, TransId};
use tcap_primitives::{Indication, Sink, SinkKind, Why};
use tcap_reception::{After, Phase, PortionVerdict, judge_portion};

/// The sender of a Continue to a dialogue in Sent is kept; later ones are not (our own).
#[inline(always)]
fn keep_sender<A: Allocator + Copy>(
    alloc: A,
    phase: &Phase,
    kept: &mut KeptAddress<A>,
    from: &Address,
) -> Result<(), OutOfMemory>
    ensures ok { OnOk result (kept.new ≡ address_by (phase_view phase.now) kept.old from.now) }
    ensures err { OnErr result (kept.new ≡ kept.old) }
    ensures memory { OnErr result ((phase_view phase.now ≡ sent) × (most_in_place < length from.now)) }
{
    match phase {
        Phase::Sent => kept.set(alloc, from),
        Phase::Fresh | Phase::Received(_) | Phase::Active(_) => Ok(()),
    }
}

impl<A: Allocator + Copy> Dialogue<A> {
    /// A Continue whose dialogue portion is as it should be: it is told with its components, and the
    /// Rejects that answer them are queued; the sender of the first is kept. All room is found first.
    #[inline(always)]
    fn continue_normal<'m, K: SinkKind>(
        &mut self,
        spares: &mut Spares<A>,
        from: &Address,
        origin: &TransId,
        context: Option<&'m [u8]>,
        info: &'m [u8],
        components: &'m [u8],
        clock: u64,
        sink: &mut Sink<'m, A, K>,
    ) -> Result<After, OutOfMemory>
        requires { clock ≤ moment_limit }
        ensures ok { IfOk result (λ after. StepsTo sink.old.outputs sink.new.outputs (is_over after) self.new
            (outcome (continued_by (at_clock clock) self.old from.now origin.now
            (normal (option_copied context.entry) info.now) (walked_in clock self.old components.now)))) }
        ensures err { OnErr result (self.new ≡ self.old) }
        ensures still { OnErr result (sink.new.outputs ≡ sink.old.outputs) }
        ensures kept { self.new.standing.identifier ≡ self.old.standing.identifier }
        ensures place { (portion : Option Slice) → PartsLieIn 0x61 context.entry info.entry portion
            → LieInPlace portion components.entry sink.old.slices
            → LieInPlace portion components.entry sink.new.slices }
    {
        let told = Indication::Continue {
            dialogue: self.identifier,
            context,
            info,
        };
        reserve_message(spares, &mut self.queue, &told, components, sink)?;
        let alloc = *self.queue.octets.allocator();
        keep_sender(alloc, &self.phase, &mut self.kept, from)?;
        sink.tell(told);
        handle_components(
            self.identifier,
            clock,
            components,
            spares,
            &mut self.invocations,
            &mut self.queue,
            sink,
        );
        self.touched = clock;
        Ok(self.phase.receive_continue(origin))
    }

    /// A Continue (Q.774, Dialogue continuation).
    #[inline(always)]
    fn receive_continue<'m, K: SinkKind>(
        &mut self,
        spares: &mut Spares<A>,
        from: &Address,
        origin: &TransId,
        dialogue: Option<&'m [u8]>,
        components: &'m [u8],
        clock: u64,
        sink: &mut Sink<'m, A, K>,
    ) -> Result<After, OutOfMemory>
        requires { clock ≤ moment_limit }
        ensures ok { IfOk result (λ after. StepsTo sink.old.outputs sink.new.outputs (is_over after)
            self.new (outcome (continued_by (at_clock clock) self.old from.now origin.now
            (portion_verdict self.old.standing.state self.old.standing.context (option_copied dialogue.entry))
            (walked_in clock self.old components.now)))) }
        ensures err { OnErr result (self.new ≡ self.old) }
        ensures still { OnErr result (sink.new.outputs ≡ sink.old.outputs) }
        ensures kept { self.new.standing.identifier ≡ self.old.standing.identifier }
        ensures place { LieInPlace dialogue.entry components.entry sink.old.slices
            → LieInPlace dialogue.entry components.entry sink.new.slices }
    {
        match judge_portion(&self.phase, &self.context, dialogue) {
            PortionVerdict::Normal { context, info } => {
                self.continue_normal(spares, from, origin, context, info, components, clock, sink)
            }
            PortionVerdict::Abnormal => {
                self.abort_abnormal(from, origin, sink)?;
                Ok(self.phase.abort())
            }
        }
    }

    /// `take_frame`, message by message.
    fn receive_message<'m, K: SinkKind>(
        &mut self,
        spares: &mut Spares<A>,
        from: &Address,
        frame: &Frame<'m>,
        clock: u64,
        sink: &mut Sink<'m, A, K>,
    ) -> Result<After, OutOfMemory>
        requires { clock ≤ moment_limit }
        ensures ok { IfOk result (λ after. StepsTo sink.old.outputs sink.new.outputs (is_over after)
            self.new (outcome (framed (at_clock clock) self.old from.now (message frame.now)))) }
        ensures err { OnErr result (self.new ≡ self.old) }
        ensures still { OnErr result (sink.new.outputs ≡ sink.old.outputs) }
        ensures kept { self.new.standing.identifier ≡ self.old.standing.identifier }
        ensures place { (other : Slice)
            → LieInPlace (dialogue_slice frame.now) (unwrap_or (components_slice frame.now) other) sink.old.slices
            → LieInPlace (dialogue_slice frame.now) (unwrap_or (components_slice frame.now) other) sink.new.slices }
    {
        match frame {
            Frame::Continue {
                otid,
                dialogue,
                components,
                ..
            } => self.receive_continue(spares, from, otid, *dialogue, components, clock, sink),
            Frame::End {
                dialogue,
                components,
                ..
            } => {
                self.receive_end(*dialogue, components, clock, sink)?;
                Ok(self.phase.receive_end())
            }
            Frame::Abort { reason, .. } => {
                self.receive_abort(reason, sink)?;
                Ok(self.phase.receive_abort())
            }
            Frame::Uni { .. } | Frame::Begin { .. } => Ok(After::Open),
        }
    }

    /// Whether messages to it are taken: it is in Sent or in Active (Q.774, Transaction state machine).
    #[inline(always)]
    pub fn is_live(&self) -> bool
        ensures { result ≡ is_live self.now.standing.state }
    {
        self.phase.is_live()
    }

    /// `take_frame`, whose outputs are appended to what a sink holds, where the Rejects that answer components take
    /// memory that other dialogues left: whether the dialogue is over. A queue that is empty afterwards leaves its
    /// memory to others.
    #[tactic(auto, unfolding(tcap_model::specs::Table::TableMove::table_move))]
    pub fn take_frame_with<'m, K: SinkKind>(
        &mut self,
        spares: &mut Spares<A>,
        from: &Address,
        frame: &Frame<'m>,
        clock: u64,
        sink: &mut Sink<'m, A, K>,
    ) -> Result<bool, OutOfMemory>
        requires { clock ≤ moment_limit }
        ensures ok { IfOk result (λ over. StepsTo sink.old.outputs sink.new.outputs over
            self.new
            (outcome (table_move (at_clock clock) self.old (DialogueEvent.frame from.now (message frame.now))))) }
        ensures err { OnErr result (self.new ≡ self.old) }
        ensures still { OnErr result (sink.new.outputs ≡ sink.old.outputs) }
        ensures kept { self.new.standing.identifier ≡ self.old.standing.identifier }
        ensures place { (other : Slice)
            → LieInPlace (dialogue_slice frame.now) (unwrap_or (components_slice frame.now) other) sink.old.slices
            → LieInPlace (dialogue_slice frame.now) (unwrap_or (components_slice frame.now) other) sink.new.slices }
    {
        let after = self.receive_message(spares, from, frame, clock, sink);
        self.leave_queue(spares);
        Ok(after?.is_over())
    }

    /// A Continue, an End or an Abort from this address to the dialogue while it is live, in Sent or in
    /// Active, at this moment, at most 2^62: what is told, and what is sent. The first Continue whose
    /// dialogue portion is as it should be has its sender kept for good. A Unidirectional and a Begin are
    /// never to a dialogue, and do nothing (Q.774, Transaction sublayer procedures).
    #[tactic(auto, unfolding(tcap_model::specs::Table::TableMove::table_move))]
    pub fn take_frame<'m>(
        &mut self,
        from: &Address,
        frame: &Frame<'m>,
        clock: u64,
    ) -> Result<Step<'m, A>, OutOfMemory>
        requires { clock ≤ moment_limit }
        // What is told, and the dialogue unless it is over.
        ensures ok { IfOk result (λ s. stepped s self.new
            ≡ outcome (table_move (at_clock clock) self.old (DialogueEvent.frame from.now (message frame.now)))) }
        ensures err { OnErr result (self.new ≡ self.old) }
        // The identifier stays, also of one that is over.
        ensures kept { self.new.standing.identifier ≡ self.old.standing.identifier }
        // The slices that are told are the parts of the message, and no equal octets elsewhere.
        ensures place { (other : Slice) → IfOk result (λ s. AllInPlace
            (dialogue_slice frame.now) (unwrap_or (components_slice frame.now) other) s.outputs.items) }
    {
        let alloc = *self.queue.octets.allocator();
        let mut sink = Sink::vector(alloc);
        let after = self.receive_message(&mut Spares::new(alloc), from, frame, clock, &mut sink)?;
        let outputs = sink.into_vector();
        Ok(Step {
            outputs,
            over: after.is_over(),
        })
    }

    /// A faulty message names the dialogue: TC-P-ABORT with this P-Abort cause, 0 to 127, and the
    /// dialogue is over (Q.774, Abort by the provider).
    #[tactic(auto, unfolding(tcap_model::specs::Table::TableMove::table_move))]
    pub fn take_fault<'m>(&mut self, cause: u8) -> Result<Step<'m, A>, OutOfMemory>
        // What is told; the dialogue is over.
        ensures ok { (around : Setting) → IfOk result (λ s. stepped s self.new
            ≡ outcome (table_move around self.old (DialogueEvent.fault cause))) }
        ensures err { OnErr result (self.new ≡ self.old) }
        // The identifier stays, also of one that is over.
        ensures kept { self.new.standing.identifier ≡ self.old.standing.identifier }
        // There is room for one output more.
        ensures room { IfOk result (λ s. vec_len s.outputs < vec_capacity s.outputs) }
    {
        let count = self.invocations.open_count().saturating_add(2);
        let mut sink = Sink::vector(*self.queue.octets.allocator());
        sink.reserve(count, 0)?;
        self.abort_provider(Why::Cause(cause), &mut sink)?;
        Ok(Step {
            outputs: sink.into_vector(),
            over: self.phase.abort().is_over(),
        })
    }
}

//! `Engine::receive`: bytes are read, and by what they are they are told, create a dialogue, reach the one that they
//! name, or are aborted or dropped.

// Hints to inline: each step of an engine runs through it; docs/PERF.md says what the whole of it inlined gains.

ghost use Rattle.std.specs.Prelude.{◌≡◌, ◌++◌, ◌∷◌, [], is_some, option_copied, Some, OnOk, OnErr, ◌≤◌, nat_eq};
ghost use Rattle.std.specs.Option.{option_map};
ghost use Rattle.tcap_primitives.specs.AbortViews.{CanWriteAbort, abort_sent, cause_number};
ghost use Rattle.tcap_primitives.specs.OutputViews.{drop_view};
ghost use Rattle.tcap_engine.specs.StepForm.{DeliversTo, EngineReceives, ReceivesInto, UnlessTaken, frame_reached, outputs_answer, since_answer};
ghost use Rattle.tcap_engine.specs.HistoryForm.{StandsReceived};
ghost use Rattle.tcap_model.specs.Procedures.AbortRules.{abort_with, message_sent};
ghost use Rattle.tcap_model.specs.Procedures.PortionRules.{uni_verdict};
ghost use Rattle.tcap_model.specs.Procedures.Reception.{addressed, live_named, message_by, uni_by};
ghost use Rattle.tcap_model.specs.Table.EngineMove.{birth_fault_in, engine_move, is_live_if_any, is_live_in, received_in};
ghost use Rattle.tcap_model.specs.Words.Address.{Address};
ghost use Rattle.tcap_model.specs.Words.Event.{Event};
ghost use Rattle.tcap_model.specs.Words.Output as model;
ghost use Rattle.tcap_pdu.specs.FrameViews.{message};
ghost use Rattle.tcap_model.specs.Table.TableMove.{DialogueEvent, table_move};
ghost use Rattle.std.specs.Map.{lookup};
ghost use Rattle.tcap_dialogue.specs.StepViews.{at_clock, outcome};
ghost use Rattle.tcap_engine.specs.RequestInTable.{TakesInTable};
ghost use Rattle.tcap_invocation.specs.Stage.{moment_limit};
ghost use Rattle.tcap_primitives.specs.SinkViews.{KeepsOutputs};

use super::Engine;
use crate::dialogues::{Dialogues, settle, timer_after};
use ber_core::OutOfMemory;
use std::alloc::Allocator;
use tcap_dialogue::{
    Abort, Address, Cause, DropWhy, Indication, Output, PortionVerdict, Sink, SinkKind, judge_uni,
    take_uni_into,
};
use tcap_pdu::{Frame, MAX_MESSAGE, TransId, read_frame};
use tcap_primitives::ranges;

impl<A: Allocator + Copy> Engine<A> {
    /// Bytes were received from an address: what is sent and told (Q.774, Transaction sublayer procedures). They
    /// are never refused, and something is always told of them; those above 65,535 are dropped. The only error
    /// is that memory was refused, and then nothing has changed.
    pub fn receive<'m>(
        &mut self,
        from: &Address,
        bytes: &'m [u8],
    ) -> Result<Vec<Output<'m, A>, A>, OutOfMemory>
        ensures moves { EngineReceives outputs_answer result
            (engine_move self.old (Event.received from.now bytes.now)) self.old self.new }
        // Whatever legal history the engine stood at: the reply, and the history that it stands at then.
        ensures stands { StandsReceived outputs_answer result (Event.received from.now bytes.now) self.old self.new }
    {
        let mut sink = Sink::vector(self.table.allocator());
        self.receive_with(from, bytes, &mut sink)?;
        Ok(sink.into_vector())
    }

    /// `receive`, whose outputs are appended to what a sink holds.
    #[tactic(auto, using(crate::proofs::StandingLemmas::stands_into))]
    #[inline(always)]
    pub(super) fn receive_with<'m, K: SinkKind>(
        &mut self,
        from: &Address,
        bytes: &'m [u8],
        sink: &mut Sink<'m, A, K>,
    ) -> Result<(), OutOfMemory>
        ensures moves { ReceivesInto sink.old.outputs sink.new.outputs result
            (engine_move self.old (Event.received from.now bytes.now)) self.old self.new }
        ensures stands { StandsReceived (since_answer sink.old.outputs sink.new.outputs)
            result (Event.received from.now bytes.now) self.old self.new }
    {
        ranges::address(from);
        ranges::octets(bytes);
        self.receive_any(from, bytes, sink)
    }

    /// `receive_with`, by the engine's move.
    #[tactic(auto, unfolding(tcap_model::specs::Table::EngineMove::engine_move))]
    #[inline(always)]
    fn receive_any<'m, K: SinkKind>(
        &mut self,
        from: &Address,
        bytes: &'m [u8],
        sink: &mut Sink<'m, A, K>,
    ) -> Result<(), OutOfMemory>
        ensures { ReceivesInto sink.old.outputs sink.new.outputs result
            (engine_move self.old (Event.received from.now bytes.now)) self.old self.new }
    {
        if bytes.len() > MAX_MESSAGE {
            return self.drop_message(DropWhy::TooLong, sink);
        }
        match &read_frame(bytes) {
            Ok(frame) => self.take_message(from, frame, sink),
            Err(fault) => self.take_faulty(from, bytes, *fault, sink),
        }
    }

    /// A message that can be read (Q.774, Transaction sublayer procedures).
    #[inline(always)]
    fn take_message<'m, K: SinkKind>(
        &mut self,
        from: &Address,
        frame: &Frame<'m>,
        sink: &mut Sink<'m, A, K>,
    ) -> Result<(), OutOfMemory>
        ensures { ReceivesInto sink.old.outputs sink.new.outputs result (received_in self.old from.now
            (message_by (is_live_in self.old.dialogues) (is_some (birth_fault_in self.old)) (message frame.now)))
            self.old self.new }
    {
        // One way for all that name a dialogue: with one for each kind a Continue by the engine's own calls took 11 to
        // 21 instructions more.
        let (destination, origin) = match frame {
            Frame::Uni {
                dialogue,
                components,
            } => return self.take_unidirectional(*dialogue, components, sink),
            Frame::Begin {
                otid,
                dialogue,
                components,
            } => {
                if self.birth_fault().is_some() {
                    return self.abort_by_cause(from, otid, Cause::ResourceLimitation, sink);
                }
                return self.take_begin(from, otid, *dialogue, components, sink);
            }
            Frame::Continue { otid, dtid, .. } => (dtid, Some(otid)),
            Frame::End { dtid, .. } | Frame::Abort { dtid, .. } => (dtid, None),
        };
        if self.deliver(destination, from, frame, sink)? {
            return Ok(());
        }
        match origin {
            Some(origin) => self.abort_by_cause(from, origin, Cause::UnrecognizedId, sink),
            None => self.drop_message(DropWhy::NoDialogue, sink),
        }
    }

    /// A Unidirectional is told or dropped, by its dialogue portion (Q.774, Unstructured dialogue).
    fn take_unidirectional<'m, K: SinkKind>(
        &mut self,
        dialogue: Option<&'m [u8]>,
        components: &'m [u8],
        sink: &mut Sink<'m, A, K>,
    ) -> Result<(), OutOfMemory>
        ensures { (from : Address) → ReceivesInto sink.old.outputs sink.new.outputs result (received_in self.old from
            (uni_by (uni_verdict (option_copied dialogue.entry)) components.now)) self.old self.new }
    {
        let request = match judge_uni(dialogue) {
            PortionVerdict::Normal {
                context: Some(context),
                info,
            } => Some((context, info)),
            PortionVerdict::Normal { context: None, .. } => None,
            PortionVerdict::Abnormal => return self.drop_message(DropWhy::BadDialogue, sink),
        };
        take_uni_into(request, components, sink)
    }

    /// The live dialogue that a destination names, by the four octets of its identifier, takes a Continue, an End or an
    /// Abort; whether it names one (Q.774, Transaction sublayer procedures).
    #[inline(always)]
    fn deliver<'m, K: SinkKind>(
        &mut self,
        destination: &TransId,
        from: &Address,
        frame: &Frame<'m>,
        sink: &mut Sink<'m, A, K>,
    ) -> Result<bool, OutOfMemory>
        ensures { DeliversTo sink.old.outputs sink.new.outputs result
            (option_map (frame_reached self.old from.now (message frame.now))
            (addressed (is_live_in self.old.dialogues) destination.now)) self.old self.new }
    {
        match destination.as_u32() {
            None => Ok(false),
            Some(identifier) => self.deliver_to(identifier, from, frame, sink),
        }
    }

    /// The dialogue of an identifier takes a message, if it is live; whether it was.
    #[inline(always)]
    fn deliver_to<'m, K: SinkKind>(
        &mut self,
        identifier: u32,
        from: &Address,
        frame: &Frame<'m>,
        sink: &mut Sink<'m, A, K>,
    ) -> Result<bool, OutOfMemory>
        ensures { DeliversTo sink.old.outputs sink.new.outputs result
            (option_map (frame_reached self.old from.now (message frame.now))
            (live_named (is_live_in self.old.dialogues) (Some identifier))) self.old self.new }
    {
        deliver_in(&mut self.table, identifier, self.clock, from, frame, sink)
    }

    /// A message is dropped, which is told.
    pub(super) fn drop_message<'m, K: SinkKind>(
        &self,
        why: DropWhy,
        sink: &mut Sink<'m, A, K>,
    ) -> Result<(), OutOfMemory>
        ensures ok { OnOk result (sink.new.outputs ≡ sink.old.outputs
            ++ model.Output.dropped (drop_view why) ∷ []) }
        ensures still { OnErr result (sink.new.outputs ≡ sink.old.outputs) }
    {
        sink.reserve(1, 0)?;
        sink.tell(Indication::Dropped(why));
        Ok(())
    }

    /// An Abort of the provider goes to this address.
    pub(super) fn abort<'m, K: SinkKind>(
        &self,
        to: &Address,
        abort: &Abort<'_>,
        sink: &mut Sink<'m, A, K>,
    ) -> Result<(), OutOfMemory>
        requires { CanWriteAbort abort.now }
        ensures ok { OnOk result (sink.new.outputs ≡ sink.old.outputs
            ++ message_sent to.now (abort_sent abort.now) ∷ []) }
        ensures still { OnErr result (sink.new.outputs ≡ sink.old.outputs) }
    {
        Ok(sink.send(to.octets(), &abort.outgoing(), 0)?)
    }

    /// An Abort with a P-Abort cause goes to this address.
    pub(super) fn abort_by_cause<'m, K: SinkKind>(
        &self,
        to: &Address,
        peer: &TransId,
        cause: Cause,
        sink: &mut Sink<'m, A, K>,
    ) -> Result<(), OutOfMemory>
        ensures ok { OnOk result (sink.new.outputs ≡ sink.old.outputs
            ++ message_sent to.now (abort_with (cause_number cause) peer.now) ∷ []) }
        ensures still { OnErr result (sink.new.outputs ≡ sink.old.outputs) }
    {
        let peer = peer.copied();
        self.abort(to, &Abort::Cause { peer, cause }, sink)
    }
}

/// The dialogue of an identifier takes a message, if it is live, and is taken out where it is over. Whether it was
/// live.
#[inline(always)]
fn deliver_in<'m, A: Allocator + Copy, K: SinkKind>(
    table: &mut Dialogues<A>,
    identifier: u32,
    clock: u64,
    from: &Address,
    frame: &Frame<'m>,
    sink: &mut Sink<'m, A, K>,
) -> Result<bool, OutOfMemory>
    requires clock { clock ≤ moment_limit }
    ensures reached { TakesInTable (since_answer sink.old.outputs sink.new.outputs) result
        (is_live_if_any (lookup (nat_eq identifier) table.old))
        (λ x. outcome (table_move (at_clock clock) x (DialogueEvent.frame from.now (message frame.now))))
        identifier (lookup (nat_eq identifier) table.old) table.old table.new }
    ensures kept { KeepsOutputs sink.old.outputs sink.new.outputs }
    ensures still { UnlessTaken result (sink.new.outputs ≡ sink.old.outputs) }
{
    let Some(dialogue) = table.rows.get_mut(identifier) else {
        return Ok(false);
    };
    if !dialogue.is_live() {
        return Ok(false);
    }
    let is_over = dialogue.take_frame_with(&mut table.spares, from, frame, clock, sink)?;
    let timer = timer_after(dialogue, is_over);
    settle(
        &mut table.rows,
        &mut table.spares,
        identifier,
        is_over,
        timer,
    );
    Ok(true)
}

//! Bytes that are no message that can be read.

ghost use Rattle.std.specs.Prelude.{◌≡◌, Some, ◌++◌, nat_eq};
ghost use Rattle.std.specs.Map.{lookup};
ghost use Rattle.std.specs.Option.{option_map};
ghost use Rattle.tcap_dialogue.specs.StepViews.{at_clock, outcome};
ghost use Rattle.tcap_engine.specs.RequestInTable.{TakesInTable};
ghost use Rattle.tcap_engine.specs.StepForm.{DeliversTo, IfTaken, ReceivesInto, UnlessTaken, fault_reached, since_answer};
ghost use Rattle.tcap_model.specs.Procedures.AbortRules.{fault_cause, sent_if_any};
ghost use Rattle.tcap_model.specs.Procedures.Reception.{aborted_or_dropped, addressed_if_any, fault_abort, faulty, live_named};
ghost use Rattle.tcap_model.specs.Table.EngineMove.{is_live_if_any, is_live_in, received_in};
ghost use Rattle.tcap_model.specs.Table.TableMove.{DialogueEvent, table_move};
ghost use Rattle.tcap_primitives.specs.SinkViews.{KeepsOutputs};

use super::Engine;
use crate::dialogues::{Dialogues, take_out};
use ber_core::OutOfMemory;
use std::alloc::Allocator;
use tcap_dialogue::{Address, Cause, DropWhy, Sink, SinkKind};
use tcap_pdu::tag::{ABORT, CONTINUE, END, UNIDIRECTIONAL};
use tcap_pdu::{FrameFault, TransId, front_ids};

impl<A: Allocator + Copy> Engine<A> {
    /// A faulty message, by its first octet alone: a faulty Continue, End or Abort ends the live dialogue that it
    /// names, and the originator of anything but a Unidirectional, an End or an Abort gets an Abort, if it is known
    /// (Q.774, Abnormal procedures; the choice by the first octet is our own).
    // It is rare, and kept out of what a good message runs through.
    #[inline(never)]
    pub(super) fn take_faulty<'m, K: SinkKind>(
        &mut self,
        from: &Address,
        bytes: &'m [u8],
        fault: FrameFault,
        sink: &mut Sink<'m, A, K>,
    ) -> Result<(), OutOfMemory>
        ensures { ReceivesInto sink.old.outputs sink.new.outputs result (received_in self.old from.now
            (faulty (is_live_in self.old.dialogues) bytes.now fault)) self.old self.new }
    {
        let (origin, named) = front_ids(bytes);
        match bytes {
            [END | ABORT, ..] => {
                if self.abort_by_fault(&named, from, &None, fault, sink)? {
                    return Ok(());
                }
                self.drop_message(DropWhy::BadMessage, sink)
            }
            [CONTINUE, ..] => {
                if self.abort_by_fault(&named, from, &origin, fault, sink)? {
                    return Ok(());
                }
                self.abort_or_drop(from, origin, fault, sink)
            }
            [UNIDIRECTIONAL, ..] | [] => self.drop_message(DropWhy::BadMessage, sink),
            [_, ..] => self.abort_or_drop(from, origin, fault, sink),
        }
    }

    /// An Abort with the fault's cause goes to the originator, or the message is dropped where that isn't known
    /// (Q.774, Abnormal procedures).
    fn abort_or_drop<'m, K: SinkKind>(
        &mut self,
        from: &Address,
        origin: Option<TransId>,
        fault: FrameFault,
        sink: &mut Sink<'m, A, K>,
    ) -> Result<(), OutOfMemory>
        ensures { ReceivesInto sink.old.outputs sink.new.outputs result
            (received_in self.old from.now (aborted_or_dropped (fault_abort fault origin))) self.old self.new }
    {
        match origin {
            Some(origin) => self.abort_by_cause(from, &origin, Cause::Faulty(fault), sink),
            None => self.drop_message(DropWhy::BadMessage, sink),
        }
    }

    /// A faulty message ends the live dialogue that it names; an Abort with the fault's cause goes first to the address
    /// that it came from, if the originator is known. Whether it names one (our own, after Q.774, Abnormal procedures).
    fn abort_by_fault<'m, K: SinkKind>(
        &mut self,
        named: &Option<TransId>,
        from: &Address,
        origin: &Option<TransId>,
        fault: FrameFault,
        sink: &mut Sink<'m, A, K>,
    ) -> Result<bool, OutOfMemory>
        ensures { DeliversTo sink.old.outputs sink.new.outputs result
            (option_map (fault_reached self.old from.now (fault_abort fault origin.now) fault)
            (addressed_if_any (is_live_in self.old.dialogues) named.now)) self.old self.new }
    {
        let Some(named) = named else {
            return Ok(false);
        };
        match named.as_u32() {
            None => Ok(false),
            Some(identifier) => self.end_by_fault(identifier, from, origin, fault, sink),
        }
    }

    /// `abort_by_fault`, of the dialogue of an identifier, if it is live; whether it was.
    fn end_by_fault<'m, K: SinkKind>(
        &mut self,
        identifier: u32,
        from: &Address,
        origin: &Option<TransId>,
        fault: FrameFault,
        sink: &mut Sink<'m, A, K>,
    ) -> Result<bool, OutOfMemory>
        ensures { DeliversTo sink.old.outputs sink.new.outputs result
            (option_map (fault_reached self.old from.now (fault_abort fault origin.now) fault)
            (live_named (is_live_in self.old.dialogues) (Some identifier))) self.old self.new }
    {
        end_in(&mut self.table, identifier, from, origin, fault, sink)
    }
}

/// A faulty message names the dialogue of an identifier, which is over then and is taken out, if it is live; whether it
/// was.
fn end_in<'m, A: Allocator + Copy, K: SinkKind>(
    table: &mut Dialogues<A>,
    identifier: u32,
    from: &Address,
    origin: &Option<TransId>,
    fault: FrameFault,
    sink: &mut Sink<'m, A, K>,
) -> Result<bool, OutOfMemory>
    ensures reached { TakesInTable (since_answer (sink.old.outputs
        ++ sent_if_any from.now (fault_abort fault origin.now)) sink.new.outputs) result
        (is_live_if_any (lookup (nat_eq identifier) table.old))
        (λ x. outcome (table_move (at_clock 0) x (DialogueEvent.fault (fault_cause fault)))) identifier
        (lookup (nat_eq identifier) table.old) table.old table.new }
    ensures kept { IfTaken result (KeepsOutputs (sink.old.outputs
        ++ sent_if_any from.now (fault_abort fault origin.now)) sink.new.outputs) }
    ensures still { UnlessTaken result (sink.new.outputs ≡ sink.old.outputs) }
{
    let Some(dialogue) = table.rows.get_mut(identifier) else {
        return Ok(false);
    };
    if !dialogue.is_live() {
        return Ok(false);
    }
    dialogue.take_faulty(from, copied_if_any(origin), fault, sink)?;
    take_out(&mut table.rows, &mut table.spares, identifier);
    Ok(true)
}

/// A second identifier of the same octets, if there is one.
fn copied_if_any(id: &Option<TransId>) -> Option<TransId>
    ensures { result ≡ id.now }
{
    match id {
        None => None,
        Some(id) => Some(id.copied()),
    }
}

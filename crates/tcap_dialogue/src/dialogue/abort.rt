//! The abort of a dialogue: what an Abort of the peer tells, and the Abort of the provider here.

ghost use Rattle.std.specs.Prelude.{◌≡◌, ◌+◌, ◌^◌, ◌<◌, ◌≤◌, ◌++◌, ◌∷◌, [], true, length, Some, Ok, Option, OnOk, OnErr};
ghost use Rattle.ber_core.specs.Place.{Slice};
ghost use Rattle.tcap_dialogue.specs.Aborting.{abnormal_over, provider_told};
ghost use Rattle.tcap_primitives.specs.IndicationViews.{indicated, indicated_octets, indicated_slices};
ghost use Rattle.tcap_primitives.specs.OutputViews.{cause_view};
ghost use Rattle.tcap_primitives.specs.Slices.{Slices, LieIn, LieInPlace};
ghost use Rattle.tcap_reception.specs.StateViews.{phase_view};
ghost use Rattle.tcap_invocation.specs.Closing.{ended_at};
ghost use Rattle.tcap_model.specs.Procedures.AbortRules.{abort_told, fault_cause, is_no_common, portion_told, sent_if_any};
ghost use Rattle.tcap_model.specs.Procedures.Reception.{fault_abort};
ghost use Rattle.tcap_dialogue.specs.StepViews.{StepsTo, outcome};
ghost use Rattle.tcap_model.specs.Table.TableMove.{DialogueEvent, Setting, over_with, table_move};
ghost use Rattle.tcap_model.specs.Words.Output as model;
ghost use Rattle.tcap_model.specs.Words.Output.{DialogueIndication};
ghost use Rattle.tcap_model.specs.Words.State.{address_by};
ghost use Rattle.tcap_pdu.specs.DialoguePlace.{PduInPlace};
ghost use Rattle.tcap_pdu.specs.DialogueReading.{dialogue_at};
ghost use Rattle.tcap_pdu.specs.DialogueViews.{pdu_value, source};
ghost use Rattle.tcap_pdu.specs.FramePortions.{reason_slice};
ghost use Rattle.tcap_pdu.specs.FrameViews.{reason_of};

use super::Dialogue;
use super::ended_invocations::tell_ended;
use super::kept_address::KeptAddress;
use ber_core::OutOfMemory;
use std::alloc::Allocator;
use tcap_address::Address;
use tcap_pdu::dialogue_tag::NO_COMMON_DIALOGUE_PORTION;
use tcap_pdu::{AbortPart, Diagnostic, DialoguePdu, FrameFault, TransId, read_dialogue};
use tcap_primitives::{Abort, Cause, Indication, Sink, SinkKind, Why};
use tcap_reception::Phase;

/// What an Abort to a dialogue tells (Q.774, Abort by the user; Q.774, Abort by the provider).
pub(crate) fn abort_told<'m>(dialogue: u32, reason: &AbortPart<'m>) -> Indication<'m>
    ensures told { indicated result ≡ abort_told dialogue (reason_of reason.now) }
    ensures place { (components : Slice) → LieIn (reason_slice reason.now) components (indicated_slices result) }
{
    match reason {
        AbortPart::Nothing => Indication::UAbort {
            dialogue,
            pdu: None,
        },
        AbortPart::Cause(cause) => Indication::PAbort {
            dialogue,
            why: Why::Cause(*cause),
        },
        AbortPart::Dialogue(portion) => portion_told(dialogue, portion),
    }
}

/// What the dialogue portion of an Abort tells.
fn portion_told<'m>(dialogue: u32, portion: &'m [u8]) -> Indication<'m>
    ensures told { indicated result ≡ portion_told dialogue (dialogue_at portion.now) }
    ensures place { (components : Slice) → LieIn (Some portion.entry) components (indicated_slices result) }
{
    match read_dialogue(portion) {
        Ok(pdu) => pdu_told(dialogue, pdu),
        Err(_) => Indication::PAbort {
            dialogue,
            why: Why::Abnormal,
        },
    }
}

/// What the dialogue PDU of an Abort tells: the user's abort by an ABRT of the user, by a foreign
/// EXTERNAL and by an AARE that isn't accepted, unless there is no common dialogue portion.
fn pdu_told<'m>(dialogue: u32, pdu: DialoguePdu<'m>) -> Indication<'m>
    ensures told { indicated result ≡ portion_told dialogue (Ok (pdu_value pdu.entry)) }
    ensures place { (portion components : Slice) → PduInPlace pdu.entry portion
        → LieIn (Some portion) components (indicated_slices result) }
{
    match pdu {
        DialoguePdu::Abrt {
            by_provider: false,
            ..
        }
        | DialoguePdu::Foreign { .. } => {
            Indication::UAbort {
                dialogue,
                pdu: Some(pdu),
            }
        }
        DialoguePdu::Aare {
            accepted: false,
            diagnostic,
            ..
        } => {
            if is_no_common(diagnostic) {
                provider_told(dialogue, Why::NoCommon)
            } else {
                Indication::UAbort {
                    dialogue,
                    pdu: Some(pdu),
                }
            }
        }
        DialoguePdu::Aare { accepted: true, .. }
        | DialoguePdu::Abrt {
            by_provider: true,
            ..
        }
        | DialoguePdu::Aarq { .. }
        | DialoguePdu::Audt { .. } => provider_told(dialogue, Why::Abnormal),
    }
}

/// TC-P-ABORT for this reason.
fn provider_told<'m>(dialogue: u32, why: Why) -> Indication<'m>
    ensures told { indicated result ≡ model.Output.dialogue (DialogueIndication.p_abort dialogue (cause_view why)) }
    ensures slices { indicated_slices result ≡ Slices.none }
{
    Indication::PAbort { dialogue, why }
}

/// Whether a diagnostic is "no common dialogue portion" by the provider.
fn is_no_common(diagnostic: Diagnostic) -> bool
    ensures { result ≡ is_no_common (source diagnostic) }
{
    match diagnostic {
        Diagnostic::User(_) => false,
        Diagnostic::Provider(number) => number == NO_COMMON_DIALOGUE_PORTION,
    }
}

/// The address of the peer of a Continue: the one that is kept, or in Sent that of its sender (our own).
fn address_by<'a, A: Allocator + Copy>(
    phase: &Phase,
    kept: &'a KeptAddress<A>,
    from: &'a Address,
) -> &'a [u8]
    ensures value { result.now ≡ address_by (phase_view phase.now) kept.now from.now }
    ensures within { length result.now ≤ 255 }
{
    match phase {
        Phase::Sent => from.octets(),
        Phase::Fresh | Phase::Received(_) | Phase::Active(_) => kept.octets(),
    }
}

/// The originator of a faulty message gets an Abort with the fault's cause, if it is known, with places for so many
/// outputs more.
fn answer_fault<'m, A: Allocator + Copy, K: SinkKind>(
    from: &Address,
    origin: Option<TransId>,
    fault: FrameFault,
    more: usize,
    sink: &mut Sink<'m, A, K>,
) -> Result<(), OutOfMemory>
    ensures ok { OnOk result (sink.new.outputs ≡ sink.old.outputs
        ++ sent_if_any from.now (fault_abort fault origin)) }
    ensures places { OnOk result (more ≤ sink.new.places) }
    ensures within { OnOk result (more < 2 ^ 63) }
    ensures still { OnErr result (sink.new.outputs ≡ sink.old.outputs) }
{
    let Some(peer) = origin else {
        return Ok(sink.reserve(more, 0)?);
    };
    let cause = Cause::Faulty(fault);
    let abort = Abort::Cause { peer, cause };
    Ok(sink.send(from.octets(), &abort.outgoing(), more)?)
}

impl<A: Allocator + Copy> Dialogue<A> {
    /// Tells first what the message tells, then each invocation that the end of the dialogue ends; there is room
    /// for all.
    fn tell_over<'m, K: SinkKind>(&mut self, first: Indication<'m>, sink: &mut Sink<'m, A, K>)
        requires places { 1 + length (ended_at self.old.invocations.rows) ≤ sink.old.places }
        requires octets { indicated_octets first ≤ sink.old.octets }
        ensures told { StepsTo sink.old.outputs sink.new.outputs true self.new
            (outcome (over_with self.old (indicated first.entry ∷ []) self.old.invocations)) }
        ensures kept { self.new.standing.identifier ≡ self.old.standing.identifier }
        ensures places { sink.old.places
            ≤ sink.new.places + (1 + length (ended_at self.old.invocations.rows)) }
        ensures place { (portion : Option Slice) (components : Slice)
            → LieIn portion components (indicated_slices first.entry) → LieInPlace portion components sink.old.slices
            → LieInPlace portion components sink.new.slices }
    {
        sink.tell(first);
        tell_ended(self.identifier, &mut self.invocations, sink);
    }

    /// `tell_over`; all room is made first.
    fn over_with<'m, K: SinkKind>(
        &mut self,
        first: Indication<'m>,
        sink: &mut Sink<'m, A, K>,
    ) -> Result<(), OutOfMemory>
        ensures ok { OnOk result (StepsTo sink.old.outputs sink.new.outputs true self.new
            (outcome (over_with self.old (indicated first.entry ∷ []) self.old.invocations))) }
        ensures err { OnErr result (self.new ≡ self.old) }
        ensures still { OnErr result (sink.new.outputs ≡ sink.old.outputs) }
        ensures kept { self.new.standing.identifier ≡ self.old.standing.identifier }
        ensures places { sink.old.places
            ≤ sink.new.places + (1 + length (ended_at self.old.invocations.rows)) }
        ensures place { (portion : Option Slice) (components : Slice)
            → LieIn portion components (indicated_slices first.entry) → LieInPlace portion components sink.old.slices
            → LieInPlace portion components sink.new.slices }
    {
        let count = self.invocations.open_count().saturating_add(1);
        sink.reserve(count, first.octet_count())?;
        self.tell_over(first, sink);
        Ok(())
    }

    /// An Abort: it tells why, and the dialogue is over, whatever its state is.
    pub(super) fn receive_abort<'m, K: SinkKind>(
        &mut self,
        reason: &AbortPart<'m>,
        sink: &mut Sink<'m, A, K>,
    ) -> Result<(), OutOfMemory>
        ensures ok { OnOk result (StepsTo sink.old.outputs sink.new.outputs true self.new
            (outcome (over_with self.old (abort_told self.old.standing.identifier (reason_of reason.now) ∷ [])
            self.old.invocations))) }
        ensures err { OnErr result (self.new ≡ self.old) }
        ensures still { OnErr result (sink.new.outputs ≡ sink.old.outputs) }
        ensures kept { self.new.standing.identifier ≡ self.old.standing.identifier }
        ensures place { (components : Slice) → LieInPlace (reason_slice reason.now) components sink.old.slices
            → LieInPlace (reason_slice reason.now) components sink.new.slices }
    {
        let told = abort_told(self.identifier, reason);
        self.over_with(told, sink)
    }

    /// The provider here aborts, and the dialogue is over.
    pub(super) fn abort_provider<'m, K: SinkKind>(
        &mut self,
        why: Why,
        sink: &mut Sink<'m, A, K>,
    ) -> Result<(), OutOfMemory>
        ensures ok { OnOk result (StepsTo sink.old.outputs sink.new.outputs true self.new
            (outcome (over_with self.old (provider_told self.old (cause_view why) ∷ []) self.old.invocations))) }
        ensures err { OnErr result (self.new ≡ self.old) }
        ensures still { OnErr result (sink.new.outputs ≡ sink.old.outputs) }
        ensures kept { self.new.standing.identifier ≡ self.old.standing.identifier }
        ensures places { sink.old.places
            ≤ sink.new.places + (1 + length (ended_at self.old.invocations.rows)) }
        ensures place { (portion : Option Slice) (components : Slice) → LieInPlace portion components sink.old.slices
            → LieInPlace portion components sink.new.slices }
    {
        let dialogue = self.identifier;
        self.over_with(Indication::PAbort { dialogue, why }, sink)
    }

    /// A Continue whose dialogue portion is abnormal: the peer gets an Abort, and the dialogue is over.
    pub(super) fn abort_abnormal<'m, K: SinkKind>(
        &mut self,
        from: &Address,
        origin: &TransId,
        sink: &mut Sink<'m, A, K>,
    ) -> Result<(), OutOfMemory>
        ensures ok { OnOk result (StepsTo sink.old.outputs sink.new.outputs true self.new
            (outcome (abnormal_over self.old from.now origin.now))) }
        ensures err { OnErr result (self.new ≡ self.old) }
        ensures still { OnErr result (sink.new.outputs ≡ sink.old.outputs) }
        ensures kept { self.new.standing.identifier ≡ self.old.standing.identifier }
        ensures place { (portion : Option Slice) (components : Slice) → LieInPlace portion components sink.old.slices
            → LieInPlace portion components sink.new.slices }
    {
        let more = self.invocations.open_count().saturating_add(1);
        let peer = self.phase.peer_or(origin).copied();
        let abort = Abort::Abnormal { peer };
        let to = address_by(&self.phase, &self.kept, from);
        sink.send(to, &abort.outgoing(), more)?;
        let dialogue = self.identifier;
        let why = Why::Abnormal;
        self.tell_over(Indication::PAbort { dialogue, why }, sink);
        Ok(())
    }

    /// A faulty message names the dialogue, which is over then: the originator gets an Abort with the fault's cause,
    /// if it is known, and the user TC-P-ABORT (our own, after Q.774, Abnormal procedures).
    #[tactic(auto, unfolding(tcap_model::specs::Table::TableMove::table_move))]
    pub fn take_faulty<'m, K: SinkKind>(
        &mut self,
        from: &Address,
        origin: Option<TransId>,
        fault: FrameFault,
        sink: &mut Sink<'m, A, K>,
    ) -> Result<(), OutOfMemory>
        // What is sent, then what is told; the dialogue is over.
        ensures ok { (around : Setting) → OnOk result (StepsTo (sink.old.outputs
            ++ sent_if_any from.now (fault_abort fault origin)) sink.new.outputs true self.new
            (outcome (table_move around self.old (DialogueEvent.fault (fault_cause fault))))) }
        ensures err { OnErr result (self.new ≡ self.old) }
        ensures still { OnErr result (sink.new.outputs ≡ sink.old.outputs) }
        // The identifier stays, also of one that is over.
        ensures kept { self.new.standing.identifier ≡ self.old.standing.identifier }
    {
        let count = self.invocations.open_count().saturating_add(1);
        answer_fault(from, origin, fault, count, sink)?;
        let dialogue = self.identifier;
        let why = Why::Cause(fault.cause());
        self.tell_over(Indication::PAbort { dialogue, why }, sink);
        Ok(())
    }
}

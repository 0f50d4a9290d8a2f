//! Dialogues that are created.

// Hints to inline: each step of an engine runs through it; docs/PERF.md says what the whole of it inlined gains.

ghost use Rattle.std.specs.Prelude.{◌≡◌, ◌<◌, ◌≤◌, ◌+◌, ◌++◌, ◌∷◌, [], None, false, OnErr, OnOk, IfSome, option_copied};
ghost use Rattle.std.specs.Option.{option_map};
ghost use Rattle.ber_core.specs.ObjectIdentifier.{IsObjectIdentifier};
ghost use Rattle.tcap_dialogue.specs.StepViews.{StepsTo, outcome};
ghost use Rattle.tcap_reception.specs.PortionParts.{context_of_portion, info_of_portion};
ghost use Rattle.tcap_primitives.specs.FaultViews.{fault_view};
ghost use Rattle.tcap_model.specs.Table.Dialogue.{fresh_dialogue};
ghost use Rattle.tcap_engine.specs.Creation.{created_by};
ghost use Rattle.tcap_engine.specs.StepForm.{EngineAnswers, ReceivesInto, birth_answer};
ghost use Rattle.tcap_engine.specs.HistoryForm.{Stands};
ghost use Rattle.tcap_engine.specs.DialogueEntries.{AreDrawn, IsWithin, with_created};
ghost use Rattle.tcap_engine.specs.Lapsing.{timer_of};
ghost use Rattle.tcap_engine.specs.Limits.{AreLimits};
ghost use Rattle.tcap_invocation.specs.Stage.{moment_limit};
ghost use Rattle.tcap_model.specs.Table.EngineMove.{engine_move, begun_in, birth_fault_in, setting_in, received_in};
ghost use Rattle.tcap_model.specs.Table.TableMove.{born};
ghost use Rattle.tcap_model.specs.Words.Event.{Event};
ghost use Rattle.tcap_model.specs.Words.Identifiers.{last_dialogue};
ghost use Rattle.tcap_model.specs.Procedures.PortionRules.{begin_verdict};
ghost use Rattle.tcap_model.specs.Procedures.Reception.{begin_by};

use super::Engine;
use crate::dialogues::Dialogues;
use crate::limits::Limits;
use ber_core::OutOfMemory;
use std::alloc::Allocator;
use tcap_dialogue::{
    Abort, Address, BeginMemory, BeginVerdict, Dialogue, Fault, Sink, SinkKind, judge_begin,
};
use tcap_pdu::TransId;
use tcap_reception::AarqParts;

impl<A: Allocator + Copy> Engine<A> {
    /// A new dialogue, in which nothing has happened: its identifier. Faults: `DialoguesFull`,
    /// `DialogueIdsSpent`, `OutOfMemory`.
    #[tactic(auto, using(crate::proofs::StandingLemmas::stands_after))]
    pub fn new_dialogue(&mut self) -> Result<u32, Fault>
        ensures moves { EngineAnswers birth_answer result (engine_move self.old Event.new_dialogue) self.old self.new }
        ensures err { OnErr result (self.new ≡ self.old) }
        // Whatever legal history the engine stood at: the reply, and the history that it stands at then.
        ensures stands { Stands birth_answer result Event.new_dialogue self.old self.new }
    {
        self.create()
    }

    /// `new_dialogue`, by the engine's move.
    #[tactic(auto, using(crate::proofs::BirthLemmas::born_by), unfolding(tcap_model::specs::Table::EngineMove::engine_move))]
    #[inline(always)]
    fn create(&mut self) -> Result<u32, Fault>
        ensures moves { EngineAnswers birth_answer result (engine_move self.old Event.new_dialogue) self.old self.new }
        ensures err { OnErr result (self.new ≡ self.old) }
    {
        if let Some(fault) = self.birth_fault() {
            return Err(fault);
        }
        let identifier = self.next_dialogue;
        self.keep(self.fresh())?;
        Ok(identifier)
    }

    /// A Begin where a dialogue can be created: it is accepted or aborted, by its dialogue portion
    /// (Q.774, Dialogue begin).
    #[inline(always)]
    pub(super) fn take_begin<'m, K: SinkKind>(
        &mut self,
        from: &Address,
        origin: &TransId,
        dialogue: Option<&'m [u8]>,
        components: &'m [u8],
        sink: &mut Sink<'m, A, K>,
    ) -> Result<(), OutOfMemory>
        requires free { birth_fault_in self.old ≡ None }
        ensures { ReceivesInto sink.old.outputs sink.new.outputs result (received_in self.old from.now
            (begin_by (begin_verdict (option_copied dialogue.entry)) origin.now components.now)) self.old self.new }
    {
        match judge_begin(dialogue) {
            BeginVerdict::Plain => self.accept_begin(from, origin, None, components, sink),
            BeginVerdict::Context { context, info } => {
                self.accept_begin(from, origin, Some((context, info)), components, sink)
            }
            BeginVerdict::WrongVersion { context } => {
                let peer = origin.copied();
                self.abort(from, &Abort::WrongVersion { peer, context }, sink)
            }
            BeginVerdict::Abnormal => {
                let peer = origin.copied();
                self.abort(from, &Abort::Abnormal { peer }, sink)
            }
        }
    }

    /// A Begin creates a dialogue: what is told (Q.774, Dialogue begin).
    #[inline(always)]
    pub(super) fn accept_begin<'m, K: SinkKind>(
        &mut self,
        from: &Address,
        origin: &TransId,
        request: AarqParts<'m>,
        components: &'m [u8],
        sink: &mut Sink<'m, A, K>,
    ) -> Result<(), OutOfMemory>
        requires free { birth_fault_in self.old ≡ None }
        requires named { IfSome request (λ r. IsObjectIdentifier r.0.now) }
        ensures { ReceivesInto sink.old.outputs sink.new.outputs result
            (begun_in self.old (born (setting_in self.old) self.old.next_dialogue self.old.reject_ms self.old.idle_ms
            from.now origin.now (context_of_portion request.entry) (info_of_portion request.entry) components.now))
            self.old self.new }
    {
        let identifier = self.next_dialogue;
        begin_in(
            &mut self.table,
            identifier,
            &self.limits,
            from,
            origin,
            request,
            components,
            self.clock,
            sink,
        )?;
        self.next_dialogue = next_identifier(identifier);
        Ok(())
    }

    /// A dialogue under the next identifier, in which nothing has happened.
    #[inline(always)]
    fn fresh(&self) -> Dialogue<A>
        ensures { result ≡ fresh_dialogue self.now.next_dialogue self.now.reject_ms self.now.idle_ms }
    {
        let limits = self.limits;
        Dialogue::fresh(
            self.table.allocator(),
            self.next_dialogue,
            limits.reject_ms,
            limits.idle_ms,
        )
    }

    /// Takes in a dialogue that is created under the next identifier, which is drawn then.
    // A dialogue is 192 octets: built in place, it isn't moved from call to call on its way into the table.
    #[inline(always)]
    fn keep(&mut self, dialogue: Dialogue<A>) -> Result<(), OutOfMemory>
        requires free { birth_fault_in self.old ≡ None }
        requires next { dialogue.standing.identifier ≡ self.old.next_dialogue }
        requires within { IsWithin self.old.reject_ms self.old.next_number dialogue }
        requires untimed { timer_of dialogue ≡ None }
        ensures ok { OnOk result (self.new ≡ with_created self.old dialogue) }
        ensures err { OnErr result (self.new ≡ self.old) }
    {
        let identifier = self.next_dialogue;
        let following = next_identifier(identifier);
        self.table.insert(identifier, dialogue)?;
        self.next_dialogue = following;
        Ok(())
    }

    /// Why no dialogue can be created, the first that holds.
    #[inline(always)]
    pub(crate) fn birth_fault(&self) -> Option<Fault>
        ensures { option_map fault_view result ≡ birth_fault_in self.now }
    {
        if self.limits.max_dialogues <= self.table.len() {
            Some(Fault::DialoguesFull)
        } else if self.next_dialogue == u32::MAX {
            Some(Fault::DialogueIdsSpent)
        } else {
            None
        }
    }
}

/// A Begin creates the dialogue of an identifier above all others: what is told, and the dialogue stands behind them.
/// All memory is found first; where some is refused, what other dialogues left is theirs again.
// The Begin is taken where the dialogue stands: made before, its 192 octets were moved there, some 60 instructions a
// Begin.
#[inline(always)]
fn begin_in<'m, A: Allocator + Copy, K: SinkKind>(
    table: &mut Dialogues<A>,
    identifier: u32,
    limits: &Limits,
    from: &Address,
    origin: &TransId,
    request: AarqParts<'m>,
    components: &'m [u8],
    clock: u64,
    sink: &mut Sink<'m, A, K>,
) -> Result<(), OutOfMemory>
    requires limits { AreLimits limits.now }
    requires clock { clock ≤ moment_limit }
    requires drawn { AreDrawn identifier table.old }
    requires named { IfSome request (λ r. IsObjectIdentifier r.0.now) }
    ensures told { let m = created_by clock identifier limits.now from.now origin.now request.entry components.now in
        OnOk result (StepsTo sink.old.outputs sink.new.outputs false m.after (outcome m)) }
    ensures table { let m = created_by clock identifier limits.now from.now origin.now request.entry components.now in
        OnOk result (table.new ≡ table.old ++ (identifier, m.after) ∷ []) }
    ensures err { OnErr result (table.new ≡ table.old) }
    ensures still { OnErr result (sink.new.outputs ≡ sink.old.outputs) }
{
    let alloc = table.allocator();
    let mut memory = BeginMemory::new(alloc);
    memory.find(&mut table.spares, from, request, components, sink)?;
    let fresh = || -> Dialogue<A>
        requires { AreLimits limits.now }
        ensures { result ≡ fresh_dialogue identifier limits.entry.now.reject_ms limits.entry.now.idle_ms }
    { Dialogue::fresh(alloc, identifier, limits.reject_ms, limits.idle_ms) };
    let Some(dialogue) = table.rows.insert_with(identifier, None, fresh) else {
        memory.leave(&mut table.spares);
        return Err(OutOfMemory);
    };
    dialogue.take_begin_with(
        &mut memory,
        &mut table.spares,
        from,
        origin,
        request,
        components,
        clock,
        sink,
    );
    Ok(())
}

/// The identifier that is drawn after this one: no identifier is drawn twice.
#[inline(always)]
fn next_identifier(identifier: u32) -> u32
    requires { identifier < last_dialogue }
    ensures { result ≡ identifier + 1 }
{
    identifier + 1
}

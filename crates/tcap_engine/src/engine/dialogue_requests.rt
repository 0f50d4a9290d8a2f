//! TC-BEGIN, TC-CONTINUE and TC-END (Q.771, Dialogue handling), each by a call of its own.

// `ask` takes any request. The toolchain counts all of them before those that don't come fold away, so what a request
// does stands apart there. Here one alone is inlined, but for what is rare: steps 1 and 3 and a lapse take 80
// instructions less so, step 2 26; by an outbox a Begin takes 40 less besides, and an End 50.

ghost use Rattle.std.specs.Prelude.{◌≡◌, ◌≤◌, ℕ, nat_eq, option_copied, OnErr};
ghost use Rattle.std.specs.Map.{lookup};
ghost use Rattle.tcap_dialogue.specs.StepViews.{asked, outcome};
ghost use Rattle.tcap_engine.specs.HistoryForm.{Stands};
ghost use Rattle.tcap_engine.specs.RequestInTable.{AnswersInTable};
ghost use Rattle.tcap_engine.specs.StepForm.{EngineAnswers, outputs_answer, since_answer};
ghost use Rattle.tcap_invocation.specs.Stage.{moment_limit};
ghost use Rattle.tcap_model.specs.Table.EngineMove.{engine_move};
ghost use Rattle.tcap_model.specs.Table.TableMove.{DialogueEvent, table_move};
ghost use Rattle.tcap_model.specs.Words.Event.{Event};
ghost use Rattle.tcap_model.specs.Words.Request as model;
ghost use Rattle.tcap_model.specs.Words.Request.{DialogueRequest};
ghost use Rattle.tcap_primitives.specs.RequestViews.{begin_view, continue_view, end_view, ending_view};
ghost use Rattle.tcap_primitives.specs.SinkViews.{KeepsOutputs};

use super::Engine;
use crate::dialogues::{Dialogues, take_out, write_timer};
use std::alloc::Allocator;
use tcap_dialogue::{
    Address, BeginRequest, ContinueRequest, EndRequest, Ending, Fault, Output, Request, Sink,
    SinkKind,
};
use tcap_primitives::ranges;

/// In all of these `context` is the contents octets of the application context name, and `info` the user
/// information: EXTERNALs one after the other, empty where there is none.
impl<A: Allocator + Copy> Engine<A> {
    /// TC-BEGIN request: the queue goes out in a Begin to this address, which the dialogue keeps, with an
    /// AARQ where there is a context, and the dialogue is Sent. `context` is the contents octets of its object
    /// identifier, not its dotted text. Faults: `UnknownDialogue`, `WrongState`
    /// unless Fresh, `BadOid`, `BadParameter`, `NoContext` for information without a context, `TooLong`,
    /// `OutOfMemory` (Q.774, Dialogue begin).
    pub fn begin<'m>(
        &mut self,
        dialogue: u32,
        to: &Address,
        context: Option<&[u8]>,
        info: &[u8],
    ) -> Result<Vec<Output<'m, A>, A>, Fault>
        ensures moves { EngineAnswers outputs_answer result
            (engine_move self.old (Event.on_dialogue dialogue (model.Request.dialogue
            (DialogueRequest.begin to.now (option_copied context.entry) info.now)))) self.old self.new }
        ensures stands { Stands outputs_answer result (Event.on_dialogue dialogue (model.Request.dialogue
            (DialogueRequest.begin to.now (option_copied context.entry) info.now))) self.old self.new }
        ensures err { OnErr result (self.new ≡ self.old) }
    {
        let mut sink = Sink::vector(self.table.allocator());
        self.begin_with(dialogue, &BeginRequest { to, context, info }, &mut sink)?;
        Ok(sink.into_vector())
    }

    /// TC-CONTINUE request: the queue goes out in a Continue to the peer's address. In Received an AARQ is
    /// answered, with the context given or else its own; `context` is the contents octets of its object identifier,
    /// not its dotted text. Faults: `UnknownDialogue`, `WrongState` unless
    /// Received or Active, `BadOid`, `BadParameter`, `NoContext` for a context or information where no AARQ
    /// is answered, `TooLong`, `OutOfMemory` (Q.774, Dialogue continuation).
    pub fn go_on<'m>(
        &mut self,
        dialogue: u32,
        context: Option<&[u8]>,
        info: &[u8],
    ) -> Result<Vec<Output<'m, A>, A>, Fault>
        ensures moves { EngineAnswers outputs_answer result
            (engine_move self.old (Event.on_dialogue dialogue (model.Request.dialogue
            (DialogueRequest.go_on (option_copied context.entry) info.now)))) self.old self.new }
        ensures stands { Stands outputs_answer result (Event.on_dialogue dialogue
            (model.Request.dialogue (DialogueRequest.go_on (option_copied context.entry) info.now))) self.old self.new }
        ensures err { OnErr result (self.new ≡ self.old) }
    {
        let mut sink = Sink::vector(self.table.allocator());
        self.go_on_with(dialogue, &ContinueRequest { context, info }, &mut sink)?;
        Ok(sink.into_vector())
    }

    /// TC-END request: a basic end sends the queue in an End to the peer's address, a prearranged one nothing;
    /// the dialogue is over, and each invocation that is left is told as ended. `context` is the contents octets
    /// of its object identifier, not its dotted text. Faults: `UnknownDialogue`,
    /// `WrongState`, `BadOid`, `BadParameter`, `NoContext`, `TooLong`, `OutOfMemory` (Q.774, Dialogue end).
    pub fn finish<'m>(
        &mut self,
        dialogue: u32,
        ending: Ending,
        context: Option<&[u8]>,
        info: &[u8],
    ) -> Result<Vec<Output<'m, A>, A>, Fault>
        ensures moves { EngineAnswers outputs_answer result
            (engine_move self.old (Event.on_dialogue dialogue (model.Request.dialogue
            (DialogueRequest.finish (ending_view ending) (option_copied context.entry) info.now)))) self.old self.new }
        ensures stands { Stands outputs_answer result (Event.on_dialogue dialogue (model.Request.dialogue
            (DialogueRequest.finish (ending_view ending) (option_copied context.entry) info.now))) self.old self.new }
        ensures err { OnErr result (self.new ≡ self.old) }
    {
        let end = EndRequest {
            ending,
            context,
            info,
        };
        let mut sink = Sink::vector(self.table.allocator());
        self.finish_with(dialogue, &end, &mut sink)?;
        Ok(sink.into_vector())
    }

    /// TC-BEGIN request, whose message is appended to what a sink holds.
    #[tactic(auto, using(crate::proofs::StandingLemmas::stands_after))]
    #[inline(always)]
    pub(super) fn begin_with<'m, K: SinkKind>(
        &mut self,
        dialogue: u32,
        request: &BeginRequest<'_>,
        sink: &mut Sink<'m, A, K>,
    ) -> Result<(), Fault>
        ensures moves { EngineAnswers (since_answer sink.old.outputs sink.new.outputs) result
            (engine_move self.old (Event.on_dialogue dialogue
            (model.Request.dialogue (begin_view request.now)))) self.old self.new }
        ensures kept { KeepsOutputs sink.old.outputs sink.new.outputs }
        ensures still { OnErr result (sink.new.outputs ≡ sink.old.outputs) }
        ensures err { OnErr result (self.new ≡ self.old) }
        ensures stands { Stands (since_answer sink.old.outputs sink.new.outputs) result
            (Event.on_dialogue dialogue (model.Request.dialogue (begin_view request.now))) self.old self.new }
    {
        ranges::request(&Request::Begin(*request));
        send_begin_in(&mut self.table, dialogue, self.clock, request, sink)
    }

    /// TC-CONTINUE request, whose message is appended to what a sink holds.
    #[tactic(auto, using(crate::proofs::StandingLemmas::stands_after))]
    #[inline(always)]
    pub(super) fn go_on_with<'m, K: SinkKind>(
        &mut self,
        dialogue: u32,
        request: &ContinueRequest<'_>,
        sink: &mut Sink<'m, A, K>,
    ) -> Result<(), Fault>
        ensures moves { EngineAnswers (since_answer sink.old.outputs sink.new.outputs) result
            (engine_move self.old (Event.on_dialogue dialogue
            (model.Request.dialogue (continue_view request.now)))) self.old self.new }
        ensures kept { KeepsOutputs sink.old.outputs sink.new.outputs }
        ensures still { OnErr result (sink.new.outputs ≡ sink.old.outputs) }
        ensures err { OnErr result (self.new ≡ self.old) }
        ensures stands { Stands (since_answer sink.old.outputs sink.new.outputs) result
            (Event.on_dialogue dialogue (model.Request.dialogue (continue_view request.now))) self.old self.new }
    {
        ranges::request(&Request::Continue(*request));
        send_continue_in(&mut self.table, dialogue, self.clock, request, sink)
    }

    /// TC-END request, of which what is sent and told is appended to what a sink holds.
    #[tactic(auto, using(crate::proofs::StandingLemmas::stands_after))]
    #[inline(always)]
    pub(super) fn finish_with<'m, K: SinkKind>(
        &mut self,
        dialogue: u32,
        request: &EndRequest<'_>,
        sink: &mut Sink<'m, A, K>,
    ) -> Result<(), Fault>
        ensures moves { EngineAnswers (since_answer sink.old.outputs sink.new.outputs) result
            (engine_move self.old (Event.on_dialogue dialogue
            (model.Request.dialogue (end_view request.now)))) self.old self.new }
        ensures kept { KeepsOutputs sink.old.outputs sink.new.outputs }
        ensures still { OnErr result (sink.new.outputs ≡ sink.old.outputs) }
        ensures err { OnErr result (self.new ≡ self.old) }
        ensures stands { Stands (since_answer sink.old.outputs sink.new.outputs) result
            (Event.on_dialogue dialogue (model.Request.dialogue (end_view request.now))) self.old self.new }
    {
        ranges::request(&Request::End(*request));
        send_end_in(&mut self.table, dialogue, request, sink)
    }
}

/// TC-BEGIN on the dialogue of an identifier.
#[inline(always)]
fn send_begin_in<'m, A: Allocator + Copy, K: SinkKind>(
    table: &mut Dialogues<A>,
    identifier: u32,
    clock: u64,
    request: &BeginRequest<'_>,
    sink: &mut Sink<'m, A, K>,
) -> Result<(), Fault>
    requires { clock ≤ moment_limit }
    ensures answer { (number : ℕ) → AnswersInTable (since_answer sink.old.outputs sink.new.outputs) result
        (λ x. outcome (table_move (asked clock number) x
        (DialogueEvent.request (model.Request.dialogue (begin_view request.now)))))
        identifier (lookup (nat_eq identifier) table.old) table.old table.new }
    ensures kept { KeepsOutputs sink.old.outputs sink.new.outputs }
    ensures still { OnErr result (sink.new.outputs ≡ sink.old.outputs) }
{
    let Some(dialogue) = table.rows.get_mut(identifier) else {
        return Err(Fault::UnknownDialogue);
    };
    dialogue.begin_with(&mut table.spares, request, clock, sink)?;
    let timer = dialogue.next_timer();
    write_timer(&mut table.rows, identifier, timer);
    Ok(())
}

/// TC-CONTINUE on the dialogue of an identifier.
#[inline(always)]
fn send_continue_in<'m, A: Allocator + Copy, K: SinkKind>(
    table: &mut Dialogues<A>,
    identifier: u32,
    clock: u64,
    request: &ContinueRequest<'_>,
    sink: &mut Sink<'m, A, K>,
) -> Result<(), Fault>
    requires { clock ≤ moment_limit }
    ensures answer { (number : ℕ) → AnswersInTable (since_answer sink.old.outputs sink.new.outputs) result
        (λ x. outcome (table_move (asked clock number) x
        (DialogueEvent.request (model.Request.dialogue (continue_view request.now)))))
        identifier (lookup (nat_eq identifier) table.old) table.old table.new }
    ensures kept { KeepsOutputs sink.old.outputs sink.new.outputs }
    ensures still { OnErr result (sink.new.outputs ≡ sink.old.outputs) }
{
    let Some(dialogue) = table.rows.get_mut(identifier) else {
        return Err(Fault::UnknownDialogue);
    };
    dialogue.go_on_with(&mut table.spares, request, clock, sink)?;
    let timer = dialogue.next_timer();
    write_timer(&mut table.rows, identifier, timer);
    Ok(())
}

/// TC-END on the dialogue of an identifier, which is taken out.
#[inline(always)]
fn send_end_in<'m, A: Allocator + Copy, K: SinkKind>(
    table: &mut Dialogues<A>,
    identifier: u32,
    request: &EndRequest<'_>,
    sink: &mut Sink<'m, A, K>,
) -> Result<(), Fault>
    ensures answer { (clock number : ℕ) → AnswersInTable (since_answer sink.old.outputs sink.new.outputs) result
        (λ x. outcome (table_move (asked clock number) x
        (DialogueEvent.request (model.Request.dialogue (end_view request.now)))))
        identifier (lookup (nat_eq identifier) table.old) table.old table.new }
    ensures kept { KeepsOutputs sink.old.outputs sink.new.outputs }
    ensures still { OnErr result (sink.new.outputs ≡ sink.old.outputs) }
{
    let Some(dialogue) = table.rows.get_mut(identifier) else {
        return Err(Fault::UnknownDialogue);
    };
    dialogue.finish_with(&mut table.spares, request, sink)?;
    take_out(&mut table.rows, &mut table.spares, identifier);
    Ok(())
}

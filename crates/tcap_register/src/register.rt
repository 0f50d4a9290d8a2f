//! The register.

ghost use Rattle.std.specs.Prelude.{◌≡◌, OnErr, IfOk};
ghost use Rattle.std.specs.List.{list_any};
ghost use Rattle.tcap_primitives.specs.OutputViews.{all_shown, shown};
ghost use Rattle.tcap_engine.specs.Limits.{AreLimits, empty_history};
ghost use Rattle.tcap_engine.specs.NextTimer.{next_timer_in};
ghost use Rattle.tcap_engine.specs.StepForm.{EngineAnswers, outputs_answer};
ghost use Rattle.tcap_model.specs.Table.EngineMove.{engine_move};
ghost use Rattle.tcap_model.specs.Table.World.{first_world};
ghost use Rattle.tcap_model.specs.Words.Event.{Event};
ghost use Rattle.tcap_register.specs.Invokes.{invoke_told};
ghost use Rattle.tcap_register.specs.Serving.{Concludes, ConcludesDialogue, Leaves, Serves, ServesAll, ServesTold, concluding, dialogue_of, is_invoke};

use crate::answering::serve_invoke;
use crate::invoke::{dialogue_told, invoke_told};
use crate::operations::Operations;
use ber_core::OutOfMemory;
use std::alloc::{Allocator, Global};
use tcap_engine::{Address, Ending, Engine, Fault, Limits, Output};

/// A register: an engine, and the operations that it answers with. Both are its owner's to look into and to change.
#[derive(Debug, Drop)]
pub struct Register<O, A: Allocator + Copy = Global> {
    pub engine: Engine<A>,
    pub operations: O,
}

/// What came of a message, in order. All that is to be sent stands in it as `Output::Send`.
#[derive(Debug, Drop)]
pub struct Served<'m, A: Allocator = Global> {
    /// What the engine sent and told of the message.
    pub heard: Vec<Output<'m, A>, A>,
    /// What it sent in answer: the End or the Continue. Nothing where no dialogue was begun or continued.
    pub answered: Vec<Output<'m, A>, A>,
}

/// Answers the Invoke that an output tells, if it tells one that can be answered.
fn serve_output<O: Operations<A>, A: Allocator + Copy>(
    engine: &mut Engine<A>,
    operations: &mut O,
    output: &Output<'_, A>,
)
    ensures { ServesTold O.class_of_gives O.answer_gives O.refused_gives (invoke_told (shown output.now))
        engine.old operations.old engine.new operations.new }
{
    if let Some(invoke) = invoke_told(output) {
        serve_invoke(engine, operations, &invoke);
    }
}

/// Answers each Invoke that outputs tell in a dialogue, one after the other.
fn serve_all<O: Operations<A>, A: Allocator + Copy>(
    engine: &mut Engine<A>,
    operations: &mut O,
    heard: &[Output<'_, A>],
)
    ensures { ServesAll O.class_of_gives O.answer_gives O.refused_gives (all_shown heard.now)
        engine.old operations.old engine.new operations.new }
{
    for output in heard {
        serve_output(engine, operations, output);
    }
}

/// The dialogue that outputs begin or continue, if one does.
fn dialogue_of<A: Allocator>(heard: &[Output<'_, A>]) -> Option<u32>
    ensures { result ≡ dialogue_of (all_shown heard.now) }
{
    for output in heard {
        if let Some(dialogue) = dialogue_told(output) {
            return Some(dialogue);
        }
    }
    None
}

/// Whether outputs tell an Invoke that is to be answered.
fn has_invoke<A: Allocator>(heard: &[Output<'_, A>]) -> bool
    ensures { result ≡ list_any is_invoke (all_shown heard.now) }
{
    for output in heard {
        if invoke_told(output).is_some() {
            return true;
        }
    }
    false
}

/// Sends what is queued in a dialogue: with an End, which ends it, or with a Continue.
fn send_queue<'m, A: Allocator + Copy>(
    engine: &mut Engine<A>,
    dialogue: u32,
    ends: bool,
) -> Result<Vec<Output<'m, A>, A>, Fault>
    ensures { EngineAnswers outputs_answer result
        (engine_move engine.old (Event.on_dialogue dialogue (concluding ends))) engine.old engine.new }
{
    if ends {
        engine.finish(dialogue, Ending::Basic, None, &[])
    } else {
        engine.go_on(dialogue, None, &[])
    }
}

/// Ends a dialogue and sends nothing: what is left of one whose answers could not be sent. It takes no memory where
/// this side has invoked nothing.
fn leave<'m, A: Allocator + Copy>(
    alloc: A,
    engine: &mut Engine<A>,
    dialogue: u32,
) -> Vec<Output<'m, A>, A>
    ensures { Leaves dialogue (all_shown result.items) engine.old engine.new }
{
    match engine.finish(dialogue, Ending::Prearranged, None, &[]) {
        Ok(outputs) => outputs,
        Err(_) => Vec::new(alloc),
    }
}

/// Sends the answers of a dialogue. Where that is refused the operations are told, and the dialogue ends.
fn conclude_dialogue<'m, O: Operations<A>, A: Allocator + Copy>(
    alloc: A,
    engine: &mut Engine<A>,
    operations: &mut O,
    dialogue: u32,
    ends: bool,
) -> Vec<Output<'m, A>, A>
    ensures { ConcludesDialogue O.refused_gives dialogue (concluding ends) (all_shown result.items)
        engine.old operations.old engine.new operations.new }
{
    match send_queue(engine, dialogue, ends) {
        Ok(outputs) => outputs,
        Err(fault) => {
            operations.refused(dialogue, None, fault);
            leave(alloc, engine, dialogue)
        }
    }
}

/// Sends the answers in the dialogue that a message began or continued: by an End where it told an Invoke, else
/// by a Continue.
fn conclude<'m, O: Operations<A>, A: Allocator + Copy>(
    alloc: A,
    engine: &mut Engine<A>,
    operations: &mut O,
    heard: &[Output<'_, A>],
) -> Vec<Output<'m, A>, A>
    ensures { Concludes O.refused_gives (dialogue_of (all_shown heard.now))
        (concluding (list_any is_invoke (all_shown heard.now))) (all_shown result.items)
        engine.old operations.old engine.new operations.new }
{
    match dialogue_of(heard) {
        Some(dialogue) => {
            let ends = has_invoke(heard);
            conclude_dialogue(alloc, engine, operations, dialogue, ends)
        }
        None => Vec::new(alloc),
    }
}

impl<O: Operations<A>, A: Allocator + Copy> Register<O, A> {
    /// A register that has served nothing, with these limits. Set `idle_ms`: a dialogue that the register continued
    /// ends only when it has stood still for so long, if its peer falls silent.
    pub fn new(alloc: A, limits: Limits, operations: O) -> Register<O, A>
        requires { AreLimits limits }
        ensures engine { result.engine ≡ first_world (empty_history limits 1 1).start }
        ensures operations { result.operations ≡ operations }
    {
        Register {
            engine: Engine::new(alloc, limits),
            operations,
        }
    }

    /// Serves a message: bytes that came from an address. Each Invoke of a dialogue is answered, in the order in
    /// which they stand, by what its operation comes to, if its class reports that; a Reject answers one whose
    /// operation the register doesn't have. Then an End goes out with the answers, or a Continue where the message
    /// invoked nothing. A request that the engine refuses is handed to the operations, and not made again. Hand in
    /// the moment first, by `advance`. The only error is that memory was refused for the message itself: nothing has
    /// changed then.
    pub fn receive<'m>(
        &mut self,
        from: &Address,
        bytes: &'m [u8],
    ) -> Result<Served<'m, A>, OutOfMemory>
        ensures ok { IfOk result (λ served. Serves O.class_of_gives O.answer_gives O.refused_gives from.now bytes.now
            (all_shown served.heard.items) (all_shown served.answered.items)
            self.old.engine self.old.operations self.new.engine self.new.operations) }
        ensures engine { OnErr result (self.new.engine ≡ self.old.engine) }
        ensures operations { OnErr result (self.new.operations ≡ self.old.operations) }
    {
        let heard = self.engine.receive(from, bytes)?;
        serve_all(&mut self.engine, &mut self.operations, &heard);
        let alloc = *heard.allocator();
        let answered = conclude(alloc, &mut self.engine, &mut self.operations, &heard);
        Ok(Served { heard, answered })
    }

    /// The clock is at this moment, in milliseconds: each dialogue that has stood still too long is over, which is
    /// told, and nothing is sent. Faults: `MomentTooLate`, `OutOfMemory`.
    pub fn advance<'m>(&mut self, now: u64) -> Result<Vec<Output<'m, A>, A>, Fault>
        ensures moves { EngineAnswers outputs_answer result
            (engine_move self.old.engine (Event.moment now)) self.old.engine self.new.engine }
        ensures err { OnErr result (self.new.engine ≡ self.old.engine) }
        ensures operations { self.new.operations ≡ self.old.operations }
    {
        self.engine.advance(now)
    }

    /// The least moment, in milliseconds, at which `advance` does more than to set the clock; `None` where none is.
    /// A caller may sleep until then, or until a message comes.
    pub fn next_timer(&self) -> Option<u64>
        ensures { result ≡ next_timer_in self.now.engine }
    {
        self.engine.next_timer()
    }
}

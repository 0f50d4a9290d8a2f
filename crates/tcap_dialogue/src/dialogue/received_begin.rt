//! A Begin that is received, which creates a dialogue.

// Hints to inline: each Begin that is received runs through it; docs/PERF.md says what the whole of it inlined gains.

ghost use Rattle.std.specs.Prelude.{◌≡◌, ◌+◌, ◌≤◌, [], Option, false, length, IfOk, IfSome};
ghost use Rattle.ber_core.specs.ObjectIdentifier.{IsObjectIdentifier};
ghost use Rattle.ber_core.specs.Place.{Slice};
ghost use Rattle.tcap_component.specs.ComponentReading.{components_of};
ghost use Rattle.tcap_dialogue.specs.BeginMemory.{begin_indication_octets, HoldsNothing, IsBeginMemory};
ghost use Rattle.tcap_dialogue.specs.Beginning.{begun, begun_from};
ghost use Rattle.tcap_reception.specs.PortionParts.{GivenIn, context_of_portion, info_of_portion};
ghost use Rattle.tcap_primitives.specs.Slices.{AllInPlace, LieInPlace};
ghost use Rattle.tcap_dialogue.specs.StepViews.{StepsTo, at_clock, outcome};
ghost use Rattle.tcap_invocation.specs.Stage.{moment_limit};
ghost use Rattle.tcap_model.specs.Table.TableMove.{born};

use super::Dialogue;
use super::begin_memory::BeginMemory;
use super::kept_address::keep_found;
use super::portion_parts::parts_of;
use super::spares::Spares;
use crate::component_handling::component_portion::handle_components;
use ber_core::OutOfMemory;
use std::alloc::Allocator;
use tcap_address::Address;
use tcap_pdu::TransId;
use tcap_primitives::{Indication, Output, Sink, SinkKind};

impl<A: Allocator + Copy> Dialogue<A> {
    /// The dialogue with this identifier that a Begin creates at this moment, and what is told.
    /// `reject_ms`, `idle_ms` and `clock` are at most 2^62 milliseconds, `from` is the address of its sender,
    /// which is kept, `otid` the originator, `aarq` the contents octets of the application context name and
    /// the user information of its AARQ, if it has one, and `components` the contents of its component
    /// portion (Q.774, Dialogue begin).
    pub fn accept<'m>(
        alloc: A,
        identifier: u32,
        reject_ms: u64,
        idle_ms: u64,
        from: &Address,
        otid: &TransId,
        aarq: Option<(&'m [u8], &'m [u8])>,
        components: &'m [u8],
        clock: u64,
    ) -> Result<(Dialogue<A>, Vec<Output<'m, A>, A>), OutOfMemory>
        requires reject { reject_ms ≤ moment_limit }
        requires idle { idle_ms ≤ moment_limit }
        requires clock { clock ≤ moment_limit }
        requires named { IfSome aarq (λ a. IsObjectIdentifier a.0.now) }
        // What is told, and the dialogue.
        ensures ok { IfOk result (λ r. begun r.1.items r.0
            ≡ outcome (born (at_clock clock) identifier reject_ms idle_ms from.now otid.now
            (context_of_portion aarq.entry) (info_of_portion aarq.entry) components.now)) }
        // The slices that are told are those that were given, and parts of the component portion.
        ensures place { (portion : Option Slice) → GivenIn 0x60 aarq.entry portion
            → IfOk result (λ r. AllInPlace portion components.entry r.1.items) }
    {
        let mut sink = Sink::vector(alloc);
        let mut spares = Spares::new(alloc);
        let mut memory = BeginMemory::new(alloc);
        memory.find(&mut spares, from, aarq, components, &mut sink)?;
        let mut dialogue = Dialogue::fresh(alloc, identifier, reject_ms, idle_ms);
        dialogue.take_begin_with(
            &mut memory,
            &mut spares,
            from,
            otid,
            aarq,
            components,
            clock,
            &mut sink,
        );
        Ok((dialogue, sink.into_vector()))
    }

    /// The Begin that creates the dialogue, in which nothing has happened: what is told is appended to what a sink
    /// holds. The arguments are those of `accept`, and the memory is what `BeginMemory::find` found for this Begin,
    /// which then holds nothing (Q.774, Dialogue begin).
    // The dialogue stands where it is to stay: it is 192 octets, and made before it stands in a table it was moved
    // there, some 60 instructions a Begin. So all memory is found first, and nothing is refused any more.
    #[inline(always)]
    pub fn take_begin_with<'m, K: SinkKind>(
        &mut self,
        memory: &mut BeginMemory<A>,
        spares: &mut Spares<A>,
        from: &Address,
        otid: &TransId,
        aarq: Option<(&'m [u8], &'m [u8])>,
        components: &'m [u8],
        clock: u64,
        sink: &mut Sink<'m, A, K>,
    )
        requires clock { clock ≤ moment_limit }
        requires queue { self.old.standing.queue ≡ [] }
        requires found { IsBeginMemory memory.old spares.old from.now (context_of_portion aarq)
            (length (components_of components.now)) }
        requires places { 1 + length (components_of components.now) ≤ sink.old.places }
        requires octets { begin_indication_octets aarq + length components.now ≤ sink.old.octets }
        ensures nothing { HoldsNothing memory.new }
        // What is told, and the dialogue.
        ensures told { StepsTo sink.old.outputs sink.new.outputs false self.new
            (outcome (begun_from clock self.old from.now otid.now (context_of_portion aarq.entry)
            (info_of_portion aarq.entry) components.now)) }
        // The slices that are told are those that were given, and parts of the component portion.
        ensures place { (portion : Option Slice) → GivenIn 0x60 aarq.entry portion
            → LieInPlace portion components.entry sink.old.slices
            → LieInPlace portion components.entry sink.new.slices }
    {
        let (context, info) = parts_of(aarq);
        sink.tell(Indication::Begin {
            dialogue: self.identifier,
            context,
            info,
        });
        handle_components(
            self.identifier,
            clock,
            components,
            spares,
            &mut self.invocations,
            &mut memory.queue,
            sink,
        );
        self.take_queue(spares, &mut memory.queue);
        keep_found(from, &mut memory.names, &mut self.kept, &mut self.context);
        self.phase.receive_begin(otid);
    }
}

//! The memory that a Begin takes, which is found before its dialogue stands anywhere.

// Hints to inline: each step of an engine runs through it; docs/PERF.md says what the whole of it inlined gains.

ghost use Rattle.std.specs.Prelude.{◌≡◌, ◌+◌, ◌≤◌, [], true, Option, None, length, option_copied, IfSome, OnErr, OnOk};
ghost use Rattle.ber_core.specs.ObjectIdentifier.{IsObjectIdentifier};
ghost use Rattle.ber_core.specs.Place.{Slice};
ghost use Rattle.tcap_component.specs.ComponentReading.{components_of};
ghost use Rattle.tcap_dialogue.specs.BeginMemory.{begin_indication_octets, AreNamesOf, HoldsNothing, IsBeginMemory};
ghost use Rattle.tcap_model.specs.Procedures.Refusals.{can_name};
ghost use Rattle.tcap_primitives.specs.QueueViews.{queue_view};
ghost use Rattle.tcap_primitives.specs.Slices.{LieInPlace};
ghost use Rattle.tcap_reception.specs.PortionParts.{context_of_portion};

use super::kept_address::{Names, is_short};
use super::portion_parts::parts_of;
use super::spares::Spares;
use crate::component_handling::component_portion::reserve_message;
use ber_core::OutOfMemory;
use std::alloc::{Allocator, Global};
use tcap_address::Address;
use tcap_primitives::{Indication, Queue, Sink, SinkKind};

/// The memory that a Begin takes: a queue with room for the Rejects that answer its components, unless what other
/// dialogues left has it, and copies of the address of its sender and of its context, where they take memory (our own).
#[derive(Drop)]
pub struct BeginMemory<A: Allocator + Copy = Global> {
    pub(super) queue: Queue<A>,
    pub(super) names: Option<Names<A>>,
}

impl<A: Allocator + Copy> BeginMemory<A> {
    /// Nothing yet; takes no memory (own).
    #[inline(always)]
    pub fn new(alloc: A) -> Self
        ensures { HoldsNothing result }
    {
        BeginMemory {
            queue: Queue {
                octets: Vec::new(alloc),
                parts: Vec::new(alloc),
            },
            names: None,
        }
    }

    /// Finds all memory that a Begin takes, and room in a sink for what it tells. The arguments are those of
    /// `Dialogue::accept`. The only error is that memory was refused: then nothing is held, and what other dialogues
    /// left is theirs again, unless it grew too large to be kept (Q.774, Dialogue begin).
    #[tactic(auto, using(crate::proofs::PortionNames::named_given))]
    #[inline(always)]
    pub fn find<'m, K: SinkKind>(
        &mut self,
        spares: &mut Spares<A>,
        from: &Address,
        aarq: Option<(&'m [u8], &'m [u8])>,
        components: &'m [u8],
        sink: &mut Sink<'m, A, K>,
    ) -> Result<(), OutOfMemory>
        requires nothing { HoldsNothing self.old }
        requires named { IfSome aarq (λ a. IsObjectIdentifier a.0.now) }
        ensures found { OnOk result (IsBeginMemory self.new spares.new from.now (context_of_portion aarq.entry)
            (length (components_of components.now))) }
        ensures err { OnErr result (HoldsNothing self.new) }
        ensures still { sink.new.outputs ≡ sink.old.outputs }
        ensures places { OnOk result (1 + length (components_of components.now) ≤ sink.new.places) }
        ensures octets { OnOk result (begin_indication_octets aarq.entry + length components.now ≤ sink.new.octets) }
        ensures place { (portion : Option Slice) (other : Slice) → LieInPlace portion other sink.old.slices
            → LieInPlace portion other sink.new.slices }
    {
        let (context, info) = parts_of(aarq);
        // The identifier takes no octets.
        let told = Indication::Begin {
            dialogue: 0,
            context,
            info,
        };
        if reserve_message(spares, &mut self.queue, &told, components, sink).is_err()
            || self.copy_names(from, context).is_err()
        {
            self.leave(spares);
            return Err(OutOfMemory);
        }
        Ok(())
    }

    /// Copies the address of the peer and the context that it named, where they take memory.
    #[inline(always)]
    fn copy_names(&mut self, from: &Address, context: Option<&[u8]>) -> Result<(), OutOfMemory>
        requires nothing { self.old.names ≡ None }
        requires named { can_name (option_copied context) ≡ true }
        ensures queue { self.new.queue ≡ self.old.queue }
        ensures names { OnOk result (AreNamesOf self.new.names from.now (option_copied context.entry)) }
    {
        if context.is_some() || !is_short(from) {
            let alloc = *self.queue.octets.allocator();
            self.names = Some(Names::of(alloc, from, context)?);
        }
        Ok(())
    }

    /// Leaves the memory of the queue to other dialogues, where it is small, and gives the copies back: the Begin is
    /// refused. It takes no memory (own).
    // It is rare, and kept out of what each Begin runs through.
    #[inline(never)]
    pub fn leave(&mut self, spares: &mut Spares<A>)
        requires { queue_view self.old.queue ≡ [] }
        ensures { HoldsNothing self.new }
    {
        self.names = None;
        if self.queue.octets.capacity() > 0 {
            spares.keep_queue(&mut self.queue);
        }
    }
}

//! What has no dialogue: a Unidirectional.

ghost use Rattle.std.specs.Prelude.{◌≡◌, ◌++◌, ◌∷◌, Option, IfOk, OnOk, OnErr};
ghost use Rattle.ber_core.specs.Place.{Slice};
ghost use Rattle.tcap_component.specs.ComponentReading.{components_of};
ghost use Rattle.tcap_reception.specs.PortionParts.{GivenIn, context_of_portion, info_of_portion};
ghost use Rattle.tcap_primitives.specs.OutputViews.{all_shown};
ghost use Rattle.tcap_primitives.specs.Slices.{AllInPlace, LieInPlace};
ghost use Rattle.tcap_model.specs.Procedures.ComponentHandling.{uni_told};
ghost use Rattle.tcap_model.specs.Words.Output as model;
ghost use Rattle.tcap_model.specs.Words.Output.{DialogueIndication};

use super::portion_parts::parts_of;
use crate::component_handling::component_portion::{handle_in_unidirectional, room_for};
use ber_core::OutOfMemory;
use std::alloc::Allocator;
use tcap_primitives::{Indication, Output, Sink, SinkKind};

/// What a Unidirectional tells: TC-UNI, and its components, of which none is answered. `audt` is the
/// contents octets of the application context name and the user information of its AUDT, if it has one,
/// and `components` the contents of its component portion (Q.774, Unstructured dialogue).
pub fn take_uni<'m, A: Allocator + Copy>(
    alloc: A,
    audt: Option<(&'m [u8], &'m [u8])>,
    components: &'m [u8],
) -> Result<Vec<Output<'m, A>, A>, OutOfMemory>
    ensures ok { IfOk result (λ outputs. all_shown outputs.items ≡ model.Output.dialogue (DialogueIndication.uni
        (context_of_portion audt.entry) (info_of_portion audt.entry)) ∷ uni_told (components_of components.now)) }
    // The slices that are told are those that were given, and parts of the component portion.
    ensures place { (portion : Option Slice) → GivenIn 0x60 audt.entry portion
        → IfOk result (λ outputs. AllInPlace portion components.entry outputs.items) }
{
    let mut sink = Sink::vector(alloc);
    take_uni_into(audt, components, &mut sink)?;
    Ok(sink.into_vector())
}

/// `take_uni`, which appends to what a sink holds.
pub fn take_uni_into<'m, A: Allocator + Copy, K: SinkKind>(
    audt: Option<(&'m [u8], &'m [u8])>,
    components: &'m [u8],
    sink: &mut Sink<'m, A, K>,
) -> Result<(), OutOfMemory>
    ensures ok { OnOk result (sink.new.outputs ≡ sink.old.outputs
        ++ (model.Output.dialogue (DialogueIndication.uni (context_of_portion audt.entry) (info_of_portion audt.entry))
        ∷ uni_told (components_of components.now))) }
    ensures still { OnErr result (sink.new.outputs ≡ sink.old.outputs) }
    ensures place { (portion : Option Slice) → GivenIn 0x60 audt.entry portion
        → LieInPlace portion components.entry sink.old.slices → LieInPlace portion components.entry sink.new.slices }
{
    let (context, info) = parts_of(audt);
    let told = Indication::Uni { context, info };
    let octets = told.octet_count().saturating_add(components.len());
    sink.reserve(room_for(components).saturating_add(1), octets)?;
    sink.tell(told);
    handle_in_unidirectional(components, sink);
    Ok(())
}

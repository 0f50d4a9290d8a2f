//! Components written in the canonical form: the shortest definite lengths, parameters copied.

ghost use Rattle.std.specs.Prelude.{◌≡◌, ◌≤◌, ◌⊎◌, length, OnOk, IfOk, IfErr, IsErrOf};
ghost use Rattle.ber_core.specs.Length.{length_limit};
ghost use Rattle.tcap_component.specs.Component.{component_tag, SpellsComponent};
ghost use Rattle.tcap_component.specs.Views.{component_parts};
ghost use Rattle.tcap_component.specs.Written.{written_contents, written_component, CanWriteComponent, IsWriteFault};
ghost use Rattle.tcap_component.specs.declared.fault.WriteFault.{WriteFault};
ghost use Rattle.tcap_component.specs.declared.fault.WriteFault.TheVariants as fault;

use crate::component::Component;
use crate::component::append::put_component;
use crate::component::length::checked_len;
use crate::component::range::in_range;
use crate::fault::WriteFault;
use crate::tag;
use ber_core::{OutOfMemory, element_len};
use std::alloc::Allocator;

/// The tag of a component.
#[inline(always)]
pub(crate) fn tag_of_component(component: &Component<'_>) -> u8
    ensures { result ≡ component_tag (component_parts component.now) }
{
    match component {
        Component::Invoke { .. } => tag::INVOKE,
        Component::ResultLast { .. } => tag::RETURN_RESULT_LAST,
        Component::ErrorBack { .. } => tag::RETURN_ERROR,
        Component::RejectBack { .. } => tag::REJECT,
        Component::ResultMore { .. } => tag::RETURN_RESULT_NOT_LAST,
    }
}

/// The octets of a component that can be written, and whose contents have this length.
#[inline(always)]
fn write_all<A: Allocator + Copy>(
    alloc: A,
    component: &Component<'_>,
    contents: usize,
) -> Result<Vec<u8, A>, OutOfMemory>
    requires can { CanWriteComponent (component_parts component.now) }
    requires contents { contents ≡ length (written_contents (component_parts component.now)) }
    requires within { contents ≤ length_limit }
    ensures { IfOk result (λ octets. octets.items ≡ written_component (component_parts component.now)) }
{
    let mut octets = Vec::with_capacity(alloc, element_len(contents))?;
    put_component(&mut octets, component, contents);
    Ok(octets)
}

/// Writes a component in the canonical form. A fault other than `OutOfMemory` comes exactly where the
/// component can't be written: BadOid first, then BadParameter, then TooLong.
///
/// ```rust
/// let result = Component::ResultLast { id: 5, body: None };
/// let written = tcap_component::write_component(alloc, &result)?;
/// assert_eq!(rt; written.as_slice(), [0xa2, 0x03, 0x02, 0x01, 0x05].as_slice());
/// ```
#[tactic(auto, using(crate::proofs::WrittenGrammar::not_refused_by, crate::proofs::WrittenGrammar::one_due, crate::proofs::WrittenSpelling::component_spelled))]
#[inline(always)]
pub fn write_component<A: Allocator + Copy>(
    alloc: A,
    component: &Component<'_>,
) -> Result<Vec<u8, A>, WriteFault>
    // What is written, and that it can be.
    ensures written { IfOk result (λ octets. octets.items ≡ written_component (component_parts component.now)) }
    ensures ok { OnOk result (CanWriteComponent (component_parts component.now)) }
    // It spells the component, so reading gives the component back.
    ensures spelled { IfOk result (λ octets. SpellsComponent (component_parts component.now) octets.items) }
    // Each fault that is due comes, and no other but `OutOfMemory`, which comes last.
    ensures due { (f : WriteFault) → IsWriteFault (component_parts component.now) f → IsErrOf result f }
    ensures only { IfErr result (λ f. IsWriteFault (component_parts component.now) f
        ⊎ ((f ≡ fault.OutOfMemory) × CanWriteComponent (component_parts component.now))) }
{
    let contents = checked_len(component)?;
    in_range(component);
    Ok(write_all(alloc, component, contents)?)
}

//! The components of a component portion, one after the other.

ghost use Rattle.std.specs.Prelude.{◌≡◌, List, Option, option_map, IfSome, IfOk};
ghost use Rattle.std.specs.List.{AllByRecursion};
ghost use Rattle.ber_core.specs.Place.{AtEnd};
ghost use Rattle.tcap_component.specs.Component.{ComponentParts};
ghost use Rattle.tcap_component.specs.Place.{ItemInPlace};
ghost use Rattle.tcap_component.specs.ComponentReading.{item_at};
ghost use Rattle.tcap_component.specs.Views.{item_view};

use crate::component::Component;
use crate::component::read::split_component;
use crate::fault::ComponentFault;

/// The components of a component portion, one after the other; after the first fault it ends, and what
/// follows a faulty component is not read (Q.773, Component portion; Q.774, Component related abnormal
/// conditions).
#[derive(Clone, Copy, Debug)]
pub struct Components<'a> {
    rest: &'a [u8],
}

impl<'a> Components<'a> {
    ghost use Rattle.tcap_component.specs.ComponentFault.{FaultParts};
    ghost use Rattle.tcap_component.specs.ComponentList.{FirstFault, items};
    ghost use Rattle.tcap_component.specs.ComponentReading.{components_of};
    ghost use Rattle.tcap_component.specs.Views.{components_left};
    ghost use Rattle.tcap_component.specs.Place.{bytes_left};
    ghost use Rattle.tcap_component.specs.Written.{HasParts};

    /// The components in the contents of 6C. It gives exactly the components before the first fault,
    /// then that fault, and then ends.
    ///
    /// ```rust
    /// let mut components = Components::new(&[0xa2, 0x03, 0x02, 0x01, 0x05, 0xa5, 0x00]);
    /// assert!(rt; matches!(components.next(), Some(Ok(Component::ResultLast { id: 5, body: None }))));
    /// assert!(rt; matches!(components.next(), Some(Err(_))));
    /// assert!(rt; components.next().is_none());
    /// ```
    #[tactic(auto, using(crate::proofs::ListGrammar::first_fault_again, crate::proofs::ListGrammar::first_fault_is, crate::proofs::SpelledWritable::all_writable))]
    pub fn new(content: &'a [u8]) -> Components<'a>
        // The components before the first fault, and then that fault.
        ensures first_fault { (cs : List ComponentParts) (f : Option FaultParts)
            → FirstFault cs f content.now → components_left result ≡ items cs f }
        // There are such components and such a fault, or none.
        ensures is { (cs : List ComponentParts) × (f : Option FaultParts)
            × FirstFault cs f content.now × (components_left result ≡ items cs f) }
        // All of these bytes are still to be read.
        ensures place { bytes_left result ≡ content.entry }
        // What is given can be written, but for its length.
        ensures writable { AllByRecursion (λ item. IfOk item HasParts) (components_left result) }
        // The same, computed.
        ensures exact { components_left result ≡ components_of content.now }
    {
        Components { rest: content }
    }
}

impl<'a> Iterator for Components<'a> {
    ghost use Rattle.std.specs.Iterator.{item_count};
    ghost use Rattle.tcap_component.specs.Place.{components_steps};
    ghost use Rattle.tcap_component.specs.Views.{components_left};

    type Item = Result<Component<'a>, ComponentFault>;

    // The first item that is left; its slices are parts of the bytes that are left.
    ghost next_gives = { components_steps };

    ghost remaining = { item_count components_left };

    #[inline(always)]
    fn next(&mut self) -> Option<Result<Component<'a>, ComponentFault>> {
        let (item, rest) = split_item(self.rest);
        self.rest = rest;
        item
    }
}

/// The first item, and what is left behind it: after a fault, nothing.
#[tactic(auto, unfolding(crate::specs::ComponentReading::item_at))]
#[inline(always)]
fn split_item<'a>(bytes: &'a [u8]) -> (Option<Result<Component<'a>, ComponentFault>>, &'a [u8])
    ensures value { (option_map item_view result.0, result.1.now) ≡ item_at bytes.now }
    ensures place { IfSome result.0 (λ item. ItemInPlace item bytes.entry) × AtEnd result.1 bytes.entry }
{
    if bytes.is_empty() {
        return (None, bytes);
    }
    match split_component(bytes) {
        Ok((component, rest)) => (Some(Ok(component)), rest),
        Err(fault) => (Some(Err(fault)), &bytes[bytes.len()..]),
    }
}

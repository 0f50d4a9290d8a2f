//! A component for a caller that doesn't ask for the fault of one that can't be read.

ghost use Rattle.std.specs.Prelude.{◌≡◌};
ghost use Rattle.std.specs.Option.{option_map};
ghost use Rattle.std.specs.Result.{result_ok};
ghost use Rattle.tcap_component.specs.ComponentReading.{component_at, verdict_by, form_at};
ghost use Rattle.tcap_component.specs.Views.{component_parts};

use crate::component::Component;
use crate::component::read::{form_of, read_contents};
use ber_core::read_element;

/// The component that an element is, if it is one.
#[inline(always)]
fn component_of<'a>(octets: &[u8], content: &'a [u8]) -> Option<Component<'a>>
    ensures { option_map component_parts result ≡ result_ok (verdict_by (form_at octets.now) content.now) }
{
    match form_of(octets) {
        Some(form) => read_contents(form, content),
        None => None,
    }
}

/// The first component and what follows it, as `read_component` reads them, if it has no fault. Which fault one has
/// isn't looked for: that takes up to three more readings of its contents, each as long as there are elements in
/// them.
// Inlined, so that nothing is built of a component where only what follows it is asked for: as a call it costs a good
// message 90 instructions.
#[tactic(auto, unfolding(crate::specs::ComponentReading::component_at))]
#[inline(always)]
pub fn take_component<'a>(bytes: &'a [u8]) -> Option<(Component<'a>, &'a [u8])>
    ensures { option_map (λ r. (component_parts r.0, r.1.now)) result ≡ result_ok (component_at bytes.now) }
{
    // Before its end is read, which in the indefinite form takes as long as there are elements in it.
    if let [first, ..] = bytes {
        if form_of(&[*first]).is_none() {
            return None;
        }
    }
    let Ok((element, rest)) = read_element(bytes) else {
        return None;
    };
    match component_of(element.tag, element.content) {
        Some(component) => Some((component, rest)),
        None => None,
    }
}

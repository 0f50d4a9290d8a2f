//! What each writer of components does with one.

use std::alloc::Global;
use tcap_component::{
    Component, WriteFault, append_component, component_fault, component_len, judge_component,
    write_component,
};

/// Whether these octets are appended for the component to what a vector holds.
fn is_appended(alloc: Global, component: &Component<'_>, octets: &[u8]) -> bool {
    let Ok(len) = judge_component(component) else {
        return false;
    };
    let mut out = Vec::new(alloc);
    if out.push(0xff).is_err() || out.reserve(len).is_err() {
        return false;
    }
    append_component(&mut out, component);
    out.as_slice().split_first() == Some((&0xff, octets))
}

/// Whether these octets, and their number, are what is written for the component.
pub(super) fn is_written(alloc: Global, component: &Component<'_>, octets: &[u8]) -> bool {
    match write_component(alloc, component) {
        Ok(written) => {
            written.as_slice() == octets
                && component_len(component) == Some(octets.len())
                && judge_component(component) == Ok(octets.len())
                && is_appended(alloc, component, octets)
        }
        Err(_) => false,
    }
}

/// The fault of writing a component, which is known without writing it, and then it has no length.
pub(super) fn refusal(alloc: Global, component: &Component<'_>) -> Option<WriteFault> {
    let fault = write_component(alloc, component).err();
    if component_fault(component) == fault
        && component_len(component).is_none()
        && judge_component(component).err() == fault
    {
        fault
    } else {
        None
    }
}

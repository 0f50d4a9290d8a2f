//! An Invoke that is to be answered.

ghost use Rattle.std.specs.Prelude.{◌≡◌};
ghost use Rattle.std.specs.Option.{option_map};
ghost use Rattle.tcap_primitives.specs.OutputViews.{shown};
ghost use Rattle.tcap_register.specs.Invokes.{dialogue_told, invoke_told, invoke_view};

use std::alloc::Allocator;
use tcap_component::Code;
use tcap_engine::Output;

/// An Invoke of a dialogue (Q.771, TC-INVOKE indication): the identifier of the dialogue, its own, -128 to 127,
/// the code of the operation, and the octets of the parameter, one element.
#[derive(Clone, Copy)]
pub(crate) struct Invoke<'m> {
    pub(crate) dialogue: u32,
    pub(crate) id: i8,
    pub(crate) code: Code<'m>,
    pub(crate) parameter: Option<&'m [u8]>,
}

/// The Invoke that an output tells, if it tells one that can be answered: one of a Unidirectional has no
/// dialogue.
pub(crate) fn invoke_told<'m, A: Allocator>(output: &Output<'m, A>) -> Option<Invoke<'m>>
    ensures { option_map invoke_view result ≡ invoke_told (shown output.now) }
{
    let Output::Invoked {
        dialogue: Some(dialogue),
        id,
        code,
        parameter,
        ..
    } = output
    else {
        return None;
    };
    Some(Invoke {
        dialogue: *dialogue,
        id: *id,
        code: *code,
        parameter: *parameter,
    })
}

/// The dialogue that a message began or continued, if an output tells one.
pub(crate) fn dialogue_told<A: Allocator>(output: &Output<'_, A>) -> Option<u32>
    ensures { result ≡ dialogue_told (shown output.now) }
{
    if let Output::Begin { dialogue, .. } | Output::Continue { dialogue, .. } = output {
        return Some(*dialogue);
    }
    None
}

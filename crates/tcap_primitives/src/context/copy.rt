//! The application context name that a dialogue keeps.

ghost use Rattle.std.specs.Prelude.{◌≡◌, true, IfOk, option_copied};
ghost use Rattle.ber_core.specs.ObjectIdentifier.{is_object_identifier};
ghost use Rattle.tcap_primitives.specs.ContextViews.{context_view};
ghost use Rattle.tcap_model.specs.Procedures.Refusals.{can_name};

use super::Context;
use std::alloc::{AllocError, Allocator};

impl<A: Allocator + Copy> Context<A> {
    /// A copy of a name.
    pub fn of(alloc: A, name: &[u8]) -> Result<Context<A>, AllocError>
        requires { is_object_identifier name.now ≡ true }
        ensures { IfOk result (λ c. c.octets.items ≡ name.now) }
    {
        let octets = Vec::from_slice(alloc, name)?;
        Ok(Context { octets })
    }

    /// A copy of a name, if there is one.
    pub fn of_any(alloc: A, name: Option<&[u8]>) -> Result<Option<Context<A>>, AllocError>
        requires { can_name (option_copied name) ≡ true }
        ensures { IfOk result (λ c. context_view c ≡ option_copied name.entry) }
    {
        match name {
            None => Ok(None),
            Some(name) => Ok(Some(Context::of(alloc, name)?)),
        }
    }
}

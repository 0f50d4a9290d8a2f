//! What a register can do: the operations of its user.

ghost use Rattle.std.specs.Prelude.{ℕ, ℤ, List, Option, option_copied};
ghost use Rattle.tcap_component.specs.Component.{CodeParts};
ghost use Rattle.tcap_component.specs.Views.{code_parts};
ghost use Rattle.tcap_invocation.specs.declared.class.Class.{Class as OperationClass};
ghost use Rattle.tcap_primitives.specs.declared.fault.Fault.{Fault as RequestFault};
ghost use Rattle.tcap_register.specs.declared.operations.Reply.{Reply as ReplyOf};

use std::alloc::{Allocator, Global};
use tcap_component::{Code, Problem};
use tcap_engine::Fault;
use tcap_invocation::Class;

/// What an operation comes to (Q.771, Operation classes). A parameter is the octets of one element.
#[derive(Debug, Drop)]
pub enum Reply<A: Allocator = Global> {
    /// It succeeded: a Return Result Last with this parameter, where the class reports success.
    Success(Option<Vec<u8, A>>),
    /// It failed: a Return Error with this error code and parameter, where the class reports failure.
    Failure {
        error: Code<'static>,
        parameter: Option<Vec<u8, A>>,
    },
    /// Its Invoke is rejected, in any class: a Reject with this problem.
    Reject(Problem),
}

/// The operations of a register: its user writes them. The ghost members are for a user who proves what the
/// operations do; each has a default, which says nothing.
pub trait Operations<A: Allocator + Copy> {
    /// These operations say that a code has this class, or none.
    ghost class_of_gives: { Self → CodeParts → Option OperationClass → Type 0 } = { λ _ _ _. Unit {0} };

    /// The operation of a code, with a parameter, may come to this reply, and the operations be these then.
    ghost answer_gives: { Self → CodeParts → Option (List ℕ) → ReplyOf A → Self → Type 0 } = { λ _ _ _ _ _. Unit {0} };

    /// These operations, once a refusal was handed to those, may be these.
    ghost refused_gives: { Self → ℕ → Option ℤ → RequestFault → Self → Type 0 } = { λ _ _ _ _ _. Unit {0} };

    /// The class of the operation with this code; `None` where the register has no such operation.
    fn class_of(&self, code: &Code<'_>) -> Option<Class>
        ensures { class_of_gives self.now (code_parts code.now) result };

    /// Does the operation with this code, of which the register has a class. The parameter is the octets of one
    /// element.
    fn answer(&mut self, code: &Code<'_>, parameter: Option<&[u8]>) -> Reply<A>
        ensures { answer_gives self.old (code_parts code.now) (option_copied parameter.entry) result self.new };

    /// The engine refused the answer to the Invoke with this identifier, -128 to 127; or, where there is none,
    /// the message that would have carried the answers. Nothing of it is sent.
    fn refused(&mut self, dialogue: u32, id: Option<i8>, fault: Fault)
        ensures { refused_gives self.old dialogue id fault self.new };
}
